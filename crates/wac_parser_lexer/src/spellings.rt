//! The keywords and symbols by their first byte.

ghost use Rattle.std.specs.Prelude.{◌≡◌, ◌≤◌, ◌⊎◌, ◌<◌, ◌∷◌, ℕ, List, map, IfSome, Some, Ok};
ghost use Rattle.wac_parser_lexer.specs.Begun as spec;
ghost use Rattle.wac_parser_lexer.specs.Pieces.{front_piece};

use crate::token::Token;

#[inline(always)]
#[tactic(auto, unfolding(crate::specs::Begun::spellings_by, crate::specs::Spellings::spellings))]
fn keywords_to_o(first: u8) -> &'static [(&'static str, Token)]
    requires { (97 ≤ first) × (first ≤ 111) }
    ensures { map (λ entry. (entry.0.now, entry.1)) result.now ≡ spec.spellings_by first }
{
    match first {
        b'a' => &[("as", Token::AsKeyword), ("async", Token::AsyncKeyword)],
        b'b' => &[
            ("borrow", Token::BorrowKeyword),
            ("bool", Token::BoolKeyword),
        ],
        b'c' => &[
            ("constructor", Token::ConstructorKeyword),
            ("char", Token::CharKeyword),
        ],
        b'e' => &[
            ("enum", Token::EnumKeyword),
            ("export", Token::ExportKeyword),
            ("error-context", Token::ErrorContextKeyword),
        ],
        b'f' => &[
            ("flags", Token::FlagsKeyword),
            ("func", Token::FuncKeyword),
            ("f32", Token::F32Keyword),
            ("f64", Token::F64Keyword),
            ("future", Token::FutureKeyword),
        ],
        b'i' => &[
            ("import", Token::ImportKeyword),
            ("interface", Token::InterfaceKeyword),
            ("include", Token::IncludeKeyword),
        ],
        b'l' => &[("list", Token::ListKeyword), ("let", Token::LetKeyword)],
        b'n' => &[("new", Token::NewKeyword)],
        b'o' => &[("option", Token::OptionKeyword)],
        _ => &[],
    }
}

#[inline(always)]
#[tactic(auto, unfolding(crate::specs::Begun::spellings_by, crate::specs::Spellings::spellings))]
fn keywords_from_p(first: u8) -> &'static [(&'static str, Token)]
    requires { (112 ≤ first) × (first ≤ 122) }
    ensures { map (λ entry. (entry.0.now, entry.1)) result.now ≡ spec.spellings_by first }
{
    match first {
        b'p' => &[("package", Token::PackageKeyword)],
        b'r' => &[
            ("result", Token::ResultKeyword),
            ("resource", Token::ResourceKeyword),
            ("record", Token::RecordKeyword),
        ],
        b's' => &[
            ("static", Token::StaticKeyword),
            ("s8", Token::S8Keyword),
            ("s16", Token::S16Keyword),
            ("s32", Token::S32Keyword),
            ("s64", Token::S64Keyword),
            ("string", Token::StringKeyword),
            ("stream", Token::StreamKeyword),
        ],
        b't' => &[
            ("type", Token::TypeKeyword),
            ("tuple", Token::TupleKeyword),
            ("targets", Token::TargetsKeyword),
        ],
        b'u' => &[
            ("u8", Token::U8Keyword),
            ("u16", Token::U16Keyword),
            ("u32", Token::U32Keyword),
            ("u64", Token::U64Keyword),
            ("use", Token::UseKeyword),
        ],
        b'v' => &[("variant", Token::VariantKeyword)],
        b'w' => &[("with", Token::WithKeyword), ("world", Token::WorldKeyword)],
        _ => &[],
    }
}

#[tactic(auto, unfolding(crate::specs::Begun::spellings_by, crate::specs::Spellings::spellings))]
fn symbols(first: u8) -> &'static [(&'static str, Token)]
    requires { (first < 97) ⊎ (122 < first) }
    ensures { map (λ entry. (entry.0.now, entry.1)) result.now ≡ spec.spellings_by first }
{
    match first {
        b'(' => &[("(", Token::OpenParen)],
        b')' => &[(")", Token::CloseParen)],
        b',' => &[(",", Token::Comma)],
        b'-' => &[("->", Token::Arrow)],
        b'.' => &[(".", Token::Dot), ("...", Token::Ellipsis)],
        b'/' => &[("/", Token::Slash)],
        b':' => &[(":", Token::Colon)],
        b';' => &[(";", Token::Semicolon)],
        b'<' => &[("<", Token::OpenAngle)],
        b'=' => &[("=", Token::Equals)],
        b'>' => &[(">", Token::CloseAngle)],
        b'@' => &[("@", Token::At)],
        b'[' => &[("[", Token::OpenBracket)],
        b']' => &[("]", Token::CloseBracket)],
        b'_' => &[("_", Token::Underscore)],
        b'{' => &[("{", Token::OpenBrace)],
        b'}' => &[("}", Token::CloseBrace)],
        _ => &[],
    }
}

/// The keywords and symbols that begin with a byte.
#[inline(always)]
pub(crate) fn spellings_by(first: u8) -> &'static [(&'static str, Token)]
    ensures { map (λ entry. (entry.0.now, entry.1)) result.now ≡ spec.spellings_by first }
{
    match first {
        b'a'..=b'o' => keywords_to_o(first),
        b'p'..=b'z' => keywords_from_p(first),
        _ => symbols(first),
    }
}

/// The symbol that a byte is, whatever stands behind it.
#[inline(always)]
pub(crate) fn lone_symbol(b: u8) -> Option<Token>
    ensures { IfSome result (λ symbol. (z : List ℕ) → front_piece (b ∷ z) ≡ (Some (Ok symbol), 1)) }
{
    match b {
        b';' => Some(Token::Semicolon),
        b'{' => Some(Token::OpenBrace),
        b'}' => Some(Token::CloseBrace),
        b':' => Some(Token::Colon),
        b'=' => Some(Token::Equals),
        b'(' => Some(Token::OpenParen),
        b')' => Some(Token::CloseParen),
        b'<' => Some(Token::OpenAngle),
        b'>' => Some(Token::CloseAngle),
        b'_' => Some(Token::Underscore),
        b'[' => Some(Token::OpenBracket),
        b']' => Some(Token::CloseBracket),
        b',' => Some(Token::Comma),
        b'@' => Some(Token::At),
        _ => None,
    }
}

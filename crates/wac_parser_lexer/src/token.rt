//! The kinds of tokens.

ghost use Rattle.std.specs.Prelude.{IfSome};
ghost use Rattle.wac_parser_lexer.specs.Spellings.{Spells, spellings};

use std::fmt;

/// A token of the language.
#[derive(Clone, Copy, Debug, PartialEq, Eq)]
pub enum Token {
    /// A comment to the end of its line; never given by the lexer.
    Comment,
    /// A comment between `/*` and `*/`; never given by the lexer.
    BlockComment,
    /// An identifier.
    Ident,
    /// A string literal, with its quotes.
    String,
    /// A package name, with its version where it has one.
    PackageName,
    /// A package path, with its version where it has one.
    PackagePath,
    /// The `import` keyword.
    ImportKeyword,
    /// The `with` keyword.
    WithKeyword,
    /// The `type` keyword.
    TypeKeyword,
    /// The `tuple` keyword.
    TupleKeyword,
    /// The `list` keyword.
    ListKeyword,
    /// The `option` keyword.
    OptionKeyword,
    /// The `result` keyword.
    ResultKeyword,
    /// The `borrow` keyword.
    BorrowKeyword,
    /// The `resource` keyword.
    ResourceKeyword,
    /// The `variant` keyword.
    VariantKeyword,
    /// The `record` keyword.
    RecordKeyword,
    /// The `flags` keyword.
    FlagsKeyword,
    /// The `enum` keyword.
    EnumKeyword,
    /// The `func` keyword.
    FuncKeyword,
    /// The `static` keyword.
    StaticKeyword,
    /// The `constructor` keyword.
    ConstructorKeyword,
    /// The `u8` keyword.
    U8Keyword,
    /// The `s8` keyword.
    S8Keyword,
    /// The `u16` keyword.
    U16Keyword,
    /// The `s16` keyword.
    S16Keyword,
    /// The `u32` keyword.
    U32Keyword,
    /// The `s32` keyword.
    S32Keyword,
    /// The `u64` keyword.
    U64Keyword,
    /// The `s64` keyword.
    S64Keyword,
    /// The `f32` keyword.
    F32Keyword,
    /// The `f64` keyword.
    F64Keyword,
    /// The `char` keyword.
    CharKeyword,
    /// The `bool` keyword.
    BoolKeyword,
    /// The `string` keyword.
    StringKeyword,
    /// The `interface` keyword.
    InterfaceKeyword,
    /// The `world` keyword.
    WorldKeyword,
    /// The `export` keyword.
    ExportKeyword,
    /// The `new` keyword.
    NewKeyword,
    /// The `let` keyword.
    LetKeyword,
    /// The `use` keyword.
    UseKeyword,
    /// The `include` keyword.
    IncludeKeyword,
    /// The `as` keyword.
    AsKeyword,
    /// The `package` keyword.
    PackageKeyword,
    /// The `targets` keyword.
    TargetsKeyword,
    /// The `async` keyword.
    AsyncKeyword,
    /// The `stream` keyword.
    StreamKeyword,
    /// The `future` keyword.
    FutureKeyword,
    /// The `error-context` keyword.
    ErrorContextKeyword,
    /// The `;` symbol.
    Semicolon,
    /// The `{` symbol.
    OpenBrace,
    /// The `}` symbol.
    CloseBrace,
    /// The `:` symbol.
    Colon,
    /// The `=` symbol.
    Equals,
    /// The `(` symbol.
    OpenParen,
    /// The `)` symbol.
    CloseParen,
    /// The `->` symbol.
    Arrow,
    /// The `<` symbol.
    OpenAngle,
    /// The `>` symbol.
    CloseAngle,
    /// The `_` symbol.
    Underscore,
    /// The `[` symbol.
    OpenBracket,
    /// The `]` symbol.
    CloseBracket,
    /// The `.` symbol.
    Dot,
    /// The `...` symbol.
    Ellipsis,
    /// The `,` symbol.
    Comma,
    /// The `/` symbol.
    Slash,
    /// The `@` symbol.
    At,
}

/// Every keyword and symbol, with its text.
static SPELLINGS: [(&str, Token); 61] = [
    ("import", Token::ImportKeyword),
    ("with", Token::WithKeyword),
    ("type", Token::TypeKeyword),
    ("tuple", Token::TupleKeyword),
    ("list", Token::ListKeyword),
    ("option", Token::OptionKeyword),
    ("result", Token::ResultKeyword),
    ("borrow", Token::BorrowKeyword),
    ("resource", Token::ResourceKeyword),
    ("variant", Token::VariantKeyword),
    ("record", Token::RecordKeyword),
    ("flags", Token::FlagsKeyword),
    ("enum", Token::EnumKeyword),
    ("func", Token::FuncKeyword),
    ("static", Token::StaticKeyword),
    ("constructor", Token::ConstructorKeyword),
    ("u8", Token::U8Keyword),
    ("s8", Token::S8Keyword),
    ("u16", Token::U16Keyword),
    ("s16", Token::S16Keyword),
    ("u32", Token::U32Keyword),
    ("s32", Token::S32Keyword),
    ("u64", Token::U64Keyword),
    ("s64", Token::S64Keyword),
    ("f32", Token::F32Keyword),
    ("f64", Token::F64Keyword),
    ("char", Token::CharKeyword),
    ("bool", Token::BoolKeyword),
    ("string", Token::StringKeyword),
    ("interface", Token::InterfaceKeyword),
    ("world", Token::WorldKeyword),
    ("export", Token::ExportKeyword),
    ("new", Token::NewKeyword),
    ("let", Token::LetKeyword),
    ("use", Token::UseKeyword),
    ("include", Token::IncludeKeyword),
    ("as", Token::AsKeyword),
    ("package", Token::PackageKeyword),
    ("targets", Token::TargetsKeyword),
    ("async", Token::AsyncKeyword),
    ("stream", Token::StreamKeyword),
    ("future", Token::FutureKeyword),
    ("error-context", Token::ErrorContextKeyword),
    (";", Token::Semicolon),
    ("{", Token::OpenBrace),
    ("}", Token::CloseBrace),
    (":", Token::Colon),
    ("=", Token::Equals),
    ("(", Token::OpenParen),
    (")", Token::CloseParen),
    ("->", Token::Arrow),
    ("<", Token::OpenAngle),
    (">", Token::CloseAngle),
    ("_", Token::Underscore),
    ("[", Token::OpenBracket),
    ("]", Token::CloseBracket),
    (".", Token::Dot),
    ("...", Token::Ellipsis),
    (",", Token::Comma),
    ("/", Token::Slash),
    ("@", Token::At),
];

/// The text of a keyword or a symbol.
fn spelling(token: Token) -> Option<&'static str>
    ensures { IfSome result (λ text. Spells spellings token text.now) }
{
    let mut table: &[(&'static str, Token)] = &SPELLINGS;
    'table: while let [(text, spelled), rest @ ..] = table {
        if *spelled == token {
            return Some(*text);
        }
        table = rest;
    }
    None
}

impl fmt::Display for Token {
    fn fmt<W: fmt::Write>(&self, f: &mut fmt::Formatter<W>) -> fmt::Result {
        match self {
            Token::Comment | Token::BlockComment => write!(f, "comment"),
            Token::Ident => write!(f, "identifier"),
            Token::String => write!(f, "string literal"),
            Token::PackageName => write!(f, "package name"),
            Token::PackagePath => write!(f, "package path"),
            _ => match spelling(*self) {
                Some(text) if text.starts_with(|c: char| c.is_ascii_lowercase()) => write!(
                    f,
                    "`{text}` keyword"
                ),
                Some(text) => write!(f, "`{text}`"),
                None => Ok(()),
            },
        }
    }
}

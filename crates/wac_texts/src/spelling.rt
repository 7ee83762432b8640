//! What can be spelled in a source.

ghost use Rattle.std.specs.Prelude.{◌≡◌, ◌↔◌, IsTrue};
ghost use Rattle.wac_texts.specs.Plugs.{has_byte, IsPackageName, IsSpellable};

use wac_parser_lexer::{Lexer, Token};

/// Whether a byte stands in a text.
pub(crate) fn has_byte(text: &str, byte: u8) -> bool
    ensures { result ≡ has_byte byte text.now }
{
    text.as_bytes().contains(&byte)
}

/// Whether a text is one token, the name of a package.
pub(crate) fn is_package_name(text: &str) -> bool
    ensures { IsTrue result ↔ IsPackageName text.now }
{
    let Ok(lexer) = Lexer::new(text) else {
        return false;
    };
    match lexer.peek() {
        Some((Ok(Token::PackageName), span)) => span.offset == 0 && span.length == text.len(),
        _ => false,
    }
}

/// Whether a text can stand between two quotes.
pub(crate) fn is_spellable(text: &str) -> bool
    ensures { IsTrue result ↔ IsSpellable text.now }
{
    !has_byte(text, b'"') && Lexer::new(text).is_ok()
}

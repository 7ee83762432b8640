//! Faults of a lexer.

ghost use Rattle.std.specs.Prelude.{◌≡◌};

use thiserror::Error;

/// A fault in a source.
#[derive(Clone, Copy, Debug, Default, PartialEq, Eq, Error)]
pub enum Error {
    /// A character begins no token.
    #[default]
    #[error("unexpected token was encountered")]
    UnexpectedToken,
    /// A string literal has no closing quote.
    #[error("an unterminated string was encountered")]
    UnterminatedString,
    /// A block comment has no end.
    #[error("an unterminated comment was encountered")]
    UnterminatedComment,
    /// A character changes the direction of the text.
    #[error("disallowed bidirectional override codepoint `{c}`", c = .0.escape_unicode())]
    DisallowedBidirectionalOverride(char),
    /// A character is deprecated or discouraged by Unicode.
    #[error("codepoint `{c}` is discouraged by Unicode", c = .0.escape_unicode())]
    DiscouragedUnicodeCodepoint(char),
    /// A character is a control code other than a tab, a line feed or a carriage return.
    #[error("disallowed control code '{c}'", c = .0.escape_unicode())]
    DisallowedControlCode(char),
}

impl From<()> for Error {
    ghost use Rattle.wac_parser_lexer.specs.declared.error.Error.TheVariants.{UnexpectedToken};

    ghost from_gives = { λ _ e. e ≡ UnexpectedToken };

    fn from(_: ()) -> Self {
        Error::UnexpectedToken
    }
}

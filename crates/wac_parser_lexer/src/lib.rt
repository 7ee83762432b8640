//! The tokens of a source.
#![tactic(auto)]

mod docs;
mod error;
mod front;
mod laws;
mod lexer;
mod pieces;
mod refused;
mod scan;
mod span;
mod spellings;
mod token;

pub use error::Error;
pub use laws::{
    items_in_order, longest_token, only_longest_token, pieces_of_sources,
    unexpected_is_one_character,
};
pub use lexer::Lexer;
pub use span::{SourceSpan, span_in};
pub use token::Token;

/// What a lexer answers.
pub type LexerResult<T> = Result<T, Error>;

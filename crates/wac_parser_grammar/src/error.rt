//! Why a document can't be parsed.

use std::alloc::{AllocError, AllocFailed};
use std::fmt;
use thiserror::Error;
use wac_parser_lexer::{Error as LexerError, SourceSpan, Token};

/// A found token, or the end.
#[derive(Drop)]
struct Found(Option<Token>);

impl fmt::Display for Found {
    fn fmt<W: fmt::Write>(&self, f: &mut fmt::Formatter<W>) -> fmt::Result {
        match self.0 {
            Some(token) => write!(f, "{token}"),
            None => write!(f, "end of input"),
        }
    }
}

/// The remembered ones of so many expected tokens.
#[derive(Drop)]
struct Attempts {
    tokens: [Option<Token>; 10],
    count: usize,
}

impl fmt::Display for Attempts {
    fn fmt<W: fmt::Write>(&self, f: &mut fmt::Formatter<W>) -> fmt::Result {
        for (i, attempt) in self.tokens.iter().enumerate() {
            let Some(token) = attempt else {
                return Ok(());
            };
            if i > 0 {
                write!(f, ", ")?;
            }
            if i + 1 == self.count {
                write!(f, "or ")?;
            }
            write!(f, "{token}")?;
        }
        if self.count > 10 {
            write!(f, ", or more...")?;
        }
        Ok(())
    }
}

/// What a declaration without members declares.
#[derive(Clone, Copy, Debug, PartialEq, Eq)]
pub enum DeclaredType {
    /// A variant.
    Variant,
    /// A record.
    Record,
    /// Flags.
    Flags,
    /// An enum.
    Enum,
}

impl fmt::Display for DeclaredType {
    fn fmt<W: fmt::Write>(&self, f: &mut fmt::Formatter<W>) -> fmt::Result {
        match self {
            DeclaredType::Variant => write!(f, "variant"),
            DeclaredType::Record => write!(f, "record"),
            DeclaredType::Flags => write!(f, "flags"),
            DeclaredType::Enum => write!(f, "enum"),
        }
    }
}

/// What a declaration must have.
#[derive(Clone, Copy, Debug, PartialEq, Eq)]
pub enum MemberKind {
    /// A case of a variant or an enum.
    Case,
    /// A field of a record.
    Field,
    /// A flag of flags.
    Flag,
}

impl fmt::Display for MemberKind {
    fn fmt<W: fmt::Write>(&self, f: &mut fmt::Formatter<W>) -> fmt::Result {
        match self {
            MemberKind::Case => write!(f, "case"),
            MemberKind::Field => write!(f, "field"),
            MemberKind::Flag => write!(f, "flag"),
        }
    }
}

/// A fault that ends a parse.
#[derive(Debug, Drop, Error)]
pub enum Error {
    /// The lexer refused the source, or gave a faulty item.
    #[error("{error}")]
    Lexer {
        /// The lexer's fault.
        error: LexerError,
        /// Where it stands.
        span: SourceSpan,
    },
    /// Another token stands where one alone may.
    #[error("expected {expected}, found {found}", found = Found(*.found))]
    Expected {
        /// The token that may stand there.
        expected: Token,
        /// The token that stands there, `None` at the end.
        found: Option<Token>,
        /// Where it stands.
        span: SourceSpan,
    },
    /// Another token stands where one of two may.
    #[error("expected {first} or {second}, found {found}", found = Found(*.found))]
    ExpectedEither {
        /// The one token that may stand there.
        first: Token,
        /// The other token that may stand there.
        second: Token,
        /// The token that stands there, `None` at the end.
        found: Option<Token>,
        /// Where it stands.
        span: SourceSpan,
    },
    /// Another token stands where one of many may.
    #[error("expected either {attempts}, found {found}", attempts = Attempts {tokens: *.expected, count: *.count}, found = Found(*.found))]
    ExpectedMultiple {
        /// The first ten of the tokens that may stand there.
        expected: [Option<Token>; 10],
        /// How many tokens may stand there.
        count: usize,
        /// The token that stands there, `None` at the end.
        found: Option<Token>,
        /// Where it stands.
        span: SourceSpan,
    },
    /// A type declares nothing between its braces.
    #[error("{ty} must contain at least one {kind}")]
    EmptyType {
        /// What is declared.
        ty: DeclaredType,
        /// What it must declare.
        kind: MemberKind,
        /// The closing brace.
        span: SourceSpan,
    },
    /// A version is none by the rules of semantic versions.
    #[error("`{version}` is not a valid semantic version")]
    InvalidVersion {
        /// The text of the version.
        version: String,
        /// Where it stands.
        span: SourceSpan,
    },
    /// A type or an expression begins past the greatest depth.
    #[error("nested too deep")]
    NestedTooDeep {
        /// The first item past the greatest depth.
        span: SourceSpan,
    },
    /// A growth was refused.
    #[error("out of memory")]
    Memory,
}

/// What a parser answers.
pub type ParseResult<T> = Result<T, Error>;

impl From<(LexerError, SourceSpan)> for Error {
    ghost use Rattle.std.specs.Prelude.{◌≡◌};
    ghost use Rattle.wac_parser_grammar.specs.declared.error.Error.TheVariants.{Lexer};

    ghost from_gives = { λ x e. e ≡ Lexer x.0 x.1 };

    fn from(fault: (LexerError, SourceSpan)) -> Error {
        Error::Lexer {
            error: fault.0,
            span: fault.1,
        }
    }
}

impl From<AllocError> for Error {
    ghost use Rattle.std.specs.Prelude.{◌≡◌};
    ghost use Rattle.wac_parser_grammar.specs.declared.error.Error.TheVariants.{Memory};

    ghost from_gives = { λ _ e. e ≡ Memory };

    fn from(_e: AllocError) -> Error {
        Error::Memory
    }
}

impl<T: Drop> From<AllocFailed<T>> for Error {
    ghost use Rattle.std.specs.Prelude.{◌≡◌};
    ghost use Rattle.wac_parser_grammar.specs.declared.error.Error.TheVariants.{Memory};

    ghost from_gives = { λ _ e. e ≡ Memory };

    fn from(_e: AllocFailed<T>) -> Error {
        Error::Memory
    }
}

//! A look at the next item.

ghost use Rattle.std.specs.Prelude.{◌≡◌, ◌<◌, true, false, if◌then◌else◌};
ghost use Rattle.wac_parser_grammar.specs.Ahead as spec;
ghost use Rattle.wac_parser_grammar.specs.Faults.{fault_of};

use std::marker::Model;
use wac_parser_grammar::Error;
use wac_parser_lexer::{Lexer, LexerResult, SourceSpan, Token};

#[tactic(auto, unfolding(wac_parser_grammar::specs::Ahead::same_token))]
pub(crate) fn same_token(a: Token, b: Token) -> bool
    ensures { result ≡ spec.same_token a b }
{
    a == b
}

/// The next item of a lexer, and the tokens that were tried there: the first ten, and how many.
#[derive(Drop)]
pub struct Lookahead {
    next: Option<(LexerResult<Token>, SourceSpan)>,
    attempts: [Option<Token>; 10],
    span: SourceSpan,
    count: usize,
}

impl Model for Lookahead {
    ghost use Rattle.wac_parser_grammar.specs.Ahead.{Ahead};

    ghost Value = { Ahead };

    ghost view = { λ l. record { next = l.next; span = l.span; attempts = l.attempts; count = l.count } };
}

impl Lookahead {
    /// A look at the next item of a lexer, before any token is tried.
    pub fn new(lexer: &Lexer<'_>) -> Self
        ensures { result ≡ spec.fresh lexer.now }
    {
        Lookahead {
            next: lexer.peek(),
            attempts: [None; 10],
            span: lexer.span(),
            count: 0,
        }
    }

    /// Whether the token comes next; if not, it counts as tried.
    pub fn peek(&mut self, expected: Token) -> bool
        ensures value { result ≡ spec.is_token expected (spec.token_of self.old.next) }
        ensures after { self.new ≡ (if result then self.old else spec.tried expected self.old) }
    {
        if let Some((Ok(found), _)) = self.next {
            if same_token(found, expected) {
                return true;
            }
        }
        self.add(expected);
        false
    }

    /// Counts the token as tried.
    fn add(&mut self, expected: Token)
        ensures { self.new ≡ spec.tried expected self.old }
    {
        if self.count < 10 {
            self.attempts[self.count] = Some(expected);
        }
        self.count = self.count.saturating_add(1);
    }

    /// Counts all the tokens as tried.
    pub(crate) fn add_all(&mut self, expected: &[Token])
        ensures { self.new ≡ spec.tried_all expected.now self.old }
    {
        for token in expected {
            self.add(*token);
        }
    }

    /// Whether one of the tokens comes next; if not, all count as tried.
    pub fn peek_any(&mut self, expected: &[Token]) -> bool
        ensures { spec.Tries expected.now self.old result self.new }
    {
        for token in expected {
            if self.peek(*token) {
                return true;
            }
        }
        false
    }

    /// The fault that the tried tokens make.
    #[tactic(auto, unfolding(wac_parser_grammar::specs::Ahead::said))]
    pub fn error(self) -> Error
        requires { 0 < self.count }
        ensures { fault_of result ≡ spec.said self }
    {
        let (found, span) = match self.next {
            Some((Ok(token), span)) => (Some(token), span),
            Some((Err(error), span)) => return Error::Lexer { error, span },
            None => (None, self.span),
        };
        by_attempts(self.count, self.attempts, found, span)
    }
}

/// The fault of so many attempts.
fn by_attempts(
    count: usize,
    attempts: [Option<Token>; 10],
    found: Option<Token>,
    span: SourceSpan,
) -> Error
    ensures { fault_of result ≡ spec.by_attempts count attempts found span }
{
    if let (1, Some(expected)) = (count, attempts[0]) {
        return Error::Expected {
            expected,
            found,
            span,
        };
    }
    if let (2, Some(first), Some(second)) = (count, attempts[0], attempts[1]) {
        return Error::ExpectedEither {
            first,
            second,
            found,
            span,
        };
    }
    Error::ExpectedMultiple {
        expected: attempts,
        count,
        found,
        span,
    }
}

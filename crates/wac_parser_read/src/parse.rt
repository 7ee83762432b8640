//! What can be parsed, and lists of it.
#![tactic(auto, using(wac_parser_terms::proofs::Places::places))]

ghost use Rattle.wac_parser_grammar.specs.Places.{IsBehind};
ghost use Rattle.std.specs.Prelude.{◌≡◌, ◌∷◌, [], ◌<◌, ◌≤◌, Bool, false, true, OnOk, OnErr, IfErr, map};
ghost use Rattle.wac_parser_lexer.specs.Items.{Input};
ghost use Rattle.wac_parser_grammar.specs.Ahead as ahead;
ghost use Rattle.wac_parser_grammar.specs.Faults.{Fault, fault_of};
ghost use Rattle.wac_parser_grammar.specs.Rules.{Rule, left, list_of, optional_of};
ghost use Rattle.std.specs.Option.{option_map};
ghost use Rattle.wac_parser_grammar.specs.Reads.{Reads};
ghost use Rattle.wac_parser_grammar.specs.Declarations.{body};
ghost use Rattle.wac_parser_read.specs.Parsing.{LeavesFewer};

use std::alloc::Global;
use wac_parser_grammar::{Error, ParseResult};
use wac_parser_lexer::{Lexer, Token};
use wac_parser_terms::{Lookahead, Peek, behind, optional, parse_token, sees};

/// A part of a document.
pub trait Parse<'a>: Sized + Drop {
    /// What a value says, without where it lies in memory.
    ghost Plain: { Type 0 };

    ghost view: { Self → Plain };

    /// How such a part is written.
    ghost rule: { Rule Plain };

    /// Whether each such part has at least one item.
    ghost nonempty: { Bool };

    /// Takes the items of such a part.
    fn parse(alloc: Global, lexer: &mut Lexer<'a>) -> ParseResult<Self>
        ensures value { Reads view rule lexer.old result lexer.new }
        ensures takes { OnOk result (LeavesFewer nonempty lexer.new lexer.old) }
        ensures goes_on { IsBehind lexer.new lexer.old };
}

/// Refuses where neither the token that ends a list comes next nor one that begins a value.
pub(crate) fn expect_value<T: Peek>(lexer: &Lexer<'_>, until: Token) -> ParseResult<()>
    requires { ahead.sees until lexer.now ≡ false }
    ensures some { OnOk result (ahead.sees_any T.first lexer.now ≡ true) }
    ensures none { OnErr result (ahead.sees_any T.first lexer.now ≡ false) }
    ensures fault { IfErr result (λ e. fault_of e ≡ ahead.none_of (until ∷ T.first) lexer.now) }
{
    let mut lookahead = Lookahead::new(lexer);
    lookahead.peek(until);
    if T::peek(&mut lookahead) {
        return Ok(());
    }
    Err(lookahead.error())
}

/// The values up to a token, each followed by a comma or not; one behind the last may be left out. Each takes an item.
pub fn parse_delimited<'a, T: Parse<'a> + Peek>(
    alloc: Global,
    lexer: &mut Lexer<'a>,
    until: Token,
    with_commas: bool,
) -> ParseResult<Vec<T>>
    requires some { T.nonempty ≡ true }
    ensures value { Reads (λ v. map T.view v.items) (list_of T.rule T.first until with_commas) lexer.old result lexer.new }
    ensures keeps { OnOk result (left lexer.new ≤ left lexer.old) }
    ensures goes_on { IsBehind lexer.new lexer.old }
{
    let mut items = Vec::new(alloc);
    'items: while !sees(lexer, until) {
        expect_value::<T>(lexer, until)?;
        items.push(T::parse(alloc, lexer)?)?;
        behind(lexer, until, with_commas)?;
    }
    Ok(items)
}

/// The values between braces, each followed by a comma or not.
pub(crate) fn braced<'a, T: Parse<'a> + Peek>(
    alloc: Global,
    lexer: &mut Lexer<'a>,
    with_commas: bool,
) -> ParseResult<Vec<T>>
    requires some { T.nonempty ≡ true }
    ensures value { Reads (λ v. map T.view v.items) (body T.rule T.first with_commas) lexer.old result lexer.new }
    ensures takes { OnOk result (left lexer.new < left lexer.old) }
    ensures goes_on { IsBehind lexer.new lexer.old }
{
    parse_token(lexer, Token::OpenBrace)?;
    let items = parse_delimited(alloc, lexer, Token::CloseBrace, with_commas)?;
    parse_token(lexer, Token::CloseBrace)?;
    Ok(items)
}

/// A part behind the token, where that comes next; a faulty item there is refused.
pub fn parse_optional<'a, T: Parse<'a>>(
    alloc: Global,
    lexer: &mut Lexer<'a>,
    expected: Token,
) -> ParseResult<Option<T>>
    ensures value { Reads (option_map T.view) (optional_of expected T.rule) lexer.old result lexer.new }
    ensures keeps { OnOk result (left lexer.new ≤ left lexer.old) }
    ensures goes_on { IsBehind lexer.new lexer.old }
{
    if !optional(lexer, expected)? {
        return Ok(None);
    }
    Ok(Some(T::parse(alloc, lexer)?))
}

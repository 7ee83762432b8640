//! Numbers and names.
ghost use Rattle.std.specs.Prelude.{◌≡◌, ◌<◌, ◌≤◌, ◌^◌, length, IfOk, Err, map, string_bytes};
ghost use Rattle.wac_component.specs.Rules as rule;
ghost use Rattle.wac_component.specs.Numbers as grammar;
ghost use Rattle.wac_component.specs.Reads.{Gives};
ghost use Rattle.wac_component.specs.declared.fault.Stop.TheVariants as stop;

use crate::fault::{Fault, FaultKind, Stop};
use std::alloc::Global;

/// A fault before these bytes.
pub fn refuse(kind: FaultKind, bytes: &[u8]) -> Stop
    ensures { result ≡ stop.Fault (rule.fault kind bytes.now) }
{
    Stop::Fault(Fault {
        kind,
        left: bytes.len(),
    })
}

/// The next byte.
pub fn read_byte(bytes: &[u8]) -> Result<(u8, &[u8]), Stop>
    ensures { Gives (λ x. (x.0, x.1.now)) result (rule.byte.read bytes.now) }
{
    match bytes {
        [] => Err(refuse(FaultKind::Short, bytes)),
        [b, rest @ ..] => Ok((*b, rest)),
    }
}

/// That byte, or else a fault behind it.
pub fn expect_byte(expected: u8, kind: FaultKind, bytes: &[u8]) -> Result<&[u8], Stop>
    ensures { Gives (λ x. (tt, x.now)) result ((rule.exactly expected kind).read bytes.now) }
{
    let (b, rest) = read_byte(bytes)?;
    if b != expected {
        return Err(refuse(kind, rest));
    }
    Ok(rest)
}

/// So many bytes.
pub fn take_bytes(count: u32, bytes: &[u8]) -> Result<(&[u8], &[u8]), Stop>
    ensures { Gives (λ x. (x.0.now, x.1.now)) result ((rule.bytes count).read bytes.now) }
{
    if bytes.len() < count as usize {
        return Err(refuse(FaultKind::Short, bytes));
    }
    Ok(bytes.split_at(count as usize))
}

/// That many bytes are there.
pub fn check_room(count: u32, bytes: &[u8]) -> Result<(), Stop>
    ensures { Gives (λ _. (tt, bytes.now)) result ((rule.room count).read bytes.now) }
{
    if bytes.len() < count as usize {
        return Err(refuse(FaultKind::Short, bytes));
    }
    Ok(())
}

/// The rest stands that many bytes behind the beginning.
pub fn check_end(count: u32, bytes: &[u8], rest: &[u8]) -> Result<(), Stop>
    ensures { Gives (λ _. (tt, rest.now)) result (rule.end_at count bytes.now rest.now) }
{
    if rest.len() + count as usize != bytes.len() {
        return Err(refuse(FaultKind::Size, rest));
    }
    Ok(())
}

/// The bytes of the rest up to that many behind the beginning, and those behind them.
pub fn take_up_to<'a>(
    count: u32,
    bytes: &[u8],
    rest: &'a [u8],
) -> Result<(&'a [u8], &'a [u8]), Stop>
    ensures { Gives (λ x. (x.0.now, x.1.now)) result (rule.up_to count bytes.now rest.now) }
{
    if bytes.len() < count as usize {
        return Err(refuse(FaultKind::Short, bytes));
    }
    let end = rest.len() + count as usize;
    if end < bytes.len() {
        return Err(refuse(FaultKind::Size, rest));
    }
    Ok(rest.split_at(end - bytes.len()))
}

/// A number of 32 bits.
fn check_small(n: u64, bytes: &[u8]) -> Result<(u32, &[u8]), Stop>
    ensures { Gives (λ x. (x.0, x.1.now)) result ((grammar.small n).read bytes.now) }
{
    if n > 4294967295 {
        return Err(refuse(FaultKind::Number, bytes));
    }
    Ok((n as u32, bytes))
}

/// A number of at most so many digits, the last below the limit.
#[cycle(digits)]
fn read_digits(most: u32, limit: u8, bytes: &[u8]) -> Result<(u32, &[u8]), Stop>
    ensures { Gives (λ x. (x.0, x.1.now)) result ((grammar.digits most limit).read bytes.now) }
{
    if most == 0 {
        return Err(refuse(FaultKind::Number, bytes));
    }
    read_some_digits(most - 1, limit, bytes)
}

/// A digit, and at most so many more.
#[cycle(digits)]
fn read_some_digits(more: u32, limit: u8, bytes: &[u8]) -> Result<(u32, &[u8]), Stop>
    ensures { Gives (λ x. (x.0, x.1.now)) result ((grammar.some_digits (grammar.digits more limit) limit).read bytes.now) }
{
    let (b, rest) = read_byte(bytes)?;
    if b < limit {
        return Ok((b as u32, rest));
    }
    if b < 128 {
        return Err(refuse(FaultKind::Number, rest));
    }
    let (high, rest) = read_digits(more, limit, rest)?;
    check_small((b - 128) as u64 + 128 * high as u64, rest)
}

/// An unsigned number.
pub fn read_number(bytes: &[u8]) -> Result<(u32, &[u8]), Stop>
    ensures { Gives (λ x. (x.0, x.1.now)) result (grammar.number.read bytes.now) }
{
    read_digits(5, 128, bytes)
}

/// A signed number that is not negative.
pub fn read_signed(bytes: &[u8]) -> Result<(u32, &[u8]), Stop>
    ensures { Gives (λ x. (x.0, x.1.now)) result (grammar.signed_number.read bytes.now) }
{
    read_digits(5, 64, bytes)
}

/// A text that is UTF-8.
fn check_text(alloc: Global, text: &[u8], rest: &[u8]) -> Result<String, Stop>
    ensures { Gives (λ x. (string_bytes x, rest.now)) result ((grammar.text text.now).read rest.now) }
{
    match std::str::from_utf8(text) {
        Ok(text) => Ok(String::from_str(alloc, text)?),
        Err(_) => Err(refuse(FaultKind::Text, rest)),
    }
}

/// A text with its length.
#[tactic(auto, unfolding(crate::specs::Numbers::name))]
pub fn read_name(alloc: Global, bytes: &[u8]) -> Result<(String, &[u8]), Stop>
    ensures { Gives (λ x. (string_bytes x.0, x.1.now)) result (grammar.name.read bytes.now) }
{
    let (count, rest) = read_number(bytes)?;
    let (front, rest) = take_bytes(count, rest)?;
    Ok((check_text(alloc, front, rest)?, rest))
}

/// Names, as of flags.
pub fn read_names(alloc: Global, bytes: &[u8]) -> Result<(Vec<String>, &[u8]), Stop>
    ensures { Gives (λ x. (map string_bytes x.0.items, x.1.now)) result ((grammar.vec grammar.name).read bytes.now) }
{
    let (count, first) = read_number(bytes)?;
    let mut values = Vec::new(alloc);
    let mut rest = first;
    for _ in 0..count {
        let (value, after) = read_name(alloc, rest)?;
        values.push(value)?;
        rest = after;
    }
    Ok((values, rest))
}

//! Canonical functions.
ghost use Rattle.std.specs.Prelude.{◌≡◌, map};
ghost use Rattle.wac_component.specs.Numbers.{vec};
ghost use Rattle.wac_component.specs.Canonicals as grammar;
ghost use Rattle.wac_component.specs.Views.{canonical_view};
ghost use Rattle.wac_component.specs.Reads.{Gives};

use crate::entry::{Canonical, CanonicalOption};
use crate::fault::{FaultKind, Stop};
use crate::numbers::{expect_byte, read_byte, read_number, refuse};
use crate::types::read_answer;
use std::alloc::Global;

/// What stands behind the number of a function of the component model's own.
#[derive(Clone, Copy, Debug, PartialEq, Eq)]
pub enum Operands {
    Nothing,
    Index,
    Flag,
    Options,
    IndexOptions,
    IndexIndex,
    IndexFlag,
    FlagIndex,
    /// What a task answers, and options.
    Answer,
    /// The type `i32`, and an index.
    Context,
}

/// An option of one byte.
fn option_of(b: u8) -> Option<CanonicalOption>
    ensures { result ≡ grammar.option_of b }
{
    match b {
        0x00 => Some(CanonicalOption::Utf8),
        0x01 => Some(CanonicalOption::Utf16),
        0x02 => Some(CanonicalOption::CompactUtf16),
        0x06 => Some(CanonicalOption::Async),
        0x09 => Some(CanonicalOption::Gc),
        _ => None,
    }
}

/// An option with an index.
fn option_at(b: u8, index: u32) -> Option<CanonicalOption>
    ensures { result ≡ grammar.option_at b index }
{
    match b {
        0x03 => Some(CanonicalOption::LinearMemory(index)),
        0x04 => Some(CanonicalOption::Realloc(index)),
        0x05 => Some(CanonicalOption::PostReturn(index)),
        0x07 => Some(CanonicalOption::Callback(index)),
        0x08 => Some(CanonicalOption::CoreType(index)),
        _ => None,
    }
}

#[tactic(auto, unfolding(crate::specs::Canonicals::canonical_option))]
fn read_option(bytes: &[u8]) -> Result<(CanonicalOption, &[u8]), Stop>
    ensures { Gives (λ x. (x.0, x.1.now)) result (grammar.canonical_option.read bytes.now) }
{
    let (b, rest) = read_byte(bytes)?;
    if let Some(option) = option_of(b) {
        return Ok((option, rest));
    }
    let (index, rest) = read_number(rest)?;
    match option_at(b, index) {
        Some(option) => Ok((option, rest)),
        None => Err(refuse(FaultKind::CanonicalOption, rest)),
    }
}

/// The options of a canonical function.
fn read_options(alloc: Global, bytes: &[u8]) -> Result<(Vec<CanonicalOption>, &[u8]), Stop>
    ensures { Gives (λ x. (x.0.items, x.1.now)) result ((vec grammar.canonical_option).read bytes.now) }
{
    let (count, first) = read_number(bytes)?;
    let mut values = Vec::new(alloc);
    let mut rest = first;
    for _ in 0..count {
        let (value, after) = read_option(rest)?;
        values.push(value)?;
        rest = after;
    }
    Ok((values, rest))
}

/// A function, made of a core function.
#[tactic(auto, unfolding(crate::specs::Canonicals::lift))]
fn read_lift(alloc: Global, bytes: &[u8]) -> Result<(Canonical, &[u8]), Stop>
    ensures { Gives (λ x. (canonical_view x.0, x.1.now)) result (grammar.lift.read bytes.now) }
{
    let rest = expect_byte(0x00, FaultKind::Canonical, bytes)?;
    let (function, rest) = read_number(rest)?;
    let (options, rest) = read_options(alloc, rest)?;
    let (ty, rest) = read_number(rest)?;
    Ok((Canonical::Lift(function, options, ty), rest))
}

/// A core function, made of a function.
#[tactic(auto, unfolding(crate::specs::Canonicals::lower))]
fn read_lower(alloc: Global, bytes: &[u8]) -> Result<(Canonical, &[u8]), Stop>
    ensures { Gives (λ x. (canonical_view x.0, x.1.now)) result (grammar.lower.read bytes.now) }
{
    let rest = expect_byte(0x00, FaultKind::Canonical, bytes)?;
    let (function, rest) = read_number(rest)?;
    let (options, rest) = read_options(alloc, rest)?;
    Ok((Canonical::Lower(function, options), rest))
}

/// Of functions of resources, tasks and contexts.
fn task_operands_of(b: u8) -> Option<Operands>
    ensures { result ≡ grammar.task_operands_of b }
{
    match b {
        0x02 => Some(Operands::Index),
        0x03 => Some(Operands::Index),
        0x04 => Some(Operands::Index),
        0x05 => Some(Operands::Nothing),
        0x06 => Some(Operands::Flag),
        0x07 => Some(Operands::Index),
        0x09 => Some(Operands::Answer),
        0x0a => Some(Operands::Context),
        0x0b => Some(Operands::Context),
        0x0c => Some(Operands::Flag),
        0x0d => Some(Operands::Nothing),
        _ => None,
    }
}

/// Of functions of streams and futures.
fn stream_operands_of(b: u8) -> Option<Operands>
    ensures { result ≡ grammar.stream_operands_of b }
{
    match b {
        0x0e => Some(Operands::Index),
        0x0f => Some(Operands::IndexOptions),
        0x10 => Some(Operands::IndexOptions),
        0x11 => Some(Operands::IndexFlag),
        0x12 => Some(Operands::IndexFlag),
        0x13 => Some(Operands::Index),
        0x14 => Some(Operands::Index),
        0x15 => Some(Operands::Index),
        0x16 => Some(Operands::IndexOptions),
        0x17 => Some(Operands::IndexOptions),
        0x18 => Some(Operands::IndexFlag),
        0x19 => Some(Operands::IndexFlag),
        0x1a => Some(Operands::Index),
        0x1b => Some(Operands::Index),
        _ => None,
    }
}

/// Of functions of errors and of sets of what is waited for.
fn waiting_operands_of(b: u8) -> Option<Operands>
    ensures { result ≡ grammar.waiting_operands_of b }
{
    match b {
        0x1c => Some(Operands::Options),
        0x1d => Some(Operands::Options),
        0x1e => Some(Operands::Nothing),
        0x1f => Some(Operands::Nothing),
        0x20 => Some(Operands::FlagIndex),
        0x21 => Some(Operands::FlagIndex),
        0x22 => Some(Operands::Nothing),
        0x23 => Some(Operands::Nothing),
        0x24 => Some(Operands::Nothing),
        0x25 => Some(Operands::Nothing),
        _ => None,
    }
}

/// Of functions of threads.
fn thread_operands_of(b: u8) -> Option<Operands>
    ensures { result ≡ grammar.thread_operands_of b }
{
    match b {
        0x26 => Some(Operands::Nothing),
        0x27 => Some(Operands::IndexIndex),
        0x28 => Some(Operands::Flag),
        0x29 => Some(Operands::Flag),
        0x2a => Some(Operands::Nothing),
        0x2b => Some(Operands::Flag),
        0x40 => Some(Operands::Index),
        0x41 => Some(Operands::IndexIndex),
        0x42 => Some(Operands::Nothing),
        _ => None,
    }
}

#[tactic(auto, unfolding(crate::specs::Canonicals::operands_of))]
fn operands_of(b: u8) -> Option<Operands>
    ensures { result ≡ grammar.operands_of b }
{
    match task_operands_of(b) {
        Some(operands) => Some(operands),
        None => match stream_operands_of(b) {
            Some(operands) => Some(operands),
            None => match waiting_operands_of(b) {
                Some(operands) => Some(operands),
                None => thread_operands_of(b),
            },
        },
    }
}

/// Reads 0 or 1.
#[tactic(auto, unfolding(crate::specs::Canonicals::flag))]
fn skip_flag(bytes: &[u8]) -> Result<&[u8], Stop>
    ensures { Gives (λ x. (tt, x.now)) result (grammar.flag.read bytes.now) }
{
    let (b, rest) = read_byte(bytes)?;
    match b {
        0 => Ok(rest),
        1 => Ok(rest),
        _ => Err(refuse(FaultKind::Flag, rest)),
    }
}

#[tactic(auto, unfolding(crate::specs::Canonicals::operand))]
fn skip_operands(alloc: Global, operands: Operands, bytes: &[u8]) -> Result<&[u8], Stop>
    ensures { Gives (λ x. (tt, x.now)) result ((grammar.operand operands).read bytes.now) }
{
    match operands {
        Operands::Nothing => Ok(bytes),
        Operands::Index => {
            let (_, rest) = read_number(bytes)?;
            Ok(rest)
        }
        Operands::Flag => skip_flag(bytes),
        Operands::Options => {
            let (_, rest) = read_options(alloc, bytes)?;
            Ok(rest)
        }
        Operands::IndexOptions => {
            let (_, rest) = read_number(bytes)?;
            let (_, rest) = read_options(alloc, rest)?;
            Ok(rest)
        }
        Operands::IndexIndex => {
            let (_, rest) = read_number(bytes)?;
            let (_, rest) = read_number(rest)?;
            Ok(rest)
        }
        Operands::IndexFlag => {
            let (_, rest) = read_number(bytes)?;
            skip_flag(rest)
        }
        Operands::FlagIndex => {
            let rest = skip_flag(bytes)?;
            let (_, rest) = read_number(rest)?;
            Ok(rest)
        }
        Operands::Answer => {
            let (_, rest) = read_answer(bytes)?;
            let (_, rest) = read_options(alloc, rest)?;
            Ok(rest)
        }
        Operands::Context => {
            let rest = expect_byte(0x7f, FaultKind::Canonical, bytes)?;
            let (_, rest) = read_number(rest)?;
            Ok(rest)
        }
    }
}

/// A function of the component model's own.
fn read_built_in(alloc: Global, number: u8, bytes: &[u8]) -> Result<(Canonical, &[u8]), Stop>
    ensures { Gives (λ x. (canonical_view x.0, x.1.now)) result
        ((grammar.built_in number (grammar.operands_of number)).read bytes.now) }
{
    match operands_of(number) {
        Some(operands) => {
            let rest = skip_operands(alloc, operands, bytes)?;
            Ok((Canonical::BuiltIn(number), rest))
        }
        None => Err(refuse(FaultKind::Canonical, bytes)),
    }
}

#[tactic(auto, unfolding(crate::specs::Canonicals::canonical))]
fn read_canonical(alloc: Global, bytes: &[u8]) -> Result<(Canonical, &[u8]), Stop>
    ensures { Gives (λ x. (canonical_view x.0, x.1.now)) result (grammar.canonical.read bytes.now) }
{
    let (b, rest) = read_byte(bytes)?;
    match b {
        0 => read_lift(alloc, rest),
        1 => read_lower(alloc, rest),
        _ => read_built_in(alloc, b, rest),
    }
}

/// The canonical functions of a section.
pub fn read_canonicals(alloc: Global, bytes: &[u8]) -> Result<(Vec<Canonical>, &[u8]), Stop>
    ensures { Gives (λ x. (map canonical_view x.0.items, x.1.now)) result ((vec grammar.canonical).read bytes.now) }
{
    let (count, first) = read_number(bytes)?;
    let mut values = Vec::new(alloc);
    let mut rest = first;
    for _ in 0..count {
        let (value, after) = read_canonical(alloc, rest)?;
        values.push(value)?;
        rest = after;
    }
    Ok((values, rest))
}

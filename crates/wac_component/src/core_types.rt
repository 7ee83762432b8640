//! Core module types.
ghost use Rattle.std.specs.Prelude.{◌≡◌, map};
ghost use Rattle.wac_graph_bytes.specs.Views.{core_view};
ghost use Rattle.wac_component.specs.Numbers.{vec};
ghost use Rattle.wac_component.specs.CoreTypes as grammar;
ghost use Rattle.wac_component.specs.Views.{core_type_view};
ghost use Rattle.wac_component.specs.Reads.{Gives};

use crate::entry::CoreType;
use crate::fault::{FaultKind, Stop};
use crate::numbers::{expect_byte, read_byte, read_name, read_number, refuse};
use std::alloc::Global;
use wac_graph_bytes::{CoreDeclaration, CoreDescription, CoreReference, CoreValue, Limits};

fn core_reference_of(b: u8) -> Option<CoreReference>
    ensures { result ≡ grammar.core_reference_of b }
{
    match b {
        0x70 => Some(CoreReference::Func),
        0x6f => Some(CoreReference::Extern),
        _ => None,
    }
}

fn core_value_of(b: u8) -> Option<CoreValue>
    ensures { result ≡ grammar.core_value_of b }
{
    match b {
        0x7f => Some(CoreValue::I32),
        0x7e => Some(CoreValue::I64),
        0x7d => Some(CoreValue::F32),
        0x7c => Some(CoreValue::F64),
        0x7b => Some(CoreValue::V128),
        0x70 => Some(CoreValue::Reference(CoreReference::Func)),
        0x6f => Some(CoreValue::Reference(CoreReference::Extern)),
        _ => None,
    }
}

#[tactic(auto, unfolding(crate::specs::CoreTypes::core_reference))]
fn read_core_reference(bytes: &[u8]) -> Result<(CoreReference, &[u8]), Stop>
    ensures { Gives (λ x. (x.0, x.1.now)) result (grammar.core_reference.read bytes.now) }
{
    let (b, rest) = read_byte(bytes)?;
    match core_reference_of(b) {
        Some(reference) => Ok((reference, rest)),
        None => Err(refuse(FaultKind::CoreType, rest)),
    }
}

#[tactic(auto, unfolding(crate::specs::CoreTypes::core_value))]
fn read_core_value(bytes: &[u8]) -> Result<(CoreValue, &[u8]), Stop>
    ensures { Gives (λ x. (x.0, x.1.now)) result (grammar.core_value.read bytes.now) }
{
    let (b, rest) = read_byte(bytes)?;
    match core_value_of(b) {
        Some(value) => Ok((value, rest)),
        None => Err(refuse(FaultKind::CoreType, rest)),
    }
}

/// A minimum alone.
#[tactic(auto, unfolding(crate::specs::CoreTypes::minimum))]
fn read_minimum(bytes: &[u8]) -> Result<(Limits, &[u8]), Stop>
    ensures { Gives (λ x. (x.0, x.1.now)) result (grammar.minimum.read bytes.now) }
{
    let (minimum, rest) = read_number(bytes)?;
    let limits = Limits {
        minimum: minimum as u64,
        maximum: None,
        wide: false,
    };
    Ok((limits, rest))
}

/// A minimum and a maximum.
#[tactic(auto, unfolding(crate::specs::CoreTypes::bounds))]
fn read_bounds(bytes: &[u8]) -> Result<(Limits, &[u8]), Stop>
    ensures { Gives (λ x. (x.0, x.1.now)) result (grammar.bounds.read bytes.now) }
{
    let (minimum, rest) = read_number(bytes)?;
    let (maximum, rest) = read_number(rest)?;
    let limits = Limits {
        minimum: minimum as u64,
        maximum: Some(maximum as u64),
        wide: false,
    };
    Ok((limits, rest))
}

#[tactic(auto, unfolding(crate::specs::CoreTypes::table))]
fn read_table(bytes: &[u8]) -> Result<(CoreDescription, &[u8]), Stop>
    ensures { Gives (λ x. (x.0, x.1.now)) result (grammar.table.read bytes.now) }
{
    let (reference, rest) = read_core_reference(bytes)?;
    let (b, rest) = read_byte(rest)?;
    match b {
        0 => {
            let (limits, rest) = read_minimum(rest)?;
            Ok((CoreDescription::Table(reference, limits), rest))
        }
        1 => {
            let (limits, rest) = read_bounds(rest)?;
            Ok((CoreDescription::Table(reference, limits), rest))
        }
        _ => Err(refuse(FaultKind::CoreType, rest)),
    }
}

#[tactic(auto, unfolding(crate::specs::CoreTypes::memory))]
fn read_memory(bytes: &[u8]) -> Result<(CoreDescription, &[u8]), Stop>
    ensures { Gives (λ x. (x.0, x.1.now)) result (grammar.memory.read bytes.now) }
{
    let (b, rest) = read_byte(bytes)?;
    match b {
        0 => {
            let (limits, rest) = read_minimum(rest)?;
            Ok((CoreDescription::Memory(limits, false), rest))
        }
        1 => {
            let (limits, rest) = read_bounds(rest)?;
            Ok((CoreDescription::Memory(limits, false), rest))
        }
        3 => {
            let (limits, rest) = read_bounds(rest)?;
            Ok((CoreDescription::Memory(limits, true), rest))
        }
        _ => Err(refuse(FaultKind::CoreType, rest)),
    }
}

#[tactic(auto, unfolding(crate::specs::CoreTypes::global))]
fn read_global(bytes: &[u8]) -> Result<(CoreDescription, &[u8]), Stop>
    ensures { Gives (λ x. (x.0, x.1.now)) result (grammar.global.read bytes.now) }
{
    let (value, rest) = read_core_value(bytes)?;
    let (b, rest) = read_byte(rest)?;
    match b {
        0 => Ok((CoreDescription::Global(value, false), rest)),
        1 => Ok((CoreDescription::Global(value, true), rest)),
        _ => Err(refuse(FaultKind::Flag, rest)),
    }
}

#[tactic(auto, unfolding(crate::specs::CoreTypes::core_description))]
fn read_core_description(bytes: &[u8]) -> Result<(CoreDescription, &[u8]), Stop>
    ensures { Gives (λ x. (x.0, x.1.now)) result (grammar.core_description.read bytes.now) }
{
    let (b, rest) = read_byte(bytes)?;
    match b {
        0 => {
            let (index, rest) = read_number(rest)?;
            Ok((CoreDescription::Func(index as u64), rest))
        }
        1 => read_table(rest),
        2 => read_memory(rest),
        3 => read_global(rest),
        4 => {
            let (index, rest) = read_number(expect_byte(0, FaultKind::CoreType, rest)?)?;
            Ok((CoreDescription::Tag(index as u64), rest))
        }
        _ => Err(refuse(FaultKind::CoreType, rest)),
    }
}

/// The parameters or the results of a core function.
fn read_core_values(alloc: Global, bytes: &[u8]) -> Result<(Vec<CoreValue>, &[u8]), Stop>
    ensures { Gives (λ x. (x.0.items, x.1.now)) result ((vec grammar.core_value).read bytes.now) }
{
    let (count, first) = read_number(bytes)?;
    let mut values = Vec::new(alloc);
    let mut rest = first;
    for _ in 0..count {
        let (value, after) = read_core_value(rest)?;
        values.push(value)?;
        rest = after;
    }
    Ok((values, rest))
}

#[tactic(auto, unfolding(crate::specs::CoreTypes::core_import))]
fn read_core_import(alloc: Global, bytes: &[u8]) -> Result<(CoreDeclaration, &[u8]), Stop>
    ensures { Gives (λ x. (core_view x.0, x.1.now)) result (grammar.core_import.read bytes.now) }
{
    let (from, rest) = read_name(alloc, bytes)?;
    let (name, rest) = read_name(alloc, rest)?;
    let (description, rest) = read_core_description(rest)?;
    Ok((CoreDeclaration::Import(from, name, description), rest))
}

#[tactic(auto, unfolding(crate::specs::CoreTypes::core_signature))]
fn read_core_signature(alloc: Global, bytes: &[u8]) -> Result<(CoreDeclaration, &[u8]), Stop>
    ensures { Gives (λ x. (core_view x.0, x.1.now)) result (grammar.core_signature.read bytes.now) }
{
    let rest = expect_byte(0x60, FaultKind::CoreType, bytes)?;
    let (params, rest) = read_core_values(alloc, rest)?;
    let (results, rest) = read_core_values(alloc, rest)?;
    Ok((CoreDeclaration::Signature(params, results), rest))
}

#[tactic(auto, unfolding(crate::specs::CoreTypes::core_export))]
fn read_core_export(alloc: Global, bytes: &[u8]) -> Result<(CoreDeclaration, &[u8]), Stop>
    ensures { Gives (λ x. (core_view x.0, x.1.now)) result (grammar.core_export.read bytes.now) }
{
    let (name, rest) = read_name(alloc, bytes)?;
    let (description, rest) = read_core_description(rest)?;
    Ok((CoreDeclaration::Export(name, description), rest))
}

#[tactic(auto, unfolding(crate::specs::CoreTypes::core_declaration))]
fn read_core_declaration(alloc: Global, bytes: &[u8]) -> Result<(CoreDeclaration, &[u8]), Stop>
    ensures { Gives (λ x. (core_view x.0, x.1.now)) result (grammar.core_declaration.read bytes.now) }
{
    let (b, rest) = read_byte(bytes)?;
    match b {
        0 => read_core_import(alloc, rest),
        1 => read_core_signature(alloc, rest),
        3 => read_core_export(alloc, rest),
        _ => Err(refuse(FaultKind::CoreType, rest)),
    }
}

/// The declarations of a core module type.
fn read_core_declarations(
    alloc: Global,
    bytes: &[u8],
) -> Result<(Vec<CoreDeclaration>, &[u8]), Stop>
    ensures { Gives (λ x. (map core_view x.0.items, x.1.now)) result ((vec grammar.core_declaration).read bytes.now) }
{
    let (count, first) = read_number(bytes)?;
    let mut values = Vec::new(alloc);
    let mut rest = first;
    for _ in 0..count {
        let (value, after) = read_core_declaration(alloc, rest)?;
        values.push(value)?;
        rest = after;
    }
    Ok((values, rest))
}

/// A core module type.
#[tactic(auto, unfolding(crate::specs::CoreTypes::core_type))]
pub fn read_core_type(alloc: Global, bytes: &[u8]) -> Result<(CoreType, &[u8]), Stop>
    ensures { Gives (λ x. (core_type_view x.0, x.1.now)) result (grammar.core_type.read bytes.now) }
{
    let rest = expect_byte(0x50, FaultKind::CoreType, bytes)?;
    let (declarations, rest) = read_core_declarations(alloc, rest)?;
    Ok((CoreType { declarations }, rest))
}

/// The core module types of a section.
pub fn read_core_types(alloc: Global, bytes: &[u8]) -> Result<(Vec<CoreType>, &[u8]), Stop>
    ensures { Gives (λ x. (map core_type_view x.0.items, x.1.now)) result ((vec grammar.core_type).read bytes.now) }
{
    let (count, first) = read_number(bytes)?;
    let mut values = Vec::new(alloc);
    let mut rest = first;
    for _ in 0..count {
        let (value, after) = read_core_type(alloc, rest)?;
        values.push(value)?;
        rest = after;
    }
    Ok((values, rest))
}

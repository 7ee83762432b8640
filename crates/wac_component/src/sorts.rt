//! Sorts, names of imports and exports, descriptions, aliases.
ghost use Rattle.std.specs.Prelude.{◌≡◌, string_bytes};
ghost use Rattle.wac_component.specs.Sorts as grammar;
ghost use Rattle.wac_component.specs.Views.{alias_view};
ghost use Rattle.wac_component.specs.Reads.{Gives};

use crate::entry::{Alias, CoreSort, Sort};
use crate::fault::{FaultKind, Stop};
use crate::numbers::{expect_byte, read_byte, read_name, read_number, refuse};
use std::alloc::Global;
use wac_graph_bytes::Description;

fn core_sort_of(b: u8) -> Option<CoreSort>
    ensures { result ≡ grammar.core_sort_of b }
{
    match b {
        0x00 => Some(CoreSort::Func),
        0x01 => Some(CoreSort::Table),
        0x02 => Some(CoreSort::LinearMemory),
        0x03 => Some(CoreSort::Global),
        0x04 => Some(CoreSort::Tag),
        0x10 => Some(CoreSort::Ty),
        0x11 => Some(CoreSort::Module),
        0x12 => Some(CoreSort::Instance),
        _ => None,
    }
}

/// What an index of a core module counts.
#[tactic(auto, unfolding(crate::specs::Sorts::core_sort))]
pub fn read_core_sort(bytes: &[u8]) -> Result<(CoreSort, &[u8]), Stop>
    ensures { Gives (λ x. (x.0, x.1.now)) result (grammar.core_sort.read bytes.now) }
{
    let (b, rest) = read_byte(bytes)?;
    match core_sort_of(b) {
        Some(sort) => Ok((sort, rest)),
        None => Err(refuse(FaultKind::Sort, rest)),
    }
}

fn sort_of(b: u8) -> Option<Sort>
    ensures { result ≡ grammar.sort_of b }
{
    match b {
        0x01 => Some(Sort::Func),
        0x02 => Some(Sort::Value),
        0x03 => Some(Sort::Ty),
        0x04 => Some(Sort::Component),
        0x05 => Some(Sort::Instance),
        _ => None,
    }
}

/// What an index counts.
#[tactic(auto, unfolding(crate::specs::Sorts::sort_code))]
pub fn read_sort(bytes: &[u8]) -> Result<(Sort, &[u8]), Stop>
    ensures { Gives (λ x. (x.0, x.1.now)) result (grammar.sort_code.read bytes.now) }
{
    let (b, rest) = read_byte(bytes)?;
    if b == 0 {
        let (sort, rest) = read_core_sort(rest)?;
        return Ok((Sort::Core(sort), rest));
    }
    match sort_of(b) {
        Some(sort) => Ok((sort, rest)),
        None => Err(refuse(FaultKind::Sort, rest)),
    }
}

/// The name of an import or an export.
#[tactic(auto, unfolding(crate::specs::Sorts::extern_name))]
pub fn read_extern_name(alloc: Global, bytes: &[u8]) -> Result<(String, &[u8]), Stop>
    ensures { Gives (λ x. (string_bytes x.0, x.1.now)) result (grammar.extern_name.read bytes.now) }
{
    let (b, rest) = read_byte(bytes)?;
    match b {
        0 => read_name(alloc, rest),
        1 => read_name(alloc, rest),
        2 => Err(refuse(FaultKind::NameOptions, rest)),
        _ => Err(refuse(FaultKind::Name, rest)),
    }
}

/// A type that is equal to another, or a fresh resource.
#[tactic(auto, unfolding(crate::specs::Sorts::type_bound))]
fn read_type_bound(bytes: &[u8]) -> Result<(Description, &[u8]), Stop>
    ensures { Gives (λ x. (x.0, x.1.now)) result (grammar.type_bound.read bytes.now) }
{
    let (b, rest) = read_byte(bytes)?;
    match b {
        0 => {
            let (index, rest) = read_number(rest)?;
            Ok((Description::Equal(index as u64), rest))
        }
        1 => Ok((Description::Resource, rest)),
        _ => Err(refuse(FaultKind::Description, rest)),
    }
}

/// What an import is, or what an export is said to be.
#[tactic(auto, unfolding(crate::specs::Sorts::description))]
pub fn read_description(bytes: &[u8]) -> Result<(Description, &[u8]), Stop>
    ensures { Gives (λ x. (x.0, x.1.now)) result (grammar.description.read bytes.now) }
{
    let (b, rest) = read_byte(bytes)?;
    match b {
        0 => {
            let (index, rest) = read_number(expect_byte(0x11, FaultKind::Description, rest)?)?;
            Ok((Description::Module(index as u64), rest))
        }
        1 => {
            let (index, rest) = read_number(rest)?;
            Ok((Description::Func(index as u64), rest))
        }
        2 => Err(refuse(FaultKind::Value, rest)),
        3 => read_type_bound(rest),
        4 => {
            let (index, rest) = read_number(rest)?;
            Ok((Description::Component(index as u64), rest))
        }
        5 => {
            let (index, rest) = read_number(rest)?;
            Ok((Description::Instance(index as u64), rest))
        }
        _ => Err(refuse(FaultKind::Description, rest)),
    }
}

/// An export of an instance.
#[tactic(auto, unfolding(crate::specs::Sorts::export_alias))]
fn read_export_alias(alloc: Global, sort: Sort, bytes: &[u8]) -> Result<(Alias, &[u8]), Stop>
    ensures { Gives (λ x. (alias_view x.0, x.1.now)) result ((grammar.export_alias sort).read bytes.now) }
{
    let (instance, rest) = read_number(bytes)?;
    let (name, rest) = read_name(alloc, rest)?;
    Ok((Alias::Export(sort, instance, name), rest))
}

/// An export of a core instance.
#[tactic(auto, unfolding(crate::specs::Sorts::core_alias))]
fn read_core_alias(alloc: Global, sort: Sort, bytes: &[u8]) -> Result<(Alias, &[u8]), Stop>
    ensures { Gives (λ x. (alias_view x.0, x.1.now)) result ((grammar.core_alias sort).read bytes.now) }
{
    let (instance, rest) = read_number(bytes)?;
    let (name, rest) = read_name(alloc, rest)?;
    Ok((Alias::Core(sort, instance, name), rest))
}

/// An index of a scope further out.
#[tactic(auto, unfolding(crate::specs::Sorts::outer_alias))]
fn read_outer_alias(sort: Sort, bytes: &[u8]) -> Result<(Alias, &[u8]), Stop>
    ensures { Gives (λ x. (alias_view x.0, x.1.now)) result ((grammar.outer_alias sort).read bytes.now) }
{
    let (count, rest) = read_number(bytes)?;
    let (index, rest) = read_number(rest)?;
    Ok((Alias::Outer(sort, count, index), rest))
}

#[tactic(auto, unfolding(crate::specs::Sorts::alias))]
pub fn read_alias(alloc: Global, bytes: &[u8]) -> Result<(Alias, &[u8]), Stop>
    ensures { Gives (λ x. (alias_view x.0, x.1.now)) result (grammar.alias.read bytes.now) }
{
    let (sort, rest) = read_sort(bytes)?;
    let (b, rest) = read_byte(rest)?;
    match b {
        0 => read_export_alias(alloc, sort, rest),
        1 => read_core_alias(alloc, sort, rest),
        2 => read_outer_alias(sort, rest),
        _ => Err(refuse(FaultKind::Alias, rest)),
    }
}

//! The sections of a component.
ghost use Rattle.std.specs.Prelude.{◌≡◌, ◌<◌, length, map, IfOk};
ghost use Rattle.wac_component.specs.Numbers as numbers;
ghost use Rattle.wac_component.specs.Numbers.{vec};
ghost use Rattle.wac_component.specs.Sorts as sorts;
ghost use Rattle.wac_component.specs.Declarations as types;
ghost use Rattle.wac_component.specs.Rules as rule;
ghost use Rattle.wac_component.specs.Sections as grammar;
ghost use Rattle.wac_component.specs.Views.{alias_view, type_view, import_view, export_view, section_view};
ghost use Rattle.wac_component.specs.Reads.{Gives};

use crate::canonicals::read_canonicals;
use crate::core_types::read_core_types;
use crate::declarations::read_type;
use crate::entry::{Alias, Export, Import, Section, TypeEntry};
use crate::fault::{FaultKind, Stop};
use crate::instances::{read_core_instances, read_instances};
use crate::numbers::{
    check_end, check_room, expect_byte, read_byte, read_name, read_number, refuse, take_bytes,
    take_up_to,
};
use crate::sorts::{read_alias, read_description, read_extern_name, read_sort};
use std::alloc::Global;
use wac_graph_bytes::Description;

#[tactic(auto, unfolding(crate::specs::Sections::import_entry))]
fn read_import(alloc: Global, bytes: &[u8]) -> Result<(Import, &[u8]), Stop>
    ensures { Gives (λ x. (import_view x.0, x.1.now)) result (grammar.import_entry.read bytes.now) }
{
    let (name, rest) = read_extern_name(alloc, bytes)?;
    let (description, rest) = read_description(rest)?;
    Ok((Import { name, description }, rest))
}

/// A description or none.
#[tactic(auto, unfolding(crate::specs::Sections::optional_description))]
fn read_optional_description(bytes: &[u8]) -> Result<(Option<Description>, &[u8]), Stop>
    ensures { Gives (λ x. (x.0, x.1.now)) result (grammar.optional_description.read bytes.now) }
{
    let (flag, rest) = read_byte(bytes)?;
    match flag {
        0 => Ok((None, rest)),
        1 => {
            let (description, rest) = read_description(rest)?;
            Ok((Some(description), rest))
        }
        _ => Err(refuse(FaultKind::Flag, rest)),
    }
}

#[tactic(auto, unfolding(crate::specs::Sections::export_entry))]
fn read_export(alloc: Global, bytes: &[u8]) -> Result<(Export, &[u8]), Stop>
    ensures { Gives (λ x. (export_view x.0, x.1.now)) result (grammar.export_entry.read bytes.now) }
{
    let (name, rest) = read_extern_name(alloc, bytes)?;
    let (sort, rest) = read_sort(rest)?;
    let (index, rest) = read_number(rest)?;
    let (stated, rest) = read_optional_description(rest)?;
    Ok((
        Export {
            name,
            sort,
            index,
            stated,
        },
        rest,
    ))
}

/// Indexes, as of arguments.
fn read_indexes(alloc: Global, bytes: &[u8]) -> Result<(Vec<u32>, &[u8]), Stop>
    ensures { Gives (λ x. (x.0.items, x.1.now)) result ((vec numbers.number).read bytes.now) }
{
    let (count, first) = read_number(bytes)?;
    let mut values = Vec::new(alloc);
    let mut rest = first;
    for _ in 0..count {
        let (value, after) = read_number(rest)?;
        values.push(value)?;
        rest = after;
    }
    Ok((values, rest))
}

/// The aliases of a section.
fn read_aliases(alloc: Global, bytes: &[u8]) -> Result<(Vec<Alias>, &[u8]), Stop>
    ensures { Gives (λ x. (map alias_view x.0.items, x.1.now)) result ((vec sorts.alias).read bytes.now) }
{
    let (count, first) = read_number(bytes)?;
    let mut values = Vec::new(alloc);
    let mut rest = first;
    for _ in 0..count {
        let (value, after) = read_alias(alloc, rest)?;
        values.push(value)?;
        rest = after;
    }
    Ok((values, rest))
}

/// The types of a section.
fn read_types(alloc: Global, bytes: &[u8]) -> Result<(Vec<TypeEntry>, &[u8]), Stop>
    ensures { Gives (λ x. (map type_view x.0.items, x.1.now)) result ((vec types.type_entry).read bytes.now) }
{
    let (count, first) = read_number(bytes)?;
    let mut values = Vec::new(alloc);
    let mut rest = first;
    for _ in 0..count {
        let (value, after) = read_type(alloc, rest)?;
        values.push(value)?;
        rest = after;
    }
    Ok((values, rest))
}

/// The imports of a section.
fn read_imports(alloc: Global, bytes: &[u8]) -> Result<(Vec<Import>, &[u8]), Stop>
    ensures { Gives (λ x. (map import_view x.0.items, x.1.now)) result ((vec grammar.import_entry).read bytes.now) }
{
    let (count, first) = read_number(bytes)?;
    let mut values = Vec::new(alloc);
    let mut rest = first;
    for _ in 0..count {
        let (value, after) = read_import(alloc, rest)?;
        values.push(value)?;
        rest = after;
    }
    Ok((values, rest))
}

/// The exports of a section.
fn read_exports(alloc: Global, bytes: &[u8]) -> Result<(Vec<Export>, &[u8]), Stop>
    ensures { Gives (λ x. (map export_view x.0.items, x.1.now)) result ((vec grammar.export_entry).read bytes.now) }
{
    let (count, first) = read_number(bytes)?;
    let mut values = Vec::new(alloc);
    let mut rest = first;
    for _ in 0..count {
        let (value, after) = read_export(alloc, rest)?;
        values.push(value)?;
        rest = after;
    }
    Ok((values, rest))
}

/// A function that is called.
#[tactic(auto, unfolding(crate::specs::Sections::start))]
fn read_start(alloc: Global, bytes: &[u8]) -> Result<(Section<'_>, &[u8]), Stop>
    ensures { Gives (λ x. (section_view x.0, x.1.now)) result (grammar.start.read bytes.now) }
{
    let (function, rest) = read_number(bytes)?;
    let (arguments, rest) = read_indexes(alloc, rest)?;
    let (results, rest) = read_number(rest)?;
    Ok((Section::Start(function, arguments, results), rest))
}

/// A name, and bytes that mean nothing for the component.
fn read_custom(alloc: Global, size: u32, bytes: &[u8]) -> Result<(Section<'_>, &[u8]), Stop>
    ensures { Gives (λ x. (section_view x.0, x.1.now)) result ((grammar.custom size).read bytes.now) }
{
    let (name, rest) = read_name(alloc, bytes)?;
    let (inside, rest) = take_up_to(size, bytes, rest)?;
    Ok((Section::Custom(name, inside), rest))
}

/// What a section of that number lists, behind which it may not yet end.
#[tactic(auto, unfolding(crate::specs::Sections::section_list))]
fn read_list(alloc: Global, number: u8, bytes: &[u8]) -> Result<(Section<'_>, &[u8]), Stop>
    ensures { Gives (λ x. (section_view x.0, x.1.now)) result ((grammar.section_list number).read bytes.now) }
{
    match number {
        2 => {
            let (instances, rest) = read_core_instances(alloc, bytes)?;
            Ok((Section::CoreInstances(instances), rest))
        }
        5 => {
            let (instances, rest) = read_instances(alloc, bytes)?;
            Ok((Section::Instances(instances), rest))
        }
        6 => {
            let (aliases, rest) = read_aliases(alloc, bytes)?;
            Ok((Section::Aliases(aliases), rest))
        }
        7 => {
            let (types, rest) = read_types(alloc, bytes)?;
            Ok((Section::Types(types), rest))
        }
        8 => {
            let (canonicals, rest) = read_canonicals(alloc, bytes)?;
            Ok((Section::Canonicals(canonicals), rest))
        }
        9 => read_start(alloc, bytes),
        10 => {
            let (imports, rest) = read_imports(alloc, bytes)?;
            Ok((Section::Imports(imports), rest))
        }
        11 => {
            let (exports, rest) = read_exports(alloc, bytes)?;
            Ok((Section::Exports(exports), rest))
        }
        3 => {
            let (types, rest) = read_core_types(alloc, bytes)?;
            Ok((Section::CoreTypes(types), rest))
        }
        12 => Err(refuse(FaultKind::Value, bytes)),
        _ => Err(refuse(FaultKind::Section, bytes)),
    }
}

/// What a section of that number and size holds.
fn read_contents(
    alloc: Global,
    size: u32,
    number: u8,
    bytes: &[u8],
) -> Result<(Section<'_>, &[u8]), Stop>
    ensures { Gives (λ x. (section_view x.0, x.1.now)) result ((grammar.contents size number).read bytes.now) }
{
    match number {
        0 => read_custom(alloc, size, bytes),
        1 => {
            let (module, rest) = take_bytes(size, bytes)?;
            Ok((Section::CoreModule(module), rest))
        }
        4 => {
            let (component, rest) = take_bytes(size, bytes)?;
            Ok((Section::Nested(component), rest))
        }
        _ => {
            let (section, rest) = read_list(alloc, number, bytes)?;
            check_end(size, bytes, rest)?;
            Ok((section, rest))
        }
    }
}

/// A number, a size, and that many bytes.
#[tactic(auto, unfolding(crate::specs::Sections::section))]
pub fn read_section(alloc: Global, bytes: &[u8]) -> Result<(Section<'_>, &[u8]), Stop>
    ensures { Gives (λ x. (section_view x.0, x.1.now)) result (grammar.section.read bytes.now) }
{
    let (number, rest) = read_byte(bytes)?;
    let (size, rest) = read_number(rest)?;
    check_room(size, rest)?;
    read_contents(alloc, size, number, rest)
}

/// The bytes with which a component begins.
#[tactic(auto, unfolding(crate::specs::Sections::preamble))]
pub fn skip_preamble(bytes: &[u8]) -> Result<&[u8], Stop>
    ensures { Gives (λ x. (tt, x.now)) result (grammar.preamble.read bytes.now) }
{
    let rest = expect_byte(0x00, FaultKind::Preamble, bytes)?;
    let rest = expect_byte(0x61, FaultKind::Preamble, rest)?;
    let rest = expect_byte(0x73, FaultKind::Preamble, rest)?;
    let rest = expect_byte(0x6d, FaultKind::Preamble, rest)?;
    let rest = expect_byte(0x0d, FaultKind::Preamble, rest)?;
    let rest = expect_byte(0x00, FaultKind::Preamble, rest)?;
    let rest = expect_byte(0x01, FaultKind::Preamble, rest)?;
    expect_byte(0x00, FaultKind::Preamble, rest)
}

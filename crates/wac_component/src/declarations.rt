//! Component types and instance types.
ghost use Rattle.std.specs.Prelude.{◌≡◌, map};
ghost use Rattle.std.specs.Option.{option_map};
ghost use Rattle.wac_graph_bytes.specs.Views.{alias_view as plain_alias_view};
ghost use Rattle.wac_component.specs.Numbers.{vec};
ghost use Rattle.wac_component.specs.Declarations as grammar;
ghost use Rattle.wac_component.specs.Views.{alias_view, declaration_view, type_view};
ghost use Rattle.wac_component.specs.Reads.{Gives};

use crate::core_types::read_core_type;
use crate::entry::{Alias, CoreSort, CoreType, Sort, TypeEntry};
use crate::fault::{FaultKind, Stop};
use crate::numbers::{expect_byte, read_byte, read_number, refuse};
use crate::sorts::{read_alias, read_description, read_extern_name};
use crate::types::{read_defined_type, read_optional_index};
use std::alloc::Global;
use wac_graph_bytes::{Alias as PlainAlias, Declaration, Sort as PlainSort};

/// How deep component types and instance types may be nested.
pub const MAX_LEVELS: usize = 128;

/// A sort, where it may be the sort of an alias in a type.
fn plain_sort_of(sort: Sort) -> Option<PlainSort>
    ensures { result ≡ grammar.plain_sort_of sort }
{
    match sort {
        Sort::Core(CoreSort::Module) => Some(PlainSort::Module),
        Sort::Func => Some(PlainSort::Func),
        Sort::Ty => Some(PlainSort::Ty),
        Sort::Component => Some(PlainSort::Component),
        Sort::Instance => Some(PlainSort::Instance),
        _ => None,
    }
}

/// An alias, where it may stand in a type.
fn plain_alias_of(alias: Alias) -> Option<PlainAlias>
    ensures { option_map plain_alias_view result ≡ grammar.plain_alias_of (alias_view alias) }
{
    match alias {
        Alias::Export(sort, instance, name) => match plain_sort_of(sort) {
            Some(sort) => Some(PlainAlias::Export(sort, instance as u64, name)),
            None => None,
        },
        Alias::Core(_, _, _) => None,
        Alias::Outer(sort, count, index) => match plain_sort_of(sort) {
            Some(sort) => Some(PlainAlias::Outer(sort, count as u64, index as u64)),
            None => None,
        },
    }
}

#[tactic(auto, unfolding(crate::specs::Declarations::alias_declaration))]
fn read_alias_in(alloc: Global, bytes: &[u8]) -> Result<(Declaration, &[u8]), Stop>
    ensures { Gives (λ x. (declaration_view x.0, x.1.now)) result (grammar.alias_declaration.read bytes.now) }
{
    let (alias, rest) = read_alias(alloc, bytes)?;
    match plain_alias_of(alias) {
        Some(alias) => Ok((Declaration::Alias(alias), rest)),
        None => Err(refuse(FaultKind::Alias, rest)),
    }
}

#[tactic(auto, unfolding(crate::specs::Declarations::import_declaration))]
fn read_import_in(alloc: Global, bytes: &[u8]) -> Result<(Declaration, &[u8]), Stop>
    ensures { Gives (λ x. (declaration_view x.0, x.1.now)) result (grammar.import_declaration.read bytes.now) }
{
    let (name, rest) = read_extern_name(alloc, bytes)?;
    let (description, rest) = read_description(rest)?;
    Ok((Declaration::Import(name, description), rest))
}

#[tactic(auto, unfolding(crate::specs::Declarations::export_declaration))]
fn read_export_in(alloc: Global, bytes: &[u8]) -> Result<(Declaration, &[u8]), Stop>
    ensures { Gives (λ x. (declaration_view x.0, x.1.now)) result (grammar.export_declaration.read bytes.now) }
{
    let (name, rest) = read_extern_name(alloc, bytes)?;
    let (description, rest) = read_description(rest)?;
    Ok((Declaration::Export(name, description), rest))
}

/// A type in a type, with at most so many levels in it.
#[cycle(declarations)]
#[tactic(auto, unfolding(crate::specs::Declarations::inner_type))]
fn read_type_in(alloc: Global, levels: usize, bytes: &[u8]) -> Result<(Declaration, &[u8]), Stop>
    ensures { Gives (λ x. (declaration_view x.0, x.1.now)) result
        ((grammar.inner_type (grammar.declarations levels)).read bytes.now) }
{
    let (b, rest) = read_byte(bytes)?;
    match b {
        0x41 => {
            let (declarations, rest) = read_declarations(alloc, levels, true, rest)?;
            Ok((Declaration::ComponentType(declarations), rest))
        }
        0x42 => {
            let (declarations, rest) = read_declarations(alloc, levels, false, rest)?;
            Ok((Declaration::InstanceType(declarations), rest))
        }
        _ => {
            let (ty, rest) = read_defined_type(alloc, bytes)?;
            Ok((Declaration::Defined(ty), rest))
        }
    }
}

/// A declaration, with at most so many levels of types in it.
#[cycle(declarations)]
#[tactic(auto, unfolding(crate::specs::Declarations::declaration))]
fn read_declaration(
    alloc: Global,
    levels: usize,
    imports: bool,
    bytes: &[u8],
) -> Result<(Declaration, &[u8]), Stop>
    ensures { Gives (λ x. (declaration_view x.0, x.1.now)) result
        ((grammar.declaration (grammar.declarations levels) imports).read bytes.now) }
{
    let (b, rest) = read_byte(bytes)?;
    match b {
        0 => {
            let (CoreType { declarations }, rest) = read_core_type(alloc, rest)?;
            Ok((Declaration::Module(declarations), rest))
        }
        1 => read_type_in(alloc, levels, rest),
        2 => read_alias_in(alloc, rest),
        3 => {
            if imports {
                read_import_in(alloc, rest)
            } else {
                Err(refuse(FaultKind::Declaration, rest))
            }
        }
        4 => read_export_in(alloc, rest),
        _ => Err(refuse(FaultKind::Declaration, rest)),
    }
}

/// Declarations, with at most so many levels of types in each.
#[cycle(declarations)]
fn read_some_declarations(
    alloc: Global,
    levels: usize,
    imports: bool,
    bytes: &[u8],
) -> Result<(Vec<Declaration>, &[u8]), Stop>
    ensures { Gives (λ x. (map declaration_view x.0.items, x.1.now)) result
        ((vec (grammar.declaration (grammar.declarations levels) imports)).read bytes.now) }
{
    let (count, first) = read_number(bytes)?;
    let mut values = Vec::new(alloc);
    let mut rest = first;
    for _ in 0..count {
        let (value, after) = read_declaration(alloc, levels, imports, rest)?;
        values.push(value)?;
        rest = after;
    }
    Ok((values, rest))
}

/// The declarations of a type, imports among them or not, with at most so many levels.
#[cycle(declarations)]
fn read_declarations(
    alloc: Global,
    levels: usize,
    imports: bool,
    bytes: &[u8],
) -> Result<(Vec<Declaration>, &[u8]), Stop>
    ensures { Gives (λ x. (map declaration_view x.0.items, x.1.now)) result ((grammar.declarations levels imports).read bytes.now) }
{
    if levels == 0 {
        return Err(refuse(FaultKind::Depth, bytes));
    }
    read_some_declarations(alloc, levels - 1, imports, bytes)
}

#[tactic(auto, unfolding(crate::specs::Declarations::resource))]
fn read_resource(bytes: &[u8]) -> Result<(TypeEntry, &[u8]), Stop>
    ensures { Gives (λ x. (type_view x.0, x.1.now)) result (grammar.resource.read bytes.now) }
{
    let rest = expect_byte(0x7f, FaultKind::Representation, bytes)?;
    let (destructor, rest) = read_optional_index(rest)?;
    Ok((TypeEntry::Resource(destructor), rest))
}

/// A type.
#[tactic(auto, unfolding(crate::specs::Declarations::type_entry))]
pub fn read_type(alloc: Global, bytes: &[u8]) -> Result<(TypeEntry, &[u8]), Stop>
    ensures { Gives (λ x. (type_view x.0, x.1.now)) result (grammar.type_entry.read bytes.now) }
{
    let (b, rest) = read_byte(bytes)?;
    match b {
        0x41 => {
            let (declarations, rest) = read_declarations(alloc, MAX_LEVELS, true, rest)?;
            Ok((TypeEntry::Component(declarations), rest))
        }
        0x42 => {
            let (declarations, rest) = read_declarations(alloc, MAX_LEVELS, false, rest)?;
            Ok((TypeEntry::Instance(declarations), rest))
        }
        0x3f => read_resource(rest),
        _ => {
            let (ty, rest) = read_defined_type(alloc, bytes)?;
            Ok((TypeEntry::Defined(ty), rest))
        }
    }
}

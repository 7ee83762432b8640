//! Declarations as entries of the root. Definitions are exported where they are written.

ghost use Rattle.std.specs.Prelude.{◌≡◌, ◌++◌, [], ◌∷◌, Some, false, OnOk, map, option_map, option_to_list};
ghost use Rattle.wac_types_base.specs.Entries.{names_of, has_name};
ghost use Rattle.wac_graph_bytes.specs.Entries.{End};
ghost use Rattle.wac_graph_bytes.specs.Views.{view, before, declarations_of};
ghost use Rattle.wac_graph_scopes.specs.Roots.{if_new};
ghost use Rattle.wac_graph_encode.specs.Standing.{type_place};
ghost use Rattle.wac_graph_encode.specs.Writing.{AddsEntry, exported_as};
ghost use Rattle.wac_graph_encode.specs.Rooting.{AddsEarly, AddsRead, IsRepeatedBy, early_in, early_named, plain_entries};

use indexmap::IndexMap;
use std::alloc::{AllocError, Global};
use wac_graph_bytes::{Alias, Declaration, Entry, Export, Sort};
use wac_graph_core::NodeId;
use wac_graph_scopes::imports::SortIndex;
use wac_types_base::{NamedMap, Text};

/// A definition that is exported where it is written: the name of its export, and its node.
pub(crate) struct Early {
    pub name: Text,
    pub node: NodeId,
}

impl Drop for Early {
    fn drop(self) {
        let Early { name: _, node: _ } = self;
    }
}

/// Adds an entry.
pub(crate) fn push_entry(entries: &mut Vec<Entry>, entry: Entry) -> Result<(), AllocError>
    ensures { OnOk result (entries.new.items ≡ entries.old.items ++ entry ∷ []) }
{
    entries.push(entry)?;
    Ok(())
}

/// Adds an export.
pub(crate) fn push_export(
    alloc: Global,
    entries: &mut Vec<Entry>,
    name: &str,
    place: SortIndex,
) -> Result<(), AllocError>
    ensures { OnOk result (AddsEntry entries.old.items entries.new.items (exported_as name.now place)) }
{
    let name = String::from_str(alloc, name)?;
    let export = Export {
        name,
        sort: place.sort,
        index: place.index,
        stated: None,
    };
    push_entry(entries, Entry::Export(export))
}

/// The declaration as an entry. An export is none.
fn entry_of(declaration: Declaration) -> Option<Entry>
    ensures { map view (option_to_list result) ≡ plain_entries (before declaration End) }
{
    match declaration {
        Declaration::Module(declarations) => Some(Entry::Module(declarations)),
        Declaration::Defined(ty) => Some(Entry::Defined(ty)),
        Declaration::ComponentType(declarations) => Some(Entry::ComponentType(declarations)),
        Declaration::InstanceType(declarations) => Some(Entry::InstanceType(declarations)),
        Declaration::Alias(alias) => Some(Entry::Alias(alias)),
        Declaration::Import(name, description) => Some(Entry::Import(name, description)),
        Declaration::Export(_, _) => None,
    }
}

/// Adds a declaration as an entry.
fn add_plain(entries: &mut Vec<Entry>, declaration: Declaration) -> Result<(), AllocError>
    ensures { OnOk result (AddsRead entries.old.items entries.new.items (plain_entries (before declaration End))) }
{
    match entry_of(declaration) {
        Some(entry) => push_entry(entries, entry),
        None => Ok(()),
    }
}

/// The type that a declaration repeats.
fn repeated(declaration: &Declaration) -> Option<u64>
    ensures { IsRepeatedBy declaration.now result }
{
    match declaration {
        Declaration::Alias(Alias::Outer(Sort::Ty, 0, index)) => Some(*index),
        _ => None,
    }
}

/// The definition that is exported with its type at that index, unless one of its name is exported.
fn early_at<'a>(
    early: &'a IndexMap<u64, Early>,
    exported: &NamedMap<NodeId>,
    index: u64,
) -> Option<&'a Early>
    ensures { option_map (λ e. early_named e.now) result ≡ if_new exported.now (early_in early.now.entries index) }
{
    match early.get(&index) {
        Some(one) => {
            if exported.contains(one.name.as_str()) {
                None
            } else {
                Some(one)
            }
        }
        None => None,
    }
}

/// Adds the export of a definition, whose type is at that index.
fn add_export(
    alloc: Global,
    entries: &mut Vec<Entry>,
    one: &Early,
    index: u64,
    exported: &mut NamedMap<NodeId>,
) -> Result<(), AllocError>
    requires { has_name (names_of exported.old) one.now.name ≡ false }
    ensures { OnOk result (AddsRead entries.old.items entries.new.items (exported_as one.now.name (type_place index) ∷ [])
        × (exported.new ≡ exported.old ++ early_named one.now ∷ [])) }
{
    let name = String::from_str(alloc, one.name.as_str())?;
    let place = SortIndex {
        sort: Sort::Ty,
        index,
    };
    push_export(alloc, entries, one.name.as_str(), place)?;
    exported.push(name, one.node)
}

/// Adds an alias that repeats the type at that index as an entry; in its place the export of the definition of that type,
/// if it is exported where it is written.
fn add_repeated(
    alloc: Global,
    entries: &mut Vec<Entry>,
    declaration: Declaration,
    index: u64,
    early: &IndexMap<u64, Early>,
    exported: &mut NamedMap<NodeId>,
) -> Result<(), AllocError>
    requires { IsRepeatedBy declaration (Some index) }
    ensures { OnOk result (AddsEarly early.now.entries (before declaration End)
        entries.old.items exported.old entries.new.items exported.new) }
{
    match early_at(early, exported, index) {
        Some(one) => add_export(alloc, entries, one, index, exported),
        None => add_plain(entries, declaration),
    }
}

/// Adds a declaration as an entry.
fn add_entry(
    alloc: Global,
    entries: &mut Vec<Entry>,
    declaration: Declaration,
    early: &IndexMap<u64, Early>,
    exported: &mut NamedMap<NodeId>,
) -> Result<(), AllocError>
    ensures { OnOk result (AddsEarly early.now.entries (before declaration End)
        entries.old.items exported.old entries.new.items exported.new) }
{
    match repeated(&declaration) {
        Some(index) => add_repeated(alloc, entries, declaration, index, early, exported),
        None => add_plain(entries, declaration),
    }
}

/// Adds declarations as entries.
pub(crate) fn add_entries(
    alloc: Global,
    entries: &mut Vec<Entry>,
    declarations: Vec<Declaration>,
    early: &IndexMap<u64, Early>,
    exported: &mut NamedMap<NodeId>,
) -> Result<(), AllocError>
    ensures { OnOk result (AddsEarly early.now.entries (declarations_of declarations.items)
        entries.old.items exported.old entries.new.items exported.new) }
{
    for declaration in declarations {
        add_entry(alloc, entries, declaration, early, exported)?;
    }
    Ok(())
}

//! Whether two entries are the same but for the ids in them.

ghost use Rattle.std.specs.Prelude.{◌≡◌, IsTrue, ◌↔◌};
ghost use Rattle.wac_types_same.specs.Same.{names_taken};
ghost use Rattle.wac_types_base.specs.Collection.{use_names, resource_entry, func_entry, interface_entry, world_entry, module_entry};

use crate::core_items::same_modules;
use wac_types_base::{FuncType, Interface, ModuleType, NamedMap, Resource, Text, UsedType, World};
use wac_types_fit::labels::same_names;

/// Whether two texts that may be there are the same.
fn same_texts(a: &Option<Text>, b: &Option<Text>) -> bool
    ensures { IsTrue result ↔ (a.now ≡ b.now) }
{
    match a {
        None => b.is_none(),
        Some(text) => match b {
            None => false,
            Some(other) => text.is(other.as_str()),
        },
    }
}

/// Whether the uses take the same names, in order.
fn same_taken(a: &[UsedType], b: &[UsedType]) -> bool
    ensures { IsTrue result ↔ (names_taken a.now ≡ names_taken b.now) }
{
    if a.len() != b.len() {
        return false;
    }
    for at in 0..a.len() {
        if !same_texts(&a[at].name, &b[at].name) {
            return false;
        }
    }
    true
}

/// Whether two lists of uses are the same but for the interfaces.
fn same_uses(a: &NamedMap<UsedType>, b: &NamedMap<UsedType>) -> bool
    ensures { IsTrue result ↔ (use_names a.now ≡ use_names b.now) }
{
    same_names(a.names(), b.names()) && same_taken(a.values(), b.values())
}

/// Whether two resources are the same but for the ids in them.
pub(crate) fn same_resources(a: &Resource, b: &Resource) -> bool
    ensures { IsTrue result ↔ ((resource_entry a.now).0 ≡ (resource_entry b.now).0) }
{
    match &a.alias {
        None => b.alias.is_none() && a.name.is(b.name.as_str()),
        Some(_) => b.alias.is_some() && a.name.is(b.name.as_str()),
    }
}

/// Whether two functions are the same but for the ids in them.
pub(crate) fn same_funcs(a: &FuncType, b: &FuncType) -> bool
    ensures { IsTrue result ↔ ((func_entry a.now).0 ≡ (func_entry b.now).0) }
{
    a.is_async == b.is_async && same_names(a.params.names(), b.params.names())
}

/// Whether two interfaces are the same but for the ids in them.
pub(crate) fn same_interfaces(a: &Interface, b: &Interface) -> bool
    ensures { IsTrue result ↔ ((interface_entry a.now).0 ≡ (interface_entry b.now).0) }
{
    same_texts(&a.id, &b.id)
        && same_uses(&a.uses, &b.uses)
        && same_names(a.exports.names(), b.exports.names())
}

/// Whether two worlds are the same but for the ids in them.
pub(crate) fn same_worlds(a: &World, b: &World) -> bool
    ensures { IsTrue result ↔ ((world_entry a.now).0 ≡ (world_entry b.now).0) }
{
    same_texts(&a.id, &b.id)
        && same_uses(&a.uses, &b.uses)
        && same_names(a.imports.names(), b.imports.names())
        && same_names(a.exports.names(), b.exports.names())
}

/// Whether two module types are the same.
pub(crate) fn same_module_labels(a: &ModuleType, b: &ModuleType) -> bool
    ensures { IsTrue result ↔ ((module_entry a.now).0 ≡ (module_entry b.now).0) }
{
    same_modules(a, b)
}

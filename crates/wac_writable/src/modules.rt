//! Which module types can be written.

ghost use Rattle.std.specs.Prelude.{◌≡◌};
ghost use Rattle.std.specs.List.{list_all};
ghost use Rattle.wac_composition.specs.Writable.{writable_core_type, writable_reference, writable_signature, writable_extern, writable_module};

use wac_graph_bytes::{core_reference, core_value};
use wac_types_base::{CoreExtern, CoreFuncType, CoreRefType, CoreType, ModuleType};

fn is_writable_reference(ty: CoreRefType) -> bool
    ensures { result ≡ writable_reference ty }
{
    core_reference(ty).is_some()
}

fn is_writable_type(ty: CoreType) -> bool
    ensures { result ≡ writable_core_type ty }
{
    core_value(ty).is_some()
}

fn are_writable_types(types: &[CoreType]) -> bool
    ensures { result ≡ list_all writable_core_type types.now }
{
    for ty in types {
        if !is_writable_type(*ty) {
            return false;
        }
    }
    true
}

fn is_writable_signature(func: &CoreFuncType) -> bool
    ensures { result ≡ writable_signature func.now }
{
    are_writable_types(func.params.as_slice()) && are_writable_types(func.results.as_slice())
}

fn is_writable_item(item: &CoreExtern) -> bool
    ensures { result ≡ writable_extern item.now }
{
    match item {
        CoreExtern::Func(func) => is_writable_signature(func),
        CoreExtern::Tag(func) => is_writable_signature(func),
        CoreExtern::Table {
            element_type,
            shared,
            ..
        } => is_writable_reference(*element_type) && !*shared,
        CoreExtern::Memory { page_size_log2, .. } => page_size_log2.is_none(),
        CoreExtern::Global {
            val_type,
            shared,
            ..
        } => is_writable_type(*val_type) && !*shared,
    }
}

fn are_writable_items(items: &[CoreExtern]) -> bool
    ensures { result ≡ list_all writable_extern items.now }
{
    for item in items {
        if !is_writable_item(item) {
            return false;
        }
    }
    true
}

/// Whether each item of a module type can be written.
pub fn is_writable_module(module: &ModuleType) -> bool
    ensures { result ≡ writable_module module.now }
{
    are_writable_items(module.imports.values()) && are_writable_items(module.exports.values())
}

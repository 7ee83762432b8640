//! Whether two items of a collection state the same.

ghost use Rattle.std.specs.Prelude.{◌≡◌, IsTrue, ◌↔◌};
ghost use Rattle.wac_types_base.specs.declared.item.ItemKind.{ItemKind};
ghost use Rattle.wac_types_base.specs.declared.item.«Type».{«Type» as TypeKind};
ghost use Rattle.wac_types_base.specs.Collection.{Stands, SlotStands};
ghost use Rattle.wac_types_base.specs.Stated.{stated_of};
ghost use Rattle.wac_types_same.specs.Same.{label_of, slot_stated, places_stated};

use crate::labels::{same_funcs, same_interfaces, same_module_labels, same_resources, same_worlds};
use wac_types_base::replace::is_same;
use wac_types_base::{ItemKind, Type, Types, ValueType};
use wac_types_fit::labels::same_defined;

/// Whether two value types are the same but for the ids in them.
fn same_value_labels(types: &Types, a: ValueType, b: ValueType) -> bool
    requires first { Stands types.now (ItemKind.Value a) }
    requires second { Stands types.now (ItemKind.Value b) }
    ensures { IsTrue result ↔ (label_of types.now (ItemKind.Value a) ≡ label_of types.now (ItemKind.Value b)) }
{
    match a {
        ValueType::Primitive(_) => match b {
            ValueType::Primitive(_) => is_same(ItemKind::Value(a), ItemKind::Value(b)),
            _ => false,
        },
        ValueType::Borrow(r) => match b {
            ValueType::Borrow(s) => same_resources(types.resource(r), types.resource(s)),
            _ => false,
        },
        ValueType::Own(r) => match b {
            ValueType::Own(s) => same_resources(types.resource(r), types.resource(s)),
            _ => false,
        },
        ValueType::Defined(d) => match b {
            ValueType::Defined(e) => same_defined(types.defined_type(d), types.defined_type(e)),
            _ => false,
        },
    }
}

/// Whether two types are the same but for the ids in them.
fn same_type_labels(types: &Types, a: Type, b: Type) -> bool
    requires first { Stands types.now (ItemKind.Ty a) }
    requires second { Stands types.now (ItemKind.Ty b) }
    ensures { IsTrue result ↔ (label_of types.now (ItemKind.Ty a) ≡ label_of types.now (ItemKind.Ty b)) }
{
    match a {
        Type::Resource(r) => match b {
            Type::Resource(s) => same_resources(types.resource(r), types.resource(s)),
            _ => false,
        },
        Type::Func(f) => match b {
            Type::Func(g) => same_funcs(types.func_type(f), types.func_type(g)),
            _ => false,
        },
        Type::Value(v) => match b {
            Type::Value(w) => same_value_labels(types, v, w),
            _ => false,
        },
        Type::Interface(i) => match b {
            Type::Interface(j) => same_interfaces(types.interface(i), types.interface(j)),
            _ => false,
        },
        Type::World(w) => match b {
            Type::World(x) => same_worlds(types.world(w), types.world(x)),
            _ => false,
        },
        Type::Module(m) => match b {
            Type::Module(n) => same_module_labels(types.module_type(m), types.module_type(n)),
            _ => false,
        },
    }
}

/// Whether two items are the same but for the ids in them.
fn same_labels(types: &Types, a: ItemKind, b: ItemKind) -> bool
    requires first { Stands types.now a }
    requires second { Stands types.now b }
    ensures { IsTrue result ↔ (label_of types.now a ≡ label_of types.now b) }
{
    match a {
        ItemKind::Ty(s) => match b {
            ItemKind::Ty(t) => same_type_labels(types, s, t),
            _ => false,
        },
        ItemKind::Func(f) => match b {
            ItemKind::Func(g) => same_funcs(types.func_type(f), types.func_type(g)),
            _ => false,
        },
        ItemKind::Instance(i) => match b {
            ItemKind::Instance(j) => same_interfaces(types.interface(i), types.interface(j)),
            _ => false,
        },
        ItemKind::Component(w) => match b {
            ItemKind::Component(x) => same_worlds(types.world(w), types.world(x)),
            _ => false,
        },
        ItemKind::Module(m) => match b {
            ItemKind::Module(n) => same_module_labels(types.module_type(m), types.module_type(n)),
            _ => false,
        },
        ItemKind::Value(v) => match b {
            ItemKind::Value(w) => same_value_labels(types, v, w),
            _ => false,
        },
    }
}

/// Whether two items of a collection state the same type, with its identifiers, uses and owners.
#[cycle(stating)]
pub fn states_same(types: &Types, a: ItemKind, b: ItemKind) -> bool
    requires first { Stands types.now a }
    requires second { Stands types.now b }
    ensures { IsTrue result ↔ (stated_of types.now a ≡ stated_of types.now b) }
{
    types.see_acyclic();
    is_same(a, b) || (same_labels(types, a, b) && same_places(types, a, b))
}

/// Whether the places of two items state the same.
#[cycle(stating)]
fn same_places(types: &Types, a: ItemKind, b: ItemKind) -> bool
    requires first { Stands types.now a }
    requires second { Stands types.now b }
    ensures { IsTrue result ↔ (places_stated types.now a ≡ places_stated types.now b) }
{
    types.see_acyclic();
    let mut at: u128 = 0;
    while let Some(first) = types.place(a, at) {
        match types.place(b, at) {
            None => return false,
            Some(second) => {
                if !same_place(types, first, second) {
                    return false;
                }
            }
        }
        at += 1;
    }
    types.place(b, at).is_none()
}

/// Whether two places state the same.
#[cycle(stating)]
fn same_place(types: &Types, a: Option<ItemKind>, b: Option<ItemKind>) -> bool
    requires first { SlotStands types.now a }
    requires second { SlotStands types.now b }
    ensures { IsTrue result ↔ (slot_stated types.now a ≡ slot_stated types.now b) }
{
    match a {
        None => b.is_none(),
        Some(x) => match b {
            None => false,
            Some(y) => states_same(types, x, y),
        },
    }
}

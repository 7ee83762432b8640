//! Whether two values, functions or resources have one tree.

ghost use Rattle.std.specs.Prelude.{◌≡◌, IsTrue, ◌↔◌};
ghost use Rattle.wac_types_base.specs.declared.item.ItemKind.{ItemKind};
ghost use Rattle.wac_types_base.specs.declared.item.ValueType.{ValueType};
ghost use Rattle.wac_types_base.specs.declared.item.«Type».{«Type» as TypeKind};
ghost use Rattle.wac_types_base.specs.Collection.{Stands, StandsIf};
ghost use Rattle.wac_types_base.specs.Resolving.{IsNoAlias};
ghost use Rattle.wac_types_fit.specs.Trees.{SameTree, OneOrApart};
ghost use Rattle.wac_types_fit.specs.Checking.{value_in, HoldsValues, value_tree, place_trees};

use crate::labels::{same_defined, same_names};
use wac_types_base::replace::is_same;
use wac_types_base::{FuncTypeId, ItemKind, ResourceId, Types, ValueType};

/// Whether two resources have one root name.
pub(crate) fn same_resources(a: ResourceId, at: &Types, b: ResourceId, bt: &Types) -> bool
    requires given { Stands at.now (ItemKind.Ty (TypeKind.Resource a)) }
    requires asked { Stands bt.now (ItemKind.Ty (TypeKind.Resource b)) }
    ensures { IsTrue result ↔ SameTree at.now (ItemKind.Ty (TypeKind.Resource a)) bt.now (ItemKind.Ty (TypeKind.Resource b)) }
{
    let given = at.resource(at.resolve_resource(a));
    let asked = bt.resource(bt.resolve_resource(b));
    given.name.is(asked.name.as_str())
}

/// The value type in a place.
pub fn value_of(place: Option<ItemKind>) -> Option<ValueType>
    ensures { result ≡ value_in place }
{
    match place {
        Some(ItemKind::Value(ty)) => Some(ty),
        _ => None,
    }
}

/// Whether two kinds of one collection share: they are one, or name one kept entry.
pub(crate) fn is_one(a: ItemKind, at: &Types, b: ItemKind, bt: &Types) -> bool
    requires given { Stands at.now a }
    requires asked { Stands bt.now b }
    requires apart { OneOrApart at.now bt.now }
    ensures { IsTrue result → SameTree at.now a bt.now b }
{
    if at.number() != bt.number() {
        return false;
    }
    at.items_share(a, b)
}

/// Whether two value types have one tree.
#[cycle(values)]
pub(crate) fn same_values(a: ValueType, at: &Types, b: ValueType, bt: &Types) -> bool
    requires given { Stands at.now (ItemKind.Value a) }
    requires asked { Stands bt.now (ItemKind.Value b) }
    requires apart { OneOrApart at.now bt.now }
    ensures { IsTrue result ↔ SameTree at.now (ItemKind.Value a) bt.now (ItemKind.Value b) }
{
    at.see_acyclic();
    bt.see_acyclic();
    if is_one(ItemKind::Value(a), at, ItemKind::Value(b), bt) {
        return true;
    }
    same_resolved(at.resolve_value_type(a), at, bt.resolve_value_type(b), bt)
}

/// Whether two value types that are no aliases have one tree.
#[cycle(values)]
fn same_resolved(a: ValueType, at: &Types, b: ValueType, bt: &Types) -> bool
    requires given { Stands at.now (ItemKind.Value a) }
    requires asked { Stands bt.now (ItemKind.Value b) }
    requires given_end { IsNoAlias at.now a }
    requires asked_end { IsNoAlias bt.now b }
    requires apart { OneOrApart at.now bt.now }
    ensures { IsTrue result ↔ SameTree at.now (ItemKind.Value a) bt.now (ItemKind.Value b) }
{
    at.see_acyclic();
    bt.see_acyclic();
    match a {
        ValueType::Primitive(_) => match b {
            ValueType::Primitive(_) => is_same(ItemKind::Value(a), ItemKind::Value(b)),
            _ => false,
        },
        ValueType::Borrow(r) => match b {
            ValueType::Borrow(s) => same_resources(r, at, s, bt),
            _ => false,
        },
        ValueType::Own(r) => match b {
            ValueType::Own(s) => same_resources(r, at, s, bt),
            _ => false,
        },
        ValueType::Defined(d) => match b {
            ValueType::Defined(e) => {
                let given = at.defined_type(d);
                let asked = bt.defined_type(e);
                same_defined(given, asked)
                    && same_places(ItemKind::Value(a), at, ItemKind::Value(b), bt)
            }
            _ => false,
        },
    }
}

/// Whether the same trees are in the places of two kinds, all of them values.
#[cycle(values)]
pub(crate) fn same_places(a: ItemKind, at: &Types, b: ItemKind, bt: &Types) -> bool
    requires given { Stands at.now a }
    requires asked { Stands bt.now b }
    requires given_values { HoldsValues at.now a }
    requires asked_values { HoldsValues bt.now b }
    requires apart { OneOrApart at.now bt.now }
    ensures { IsTrue result ↔ (place_trees at.now a ≡ place_trees bt.now b) }
{
    at.see_acyclic();
    bt.see_acyclic();
    let mut index: u128 = 0;
    while let Some(given) = at.place(a, index) {
        match bt.place(b, index) {
            None => return false,
            Some(asked) => {
                if !same_place(value_of(given), at, value_of(asked), bt) {
                    return false;
                }
            }
        }
        index += 1;
    }
    bt.place(b, index).is_none()
}

/// Whether the same tree is in two places.
#[cycle(values)]
fn same_place(a: Option<ValueType>, at: &Types, b: Option<ValueType>, bt: &Types) -> bool
    requires given { StandsIf at.now a }
    requires asked { StandsIf bt.now b }
    requires apart { OneOrApart at.now bt.now }
    ensures { IsTrue result ↔ (value_tree at.now a ≡ value_tree bt.now b) }
{
    match a {
        None => b.is_none(),
        Some(x) => match b {
            None => false,
            Some(y) => same_values(x, at, y, bt),
        },
    }
}

/// Whether two function types have one tree.
pub(crate) fn same_funcs(a: FuncTypeId, at: &Types, b: FuncTypeId, bt: &Types) -> bool
    requires given { Stands at.now (ItemKind.Func a) }
    requires asked { Stands bt.now (ItemKind.Func b) }
    requires apart { OneOrApart at.now bt.now }
    ensures { IsTrue result ↔ SameTree at.now (ItemKind.Func a) bt.now (ItemKind.Func b) }
{
    let given = at.func_type(a);
    let asked = bt.func_type(b);
    if given.is_async != asked.is_async {
        return false;
    }
    if !same_names(given.params.names(), asked.params.names()) {
        return false;
    }
    same_places(ItemKind::Func(a), at, ItemKind::Func(b), bt)
}

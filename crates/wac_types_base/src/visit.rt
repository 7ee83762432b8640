//! Visits of the defined types below a type.

ghost use Rattle.std.specs.Prelude.{◌≡◌};
ghost use Rattle.wac_types_base.specs.Collection.{Stands};
ghost use Rattle.wac_types_base.specs.Visiting.{IsVisited, CalledOn, call_with, own_visit, defined_in, skipped, type_skipped, value_skipped};

use crate::ids::DefinedTypeId;
use crate::item::{ItemKind, Type, ValueType};
use crate::types::Types;

/// The defined type that a kind names.
pub fn defined_of(kind: ItemKind) -> Option<DefinedTypeId>
    ensures { result ≡ defined_in kind }
{
    match kind {
        ItemKind::Value(ValueType::Defined(id)) => Some(id),
        ItemKind::Ty(Type::Value(ValueType::Defined(id))) => Some(id),
        _ => None,
    }
}

fn skipped_in_value(ty: ValueType) -> u128
    ensures { result ≡ value_skipped ty }
{
    match ty {
        ValueType::Borrow(_) | ValueType::Own(_) => 2,
        ValueType::Primitive(_) | ValueType::Defined(_) => 0,
    }
}

#[tactic(auto, using(crate::proofs::Slots::slots))]
fn skipped_in_type(types: &Types, ty: Type) -> u128
    requires { Stands types.now (ItemKind.Ty ty) }
    ensures { result ≡ type_skipped types.now ty }
{
    match ty {
        Type::Resource(_) => 2,
        Type::Interface(id) => types.interface(id).uses.len() as u128,
        Type::World(id) => types.world(id).uses.len() as u128,
        Type::Value(value) => skipped_in_value(value),
        Type::Func(_) | Type::Module(_) => 0,
    }
}

impl Types {
    /// How many places of a kind come before those below it: the uses, and what a resource is made of.
    pub fn skipped(&self, kind: ItemKind) -> u128
        requires { Stands self.now kind }
        ensures { result ≡ skipped self.now kind }
    {
        match kind {
            ItemKind::Ty(ty) => skipped_in_type(self, ty),
            ItemKind::Instance(id) => self.interface(id).uses.len() as u128,
            ItemKind::Component(id) => self.world(id).uses.len() as u128,
            ItemKind::Value(ty) => skipped_in_value(ty),
            ItemKind::Func(_) | ItemKind::Module(_) => 0,
        }
    }
}

/// Calls the visitor on the defined type that a kind names, if any.
fn visit_own<E, F: FnMut(&Types, DefinedTypeId) -> Result<(), E>>(
    types: &Types,
    kind: ItemKind,
    visitor: &mut F,
) -> Result<(), E>
    requires callable { F.IsAlwaysCallable visitor.old }
    ensures callable { F.IsAlwaysCallable visitor.new }
    ensures called { CalledOn (call_with F.step types.now) visitor.old (own_visit (defined_in kind)) result visitor.new }
{
    match defined_of(kind) {
        None => Ok(()),
        Some(id) => visitor(types, id),
    }
}

/// Calls the visitor on each defined type of a kind, its own first.
fn visit_kind<E, F: FnMut(&Types, DefinedTypeId) -> Result<(), E>>(
    types: &Types,
    kind: ItemKind,
    visitor: &mut F,
) -> Result<(), E>
    requires stands { Stands types.now kind }
    requires callable { F.IsAlwaysCallable visitor.old }
    ensures callable { F.IsAlwaysCallable visitor.new }
    ensures visited { IsVisited (call_with F.step types.now) types.now kind visitor.old result visitor.new }
{
    types.see_acyclic();
    visit_own(types, kind, visitor)?;
    let mut at = types.skipped(kind);
    while let Some(place) = types.place(kind, at) {
        if let Some(child) = place {
            visit_kind(types, child, visitor)?;
        }
        at += 1;
    }
    Ok(())
}

impl Type {
    /// Calls the visitor on each defined type of the type, its own first, then those below it, once for each place and
    /// in order. Uses and what resources are made of are not below it. What the visitor refuses ends the visit.
    pub fn visit_defined_types<E, F: FnMut(&Types, DefinedTypeId) -> Result<(), E>>(
        &self,
        types: &Types,
        visitor: &mut F,
    ) -> Result<(), E>
        requires stands { Stands types.now (ItemKind.Ty self.now) }
        requires callable { F.IsAlwaysCallable visitor.old }
        ensures callable { F.IsAlwaysCallable visitor.new }
        ensures visited { IsVisited (call_with F.step types.now) types.now
            (ItemKind.Ty self.now) visitor.old result visitor.new }
    {
        visit_kind(types, ItemKind::Ty(*self), visitor)
    }
}

//! Which defined types a type reaches. Marks remember what was found, so no defined type is walked twice.

ghost use Rattle.std.specs.Prelude.{◌≡◌, ◌↔◌, IsTrue, IfOk, OnOk, Some};
ghost use Rattle.std.specs.Bool.{Decides};
ghost use Rattle.wac_types_base.specs.Collection.{Stands};
ghost use Rattle.wac_graph_core.specs.Reaching.{Reaches, MarkedOwn, IsClosed, Gathers, Marks, IsWithout};

use crate::type_set::TypeSet;
use std::alloc::AllocError;
use wac_types_base::visit::defined_of;
use wac_types_base::{DefinedTypeId, ItemKind, Type, Types, ValueType};

/// Whether the defined type is marked, if it is one.
pub(crate) fn is_marked(marks: &TypeSet, own: Option<DefinedTypeId>) -> bool
    ensures { IsTrue result ↔ MarkedOwn marks.now own }
{
    match own {
        Some(id) => marks.contains(Type::Value(ValueType::Defined(id))),
        None => false,
    }
}

/// Whether it is this defined type.
fn is_wanted(own: Option<DefinedTypeId>, wanted: DefinedTypeId) -> bool
    ensures { IsTrue result ↔ (own ≡ Some wanted) }
{
    match own {
        Some(id) => id == wanted,
        None => false,
    }
}

/// Marks the defined type, if it is one.
fn mark(marks: &mut TypeSet, own: Option<DefinedTypeId>) -> Result<(), AllocError>
    ensures { OnOk result (Marks own marks.old marks.new) }
{
    match own {
        Some(id) => marks.insert(Type::Value(ValueType::Defined(id))),
        None => Ok(()),
    }
}

/// Marks each defined type that a kind reaches.
pub(crate) fn mark_reached(
    types: &Types,
    kind: ItemKind,
    marks: &mut TypeSet,
) -> Result<(), AllocError>
    requires stands { Stands types.now kind }
    requires closed { IsClosed types.now marks.old }
    ensures closed { OnOk result (IsClosed types.now marks.new) }
    ensures gathers { OnOk result (Gathers types.now kind marks.old marks.new) }
{
    types.see_acyclic();
    let own = defined_of(kind);
    if is_marked(marks, own) {
        return Ok(());
    }
    let mut at = types.skipped(kind);
    while let Some(place) = types.place(kind, at) {
        if let Some(child) = place {
            mark_reached(types, child, marks)?;
        }
        at += 1;
    }
    mark(marks, own)
}

/// Whether a kind reaches a defined type. Those are marked of which it is known that they do not.
pub(crate) fn reaches(
    types: &Types,
    kind: ItemKind,
    wanted: DefinedTypeId,
    without: &mut TypeSet,
) -> Result<bool, AllocError>
    requires stands { Stands types.now kind }
    requires without { IsWithout types.now wanted without.old }
    ensures without { OnOk result (IsWithout types.now wanted without.new) }
    ensures answer { IfOk result (λ yes. Decides yes (Reaches types.now kind wanted)) }
{
    types.see_acyclic();
    let own = defined_of(kind);
    if is_wanted(own, wanted) {
        return Ok(true);
    }
    if is_marked(without, own) {
        return Ok(false);
    }
    let mut at = types.skipped(kind);
    while let Some(place) = types.place(kind, at) {
        if let Some(child) = place {
            let found = reaches(types, child, wanted, without)?;
            if found {
                return Ok(true);
            }
        }
        at += 1;
    }
    mark(without, own)?;
    Ok(false)
}

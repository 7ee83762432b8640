//! The form in which worlds are handed out.

ghost use Rattle.std.specs.Prelude.{IfOk};
ghost use Rattle.wac_types_base.specs.declared.item.ItemKind.{ItemKind as Kind};
ghost use Rattle.wac_types_base.specs.Collection.{Grows, Stands};
ghost use Rattle.wac_types_base.specs.Stated.{stated_of};
ghost use Rattle.wac_types_written.specs.Forms.{IsOf, IsWithoutUses};
ghost use Rattle.wac_graph_encode.specs.Worlds.{IsAWorld};

use std::alloc::{AllocError, Global};
use wac_types_base::copy::copy_item;
use wac_types_base::{ItemKind, Types, WorldId};
use wac_types_written::without_uses;

/// The copy of a world in another collection.
fn copied(
    alloc: Global,
    types: &Types,
    item: ItemKind,
    to: &mut Types,
) -> Result<WorldId, AllocError>
    requires stands { Stands types.now item }
    requires world { IsAWorld types.now item }
    ensures same { IfOk result (λ w. IsOf to.new (stated_of types.now item) (Kind.Component w)) }
    ensures grows { Grows to.old to.new }
{
    to.see_acyclic();
    let copy = copy_item(alloc, types, item, to)?;
    match copy {
        ItemKind::Component(world) => Ok(world),
        _ => unreachable!(),
    }
}

/// A world of one collection in another, with no uses in it or in a world in it.
pub(crate) fn handed_out(
    alloc: Global,
    types: &mut Types,
    world: WorldId,
    to: &mut Types,
) -> Result<WorldId, AllocError>
    requires { Stands types.old (Kind.Component world) }
    ensures without { IfOk result (λ w. IsWithoutUses types.old to.new (Kind.Component world) (Kind.Component w)) }
    ensures grows { Grows to.old to.new }
{
    to.see_acyclic();
    types.see_acyclic();
    let item = without_uses(alloc, types, ItemKind::Component(world))?;
    copied(alloc, types, item, to)
}

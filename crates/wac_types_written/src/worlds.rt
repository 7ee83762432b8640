//! Worlds of their parts, in a form.

ghost use Rattle.std.specs.Prelude.{IfOk};
ghost use Rattle.wac_types_base.specs.Collection.{Grows};
ghost use Rattle.wac_types_written.specs.Components.{IsMadeOf};
ghost use Rattle.wac_types_written.specs.Forms.{ItemsStand, UsesStand, maker};
ghost use Rattle.wac_types_written.specs.Written.{bare_world};

use crate::components::add_component_type;
use std::alloc::{AllocError, Global};
use wac_types_base::{NamedMap, Types, World, WorldId};

/// The form in which worlds are made again.
#[derive(Clone, Copy)]
pub(crate) enum WorldForm {
    /// A component type, which imports what its items use.
    ComponentType,
    /// A world that has no uses.
    WithoutUses,
}

/// A world without its uses.
fn add_bare_world(types: &mut Types, alloc: Global, world: World) -> Result<WorldId, AllocError>
    requires imports { ItemsStand types.old world.imports }
    requires exports { ItemsStand types.old world.exports }
    ensures world { IfOk result (IsMadeOf bare_world types.old types.new world.id world.uses world.imports world.exports) }
    ensures grows { Grows types.old types.new }
{
    let World {
        id,
        uses: _,
        imports,
        exports,
    } = world;
    let world = types.add_world(World {
        id,
        uses: NamedMap::new(alloc),
        imports,
        exports,
    })?;
    Ok(world)
}

/// A world in a form.
pub(crate) fn add_formed_world(
    types: &mut Types,
    alloc: Global,
    form: WorldForm,
    world: World,
) -> Result<WorldId, AllocError>
    requires uses { UsesStand types.old world.uses }
    requires imports { ItemsStand types.old world.imports }
    requires exports { ItemsStand types.old world.exports }
    ensures world { IfOk result (IsMadeOf (maker form) types.old types.new world.id world.uses world.imports world.exports) }
    ensures grows { Grows types.old types.new }
{
    match form {
        WorldForm::ComponentType => {
            let world = add_component_type(types, alloc, world)?;
            Ok(world)
        }
        WorldForm::WithoutUses => {
            let world = add_bare_world(types, alloc, world)?;
            Ok(world)
        }
    }
}

//! Worlds by parts.

ghost use Rattle.std.specs.Prelude.{◌≡◌, [], IsOk, IfOk};
ghost use Rattle.wac_types_base.specs.declared.item.ItemKind.{ItemKind};
ghost use Rattle.wac_types_base.specs.Collection.{Grows, HasChildren, Stands, world_entry};
ghost use Rattle.wac_types_parts.specs.Parts.{imports_of};
ghost use Rattle.wac_graph_asks.specs.Imported.{ImportsAlone};
ghost use Rattle.wac_graph_asks.specs.Outers.{HasImportsAlone};

use std::alloc::{AllocError, Global};
use wac_types_base::{ItemKind, NamedMap, Text, Types, World, WorldId};

/// The value, if what was to be added to it was added; it is dropped here alone.
pub fn filled<T: Drop>(value: T, added: Result<(), AllocError>) -> Result<T, AllocError>
    ensures value { IfOk result (λ v. v ≡ value) }
    ensures added { IfOk result (λ v. IsOk added) }
{
    added?;
    Ok(value)
}

/// A world of that identifier, in which nothing stands.
pub fn bare_world(alloc: Global, id: Option<Text>) -> World
    ensures imports { result.imports ≡ [] }
    ensures alone { ImportsAlone result }
{
    World {
        id,
        uses: NamedMap::new(alloc),
        imports: NamedMap::new(alloc),
        exports: NamedMap::new(alloc),
    }
}

/// Adds a world, all of whose ids stand here.
pub fn add_world(types: &mut Types, world: World) -> Result<WorldId, AllocError>
    requires { HasChildren types.old (world_entry world) }
    ensures stands { IfOk result (λ w. Stands types.new (ItemKind.Component w)) }
    ensures imports { IfOk result (λ w. imports_of types.new w ≡ world.imports) }
    ensures alone { IfOk result (λ w. ImportsAlone world → HasImportsAlone types.new w) }
    ensures grows { Grows types.old types.new }
{
    let id = types.add_world(world)?;
    Ok(id)
}

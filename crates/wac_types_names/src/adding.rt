//! Collections that are lent for adding alone.

ghost use Rattle.std.specs.Prelude.{◌≡◌, IfOk, OnErr, option_map, option_copied};
ghost use Rattle.semver.specs.Identifiers.{parts_of};
ghost use Rattle.wac_types_base.specs.declared.item.ItemKind.{ItemKind};
ghost use Rattle.wac_types_base.specs.Record.{Collection};
ghost use Rattle.wac_types_base.specs.Collection.{Stands, Grows};
ghost use Rattle.wac_types_base.specs.Copying.{IsCopy};
ghost use Rattle.wac_types_names.specs.Packages.{DefinitionsOf, AddsInterfaceOf};

use crate::package::{Package, package_of};
use semver::Version;
use std::alloc::{AllocError, Global};
use wac_types_base::{Types, TypesMut, WorldId};

/// A collection that is lent for adding alone: what [`Types::adding`] lends, or a graph.
pub trait Adding {
    ghost collection: { Self → Collection };

    // what else stays the same
    ghost Keeps: { Self → Self → Type 0 };

    /// Copies a world into it, as [`copy_world`] does.
    fn add_copy(&mut self, alloc: Global, from: &Types, id: WorldId) -> Result<WorldId, AllocError>
        requires { Stands from.now (ItemKind.Component id) }
        ensures copied { IfOk result
            (λ i. IsCopy from.now (collection self.new) (ItemKind.Component id) (ItemKind.Component i)) }
        ensures grows { Grows (collection self.old) (collection self.new) }
        ensures keeps { Keeps self.old self.new };

    /// Makes a package of one of its worlds, as [`Package::from_world`] does.
    fn make_package(
        &mut self,
        alloc: Global,
        name: &str,
        version: Option<&Version>,
        bytes: Vec<u8>,
        world: WorldId,
    ) -> Result<Package, AllocError>
        requires { Stands (collection self.old) (ItemKind.Component world) }
        ensures name { IfOk result (λ p. p.name ≡ name.now) }
        ensures version { IfOk result (λ p. p.version ≡ option_map parts_of (option_copied version.entry)) }
        ensures bytes { IfOk result (λ p. p.bytes ≡ bytes.items) }
        ensures ty { IfOk result (λ p. p.ty ≡ world) }
        ensures instance_type { IfOk result
            (λ p. AddsInterfaceOf (collection self.old) (collection self.new) world p.instance_type) }
        ensures definitions { IfOk result (λ p. DefinitionsOf (collection self.old) world p.definitions) }
        ensures err { OnErr result (collection self.new ≡ collection self.old) }
        ensures grows { Grows (collection self.old) (collection self.new) }
        ensures keeps { Keeps self.old self.new };
}

impl Adding for TypesMut<'_> {
    ghost collection = { λ t. t.types.now };

    ghost Keeps = { λ old new. new.types.ghost_name ≡ old.types.ghost_name };

    fn add_copy(
        &mut self,
        alloc: Global,
        from: &Types,
        id: WorldId,
    ) -> Result<WorldId, AllocError> {
        wac_types_base::copy_world(alloc, from, id, self)
    }

    fn make_package(
        &mut self,
        alloc: Global,
        name: &str,
        version: Option<&Version>,
        bytes: Vec<u8>,
        world: WorldId,
    ) -> Result<Package, AllocError> {
        package_of(alloc, name, version, bytes, self, world)
    }
}

/// Copies a world into another collection, with the same tree, identifiers and uses. Want of memory may leave entries
/// there that nothing names.
pub fn copy_world<T: Adding>(
    alloc: Global,
    from: &Types,
    id: WorldId,
    to: &mut T,
) -> Result<WorldId, AllocError>
    requires { Stands from.now (ItemKind.Component id) }
    ensures copied { IfOk result
        (λ i. IsCopy from.now (T.collection to.new) (ItemKind.Component id) (ItemKind.Component i)) }
    ensures grows { Grows (T.collection to.old) (T.collection to.new) }
    ensures keeps { T.Keeps to.old to.new }
{
    to.add_copy(alloc, from, id)
}

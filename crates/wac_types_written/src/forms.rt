//! What became of interfaces and worlds.

ghost use Rattle.std.specs.Prelude.{IfSome, OnOk};
ghost use Rattle.wac_types_base.specs.declared.item.ItemKind.{ItemKind};
ghost use Rattle.wac_types_base.specs.Collection.{Stands};
ghost use Rattle.wac_types_written.specs.Forms.{AreForms, IsFormed, maker};

use crate::worlds::WorldForm;
use std::alloc::{AllocError, Global};
use std::collections::HashMap;
use wac_types_base::{InterfaceId, Types, WorldId};

/// What became of interfaces and worlds, by their indexes.
#[derive(Drop)]
pub(crate) struct Forms {
    pub(crate) interfaces: HashMap<usize, usize>,
    pub(crate) worlds: HashMap<usize, usize>,
}

impl Forms {
    /// Nothing yet.
    pub(crate) fn new(alloc: Global, types: &Types, worlds: WorldForm) -> Self
        ensures { AreForms (maker worlds) types.now result }
    {
        let _ = types;
        let _ = worlds;
        Forms {
            interfaces: HashMap::new(alloc),
            worlds: HashMap::new(alloc),
        }
    }

    /// What became of an interface.
    pub(crate) fn interface(
        &self,
        types: &Types,
        id: InterfaceId,
        worlds: WorldForm,
    ) -> Option<InterfaceId>
        requires stands { Stands types.now (ItemKind.Instance id) }
        requires forms { AreForms (maker worlds) types.now self.now }
        ensures { IfSome result (λ i. IsFormed (maker worlds) types.now (ItemKind.Instance id) (ItemKind.Instance i)) }
    {
        let _ = worlds;
        let index = *self.interfaces.get(&id.index)?;
        Some(InterfaceId {
            collection: types.number(),
            index,
        })
    }

    /// What became of a world.
    pub(crate) fn world(&self, types: &Types, id: WorldId, worlds: WorldForm) -> Option<WorldId>
        requires stands { Stands types.now (ItemKind.Component id) }
        requires forms { AreForms (maker worlds) types.now self.now }
        ensures { IfSome result (λ w. IsFormed (maker worlds) types.now (ItemKind.Component id) (ItemKind.Component w)) }
    {
        let _ = worlds;
        let index = *self.worlds.get(&id.index)?;
        Some(WorldId {
            collection: types.number(),
            index,
        })
    }

    /// Keeps what became of an interface.
    pub(crate) fn keep_interface(
        &mut self,
        types: &Types,
        id: InterfaceId,
        form: InterfaceId,
        worlds: WorldForm,
    ) -> Result<(), AllocError>
        requires stands { Stands types.now (ItemKind.Instance id) }
        requires formed { IsFormed (maker worlds) types.now (ItemKind.Instance id) (ItemKind.Instance form) }
        requires forms { AreForms (maker worlds) types.now self.old }
        ensures { OnOk result (AreForms (maker worlds) types.now self.new) }
    {
        let _ = types;
        let _ = worlds;
        let _ = self.interfaces.insert(id.index, form.index)?;
        Ok(())
    }

    /// Keeps what became of a world.
    pub(crate) fn keep_world(
        &mut self,
        types: &Types,
        id: WorldId,
        form: WorldId,
        worlds: WorldForm,
    ) -> Result<(), AllocError>
        requires stands { Stands types.now (ItemKind.Component id) }
        requires formed { IsFormed (maker worlds) types.now (ItemKind.Component id) (ItemKind.Component form) }
        requires forms { AreForms (maker worlds) types.now self.old }
        ensures { OnOk result (AreForms (maker worlds) types.now self.new) }
    {
        let _ = types;
        let _ = worlds;
        let _ = self.worlds.insert(id.index, form.index)?;
        Ok(())
    }
}

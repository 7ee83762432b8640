//! Interfaces without identifiers that are used.

ghost use Rattle.std.specs.Prelude.{◌≡◌, [], Some, OnOk, IfOk};
ghost use Rattle.wac_writable.specs.Unnamed.{Knows, KnowsAll, Learns, found_of, is_found};
ghost use Rattle.wac_writable.specs.Unnamed.{is_unnamed, uses_unnamed, world_uses_unnamed};

use indexmap::IndexMap;
use std::alloc::{AllocError, Global};
use std::marker::Model;
use wac_types_base::{InterfaceId, Types, WorldId};
use wac_types_parts::parts::{identifier, use_at, use_count, world_use_at, world_use_count};

/// Of interfaces, whether one without identifier is reached from them by uses: each is looked at once.
#[derive(Drop)]
pub struct Unnamed {
    found: IndexMap<InterfaceId, bool>,
}

impl Model for Unnamed {
    ghost use Rattle.std.specs.Prelude.{List, Bool};
    ghost use Rattle.wac_types_base.specs.declared.ids.InterfaceId.{InterfaceId};

    ghost Value = { List (InterfaceId × Bool) };

    ghost view = { λ s. s.found.entries };
}

impl Unnamed {
    /// None is looked at yet.
    pub fn new(alloc: Global) -> Self
        ensures { result ≡ [] }
    {
        Unnamed {
            found: IndexMap::new(alloc),
        }
    }

    /// All interfaces of a collection are looked at.
    pub fn all(alloc: Global, types: &Types) -> Result<Self, AllocError>
        ensures { IfOk result (KnowsAll types.now) }
    {
        let mut unnamed = Unnamed::new(alloc);
        for index in 0..types.interfaces().len() {
            let collection = types.number();
            let _ = unnamed.is_used_by(types, InterfaceId { collection, index })?;
        }
        Ok(unnamed)
    }

    /// What was found of an interface; none was found of one that was not looked at.
    pub fn is_found(&self, id: InterfaceId) -> bool
        ensures { result ≡ is_found self.now id }
    {
        match self.found.get(&id) {
            Some(found) => *found,
            None => false,
        }
    }

    /// Whether an interface that this one uses, or one that such a one uses, has no identifier.
    #[cycle(unnamed)]
    fn is_used_by(&mut self, types: &Types, id: InterfaceId) -> Result<bool, AllocError>
        requires { Knows types.now self.old }
        ensures learns { OnOk result (Learns types.now self.old self.new) }
        ensures found { IfOk result (λ b. found_of self.new id ≡ Some b) }
    {
        if let Some(found) = self.found.get(&id) {
            return Ok(*found);
        }
        let found = self.is_used_directly(types, id)?;
        let _ = self.found.insert(id, found)?;
        Ok(found)
    }

    /// The same, or that it has none itself.
    #[cycle(unnamed)]
    fn is_unnamed(&mut self, types: &Types, id: InterfaceId) -> Result<bool, AllocError>
        requires { Knows types.now self.old }
        ensures learns { OnOk result (Learns types.now self.old self.new) }
        ensures found { IfOk result (λ b. b ≡ is_unnamed types.now id) }
    {
        types.see_acyclic();
        if identifier(types, id).is_none() {
            return Ok(true);
        }
        self.is_used_by(types, id)
    }

    #[cycle(unnamed)]
    fn is_used_directly(&mut self, types: &Types, id: InterfaceId) -> Result<bool, AllocError>
        requires { Knows types.now self.old }
        ensures learns { OnOk result (Learns types.now self.old self.new) }
        ensures found { IfOk result (λ b. b ≡ uses_unnamed types.now id) }
    {
        types.see_acyclic();
        for at in 0..use_count(types, id) {
            if let Some(used) = use_at(types, id, at) {
                if self.is_unnamed(types, used.interface)? {
                    return Ok(true);
                }
            }
        }
        Ok(false)
    }

    /// What was found of an interface that is used.
    fn is_found_unnamed(&self, types: &Types, id: InterfaceId) -> bool
        ensures { KnowsAll types.now self.now → result ≡ is_unnamed types.now id }
    {
        types.see_acyclic();
        identifier(types, id).is_none() || self.is_found(id)
    }

    /// Whether an interface that a world uses, or that such a one uses, has no identifier.
    pub fn is_found_of_world(&self, types: &Types, id: WorldId) -> bool
        ensures { KnowsAll types.now self.now → result ≡ world_uses_unnamed types.now id }
    {
        types.see_acyclic();
        for at in 0..world_use_count(types, id) {
            if let Some(used) = world_use_at(types, id, at) {
                if self.is_found_unnamed(types, used.interface) {
                    return true;
                }
            }
        }
        false
    }
}

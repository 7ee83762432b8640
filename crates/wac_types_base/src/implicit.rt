//! The interfaces that a world imports without naming them.

ghost use Rattle.std.specs.Prelude.{◌≡◌, [], None, Some, OnOk, IfOk, IfErr};
ghost use Rattle.wac_types_base.specs.Graph.{Among};
ghost use Rattle.wac_types_base.specs.Collection.{Stands, HasChildren, world_entry};
ghost use Rattle.wac_types_base.specs.Implicit.{implicit_interfaces, by_identifier, used_interfaces, all_uses, shown};

use crate::defined::{UsedType, World};
use crate::item::ItemKind;
use crate::types::Types;
use indexmap::IndexMap;
use std::alloc::{AllocFailed, Global};
use std::error::Error;
use std::fmt;

/// Why a world has no implicit interfaces, or no report against a target.
#[derive(Clone, Copy, Debug, PartialEq, Eq)]
pub enum TargetError {
    /// An interface that types are used from has no identifier.
    UsedWithoutIdentifier,
    /// There was no memory.
    Memory,
}

impl fmt::Display for TargetError {
    fn fmt<W: fmt::Write>(&self, f: &mut fmt::Formatter<W>) -> fmt::Result {
        f.write_str(match self {
            TargetError::UsedWithoutIdentifier => "a used interface has no identifier",
            TargetError::Memory => "out of memory",
        })
    }
}

impl Error for TargetError {}

/// Adds the interfaces that types are used from, each under its identifier.
fn add_used<'a>(
    types: &'a Types,
    found: &mut IndexMap<&'a str, ItemKind>,
    uses: &[UsedType],
) -> Result<(), TargetError>
    requires { (u : UsedType) → Among u uses.now → Stands types.now (ItemKind.Instance u.interface) }
    ensures ok { OnOk result
        (by_identifier types.now (shown found.old.entries) (used_interfaces uses.now) ≡ Some (shown found.new.entries)) }
    ensures err { IfErr result (λ e. e ≡ TargetError.UsedWithoutIdentifier
        → by_identifier types.now (shown found.old.entries) (used_interfaces uses.now) ≡ None) }
{
    for used in uses {
        match &types.interface(used.interface).id {
            None => return Err(TargetError::UsedWithoutIdentifier),
            Some(id) => match found.insert(id.as_str(), ItemKind::Instance(used.interface)) {
                Ok(_) => {}
                Err(AllocFailed { .. }) => return Err(TargetError::Memory),
            },
        }
    }
    Ok(())
}

/// Adds the interfaces that the types of instances are used from.
fn add_used_by<'a>(
    types: &'a Types,
    found: &mut IndexMap<&'a str, ItemKind>,
    imports: &[ItemKind],
) -> Result<(), TargetError>
    requires { (k : ItemKind) → Among k imports.now → Stands types.now k }
    ensures ok { OnOk result
        (by_identifier types.now (shown found.old.entries) (all_uses types.now imports.now) ≡ Some (shown found.new.entries)) }
    ensures err { IfErr result (λ e. e ≡ TargetError.UsedWithoutIdentifier
        → by_identifier types.now (shown found.old.entries) (all_uses types.now imports.now) ≡ None) }
{
    for kind in imports {
        if let ItemKind::Instance(id) = *kind {
            add_used(types, found, types.interface(id).uses.values())?;
        }
    }
    Ok(())
}

impl World {
    /// The interfaces that the world's types are used from, in order: those of its own uses, then those of the uses of
    /// its imported instances. Each stands once under its identifier, as an instance. All ids of the world stand in the
    /// collection.
    pub fn implicit_imported_interfaces<'a>(
        &'a self,
        alloc: Global,
        types: &'a Types,
    ) -> Result<IndexMap<&'a str, ItemKind>, TargetError>
        requires { HasChildren types.now (world_entry self.now) }
        ensures ok { IfOk result
            (λ m. by_identifier types.now [] (implicit_interfaces types.now self.now) ≡ Some (shown m.entries)) }
        ensures err { IfErr result (λ e. e ≡ TargetError.UsedWithoutIdentifier
            → by_identifier types.now [] (implicit_interfaces types.now self.now) ≡ None) }
    {
        let mut found = IndexMap::new(alloc);
        add_used(types, &mut found, self.uses.values())?;
        add_used_by(types, &mut found, self.imports.values())?;
        Ok(found)
    }
}

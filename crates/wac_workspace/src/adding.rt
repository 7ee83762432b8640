//! Adding packages to a workspace.

use crate::entries::{Parts, holds_bytes, holds_handed, holds_key, make_entry, output_entry};
use crate::error::{AddPackageError, ComposeError};
use crate::output::Output;
use crate::workspace::Workspace;
use semver::Version;
use wac_types_base::{Types, WorldId};

impl Workspace {
    ghost use Rattle.std.specs.Prelude.{◌≡◌, ◌+◌, ◌≤◌, OnOk, OnErr, IfErr, IsErrOf, IsTrue, ◌↔◌, true, false};
    ghost use Rattle.std.specs.Option.{option_copied, option_map};
    ghost use Rattle.semver.specs.Identifiers.{parts_of};
    ghost use Rattle.wac_types_base.specs.declared.item.ItemKind.{ItemKind};
    ghost use Rattle.wac_types_base.specs.Collection.{Stands};
    ghost use Rattle.wac_workspace.specs.Packages.{HasKey, HasBytes, HasHanded, AddsPackage};
    ghost use Rattle.wac_workspace.specs.Composing.{greatest, output_key, Registers};
    ghost use Rattle.wac_workspace.specs.Steps.{IsUnregistered};

    /// Whether a package has this key.
    fn has_key(&self, name: &str, version: Option<&Version>) -> bool
        ensures { IsTrue result ↔ HasKey self.now.packages (name.now, option_map parts_of (option_copied version.entry)) }
    {
        holds_key(&self.entries, name, version)
    }

    /// Whether a package has the key of an output.
    fn has_key_of(&self, output: &Output) -> bool
        ensures { IsTrue result ↔ HasKey self.now.packages (output_key output.now) }
    {
        self.has_key(output.name.as_str(), output.version.as_ref())
    }

    /// Whether a package has these bytes.
    fn has_bytes(&self, bytes: &[u8]) -> bool
        ensures { IsTrue result ↔ HasBytes self.now.packages bytes.now }
    {
        holds_bytes(&self.entries, bytes)
    }

    /// Whether a handed component has these bytes.
    fn was_handed(&self, bytes: &[u8]) -> bool
        ensures { IsTrue result ↔ HasHanded self.now.packages bytes.now }
    {
        holds_handed(&self.entries, bytes)
    }

    /// Adds a handed component with the world that it is stated to have: the world is copied under the next number, which
    /// is not that of `types`. A refusal drops `bytes`.
    pub fn add_package(
        &mut self,
        name: &str,
        version: Option<&Version>,
        bytes: Vec<u8>,
        types: &Types,
        world: WorldId,
    ) -> Result<(), AddPackageError>
        requires { Stands types.now (ItemKind.Component world) }
        ensures added { OnOk result (AddsPackage self.old.packages self.new.packages true (record {
          key = (name.now, option_map parts_of (option_copied version.entry));
          bytes = bytes.items;
          types = types.now;
          world = world;
          number = self.old.next;
        })) }
        ensures numbered { OnOk result (self.new.next ≡ self.old.next + 1) }
        ensures refused { OnErr result (self.new ≡ self.old) }
        ensures key_taken { IsErrOf result AddPackageError.KeyTaken
            ↔ HasKey self.old.packages (name.now, option_map parts_of (option_copied version.entry)) }
        ensures bytes_taken { IsErrOf result AddPackageError.BytesTaken → HasBytes self.old.packages bytes.items }
        ensures bytes_new { OnOk result (HasBytes self.old.packages bytes.items → ⊥) }
        ensures exhausted { IsErrOf result AddPackageError.NumbersExhausted
            → (self.old.next ≡ greatest) × (HasBytes self.old.packages bytes.items → ⊥) }
        ensures room { OnOk result (self.old.next + 1 ≤ greatest) }
    {
        if self.has_key(name, version) {
            return Err(AddPackageError::KeyTaken);
        }
        if self.has_bytes(&bytes) {
            return Err(AddPackageError::BytesTaken);
        }
        let Some(after) = self.next.checked_add(1) else {
            return Err(AddPackageError::NumbersExhausted);
        };
        let parts = Parts {
            types,
            world,
            number: self.next,
            name,
            version,
            bytes,
        };
        let entry = make_entry(parts, self.alloc, true)?;
        self.entries.push(entry)?;
        self.next = after;
        Ok(())
    }

    /// Registers an output under its key.
    pub(crate) fn register(&mut self, output: &Output) -> Result<(), ComposeError>
        requires { Stands output.now.types (ItemKind.Component output.now.world) }
        ensures registered { OnOk result (Registers self.old self.new output.now) }
        ensures fault { IfErr result (IsUnregistered self.old output.now) }
        ensures refused { OnErr result (self.new ≡ self.old) }
    {
        if self.has_key_of(output) {
            return Err(ComposeError::KeyTaken);
        }
        if self.was_handed(&output.bytes) {
            return Err(ComposeError::BytesTaken);
        }
        let entry = output_entry(self.alloc, output)?;
        self.entries.push(entry)?;
        Ok(())
    }
}

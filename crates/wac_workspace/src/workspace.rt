//! A workspace: packages under numbers of their own.

use crate::entries::{Entry, PackageRefs, find};
use semver::Version;
use std::alloc::Global;
use std::marker::Model;
use wac_parser_resolve::PackageRef;

/// Handed components and composed outputs, and the number that the next collection of types will have. Each has its world
/// in a collection of its own.
pub struct Workspace {
    pub(crate) alloc: Global,
    pub(crate) next: u64,
    pub(crate) entries: Vec<Entry>,
}

impl Drop for Workspace {
    fn drop(self) {
        let Workspace {
            alloc: _,
            next: _,
            entries: _,
        } = self;
    }
}

impl Model for Workspace {
    ghost use Rattle.wac_workspace.specs.Packages.{Held};

    ghost Value = { Held };

    ghost use Rattle.wac_workspace.specs.View.{held, IsSound};

    ghost view = { held };

    ghost invariant = { IsSound };
}

impl Workspace {
    ghost use Rattle.std.specs.Prelude.{◌≡◌, []};
    ghost use Rattle.std.specs.Option.{option_copied, option_map};
    ghost use Rattle.semver.specs.Identifiers.{parts_of};
    ghost use Rattle.wac_workspace.specs.Packages.{AreApart};
    ghost use Rattle.wac_workspace.specs.Getting.{Gets};

    /// No packages; the first number is 0.
    pub fn new(alloc: Global) -> Self
        ensures { result ≡ record { next = 0; packages = [] } }
    {
        Workspace::with_first_number(alloc, 0)
    }

    /// No packages; the first number is this one.
    pub fn with_first_number(alloc: Global, first: u64) -> Self
        ensures { result ≡ record { next = first; packages = [] } }
    {
        Workspace {
            alloc,
            next: first,
            entries: Vec::new(alloc),
        }
    }

    /// The number that the next collection will have. The greatest `u64` is never given out.
    pub fn next_number(&self) -> u64
        ensures { result ≡ self.now.next }
    {
        self.next
    }

    /// The packages in the order in which they came: handed components and registered outputs.
    pub fn packages(&self) -> PackageRefs<'_>
        ensures { result ≡ self.now.packages }
    {
        PackageRefs::of(self.entries.as_slice())
    }

    /// The package of this name and this version.
    pub fn get(&self, name: &str, version: Option<&Version>) -> Option<PackageRef<'_>>
        ensures { Gets self.now.packages (name.now, option_map parts_of (option_copied version.entry)) result }
    {
        match find(&self.entries, name, version) {
            Some(entry) => Some(entry.refer()),
            None => None,
        }
    }

    /// No two packages have one key, and where two have the same bytes both are outputs. It does nothing: its contract
    /// tells so.
    pub fn see_apart(&self)
        ensures { AreApart self.now.packages }
    {
        let _ = &self.next;
    }

    /// Where the workspace takes its memory.
    pub(crate) fn allocator(&self) -> Global {
        self.alloc
    }
}

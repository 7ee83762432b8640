//! Types of interfaces that stand in a scope.

ghost use Rattle.std.specs.Prelude.{◌≡◌, ◌&&◌, ◌++◌, [], OnOk, string_bytes};
ghost use Rattle.std.specs.Cmp.{first_so, second_so};
ghost use Rattle.std.specs.Cmp.Lexicographic.{bytes_decides, nat_list_eq_equiv};
ghost use Rattle.std.specs.Hash as fed;
ghost use Rattle.std.specs.Str.{bytes_eq};
ghost use Rattle.wac_graph_scopes.specs.Used.{used_at, put_used};

use indexmap::{Equivalent, IndexMap};
use std::alloc::{AllocError, Global};
use std::marker::Model;
use wac_types_base::ItemKind;

/// A type of an interface, and its index.
#[derive(Clone, Copy)]
pub struct UsedIndex {
    pub item: ItemKind,
    pub index: u64,
}

/// The name of a type of an interface: that of the interface, and its own there.
#[derive(Clone, Copy, PartialEq, Eq, Hash)]
pub struct TypeName<'a> {
    pub identifier: &'a str,
    pub name: &'a str,
}

impl<'a> Equivalent<(String, String)> for TypeName<'a> {
    ghost equivalent = { λ q k. bytes_eq q.identifier.now (string_bytes k.0) && bytes_eq q.name.now (string_bytes k.1) };

    ghost respects_hash = { λ q k h i. fed.str ((bytes_decides q.identifier.now (string_bytes k.0)).0 (first_so _ _ h) i)
        ++ fed.str ((bytes_decides q.name.now (string_bytes k.1)).0 (second_so _ _ h) i) };

    ghost respects_eq = { λ q x y h i. nat_list_eq_equiv.congr q.identifier.now (string_bytes x.0) (string_bytes y.0) (first_so _ _ h) i
        && nat_list_eq_equiv.congr q.name.now (string_bytes x.1) (string_bytes y.1) (second_so _ _ h) i };

    fn equivalent(&self, key: &(String, String)) -> bool {
        self.identifier == key.0.as_str() && self.name == key.1.as_str()
    }
}

/// Types of interfaces that stand in a scope, by the interfaces' identifiers and by their names there: seen as the list
/// of them.
#[derive(Drop)]
pub struct UsedTypes {
    alloc: Global,
    found: IndexMap<(String, String), UsedIndex>,
}

impl Model for UsedTypes {
    ghost use Rattle.std.specs.Prelude.{List};
    ghost use Rattle.wac_types_base.specs.Entries.{Name, imports_in};
    ghost use Rattle.wac_graph_scopes.specs.declared.used.UsedIndex.{UsedIndex};

    ghost Value = { List ((Name × Name) × UsedIndex) };

    ghost view = { λ m. imports_in m.found.entries };
}

impl UsedTypes {
    /// None stands there.
    pub fn new(alloc: Global) -> Self
        ensures { result ≡ [] }
    {
        UsedTypes {
            alloc,
            found: IndexMap::new(alloc),
        }
    }

    /// The type of that name.
    pub fn get(&self, name: TypeName<'_>) -> Option<UsedIndex>
        ensures { result ≡ used_at self.now name.entry.identifier.now name.entry.name.now }
    {
        match self.found.get(name) {
            Some(used) => Some(*used),
            None => None,
        }
    }

    /// Adds a type, in place of an earlier one of that name.
    pub fn insert(&mut self, name: TypeName<'_>, used: UsedIndex) -> Result<(), AllocError>
        ensures { OnOk result (self.new ≡ put_used self.old name.entry.identifier.now name.entry.name.now used) }
    {
        let identifier = String::from_str(self.alloc, name.identifier)?;
        let own = String::from_str(self.alloc, name.name)?;
        let _ = self.found.insert((identifier, own), used)?;
        Ok(())
    }
}

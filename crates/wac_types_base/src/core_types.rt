//! Types of core modules.

ghost use Rattle.std.specs.Prelude.{◌≡◌, ◌∷◌, ◌++◌, [], length, IsTrue, ◌↔◌, OnOk, OnErr, string_bytes};
ghost use Rattle.wac_types_base.specs.Entries.{imports_in, pairs_of, names_of, values_of, AreDistinct, IsNew};

use crate::containers::{Items, NamedMap};
use indexmap::IndexMap;
use std::alloc::{AllocError, Global};
use std::fmt;
use std::marker::Model;

/// A heap type.
#[derive(Clone, Copy, Debug, PartialEq, Eq, Hash)]
pub enum HeapType {
    Concrete(u32),
    Func,
    Extern,
    Any,
    None,
    NoExtern,
    NoFunc,
    Eq,
    Struct,
    Array,
    I31,
    Exn,
    NoExn,
    Cont,
    NoCont,
}

/// A reference type.
#[derive(Clone, Copy, Debug, PartialEq, Eq, Hash)]
pub struct CoreRefType {
    pub nullable: bool,
    pub heap_type: HeapType,
}

/// The type of a core value.
#[derive(Clone, Copy, Debug, PartialEq, Eq, Hash)]
pub enum CoreType {
    I32,
    I64,
    F32,
    F64,
    V128,
    Ref(CoreRefType),
}

/// A core function type.
#[derive(PartialEq, Eq, Hash, Drop)]
pub struct CoreFuncType {
    pub params: Items<CoreType>,
    pub results: Items<CoreType>,
}

/// An item that a core module imports or exports.
#[derive(PartialEq, Eq, Hash, Drop)]
pub enum CoreExtern {
    Func(CoreFuncType),
    Table {
        element_type: CoreRefType,
        initial: u64,
        maximum: Option<u64>,
        table64: bool,
        shared: bool,
    },
    Memory {
        memory64: bool,
        shared: bool,
        initial: u64,
        maximum: Option<u64>,
        page_size_log2: Option<u32>,
    },
    Global {
        val_type: CoreType,
        mutable: bool,
        shared: bool,
    },
    Tag(CoreFuncType),
}

/// What a module type imports: a map from two names, in order of insertion, seen as the list of its entries.
#[derive(Drop)]
pub struct CoreImports {
    map: IndexMap<(String, String), CoreExtern>,
}

impl Model for CoreImports {
    ghost use Rattle.std.specs.Prelude.{List, ℕ};
    ghost use Rattle.wac_types_base.specs.declared.core_types.CoreExtern.{CoreExtern};

    ghost Value = { List ((List ℕ × List ℕ) × CoreExtern) };

    ghost use Rattle.wac_types_base.specs.Entries.{imports_in};

    ghost view = { λ m. imports_in m.map.entries };
}

impl CoreImports {
    /// No imports.
    pub fn new(alloc: Global) -> Self
        ensures { result ≡ [] }
    {
        CoreImports {
            map: IndexMap::new(alloc),
        }
    }

    /// The imports of this map.
    pub fn from_map(map: IndexMap<(String, String), CoreExtern>) -> Self
        ensures { result ≡ imports_in map.entries }
    {
        CoreImports { map }
    }

    /// The map.
    pub fn into_map(self) -> IndexMap<(String, String), CoreExtern>
        ensures { imports_in result.entries ≡ self }
    {
        self.map
    }

    /// How many imports.
    pub fn len(&self) -> usize
        ensures len { result ≡ length self.now }
        ensures distinct { AreDistinct (names_of self.now) }
    {
        self.map.len()
    }

    /// Whether there are no imports.
    pub fn is_empty(&self) -> bool
        ensures { IsTrue result ↔ (length self.now ≡ 0) }
    {
        self.map.len() == 0
    }

    /// The pairs of names, in order.
    pub fn names(&self) -> &[(String, String)]
        ensures { pairs_of result.now ≡ names_of self.now }
    {
        self.map.keys().as_slice()
    }

    /// What they import, in order.
    pub fn values(&self) -> &[CoreExtern]
        ensures { result.now ≡ values_of self.now }
    {
        self.map.values().as_slice()
    }

    /// Adds an import at the end. Its names are new.
    pub fn push(
        &mut self,
        module_name: String,
        name: String,
        item: CoreExtern,
    ) -> Result<(), AllocError>
        requires { IsNew (string_bytes module_name, string_bytes name) self.old }
        ensures ok { OnOk result (self.new ≡ self.old ++ ((string_bytes module_name, string_bytes name), item) ∷ []) }
        ensures err { OnErr result (self.new ≡ self.old) }
    {
        let _ = self.map.insert((module_name, name), item)?;
        Ok(())
    }
}

/// A module type.
#[derive(PartialEq, Eq, Hash, Drop)]
pub struct ModuleType {
    pub imports: CoreImports,
    pub exports: NamedMap<CoreExtern>,
}

impl fmt::Display for HeapType {
    fn fmt<W: fmt::Write>(&self, f: &mut fmt::Formatter<W>) -> fmt::Result {
        f.write_str(match self {
            HeapType::Concrete(_) => "concrete",
            HeapType::Func => "func",
            HeapType::Extern => "extern",
            HeapType::Any => "any",
            HeapType::None => "none",
            HeapType::NoExtern => "noextern",
            HeapType::NoFunc => "nofunc",
            HeapType::Eq => "eq",
            HeapType::Struct => "struct",
            HeapType::Array => "array",
            HeapType::I31 => "i31",
            HeapType::Exn => "exn",
            HeapType::NoExn => "noexn",
            HeapType::Cont => "cont",
            HeapType::NoCont => "nocont",
        })
    }
}

impl fmt::Display for CoreRefType {
    fn fmt<W: fmt::Write>(&self, f: &mut fmt::Formatter<W>) -> fmt::Result {
        f.write_str(if self.nullable { "(ref null " } else { "(ref " })?;
        fmt::Display::fmt(&self.heap_type, f)?;
        f.write_str(")")
    }
}

impl fmt::Display for CoreType {
    fn fmt<W: fmt::Write>(&self, f: &mut fmt::Formatter<W>) -> fmt::Result {
        match self {
            CoreType::I32 => f.write_str("i32"),
            CoreType::I64 => f.write_str("i64"),
            CoreType::F32 => f.write_str("f32"),
            CoreType::F64 => f.write_str("f64"),
            CoreType::V128 => f.write_str("v128"),
            CoreType::Ref(ty) => fmt::Display::fmt(ty, f),
        }
    }
}

fn fmt_types<W: fmt::Write>(types: &[CoreType], f: &mut fmt::Formatter<W>) -> fmt::Result {
    f.write_str("[")?;
    for (at, ty) in types.iter().enumerate() {
        if at > 0 {
            f.write_str(", ")?;
        }
        fmt::Display::fmt(ty, f)?;
    }
    f.write_str("]")
}

impl fmt::Display for CoreFuncType {
    fn fmt<W: fmt::Write>(&self, f: &mut fmt::Formatter<W>) -> fmt::Result {
        fmt_types(self.params.as_slice(), f)?;
        f.write_str(" -> ")?;
        fmt_types(self.results.as_slice(), f)
    }
}

impl fmt::Display for CoreExtern {
    fn fmt<W: fmt::Write>(&self, f: &mut fmt::Formatter<W>) -> fmt::Result {
        f.write_str(match self {
            CoreExtern::Func(_) => "function",
            CoreExtern::Table { .. } => "table",
            CoreExtern::Memory { .. } => "memory",
            CoreExtern::Global { .. } => "global",
            CoreExtern::Tag(_) => "tag",
        })
    }
}

//! Core module types.
ghost use Rattle.std.specs.Prelude.{◌≡◌, ◌≢◌, IfSome, None};
ghost use Rattle.wac_graph_bytes.specs.declared.module.CoreReference.{CoreReference};
ghost use Rattle.wac_graph_bytes.specs.declared.module.CoreValue.{CoreValue};
ghost use Rattle.wac_graph_bytes.specs.Typing.{core_reference_type, core_type};

use wac_types_base::{CoreRefType, CoreType, HeapType};

/// What a core reference points to.
#[derive(Clone, Copy, Debug, PartialEq, Eq, Hash)]
pub enum CoreReference {
    Func,
    Extern,
}

/// The type of a core value.
#[derive(Clone, Copy, Debug, PartialEq, Eq, Hash)]
pub enum CoreValue {
    I32,
    I64,
    F32,
    F64,
    V128,
    Reference(CoreReference),
}

/// The bounds of a table or a memory, in elements or in pages.
#[derive(Clone, Copy, Debug, PartialEq, Eq, Hash)]
pub struct Limits {
    pub minimum: u64,
    pub maximum: Option<u64>,
    /// Whether its addresses have 64 bits.
    pub wide: bool,
}

/// A core import or export. A function and a tag name the index of a signature.
#[derive(Clone, Copy, Debug, PartialEq, Eq, Hash)]
pub enum CoreDescription {
    Func(u64),
    Table(CoreReference, Limits),
    Memory(Limits, bool),
    Global(CoreValue, bool),
    Tag(u64),
}

/// A declaration of a core module type.
#[derive(Debug, Drop)]
pub enum CoreDeclaration {
    /// A module's name, a name in it, and what stands there.
    Import(String, String, CoreDescription),
    /// The parameters and results of a function.
    Signature(Vec<CoreValue>, Vec<CoreValue>),
    Export(String, CoreDescription),
}

/// How that reference type is written, if it can be.
pub fn core_reference(ty: CoreRefType) -> Option<CoreReference>
    ensures written { IfSome result (λ r. core_reference_type r ≡ ty) }
    ensures none { result ≡ None → (r : CoreReference) → core_reference_type r ≢ ty }
{
    match (ty.nullable, ty.heap_type) {
        (true, HeapType::Func) => Some(CoreReference::Func),
        (true, HeapType::Extern) => Some(CoreReference::Extern),
        _ => None,
    }
}

/// How that core type is written, if it can be.
pub fn core_value(ty: CoreType) -> Option<CoreValue>
    ensures written { IfSome result (λ v. core_type v ≡ ty) }
    ensures none { result ≡ None → (v : CoreValue) → core_type v ≢ ty }
{
    match ty {
        CoreType::I32 => Some(CoreValue::I32),
        CoreType::I64 => Some(CoreValue::I64),
        CoreType::F32 => Some(CoreValue::F32),
        CoreType::F64 => Some(CoreValue::F64),
        CoreType::V128 => Some(CoreValue::V128),
        CoreType::Ref(r) => core_reference(r).map(CoreValue::Reference),
    }
}

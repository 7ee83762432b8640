//! Whether two core items are the same.

ghost use Rattle.std.specs.Prelude.{◌≡◌, IsTrue, ◌↔◌};
ghost use Rattle.wac_types_fit.specs.Checking.{IsTable, IsMemory, IsGlobal};

use wac_types_base::{CoreExtern, CoreFuncType, CoreRefType, CoreType, HeapType};

fn same_heap_types(a: HeapType, b: HeapType) -> bool
    ensures { IsTrue result ↔ (a ≡ b) }
{
    match a {
        HeapType::Concrete(m) => match b {
            HeapType::Concrete(n) => m == n,
            _ => false,
        },
        HeapType::Func => matches!(b, HeapType::Func),
        HeapType::Extern => matches!(b, HeapType::Extern),
        HeapType::Any => matches!(b, HeapType::Any),
        HeapType::None => matches!(b, HeapType::None),
        HeapType::NoExtern => matches!(b, HeapType::NoExtern),
        HeapType::NoFunc => matches!(b, HeapType::NoFunc),
        HeapType::Eq => matches!(b, HeapType::Eq),
        HeapType::Struct => matches!(b, HeapType::Struct),
        HeapType::Array => matches!(b, HeapType::Array),
        HeapType::I31 => matches!(b, HeapType::I31),
        HeapType::Exn => matches!(b, HeapType::Exn),
        HeapType::NoExn => matches!(b, HeapType::NoExn),
        HeapType::Cont => matches!(b, HeapType::Cont),
        HeapType::NoCont => matches!(b, HeapType::NoCont),
    }
}

fn same_refs(a: CoreRefType, b: CoreRefType) -> bool
    ensures { IsTrue result ↔ (a ≡ b) }
{
    a.nullable == b.nullable && same_heap_types(a.heap_type, b.heap_type)
}

fn same_core_types(a: CoreType, b: CoreType) -> bool
    ensures { IsTrue result ↔ (a ≡ b) }
{
    match a {
        CoreType::I32 => matches!(b, CoreType::I32),
        CoreType::I64 => matches!(b, CoreType::I64),
        CoreType::F32 => matches!(b, CoreType::F32),
        CoreType::F64 => matches!(b, CoreType::F64),
        CoreType::V128 => matches!(b, CoreType::V128),
        CoreType::Ref(x) => match b {
            CoreType::Ref(y) => same_refs(x, y),
            _ => false,
        },
    }
}

fn same_lists(a: &[CoreType], b: &[CoreType]) -> bool
    ensures { IsTrue result ↔ (a.now ≡ b.now) }
{
    if a.len() != b.len() {
        return false;
    }
    for at in 0..a.len() {
        if !same_core_types(a[at], b[at]) {
            return false;
        }
    }
    true
}

fn same_signatures(a: &CoreFuncType, b: &CoreFuncType) -> bool
    ensures { IsTrue result ↔ (a.now ≡ b.now) }
{
    same_lists(a.params.as_slice(), b.params.as_slice())
        && same_lists(a.results.as_slice(), b.results.as_slice())
}

fn same_limits(a: Option<u64>, b: Option<u64>) -> bool
    ensures { IsTrue result ↔ (a ≡ b) }
{
    match a {
        None => b.is_none(),
        Some(m) => match b {
            None => false,
            Some(n) => m == n,
        },
    }
}

fn same_page_sizes(a: Option<u32>, b: Option<u32>) -> bool
    ensures { IsTrue result ↔ (a ≡ b) }
{
    match a {
        None => b.is_none(),
        Some(m) => match b {
            None => false,
            Some(n) => m == n,
        },
    }
}

fn same_tables(a: &CoreExtern, b: &CoreExtern) -> bool
    requires { IsTable a.now }
    ensures { IsTrue result ↔ (a.now ≡ b.now) }
{
    match a {
        CoreExtern::Table {
            element_type,
            initial,
            maximum,
            table64,
            shared,
        } => match b {
            CoreExtern::Table {
                element_type: other_type,
                initial: other_initial,
                maximum: other_maximum,
                table64: other_table64,
                shared: other_shared,
            } => {
                same_refs(*element_type, *other_type)
                    && *initial == *other_initial
                    && same_limits(*maximum, *other_maximum)
                    && *table64 == *other_table64
                    && *shared == *other_shared
            }
            _ => false,
        },
        _ => false,
    }
}

fn same_memories(a: &CoreExtern, b: &CoreExtern) -> bool
    requires { IsMemory a.now }
    ensures { IsTrue result ↔ (a.now ≡ b.now) }
{
    match a {
        CoreExtern::Memory {
            memory64,
            shared,
            initial,
            maximum,
            page_size_log2,
        } => match b {
            CoreExtern::Memory {
                memory64: other_memory64,
                shared: other_shared,
                initial: other_initial,
                maximum: other_maximum,
                page_size_log2: other_page_size,
            } => {
                *memory64 == *other_memory64
                    && *shared == *other_shared
                    && *initial == *other_initial
                    && same_limits(*maximum, *other_maximum)
                    && same_page_sizes(*page_size_log2, *other_page_size)
            }
            _ => false,
        },
        _ => false,
    }
}

fn same_globals(a: &CoreExtern, b: &CoreExtern) -> bool
    requires { IsGlobal a.now }
    ensures { IsTrue result ↔ (a.now ≡ b.now) }
{
    match a {
        CoreExtern::Global {
            val_type,
            mutable,
            shared,
        } => match b {
            CoreExtern::Global {
                val_type: other_type,
                mutable: other_mutable,
                shared: other_shared,
            } => {
                same_core_types(*val_type, *other_type)
                    && *mutable == *other_mutable
                    && *shared == *other_shared
            }
            _ => false,
        },
        _ => false,
    }
}

/// Whether two core items are the same.
pub fn same_items(a: &CoreExtern, b: &CoreExtern) -> bool
    ensures { IsTrue result ↔ (a.now ≡ b.now) }
{
    match a {
        CoreExtern::Func(x) => match b {
            CoreExtern::Func(y) => same_signatures(x, y),
            _ => false,
        },
        CoreExtern::Tag(x) => match b {
            CoreExtern::Tag(y) => same_signatures(x, y),
            _ => false,
        },
        CoreExtern::Table { .. } => same_tables(a, b),
        CoreExtern::Memory { .. } => same_memories(a, b),
        CoreExtern::Global { .. } => same_globals(a, b),
    }
}

//! Types of core modules.

use crate::lines::entries::{Meant, map_behind, put};
use wac_rows::Words;
use wac_types_base::{
    CoreExtern, CoreFuncType, CoreImports, CoreRefType, CoreType, HeapType, ItemKind, Items,
    ModuleType, NamedMap,
};

/// What a module asks for under two names.
fn import_of(words: &mut Words<'_>, (module, name): (&str, &str), it: CoreExtern) -> CoreImports {
    let mut imports = CoreImports::new(words.alloc());
    let module = words.own(module);
    let name = words.own(name);
    if imports.push(module, name, it).is_err() {
        words.refuse("out of memory");
    }
    imports
}

/// One type.
fn one(words: &mut Words<'_>, ty: CoreType) -> Items<CoreType> {
    let mut items = Vec::new(words.alloc());
    words.keep(&mut items, ty);
    Items::from_vec(items)
}

/// A function of an `i32` that answers an `i64`.
fn function(words: &mut Words<'_>) -> CoreExtern {
    let params = one(words, CoreType::I32);
    let results = one(words, CoreType::I64);
    CoreExtern::Func(CoreFuncType { params, results })
}

/// A memory of so many pages at least.
fn memory(initial: u64, maximum: Option<u64>) -> CoreExtern {
    CoreExtern::Memory {
        memory64: false,
        shared: false,
        initial,
        maximum,
        page_size_log2: None,
    }
}

/// A table of references to that heap type.
fn table(heap_type: HeapType) -> CoreExtern {
    CoreExtern::Table {
        element_type: CoreRefType {
            nullable: true,
            heap_type,
        },
        initial: 3,
        maximum: None,
        table64: false,
        shared: false,
    }
}

/// A module type that asks for the function `m` `f`, and gives the memory `g` and the table `t` of references to functions, or
/// to any value.
pub(crate) fn take_module(words: &mut Words<'_>) -> ModuleType {
    let heap_type = match words.take() {
        "func" => HeapType::Func,
        _ => HeapType::Any,
    };
    let asked = function(words);
    let imports = import_of(words, ("m", "f"), asked);
    let mut exports = NamedMap::new(words.alloc());
    put(words, &mut exports, "g", memory(1, Some(2)));
    put(words, &mut exports, "t", table(heap_type));
    ModuleType { imports, exports }
}

impl Meant for CoreExtern {
    fn meant(_items: &NamedMap<ItemKind>, words: &mut Words<'_>, word: &str) -> Self {
        memory(words.number_of(word), None)
    }
}

/// The memory that a module asks for as `M::N`, if it asks for one.
fn memory_imports(words: &mut Words<'_>) -> CoreImports {
    let Some((_, rest)) = words.rest().split_once("imports ") else {
        return CoreImports::new(words.alloc());
    };
    let (word, _) = rest.split_once(' ').unwrap_or((rest, ""));
    let (name, pages) = word.split_once('=').unwrap_or((word, ""));
    let names = name.split_once("::").unwrap_or((name, ""));
    let it = memory(words.number_of(pages), None);
    import_of(words, names, it)
}

/// The type of a module of memories.
pub(crate) fn take_memories(items: &NamedMap<ItemKind>, words: &mut Words<'_>) -> ModuleType {
    ModuleType {
        imports: memory_imports(words),
        exports: map_behind(items, words, "exports"),
    }
}

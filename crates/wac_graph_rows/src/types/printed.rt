//! What prints as a text: `interface_id N`, `func_kinds`, `extern_kinds`, `faults`, `core_func WORD ..` of parameters `i32` and
//! `funcref`, and `tag WORD ..`.

use wac_rows::{Told, Words};
use wac_types::{
    CoreExtern, CoreFuncType, CoreRefType, CoreType, CycleError, ExternKind, FuncKind, HeapType,
    InterfaceId, Items, TargetError,
};

/// Tells the id of an interface of that index.
fn tell_id(told: &mut Told, index: usize) {
    told.show(&InterfaceId {
        collection: 4,
        index,
    });
}

fn tell_func_kinds(told: &mut Told) {
    told.show(&FuncKind::Free);
    told.push(", ");
    told.show(&FuncKind::Method);
    told.push(", ");
    told.show(&FuncKind::Static);
    told.push(", ");
    told.show(&FuncKind::Constructor);
}

fn tell_extern_kinds(told: &mut Told) {
    told.show(&ExternKind::Import);
    told.push(", ");
    told.show(&ExternKind::Export);
}

fn tell_faults(told: &mut Told) {
    told.show(&TargetError::UsedWithoutIdentifier);
    told.push(", ");
    told.show(&CycleError::Cycle);
}

/// The core type of a word.
fn core_type_of(word: &str) -> CoreType {
    match word {
        "funcref" => CoreType::Ref(CoreRefType {
            nullable: true,
            heap_type: HeapType::Func,
        }),
        _ => CoreType::I32,
    }
}

/// A function type of the parameters that are left.
fn take_core_func(words: &mut Words<'_>) -> CoreFuncType {
    let mut params = Vec::new(words.alloc());
    for word in words.rest().split_whitespace() {
        words.keep(&mut params, core_type_of(word));
    }
    CoreFuncType {
        params: Items::from_vec(params),
        results: Items::new(words.alloc()),
    }
}

/// Tells what a line says, printed.
fn tell_line(told: &mut Told, words: &mut Words<'_>) {
    match words.take() {
        "interface_id" => tell_id(told, words.take().parse::<usize>().unwrap_or(0)),
        "func_kinds" => tell_func_kinds(told),
        "extern_kinds" => tell_extern_kinds(told),
        "faults" => tell_faults(told),
        "core_func" => told.show(&take_core_func(words)),
        "tag" => told.show(&CoreExtern::Tag(take_core_func(words))),
        _ => told.push("no such line of prints"),
    }
}

/// Tells what the lines of a text say, each printed on a line.
pub(crate) fn tell_prints(told: &mut Told, text: &str) {
    for line in text.split('\n') {
        told.push(line);
        told.push(": ");
        let mut words = Words::new(told.alloc(), line);
        tell_line(told, &mut words);
        told.push(words.fault());
        told.push("\n");
    }
}

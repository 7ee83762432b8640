//! Core module types: lines `signature V .. -> V ..`, `import MODULE NAME CORE` and `export NAME CORE`, where CORE is `func N`,
//! `table REFERENCE LIMITS`, `memory LIMITS SHARED`, `global V MUTABLE` or `tag N`, LIMITS are `MINIMUM MAXIMUM wide` (no
//! maximum is `_`, and `narrow` stands for addresses of 32 bits), and SHARED and MUTABLE are `yes` or `no`.

use wac_graph_bytes::{CoreDeclaration, CoreDescription, CoreReference, CoreValue, Limits};
use wac_rows::Words;

fn reference_of(words: &mut Words<'_>, word: &str) -> CoreReference {
    match word {
        "funcref" => CoreReference::Func,
        "externref" => CoreReference::Extern,
        _ => {
            words.refuse("no such reference");
            CoreReference::Func
        }
    }
}

/// The core value type of a word.
pub(crate) fn core_value_of(words: &mut Words<'_>, word: &str) -> CoreValue {
    match word {
        "i32" => CoreValue::I32,
        "i64" => CoreValue::I64,
        "f32" => CoreValue::F32,
        "f64" => CoreValue::F64,
        "v128" => CoreValue::V128,
        _ => CoreValue::Reference(reference_of(words, word)),
    }
}

/// The most that a word says, if it says a number.
fn take_maximum(words: &mut Words<'_>) -> Option<u64> {
    match words.take() {
        "_" => None,
        word => Some(words.number_of(word)),
    }
}

/// The limits of three words.
fn take_limits(words: &mut Words<'_>) -> Limits {
    let minimum = words.take_number();
    let maximum = take_maximum(words);
    Limits {
        minimum,
        maximum,
        wide: words.take() == "wide",
    }
}

/// A table behind its word.
fn take_table(words: &mut Words<'_>) -> CoreDescription {
    let word = words.take();
    let reference = reference_of(words, word);
    CoreDescription::Table(reference, take_limits(words))
}

/// A global behind its word.
fn take_global(words: &mut Words<'_>) -> CoreDescription {
    let word = words.take();
    let value = core_value_of(words, word);
    CoreDescription::Global(value, words.take() == "yes")
}

/// The core item of a line.
pub(crate) fn take_core(words: &mut Words<'_>) -> CoreDescription {
    match words.take() {
        "func" => CoreDescription::Func(words.take_number()),
        "table" => take_table(words),
        "memory" => {
            let limits = take_limits(words);
            CoreDescription::Memory(limits, words.take() == "yes")
        }
        "global" => take_global(words),
        "tag" => CoreDescription::Tag(words.take_number()),
        _ => {
            words.refuse("no such core item");
            CoreDescription::Func(0)
        }
    }
}

/// The core value types of a text's words.
fn core_values_of(words: &mut Words<'_>, text: &str) -> Vec<CoreValue> {
    let mut values = Vec::new(words.alloc());
    for word in text.split(' ') {
        if !word.is_empty() {
            let value = core_value_of(words, word);
            words.keep(&mut values, value);
        }
    }
    values
}

/// A signature.
fn take_signature(words: &mut Words<'_>) -> CoreDeclaration {
    let (params, results) = words.rest().split_once("->").unwrap_or((words.rest(), ""));
    let params = core_values_of(words, params);
    CoreDeclaration::Signature(params, core_values_of(words, results))
}

/// What a module asks for.
fn take_import(words: &mut Words<'_>) -> CoreDeclaration {
    let module = words.take_text();
    let name = words.take_text();
    CoreDeclaration::Import(module, name, take_core(words))
}

/// What a module gives.
fn take_export(words: &mut Words<'_>) -> CoreDeclaration {
    let name = words.take_text();
    CoreDeclaration::Export(name, take_core(words))
}

/// The declaration of a text.
fn take_core_declaration(words: &mut Words<'_>) -> CoreDeclaration {
    match words.take() {
        "signature" => take_signature(words),
        "import" => take_import(words),
        word => {
            if word != "export" {
                words.refuse("no such declaration of a module");
            }
            take_export(words)
        }
    }
}

/// The declarations of a text, with ` ; ` between them.
pub(crate) fn take_core_declarations(words: &mut Words<'_>) -> Vec<CoreDeclaration> {
    let mut declarations = Vec::new(words.alloc());
    for part in words.rest().split(" ; ") {
        if !part.is_empty() {
            let mut inside = words.inside(part);
            let declaration = take_core_declaration(&mut inside);
            words.join(inside);
            words.keep(&mut declarations, declaration);
        }
    }
    declarations
}

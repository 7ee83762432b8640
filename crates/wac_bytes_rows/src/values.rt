//! What words stand for.

use wac_graph_bytes::{Description, PrimitiveType, Sort, ValueType};
use wac_rows::Words;

/// The primitive types.
const PRIMITIVES: [(&str, PrimitiveType); 14] = [
    ("bool", PrimitiveType::Bool),
    ("s8", PrimitiveType::S8),
    ("u8", PrimitiveType::U8),
    ("s16", PrimitiveType::S16),
    ("u16", PrimitiveType::U16),
    ("s32", PrimitiveType::S32),
    ("u32", PrimitiveType::U32),
    ("s64", PrimitiveType::S64),
    ("u64", PrimitiveType::U64),
    ("f32", PrimitiveType::F32),
    ("f64", PrimitiveType::F64),
    ("char", PrimitiveType::Char),
    ("string", PrimitiveType::String),
    ("error-context", PrimitiveType::ErrorContext),
];

/// What an index of a word counts.
pub(crate) fn sort_of(words: &mut Words<'_>, word: &str) -> Sort {
    match word {
        "func" => Sort::Func,
        "type" => Sort::Ty,
        "component" => Sort::Component,
        "instance" => Sort::Instance,
        "module" => Sort::Module,
        _ => {
            words.refuse("no such sort");
            Sort::Func
        }
    }
}

/// What an index of the next word counts.
pub(crate) fn take_sort(words: &mut Words<'_>) -> Sort {
    let word = words.take();
    sort_of(words, word)
}

/// The sort and the index of a word `func.0`.
pub(crate) fn index_of(words: &mut Words<'_>, word: &str) -> (Sort, u64) {
    let (sort, index) = word.split_once('.').unwrap_or((word, ""));
    let sort = sort_of(words, sort);
    (sort, words.number_of(index))
}

/// The primitive type of a word.
pub(crate) fn primitive_of(words: &mut Words<'_>, word: &str) -> PrimitiveType {
    for (name, ty) in PRIMITIVES {
        if name == word {
            return ty;
        }
    }
    words.refuse("no such type");
    PrimitiveType::Bool
}

/// The value type of a word: a primitive type, or the index of a type.
pub(crate) fn value_of(words: &mut Words<'_>, word: &str) -> ValueType {
    match word.parse::<u64>() {
        Ok(index) => ValueType::Index(index),
        Err(_) => ValueType::Primitive(primitive_of(words, word)),
    }
}

/// The value type of the next word.
pub(crate) fn take_value(words: &mut Words<'_>) -> ValueType {
    let word = words.take();
    value_of(words, word)
}

/// The value type of a word, and none of `_`.
pub(crate) fn option_of(words: &mut Words<'_>, word: &str) -> Option<ValueType> {
    if word == "_" {
        return None;
    }
    Some(value_of(words, word))
}

/// The value type of the next word, and none of `_`.
pub(crate) fn take_option(words: &mut Words<'_>) -> Option<ValueType> {
    let word = words.take();
    option_of(words, word)
}

/// What an item is said to be, in a word: `resource`, or `func.0` and so on, where `type.0` is the type of that index.
pub(crate) fn description_of(words: &mut Words<'_>, word: &str) -> Description {
    if word == "resource" {
        return Description::Resource;
    }
    let (sort, index) = index_of(words, word);
    match sort {
        Sort::Func => Description::Func(index),
        Sort::Ty => Description::Equal(index),
        Sort::Component => Description::Component(index),
        Sort::Instance => Description::Instance(index),
        Sort::Module => Description::Module(index),
    }
}

/// What an item is said to be in the next word.
pub(crate) fn take_description(words: &mut Words<'_>) -> Description {
    let word = words.take();
    description_of(words, word)
}

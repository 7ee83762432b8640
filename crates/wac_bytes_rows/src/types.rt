//! Types without declarations: `list V`, `option V`, `fixed V N`, `result V V`, `own N`, `borrow N`, `stream V`, `future V`,
//! `record F=V ..`, `variant C=V ..`, `tuple V ..`, `flags NAME ..`, `enum NAME ..`, `func P=V .. -> V`, `async P=V .. -> V`, or
//! a primitive type. `_` stands for no type.

use crate::values::{option_of, primitive_of, take_option, take_value, value_of};
use wac_graph_bytes::{Case, DefinedType, Param, ValueType};
use wac_rows::Words;

/// The parameters or fields, up to another word.
fn take_params(words: &mut Words<'_>) -> Vec<Param> {
    let mut params = Vec::new(words.alloc());
    for word in words.rest().split(' ') {
        if let Some((name, ty)) = word.split_once('=') {
            let ty = value_of(words, ty);
            let name = words.own(name);
            words.keep(&mut params, Param { name, ty });
        }
    }
    params
}

/// The cases that are left.
fn take_cases(words: &mut Words<'_>) -> Vec<Case> {
    let mut cases = Vec::new(words.alloc());
    for word in words.rest().split(' ') {
        if let Some((name, ty)) = word.split_once('=') {
            let ty = option_of(words, ty);
            let name = words.own(name);
            words.keep(&mut cases, Case { name, ty });
        }
    }
    cases
}

/// The types that are left.
fn take_values(words: &mut Words<'_>) -> Vec<ValueType> {
    let mut values = Vec::new(words.alloc());
    for word in words.rest().split(' ') {
        let value = value_of(words, word);
        words.keep(&mut values, value);
    }
    values
}

/// The names that are left.
fn take_names(words: &mut Words<'_>) -> Vec<String> {
    let mut names = Vec::new(words.alloc());
    for word in words.rest().split(' ') {
        let name = words.own(word);
        words.keep(&mut names, name);
    }
    names
}

/// A function type, whose answer is the last word.
fn take_func(words: &mut Words<'_>, is_async: bool) -> DefinedType {
    let params = take_params(words);
    let (_, last) = words.rest().split_once("-> ").unwrap_or(("", "_"));
    DefinedType::Func(is_async, params, option_of(words, last))
}

/// The length of a list that always has it.
fn take_length(words: &mut Words<'_>) -> u32 {
    match u32::try_from(words.take_number()) {
        Ok(length) => length,
        Err(_) => {
            words.refuse("no such length");
            0
        }
    }
}

/// A type of at most two words behind its first, or a primitive one.
fn take_small(words: &mut Words<'_>, word: &str) -> DefinedType {
    match word {
        "list" => DefinedType::List(take_value(words)),
        "option" => DefinedType::Option(take_value(words)),
        "fixed" => {
            let value = take_value(words);
            DefinedType::FixedSizeList(value, take_length(words))
        }
        "result" => {
            let first = take_option(words);
            DefinedType::Result(first, take_option(words))
        }
        "own" => DefinedType::Own(words.take_number()),
        "borrow" => DefinedType::Borrow(words.take_number()),
        "stream" => DefinedType::Stream(take_option(words)),
        "future" => DefinedType::Future(take_option(words)),
        _ => DefinedType::Primitive(primitive_of(words, word)),
    }
}

/// The type of a line.
pub(crate) fn take_defined(words: &mut Words<'_>) -> DefinedType {
    match words.take() {
        "record" => DefinedType::Record(take_params(words)),
        "variant" => DefinedType::Variant(take_cases(words)),
        "tuple" => DefinedType::Tuple(take_values(words)),
        "flags" => DefinedType::Flags(take_names(words)),
        "enum" => DefinedType::Enum(take_names(words)),
        "func" => take_func(words, false),
        "async" => take_func(words, true),
        word => take_small(words, word),
    }
}

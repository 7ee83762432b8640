//! Types without declarations.
ghost use Rattle.std.specs.Prelude.{◌≡◌, map, string_bytes, true, false};
ghost use Rattle.wac_graph_bytes.specs.Views.{param_view, case_view, defined_view};
ghost use Rattle.wac_component.specs.Numbers.{vec};
ghost use Rattle.wac_component.specs.Types as grammar;
ghost use Rattle.wac_component.specs.Reads.{Gives};

use crate::fault::{FaultKind, Stop};
use crate::numbers::{
    expect_byte, read_byte, read_name, read_names, read_number, read_signed, refuse,
};
use std::alloc::Global;
use wac_graph_bytes::{Case, DefinedType, Param, PrimitiveType, ValueType};

/// How a type that is not primitive is formed.
#[derive(Clone, Copy, Debug, PartialEq, Eq)]
pub enum TypeForm {
    Record,
    Variant,
    List,
    Tuple,
    Flags,
    Enum,
    Option,
    Result,
    Own,
    Borrow,
    FixedList,
    Stream,
    Future,
    AsyncFunc,
    Func,
}

/// The primitive type of a byte.
fn primitive_of(b: u8) -> Option<PrimitiveType>
    ensures { result ≡ grammar.primitive_of b }
{
    match b {
        0x7f => Some(PrimitiveType::Bool),
        0x7e => Some(PrimitiveType::S8),
        0x7d => Some(PrimitiveType::U8),
        0x7c => Some(PrimitiveType::S16),
        0x7b => Some(PrimitiveType::U16),
        0x7a => Some(PrimitiveType::S32),
        0x79 => Some(PrimitiveType::U32),
        0x78 => Some(PrimitiveType::S64),
        0x77 => Some(PrimitiveType::U64),
        0x76 => Some(PrimitiveType::F32),
        0x75 => Some(PrimitiveType::F64),
        0x74 => Some(PrimitiveType::Char),
        0x73 => Some(PrimitiveType::String),
        0x64 => Some(PrimitiveType::ErrorContext),
        _ => None,
    }
}

/// The form of a type that begins with a byte.
fn form_of(b: u8) -> Option<TypeForm>
    ensures { result ≡ grammar.form_of b }
{
    match b {
        0x72 => Some(TypeForm::Record),
        0x71 => Some(TypeForm::Variant),
        0x70 => Some(TypeForm::List),
        0x6f => Some(TypeForm::Tuple),
        0x6e => Some(TypeForm::Flags),
        0x6d => Some(TypeForm::Enum),
        0x6b => Some(TypeForm::Option),
        0x6a => Some(TypeForm::Result),
        0x69 => Some(TypeForm::Own),
        0x68 => Some(TypeForm::Borrow),
        0x67 => Some(TypeForm::FixedList),
        0x66 => Some(TypeForm::Stream),
        0x65 => Some(TypeForm::Future),
        0x43 => Some(TypeForm::AsyncFunc),
        0x40 => Some(TypeForm::Func),
        _ => None,
    }
}

/// The type of a value.
#[tactic(auto, unfolding(crate::specs::Types::value_type))]
fn read_value_type(bytes: &[u8]) -> Result<(ValueType, &[u8]), Stop>
    ensures { Gives (λ x. (x.0, x.1.now)) result (grammar.value_type.read bytes.now) }
{
    let (b, rest) = read_byte(bytes)?;
    if let Some(primitive) = primitive_of(b) {
        return Ok((ValueType::Primitive(primitive), rest));
    }
    if 63 < b && b < 128 {
        return Err(refuse(FaultKind::ValueType, bytes));
    }
    let (index, rest) = read_signed(bytes)?;
    Ok((ValueType::Index(index as u64), rest))
}

/// A type or none.
#[tactic(auto, unfolding(crate::specs::Types::optional_type))]
fn read_optional_type(bytes: &[u8]) -> Result<(Option<ValueType>, &[u8]), Stop>
    ensures { Gives (λ x. (x.0, x.1.now)) result (grammar.optional_type.read bytes.now) }
{
    let (flag, rest) = read_byte(bytes)?;
    match flag {
        0 => Ok((None, rest)),
        1 => {
            let (ty, rest) = read_value_type(rest)?;
            Ok((Some(ty), rest))
        }
        _ => Err(refuse(FaultKind::Flag, rest)),
    }
}

/// An index or none.
#[tactic(auto, unfolding(crate::specs::Types::optional_index))]
pub(crate) fn read_optional_index(bytes: &[u8]) -> Result<(Option<u32>, &[u8]), Stop>
    ensures { Gives (λ x. (x.0, x.1.now)) result (grammar.optional_index.read bytes.now) }
{
    let (flag, rest) = read_byte(bytes)?;
    match flag {
        0 => Ok((None, rest)),
        1 => {
            let (index, rest) = read_number(rest)?;
            Ok((Some(index), rest))
        }
        _ => Err(refuse(FaultKind::Flag, rest)),
    }
}

/// What a function answers.
#[tactic(auto, unfolding(crate::specs::Types::answer))]
pub(crate) fn read_answer(bytes: &[u8]) -> Result<(Option<ValueType>, &[u8]), Stop>
    ensures { Gives (λ x. (x.0, x.1.now)) result (grammar.answer.read bytes.now) }
{
    let (flag, rest) = read_byte(bytes)?;
    match flag {
        0 => {
            let (ty, rest) = read_value_type(rest)?;
            Ok((Some(ty), rest))
        }
        1 => Ok((None, expect_byte(0, FaultKind::Answer, rest)?)),
        _ => Err(refuse(FaultKind::Answer, rest)),
    }
}

/// A parameter of a function, or a field of a record.
#[tactic(auto, unfolding(crate::specs::Types::field))]
fn read_field(alloc: Global, bytes: &[u8]) -> Result<(Param, &[u8]), Stop>
    ensures { Gives (λ x. (param_view x.0, x.1.now)) result (grammar.field.read bytes.now) }
{
    let (name, rest) = read_name(alloc, bytes)?;
    let (ty, rest) = read_value_type(rest)?;
    Ok((Param { name, ty }, rest))
}

/// A case of a variant.
#[tactic(auto, unfolding(crate::specs::Types::case_type))]
fn read_case_type(alloc: Global, bytes: &[u8]) -> Result<(Case, &[u8]), Stop>
    ensures { Gives (λ x. (case_view x.0, x.1.now)) result (grammar.case_type.read bytes.now) }
{
    let (name, rest) = read_name(alloc, bytes)?;
    let (ty, rest) = read_optional_type(rest)?;
    let rest = expect_byte(0, FaultKind::Flag, rest)?;
    Ok((Case { name, ty }, rest))
}

/// The parameters of a function, or the fields of a record.
fn read_fields(alloc: Global, bytes: &[u8]) -> Result<(Vec<Param>, &[u8]), Stop>
    ensures { Gives (λ x. (map param_view x.0.items, x.1.now)) result ((vec grammar.field).read bytes.now) }
{
    let (count, first) = read_number(bytes)?;
    let mut values = Vec::new(alloc);
    let mut rest = first;
    for _ in 0..count {
        let (value, after) = read_field(alloc, rest)?;
        values.push(value)?;
        rest = after;
    }
    Ok((values, rest))
}

/// The cases of a variant.
fn read_cases(alloc: Global, bytes: &[u8]) -> Result<(Vec<Case>, &[u8]), Stop>
    ensures { Gives (λ x. (map case_view x.0.items, x.1.now)) result ((vec grammar.case_type).read bytes.now) }
{
    let (count, first) = read_number(bytes)?;
    let mut values = Vec::new(alloc);
    let mut rest = first;
    for _ in 0..count {
        let (value, after) = read_case_type(alloc, rest)?;
        values.push(value)?;
        rest = after;
    }
    Ok((values, rest))
}

/// The types of a tuple.
fn read_value_types(alloc: Global, bytes: &[u8]) -> Result<(Vec<ValueType>, &[u8]), Stop>
    ensures { Gives (λ x. (x.0.items, x.1.now)) result ((vec grammar.value_type).read bytes.now) }
{
    let (count, first) = read_number(bytes)?;
    let mut values = Vec::new(alloc);
    let mut rest = first;
    for _ in 0..count {
        let (value, after) = read_value_type(rest)?;
        values.push(value)?;
        rest = after;
    }
    Ok((values, rest))
}

/// A function's type.
#[tactic(auto, unfolding(crate::specs::Types::func_type))]
fn read_func_type(alloc: Global, is_async: bool, bytes: &[u8]) -> Result<(DefinedType, &[u8]), Stop>
    ensures { Gives (λ x. (defined_view x.0, x.1.now)) result ((grammar.func_type is_async).read bytes.now) }
{
    let (params, rest) = read_fields(alloc, bytes)?;
    let (result_type, rest) = read_answer(rest)?;
    Ok((DefinedType::Func(is_async, params, result_type), rest))
}

/// A list of a length that is always the same.
#[tactic(auto, unfolding(crate::specs::Types::fixed_list))]
fn read_fixed_list(bytes: &[u8]) -> Result<(DefinedType, &[u8]), Stop>
    ensures { Gives (λ x. (defined_view x.0, x.1.now)) result (grammar.fixed_list.read bytes.now) }
{
    let (ty, rest) = read_value_type(bytes)?;
    let (length, rest) = read_number(rest)?;
    Ok((DefinedType::FixedSizeList(ty, length), rest))
}

/// What stands where it is well, and where it failed.
#[tactic(auto, unfolding(crate::specs::Types::result_type))]
fn read_result_type(bytes: &[u8]) -> Result<(DefinedType, &[u8]), Stop>
    ensures { Gives (λ x. (defined_view x.0, x.1.now)) result (grammar.result_type.read bytes.now) }
{
    let (ok, rest) = read_optional_type(bytes)?;
    let (err, rest) = read_optional_type(rest)?;
    Ok((DefinedType::Result(ok, err), rest))
}

/// A type of that form, behind its first byte.
#[tactic(auto, unfolding(crate::specs::Types::type_of))]
fn read_form(alloc: Global, form: TypeForm, bytes: &[u8]) -> Result<(DefinedType, &[u8]), Stop>
    ensures { Gives (λ x. (defined_view x.0, x.1.now)) result ((grammar.type_of form).read bytes.now) }
{
    match form {
        TypeForm::Record => {
            let (fields, rest) = read_fields(alloc, bytes)?;
            Ok((DefinedType::Record(fields), rest))
        }
        TypeForm::Variant => {
            let (cases, rest) = read_cases(alloc, bytes)?;
            Ok((DefinedType::Variant(cases), rest))
        }
        TypeForm::List => {
            let (ty, rest) = read_value_type(bytes)?;
            Ok((DefinedType::List(ty), rest))
        }
        TypeForm::Tuple => {
            let (types, rest) = read_value_types(alloc, bytes)?;
            Ok((DefinedType::Tuple(types), rest))
        }
        TypeForm::Flags => {
            let (names, rest) = read_names(alloc, bytes)?;
            Ok((DefinedType::Flags(names), rest))
        }
        TypeForm::Enum => {
            let (names, rest) = read_names(alloc, bytes)?;
            Ok((DefinedType::Enum(names), rest))
        }
        TypeForm::Option => {
            let (ty, rest) = read_value_type(bytes)?;
            Ok((DefinedType::Option(ty), rest))
        }
        TypeForm::Result => read_result_type(bytes),
        TypeForm::Own => {
            let (index, rest) = read_number(bytes)?;
            Ok((DefinedType::Own(index as u64), rest))
        }
        TypeForm::Borrow => {
            let (index, rest) = read_number(bytes)?;
            Ok((DefinedType::Borrow(index as u64), rest))
        }
        TypeForm::FixedList => read_fixed_list(bytes),
        TypeForm::Stream => {
            let (ty, rest) = read_optional_type(bytes)?;
            Ok((DefinedType::Stream(ty), rest))
        }
        TypeForm::Future => {
            let (ty, rest) = read_optional_type(bytes)?;
            Ok((DefinedType::Future(ty), rest))
        }
        TypeForm::AsyncFunc => read_func_type(alloc, true, bytes),
        TypeForm::Func => read_func_type(alloc, false, bytes),
    }
}

/// A type without declarations.
#[tactic(auto, unfolding(crate::specs::Types::defined_type))]
pub fn read_defined_type(alloc: Global, bytes: &[u8]) -> Result<(DefinedType, &[u8]), Stop>
    ensures { Gives (λ x. (defined_view x.0, x.1.now)) result (grammar.defined_type.read bytes.now) }
{
    let (b, rest) = read_byte(bytes)?;
    if let Some(primitive) = primitive_of(b) {
        return Ok((DefinedType::Primitive(primitive), rest));
    }
    match form_of(b) {
        Some(form) => read_form(alloc, form, rest),
        None => Err(refuse(FaultKind::Type, bytes)),
    }
}

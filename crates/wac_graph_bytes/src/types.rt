//! The bytes of type entries without declarations, of sorts, descriptions and aliases.
ghost use Rattle.std.specs.Prelude.{◌≡◌, ◌<◌, ◌^◌, ◌++◌, ◌∷◌, ◌&&◌, [], OnOk, string_bytes, true, false};
ghost use Rattle.wac_types_base.specs.Entries.{texts_of};
ghost use Rattle.wac_graph_bytes.specs.Leb.{unsigned, signed};
ghost use Rattle.wac_graph_bytes.specs.Spelling.{vec, name, sort_bytes, primitive_byte, value_type, optional, answer, field, case_bytes, func_byte, defined_type, description, alias_bytes};
ghost use Rattle.wac_graph_bytes.specs.Sizes.{small, name_fits, vec_fits, value_fits, optional_fits, field_fits, case_fits, description_fits, defined_fits, alias_fits};
ghost use Rattle.wac_graph_bytes.specs.Views.{params_view, cases_view, defined_view, alias_view};
ghost use Rattle.wac_graph_bytes.specs.Writing.{Appends};

use crate::entry::{Alias, Case, DefinedType, Param};
use crate::error::SizeError;
use crate::text::{push_name, push_names, push_signed, push_unsigned};
use crate::value::{Description, PrimitiveType, Sort, ValueType};
use std::alloc::AllocError;

/// What an index counts.
pub fn push_sort(out: &mut Vec<u8>, sort: Sort) -> Result<(), AllocError>
    ensures { OnOk result (out.new.items ≡ out.old.items ++ sort_bytes sort) }
{
    match sort {
        Sort::Func => out.push(0x01)?,
        Sort::Ty => out.push(0x03)?,
        Sort::Component => out.push(0x04)?,
        Sort::Instance => out.push(0x05)?,
        Sort::Module => {
            out.push(0x00)?;
            out.push(0x11)?;
        }
    }
    Ok(())
}

fn byte_of(primitive: PrimitiveType) -> u8
    ensures { result ≡ primitive_byte primitive }
{
    match primitive {
        PrimitiveType::Bool => 0x7f,
        PrimitiveType::S8 => 0x7e,
        PrimitiveType::U8 => 0x7d,
        PrimitiveType::S16 => 0x7c,
        PrimitiveType::U16 => 0x7b,
        PrimitiveType::S32 => 0x7a,
        PrimitiveType::U32 => 0x79,
        PrimitiveType::S64 => 0x78,
        PrimitiveType::U64 => 0x77,
        PrimitiveType::F32 => 0x76,
        PrimitiveType::F64 => 0x75,
        PrimitiveType::Char => 0x74,
        PrimitiveType::String => 0x73,
        PrimitiveType::ErrorContext => 0x64,
    }
}

/// The type of a value.
pub fn push_value_type(out: &mut Vec<u8>, ty: ValueType) -> Result<(), SizeError>
    ensures { Appends result out.old.items out.new.items (value_type ty) (value_fits ty) }
{
    match ty {
        ValueType::Primitive(p) => out.push(byte_of(p))?,
        ValueType::Index(n) => push_signed(out, n)?,
    }
    Ok(())
}

/// A type or none.
pub fn push_optional(out: &mut Vec<u8>, ty: Option<ValueType>) -> Result<(), SizeError>
    ensures { Appends result out.old.items out.new.items (optional ty) (optional_fits ty) }
{
    match ty {
        None => out.push(0x00)?,
        Some(ty) => {
            out.push(0x01)?;
            push_value_type(out, ty)?;
        }
    }
    Ok(())
}

/// What a function answers.
pub fn push_answer(out: &mut Vec<u8>, ty: Option<ValueType>) -> Result<(), SizeError>
    ensures { Appends result out.old.items out.new.items (answer ty) (optional_fits ty) }
{
    match ty {
        None => out.extend_from_slice(&[0x01, 0x00])?,
        Some(ty) => {
            out.push(0x00)?;
            push_value_type(out, ty)?;
        }
    }
    Ok(())
}

/// The parameters of a function, or the fields of a record.
#[tactic(auto, using(crate::proofs::Loops::unfit_item))]
pub fn push_params(out: &mut Vec<u8>, params: &[Param]) -> Result<(), SizeError>
    ensures { Appends result out.old.items out.new.items (vec field (params_view params.now))
        (vec_fits field_fits (params_view params.now)) }
{
    push_unsigned(out, params.len() as u64)?;
    for p in params {
        push_name(out, p.name.as_str())?;
        push_value_type(out, p.ty)?;
    }
    Ok(())
}

/// The cases of a variant.
#[tactic(auto, using(crate::proofs::Loops::unfit_item))]
pub fn push_cases(out: &mut Vec<u8>, cases: &[Case]) -> Result<(), SizeError>
    ensures { Appends result out.old.items out.new.items (vec case_bytes (cases_view cases.now))
        (vec_fits case_fits (cases_view cases.now)) }
{
    push_unsigned(out, cases.len() as u64)?;
    for c in cases {
        push_name(out, c.name.as_str())?;
        push_optional(out, c.ty)?;
        out.push(0x00)?;
    }
    Ok(())
}

/// The types of a tuple.
pub fn push_value_types(out: &mut Vec<u8>, types: &[ValueType]) -> Result<(), SizeError>
    ensures { Appends result out.old.items out.new.items (vec value_type types.now) (vec_fits value_fits types.now) }
{
    push_unsigned(out, types.len() as u64)?;
    for t in types {
        push_value_type(out, *t)?;
    }
    Ok(())
}

/// A function's type.
fn push_func(
    out: &mut Vec<u8>,
    is_async: bool,
    params: &[Param],
    result_type: Option<ValueType>,
) -> Result<(), SizeError>
    ensures { Appends result out.old.items out.new.items (func_byte is_async
        ∷ (vec field (params_view params.now) ++ answer result_type))
        (vec_fits field_fits (params_view params.now) && optional_fits result_type) }
{
    out.push(if is_async { 0x43 } else { 0x40 })?;
    push_params(out, params)?;
    push_answer(out, result_type)?;
    Ok(())
}

/// A byte, and an index.
fn push_handle(out: &mut Vec<u8>, byte: u8, index: u64) -> Result<(), SizeError>
    ensures { Appends result out.old.items out.new.items (byte ∷ unsigned index) (small index) }
{
    out.push(byte)?;
    push_unsigned(out, index)
}

/// A byte, and a type.
fn push_one_type(out: &mut Vec<u8>, byte: u8, ty: ValueType) -> Result<(), SizeError>
    ensures { Appends result out.old.items out.new.items (byte ∷ value_type ty) (value_fits ty) }
{
    out.push(byte)?;
    push_value_type(out, ty)
}

/// A byte, and a type or none.
fn push_one_optional(out: &mut Vec<u8>, byte: u8, ty: Option<ValueType>) -> Result<(), SizeError>
    ensures { Appends result out.old.items out.new.items (byte ∷ optional ty) (optional_fits ty) }
{
    out.push(byte)?;
    push_optional(out, ty)
}

/// A byte, and names.
fn push_labels(out: &mut Vec<u8>, byte: u8, names: &[String]) -> Result<(), SizeError>
    ensures { Appends result out.old.items out.new.items (byte ∷ vec name (texts_of names.now))
        (vec_fits name_fits (texts_of names.now)) }
{
    out.push(byte)?;
    push_names(out, names)
}

/// A list of a length that is always the same.
fn push_fixed_size_list(out: &mut Vec<u8>, ty: ValueType, length: u32) -> Result<(), SizeError>
    ensures { Appends result out.old.items out.new.items (0x67 ∷ (value_type ty ++ unsigned length))
        (value_fits ty && small length) }
{
    out.push(0x67)?;
    push_value_type(out, ty)?;
    push_unsigned(out, length as u64)
}

/// What stands where it is well, and where it failed.
fn push_result(
    out: &mut Vec<u8>,
    ok: Option<ValueType>,
    err: Option<ValueType>,
) -> Result<(), SizeError>
    ensures { Appends result out.old.items out.new.items (0x6a ∷ (optional ok ++ optional err))
        (optional_fits ok && optional_fits err) }
{
    out.push(0x6a)?;
    push_optional(out, ok)?;
    push_optional(out, err)
}

/// The fields of a record.
fn push_record(out: &mut Vec<u8>, fields: &[Param]) -> Result<(), SizeError>
    ensures { Appends result out.old.items out.new.items (0x72 ∷ vec field (params_view fields.now))
        (vec_fits field_fits (params_view fields.now)) }
{
    out.push(0x72)?;
    push_params(out, fields)
}

/// The cases of a variant.
fn push_variant(out: &mut Vec<u8>, cases: &[Case]) -> Result<(), SizeError>
    ensures { Appends result out.old.items out.new.items (0x71 ∷ vec case_bytes (cases_view cases.now))
        (vec_fits case_fits (cases_view cases.now)) }
{
    out.push(0x71)?;
    push_cases(out, cases)
}

/// The types of a tuple.
fn push_tuple(out: &mut Vec<u8>, types: &[ValueType]) -> Result<(), SizeError>
    ensures { Appends result out.old.items out.new.items (0x6f ∷ vec value_type types.now) (vec_fits value_fits types.now) }
{
    out.push(0x6f)?;
    push_value_types(out, types)
}

/// A type without declarations.
pub fn push_defined_type(out: &mut Vec<u8>, ty: &DefinedType) -> Result<(), SizeError>
    ensures { Appends result out.old.items out.new.items (defined_type (defined_view ty.now))
        (defined_fits (defined_view ty.now)) }
{
    match ty {
        DefinedType::Primitive(p) => out.push(byte_of(*p))?,
        DefinedType::Record(fields) => push_record(out, fields)?,
        DefinedType::Variant(cases) => push_variant(out, cases)?,
        DefinedType::List(ty) => push_one_type(out, 0x70, *ty)?,
        DefinedType::Option(ty) => push_one_type(out, 0x6b, *ty)?,
        DefinedType::FixedSizeList(ty, length) => push_fixed_size_list(out, *ty, *length)?,
        DefinedType::Tuple(types) => push_tuple(out, types)?,
        DefinedType::Flags(names) => push_labels(out, 0x6e, names)?,
        DefinedType::Enum(names) => push_labels(out, 0x6d, names)?,
        DefinedType::Result(ok, err) => push_result(out, *ok, *err)?,
        DefinedType::Own(index) => push_handle(out, 0x69, *index)?,
        DefinedType::Borrow(index) => push_handle(out, 0x68, *index)?,
        DefinedType::Stream(ty) => push_one_optional(out, 0x66, *ty)?,
        DefinedType::Future(ty) => push_one_optional(out, 0x65, *ty)?,
        DefinedType::Func(is_async, params, ty) => push_func(out, *is_async, params, *ty)?,
    }
    Ok(())
}

/// What an import is, or what an export is said to be.
pub fn push_description(out: &mut Vec<u8>, d: Description) -> Result<(), SizeError>
    ensures { Appends result out.old.items out.new.items (description d) (description_fits d) }
{
    match d {
        Description::Module(i) => {
            out.push(0x00)?;
            push_handle(out, 0x11, i)
        }
        Description::Func(i) => push_handle(out, 0x01, i),
        Description::Equal(i) => {
            out.push(0x03)?;
            push_handle(out, 0x00, i)
        }
        Description::Resource => {
            out.push(0x03)?;
            out.push(0x01)?;
            Ok(())
        }
        Description::Component(i) => push_handle(out, 0x04, i),
        Description::Instance(i) => push_handle(out, 0x05, i),
    }
}

/// An export of an instance, or an index of a scope further out.
pub fn push_alias(out: &mut Vec<u8>, a: &Alias) -> Result<(), SizeError>
    ensures { Appends result out.old.items out.new.items (alias_bytes (alias_view a.now)) (alias_fits (alias_view a.now)) }
{
    match a {
        Alias::Export(sort, instance, name) => {
            push_sort(out, *sort)?;
            out.push(0x00)?;
            push_unsigned(out, *instance)?;
            push_name(out, name.as_str())
        }
        Alias::Outer(sort, count, index) => {
            push_sort(out, *sort)?;
            out.push(0x02)?;
            push_unsigned(out, *count)?;
            push_unsigned(out, *index)
        }
    }
}

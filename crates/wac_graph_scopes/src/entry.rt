//! Type entries, by the value types in their places.

ghost use Rattle.std.specs.Prelude.{◌≡◌, IfOk, map};
ghost use Rattle.wac_types_base.specs.Entries.{texts_of};
ghost use Rattle.wac_graph_bytes.specs.Entries.{TupleEntry, RecordEntry, VariantEntry, FlagsEntry, EnumEntry};
ghost use Rattle.wac_graph_bytes.specs.Views.{params_view, cases_view, defined_view};
ghost use Rattle.wac_graph_scopes.specs.Forms.{value_or, place_at, params_with, cases_with, entry_of, func_entry_of};

use std::alloc::{AllocError, Global};
use wac_graph_bytes::{Case, DefinedType as TypeEntry, Param, PrimitiveType, ValueType as Written};
use wac_types_base::{DefinedType, FuncType};

/// The value type in a place; where there is none it does not matter which.
fn value_or(place: Option<Written>) -> Written
    ensures { result ≡ value_or place }
{
    match place {
        Some(value) => value,
        None => Written::Primitive(PrimitiveType::U8),
    }
}

/// What stands in the place of this number.
fn place_at(places: &[Option<Written>], at: usize) -> Option<Written>
    ensures { result ≡ place_at places.now at }
{
    match places.get(at) {
        Some(place) => *place,
        None => None,
    }
}

fn values_of(alloc: Global, places: &[Option<Written>]) -> Result<Vec<Written>, AllocError>
    ensures { IfOk result (λ v. v.items ≡ map value_or places.now) }
{
    let mut all = Vec::new(alloc);
    for place in places {
        all.push(value_or(*place))?;
    }
    Ok(all)
}

fn params_with(
    alloc: Global,
    names: &[String],
    places: &[Option<Written>],
) -> Result<Vec<Param>, AllocError>
    ensures { IfOk result (λ v. params_view v.items ≡ params_with (texts_of names.now) places.now) }
{
    let mut all = Vec::new(alloc);
    for at in 0..names.len() {
        let name = String::from_str(alloc, names[at].as_str())?;
        let ty = value_or(place_at(places, at));
        all.push(Param { name, ty })?;
    }
    Ok(all)
}

fn cases_with(
    alloc: Global,
    names: &[String],
    places: &[Option<Written>],
) -> Result<Vec<Case>, AllocError>
    ensures { IfOk result (λ v. cases_view v.items ≡ cases_with (texts_of names.now) places.now) }
{
    let mut all = Vec::new(alloc);
    for at in 0..names.len() {
        let name = String::from_str(alloc, names[at].as_str())?;
        let ty = place_at(places, at);
        all.push(Case { name, ty })?;
    }
    Ok(all)
}

fn texts_of(alloc: Global, names: &[String]) -> Result<Vec<String>, AllocError>
    ensures { IfOk result (λ v. texts_of v.items ≡ texts_of names.now) }
{
    let mut all = Vec::new(alloc);
    for name in names {
        all.push(String::from_str(alloc, name.as_str())?)?;
    }
    Ok(all)
}

fn tuple_entry(alloc: Global, places: &[Option<Written>]) -> Result<TypeEntry, AllocError>
    ensures { IfOk result (λ e. defined_view e ≡ TupleEntry (map value_or places.now)) }
{
    let values = values_of(alloc, places)?;
    Ok(TypeEntry::Tuple(values))
}

fn record_entry(
    alloc: Global,
    names: &[String],
    places: &[Option<Written>],
) -> Result<TypeEntry, AllocError>
    ensures { IfOk result (λ e. defined_view e ≡ RecordEntry (params_with (texts_of names.now) places.now)) }
{
    let fields = params_with(alloc, names, places)?;
    Ok(TypeEntry::Record(fields))
}

fn variant_entry(
    alloc: Global,
    names: &[String],
    places: &[Option<Written>],
) -> Result<TypeEntry, AllocError>
    ensures { IfOk result (λ e. defined_view e ≡ VariantEntry (cases_with (texts_of names.now) places.now)) }
{
    let cases = cases_with(alloc, names, places)?;
    Ok(TypeEntry::Variant(cases))
}

fn flags_entry(alloc: Global, names: &[String]) -> Result<TypeEntry, AllocError>
    ensures { IfOk result (λ e. defined_view e ≡ FlagsEntry (texts_of names.now)) }
{
    let flags = texts_of(alloc, names)?;
    Ok(TypeEntry::Flags(flags))
}

fn enum_entry(alloc: Global, names: &[String]) -> Result<TypeEntry, AllocError>
    ensures { IfOk result (λ e. defined_view e ≡ EnumEntry (texts_of names.now)) }
{
    let cases = texts_of(alloc, names)?;
    Ok(TypeEntry::Enum(cases))
}

/// The entry of a type that is no alias.
pub(crate) fn entry_of(
    alloc: Global,
    ty: &DefinedType,
    places: &[Option<Written>],
) -> Result<TypeEntry, AllocError>
    ensures { IfOk result (λ e. defined_view e ≡ entry_of ty.now places.now) }
{
    let first = place_at(places, 0);
    let value = value_or(first);
    match ty {
        DefinedType::Tuple(_) => tuple_entry(alloc, places),
        DefinedType::List(_) => Ok(TypeEntry::List(value)),
        DefinedType::FixedSizeList(_, n) => Ok(TypeEntry::FixedSizeList(value, *n)),
        DefinedType::Option(_) => Ok(TypeEntry::Option(value)),
        DefinedType::Result { .. } => {
            let second = place_at(places, 1);
            Ok(TypeEntry::Result(first, second))
        }
        DefinedType::Variant(v) => variant_entry(alloc, v.cases.names(), places),
        DefinedType::Record(r) => record_entry(alloc, r.fields.names(), places),
        DefinedType::Flags(f) => flags_entry(alloc, f.0.as_slice()),
        DefinedType::Enum(e) => enum_entry(alloc, e.0.as_slice()),
        DefinedType::Alias(_) => Ok(TypeEntry::List(value)),
        DefinedType::Stream(_) => Ok(TypeEntry::Stream(first)),
        DefinedType::Future(_) => Ok(TypeEntry::Future(first)),
    }
}

/// The entry of a function type.
pub(crate) fn func_entry_of(
    alloc: Global,
    ty: &FuncType,
    places: &[Option<Written>],
) -> Result<TypeEntry, AllocError>
    ensures { IfOk result (λ e. defined_view e ≡ func_entry_of ty.now places.now) }
{
    let params = params_with(alloc, ty.params.names(), places)?;
    let answer = place_at(places, ty.params.len());
    Ok(TypeEntry::Func(ty.is_async, params, answer))
}

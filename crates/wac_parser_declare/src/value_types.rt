//! Value types.

ghost use Rattle.std.specs.Prelude.{◌≡◌, IfOk, Some};
ghost use Rattle.wac_types_base.specs.declared.item.ItemKind.{ItemKind};
ghost use Rattle.wac_types_base.specs.declared.item.ValueType.{ValueType};
ghost use Rattle.wac_types_base.specs.Collection as s;
ghost use Rattle.wac_types_base.specs.Collection.{Stands, Grows, HasChildren, item_node, defined_entry, StandsIf};
ghost use Rattle.wac_parser_declare.specs.Added.{IsNew};
ghost use Rattle.wac_parser_declare.specs.Packages.{SamePackages};
ghost use Rattle.wac_parser_declare.specs.ValueTypes as stated;
ghost use Rattle.wac_parser_refusals.specs.Outcomes.{IsOutcome};
ghost use Rattle.wac_parser_declare.specs.Holding.{IsValue, NamesStand};
ghost use Rattle.wac_parser_declare.specs.InValueTypes.{AreWritten, IsBorrowNamed, IsBorrowOf, IsMaybeWritten, IsOfMaybe, IsOfOne};
ghost use Rattle.wac_parser_declare.specs.InValueTypes.{IsResultWith, IsTuple, IsValueNamed, IsValueOf, IsValueWritten};

use crate::growing::GrowingTypes;
use crate::scope::{Binding, meaning};
use std::alloc::{AllocError, Global};
use wac_parser_refusals::{Outcome, not_resource_type, not_value_type};
use wac_parser_tree as ast;
use wac_parser_tree::Ident;
use wac_types_base::{
    DefinedType, ItemKind, Items, NamedMap, PrimitiveType, Type, Types, ValueType,
};

/// The value type that a type is: a resource is owned.
fn value_of_type(alloc: Global, types: &Types, ty: Type, id: &Ident<'_>) -> Outcome<ValueType>
    requires { Stands types.now (ItemKind.Ty ty) }
    ensures { IsValueOf types.now (ItemKind.Ty ty) id.now result }
{
    types.see_acyclic();
    match ty {
        Type::Resource(resource) => Ok(ValueType::Own(resource)),
        Type::Value(value) => Ok(value),
        other => Err(not_value_type(alloc, id.string, other.desc(types), id.span)),
    }
}

/// The value type that an item is as a type.
fn value_of(alloc: Global, types: &Types, kind: ItemKind, id: &Ident<'_>) -> Outcome<ValueType>
    requires { Stands types.now kind }
    ensures { IsValueOf types.now kind id.now result }
{
    types.see_acyclic();
    match kind {
        ItemKind::Ty(ty) => value_of_type(alloc, types, ty, id),
        other => Err(not_value_type(alloc, id.string, other.desc(types), id.span)),
    }
}

/// The borrow of a type that is a resource.
fn borrow_of_type(alloc: Global, types: &Types, ty: Type, id: &Ident<'_>) -> Outcome<ValueType>
    requires { Stands types.now (ItemKind.Ty ty) }
    ensures { IsBorrowOf types.now (ItemKind.Ty ty) id.now result }
{
    types.see_acyclic();
    match ty {
        Type::Resource(resource) => Ok(ValueType::Borrow(resource)),
        other => Err(not_resource_type(alloc, id.string, other.desc(types), id.span)),
    }
}

/// The borrow of an item that is a resource.
fn borrow_of(alloc: Global, types: &Types, kind: ItemKind, id: &Ident<'_>) -> Outcome<ValueType>
    requires { Stands types.now kind }
    ensures { IsBorrowOf types.now kind id.now result }
{
    types.see_acyclic();
    match kind {
        ItemKind::Ty(ty) => borrow_of_type(alloc, types, ty, id),
        other => Err(not_resource_type(alloc, id.string, other.desc(types), id.span)),
    }
}

/// The value type of a name.
fn value_named(
    alloc: Global,
    names: &NamedMap<Binding>,
    types: &Types,
    id: &Ident<'_>,
) -> Outcome<ValueType>
    requires { NamesStand types.now names.now }
    ensures { IsValueNamed types.now names.now id.now types.now result }
{
    let binding = meaning(alloc, names, id)?;
    value_of(alloc, types, binding.kind, id)
}

/// The borrow of a name.
fn borrow_named(
    alloc: Global,
    names: &NamedMap<Binding>,
    types: &Types,
    id: &Ident<'_>,
) -> Outcome<ValueType>
    requires { NamesStand types.now names.now }
    ensures { IsBorrowNamed types.now names.now id.now types.now result }
{
    let binding = meaning(alloc, names, id)?;
    borrow_of(alloc, types, binding.kind, id)
}

/// Adds a defined type.
pub(crate) fn define<T: GrowingTypes>(
    types: &mut T,
    ty: DefinedType,
) -> Result<ValueType, AllocError>
    requires { HasChildren (T.collection types.old) (defined_entry ty) }
    ensures node { IfOk result (λ v. item_node (T.collection types.new) (ItemKind.Value v) ≡ Some (defined_entry ty)) }
    ensures fresh { IfOk result (λ v. IsNew (T.collection types.old) (ItemKind.Value v)) }
    ensures grows { Grows (T.collection types.old) (T.collection types.new) }
    ensures packages { SamePackages (T.packages types.old) (T.packages types.new) }
{
    let id = types.add_defined_type(ty)?;
    Ok(ValueType::Defined(id))
}

/// A primitive type.
fn primitive<T: GrowingTypes>(types: &mut T, ty: PrimitiveType) -> Outcome<ValueType>
    ensures outcome { IsOutcome (IsValue (T.collection types.new)) (stated.primitive ty) result }
    ensures grows { Grows (T.collection types.old) (T.collection types.new) }
    ensures packages { SamePackages (T.packages types.old) (T.packages types.new) }
{
    types.types().see_acyclic();
    Ok(ValueType::Primitive(ty))
}

/// The value type that a type states.
#[cycle(value)]
pub fn value_type<T: GrowingTypes>(
    ty: &ast::Type<'_>,
    alloc: Global,
    names: &NamedMap<Binding>,
    types: &mut T,
) -> Outcome<ValueType>
    requires { NamesStand (T.collection types.old) names.now }
    ensures outcome { IsValueWritten (T.collection types.old) names.now ty.now (T.collection types.new) result }
    ensures grows { Grows (T.collection types.old) (T.collection types.new) }
    ensures packages { SamePackages (T.packages types.old) (T.packages types.new) }
{
    match ty {
        ast::Type::U8(_) => primitive(types, PrimitiveType::U8),
        ast::Type::S8(_) => primitive(types, PrimitiveType::S8),
        ast::Type::U16(_) => primitive(types, PrimitiveType::U16),
        ast::Type::S16(_) => primitive(types, PrimitiveType::S16),
        ast::Type::U32(_) => primitive(types, PrimitiveType::U32),
        ast::Type::S32(_) => primitive(types, PrimitiveType::S32),
        ast::Type::U64(_) => primitive(types, PrimitiveType::U64),
        ast::Type::S64(_) => primitive(types, PrimitiveType::S64),
        ast::Type::F32(_) => primitive(types, PrimitiveType::F32),
        ast::Type::F64(_) => primitive(types, PrimitiveType::F64),
        ast::Type::Char(_) => primitive(types, PrimitiveType::Char),
        ast::Type::Bool(_) => primitive(types, PrimitiveType::Bool),
        ast::Type::String(_) => primitive(types, PrimitiveType::String),
        ast::Type::ErrorContext(_) => primitive(types, PrimitiveType::ErrorContext),
        ast::Type::Tuple(members, _) => tuple_type(members, alloc, names, types),
        ast::Type::List(element, _) => list_type(element, alloc, names, types),
        ast::Type::Option(payload, _) => option_type(payload, alloc, names, types),
        ast::Type::Result { ok, err, .. } => {
            let ok = maybe_type(ok, alloc, names, types)?;
            result_type(err, alloc, names, types, ok)
        }
        ast::Type::Stream(payload, _) => stream_type(payload, alloc, names, types),
        ast::Type::Future(payload, _) => future_type(payload, alloc, names, types),
        ast::Type::Borrow(id, _) => borrow_at(alloc, names, types, id),
        ast::Type::Ident(id) => value_at(alloc, names, types, id),
    }
}

/// The value type of a name, where nothing is added.
fn value_at<T: GrowingTypes>(
    alloc: Global,
    names: &NamedMap<Binding>,
    types: &mut T,
    id: &Ident<'_>,
) -> Outcome<ValueType>
    requires { NamesStand (T.collection types.old) names.now }
    ensures outcome { IsValueNamed (T.collection types.old) names.now id.now (T.collection types.new) result }
    ensures grows { Grows (T.collection types.old) (T.collection types.new) }
    ensures packages { SamePackages (T.packages types.old) (T.packages types.new) }
{
    let collection = types.types();
    collection.see_acyclic();
    value_named(alloc, names, collection, id)
}

/// The borrow of a name, where nothing is added.
fn borrow_at<T: GrowingTypes>(
    alloc: Global,
    names: &NamedMap<Binding>,
    types: &mut T,
    id: &Ident<'_>,
) -> Outcome<ValueType>
    requires { NamesStand (T.collection types.old) names.now }
    ensures outcome { IsBorrowNamed (T.collection types.old) names.now id.now (T.collection types.new) result }
    ensures grows { Grows (T.collection types.old) (T.collection types.new) }
    ensures packages { SamePackages (T.packages types.old) (T.packages types.new) }
{
    let collection = types.types();
    collection.see_acyclic();
    borrow_named(alloc, names, collection, id)
}

#[cycle(value)]
fn list_type<T: GrowingTypes>(
    element: &ast::Type<'_>,
    alloc: Global,
    names: &NamedMap<Binding>,
    types: &mut T,
) -> Outcome<ValueType>
    requires { NamesStand (T.collection types.old) names.now }
    ensures outcome { IsOfOne s.list (T.collection types.old) names.now element.now (T.collection types.new) result }
    ensures grows { Grows (T.collection types.old) (T.collection types.new) }
    ensures packages { SamePackages (T.packages types.old) (T.packages types.new) }
{
    let element = value_type(element, alloc, names, types)?;
    let list = define(types, DefinedType::List(element))?;
    Ok(list)
}

#[cycle(value)]
fn option_type<T: GrowingTypes>(
    payload: &ast::Type<'_>,
    alloc: Global,
    names: &NamedMap<Binding>,
    types: &mut T,
) -> Outcome<ValueType>
    requires { NamesStand (T.collection types.old) names.now }
    ensures outcome { IsOfOne s.option (T.collection types.old) names.now payload.now (T.collection types.new) result }
    ensures grows { Grows (T.collection types.old) (T.collection types.new) }
    ensures packages { SamePackages (T.packages types.old) (T.packages types.new) }
{
    let payload = value_type(payload, alloc, names, types)?;
    let option = define(types, DefinedType::Option(payload))?;
    Ok(option)
}

#[cycle(value)]
fn maybe_type<T: GrowingTypes>(
    ty: &Option<Box<ast::Type<'_>>>,
    alloc: Global,
    names: &NamedMap<Binding>,
    types: &mut T,
) -> Outcome<Option<ValueType>>
    requires { NamesStand (T.collection types.old) names.now }
    ensures outcome { IsMaybeWritten (T.collection types.old) names.now ty.now (T.collection types.new) result }
    ensures grows { Grows (T.collection types.old) (T.collection types.new) }
    ensures packages { SamePackages (T.packages types.old) (T.packages types.new) }
    ensures stands { IfOk result (StandsIf (T.collection types.new)) }
    ensures names { NamesStand (T.collection types.new) names.now }
{
    types.types().see_acyclic();
    match ty {
        Some(ty) => {
            let found = value_type(ty, alloc, names, types)?;
            Ok(Some(found))
        }
        None => Ok(None),
    }
}

#[cycle(value)]
fn stream_type<T: GrowingTypes>(
    payload: &Option<Box<ast::Type<'_>>>,
    alloc: Global,
    names: &NamedMap<Binding>,
    types: &mut T,
) -> Outcome<ValueType>
    requires { NamesStand (T.collection types.old) names.now }
    ensures outcome { IsOfMaybe s.stream (T.collection types.old) names.now payload.now (T.collection types.new) result }
    ensures grows { Grows (T.collection types.old) (T.collection types.new) }
    ensures packages { SamePackages (T.packages types.old) (T.packages types.new) }
{
    let payload = maybe_type(payload, alloc, names, types)?;
    let stream = define(types, DefinedType::Stream(payload))?;
    Ok(stream)
}

#[cycle(value)]
fn future_type<T: GrowingTypes>(
    payload: &Option<Box<ast::Type<'_>>>,
    alloc: Global,
    names: &NamedMap<Binding>,
    types: &mut T,
) -> Outcome<ValueType>
    requires { NamesStand (T.collection types.old) names.now }
    ensures outcome { IsOfMaybe s.future (T.collection types.old) names.now payload.now (T.collection types.new) result }
    ensures grows { Grows (T.collection types.old) (T.collection types.new) }
    ensures packages { SamePackages (T.packages types.old) (T.packages types.new) }
{
    let payload = maybe_type(payload, alloc, names, types)?;
    let future = define(types, DefinedType::Future(payload))?;
    Ok(future)
}

/// The result type of a payload that is known and one that is written.
#[cycle(value)]
fn result_type<T: GrowingTypes>(
    err: &Option<Box<ast::Type<'_>>>,
    alloc: Global,
    names: &NamedMap<Binding>,
    types: &mut T,
    ok: Option<ValueType>,
) -> Outcome<ValueType>
    requires names { NamesStand (T.collection types.old) names.now }
    requires ok { StandsIf (T.collection types.old) ok }
    ensures outcome { IsResultWith ok (T.collection types.old) names.now err.now (T.collection types.new) result }
    ensures grows { Grows (T.collection types.old) (T.collection types.new) }
    ensures packages { SamePackages (T.packages types.old) (T.packages types.new) }
{
    let err = maybe_type(err, alloc, names, types)?;
    let result = define(types, DefinedType::Result { ok, err })?;
    Ok(result)
}

/// The value types of a tuple, in order.
#[cycle(value)]
fn member_types<T: GrowingTypes>(
    members: &Vec<ast::Type<'_>>,
    alloc: Global,
    names: &NamedMap<Binding>,
    types: &mut T,
) -> Outcome<Items<ValueType>>
    requires { NamesStand (T.collection types.old) names.now }
    ensures outcome { AreWritten (T.collection types.old) names.now members.now (T.collection types.new) result }
    ensures grows { Grows (T.collection types.old) (T.collection types.new) }
    ensures packages { SamePackages (T.packages types.old) (T.packages types.new) }
{
    types.types().see_acyclic();
    let mut found = Items::new(alloc);
    for member in members {
        let ty = value_type(member, alloc, names, types)?;
        found.push(ty)?;
    }
    Ok(found)
}

#[cycle(value)]
fn tuple_type<T: GrowingTypes>(
    members: &Vec<ast::Type<'_>>,
    alloc: Global,
    names: &NamedMap<Binding>,
    types: &mut T,
) -> Outcome<ValueType>
    requires { NamesStand (T.collection types.old) names.now }
    ensures outcome { IsTuple (T.collection types.old) names.now members.now (T.collection types.new) result }
    ensures grows { Grows (T.collection types.old) (T.collection types.new) }
    ensures packages { SamePackages (T.packages types.old) (T.packages types.new) }
{
    let found = member_types(members, alloc, names, types)?;
    let tuple = define(types, DefinedType::Tuple(found))?;
    Ok(tuple)
}

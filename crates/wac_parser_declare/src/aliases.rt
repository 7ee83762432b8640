//! Other names of types.
#![tactic(auto, using(crate::proofs::Standing::declarations))]

ghost use Rattle.std.specs.Prelude.{◌≡◌, IfOk, Some, option_map};
ghost use Rattle.wac_types_base.specs.declared.item.ItemKind.{ItemKind};
ghost use Rattle.wac_types_base.specs.declared.item.«Type».{«Type» as TypeKind};
ghost use Rattle.wac_types_base.specs.Collection.{Stands, Grows, SlotStands, item_node, func_entry};
ghost use Rattle.wac_parser_declare.specs.Added.{IsNewType};
ghost use Rattle.wac_parser_declare.specs.declared.aliases.Place.{Place};
ghost use Rattle.wac_parser_declare.specs.Aliases.{IsAlias, IsAliasAt, IsAliasFunc, IsAliasNamed, IsAliasOfType, IsAliasType, IsAliasValue};
ghost use Rattle.wac_parser_declare.specs.Aliases.{IsFuncAlias, IsOwner, IsResourceAlias, IsTypeAlias, IsValueAlias};
ghost use Rattle.wac_parser_declare.specs.Holding.{NamesStand};
ghost use Rattle.wac_parser_declare.specs.Packages.{SamePackages};

use crate::functions::func_type;
use crate::growing::GrowingTypes;
use crate::scope::{Binding, meaning};
use crate::value_types::{define, value_type};
use std::alloc::{AllocError, Global};
use wac_parser_refusals::{Outcome, invalid_alias_type};
use wac_parser_tree as ast;
use wac_parser_tree::{Ident, TypeAliasKind};
use wac_types_base::{
    DefinedType, FuncType, FuncTypeId, InterfaceId, ItemKind, NamedMap, Resource, ResourceAlias,
    ResourceId, Text, Type, Types, ValueType,
};

/// The interface that an alias of a resource belongs to.
fn owner_of(types: &Types, source: ResourceId) -> Option<InterfaceId>
    requires { Stands types.now (ItemKind.Ty (TypeKind.Resource source)) }
    ensures owner { IsOwner types.now source result }
    ensures stands { SlotStands types.now (option_map ItemKind.Instance result) }
{
    match types.resource(source).alias {
        Some(alias) => alias.owner,
        None => None,
    }
}

/// A resource that is another name of a resource.
fn resource_alias<T: GrowingTypes>(
    alloc: Global,
    types: &mut T,
    name: &str,
    source: ResourceId,
) -> Outcome<Type>
    requires { Stands (T.collection types.old) (ItemKind.Ty (TypeKind.Resource source)) }
    ensures outcome { IsResourceAlias (T.collection types.old) name.now source (T.collection types.new) result }
    ensures stands { IfOk result (λ t. Stands (T.collection types.new) (ItemKind.Ty t)) }
    ensures grows { Grows (T.collection types.old) (T.collection types.new) }
    ensures packages { SamePackages (T.packages types.old) (T.packages types.new) }
{
    types.types().see_acyclic();
    let owner = owner_of(types.types(), source);
    let name = String::from_str(alloc, name)?;
    let alias = Some(ResourceAlias { owner, source });
    let resource = Resource {
        name: Text::new(name),
        alias,
    };
    let id = types.add_resource(resource)?;
    Ok(Type::Resource(id))
}

/// Another name of a value type.
fn value_alias<T: GrowingTypes>(types: &mut T, ty: ValueType) -> Outcome<Type>
    requires { Stands (T.collection types.old) (ItemKind.Value ty) }
    ensures outcome { IsValueAlias (T.collection types.old) ty (T.collection types.new) result }
    ensures stands { IfOk result (λ t. Stands (T.collection types.new) (ItemKind.Ty t)) }
    ensures fresh { IfOk result (IsNewType (T.collection types.old)) }
    ensures grows { Grows (T.collection types.old) (T.collection types.new) }
    ensures packages { SamePackages (T.packages types.old) (T.packages types.new) }
{
    types.types().see_acyclic();
    let alias = define(types, DefinedType::Alias(ty))?;
    Ok(Type::Value(alias))
}

/// The same parameters again.
fn copy_params(
    alloc: Global,
    params: &NamedMap<ValueType>,
) -> Result<NamedMap<ValueType>, AllocError>
    ensures { IfOk result (λ m. m ≡ params.now) }
{
    let mut copy = NamedMap::new(alloc);
    for at in 0..params.len() {
        let (name, ty) = params.entry(at);
        copy.push(String::from_str(alloc, name)?, *ty)?;
    }
    Ok(copy)
}

/// The same function type again.
fn copy_func(alloc: Global, types: &Types, id: FuncTypeId) -> Result<FuncType, AllocError>
    requires { Stands types.now (ItemKind.Func id) }
    ensures { IfOk result (λ f. item_node types.now (ItemKind.Func id) ≡ Some (func_entry f)) }
{
    let func = types.func_type(id);
    Ok(FuncType {
        params: copy_params(alloc, &func.params)?,
        result: func.result,
        is_async: func.is_async,
    })
}

/// A function type like another.
fn func_alias<T: GrowingTypes>(alloc: Global, types: &mut T, func: FuncTypeId) -> Outcome<Type>
    requires { Stands (T.collection types.old) (ItemKind.Func func) }
    ensures outcome { IsFuncAlias (T.collection types.old) func (T.collection types.new) result }
    ensures stands { IfOk result (λ t. Stands (T.collection types.new) (ItemKind.Ty t)) }
    ensures fresh { IfOk result (IsNewType (T.collection types.old)) }
    ensures grows { Grows (T.collection types.old) (T.collection types.new) }
    ensures packages { SamePackages (T.packages types.old) (T.packages types.new) }
{
    types.types().see_acyclic();
    let copy = copy_func(alloc, types.types(), func)?;
    let id = types.add_func_type(copy)?;
    Ok(Type::Func(id))
}

/// Where a declaration of a type stands.
#[derive(Clone, Copy, Debug, PartialEq, Eq)]
pub(crate) enum Place {
    /// At the root of the document, where no resource is declared.
    Root,
    /// In the body of an interface or a world.
    Body,
}

/// Another name of a resource, which a body alone can give.
fn resource_at<T: GrowingTypes>(
    alloc: Global,
    types: &mut T,
    place: Place,
    alias: &Ident<'_>,
    source: &Ident<'_>,
    resource: ResourceId,
) -> Outcome<Type>
    requires { Stands (T.collection types.old) (ItemKind.Ty (TypeKind.Resource resource)) }
    ensures outcome { IsAliasAt place alias.now source.now resource (T.collection types.old) (T.collection types.new) result }
    ensures stands { IfOk result (λ t. Stands (T.collection types.new) (ItemKind.Ty t)) }
    ensures fresh { place ≡ Place.Root → IfOk result (IsNewType (T.collection types.old)) }
    ensures grows { Grows (T.collection types.old) (T.collection types.new) }
    ensures packages { SamePackages (T.packages types.old) (T.packages types.new) }
{
    types.types().see_acyclic();
    match place {
        Place::Body => resource_alias(alloc, types, alias.string, resource),
        Place::Root => Err(invalid_alias_type(
            alloc,
            source.string,
            Type::Resource(resource).desc(types.types()),
            source.span,
        )),
    }
}

/// Another name of a type.
fn alias_of_type<T: GrowingTypes>(
    alloc: Global,
    types: &mut T,
    place: Place,
    alias: &Ident<'_>,
    source: &Ident<'_>,
    ty: Type,
) -> Outcome<Type>
    requires { Stands (T.collection types.old) (ItemKind.Ty ty) }
    ensures outcome { IsAliasOfType place alias.now source.now ty (T.collection types.old) (T.collection types.new) result }
    ensures stands { IfOk result (λ t. Stands (T.collection types.new) (ItemKind.Ty t)) }
    ensures fresh { place ≡ Place.Root → IfOk result (IsNewType (T.collection types.old)) }
    ensures grows { Grows (T.collection types.old) (T.collection types.new) }
    ensures packages { SamePackages (T.packages types.old) (T.packages types.new) }
{
    types.types().see_acyclic();
    match ty {
        Type::Value(value) => value_alias(types, value),
        Type::Func(func) => func_alias(alloc, types, func),
        Type::Resource(resource) => resource_at(alloc, types, place, alias, source, resource),
        other => Err(invalid_alias_type(
            alloc,
            source.string,
            other.desc(types.types()),
            source.span,
        )),
    }
}

/// Another name of an item.
fn alias_of<T: GrowingTypes>(
    alloc: Global,
    types: &mut T,
    place: Place,
    alias: &Ident<'_>,
    source: &Ident<'_>,
    kind: ItemKind,
) -> Outcome<Type>
    requires { Stands (T.collection types.old) kind }
    ensures outcome { IsAlias place (T.collection types.old) alias.now source.now kind (T.collection types.new) result }
    ensures stands { IfOk result (λ t. Stands (T.collection types.new) (ItemKind.Ty t)) }
    ensures fresh { place ≡ Place.Root → IfOk result (IsNewType (T.collection types.old)) }
    ensures grows { Grows (T.collection types.old) (T.collection types.new) }
    ensures packages { SamePackages (T.packages types.old) (T.packages types.new) }
{
    types.types().see_acyclic();
    match kind {
        ItemKind::Ty(ty) => alias_of_type(alloc, types, place, alias, source, ty),
        ItemKind::Func(func) => func_alias(alloc, types, func),
        other => Err(invalid_alias_type(
            alloc,
            source.string,
            other.desc(types.types()),
            source.span,
        )),
    }
}

/// Another name of what a name means.
fn alias_named<T: GrowingTypes>(
    alloc: Global,
    names: &NamedMap<Binding>,
    types: &mut T,
    place: Place,
    alias: &Ident<'_>,
    source: &Ident<'_>,
) -> Outcome<Type>
    requires { NamesStand (T.collection types.old) names.now }
    ensures outcome { IsAliasNamed place (T.collection types.old) names.now alias.now source.now
        (T.collection types.new) result }
    ensures stands { IfOk result (λ t. Stands (T.collection types.new) (ItemKind.Ty t)) }
    ensures fresh { place ≡ Place.Root → IfOk result (IsNewType (T.collection types.old)) }
    ensures grows { Grows (T.collection types.old) (T.collection types.new) }
    ensures packages { SamePackages (T.packages types.old) (T.packages types.new) }
{
    types.types().see_acyclic();
    let binding = meaning(alloc, names, source)?;
    alias_of(alloc, types, place, alias, source, binding.kind)
}

/// A name of a type that is written.
fn alias_value<T: GrowingTypes>(
    ty: &ast::Type<'_>,
    alloc: Global,
    names: &NamedMap<Binding>,
    types: &mut T,
) -> Outcome<Type>
    requires { NamesStand (T.collection types.old) names.now }
    ensures outcome { IsAliasValue (T.collection types.old) names.now ty.now (T.collection types.new) result }
    ensures stands { IfOk result (λ t. Stands (T.collection types.new) (ItemKind.Ty t)) }
    ensures fresh { IfOk result (IsNewType (T.collection types.old)) }
    ensures grows { Grows (T.collection types.old) (T.collection types.new) }
    ensures packages { SamePackages (T.packages types.old) (T.packages types.new) }
{
    let value = value_type(ty, alloc, names, types)?;
    value_alias(types, value)
}

/// A name of a type that is written or named.
fn alias_type<T: GrowingTypes>(
    ty: &ast::Type<'_>,
    alloc: Global,
    names: &NamedMap<Binding>,
    types: &mut T,
    place: Place,
    alias: &Ident<'_>,
) -> Outcome<Type>
    requires { NamesStand (T.collection types.old) names.now }
    ensures outcome { IsAliasType place (T.collection types.old) names.now alias.now ty.now (T.collection types.new) result }
    ensures stands { IfOk result (λ t. Stands (T.collection types.new) (ItemKind.Ty t)) }
    ensures fresh { place ≡ Place.Root → IfOk result (IsNewType (T.collection types.old)) }
    ensures grows { Grows (T.collection types.old) (T.collection types.new) }
    ensures packages { SamePackages (T.packages types.old) (T.packages types.new) }
{
    match ty {
        ast::Type::Ident(source) => alias_named(alloc, names, types, place, alias, source),
        ty => alias_value(ty, alloc, names, types),
    }
}

/// A name of a function type that is written.
fn alias_func<T: GrowingTypes>(
    ty: &ast::FuncType<'_>,
    alloc: Global,
    names: &NamedMap<Binding>,
    types: &mut T,
) -> Outcome<Type>
    requires { NamesStand (T.collection types.old) names.now }
    ensures outcome { IsAliasFunc (T.collection types.old) names.now ty.now (T.collection types.new) result }
    ensures stands { IfOk result (λ t. Stands (T.collection types.new) (ItemKind.Ty t)) }
    ensures fresh { IfOk result (IsNewType (T.collection types.old)) }
    ensures grows { Grows (T.collection types.old) (T.collection types.new) }
    ensures packages { SamePackages (T.packages types.old) (T.packages types.new) }
{
    let func = func_type(ty, alloc, names, types)?;
    Ok(Type::Func(func))
}

/// The type item of an alias.
pub(crate) fn type_alias<T: GrowingTypes>(
    decl: &ast::TypeAlias<'_>,
    alloc: Global,
    names: &NamedMap<Binding>,
    types: &mut T,
    place: Place,
) -> Outcome<Type>
    requires { NamesStand (T.collection types.old) names.now }
    ensures outcome { IsTypeAlias place (T.collection types.old) names.now decl.now (T.collection types.new) result }
    ensures stands { IfOk result (λ t. Stands (T.collection types.new) (ItemKind.Ty t)) }
    ensures fresh { place ≡ Place.Root → IfOk result (IsNewType (T.collection types.old)) }
    ensures grows { Grows (T.collection types.old) (T.collection types.new) }
    ensures packages { SamePackages (T.packages types.old) (T.packages types.new) }
{
    match &decl.kind {
        TypeAliasKind::Func(ty) => alias_func(ty, alloc, names, types),
        TypeAliasKind::Ty(ty) => alias_type(ty, alloc, names, types, place, &decl.id),
    }
}

//! Declarations in a body, resources with their methods among them.
#![tactic(auto, using(crate::proofs::Standing::bodies))]

ghost use Rattle.std.specs.Prelude.{◌≡◌, IfOk, OnOk, false, is_some, string_bytes};
ghost use Rattle.wac_types_base.specs.declared.item.ItemKind.{ItemKind};
ghost use Rattle.wac_types_base.specs.declared.item.«Type».{«Type» as TypeKind};
ghost use Rattle.wac_types_base.specs.Record.{Collection};
ghost use Rattle.wac_types_base.specs.Collection.{Stands, Grows, resource};
ghost use Rattle.wac_types_base.specs.Entries.{value_at};
ghost use Rattle.wac_types_base.specs.Stated.{leaf};
ghost use Rattle.wac_parser_declare.specs.Aliases.{stated_resource};
ghost use Rattle.wac_parser_declare.specs.Bodies as stated;
ghost use Rattle.wac_parser_declare.specs.Held.{BodyStands};
ghost use Rattle.wac_parser_declare.specs.InBodies.{Constructs, Declares, FunctionStands, InBody, IsDeclared, IsFunctionAdded, IsMember, IsMethod, Members, TypeStands, is_method, signature_of};
ghost use Rattle.wac_parser_declare.specs.Packages.{SamePackages};

use crate::aliases::{Place, type_alias};
use crate::bodies::{Body, Holder, add_type};
use crate::functions::{Signature, add_new, function};
use crate::growing::GrowingTypes;
use crate::type_decls::{enum_decl, flags_decl, record_decl, variant_decl};
use std::alloc::{AllocError, Global};
use wac_parser_refusals::{Outcome, duplicate_constructor, duplicate_method};
use wac_parser_tree as ast;
use wac_parser_tree::Ident;
use wac_types_base::{
    FuncKind, FuncTypeId, ItemKind, NamedMap, Resource, ResourceId, Text, Type, ValueType,
};

/// A resource whose functions are declared.
#[derive(Clone, Copy)]
struct Owner<'a> {
    name: &'a str,
    id: ResourceId,
}

/// `[constructor]r`
fn constructor_name(alloc: Global, resource: &str) -> Result<String, AllocError>
    ensures { IfOk result (λ n. string_bytes n ≡ stated.constructor_name resource.now) }
{
    let mut name = String::from_str(alloc, "[constructor]")?;
    name.push_str(resource)?;
    Ok(name)
}

/// `[method]r.m` or `[static]r.m`
fn method_name(
    alloc: Global,
    is_static: bool,
    resource: &str,
    method: &str,
) -> Result<String, AllocError>
    ensures { IfOk result (λ n. string_bytes n ≡ stated.method_name is_static resource.now method.now) }
{
    let word = if is_static { "[static]" } else { "[method]" };
    let mut name = String::from_str(alloc, word)?;
    name.push_str(resource)?;
    name.push_str(".")?;
    name.push_str(method)?;
    Ok(name)
}

/// Adds a function of a resource under a name that is new, if its type is one.
fn add_function(
    alloc: Global,
    body: &mut Body,
    name: &str,
    declared: Outcome<FuncTypeId>,
) -> Outcome<()>
    requires { is_some (value_at body.old.items name.now) ≡ false }
    ensures outcome { IsFunctionAdded body.old name.now declared body.new result }
    ensures stands { FunctionStands body.old declared body.new result }
{
    let func = declared?;
    let _ = add_new(alloc, &mut body.items, name, ItemKind::Func(func))?;
    Ok(())
}

/// The constructor of a resource.
fn add_constructor<T: GrowingTypes>(
    decl: &ast::Constructor<'_>,
    alloc: Global,
    types: &mut T,
    owner: Owner<'_>,
    body: &mut Body,
) -> Outcome<()>
    requires body { BodyStands (T.collection types.old) body.old }
    requires owner { Stands (T.collection types.old) (ItemKind.Ty (TypeKind.Resource owner.id)) }
    ensures outcome { Constructs owner.entry decl.now (T.collection types.old) body.old
        (T.collection types.new) body.new result }
    ensures body { OnOk result (BodyStands (T.collection types.new) body.new) }
    ensures grows { Grows (T.collection types.old) (T.collection types.new) }
    ensures packages { SamePackages (T.packages types.old) (T.packages types.new) }
{
    types.types().see_acyclic();
    let name = constructor_name(alloc, owner.name)?;
    if body.items.contains(name.as_str()) {
        return Err(duplicate_constructor(alloc, owner.name, decl.span));
    }
    let signature = Signature {
        kind: FuncKind::Constructor,
        receiver: None,
        given: Some(ValueType::Own(owner.id)),
        is_async: false,
    };
    let results = ast::ResultList::Empty;
    let declared = function(&decl.params, &results, alloc, &body.names, types, signature);
    add_function(alloc, body, name.as_str(), declared)
}

/// Whether the resource has a method of this name, static or not.
fn has_method(
    alloc: Global,
    items: &NamedMap<ItemKind>,
    resource: &str,
    method: &str,
) -> Result<bool, AllocError>
    ensures { IfOk result (λ b. b ≡ is_method items.now resource.now method.now) }
{
    let of_type = method_name(alloc, true, resource, method)?;
    let of_value = method_name(alloc, false, resource, method)?;
    Ok(items.contains(of_type.as_str()) || items.contains(of_value.as_str()))
}

/// What is given of a method, static or not.
fn method_signature(decl: &ast::Method<'_>, resource: ResourceId) -> Signature
    ensures { result ≡ signature_of decl.now resource }
{
    if decl.is_static {
        Signature {
            kind: FuncKind::Static,
            receiver: None,
            given: None,
            is_async: decl.ty.is_async,
        }
    } else {
        Signature {
            kind: FuncKind::Method,
            receiver: Some(ValueType::Borrow(resource)),
            given: None,
            is_async: decl.ty.is_async,
        }
    }
}

/// A method of a resource, static or not.
fn add_method<T: GrowingTypes>(
    decl: &ast::Method<'_>,
    alloc: Global,
    types: &mut T,
    owner: Owner<'_>,
    body: &mut Body,
) -> Outcome<()>
    requires body { BodyStands (T.collection types.old) body.old }
    requires owner { Stands (T.collection types.old) (ItemKind.Ty (TypeKind.Resource owner.id)) }
    ensures outcome { IsMethod owner.entry decl.now (T.collection types.old) body.old (T.collection types.new) body.new result }
    ensures body { OnOk result (BodyStands (T.collection types.new) body.new) }
    ensures grows { Grows (T.collection types.old) (T.collection types.new) }
    ensures packages { SamePackages (T.packages types.old) (T.packages types.new) }
{
    types.types().see_acyclic();
    if has_method(alloc, &body.items, owner.name, decl.id.string)? {
        return Err(duplicate_method(alloc, decl.id.string, owner.name, decl.id.span));
    }
    let name = method_name(alloc, decl.is_static, owner.name, decl.id.string)?;
    let signature = method_signature(decl, owner.id);
    let ty = &decl.ty;
    let declared = function(
        &ty.params,
        &ty.results,
        alloc,
        &body.names,
        types,
        signature,
    );
    add_function(alloc, body, name.as_str(), declared)
}

/// One more function of a resource.
fn resource_method<T: GrowingTypes>(
    method: &ast::ResourceMethod<'_>,
    alloc: Global,
    types: &mut T,
    owner: Owner<'_>,
    body: &mut Body,
) -> Outcome<()>
    requires body { BodyStands (T.collection types.old) body.old }
    requires owner { Stands (T.collection types.old) (ItemKind.Ty (TypeKind.Resource owner.id)) }
    ensures outcome { IsMember owner.entry method.now (T.collection types.old) body.old
        (T.collection types.new) body.new result }
    ensures body { OnOk result (BodyStands (T.collection types.new) body.new) }
    ensures grows { Grows (T.collection types.old) (T.collection types.new) }
    ensures packages { SamePackages (T.packages types.old) (T.packages types.new) }
{
    match method {
        ast::ResourceMethod::Constructor(decl) => add_constructor(decl, alloc, types, owner, body),
        ast::ResourceMethod::Method(decl) => add_method(decl, alloc, types, owner, body),
    }
}

/// The functions of a resource, in order.
fn resource_methods<T: GrowingTypes>(
    methods: &Vec<ast::ResourceMethod<'_>>,
    alloc: Global,
    types: &mut T,
    owner: Owner<'_>,
    body: &mut Body,
) -> Outcome<()>
    requires body { BodyStands (T.collection types.old) body.old }
    requires owner { Stands (T.collection types.old) (ItemKind.Ty (TypeKind.Resource owner.id)) }
    ensures outcome { Members owner.entry methods.now (T.collection types.old) body.old
        (T.collection types.new) body.new result }
    ensures body { OnOk result (BodyStands (T.collection types.new) body.new) }
    ensures grows { Grows (T.collection types.old) (T.collection types.new) }
    ensures packages { SamePackages (T.packages types.old) (T.packages types.new) }
{
    types.types().see_acyclic();
    for method in methods {
        resource_method(method, alloc, types, owner, body)?;
    }
    Ok(())
}

/// Adds a resource that is no other's name.
fn new_resource<T: GrowingTypes>(
    alloc: Global,
    types: &mut T,
    name: &str,
) -> Result<ResourceId, AllocError>
    ensures stated { IfOk result (λ r. stated_resource (T.collection types.new) r ≡ leaf (resource name.now)) }
    ensures stands { IfOk result (λ r. Stands (T.collection types.new) (ItemKind.Ty (TypeKind.Resource r))) }
    ensures grows { Grows (T.collection types.old) (T.collection types.new) }
    ensures packages { SamePackages (T.packages types.old) (T.packages types.new) }
{
    types.types().see_acyclic();
    let resource = Resource {
        name: Text::new(String::from_str(alloc, name)?),
        alias: None,
    };
    types.add_resource(resource)
}

/// A resource with its functions.
fn resource_decl<T: GrowingTypes>(
    decl: &ast::ResourceDecl<'_>,
    alloc: Global,
    types: &mut T,
    holder: Holder<'_>,
    body: &mut Body,
) -> Outcome<()>
    requires body { BodyStands (T.collection types.old) body.old }
    ensures outcome { Declares holder.entry decl.now (T.collection types.old) body.old (T.collection types.new) body.new result }
    ensures body { OnOk result (BodyStands (T.collection types.new) body.new) }
    ensures grows { Grows (T.collection types.old) (T.collection types.new) }
    ensures packages { SamePackages (T.packages types.old) (T.packages types.new) }
{
    let id = new_resource(alloc, types, decl.id.string)?;
    add_type(alloc, holder, body, &decl.id, Type::Resource(id))?;
    let owner = Owner {
        name: decl.id.string,
        id,
    };
    resource_methods(&decl.methods, alloc, types, owner, body)
}

/// Adds a type that is declared, if it is one.
fn add_declared(
    alloc: Global,
    holder: Holder<'_>,
    body: &mut Body,
    id: &Ident<'_>,
    declared: Outcome<Type>,
) -> Outcome<()>
    ensures outcome { IsDeclared holder.entry body.old id.now declared body.new result }
    ensures stands { TypeStands body.old declared body.new result }
{
    let ty = declared?;
    add_type(alloc, holder, body, id, ty)
}

/// A declaration in a body.
pub(crate) fn item_type<T: GrowingTypes>(
    decl: &ast::ItemTypeDecl<'_>,
    alloc: Global,
    types: &mut T,
    holder: Holder<'_>,
    body: &mut Body,
) -> Outcome<()>
    requires body { BodyStands (T.collection types.old) body.old }
    ensures outcome { InBody holder.entry decl.now (T.collection types.old) body.old (T.collection types.new) body.new result }
    ensures body { OnOk result (BodyStands (T.collection types.new) body.new) }
    ensures grows { Grows (T.collection types.old) (T.collection types.new) }
    ensures packages { SamePackages (T.packages types.old) (T.packages types.new) }
{
    match decl {
        ast::ItemTypeDecl::Resource(decl) => resource_decl(decl, alloc, types, holder, body),
        ast::ItemTypeDecl::Variant(decl) => {
            let declared = variant_decl(decl, alloc, &body.names, types);
            add_declared(alloc, holder, body, &decl.id, declared)
        }
        ast::ItemTypeDecl::Record(decl) => {
            let declared = record_decl(decl, alloc, &body.names, types);
            add_declared(alloc, holder, body, &decl.id, declared)
        }
        ast::ItemTypeDecl::Flags(decl) => {
            let declared = flags_decl(decl, alloc, types);
            add_declared(alloc, holder, body, &decl.id, declared)
        }
        ast::ItemTypeDecl::Enum(decl) => {
            let declared = enum_decl(decl, alloc, types);
            add_declared(alloc, holder, body, &decl.id, declared)
        }
        ast::ItemTypeDecl::Alias(decl) => {
            let declared = type_alias(decl, alloc, &body.names, types, Place::Body);
            add_declared(alloc, holder, body, &decl.id, declared)
        }
    }
}

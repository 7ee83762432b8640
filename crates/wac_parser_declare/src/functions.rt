//! Function types.
#![tactic(auto, using(crate::proofs::Standing::functions))]

ghost use Rattle.std.specs.Prelude.{◌≡◌, IfOk, OnOk, OnErr};
ghost use Rattle.wac_types_base.specs.declared.item.ItemKind.{ItemKind};
ghost use Rattle.wac_types_base.specs.declared.item.«Type».{«Type» as TypeKind};
ghost use Rattle.wac_types_base.specs.Collection.{Stands, Grows, StandsIf};
ghost use Rattle.wac_parser_declare.specs.Added.{IsNew};
ghost use Rattle.wac_parser_declare.specs.Functions.{AreParams, IsFree, IsFuncNamed, IsFuncOf, IsFuncRef, IsFuncWith, IsParam, IsResultOf, IsScalar};
ghost use Rattle.wac_parser_declare.specs.Holding.{AddsNew, EachStands, NamesStand, ValueStands, self_params};
ghost use Rattle.wac_parser_declare.specs.Packages.{SamePackages};

use crate::growing::GrowingTypes;
use crate::scope::{Binding, meaning};
use crate::value_types::value_type;
use std::alloc::{AllocError, Global};
use wac_parser_refusals::{Error, Outcome, Refusal, duplicate_parameter, not_func_type};
use wac_parser_tree as ast;
use wac_parser_tree::{Ident, ResultList};
use wac_types_base::{FuncKind, FuncType, FuncTypeId, ItemKind, NamedMap, Type, Types, ValueType};

/// Adds an entry where its name is new, and says whether it was.
pub(crate) fn add_new<V: Drop>(
    alloc: Global,
    entries: &mut NamedMap<V>,
    name: &str,
    value: V,
) -> Result<bool, AllocError>
    ensures added { IfOk result (AddsNew entries.old name.now value entries.new) }
    ensures kept { OnErr result (entries.new ≡ entries.old) }
{
    if entries.contains(name) {
        return Ok(false);
    }
    let name = String::from_str(alloc, name)?;
    entries.push(name, value)?;
    Ok(true)
}

/// What is given of a function beside its parameters and results.
#[derive(Clone, Copy, Debug)]
pub(crate) struct Signature {
    /// How it is declared.
    pub kind: FuncKind,
    /// What it takes first, as `self`.
    pub receiver: Option<ValueType>,
    /// What it returns where it names nothing.
    pub given: Option<ValueType>,
    /// Whether it is async.
    pub is_async: bool,
}

/// The parameters before the declared ones.
fn first_params(
    alloc: Global,
    receiver: Option<ValueType>,
) -> Result<NamedMap<ValueType>, AllocError>
    ensures { IfOk result (λ m. m ≡ self_params receiver) }
{
    let mut params = NamedMap::new(alloc);
    if let Some(ty) = receiver {
        let name = String::from_str(alloc, "self")?;
        params.push(name, ty)?;
    }
    Ok(params)
}

/// One more parameter.
fn add_param<T: GrowingTypes>(
    param: &ast::NamedType<'_>,
    alloc: Global,
    names: &NamedMap<Binding>,
    types: &mut T,
    kind: FuncKind,
    found: &mut NamedMap<ValueType>,
) -> Outcome<()>
    requires names { NamesStand (T.collection types.old) names.now }
    requires found { EachStands (ValueStands (T.collection types.old)) found.old }
    ensures outcome { IsParam kind (T.collection types.old) names.now found.old param.now
        (T.collection types.new) found.new result }
    ensures found { OnOk result (EachStands (ValueStands (T.collection types.new)) found.new) }
    ensures grows { Grows (T.collection types.old) (T.collection types.new) }
    ensures packages { SamePackages (T.packages types.old) (T.packages types.new) }
{
    let ty = value_type(&param.ty, alloc, names, types)?;
    if add_new(alloc, found, param.id.string, ty)? {
        Ok(())
    } else {
        Err(duplicate_parameter(alloc, param.id.string, kind, param.id.span))
    }
}

/// The declared parameters, behind those that were found.
fn add_params<T: GrowingTypes>(
    params: &Vec<ast::NamedType<'_>>,
    alloc: Global,
    names: &NamedMap<Binding>,
    types: &mut T,
    kind: FuncKind,
    found: &mut NamedMap<ValueType>,
) -> Outcome<()>
    requires names { NamesStand (T.collection types.old) names.now }
    requires found { EachStands (ValueStands (T.collection types.old)) found.old }
    ensures outcome { AreParams kind (T.collection types.old) names.now found.old params.now.items
        (T.collection types.new) found.new result }
    ensures found { OnOk result (EachStands (ValueStands (T.collection types.new)) found.new) }
    ensures grows { Grows (T.collection types.old) (T.collection types.new) }
    ensures packages { SamePackages (T.packages types.old) (T.packages types.new) }
{
    types.types().see_acyclic();
    for param in params {
        add_param(param, alloc, names, types, kind, found)?;
    }
    Ok(())
}

/// A result that is no borrow.
fn scalar_result<T: GrowingTypes>(
    ty: &ast::Type<'_>,
    alloc: Global,
    names: &NamedMap<Binding>,
    types: &mut T,
) -> Outcome<Option<ValueType>>
    requires { NamesStand (T.collection types.old) names.now }
    ensures outcome { IsScalar (T.collection types.old) names.now ty.now (T.collection types.new) result }
    ensures stands { IfOk result (StandsIf (T.collection types.new)) }
    ensures grows { Grows (T.collection types.old) (T.collection types.new) }
    ensures packages { SamePackages (T.packages types.old) (T.packages types.new) }
{
    let found = value_type(ty, alloc, names, types)?;
    if found.contains_borrow(types.types()) {
        return Err(Refusal::named(alloc, Error::BorrowInResult { span: ty.span() }));
    }
    Ok(Some(found))
}

/// What a function returns.
fn result_type<T: GrowingTypes>(
    results: &ResultList<'_>,
    alloc: Global,
    names: &NamedMap<Binding>,
    types: &mut T,
    given: Option<ValueType>,
) -> Outcome<Option<ValueType>>
    requires names { NamesStand (T.collection types.old) names.now }
    requires given { StandsIf (T.collection types.old) given }
    ensures outcome { IsResultOf (T.collection types.old) names.now given results.now (T.collection types.new) result }
    ensures stands { IfOk result (StandsIf (T.collection types.new)) }
    ensures grows { Grows (T.collection types.old) (T.collection types.new) }
    ensures packages { SamePackages (T.packages types.old) (T.packages types.new) }
{
    types.types().see_acyclic();
    match results {
        ResultList::Empty => Ok(given),
        ResultList::Scalar(ty) => scalar_result(ty, alloc, names, types),
    }
}

/// The function type of these parameters and results.
pub(crate) fn function<'t, 's, T: GrowingTypes>(
    params: &'t Vec<ast::NamedType<'s>>,
    results: &'t ResultList<'s>,
    alloc: Global,
    names: &NamedMap<Binding>,
    types: &mut T,
    signature: Signature,
) -> Outcome<FuncTypeId>
    requires names { NamesStand (T.collection types.old) names.now }
    requires receiver { StandsIf (T.collection types.old) signature.receiver }
    requires given { StandsIf (T.collection types.old) signature.given }
    ensures outcome { IsFuncWith signature (T.collection types.old) names.now params.now.items results.now
        (T.collection types.new) result }
    ensures stands { IfOk result (λ f. Stands (T.collection types.new) (ItemKind.Func f)) }
    ensures fresh { IfOk result (λ f. IsNew (T.collection types.old) (ItemKind.Func f)) }
    ensures grows { Grows (T.collection types.old) (T.collection types.new) }
    ensures packages { SamePackages (T.packages types.old) (T.packages types.new) }
{
    types.types().see_acyclic();
    let mut found = first_params(alloc, signature.receiver)?;
    add_params(params, alloc, names, types, signature.kind, &mut found)?;
    let result = result_type(results, alloc, names, types, signature.given)?;
    let func = FuncType {
        params: found,
        result,
        is_async: signature.is_async,
    };
    let id = types.add_func_type(func)?;
    Ok(id)
}

/// The function type of a function that belongs to no resource.
pub fn func_type<T: GrowingTypes>(
    ty: &ast::FuncType<'_>,
    alloc: Global,
    names: &NamedMap<Binding>,
    types: &mut T,
) -> Outcome<FuncTypeId>
    requires { NamesStand (T.collection types.old) names.now }
    ensures outcome { IsFree (T.collection types.old) names.now ty.now (T.collection types.new) result }
    ensures stands { IfOk result (λ f. Stands (T.collection types.new) (ItemKind.Func f)) }
    ensures fresh { IfOk result (λ f. IsNew (T.collection types.old) (ItemKind.Func f)) }
    ensures grows { Grows (T.collection types.old) (T.collection types.new) }
    ensures packages { SamePackages (T.packages types.old) (T.packages types.new) }
{
    let signature = Signature {
        kind: FuncKind::Free,
        receiver: None,
        given: None,
        is_async: ty.is_async,
    };
    function(&ty.params, &ty.results, alloc, names, types, signature)
}

/// The function type that a type is.
fn func_of_type(alloc: Global, types: &Types, ty: Type, id: &Ident<'_>) -> Outcome<FuncTypeId>
    requires { Stands types.now (ItemKind.Ty ty) }
    ensures outcome { IsFuncOf types.now (ItemKind.Ty ty) id.now result }
    ensures stands { IfOk result (λ f. Stands types.now (ItemKind.Func f)) }
{
    types.see_acyclic();
    match ty {
        Type::Func(func) => Ok(func),
        other => Err(not_func_type(alloc, id.string, other.desc(types), id.span)),
    }
}

/// The function type that an item is, or is the type of.
fn func_of(alloc: Global, types: &Types, kind: ItemKind, id: &Ident<'_>) -> Outcome<FuncTypeId>
    requires { Stands types.now kind }
    ensures outcome { IsFuncOf types.now kind id.now result }
    ensures stands { IfOk result (λ f. Stands types.now (ItemKind.Func f)) }
{
    types.see_acyclic();
    match kind {
        ItemKind::Ty(ty) => func_of_type(alloc, types, ty, id),
        ItemKind::Func(func) => Ok(func),
        other => Err(not_func_type(alloc, id.string, other.desc(types), id.span)),
    }
}

/// The function type of a name.
fn func_named(
    alloc: Global,
    names: &NamedMap<Binding>,
    types: &Types,
    id: &Ident<'_>,
) -> Outcome<FuncTypeId>
    requires { NamesStand types.now names.now }
    ensures outcome { IsFuncNamed types.now names.now id.now result }
    ensures stands { IfOk result (λ f. Stands types.now (ItemKind.Func f)) }
{
    let binding = meaning(alloc, names, id)?;
    func_of(alloc, types, binding.kind, id)
}

/// The function type that is written or named.
pub fn func_type_ref<T: GrowingTypes>(
    ty: &ast::FuncTypeRef<'_>,
    alloc: Global,
    names: &NamedMap<Binding>,
    types: &mut T,
) -> Outcome<FuncTypeId>
    requires { NamesStand (T.collection types.old) names.now }
    ensures outcome { IsFuncRef (T.collection types.old) names.now ty.now (T.collection types.new) result }
    ensures stands { IfOk result (λ f. Stands (T.collection types.new) (ItemKind.Func f)) }
    ensures grows { Grows (T.collection types.old) (T.collection types.new) }
    ensures packages { SamePackages (T.packages types.old) (T.packages types.new) }
{
    types.types().see_acyclic();
    match ty {
        ast::FuncTypeRef::Func(ty) => func_type(ty, alloc, names, types),
        ast::FuncTypeRef::Ident(id) => func_named(alloc, names, types.types(), id),
    }
}

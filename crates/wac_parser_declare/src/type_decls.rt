//! Declarations of types.
#![tactic(auto, using(crate::proofs::Standing::declarations))]

ghost use Rattle.std.specs.Prelude.{◌≡◌, IfOk, OnOk};
ghost use Rattle.wac_types_base.specs.declared.item.ItemKind.{ItemKind};
ghost use Rattle.wac_types_base.specs.Collection.{Stands, Grows, StandsIf};
ghost use Rattle.wac_parser_declare.specs.Added.{IsNewType};
ghost use Rattle.wac_parser_declare.specs.Aliases.{IsTypeDecl};
ghost use Rattle.wac_parser_declare.specs.Holding.{EachStands, NamesStand, ValueStands};
ghost use Rattle.wac_parser_declare.specs.Packages.{SamePackages};
ghost use Rattle.wac_parser_declare.specs.TypeDeclarations.{AreCasesOf, AreEnumCasesOf, AreFieldsOf, AreFlags, AreFlagsOf, IsCase, IsEnum, IsEnumCase, IsField, IsFlag, IsPayload, IsRecord, IsVariant};

use crate::aliases::{Place, type_alias};
use crate::functions::add_new;
use crate::growing::GrowingTypes;
use crate::scope::Binding;
use crate::value_types::{define, value_type};
use std::alloc::Global;
use wac_parser_refusals::{
    Outcome, duplicate_case, duplicate_enum_case, duplicate_field, duplicate_flag,
};
use wac_parser_tree as ast;
use wac_types_base::{DefinedType, Enum, Flags, NamedMap, Names, Record, Type, ValueType, Variant};

/// The type of a case, if it has one.
fn case_type<T: GrowingTypes>(
    ty: &Option<ast::Type<'_>>,
    alloc: Global,
    names: &NamedMap<Binding>,
    types: &mut T,
) -> Outcome<Option<ValueType>>
    requires { NamesStand (T.collection types.old) names.now }
    ensures outcome { IsPayload (T.collection types.old) names.now ty.now (T.collection types.new) result }
    ensures stands { IfOk result (StandsIf (T.collection types.new)) }
    ensures grows { Grows (T.collection types.old) (T.collection types.new) }
    ensures packages { SamePackages (T.packages types.old) (T.packages types.new) }
{
    types.types().see_acyclic();
    match ty {
        Some(ty) => {
            let found = value_type(ty, alloc, names, types)?;
            Ok(Some(found))
        }
        None => Ok(None),
    }
}

/// One more case of a variant.
fn add_case<T: GrowingTypes>(
    case: &ast::VariantCase<'_>,
    alloc: Global,
    names: &NamedMap<Binding>,
    types: &mut T,
    variant: &str,
    found: &mut NamedMap<Option<ValueType>>,
) -> Outcome<()>
    requires names { NamesStand (T.collection types.old) names.now }
    requires found { EachStands (StandsIf (T.collection types.old)) found.old }
    ensures outcome { IsCase variant.now (T.collection types.old) names.now found.old case.now
        (T.collection types.new) found.new result }
    ensures found { OnOk result (EachStands (StandsIf (T.collection types.new)) found.new) }
    ensures grows { Grows (T.collection types.old) (T.collection types.new) }
    ensures packages { SamePackages (T.packages types.old) (T.packages types.new) }
{
    let ty = case_type(&case.ty, alloc, names, types)?;
    if add_new(alloc, found, case.id.string, ty)? {
        Ok(())
    } else {
        Err(duplicate_case(alloc, case.id.string, variant, case.id.span))
    }
}

/// The cases of a variant.
fn cases<T: GrowingTypes>(
    decl: &ast::VariantDecl<'_>,
    alloc: Global,
    names: &NamedMap<Binding>,
    types: &mut T,
) -> Outcome<NamedMap<Option<ValueType>>>
    requires { NamesStand (T.collection types.old) names.now }
    ensures outcome { AreCasesOf (T.collection types.old) names.now decl.now (T.collection types.new) result }
    ensures stand { IfOk result (EachStands (StandsIf (T.collection types.new))) }
    ensures grows { Grows (T.collection types.old) (T.collection types.new) }
    ensures packages { SamePackages (T.packages types.old) (T.packages types.new) }
{
    types.types().see_acyclic();
    let mut found = NamedMap::new(alloc);
    for case in &decl.cases {
        add_case(case, alloc, names, types, decl.id.string, &mut found)?;
    }
    Ok(found)
}

/// The type of a variant.
pub(crate) fn variant_decl<T: GrowingTypes>(
    decl: &ast::VariantDecl<'_>,
    alloc: Global,
    names: &NamedMap<Binding>,
    types: &mut T,
) -> Outcome<Type>
    requires { NamesStand (T.collection types.old) names.now }
    ensures outcome { IsVariant (T.collection types.old) names.now decl.now (T.collection types.new) result }
    ensures stands { IfOk result (λ t. Stands (T.collection types.new) (ItemKind.Ty t)) }
    ensures fresh { IfOk result (IsNewType (T.collection types.old)) }
    ensures grows { Grows (T.collection types.old) (T.collection types.new) }
    ensures packages { SamePackages (T.packages types.old) (T.packages types.new) }
{
    let cases = cases(decl, alloc, names, types)?;
    let ty = define(types, DefinedType::Variant(Variant { cases }))?;
    Ok(Type::Value(ty))
}

/// One more field of a record.
fn add_field<T: GrowingTypes>(
    field: &ast::Field<'_>,
    alloc: Global,
    names: &NamedMap<Binding>,
    types: &mut T,
    record_name: &str,
    found: &mut NamedMap<ValueType>,
) -> Outcome<()>
    requires names { NamesStand (T.collection types.old) names.now }
    requires found { EachStands (ValueStands (T.collection types.old)) found.old }
    ensures outcome { IsField record_name.now (T.collection types.old) names.now found.old field.now
        (T.collection types.new) found.new result }
    ensures found { OnOk result (EachStands (ValueStands (T.collection types.new)) found.new) }
    ensures grows { Grows (T.collection types.old) (T.collection types.new) }
    ensures packages { SamePackages (T.packages types.old) (T.packages types.new) }
{
    let ty = value_type(&field.ty, alloc, names, types)?;
    if add_new(alloc, found, field.id.string, ty)? {
        Ok(())
    } else {
        Err(duplicate_field(alloc, field.id.string, record_name, field.id.span))
    }
}

/// The fields of a record.
fn fields<T: GrowingTypes>(
    decl: &ast::RecordDecl<'_>,
    alloc: Global,
    names: &NamedMap<Binding>,
    types: &mut T,
) -> Outcome<NamedMap<ValueType>>
    requires { NamesStand (T.collection types.old) names.now }
    ensures outcome { AreFieldsOf (T.collection types.old) names.now decl.now (T.collection types.new) result }
    ensures stand { IfOk result (EachStands (ValueStands (T.collection types.new))) }
    ensures grows { Grows (T.collection types.old) (T.collection types.new) }
    ensures packages { SamePackages (T.packages types.old) (T.packages types.new) }
{
    types.types().see_acyclic();
    let mut found = NamedMap::new(alloc);
    for field in &decl.fields {
        add_field(field, alloc, names, types, decl.id.string, &mut found)?;
    }
    Ok(found)
}

/// The type of a record.
pub(crate) fn record_decl<T: GrowingTypes>(
    decl: &ast::RecordDecl<'_>,
    alloc: Global,
    names: &NamedMap<Binding>,
    types: &mut T,
) -> Outcome<Type>
    requires { NamesStand (T.collection types.old) names.now }
    ensures outcome { IsRecord (T.collection types.old) names.now decl.now (T.collection types.new) result }
    ensures stands { IfOk result (λ t. Stands (T.collection types.new) (ItemKind.Ty t)) }
    ensures fresh { IfOk result (IsNewType (T.collection types.old)) }
    ensures grows { Grows (T.collection types.old) (T.collection types.new) }
    ensures packages { SamePackages (T.packages types.old) (T.packages types.new) }
{
    let fields = fields(decl, alloc, names, types)?;
    let ty = define(types, DefinedType::Record(Record { fields }))?;
    Ok(Type::Value(ty))
}

/// One more flag.
fn add_flag(flag: &ast::Flag<'_>, alloc: Global, flags: &str, found: &mut Names) -> Outcome<()>
    ensures { IsFlag flags.now found.old flag.now found.new result }
{
    let name = String::from_str(alloc, flag.id.string)?;
    if found.insert(name)? {
        Ok(())
    } else {
        Err(duplicate_flag(alloc, flag.id.string, flags, flag.id.span))
    }
}

/// The flags of a declaration.
fn flags(decl: &ast::FlagsDecl<'_>, alloc: Global) -> Outcome<Names>
    ensures { AreFlagsOf decl.now result }
{
    let mut found = Names::new(alloc);
    for flag in &decl.flags {
        add_flag(flag, alloc, decl.id.string, &mut found)?;
    }
    Ok(found)
}

/// The type of flags.
pub(crate) fn flags_decl<T: GrowingTypes>(
    decl: &ast::FlagsDecl<'_>,
    alloc: Global,
    types: &mut T,
) -> Outcome<Type>
    ensures outcome { AreFlags decl.now (T.collection types.new) result }
    ensures stands { IfOk result (λ t. Stands (T.collection types.new) (ItemKind.Ty t)) }
    ensures fresh { IfOk result (IsNewType (T.collection types.old)) }
    ensures grows { Grows (T.collection types.old) (T.collection types.new) }
    ensures packages { SamePackages (T.packages types.old) (T.packages types.new) }
{
    types.types().see_acyclic();
    let flags = flags(decl, alloc)?;
    let ty = define(types, DefinedType::Flags(Flags(flags)))?;
    Ok(Type::Value(ty))
}

/// One more case of an enum.
fn add_enum_case(
    case: &ast::EnumCase<'_>,
    alloc: Global,
    ty: &str,
    found: &mut Names,
) -> Outcome<()>
    ensures { IsEnumCase ty.now found.old case.now found.new result }
{
    let name = String::from_str(alloc, case.id.string)?;
    if found.insert(name)? {
        Ok(())
    } else {
        Err(duplicate_enum_case(alloc, case.id.string, ty, case.id.span))
    }
}

/// The cases of an enum.
fn enum_cases(decl: &ast::EnumDecl<'_>, alloc: Global) -> Outcome<Names>
    ensures { AreEnumCasesOf decl.now result }
{
    let mut found = Names::new(alloc);
    for case in &decl.cases {
        add_enum_case(case, alloc, decl.id.string, &mut found)?;
    }
    Ok(found)
}

/// The type of an enum.
pub(crate) fn enum_decl<T: GrowingTypes>(
    decl: &ast::EnumDecl<'_>,
    alloc: Global,
    types: &mut T,
) -> Outcome<Type>
    ensures outcome { IsEnum decl.now (T.collection types.new) result }
    ensures stands { IfOk result (λ t. Stands (T.collection types.new) (ItemKind.Ty t)) }
    ensures fresh { IfOk result (IsNewType (T.collection types.old)) }
    ensures grows { Grows (T.collection types.old) (T.collection types.new) }
    ensures packages { SamePackages (T.packages types.old) (T.packages types.new) }
{
    types.types().see_acyclic();
    let cases = enum_cases(decl, alloc)?;
    let ty = define(types, DefinedType::Enum(Enum(cases)))?;
    Ok(Type::Value(ty))
}

/// The type item of a declaration at the root.
pub(crate) fn type_decl<T: GrowingTypes>(
    decl: &ast::TypeDecl<'_>,
    alloc: Global,
    names: &NamedMap<Binding>,
    types: &mut T,
) -> Outcome<Type>
    requires { NamesStand (T.collection types.old) names.now }
    ensures outcome { IsTypeDecl (T.collection types.old) names.now decl.now (T.collection types.new) result }
    ensures stands { IfOk result (λ t. Stands (T.collection types.new) (ItemKind.Ty t)) }
    ensures fresh { IfOk result (IsNewType (T.collection types.old)) }
    ensures grows { Grows (T.collection types.old) (T.collection types.new) }
    ensures packages { SamePackages (T.packages types.old) (T.packages types.new) }
{
    match decl {
        ast::TypeDecl::Variant(decl) => variant_decl(decl, alloc, names, types),
        ast::TypeDecl::Record(decl) => record_decl(decl, alloc, names, types),
        ast::TypeDecl::Flags(decl) => flags_decl(decl, alloc, types),
        ast::TypeDecl::Enum(decl) => enum_decl(decl, alloc, types),
        ast::TypeDecl::Alias(decl) => type_alias(decl, alloc, names, types, Place::Root),
    }
}

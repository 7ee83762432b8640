//! Refusals with their names.

ghost use Rattle.std.specs.Prelude.{◌≡◌, IfOk, is_some, option_map, string_bytes};
ghost use Rattle.wac_parser_refusals.specs.Causes as fault;
ghost use Rattle.wac_parser_refusals.specs.Outcomes.{Refuses};
ghost use Rattle.wac_parser_refusals.specs.Views.{Names, anywhere};

use crate::error::Error;
use crate::refusal::Refusal;
use std::alloc::{AllocError, Global};
use wac_parser_lexer::SourceSpan;
use wac_types_base::{ExternKind, FuncKind};

/// A refusal of a name that is not there.
pub fn undefined_name(alloc: Global, name: &str, span: SourceSpan) -> Refusal
    ensures { Refuses result (fault.UndefinedName name.now) span }
{
    match String::from_str(alloc, name) {
        Ok(name) => Refusal::named(alloc, Error::UndefinedName { name, span }),
        Err(AllocError) => Refusal::Memory,
    }
}

/// A refusal of what is no value type.
pub fn not_value_type(alloc: Global, name: &str, kind: &'static str, span: SourceSpan) -> Refusal
    ensures { Refuses result (fault.NotValueType name.now kind.now) span }
{
    match String::from_str(alloc, name) {
        Ok(name) => Refusal::named(alloc, Error::NotValueType { name, kind, span }),
        Err(AllocError) => Refusal::Memory,
    }
}

/// A refusal of what is no resource type.
pub fn not_resource_type(alloc: Global, name: &str, kind: &'static str, span: SourceSpan) -> Refusal
    ensures { Refuses result (fault.NotResourceType name.now kind.now) span }
{
    match String::from_str(alloc, name) {
        Ok(name) => Refusal::named(alloc, Error::NotResourceType { name, kind, span }),
        Err(AllocError) => Refusal::Memory,
    }
}

/// A refusal of what is no function type.
pub fn not_func_type(alloc: Global, name: &str, kind: &'static str, span: SourceSpan) -> Refusal
    ensures { Refuses result (fault.NotFuncType name.now kind.now) span }
{
    match String::from_str(alloc, name) {
        Ok(name) => Refusal::named(alloc, Error::NotFuncType { name, kind, span }),
        Err(AllocError) => Refusal::Memory,
    }
}

/// A refusal of what cannot be aliased.
pub fn invalid_alias_type(
    alloc: Global,
    name: &str,
    kind: &'static str,
    span: SourceSpan,
) -> Refusal
    ensures { Refuses result (fault.InvalidAliasType name.now kind.now) span }
{
    match String::from_str(alloc, name) {
        Ok(name) => Refusal::named(alloc, Error::InvalidAliasType { name, kind, span }),
        Err(AllocError) => Refusal::Memory,
    }
}

/// A refusal of a second parameter of a name.
pub fn duplicate_parameter(alloc: Global, name: &str, kind: FuncKind, span: SourceSpan) -> Refusal
    ensures { Refuses result (fault.DuplicateParameter name.now kind) span }
{
    match String::from_str(alloc, name) {
        Ok(name) => Refusal::named(alloc, Error::DuplicateParameter { name, kind, span }),
        Err(AllocError) => Refusal::Memory,
    }
}

/// The name of a member, and that of its type.
fn two_names(alloc: Global, member: &str, ty: &str) -> Result<(String, String), AllocError>
    ensures { IfOk result (λ r. (string_bytes r.0 ≡ member.now) × (string_bytes r.1 ≡ ty.now)) }
{
    Ok((
        String::from_str(alloc, member)?,
        String::from_str(alloc, ty)?,
    ))
}

/// A refusal of a second case of a variant under a name.
pub fn duplicate_case(alloc: Global, name: &str, ty: &str, span: SourceSpan) -> Refusal
    ensures { Refuses result (fault.DuplicateVariantCase name.now ty.now) span }
{
    match two_names(alloc, name, ty) {
        Ok((case, name)) => Refusal::named(alloc, Error::DuplicateVariantCase { case, name, span }),
        Err(AllocError) => Refusal::Memory,
    }
}

/// A refusal of a second field of a record under a name.
pub fn duplicate_field(alloc: Global, name: &str, ty: &str, span: SourceSpan) -> Refusal
    ensures { Refuses result (fault.DuplicateRecordField name.now ty.now) span }
{
    match two_names(alloc, name, ty) {
        Ok((field, name)) => Refusal::named(
            alloc,
            Error::DuplicateRecordField { field, name, span },
        ),
        Err(AllocError) => Refusal::Memory,
    }
}

/// A refusal of a second case of an enum under a name.
pub fn duplicate_enum_case(alloc: Global, name: &str, ty: &str, span: SourceSpan) -> Refusal
    ensures { Refuses result (fault.DuplicateEnumCase name.now ty.now) span }
{
    match two_names(alloc, name, ty) {
        Ok((case, name)) => Refusal::named(alloc, Error::DuplicateEnumCase { case, name, span }),
        Err(AllocError) => Refusal::Memory,
    }
}

/// A refusal of a second flag of a name.
pub fn duplicate_flag(alloc: Global, name: &str, ty: &str, span: SourceSpan) -> Refusal
    ensures { Refuses result (fault.DuplicateFlag name.now ty.now) span }
{
    match two_names(alloc, name, ty) {
        Ok((flag, name)) => Refusal::named(alloc, Error::DuplicateFlag { flag, name, span }),
        Err(AllocError) => Refusal::Memory,
    }
}

/// A refusal of a name that is defined before.
pub fn duplicate_name(alloc: Global, name: &str, span: SourceSpan, previous: SourceSpan) -> Refusal
    ensures { Refuses result (fault.DuplicateName name.now previous) span }
{
    match String::from_str(alloc, name) {
        Ok(name) => Refusal::named(
            alloc,
            Error::DuplicateName {
                name,
                span,
                previous,
            },
        ),
        Err(AllocError) => Refusal::Memory,
    }
}

/// A refusal of a package that nobody knows.
pub fn unknown_package(alloc: Global, name: &str, span: SourceSpan) -> Refusal
    ensures { Refuses result (fault.UnknownPackage name.now) span }
{
    match String::from_str(alloc, name) {
        Ok(name) => Refusal::named(alloc, Error::UnknownPackage { name, span }),
        Err(AllocError) => Refusal::Memory,
    }
}

/// A refusal of what is no world.
pub fn not_world(alloc: Global, name: &str, kind: &'static str, span: SourceSpan) -> Refusal
    ensures { Refuses result (fault.NotWorld name.now kind.now) span }
{
    match String::from_str(alloc, name) {
        Ok(name) => Refusal::named(alloc, Error::NotWorld { name, kind, span }),
        Err(AllocError) => Refusal::Memory,
    }
}

/// A refusal of what is no interface.
pub fn not_interface(alloc: Global, name: &str, kind: &'static str, span: SourceSpan) -> Refusal
    ensures { Refuses result (fault.NotInterface name.now kind.now) span }
{
    match String::from_str(alloc, name) {
        Ok(name) => Refusal::named(alloc, Error::NotInterface { name, kind, span }),
        Err(AllocError) => Refusal::Memory,
    }
}

/// A refusal of what is neither a function type nor an interface.
pub fn not_func_or_interface(
    alloc: Global,
    name: &str,
    kind: &'static str,
    span: SourceSpan,
) -> Refusal
    ensures { Refuses result (fault.NotFuncOrInterface name.now kind.now) span }
{
    match String::from_str(alloc, name) {
        Ok(name) => Refusal::named(alloc, Error::NotFuncOrInterface { name, kind, span }),
        Err(AllocError) => Refusal::Memory,
    }
}

/// A refusal of a type that has no written form.
pub fn unwritable(alloc: Global, name: &str) -> Refusal
    ensures { Names result (anywhere (fault.TypeCannotBeWritten name.now)) }
{
    match String::from_str(alloc, name) {
        Ok(name) => Refusal::named(alloc, Error::TypeCannotBeWritten { name }),
        Err(AllocError) => Refusal::Memory,
    }
}

/// A refusal of a type that its interface lacks.
pub fn undefined_type(alloc: Global, name: &str, interface: &str, span: SourceSpan) -> Refusal
    ensures { Refuses result (fault.UndefinedInterfaceType name.now interface.now) span }
{
    match two_names(alloc, name, interface) {
        Ok((name, interface_name)) => Refusal::named(
            alloc,
            Error::UndefinedInterfaceType {
                name,
                interface_name,
                span,
            },
        ),
        Err(AllocError) => Refusal::Memory,
    }
}

/// A refusal of a use of what is no value type of its interface.
pub fn not_used_type(
    alloc: Global,
    name: &str,
    kind: &'static str,
    interface: &str,
    span: SourceSpan,
) -> Refusal
    ensures { Refuses result (fault.NotInterfaceValueType name.now kind.now interface.now) span }
{
    match two_names(alloc, name, interface) {
        Ok((name, interface_name)) => Refusal::named(
            alloc,
            Error::NotInterfaceValueType {
                name,
                kind,
                interface_name,
                span,
            },
        ),
        Err(AllocError) => Refusal::Memory,
    }
}

/// A refusal of a used type under the name of another item.
pub fn use_conflict(
    alloc: Global,
    name: &str,
    kind: ExternKind,
    help: Option<&'static str>,
    span: SourceSpan,
) -> Refusal
    ensures { Refuses result (fault.UseConflict name.now kind (is_some help.entry)) span }
{
    match String::from_str(alloc, name) {
        Ok(name) => Refusal::named(
            alloc,
            Error::UseConflict {
                name,
                kind,
                span,
                help,
            },
        ),
        Err(AllocError) => Refusal::Memory,
    }
}

/// The name of an export, and that of its interface, if it has one.
fn export_names(
    alloc: Global,
    export: &str,
    interface: Option<&str>,
) -> Result<(String, Option<String>), AllocError>
    ensures export { IfOk result (λ r. string_bytes r.0 ≡ export.now) }
    ensures interface { IfOk result (λ r. option_map string_bytes r.1 ≡ option_map (λ n. n.now) interface.entry) }
{
    let export = String::from_str(alloc, export)?;
    match interface {
        Some(interface) => Ok((export, Some(String::from_str(alloc, interface)?))),
        None => Ok((export, None)),
    }
}

/// A refusal of a second export of an interface under a name.
pub fn duplicate_export(
    alloc: Global,
    name: &str,
    interface: Option<&str>,
    span: SourceSpan,
) -> Refusal
    ensures { Refuses result (fault.DuplicateInterfaceExport name.now (option_map (λ n. n.now) interface.entry)) span }
{
    match export_names(alloc, name, interface) {
        Ok((name, interface_name)) => Refusal::named(
            alloc,
            Error::DuplicateInterfaceExport {
                name,
                interface_name,
                span,
            },
        ),
        Err(AllocError) => Refusal::Memory,
    }
}

/// A refusal of a second import, or a second export, of a world under a name.
pub fn duplicate_world_item(
    alloc: Global,
    kind: ExternKind,
    name: &str,
    world: &str,
    span: SourceSpan,
) -> Refusal
    ensures { Refuses result (fault.DuplicateWorldItem kind name.now world.now) span }
{
    match two_names(alloc, name, world) {
        Ok((name, world)) => Refusal::named(
            alloc,
            Error::DuplicateWorldItem {
                kind,
                name,
                world,
                span,
            },
        ),
        Err(AllocError) => Refusal::Memory,
    }
}

/// A refusal of a second constructor of a resource.
pub fn duplicate_constructor(alloc: Global, resource: &str, span: SourceSpan) -> Refusal
    ensures { Refuses result (fault.DuplicateResourceConstructor resource.now) span }
{
    match String::from_str(alloc, resource) {
        Ok(resource) => Refusal::named(
            alloc,
            Error::DuplicateResourceConstructor { resource, span },
        ),
        Err(AllocError) => Refusal::Memory,
    }
}

/// A refusal of a second method of a resource under a name.
pub fn duplicate_method(alloc: Global, name: &str, resource: &str, span: SourceSpan) -> Refusal
    ensures { Refuses result (fault.DuplicateResourceMethod name.now resource.now) span }
{
    match two_names(alloc, name, resource) {
        Ok((name, resource)) => Refusal::named(
            alloc,
            Error::DuplicateResourceMethod {
                name,
                resource,
                span,
            },
        ),
        Err(AllocError) => Refusal::Memory,
    }
}

/// A refusal of a name that stands twice in a `with` clause.
pub fn duplicate_with_name(alloc: Global, name: &str, span: SourceSpan) -> Refusal
    ensures { Refuses result (fault.DuplicateWorldIncludeName name.now) span }
{
    match String::from_str(alloc, name) {
        Ok(name) => Refusal::named(alloc, Error::DuplicateWorldIncludeName { name, span }),
        Err(AllocError) => Refusal::Memory,
    }
}

/// A refusal of a name of a `with` clause that the world lacks.
pub fn missing_with_name(alloc: Global, world: &str, name: &str, span: SourceSpan) -> Refusal
    ensures { Refuses result (fault.MissingWorldInclude world.now name.now) span }
{
    match two_names(alloc, world, name) {
        Ok((world, name)) => Refusal::named(
            alloc,
            Error::MissingWorldInclude { world, name, span },
        ),
        Err(AllocError) => Refusal::Memory,
    }
}

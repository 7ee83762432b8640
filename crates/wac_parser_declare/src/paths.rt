//! What paths name.
#![tactic(auto, using(crate::proofs::Standing::paths))]

ghost use Rattle.std.specs.Prelude.{◌≡◌, IfOk, IfSome, None};
ghost use Rattle.std.specs.Option.{option_copied};
ghost use Rattle.wac_types_base.specs.declared.item.ItemKind.{ItemKind};
ghost use Rattle.wac_types_base.specs.declared.item.«Type».{«Type» as TypeKind};
ghost use Rattle.wac_types_base.specs.declared.ids.WorldId.{WorldId as WorldKey};
ghost use Rattle.wac_types_base.specs.Collection.{Stands, Grows};
ghost use Rattle.wac_parser_refusals.specs.Causes as fault;
ghost use Rattle.wac_parser_refusals.specs.Outcomes.{Refuses};
ghost use Rattle.wac_parser_declare.specs.Held.{text_if};
ghost use Rattle.wac_parser_declare.specs.Holding.{NamesStand, ItemsStand};
ghost use Rattle.wac_parser_declare.specs.InPaths.{IsForeignExport, IsForeignPath, IsForeignRest, IsInterfaceAt, IsOwnExport, IsOwnPath, IsOwnRest};
ghost use Rattle.wac_parser_declare.specs.InPaths.{IsPathInterface, IsPathItem, IsWorldAt, IsWorldIn, IsWorldOf};
ghost use Rattle.wac_parser_declare.specs.InUses.{AreExports, IsExport, IsInterfaceOf, IsInterfaceType, IsItemNamed, IsRootInterface};
ghost use Rattle.wac_parser_declare.specs.Packages.{SamePackages};

use crate::growing::PackagedTypes;
use crate::scope::{Binding, Context, meaning};
use std::alloc::{AllocError, Global};
use wac_parser_lexer::SourceSpan;
use wac_parser_refusals::{Error, Outcome, Refusal, not_interface, not_world, undefined_name};
use wac_parser_tree::{Ident, PackagePath, SegmentSpans, UsePath, WorldRef};
use wac_types_base::{InterfaceId, ItemKind, NamedMap, Type, Types, WorldId};

/// The exports of a type, where it can have some.
fn type_exports(types: &Types, ty: Type) -> Option<&NamedMap<ItemKind>>
    requires { Stands types.now (ItemKind.Ty ty) }
    ensures exports { AreExports types.now (ItemKind.Ty ty) (option_copied result) }
    ensures stand { IfSome result (λ es. ItemsStand types.now es.now) }
{
    types.see_acyclic();
    match ty {
        Type::Interface(id) => Some(&types.interface(id).exports),
        Type::World(id) => Some(&types.world(id).exports),
        _other => None,
    }
}

/// The exports of an item, where it can have some.
fn exports_of(types: &Types, kind: ItemKind) -> Option<&NamedMap<ItemKind>>
    requires { Stands types.now kind }
    ensures exports { AreExports types.now kind (option_copied result) }
    ensures stand { IfSome result (λ es. ItemsStand types.now es.now) }
{
    types.see_acyclic();
    match kind {
        ItemKind::Ty(ty) => type_exports(types, ty),
        ItemKind::Instance(id) => Some(&types.interface(id).exports),
        ItemKind::Component(id) => Some(&types.world(id).exports),
        _other => None,
    }
}

/// An export of an item.
pub(crate) fn export_of(types: &Types, kind: ItemKind, name: &str) -> Option<ItemKind>
    requires { Stands types.now kind }
    ensures export { IsExport types.now kind name.now result }
    ensures stands { IfSome result (Stands types.now) }
{
    let exports = exports_of(types, kind)?;
    match exports.get(name) {
        Some(item) => Some(*item),
        None => None,
    }
}

/// The refusal of an export that an item of the document's own package lacks.
fn own_missing(
    alloc: Global,
    parent: &str,
    kind: &'static str,
    export: &str,
    span: SourceSpan,
) -> Refusal
    ensures { Refuses result (fault.PackagePathMissingExport parent.now kind.now export.now) span }
{
    let name = match String::from_str(alloc, parent) {
        Ok(name) => name,
        Err(AllocError) => return Refusal::Memory,
    };
    let export = match String::from_str(alloc, export) {
        Ok(export) => export,
        Err(AllocError) => return Refusal::Memory,
    };
    let error = Error::PackagePathMissingExport {
        name,
        kind,
        export,
        span,
    };
    Refusal::named(alloc, error)
}

/// The export that a further segment names.
fn own_step(
    alloc: Global,
    types: &Types,
    parent: &str,
    kind: ItemKind,
    segment: &str,
    span: SourceSpan,
) -> Outcome<ItemKind>
    requires { Stands types.now kind }
    ensures outcome { IsOwnExport types.now parent.now kind (segment.now, span) result }
    ensures stands { IfOk result (Stands types.now) }
{
    types.see_acyclic();
    match export_of(types, kind, segment) {
        Some(next) => Ok(next),
        None => Err(own_missing(alloc, parent, kind.desc(types), segment, span)),
    }
}

/// The item that a name means.
fn item_named(
    alloc: Global,
    types: &Types,
    names: &NamedMap<Binding>,
    id: &Ident<'_>,
) -> Outcome<ItemKind>
    requires { NamesStand types.now names.now }
    ensures outcome { IsItemNamed types.now names.now id.now types.now result }
    ensures stands { IfOk result (Stands types.now) }
{
    types.see_acyclic();
    let binding = meaning(alloc, names, id)?;
    Ok(binding.kind)
}

/// The item to which the further segments of a path lead, each an export of the item before.
fn own_rest<'a>(
    segments: SegmentSpans<'a>,
    alloc: Global,
    types: &Types,
    first: &'a str,
    kind: ItemKind,
) -> Outcome<ItemKind>
    requires { Stands types.now kind }
    ensures outcome { IsOwnRest types.now first.now kind segments.entry result }
    ensures stands { IfOk result (Stands types.now) }
{
    let mut kind = kind;
    let mut parent = first;
    for (segment, span) in segments {
        kind = own_step(alloc, types, parent, kind, segment, span)?;
        parent = segment;
    }
    Ok(kind)
}

/// The item that a path of the document's own package names.
fn own_path(
    path: &PackagePath<'_>,
    alloc: Global,
    context: Context<'_>,
    types: &Types,
) -> Outcome<ItemKind>
    requires { NamesStand types.now context.root.now }
    ensures outcome { IsOwnPath path.now context.entry types.now result }
    ensures stands { IfOk result (Stands types.now) }
{
    let mut segments = path.segment_spans();
    let Some((string, span)) = segments.next() else {
        return Err(undefined_name(alloc, path.string, path.span));
    };
    let kind = item_named(alloc, types, context.root, &Ident { string, span })?;
    own_rest(segments, alloc, types, string, kind)
}

/// A path as a name.
fn whole_path<'a>(path: &PackagePath<'a>) -> Ident<'a>
    ensures string { result.string.now ≡ path.now.string.now }
    ensures span { result.span ≡ path.now.span }
{
    Ident {
        string: path.string,
        span: path.span,
    }
}

/// The refusal of an export that a package lacks, or an item in it.
fn foreign_missing(
    path: &PackagePath<'_>,
    alloc: Global,
    kind: Option<&'static str>,
    passed: &str,
    export: &str,
    span: SourceSpan,
) -> Refusal
    ensures { Refuses result (fault.PackageMissingExport path.now.name.now export.now (text_if kind.entry) passed.now) span }
{
    let package = match String::from_str(alloc, path.name) {
        Ok(package) => package,
        Err(AllocError) => return Refusal::Memory,
    };
    let export = match String::from_str(alloc, export) {
        Ok(export) => export,
        Err(AllocError) => return Refusal::Memory,
    };
    let path = match String::from_str(alloc, passed) {
        Ok(path) => path,
        Err(AllocError) => return Refusal::Memory,
    };
    let error = Error::PackageMissingExport {
        package,
        export,
        kind,
        path,
        span,
    };
    Refusal::named(alloc, error)
}

/// The export that a further segment names.
fn foreign_step(
    path: &PackagePath<'_>,
    alloc: Global,
    types: &Types,
    kind: ItemKind,
    passed: &str,
    next: &Ident<'_>,
) -> Outcome<ItemKind>
    requires { Stands types.now kind }
    ensures outcome { IsForeignExport types.now path.now.name.now passed.now kind (next.now.string.now, next.now.span) result }
    ensures stands { IfOk result (Stands types.now) }
{
    types.see_acyclic();
    let Ident { string, span } = *next;
    match export_of(types, kind, string) {
        Some(item) => Ok(item),
        None => Err(foreign_missing(path, alloc, Some(kind.desc(types)), passed, string, span)),
    }
}

/// The item to which the further segments of a path lead, each an export of the item before.
fn foreign_rest(
    path: &PackagePath<'_>,
    alloc: Global,
    types: &Types,
    segments: SegmentSpans<'_>,
    first: &str,
    kind: ItemKind,
) -> Outcome<ItemKind>
    requires { Stands types.now kind }
    ensures outcome { IsForeignRest types.now path.now.name.now first.now kind segments.entry result }
    ensures stands { IfOk result (Stands types.now) }
{
    let mut kind = kind;
    let mut passed = String::from_str(alloc, first)?;
    for (segment, span) in segments {
        let next = Ident {
            string: segment,
            span,
        };
        kind = foreign_step(path, alloc, types, kind, passed.as_str(), &next)?;
        passed.push_str("/")?;
        passed.push_str(segment)?;
    }
    Ok(kind)
}

/// The item that a path of another package names.
fn foreign_path<T: PackagedTypes>(
    path: &PackagePath<'_>,
    alloc: Global,
    types: &mut T,
) -> Outcome<ItemKind>
    ensures outcome { IsForeignPath path.now (T.packages types.old) (T.collection types.new) result }
    ensures stands { IfOk result (Stands (T.collection types.new)) }
    ensures grows { Grows (T.collection types.old) (T.collection types.new) }
    ensures packages { SamePackages (T.packages types.old) (T.packages types.new) }
{
    types.types().see_acyclic();
    let mut segments = path.segment_spans();
    let Some((first, span)) = segments.next() else {
        return Err(undefined_name(alloc, path.string, path.span));
    };
    match types.definition(alloc, path, first)? {
        Some(kind) => foreign_rest(path, alloc, types.types(), segments, first, kind),
        None => Err(foreign_missing(path, alloc, None, "", first, span)),
    }
}

/// The item that a path of a package names: in the document's own package a name of the root and its exports, else a
/// definition of the package and its exports.
pub fn package_path<T: PackagedTypes>(
    path: &PackagePath<'_>,
    alloc: Global,
    context: Context<'_>,
    types: &mut T,
) -> Outcome<ItemKind>
    requires { NamesStand (T.collection types.old) context.root.now }
    ensures outcome { IsPathItem path.now context.entry (T.collection types.old) (T.packages types.old)
        (T.collection types.new) result }
    ensures stands { IfOk result (Stands (T.collection types.new)) }
    ensures grows { Grows (T.collection types.old) (T.collection types.new) }
    ensures packages { SamePackages (T.packages types.old) (T.packages types.new) }
{
    types.types().see_acyclic();
    if path.name == context.own.name {
        own_path(path, alloc, context, types.types())
    } else {
        foreign_path(path, alloc, types)
    }
}

/// The item that a name of the root means.
fn root_item<T: PackagedTypes>(
    alloc: Global,
    context: Context<'_>,
    types: &mut T,
    id: &Ident<'_>,
) -> Outcome<ItemKind>
    requires { NamesStand (T.collection types.old) context.root.now }
    ensures outcome { IsItemNamed (T.collection types.old) context.entry.root.now id.now (T.collection types.new) result }
    ensures stands { IfOk result (Stands (T.collection types.new)) }
    ensures grows { Grows (T.collection types.old) (T.collection types.new) }
    ensures packages { SamePackages (T.packages types.old) (T.packages types.new) }
{
    let collection = types.types();
    collection.see_acyclic();
    item_named(alloc, collection, context.root, id)
}

/// The interface that an item is the type of.
fn interface_of(kind: ItemKind) -> Option<InterfaceId>
    ensures interface { IsInterfaceType kind result }
    ensures same { IfSome result (λ i. kind ≡ ItemKind.Ty (TypeKind.Interface i)) }
{
    let ItemKind::Ty(ty) = kind else {
        return None;
    };
    match ty {
        Type::Interface(id) => Some(id),
        _other => None,
    }
}

/// An item that is to be an interface.
fn as_interface(
    alloc: Global,
    types: &Types,
    kind: ItemKind,
    path: &Ident<'_>,
) -> Outcome<InterfaceId>
    requires { Stands types.now kind }
    ensures outcome { IsInterfaceOf types.now kind path.now result }
    ensures stands { IfOk result (λ i. Stands types.now (ItemKind.Instance i)) }
{
    types.see_acyclic();
    match interface_of(kind) {
        Some(id) => Ok(id),
        None => Err(not_interface(alloc, path.string, kind.desc(types), path.span)),
    }
}

/// The interface that a path of a package names.
pub(crate) fn package_interface<T: PackagedTypes>(
    path: &PackagePath<'_>,
    alloc: Global,
    context: Context<'_>,
    types: &mut T,
) -> Outcome<InterfaceId>
    requires { NamesStand (T.collection types.old) context.root.now }
    ensures outcome { IsPathInterface path.now context.entry (T.collection types.old) (T.packages types.old)
        (T.collection types.new) result }
    ensures stands { IfOk result (λ i. Stands (T.collection types.new) (ItemKind.Instance i)) }
    ensures grows { Grows (T.collection types.old) (T.collection types.new) }
    ensures packages { SamePackages (T.packages types.old) (T.packages types.new) }
{
    let kind = package_path(path, alloc, context, types)?;
    as_interface(alloc, types.types(), kind, &whole_path(path))
}

/// The interface that a name of the root means.
pub(crate) fn root_interface<T: PackagedTypes>(
    alloc: Global,
    context: Context<'_>,
    types: &mut T,
    id: &Ident<'_>,
) -> Outcome<InterfaceId>
    requires { NamesStand (T.collection types.old) context.root.now }
    ensures outcome { IsRootInterface (T.collection types.old) context.entry.root.now id.now (T.collection types.new) result }
    ensures stands { IfOk result (λ i. Stands (T.collection types.new) (ItemKind.Instance i)) }
    ensures grows { Grows (T.collection types.old) (T.collection types.new) }
    ensures packages { SamePackages (T.packages types.old) (T.packages types.new) }
{
    let kind = root_item(alloc, context, types, id)?;
    as_interface(alloc, types.types(), kind, id)
}

/// The interface that a `use` names.
pub fn interface_at<T: PackagedTypes>(
    path: &UsePath<'_>,
    alloc: Global,
    context: Context<'_>,
    types: &mut T,
) -> Outcome<InterfaceId>
    requires { NamesStand (T.collection types.old) context.root.now }
    ensures outcome { IsInterfaceAt path.now context.entry (T.collection types.old) (T.packages types.old)
        (T.collection types.new) result }
    ensures stands { IfOk result (λ i. Stands (T.collection types.new) (ItemKind.Instance i)) }
    ensures grows { Grows (T.collection types.old) (T.collection types.new) }
    ensures packages { SamePackages (T.packages types.old) (T.packages types.new) }
{
    match path {
        UsePath::Package(path) => package_interface(path, alloc, context, types),
        UsePath::Ident(id) => root_interface(alloc, context, types, id),
    }
}

/// The world that a type is.
fn world_of_type(ty: Type) -> Option<WorldId>
    ensures some { IfSome result (λ w. ty ≡ TypeKind.World w) }
    ensures none { result ≡ None → (w : WorldKey) → ty ≡ TypeKind.World w → ⊥ }
{
    match ty {
        Type::World(id) => Some(id),
        _other => None,
    }
}

/// The world that an item is the type of, or is a component of.
fn world_of(kind: ItemKind) -> Option<WorldId>
    ensures some { IfSome result (IsWorldIn kind) }
    ensures none { result ≡ None → (w : WorldKey) → IsWorldIn kind w → ⊥ }
{
    match kind {
        ItemKind::Ty(ty) => world_of_type(ty),
        ItemKind::Component(id) => Some(id),
        _other => None,
    }
}

/// An item that is to be a world.
fn as_world(alloc: Global, types: &Types, kind: ItemKind, path: &Ident<'_>) -> Outcome<WorldId>
    requires { Stands types.now kind }
    ensures outcome { IsWorldOf types.now kind path.now result }
    ensures stands { IfOk result (λ i. Stands types.now (ItemKind.Component i)) }
{
    types.see_acyclic();
    match world_of(kind) {
        Some(id) => Ok(id),
        None => Err(not_world(alloc, path.string, kind.desc(types), path.span)),
    }
}

/// The world that an `include` names.
pub fn world_at<T: PackagedTypes>(
    world: &WorldRef<'_>,
    alloc: Global,
    context: Context<'_>,
    types: &mut T,
) -> Outcome<WorldId>
    requires { NamesStand (T.collection types.old) context.root.now }
    ensures outcome { IsWorldAt world.now context.entry (T.collection types.old) (T.packages types.old)
        (T.collection types.new) result }
    ensures stands { IfOk result (λ i. Stands (T.collection types.new) (ItemKind.Component i)) }
    ensures grows { Grows (T.collection types.old) (T.collection types.new) }
    ensures packages { SamePackages (T.packages types.old) (T.packages types.new) }
{
    let kind = match world {
        WorldRef::Package(path) => package_path(path, alloc, context, types)?,
        WorldRef::Ident(id) => root_item(alloc, context, types, id)?,
    };
    let path = Ident {
        string: world.name(),
        span: world.span(),
    };
    as_world(alloc, types.types(), kind, &path)
}

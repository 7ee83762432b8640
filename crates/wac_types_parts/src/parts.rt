//! The parts of interfaces and worlds, one by one. What does not stand has none.

ghost use Rattle.std.specs.Prelude.{◌≡◌, ◌≤◌, ◌↔◌, IfSome, IfNone, Some, None, IsTrue, length, slice_get};
ghost use Rattle.std.specs.Option.{option_copied};
ghost use Rattle.wac_types_base.specs.declared.ids.InterfaceId.{InterfaceId};
ghost use Rattle.wac_types_base.specs.declared.ids.WorldId.{WorldId};
ghost use Rattle.wac_types_base.specs.declared.item.ItemKind.{ItemKind};
ghost use Rattle.wac_types_base.specs.declared.item.«Type».{«Type» as TypeKind};
ghost use Rattle.wac_types_base.specs.Entries.{names_of, value_at, AreDistinct};
ghost use Rattle.wac_types_base.specs.Collection.{Stands, size_of, resource};
ghost use Rattle.wac_types_base.specs.Tree.{rigid, end};
ghost use Rattle.wac_types_fit.specs.Trees.{IsInside, tree_in};
ghost use Rattle.wac_types_base.specs.Parts.{identifier_in};
ghost use Rattle.wac_types_parts.specs.Parts.{interface_in, exports_of, uses_of, world_uses_of, imports_of, world_exports_of};
ghost use Rattle.wac_types_parts.specs.Parts.{IsUse, IsUseAt, IsUseNamed, IsUsedKind, taken_in, IsOfInterface, IsOfWorld, IsFresh, IsRootName};

use wac_types_base::{InterfaceId, ItemKind, NamedMap, ResourceId, Type, Types, UsedType, WorldId};

/// A type that is used: its name, its name in the interface, and that.
#[derive(Clone, Copy)]
pub struct Use<'a> {
    pub name: &'a str,
    pub there: &'a str,
    pub interface: InterfaceId,
}

/// An item under a name.
#[derive(Clone, Copy)]
pub struct Item<'a> {
    pub name: &'a str,
    pub kind: ItemKind,
}

fn use_of<'a>(name: &'a str, used: &'a UsedType) -> Use<'a>
    ensures { IsUse (name.now, used.now) result }
{
    let there = match &used.name {
        Some(there) => there.as_str(),
        None => name,
    };
    Use {
        name,
        there,
        interface: used.interface,
    }
}

// ---- kinds

/// The interface of an instance, or that is a type.
pub fn interface_of(types: &Types, kind: ItemKind) -> Option<InterfaceId>
    ensures size { IfSome result (λ i. size_of types.now (ItemKind.Instance i) ≡ size_of types.now kind) }
    ensures kind { IfSome result (IsOfInterface kind) }
    ensures stands { IfSome result (λ _. Stands types.now kind) }
    ensures none { IfNone result (Stands types.now kind → (i : InterfaceId) → IsOfInterface kind i → ⊥) }
{
    if !types.has(kind) {
        return None;
    }
    types.see_acyclic();
    match kind {
        ItemKind::Instance(id) => Some(id),
        ItemKind::Ty(ty) => match ty {
            Type::Interface(id) => Some(id),
            _ => None,
        },
        _ => None,
    }
}

/// The world of a component, or that is a type.
pub fn world_of(types: &Types, kind: ItemKind) -> Option<WorldId>
    ensures size { IfSome result (λ w. size_of types.now (ItemKind.Component w) ≡ size_of types.now kind) }
    ensures kind { IfSome result (IsOfWorld kind) }
    ensures stands { IfSome result (λ _. Stands types.now kind) }
    ensures none { IfNone result (Stands types.now kind → (w : WorldId) → IsOfWorld kind w → ⊥) }
{
    if !types.has(kind) {
        return None;
    }
    types.see_acyclic();
    match kind {
        ItemKind::Component(id) => Some(id),
        ItemKind::Ty(ty) => match ty {
            Type::World(id) => Some(id),
            _ => None,
        },
        _ => None,
    }
}

/// The name of the resource at the end of the aliases.
pub fn root_name(types: &Types, id: ResourceId) -> &str
    ensures { IsRootName types.now id result.now }
{
    types.see_acyclic();
    if types.has(ItemKind::Ty(Type::Resource(id))) {
        types.resource(types.resolve_resource(id)).name.as_str()
    } else {
        ""
    }
}

// ---- interfaces

pub fn identifier(types: &Types, id: InterfaceId) -> Option<&str>
    ensures { option_copied result ≡ identifier_in (interface_in types.now id) }
{
    if !types.has(ItemKind::Instance(id)) {
        return None;
    }
    match &types.interface(id).id {
        Some(text) => Some(text.as_str()),
        None => None,
    }
}

pub fn use_count(types: &Types, id: InterfaceId) -> usize
    ensures len { result ≡ length (uses_of types.now id) }
    ensures distinct { AreDistinct (names_of (uses_of types.now id)) }
{
    if types.has(ItemKind::Instance(id)) {
        types.interface(id).uses.len()
    } else {
        0
    }
}

/// The use at a place.
pub fn use_at(types: &Types, id: InterfaceId, at: usize) -> Option<Use<'_>>
    ensures inside { IfSome result (λ u. IsInside types.now (ItemKind.Instance u.interface) (ItemKind.Instance id)) }
    ensures name { IfSome result (λ u. slice_get (names_of (uses_of types.now id)) at ≡ Some u.name.now) }
    ensures entry { IfSome result (IsUseAt (uses_of types.now id) at) }
    ensures none { IfNone result (length (uses_of types.now id) ≤ at) }
{
    if !types.has(ItemKind::Instance(id)) {
        return None;
    }
    let interface = types.interface(id);
    if at < interface.uses.len() {
        let (name, used) = interface.uses.entry(at);
        Some(use_of(name, used))
    } else {
        None
    }
}

pub fn export_count(types: &Types, id: InterfaceId) -> usize
    ensures len { result ≡ length (exports_of types.now id) }
    ensures distinct { AreDistinct (names_of (exports_of types.now id)) }
{
    if types.has(ItemKind::Instance(id)) {
        types.interface(id).exports.len()
    } else {
        0
    }
}

/// The export at a place.
pub fn export_at(types: &Types, id: InterfaceId, at: usize) -> Option<Item<'_>>
    ensures inside { IfSome result (λ x. IsInside types.now x.kind (ItemKind.Instance id)) }
    ensures entry { IfSome result (λ x. slice_get (exports_of types.now id) at ≡ Some (x.name.now, x.kind)) }
    ensures none { IfNone result (length (exports_of types.now id) ≤ at) }
{
    if !types.has(ItemKind::Instance(id)) {
        return None;
    }
    let interface = types.interface(id);
    if at < interface.exports.len() {
        let (name, kind) = interface.exports.entry(at);
        Some(Item { name, kind: *kind })
    } else {
        None
    }
}

/// The export of a name.
pub fn export_named(types: &Types, id: InterfaceId, name: &str) -> Option<ItemKind>
    ensures value { result ≡ value_at (exports_of types.now id) name.now }
    ensures stands { IfSome result (Stands types.now) }
{
    types.see_acyclic();
    if !types.has(ItemKind::Instance(id)) {
        return None;
    }
    let interface = types.interface(id);
    match interface.exports.get(name) {
        Some(kind) => Some(*kind),
        None => None,
    }
}

// ---- worlds

pub fn world_use_count(types: &Types, id: WorldId) -> usize
    ensures len { result ≡ length (world_uses_of types.now id) }
    ensures distinct { AreDistinct (names_of (world_uses_of types.now id)) }
{
    if types.has(ItemKind::Component(id)) {
        types.world(id).uses.len()
    } else {
        0
    }
}

/// The world's use at a place.
pub fn world_use_at(types: &Types, id: WorldId, at: usize) -> Option<Use<'_>>
    ensures inside { IfSome result (λ u. IsInside types.now (ItemKind.Instance u.interface) (ItemKind.Component id)) }
    ensures entry { IfSome result (IsUseAt (world_uses_of types.now id) at) }
    ensures none { IfNone result (length (world_uses_of types.now id) ≤ at) }
{
    if !types.has(ItemKind::Component(id)) {
        return None;
    }
    let world = types.world(id);
    if at < world.uses.len() {
        let (name, used) = world.uses.entry(at);
        Some(use_of(name, used))
    } else {
        None
    }
}

/// The world's use that gives a name.
pub fn world_use_named<'a>(types: &'a Types, id: WorldId, name: &'a str) -> Option<Use<'a>>
    ensures found { IfSome result (IsUseNamed (world_uses_of types.now id) name.now) }
    ensures none { IfNone result (value_at (world_uses_of types.now id) name.now ≡ None) }
{
    if types.has(ItemKind::Component(id)) {
        use_named(&types.world(id).uses, name)
    } else {
        None
    }
}

/// The use among these that gives a name.
pub fn use_named<'a>(uses: &'a NamedMap<UsedType>, name: &'a str) -> Option<Use<'a>>
    ensures found { IfSome result (IsUseNamed uses.now name.now) }
    ensures none { IfNone result (value_at uses.now name.now ≡ None) }
{
    match uses.get(name) {
        Some(used) => Some(use_of(name, used)),
        None => None,
    }
}

pub fn import_count(types: &Types, id: WorldId) -> usize
    ensures len { result ≡ length (imports_of types.now id) }
    ensures distinct { AreDistinct (names_of (imports_of types.now id)) }
{
    if types.has(ItemKind::Component(id)) {
        types.world(id).imports.len()
    } else {
        0
    }
}

/// The import at a place.
pub fn import_at(types: &Types, id: WorldId, at: usize) -> Option<Item<'_>>
    ensures inside { IfSome result (λ x. IsInside types.now x.kind (ItemKind.Component id)) }
    ensures entry { IfSome result (λ x. slice_get (imports_of types.now id) at ≡ Some (x.name.now, x.kind)) }
    ensures none { IfNone result (length (imports_of types.now id) ≤ at) }
{
    if !types.has(ItemKind::Component(id)) {
        return None;
    }
    let world = types.world(id);
    if at < world.imports.len() {
        let (name, kind) = world.imports.entry(at);
        Some(Item { name, kind: *kind })
    } else {
        None
    }
}

/// The import of a name.
pub fn import_named(types: &Types, id: WorldId, name: &str) -> Option<ItemKind>
    ensures value { result ≡ value_at (imports_of types.now id) name.now }
    ensures stands { IfSome result (Stands types.now) }
{
    types.see_acyclic();
    if !types.has(ItemKind::Component(id)) {
        return None;
    }
    let world = types.world(id);
    match world.imports.get(name) {
        Some(kind) => Some(*kind),
        None => None,
    }
}

pub fn world_export_count(types: &Types, id: WorldId) -> usize
    ensures len { result ≡ length (world_exports_of types.now id) }
    ensures distinct { AreDistinct (names_of (world_exports_of types.now id)) }
{
    if types.has(ItemKind::Component(id)) {
        types.world(id).exports.len()
    } else {
        0
    }
}

/// The world's export at a place.
pub fn world_export_at(types: &Types, id: WorldId, at: usize) -> Option<Item<'_>>
    ensures inside { IfSome result (λ x. IsInside types.now x.kind (ItemKind.Component id)) }
    ensures entry { IfSome result (λ x. slice_get (world_exports_of types.now id) at ≡ Some (x.name.now, x.kind)) }
    ensures none { IfNone result (length (world_exports_of types.now id) ≤ at) }
{
    if !types.has(ItemKind::Component(id)) {
        return None;
    }
    let world = types.world(id);
    if at < world.exports.len() {
        let (name, kind) = world.exports.entry(at);
        Some(Item { name, kind: *kind })
    } else {
        None
    }
}

/// The world's export of that name.
pub fn world_export_named(types: &Types, id: WorldId, name: &str) -> Option<ItemKind>
    ensures value { result ≡ value_at (world_exports_of types.now id) name.now }
    ensures stands { IfSome result (Stands types.now) }
{
    types.see_acyclic();
    if !types.has(ItemKind::Component(id)) {
        return None;
    }
    let world = types.world(id);
    match world.exports.get(name) {
        Some(kind) => Some(*kind),
        None => None,
    }
}

// ---- uses

/// Whether the item is a resource or a value type.
pub fn is_used_kind(kind: ItemKind) -> bool
    ensures { IsTrue result ↔ IsUsedKind kind }
{
    match kind {
        ItemKind::Ty(ty) => matches!(ty, Type::Resource(_) | Type::Value(_)),
        _ => false,
    }
}

/// The resource or the value type that a use takes.
pub fn taken(types: &Types, used: Use<'_>) -> Option<ItemKind>
    ensures value { result ≡ taken_in types.now used.entry }
    ensures stands { IfSome result (Stands types.now) }
    ensures kind { IfSome result IsUsedKind }
{
    match export_named(types, used.interface, used.there) {
        Some(kind) => { if is_used_kind(kind) { Some(kind) } else { None } }
        None => None,
    }
}

/// Whether the item is a resource under its own name.
pub fn is_fresh(types: &Types, item: Item<'_>) -> bool
    ensures { IsTrue result ↔ IsFresh types.now item.entry.name.now item.entry.kind }
{
    types.see_acyclic();
    match item.kind {
        ItemKind::Ty(ty) => match ty {
            Type::Resource(id) => types.has(item.kind) && root_name(types, id) == item.name,
            _ => false,
        },
        _ => false,
    }
}

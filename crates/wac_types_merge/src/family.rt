//! The families of asks of which the greatest common tree is kept.

ghost use Rattle.std.specs.Prelude.{◌≡◌, ◌↔◌, IsTrue, Some, slice_get};
ghost use Rattle.wac_types_base.specs.declared.item.ItemKind.{ItemKind};
ghost use Rattle.wac_types_base.specs.declared.defined.UsedType.{UsedType};
ghost use Rattle.wac_types_base.specs.Graph.{Among};
ghost use Rattle.wac_types_base.specs.Collection.{Stands, item_node};
ghost use Rattle.wac_types_base.specs.Reaching.{Reaches};
ghost use Rattle.wac_types_merge.specs.Families.{UsesUnnamed, IsUnnamedIn, uses_of, uses_of_world, uses_at_type, HasMore, owner_in, value_owner, type_owner, owner, IsUnplainType, IsUnplain, UsesSuch, IsWitExport, IsForeign, AreWitExports, IsWitItem, IsFamily, joint};

use wac_types_base::{
    Interface, InterfaceId, ItemKind, Resource, Text, Type, Types, UsedType, ValueType, WorldId,
};
use wac_types_same::states_same;

/// The family in which all asks on a track lie.
#[derive(Clone, Copy, Debug, PartialEq, Eq)]
pub enum Family {
    /// No component, world or module is reached, no identifier, no use and no owner.
    Plain,
    /// An instance of an interface whose identifier is the name asked.
    Wit,
    /// Neither of the two.
    Neither,
}

/// What is kept of the asks on a track.
#[derive(Drop)]
pub struct Import {
    pub name: Text,
    pub kind: ItemKind,
    pub family: Family,
}

/// The family of what is asked twice.
pub fn joint_family(a: Family, b: Family) -> Family
    ensures { result ≡ joint a b }
{
    match a {
        Family::Plain => match b {
            Family::Plain => Family::Plain,
            _ => Family::Neither,
        },
        Family::Wit => match b {
            Family::Wit => Family::Wit,
            _ => Family::Neither,
        },
        Family::Neither => Family::Neither,
    }
}

/// Whether one of these interfaces has no identifier.
fn has_unnamed(types: &Types, uses: &[UsedType]) -> bool
    requires { (u : UsedType) → Among u uses.now → Stands types.now (ItemKind.Instance u.interface) }
    ensures { IsTrue result ↔ IsUnnamedIn types.now uses.now }
{
    for index in 0..uses.len() {
        let used = uses[index].interface;
        match &types.interface(used).id {
            None => return true,
            Some(_) => {}
        }
    }
    false
}

/// Whether an interface uses one without identifier.
pub fn interface_uses_unnamed(types: &Types, id: InterfaceId) -> bool
    requires { Stands types.now (ItemKind.Instance id) }
    ensures { IsTrue result ↔ IsUnnamedIn types.now (uses_of (slice_get types.now.interfaces id.index)) }
{
    has_unnamed(types, types.interface(id).uses.values())
}

/// Whether a world uses an interface without identifier.
fn world_uses_unnamed(types: &Types, id: WorldId) -> bool
    requires { Stands types.now (ItemKind.Component id) }
    ensures { IsTrue result ↔ IsUnnamedIn types.now (uses_of_world (slice_get types.now.worlds id.index)) }
{
    has_unnamed(types, types.world(id).uses.values())
}

/// Whether an interface or a world, as a type, uses an interface without identifier.
fn type_uses_unnamed(types: &Types, ty: Type) -> bool
    requires { Stands types.now (ItemKind.Ty ty) }
    ensures { IsTrue result ↔ IsUnnamedIn types.now (uses_at_type types.now ty) }
{
    match ty {
        Type::Interface(id) => interface_uses_unnamed(types, id),
        Type::World(id) => world_uses_unnamed(types, id),
        _ => false,
    }
}

/// Whether an instance or a component, or the type of one, uses an interface without identifier.
pub(crate) fn uses_unnamed(types: &Types, kind: ItemKind) -> bool
    requires { Stands types.now kind }
    ensures { IsTrue result ↔ UsesUnnamed types.now kind }
{
    match kind {
        ItemKind::Instance(id) => interface_uses_unnamed(types, id),
        ItemKind::Component(id) => world_uses_unnamed(types, id),
        ItemKind::Ty(ty) => type_uses_unnamed(types, ty),
        _ => false,
    }
}

/// Whether an interface has an identifier or a use.
fn has_more(interface: &Interface) -> bool
    ensures { IsTrue result ↔ HasMore (Some interface.now) }
{
    interface.id.is_some() || interface.uses.len() > 0
}

/// The owner of a resource.
fn resource_owner(resource: &Resource) -> Option<InterfaceId>
    ensures { result ≡ owner_in (Some resource.now) }
{
    match &resource.alias {
        None => None,
        Some(alias) => alias.owner,
    }
}

/// The owner of the resource of a handle.
fn owner_of_value(types: &Types, ty: ValueType) -> Option<InterfaceId>
    requires { Stands types.now (ItemKind.Value ty) }
    ensures { result ≡ value_owner types.now ty }
{
    match ty {
        ValueType::Borrow(id) => resource_owner(types.resource(id)),
        ValueType::Own(id) => resource_owner(types.resource(id)),
        ValueType::Primitive(_) | ValueType::Defined(_) => None,
    }
}

/// The owner of a resource, or of the resource of a handle, as a type.
fn owner_of_type(types: &Types, ty: Type) -> Option<InterfaceId>
    requires { Stands types.now (ItemKind.Ty ty) }
    ensures { result ≡ type_owner types.now ty }
{
    match ty {
        Type::Resource(id) => resource_owner(types.resource(id)),
        Type::Value(value) => owner_of_value(types, value),
        _ => None,
    }
}

/// The owner of a resource, or of the resource of a handle.
fn owner_of(types: &Types, kind: ItemKind) -> Option<InterfaceId>
    requires { Stands types.now kind }
    ensures { result ≡ owner types.now kind }
{
    match kind {
        ItemKind::Ty(ty) => owner_of_type(types, ty),
        ItemKind::Value(ty) => owner_of_value(types, ty),
        _ => None,
    }
}

/// Whether a type is that of a component or module, of an interface with more than exports, or of an owned resource.
fn is_unplain_type(types: &Types, ty: Type) -> bool
    requires { Stands types.now (ItemKind.Ty ty) }
    ensures { IsTrue result ↔ IsUnplainType types.now ty }
{
    match ty {
        Type::Resource(id) => resource_owner(types.resource(id)).is_some(),
        Type::Func(_) => false,
        Type::Value(value) => owner_of_value(types, value).is_some(),
        Type::Interface(id) => has_more(types.interface(id)),
        Type::World(_) | Type::Module(_) => true,
    }
}

/// Whether an item is a component or module, an instance of an interface with more than exports, or of such a type.
fn is_unplain(types: &Types, kind: ItemKind) -> bool
    requires { Stands types.now kind }
    ensures { IsTrue result ↔ IsUnplain types.now kind }
{
    match kind {
        ItemKind::Ty(ty) => is_unplain_type(types, ty),
        ItemKind::Func(_) => false,
        ItemKind::Instance(id) => has_more(types.interface(id)),
        ItemKind::Component(_) | ItemKind::Module(_) => true,
        ItemKind::Value(ty) => owner_of_value(types, ty).is_some(),
    }
}

/// Whether such an item is reached.
fn reaches_unplain(types: &Types, kind: ItemKind) -> bool
    requires { Stands types.now kind }
    ensures { IsTrue result ↔ Reaches (item_node types.now) (IsUnplain types.now) kind }
{
    if is_unplain(types, kind) {
        return true;
    }
    let mut at: u128 = 0;
    while let Some(place) = types.place(kind, at) {
        if let Some(child) = place {
            if reaches_unplain(types, child) {
                return true;
            }
        }
        at += 1;
    }
    false
}

/// Whether an interface uses one that states what the target does, or one that uses such.
fn uses_such(types: &Types, id: InterfaceId, target: InterfaceId) -> bool
    requires interface { Stands types.now (ItemKind.Instance id) }
    requires target { Stands types.now (ItemKind.Instance target) }
    ensures { IsTrue result ↔ UsesSuch types.now id target }
{
    let uses = types.interface(id).uses.values();
    for index in 0..uses.len() {
        let used = uses[index].interface;
        if states_same(types, ItemKind::Instance(used), ItemKind::Instance(target)) {
            return true;
        }
        if uses_such(types, used, target) {
            return true;
        }
    }
    false
}

/// Whether the item is a resource, or a handle of one, and the interface uses none that states what its owner does.
fn is_foreign(types: &Types, id: InterfaceId, kind: ItemKind) -> bool
    requires interface { Stands types.now (ItemKind.Instance id) }
    requires stands { Stands types.now kind }
    ensures { IsTrue result ↔ IsForeign types.now id kind }
{
    types.see_acyclic();
    match owner_of(types, kind) {
        None => false,
        Some(owner) => !uses_such(types, id, owner),
    }
}

/// Whether such a resource is reached.
fn reaches_foreign(types: &Types, id: InterfaceId, kind: ItemKind) -> bool
    requires interface { Stands types.now (ItemKind.Instance id) }
    requires stands { Stands types.now kind }
    ensures { IsTrue result ↔ Reaches (item_node types.now) (IsForeign types.now id) kind }
{
    if is_foreign(types, id, kind) {
        return true;
    }
    let mut at: u128 = 0;
    while let Some(place) = types.place(kind, at) {
        if let Some(child) = place {
            if reaches_foreign(types, id, child) {
                return true;
            }
        }
        at += 1;
    }
    false
}

/// Whether the item is a function, a value type or a resource.
fn is_wit_export(kind: ItemKind) -> bool
    ensures { IsTrue result ↔ IsWitExport kind }
{
    match kind {
        ItemKind::Func(_) => true,
        ItemKind::Ty(ty) => matches!(ty, Type::Value(_) | Type::Resource(_)),
        _ => false,
    }
}

/// Whether each export is a function, a value type or a resource, whose owners the interface uses.
fn are_wit_exports(types: &Types, id: InterfaceId, exports: &[ItemKind]) -> bool
    requires interface { Stands types.now (ItemKind.Instance id) }
    requires stand { (k : ItemKind) → Among k exports.now → Stands types.now k }
    ensures { IsTrue result ↔ AreWitExports types.now id exports.now }
{
    for index in 0..exports.len() {
        let kind = exports[index];
        if !is_wit_export(kind) {
            return false;
        }
        if reaches_foreign(types, id, kind) {
            return false;
        }
    }
    true
}

/// Whether the text is this one.
fn is_text(text: &Option<Text>, name: &str) -> bool
    ensures { IsTrue result ↔ (text.now ≡ Some name.now) }
{
    match text {
        None => false,
        Some(text) => text.is(name),
    }
}

/// Whether the item is an instance of an interface with this identifier and such exports.
fn is_wit(types: &Types, name: &str, kind: ItemKind) -> bool
    requires { Stands types.now kind }
    ensures { IsTrue result ↔ IsWitItem types.now name.now kind }
{
    match kind {
        ItemKind::Instance(id) => {
            let interface = types.interface(id);
            is_text(&interface.id, name) && are_wit_exports(types, id, interface.exports.values())
        }
        _ => false,
    }
}

/// The family of an ask.
pub fn family_of(types: &Types, name: &str, kind: ItemKind) -> Family
    requires { Stands types.now kind }
    ensures { IsFamily types.now name.now kind result }
{
    if !reaches_unplain(types, kind) {
        Family::Plain
    } else if is_wit(types, name, kind) {
        Family::Wit
    } else {
        Family::Neither
    }
}

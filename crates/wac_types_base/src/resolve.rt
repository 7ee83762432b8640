//! What is at the end of aliases, and what is told of a type.

ghost use Rattle.std.specs.Prelude.{◌≡◌, ◌↔◌, IsTrue, Some};
ghost use Rattle.wac_types_base.specs.Collection.{Stands, IsAcyclic, HasChildren, unfolding_of, defined_entry};
ghost use Rattle.wac_types_base.specs.Record.{Collection};
ghost use Rattle.wac_types_base.specs.Tree.{tree_of};
ghost use Rattle.wac_types_base.specs.Resolving.{ResolvesTo, IsRootOf, item_type, promoted};
ghost use Rattle.wac_types_base.specs.Stated.{stated_of, stated_entry, contains_borrow, primitive_word, value_desc, desc, promote};

use crate::defined::DefinedType;
use crate::ids::ResourceId;
use crate::item::{ItemKind, PrimitiveType, Type, ValueType};
use crate::types::Types;
use crate::walk::defined_place;

impl Types {
    /// The value type at the end of the aliases.
    pub fn resolve_value_type(&self, ty: ValueType) -> ValueType
        requires { Stands self.now (ItemKind.Value ty) }
        ensures resolved { ResolvesTo self.now ty result }
        ensures stands { Stands self.now (ItemKind.Value result) }
        ensures tree { tree_of self.now (ItemKind.Value result) ≡ tree_of self.now (ItemKind.Value ty) }
    {
        match ty {
            ValueType::Defined(id) => match self.defined_type(id) {
                DefinedType::Alias(source) => self.resolve_value_type(*source),
                _ => ty,
            },
            _ => ty,
        }
    }

    /// The resource at the end of the aliases.
    pub fn resolve_resource(&self, id: ResourceId) -> ResourceId
        requires { Stands self.now (ItemKind.Ty (Type.Resource id)) }
        ensures root { IsRootOf self.now id result }
        ensures stands { Stands self.now (ItemKind.Ty (Type.Resource result)) }
        ensures tree { tree_of self.now (ItemKind.Ty (Type.Resource result))
            ≡ tree_of self.now (ItemKind.Ty (Type.Resource id)) }
    {
        match self.resource(id).alias {
            Some(alias) => self.resolve_resource(alias.source),
            None => id,
        }
    }
}

impl ItemKind {
    /// The type of the item.
    pub fn ty(&self) -> Type
        ensures { result ≡ item_type self.now }
    {
        match *self {
            ItemKind::Ty(ty) => ty,
            ItemKind::Func(id) => Type::Func(id),
            ItemKind::Instance(id) => Type::Interface(id),
            ItemKind::Component(id) => Type::World(id),
            ItemKind::Module(id) => Type::Module(id),
            ItemKind::Value(ty) => Type::Value(ty),
        }
    }

    /// What an item of the type would be: function, interface and world types become function, instance and component.
    pub fn promote(&self) -> Self
        ensures kind { result ≡ promoted self.now }
        ensures stated { (c : Collection) → IsAcyclic c → Stands c self.now
            → stated_of c result ≡ promote (stated_of c self.now) }
    {
        promoted_kind(*self)
    }
}

fn promoted_kind(kind: ItemKind) -> ItemKind
    ensures { result ≡ promoted kind }
{
    match kind {
        ItemKind::Ty(Type::Func(id)) => ItemKind::Func(id),
        ItemKind::Ty(Type::Interface(id)) => ItemKind::Instance(id),
        ItemKind::Ty(Type::World(id)) => ItemKind::Component(id),
        _ => kind,
    }
}

impl ValueType {
    /// Whether a borrow is in it.
    #[cycle(borrows)]
    pub fn contains_borrow(&self, types: &Types) -> bool
        requires { Stands types.now (ItemKind.Value self.now) }
        ensures { result ≡ contains_borrow (stated_of types.now (ItemKind.Value self.now)) }
    {
        types.see_acyclic();
        match *self {
            ValueType::Primitive(_) => false,
            ValueType::Borrow(_) => true,
            ValueType::Own(_) => false,
            ValueType::Defined(id) => types.defined_type(id).contains_borrow(types),
        }
    }
}

impl DefinedType {
    /// Whether a borrow is in it. All its ids stand in the collection.
    #[cycle(borrows)]
    pub fn contains_borrow(&self, types: &Types) -> bool
        requires { HasChildren types.now (defined_entry self.now) }
        ensures { result ≡ contains_borrow (stated_entry types.now (defined_entry self.now)) }
    {
        types.see_acyclic();
        let mut at: u128 = 0;
        while let Some(place) = defined_place(self, at) {
            if let Some(child) = place {
                if let ItemKind::Value(ty) = child {
                    if ty.contains_borrow(types) {
                        return true;
                    }
                }
            }
            at += 1;
        }
        false
    }
}

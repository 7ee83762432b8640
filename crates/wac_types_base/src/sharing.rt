//! What is kept of a collection, and which types share it.

ghost use Rattle.std.specs.Prelude.{◌≡◌, ◌↔◌, IsTrue};
ghost use Rattle.wac_types_base.specs.declared.item.ItemKind.{ItemKind};
ghost use Rattle.wac_types_base.specs.Collection.{Stands};
ghost use Rattle.wac_types_base.specs.Stated.{stated_of};
ghost use Rattle.wac_types_base.specs.Kept.{kept_count, AreApart, HoldsAll};
ghost use Rattle.wac_types_base.specs.Sharing.{Share, ShareValue, ItemsShare};

use crate::item::{ItemKind, Type, ValueType};
use crate::types::Types;

impl Types {
    /// How many entries are kept: equal ones once, and also those that no id names any more.
    pub fn kept_entries(&self) -> usize
        ensures count { result ≡ kept_count self.now.kept }
        ensures apart { AreApart self.now.kept }
        ensures named { HoldsAll self.now }
    {
        self.defined_types.kept().len()
            + self.resources.kept().len()
            + self.func_types.kept().len()
            + self.interfaces.kept().len()
            + self.worlds.kept().len()
            + self.modules.kept().len()
    }

    fn share_value(&self, a: ValueType, b: ValueType) -> bool
        requires first { Stands self.now (ItemKind.Value a) }
        requires second { Stands self.now (ItemKind.Value b) }
        ensures { IsTrue result ↔ ShareValue self.now a b }
    {
        match (a, b) {
            (ValueType::Primitive(a), ValueType::Primitive(b)) => a == b,
            (ValueType::Borrow(a), ValueType::Borrow(b)) => {
                self.resources.same_place(a.index, b.index)
            }
            (ValueType::Own(a), ValueType::Own(b)) => self.resources.same_place(a.index, b.index),
            (ValueType::Defined(a), ValueType::Defined(b)) => {
                self.defined_types.same_place(a.index, b.index)
            }
            _ => false,
        }
    }

    fn share(&self, a: Type, b: Type) -> bool
        requires first { Stands self.now (ItemKind.Ty a) }
        requires second { Stands self.now (ItemKind.Ty b) }
        ensures { IsTrue result ↔ Share self.now a b }
    {
        match (a, b) {
            (Type::Resource(a), Type::Resource(b)) => self.resources.same_place(a.index, b.index),
            (Type::Func(a), Type::Func(b)) => self.func_types.same_place(a.index, b.index),
            (Type::Value(a), Type::Value(b)) => self.share_value(a, b),
            (Type::Interface(a), Type::Interface(b)) => self
                .interfaces
                .same_place(a.index, b.index),
            (Type::World(a), Type::World(b)) => self.worlds.same_place(a.index, b.index),
            (Type::Module(a), Type::Module(b)) => self.modules.same_place(a.index, b.index),
            _ => false,
        }
    }

    fn share_items(&self, a: ItemKind, b: ItemKind) -> bool
        requires first { Stands self.now a }
        requires second { Stands self.now b }
        ensures { IsTrue result ↔ ItemsShare self.now a b }
    {
        match (a, b) {
            (ItemKind::Ty(a), ItemKind::Ty(b)) => self.share(a, b),
            (ItemKind::Func(a), ItemKind::Func(b)) => self.func_types.same_place(a.index, b.index),
            (ItemKind::Instance(a), ItemKind::Instance(b)) => {
                self.interfaces.same_place(a.index, b.index)
            }
            (ItemKind::Component(a), ItemKind::Component(b)) => {
                self.worlds.same_place(a.index, b.index)
            }
            (ItemKind::Module(a), ItemKind::Module(b)) => self.modules.same_place(a.index, b.index),
            (ItemKind::Value(a), ItemKind::Value(b)) => self.share_value(a, b),
            _ => false,
        }
    }

    /// Whether two types share: they are equal values without entry, or differ at most in ids of one kept entry.
    pub fn shares(&self, a: Type, b: Type) -> bool
        requires first { Stands self.now (ItemKind.Ty a) }
        requires second { Stands self.now (ItemKind.Ty b) }
        ensures shares { IsTrue result ↔ Share self.now a b }
        ensures stated { IsTrue result → stated_of self.now (ItemKind.Ty a) ≡ stated_of self.now (ItemKind.Ty b) }
    {
        self.share(a, b)
    }

    /// Whether two items share, as two types do.
    pub fn items_share(&self, a: ItemKind, b: ItemKind) -> bool
        requires first { Stands self.now a }
        requires second { Stands self.now b }
        ensures shares { IsTrue result ↔ ItemsShare self.now a b }
        ensures stated { IsTrue result → stated_of self.now a ≡ stated_of self.now b }
    {
        self.share_items(a, b)
    }
}

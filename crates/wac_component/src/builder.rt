//! What is known while the scopes of a component are gone through.
use crate::additions::{Parts, add_resource, called_interface, export_at, name_resource};
use crate::entry::Sort;
use crate::spaces::{Bound, ComponentItem, Origin, Space, TypeItem};
use crate::world_fault::{Halt, WorldFault};
use std::alloc::Global;
use wac_graph_bytes::Description;
use wac_types_base::{FuncTypeId, InterfaceId, ItemKind, NamedMap, Text, Type, Types, UsedType};

/// How many instances of nested components may be made.
pub const MAX_INSTANCES: usize = 10_000;

/// The scopes that are open, and the types made so far.
#[derive(Drop)]
pub struct Builder<'a> {
    pub alloc: Global,
    pub types: Types,
    pub type_items: Space<TypeItem>,
    pub funcs: Space<FuncTypeId>,
    pub instances: Space<InterfaceId>,
    pub components: Space<ComponentItem<'a>>,
    /// Instance types with resources of their own that are used up.
    pub spent: Vec<InterfaceId>,
    /// How many instances may still be made.
    pub instances_left: usize,
    /// Where the section begins that is gone through.
    pub offset: usize,
}

/// What an export that has this type or item is.
fn bound_of_kind<'a>(kind: ItemKind, origin: Option<Origin>) -> Result<Bound<'a>, Halt> {
    match kind {
        ItemKind::Ty(ty) => Ok(Bound::Ty(TypeItem {
            ty,
            origin,
            has_resources: false,
        })),
        ItemKind::Func(id) => Ok(Bound::Func(id)),
        ItemKind::Instance(id) => Ok(Bound::Instance(id)),
        ItemKind::Component(id) => Ok(Bound::Component(ComponentItem::World(id))),
        ItemKind::Module(_) => Ok(Bound::Core),
        ItemKind::Value(_) => Err(Halt::Refused(WorldFault::Value)),
    }
}

/// Whether what stands there is of that sort.
pub fn is_of(bound: Bound<'_>, sort: Sort) -> bool {
    match sort {
        Sort::Core(_) => matches!(bound, Bound::Core),
        Sort::Func => matches!(bound, Bound::Func(_)),
        Sort::Value => false,
        Sort::Ty => matches!(bound, Bound::Ty(_)),
        Sort::Component => matches!(bound, Bound::Component(_)),
        Sort::Instance => matches!(bound, Bound::Instance(_)),
    }
}

/// Where a type comes from that stands at a place of an interface, if that or what it uses is named.
fn origin_of(
    types: &Types,
    id: InterfaceId,
    place: usize,
    name: &str,
) -> Result<Option<Origin>, Halt> {
    if !types.has(ItemKind::Instance(id)) {
        return Err(Halt::Refused(WorldFault::Index));
    }
    let interface = types.interface(id);
    if interface.id.is_some() {
        return Ok(Some(Origin {
            interface: id,
            place,
        }));
    }
    let Some(used) = interface.uses.get(name) else {
        return Ok(None);
    };
    let original = match &used.name {
        Some(text) => text.as_str(),
        None => name,
    };
    let (place, _) = export_at(types, used.interface, original)?;
    Ok(Some(Origin {
        interface: used.interface,
        place,
    }))
}

/// The use of a type from there, under this name.
fn used_as(alloc: Global, types: &Types, origin: Origin, name: &str) -> Result<UsedType, Halt> {
    if !types.has(ItemKind::Instance(origin.interface)) {
        return Err(Halt::Refused(WorldFault::Index));
    }
    let exports = &types.interface(origin.interface).exports;
    if origin.place >= exports.len() {
        return Err(Halt::Refused(WorldFault::Index));
    }
    let (original, _) = exports.entry(origin.place);
    let other = if original == name {
        None
    } else {
        Some(Text::from_str(alloc, original)?)
    };
    Ok(UsedType {
        interface: origin.interface,
        name: other,
    })
}

/// Puts an item under a name that is new.
fn record_item(
    alloc: Global,
    items: &mut NamedMap<ItemKind>,
    name: &str,
    kind: ItemKind,
) -> Result<(), Halt> {
    match items.insert(String::from_str(alloc, name)?, kind)? {
        None => Ok(()),
        Some(_) => Err(Halt::Refused(WorldFault::Name)),
    }
}

impl<'a> Builder<'a> {
    pub fn new(alloc: Global, number: u64) -> Self {
        Builder {
            alloc,
            types: Types::new(alloc, number),
            type_items: Space::new(alloc),
            funcs: Space::new(alloc),
            instances: Space::new(alloc),
            components: Space::new(alloc),
            spent: Vec::new(alloc),
            instances_left: MAX_INSTANCES,
            offset: 0,
        }
    }

    pub fn into_types(self) -> Types {
        let Builder {
            alloc: _,
            types,
            type_items: _,
            funcs: _,
            instances: _,
            components: _,
            spent: _,
            instances_left: _,
            offset: _,
        } = self;
        types
    }

    pub fn enter(&mut self) -> Result<(), Halt> {
        self.type_items.enter()?;
        self.funcs.enter()?;
        self.instances.enter()?;
        self.components.enter()?;
        Ok(())
    }

    pub fn leave(&mut self) {
        self.type_items.leave();
        self.funcs.leave();
        self.instances.leave();
        self.components.leave();
    }

    /// The next index of its sort stands for this.
    pub fn push(&mut self, bound: Bound<'a>) -> Result<(), Halt> {
        match bound {
            Bound::Func(id) => self.funcs.push(id)?,
            Bound::Ty(item) => self.type_items.push(item)?,
            Bound::Instance(id) => self.instances.push(id)?,
            Bound::Component(item) => self.components.push(item)?,
            Bound::Core => {}
        }
        Ok(())
    }

    /// The next index of a type stands for this type.
    pub fn push_type(&mut self, ty: Type, has_resources: bool) -> Result<(), Halt> {
        self.type_items.push(TypeItem {
            ty,
            origin: None,
            has_resources,
        })?;
        Ok(())
    }

    /// What an index of a sort stands for, in the scope that many scopes further out.
    pub fn bound_at(&self, sort: Sort, out: u64, index: u64) -> Result<Bound<'a>, Halt> {
        let found = match sort {
            Sort::Core(_) => Some(Bound::Core),
            Sort::Func => self.funcs.get(out, index).map(|id| Bound::Func(id)),
            Sort::Value => return Err(Halt::Refused(WorldFault::Value)),
            Sort::Ty => self.type_items.get(out, index).map(|item| Bound::Ty(item)),
            Sort::Component => self
                .components
                .get(out, index)
                .map(|item| Bound::Component(item)),
            Sort::Instance => self.instances.get(out, index).map(|id| Bound::Instance(id)),
        };
        match found {
            Some(bound) => Ok(bound),
            None => Err(Halt::Refused(WorldFault::Index)),
        }
    }

    /// An export of an instance.
    pub fn export_of(&self, sort: Sort, instance: u64, name: &str) -> Result<Bound<'a>, Halt> {
        let Some(id) = self.instances.get(0, instance) else {
            return Err(Halt::Refused(WorldFault::Index));
        };
        let (place, kind) = export_at(&self.types, id, name)?;
        let origin = origin_of(&self.types, id, place, name)?;
        let bound = bound_of_kind(kind, origin)?;
        if is_of(bound, sort) {
            Ok(bound)
        } else {
            Err(Halt::Refused(WorldFault::Export))
        }
    }

    /// What the index of a type stands for.
    pub fn type_item(&self, index: u64) -> Result<TypeItem, Halt> {
        match self.type_items.get(0, index) {
            Some(item) => Ok(item),
            None => Err(Halt::Refused(WorldFault::Index)),
        }
    }

    /// The function type of an index.
    pub fn func_type(&self, index: u64) -> Result<FuncTypeId, Halt> {
        match self.type_item(index)?.ty {
            Type::Func(id) => Ok(id),
            _ => Err(Halt::Refused(WorldFault::Index)),
        }
    }

    /// The interface of an instance type, which is used up if it has resources of its own.
    fn take_interface(&mut self, index: u64, parts: &mut Parts) -> Result<InterfaceId, Halt> {
        let item = self.type_item(index)?;
        let Type::Interface(id) = item.ty else {
            return Err(Halt::Refused(WorldFault::Index));
        };
        if item.has_resources {
            if self.spent.contains(&id) {
                return Err(Halt::Refused(WorldFault::Resources));
            }
            self.spent.push(id)?;
            parts.has_resources = true;
        }
        Ok(id)
    }

    /// What an import of that name is, or what a type declares as an export.
    pub fn describe(
        &mut self,
        name: &str,
        description: Description,
        parts: &mut Parts,
    ) -> Result<Bound<'a>, Halt> {
        match description {
            Description::Module(_) => Err(Halt::Refused(WorldFault::CoreModule)),
            Description::Func(index) => Ok(Bound::Func(self.func_type(index)?)),
            Description::Equal(index) => Ok(Bound::Ty(self.type_item(index)?)),
            Description::Resource => {
                parts.has_resources = true;
                Ok(Bound::Ty(TypeItem {
                    ty: add_resource(self.alloc, &mut self.types, name)?,
                    origin: None,
                    has_resources: false,
                }))
            }
            Description::Component(index) => match self.type_item(index)?.ty {
                Type::World(id) => Ok(Bound::Component(ComponentItem::World(id))),
                _ => Err(Halt::Refused(WorldFault::Index)),
            },
            Description::Instance(index) => {
                Ok(Bound::Instance(self.take_interface(index, parts)?))
            }
        }
    }

    /// A type under a name: a use, where it comes from elsewhere.
    fn name_type(&mut self, name: &str, item: TypeItem, parts: &mut Parts) -> Result<(), Halt> {
        if let Type::Resource(id) = item.ty {
            name_resource(self.alloc, &mut self.types, id, name)?;
        }
        if let Some(origin) = item.origin {
            let used = used_as(self.alloc, &self.types, origin, name)?;
            let _ = parts
                .uses
                .insert(String::from_str(self.alloc, name)?, used)?;
        }
        Ok(())
    }

    /// What stands for that under a name, as an import or an export has it.
    fn named(
        &mut self,
        name: &str,
        bound: Bound<'a>,
        parts: &mut Parts,
    ) -> Result<(Bound<'a>, ItemKind), Halt> {
        match bound {
            Bound::Func(id) => Ok((bound, ItemKind::Func(id))),
            Bound::Ty(item) => {
                self.name_type(name, item, parts)?;
                Ok((bound, ItemKind::Ty(item.ty)))
            }
            Bound::Instance(id) => {
                let id = called_interface(self.alloc, &mut self.types, id, name)?;
                Ok((Bound::Instance(id), ItemKind::Instance(id)))
            }
            Bound::Component(ComponentItem::World(id)) => Ok((bound, ItemKind::Component(id))),
            Bound::Component(ComponentItem::Nested(_, _, _)) => {
                Err(Halt::Refused(WorldFault::NestedComponent))
            }
            Bound::Core => Err(Halt::Refused(WorldFault::CoreModule)),
        }
    }

    /// Imports that under the name; the answer is what stands for it here.
    pub fn import(
        &mut self,
        name: &str,
        bound: Bound<'a>,
        parts: &mut Parts,
    ) -> Result<Bound<'a>, Halt> {
        let (bound, kind) = self.named(name, bound, parts)?;
        record_item(self.alloc, &mut parts.imports, name, kind)?;
        Ok(bound)
    }

    /// Exports that under the name; the answer is what stands for it here.
    pub fn export(
        &mut self,
        name: &str,
        bound: Bound<'a>,
        parts: &mut Parts,
    ) -> Result<Bound<'a>, Halt> {
        let (bound, kind) = self.named(name, bound, parts)?;
        record_item(self.alloc, &mut parts.exports, name, kind)?;
        Ok(bound)
    }
}

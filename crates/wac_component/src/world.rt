//! The world of a component.
ghost use Rattle.std.specs.Prelude.{IfOk};
ghost use Rattle.wac_types_base.specs.declared.item.ItemKind.{ItemKind};
ghost use Rattle.wac_types_base.specs.Collection.{Stands};

use crate::additions::{Parts, add_resource, interface_of, world_of};
use crate::builder::{Builder, is_of};
use crate::declarations::MAX_LEVELS;
use crate::entry::{Alias, Canonical, Export, Import, Instance, Item, Section, Sort, TypeEntry};
use crate::sections::{read_section, skip_preamble};
use crate::spaces::{Bound, ComponentItem};
use crate::world_fault::{Halt, WorldError, WorldFault, halt_of};
use std::alloc::Global;
use wac_graph_bytes::Description;
use wac_types_base::{Types, WorldId};

/// An item under the name of an import.
#[derive(Drop)]
pub struct Argument<'a> {
    name: String,
    bound: Bound<'a>,
}

/// The sort of what is imported.
fn sort_of(description: Description) -> Option<Sort> {
    match description {
        Description::Module(_) => None,
        Description::Func(_) => Some(Sort::Func),
        Description::Equal(_) => Some(Sort::Ty),
        Description::Resource => Some(Sort::Ty),
        Description::Component(_) => Some(Sort::Component),
        Description::Instance(_) => Some(Sort::Instance),
    }
}

/// The argument for an import.
fn argument_for<'a>(arguments: &[Argument<'a>], import: &Import) -> Result<Bound<'a>, Halt> {
    for argument in arguments {
        if argument.name.as_str() == import.name.as_str() {
            return match sort_of(import.description) {
                Some(sort) => {
                    if is_of(argument.bound, sort) {
                        Ok(argument.bound)
                    } else {
                        Err(Halt::Refused(WorldFault::Argument))
                    }
                }
                None => Ok(Bound::Core),
            };
        }
    }
    Err(Halt::Refused(WorldFault::Argument))
}

impl<'a> Builder<'a> {
    fn add_alias(&mut self, alias: &Alias) -> Result<(), Halt> {
        let bound = match alias {
            Alias::Export(sort, instance, name) => {
                self.export_of(*sort, *instance as u64, name.as_str())?
            }
            Alias::Core(_, _, _) => Bound::Core,
            Alias::Outer(sort, out, index) => { self.bound_at(*sort, *out as u64, *index as u64)? }
        };
        self.push(bound)
    }

    fn add_aliases(&mut self, aliases: &[Alias]) -> Result<(), Halt> {
        for alias in aliases {
            self.add_alias(alias)?;
        }
        Ok(())
    }

    fn add_type(&mut self, entry: &TypeEntry) -> Result<(), Halt> {
        match entry {
            TypeEntry::Defined(form) => {
                let ty = self.define(form)?;
                self.push_type(ty, false)
            }
            TypeEntry::Resource(_) => {
                let ty = add_resource(self.alloc, &mut self.types, "")?;
                self.push_type(ty, false)
            }
            TypeEntry::Component(declarations) => self.add_component(MAX_LEVELS, declarations),
            TypeEntry::Instance(declarations) => self.add_instance(MAX_LEVELS, declarations),
        }
    }

    fn add_types(&mut self, entries: &[TypeEntry]) -> Result<(), Halt> {
        for entry in entries {
            self.add_type(entry)?;
        }
        Ok(())
    }

    /// A function is lifted; what else there is, are core functions.
    fn add_canonicals(&mut self, canonicals: &[Canonical]) -> Result<(), Halt> {
        for canonical in canonicals {
            if let Canonical::Lift(_, _, ty) = canonical {
                let id = self.func_type(*ty as u64)?;
                self.push(Bound::Func(id))?;
            }
        }
        Ok(())
    }

    /// Imports of the component itself, or of a nested one that has these arguments.
    fn add_imports(
        &mut self,
        imports: &[Import],
        arguments: Option<&[Argument<'a>]>,
        parts: &mut Parts,
    ) -> Result<(), Halt> {
        for import in imports {
            let bound = match arguments {
                Some(arguments) => argument_for(arguments, import)?,
                None => {
                    let bound = self.describe(import.name.as_str(), import.description, parts)?;
                    self.import(import.name.as_str(), bound, parts)?
                }
            };
            self.push(bound)?;
        }
        Ok(())
    }

    /// What an export is: what its index stands for, or a function of the type that is said.
    fn exported(&self, export: &Export) -> Result<Bound<'a>, Halt> {
        let bound = self.bound_at(export.sort, 0, export.index as u64)?;
        match export.stated {
            None => Ok(bound),
            Some(Description::Func(index)) => match bound {
                Bound::Func(_) => Ok(Bound::Func(self.func_type(index)?)),
                _ => Err(Halt::Refused(WorldFault::Index)),
            },
            Some(_) => match bound {
                Bound::Ty(_) => Ok(bound),
                _ => Err(Halt::Refused(WorldFault::Ascribed)),
            },
        }
    }

    fn add_exports(&mut self, exports: &[Export], parts: &mut Parts) -> Result<(), Halt> {
        for export in exports {
            let bound = self.exported(export)?;
            let bound = self.export(export.name.as_str(), bound, parts)?;
            self.push(bound)?;
        }
        Ok(())
    }

    /// The interface of items under names.
    fn add_bundle(&mut self, items: &[Item]) -> Result<(), Halt> {
        let mut parts = Parts::new(self.alloc);
        for item in items {
            let bound = self.bound_at(item.sort, 0, item.index as u64)?;
            let _ = self.export(item.name.as_str(), bound, &mut parts)?;
        }
        let id = interface_of(&mut self.types, parts)?;
        self.push(Bound::Instance(id))
    }

    fn arguments(&self, items: &[Item]) -> Result<Vec<Argument<'a>>, Halt> {
        let mut arguments = Vec::new(self.alloc);
        for item in items {
            let bound = self.bound_at(item.sort, 0, item.index as u64)?;
            let name = item.name.clone()?;
            arguments.push(Argument { name, bound })?;
        }
        Ok(arguments)
    }

    /// The bytes of the nested component that is instantiated, and the offset of the first.
    fn nested(&mut self, component: u32) -> Result<(&'a [u8], usize), Halt> {
        if self.instances_left == 0 {
            return Err(Halt::Refused(WorldFault::Instances));
        }
        self.instances_left -= 1;
        match self.components.get(0, component as u64) {
            None => Err(Halt::Refused(WorldFault::Index)),
            Some(ComponentItem::Nested(bytes, start, scopes)) => {
                if scopes == self.components.scopes() {
                    Ok((bytes, start))
                } else {
                    Err(Halt::Refused(WorldFault::ForeignComponent))
                }
            }
            Some(ComponentItem::World(_)) => Err(Halt::Refused(WorldFault::ForeignComponent)),
        }
    }

    /// An instance, at the next index.
    #[cycle(levels)]
    fn instantiate(&mut self, levels: usize, instance: &Instance) -> Result<(), Halt> {
        match instance {
            Instance::Bundle(items) => self.add_bundle(items),
            Instance::Instantiate(component, items) => {
                let (bytes, start) = self.nested(*component)?;
                let arguments = self.arguments(items)?;
                let offset = self.offset;
                let parts = self.read_level(levels, start, bytes, Some(&arguments))?;
                self.offset = offset;
                let id = interface_of(&mut self.types, parts)?;
                self.push(Bound::Instance(id))
            }
        }
    }

    #[cycle(levels)]
    fn instantiate_all(&mut self, levels: usize, instances: &[Instance]) -> Result<(), Halt> {
        for instance in instances {
            self.instantiate(levels, instance)?;
        }
        Ok(())
    }

    /// What a section adds that ends at this offset.
    #[cycle(levels)]
    fn add_section(
        &mut self,
        levels: usize,
        end: usize,
        section: Section<'a>,
        arguments: Option<&[Argument<'a>]>,
        parts: &mut Parts,
    ) -> Result<(), Halt> {
        match section {
            Section::Custom(_, _) => Ok(()),
            Section::CoreModule(_) => Ok(()),
            Section::CoreInstances(_) => Ok(()),
            Section::CoreTypes(_) => Ok(()),
            Section::Nested(bytes) => {
                let start = end.saturating_sub(bytes.len());
                let scopes = self.components.scopes();
                self.push(Bound::Component(ComponentItem::Nested(bytes, start, scopes)))
            }
            Section::Instances(instances) => self.instantiate_all(levels, &instances),
            Section::Aliases(aliases) => self.add_aliases(&aliases),
            Section::Types(entries) => self.add_types(&entries),
            Section::Canonicals(canonicals) => self.add_canonicals(&canonicals),
            Section::Start(_, _, results) => {
                if results == 0 {
                    Ok(())
                } else {
                    Err(Halt::Refused(WorldFault::Value))
                }
            }
            Section::Imports(imports) => self.add_imports(&imports, arguments, parts),
            Section::Exports(exports) => self.add_exports(&exports, parts),
        }
    }

    /// What a component imports and exports, whose bytes end at this offset, with at most so many levels in it.
    #[cycle(levels)]
    fn add_sections(
        &mut self,
        levels: usize,
        end: usize,
        bytes: &'a [u8],
        arguments: Option<&[Argument<'a>]>,
        parts: &mut Parts,
    ) -> Result<(), Halt> {
        let mut rest = match skip_preamble(bytes) {
            Ok(rest) => rest,
            Err(stop) => return Err(halt_of(stop, end)),
        };
        while !rest.is_empty() {
            self.offset = end.saturating_sub(rest.len());
            let (section, after) = match read_section(self.alloc, rest) {
                Ok(read) => read,
                Err(stop) => return Err(halt_of(stop, end)),
            };
            let until = end.saturating_sub(after.len());
            self.add_section(levels, until, section, arguments, parts)?;
            rest = after;
        }
        Ok(())
    }

    /// What a component imports and exports, whose bytes begin at this offset, with at most so many levels in it.
    #[cycle(levels)]
    fn read_level(
        &mut self,
        levels: usize,
        start: usize,
        bytes: &'a [u8],
        arguments: Option<&[Argument<'a>]>,
    ) -> Result<Parts, Halt> {
        if levels == 0 {
            return Err(Halt::Refused(WorldFault::Depth));
        }
        self.enter()?;
        let mut parts = Parts::new(self.alloc);
        let end = start.saturating_add(bytes.len());
        self.add_sections(levels - 1, end, bytes, arguments, &mut parts)?;
        self.leave();
        Ok(parts)
    }
}

/// The world of the component that stands in these bytes, in the collection.
fn build_world<'a>(builder: &mut Builder<'a>, bytes: &'a [u8]) -> Result<Parts, Halt> {
    builder.read_level(MAX_LEVELS, 0, bytes, None)
}

fn error_of(halt: Halt, offset: usize) -> WorldError {
    match halt {
        Halt::Unread(offset, kind) => WorldError::Unread { offset, kind },
        Halt::Refused(kind) => WorldError::Refused { offset, kind },
        Halt::Memory => WorldError::Memory,
    }
}

/// The types that were made, the world of these parts among them.
fn finished(types: Types, parts: Parts) -> Result<(Types, WorldId), Halt>
    ensures stands { IfOk result (λ r. Stands r.0 (ItemKind.Component r.1)) }
{
    let mut types = types;
    let id = world_of(&mut types, parts)?;
    Ok((types, id))
}

/// The world of a component, in a collection of this number: its imports and exports by name, with their types, and the
/// types that it uses of interfaces.
///
/// # Errors
/// `Unread` where the bytes are no component that is read, `Refused` where an index stands for nothing, or for what is not
/// known. `Memory` where an allocation failed.
pub fn read_world(alloc: Global, bytes: &[u8], number: u64) -> Result<(Types, WorldId), WorldError>
    ensures stands { IfOk result (λ r. Stands r.0 (ItemKind.Component r.1)) }
{
    let mut builder = Builder::new(alloc, number);
    match build_world(&mut builder, bytes) {
        Err(halt) => Err(error_of(halt, builder.offset)),
        Ok(parts) => {
            let offset = builder.offset;
            match finished(builder.into_types(), parts) {
                Ok(answer) => Ok(answer),
                Err(halt) => Err(error_of(halt, offset)),
            }
        }
    }
}

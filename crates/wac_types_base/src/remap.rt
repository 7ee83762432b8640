//! Entries written again with the ids of the copies.

ghost use Rattle.std.specs.Prelude.{◌≡◌, IfOk, option_map, map};
ghost use Rattle.wac_types_base.specs.Copies.{alias_copy};

use crate::containers::{Items, NamedMap};
use crate::copies::Copies;
use crate::core_types::{CoreExtern, CoreFuncType, CoreImports, CoreType, ModuleType};
use crate::defined::{
    DefinedType, Enum, Flags, FuncType, Interface, Record, Resource, ResourceAlias, UsedType,
    Variant, World, copy_text,
};
use crate::entries::{Entries, Once};
use crate::item::{ItemKind, ValueType};
use std::alloc::{AllocError, Global};

/// What is written again with the ids of the copies.
pub(crate) trait Remap: Drop {
    ghost use Rattle.wac_types_base.specs.declared.copies.Copies.{Copies};

    ghost remapped: { Copies → Self → Self };

    fn remap(&self, alloc: Global, copies: &Copies) -> Result<Self, AllocError>
        ensures { IfOk result (λ r. r ≡ remapped copies.now self.now) };
}

impl Remap for ValueType {
    ghost use Rattle.wac_types_base.specs.Copies.{value_copy};

    ghost remapped = { value_copy };

    fn remap(&self, alloc: Global, copies: &Copies) -> Result<Self, AllocError> {
        Ok(copies.value(*self))
    }
}

impl Remap for Option<ValueType> {
    ghost use Rattle.wac_types_base.specs.Copies.{option_copy};

    ghost remapped = { option_copy };

    fn remap(&self, alloc: Global, copies: &Copies) -> Result<Self, AllocError> {
        Ok(copies.option(*self))
    }
}

impl Remap for ItemKind {
    ghost use Rattle.wac_types_base.specs.Copies.{kind_copy};

    ghost remapped = { kind_copy };

    fn remap(&self, alloc: Global, copies: &Copies) -> Result<Self, AllocError> {
        Ok(copies.kind(*self))
    }
}

impl Remap for UsedType {
    ghost use Rattle.wac_types_base.specs.Copies.{used_copy};

    ghost remapped = { used_copy };

    fn remap(&self, alloc: Global, copies: &Copies) -> Result<Self, AllocError> {
        Ok(UsedType {
            interface: copies.interface(self.interface),
            name: copy_text(&self.name)?,
        })
    }
}

/// Each of them written again.
pub(crate) fn remap_all<T: Remap>(
    alloc: Global,
    items: &[T],
    copies: &Copies,
) -> Result<Vec<T>, AllocError>
    ensures { IfOk result (λ r. r.items ≡ map (T.remapped copies.now) items.now) }
{
    let mut copy = Vec::new(alloc);
    for item in items {
        let item = item.remap(alloc, copies)?;
        copy.push(item)?;
    }
    Ok(copy)
}

/// Each of the entries written again, at its index. What is equal then is kept once.
pub(crate) fn remap_entries<T: Remap + Once>(
    alloc: Global,
    entries: &Entries<T>,
    copies: &Copies,
) -> Result<Entries<T>, AllocError>
    ensures { IfOk result (λ r. r.given ≡ map (T.remapped copies.now) entries.now.given) }
{
    let mut copy = Entries::new(alloc);
    for entry in entries.iter() {
        let entry = entry.remap(alloc, copies)?;
        let _ = copy.push(entry)?;
    }
    Ok(copy)
}

impl<T: Remap> Remap for Items<T> {
    ghost use Rattle.std.specs.Prelude.{map};

    ghost remapped = { λ m xs. map (T.remapped m) xs };

    fn remap(&self, alloc: Global, copies: &Copies) -> Result<Self, AllocError> {
        Ok(Items::from_vec(remap_all(alloc, self.as_slice(), copies)?))
    }
}

impl<T: Remap> Remap for NamedMap<T> {
    ghost use Rattle.wac_types_base.specs.Entries.{with_values};

    ghost remapped = { λ m xs. with_values (T.remapped m) xs };

    fn remap(&self, alloc: Global, copies: &Copies) -> Result<Self, AllocError> {
        let mut copy = NamedMap::new(alloc);
        for at in 0..self.len() {
            let name = self.names()[at].clone()?;
            let value = self.values()[at].remap(alloc, copies)?;
            copy.push(name, value)?;
        }
        Ok(copy)
    }
}

impl Remap for DefinedType {
    ghost use Rattle.wac_types_base.specs.Copies.{defined_copy};

    ghost remapped = { defined_copy };

    fn remap(&self, alloc: Global, copies: &Copies) -> Result<Self, AllocError> {
        let copy = match self {
            DefinedType::Tuple(types) => DefinedType::Tuple(types.remap(alloc, copies)?),
            DefinedType::List(ty) => DefinedType::List(copies.value(*ty)),
            DefinedType::FixedSizeList(ty, len) => {
                DefinedType::FixedSizeList(copies.value(*ty), *len)
            }
            DefinedType::Option(ty) => DefinedType::Option(copies.value(*ty)),
            DefinedType::Result { ok, err } => DefinedType::Result {
                ok: copies.option(*ok),
                err: copies.option(*err),
            },
            DefinedType::Variant(variant) => DefinedType::Variant(Variant {
                cases: variant.cases.remap(alloc, copies)?,
            }),
            DefinedType::Record(record) => DefinedType::Record(Record {
                fields: record.fields.remap(alloc, copies)?,
            }),
            DefinedType::Flags(flags) => DefinedType::Flags(Flags(flags.0.copy(alloc)?)),
            DefinedType::Enum(cases) => DefinedType::Enum(Enum(cases.0.copy(alloc)?)),
            DefinedType::Alias(ty) => DefinedType::Alias(copies.value(*ty)),
            DefinedType::Stream(ty) => DefinedType::Stream(copies.option(*ty)),
            DefinedType::Future(ty) => DefinedType::Future(copies.option(*ty)),
        };
        Ok(copy)
    }
}

fn remap_alias(alias: Option<ResourceAlias>, copies: &Copies) -> Option<ResourceAlias>
    ensures { result ≡ option_map (alias_copy copies.now) alias }
{
    match alias {
        None => None,
        Some(alias) => Some(ResourceAlias {
            owner: match alias.owner {
                None => None,
                Some(owner) => Some(copies.interface(owner)),
            },
            source: copies.resource(alias.source),
        }),
    }
}

impl Remap for Resource {
    ghost use Rattle.wac_types_base.specs.Copies.{resource_copy};

    ghost remapped = { resource_copy };

    fn remap(&self, alloc: Global, copies: &Copies) -> Result<Self, AllocError> {
        Ok(Resource {
            name: self.name.copy()?,
            alias: remap_alias(self.alias, copies),
        })
    }
}

impl Remap for FuncType {
    ghost use Rattle.wac_types_base.specs.Copies.{func_copy};

    ghost remapped = { func_copy };

    fn remap(&self, alloc: Global, copies: &Copies) -> Result<Self, AllocError> {
        Ok(FuncType {
            params: self.params.remap(alloc, copies)?,
            result: copies.option(self.result),
            is_async: self.is_async,
        })
    }
}

impl Remap for Interface {
    ghost use Rattle.wac_types_base.specs.Copies.{interface_copy};

    ghost remapped = { interface_copy };

    fn remap(&self, alloc: Global, copies: &Copies) -> Result<Self, AllocError> {
        Ok(Interface {
            id: copy_text(&self.id)?,
            uses: self.uses.remap(alloc, copies)?,
            exports: self.exports.remap(alloc, copies)?,
        })
    }
}

impl Remap for World {
    ghost use Rattle.wac_types_base.specs.Copies.{world_copy};

    ghost remapped = { world_copy };

    fn remap(&self, alloc: Global, copies: &Copies) -> Result<Self, AllocError> {
        let uses = self.uses.remap(alloc, copies)?;
        Ok(World {
            id: copy_text(&self.id)?,
            uses,
            imports: self.imports.remap(alloc, copies)?,
            exports: self.exports.remap(alloc, copies)?,
        })
    }
}

impl Remap for CoreType {
    ghost remapped = { λ _ t. t };

    fn remap(&self, alloc: Global, copies: &Copies) -> Result<Self, AllocError> {
        Ok(*self)
    }
}

impl Remap for CoreFuncType {
    ghost remapped = { λ _ f. f };

    #[tactic(auto, using(crate::proofs::Loops::map_same))]
    fn remap(&self, alloc: Global, copies: &Copies) -> Result<Self, AllocError> {
        Ok(CoreFuncType {
            params: self.params.remap(alloc, copies)?,
            results: self.results.remap(alloc, copies)?,
        })
    }
}

impl Remap for CoreExtern {
    ghost remapped = { λ _ e. e };

    fn remap(&self, alloc: Global, copies: &Copies) -> Result<Self, AllocError> {
        let copy = match self {
            CoreExtern::Func(func) => CoreExtern::Func(func.remap(alloc, copies)?),
            CoreExtern::Table {
                element_type,
                initial,
                maximum,
                table64,
                shared,
            } => CoreExtern::Table {
                element_type: *element_type,
                initial: *initial,
                maximum: *maximum,
                table64: *table64,
                shared: *shared,
            },
            CoreExtern::Memory {
                memory64,
                shared,
                initial,
                maximum,
                page_size_log2,
            } => CoreExtern::Memory {
                memory64: *memory64,
                shared: *shared,
                initial: *initial,
                maximum: *maximum,
                page_size_log2: *page_size_log2,
            },
            CoreExtern::Global {
                val_type,
                mutable,
                shared,
            } => CoreExtern::Global {
                val_type: *val_type,
                mutable: *mutable,
                shared: *shared,
            },
            CoreExtern::Tag(func) => CoreExtern::Tag(func.remap(alloc, copies)?),
        };
        Ok(copy)
    }
}

impl Remap for CoreImports {
    ghost remapped = { λ _ m. m };

    fn remap(&self, alloc: Global, copies: &Copies) -> Result<Self, AllocError> {
        let mut copy = CoreImports::new(alloc);
        for at in 0..self.len() {
            let (module_name, name) = &self.names()[at];
            let module_name = module_name.clone()?;
            let name = name.clone()?;
            let item = self.values()[at].remap(alloc, copies)?;
            copy.push(module_name, name, item)?;
        }
        Ok(copy)
    }
}

impl Remap for ModuleType {
    ghost remapped = { λ _ m. m };

    #[tactic(auto, using(crate::proofs::Loops::with_values_same))]
    fn remap(&self, alloc: Global, copies: &Copies) -> Result<Self, AllocError> {
        Ok(ModuleType {
            imports: self.imports.remap(alloc, copies)?,
            exports: self.exports.remap(alloc, copies)?,
        })
    }
}

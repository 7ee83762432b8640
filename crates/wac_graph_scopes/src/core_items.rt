//! Core module types.

ghost use Rattle.std.specs.Prelude.{◌≡◌, ◌∷◌, [], ◌+◌, ◌≤◌, length, Some, IfOk, IfErr, map};
ghost use Rattle.wac_types_base.specs.declared.core_types.CoreExtern.TheVariants as extern;
ghost use Rattle.wac_graph_bytes.specs.declared.module.CoreReference.{CoreReference};
ghost use Rattle.wac_graph_bytes.specs.Typing.{core_reference_type, core_type, module_tree};
ghost use Rattle.wac_graph_bytes.specs.Views.{module_view};
ghost use Rattle.wac_graph_scopes.specs.declared.error.WriteError.{WriteError};
ghost use Rattle.wac_graph_scopes.specs.CoreItems.{IsUnspoken, CoreFails, OneFails, ModuleFails, TypesRefused, PlainRefused, CoresRefused, ModuleRefused, IsPlainItem};
ghost use Rattle.wac_graph_scopes.specs.CoreItems.{AddsSignature, IsItem, DescribesCore, AddsCores, AddsImport};
ghost use Rattle.wac_types_base.specs.Entries.{names_of, values_of, AreDistinct};
ghost use Rattle.wac_types_fit.specs.Checking.{module_tree as tree_of_module};

use crate::error::WriteError;
use crate::scope::next_of;
use std::alloc::Global;
use wac_graph_bytes::{
    CoreDeclaration, CoreDescription, CoreReference, CoreValue, Limits, core_reference, core_value,
};
use wac_types_base::{
    CoreExtern, CoreFuncType, CoreImports, CoreRefType, CoreType, ModuleType, NamedMap,
};

/// The declarations of a module type, and how many of them are signatures.
#[derive(Drop)]
pub(crate) struct ModuleScope {
    declarations: Vec<CoreDeclaration>,
    signatures: u64,
}

fn reference_of(ty: CoreRefType) -> Result<CoreReference, WriteError>
    ensures written { IfOk result (λ r. core_reference_type r ≡ ty) }
    ensures refused { IfErr result (λ e. (e ≡ WriteError.Unwritable) × ((r : CoreReference) → core_reference_type r ≡ ty → ⊥)) }
{
    match core_reference(ty) {
        Some(reference) => Ok(reference),
        None => Err(WriteError::Unwritable),
    }
}

fn value_of(ty: CoreType) -> Result<CoreValue, WriteError>
    ensures written { IfOk result (λ v. core_type v ≡ ty) }
    ensures refused { IfErr result (λ e. (e ≡ WriteError.Unwritable) × IsUnspoken ty) }
{
    match core_value(ty) {
        Some(value) => Ok(value),
        None => Err(WriteError::Unwritable),
    }
}

fn values_of(alloc: Global, types: &[CoreType]) -> Result<Vec<CoreValue>, WriteError>
    ensures written { IfOk result (λ v. map core_type v.items ≡ types.now) }
    ensures refused { IfErr result (TypesRefused types.now) }
{
    let mut all = Vec::new(alloc);
    for ty in types {
        all.push(value_of(*ty)?)?;
    }
    Ok(all)
}

/// The type of a table, which is not shared.
fn table_of(
    element: CoreRefType,
    limits: Limits,
    shared: bool,
) -> Result<CoreDescription, WriteError>
    ensures written { IfOk result (λ d. IsItem d (extern.Table element limits.minimum limits.maximum limits.wide shared)) }
    ensures refused { IfErr result (PlainRefused (extern.Table element limits.minimum limits.maximum limits.wide shared)) }
{
    if shared {
        return Err(WriteError::Unwritable);
    }
    let reference = reference_of(element)?;
    Ok(CoreDescription::Table(reference, limits))
}

/// The type of a memory, whose pages have the usual size.
fn memory_of(
    limits: Limits,
    shared: bool,
    page_size: Option<u32>,
) -> Result<CoreDescription, WriteError>
    ensures written { IfOk result (λ d. IsItem d (extern.Memory limits.wide shared limits.minimum limits.maximum page_size)) }
    ensures refused { IfErr result (PlainRefused (extern.Memory limits.wide shared limits.minimum limits.maximum page_size)) }
{
    match page_size {
        Some(_) => Err(WriteError::Unwritable),
        None => Ok(CoreDescription::Memory(limits, shared)),
    }
}

/// The type of a global, which is not shared.
fn global_of(ty: CoreType, mutable: bool, shared: bool) -> Result<CoreDescription, WriteError>
    ensures written { IfOk result (λ d. IsItem d (extern.Global ty mutable shared)) }
    ensures refused { IfErr result (PlainRefused (extern.Global ty mutable shared)) }
{
    if shared {
        return Err(WriteError::Unwritable);
    }
    let value = value_of(ty)?;
    Ok(CoreDescription::Global(value, mutable))
}

/// What an item of a module is that needs no signature.
fn describe_plain(item: &CoreExtern) -> Result<CoreDescription, WriteError>
    requires { IsPlainItem item.now }
    ensures written { IfOk result (λ d. IsItem d item.now) }
    ensures refused { IfErr result (PlainRefused item.now) }
{
    match item {
        CoreExtern::Table {
            element_type,
            initial,
            maximum,
            table64,
            shared,
        } => {
            let limits = Limits {
                minimum: *initial,
                maximum: *maximum,
                wide: *table64,
            };
            table_of(*element_type, limits, *shared)
        }
        CoreExtern::Memory {
            memory64,
            shared,
            initial,
            maximum,
            page_size_log2,
        } => {
            let limits = Limits {
                minimum: *initial,
                maximum: *maximum,
                wide: *memory64,
            };
            memory_of(limits, *shared, *page_size_log2)
        }
        CoreExtern::Global {
            val_type,
            mutable,
            shared,
        } => global_of(*val_type, *mutable, *shared),
        _ => Err(WriteError::Unwritable),
    }
}

impl ModuleScope {
    /// The index of a function's signature.
    fn signature(&mut self, alloc: Global, func: &CoreFuncType) -> Result<u64, WriteError>
        ensures written { IfOk result (λ k. AddsSignature self.old self.new func.now k) }
        ensures spoken { IfOk result (λ _. CoreFails (extern.Func func.now) → ⊥) }
        ensures refused { IfErr result (CoresRefused (extern.Func func.now ∷ [])) }
    {
        let params = values_of(alloc, func.params.as_slice())?;
        let results = values_of(alloc, func.results.as_slice())?;
        let index = self.signatures;
        self.declarations
            .push(CoreDeclaration::Signature(params, results))?;
        self.signatures = next_of(index);
        Ok(index)
    }

    /// What an item of a module is.
    fn describe(&mut self, alloc: Global, item: &CoreExtern) -> Result<CoreDescription, WriteError>
        ensures written { IfOk result (λ d. DescribesCore self.old self.new item.now d) }
        ensures spoken { IfOk result (λ _. CoreFails item.now → ⊥) }
        ensures refused { IfErr result (CoresRefused (item.now ∷ [])) }
    {
        match item {
            CoreExtern::Func(func) => {
                let index = self.signature(alloc, func)?;
                Ok(CoreDescription::Func(index))
            }
            CoreExtern::Tag(func) => {
                let index = self.signature(alloc, func)?;
                Ok(CoreDescription::Tag(index))
            }
            _ => describe_plain(item),
        }
    }

    fn import(
        &mut self,
        alloc: Global,
        names: &(String, String),
        item: &CoreExtern,
    ) -> Result<(), WriteError>
        ensures written { IfOk result (λ _. AddsImport self.old self.new names.now item.now) }
        ensures spoken { IfOk result (λ _. CoreFails item.now → ⊥) }
        ensures refused { IfErr result (CoresRefused (item.now ∷ [])) }
    {
        let description = self.describe(alloc, item)?;
        let module = String::from_str(alloc, names.0.as_str())?;
        let name = String::from_str(alloc, names.1.as_str())?;
        self.declarations
            .push(CoreDeclaration::Import(module, name, description))?;
        Ok(())
    }

    fn export(&mut self, alloc: Global, name: &str, item: &CoreExtern) -> Result<(), WriteError>
        ensures written { IfOk result (λ _. AddsCores self.old self.new [] ((name.now, item.now) ∷ [])) }
        ensures spoken { IfOk result (λ _. CoreFails item.now → ⊥) }
        ensures refused { IfErr result (CoresRefused (item.now ∷ [])) }
    {
        let description = self.describe(alloc, item)?;
        let name = String::from_str(alloc, name)?;
        self.declarations
            .push(CoreDeclaration::Export(name, description))?;
        Ok(())
    }

    fn import_all(&mut self, alloc: Global, imports: &CoreImports) -> Result<(), WriteError>
        ensures adds { IfOk result (λ _. AddsCores self.old self.new imports.now []) }
        ensures distinct { AreDistinct (names_of imports.now) }
        ensures spoken { IfOk result (λ _. OneFails (values_of imports.now) → ⊥) }
        ensures refused { IfErr result (CoresRefused (values_of imports.now)) }
    {
        for at in 0..imports.len() {
            let item = &imports.values()[at];
            self.import(alloc, &imports.names()[at], item)?;
        }
        Ok(())
    }

    fn export_all(
        &mut self,
        alloc: Global,
        exports: &NamedMap<CoreExtern>,
    ) -> Result<(), WriteError>
        ensures adds { IfOk result (λ _. AddsCores self.old self.new [] exports.now) }
        ensures distinct { AreDistinct (names_of exports.now) }
        ensures spoken { IfOk result (λ _. OneFails (values_of exports.now) → ⊥) }
        ensures refused { IfErr result (CoresRefused (values_of exports.now)) }
    {
        for at in 0..exports.len() {
            let (name, item) = exports.entry(at);
            self.export(alloc, name, item)?;
        }
        Ok(())
    }
}

/// The declarations of a module type.
pub(crate) fn module_declarations(
    alloc: Global,
    module: &ModuleType,
) -> Result<Vec<CoreDeclaration>, WriteError>
    ensures written { IfOk result (λ v. module_tree (module_view v.items) ≡ Some (tree_of_module «module».now)) }
    ensures spoken { IfOk result (λ _. ModuleFails «module».now → ⊥) }
    ensures refused { IfErr result (ModuleRefused «module».now) }
{
    let mut scope = ModuleScope {
        declarations: Vec::new(alloc),
        signatures: 0,
    };
    scope.import_all(alloc, &module.imports)?;
    scope.export_all(alloc, &module.exports)?;
    Ok(scope.declarations)
}

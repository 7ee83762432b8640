//! Whether one module type fits another.

ghost use Rattle.std.specs.Prelude.{◌≡◌, ◌⊎◌, OnOk, IfOk, Some, None, Option, List, [], ◌∷◌, string_bytes, option_map, ◌==◌, ◌&&◌};
ghost use Rattle.std.specs.Cmp.Lexicographic.{pointwise};
ghost use Rattle.std.specs.Option.{option_copied};
ghost use Rattle.wac_types_base.specs.declared.core_types.CoreExtern.{CoreExtern};
ghost use Rattle.wac_types_base.specs.declared.item.ExternKind.{ExternKind};
ghost use Rattle.wac_types_base.specs.Entries.{Name, AreDistinct, names_of, value_at};
ghost use Rattle.wac_types_base.specs.Fits.{Fits};
ghost use Rattle.wac_types_fit.specs.Frames.{Step, Disagree, joined_name};
ghost use Rattle.wac_types_fit.specs.Errors.{IfMismatch, steps_of, said, IfSaid, SaysBehind};
ghost use Rattle.wac_types_fit.specs.Words.{core_word, ImportCalled, ExportCalled, CoreCalled, AreCalled, in_turn};
ghost use Rattle.wac_types_fit.specs.Checking.{HasAll, LacksOne, module_tree, import_at};

use crate::error::{SubtypeError, behind, mismatch, within};
use crate::same_core::same_items;
use std::alloc::{AllocError, Global};
use wac_types_base::{CoreExtern, CoreImports, ExternKind, ModuleType, NamedMap};

/// What a core item is called.
fn item_desc(item: &CoreExtern) -> &'static str
    ensures { result.now ≡ core_word item.now }
{
    match item {
        CoreExtern::Func(_) => "core function",
        CoreExtern::Table { .. } => "core table",
        CoreExtern::Memory { .. } => "core memory",
        CoreExtern::Global { .. } => "core global",
        CoreExtern::Tag(_) => "core tag",
    }
}

/// Whether the item that is given, if any, is the one that is asked.
fn item_fits(
    alloc: Global,
    turned: bool,
    given: Option<&CoreExtern>,
    asked: &CoreExtern,
) -> Result<(), SubtypeError>
    ensures yes { OnOk result (option_copied given.entry ≡ Some asked.now) }
    ensures no { IfMismatch result (λ ss. (ss ≡ []) × (option_copied given.entry ≡ Some asked.now → ⊥)) }
    ensures words { said result ≡ None
        ⊎ (said result
        ≡ Some ([], in_turn turned (Some (core_word asked.now)) (option_map core_word (option_copied given.entry)))) }
{
    match given {
        None => Err(mismatch(alloc, turned, None, Some(item_desc(asked)))),
        Some(given) => {
            if same_items(given, asked) {
                Ok(())
            } else {
                Err(mismatch(
                    alloc,
                    turned,
                    Some(item_desc(given)),
                    Some(item_desc(asked)),
                ))
            }
        }
    }
}

/// Whether an import has these names.
fn is_named(found: &(String, String), from: &str, name: &str) -> bool
    ensures { result
        ≡ (pointwise ◌==◌ (string_bytes found.now.0) from.now && pointwise ◌==◌ (string_bytes found.now.1) name.now) }
{
    found.0.as_str() == from && found.1.as_str() == name
}

/// The import of two names.
fn import_of<'a>(imports: &'a CoreImports, from: &str, name: &str) -> Option<&'a CoreExtern>
    ensures { option_copied result ≡ import_at imports.now (from.now, name.now) }
{
    for at in 0..imports.len() {
        let names = &imports.names()[at];
        let item = &imports.values()[at];
        if is_named(names, from, name) {
            return Some(item);
        }
    }
    None
}

/// The name of a module and a name in it, as one.
fn join_names(alloc: Global, from: &str, name: &str) -> Result<String, AllocError>
    ensures { IfOk result (λ s. string_bytes s ≡ joined_name (from.now, name.now)) }
{
    let mut joined = String::from_str(alloc, from)?;
    joined.push_str("::")?;
    joined.push_str(name)?;
    Ok(joined)
}

/// The fault, behind an import of these names.
fn behind_import(alloc: Global, from: &str, name: &str, fault: SubtypeError) -> SubtypeError
    ensures steps { (ss : List Step) → steps_of result ≡ Some ss
        → (rest : List Step) × (steps_of fault ≡ Some rest)
        × (ss ≡ (ExternKind.Import, joined_name (from.now, name.now)) ∷ rest) }
    ensures words { SaysBehind result (ExternKind.Import, joined_name (from.now, name.now)) fault }
{
    match join_names(alloc, from, name) {
        Err(AllocError) => SubtypeError::Memory,
        Ok(joined) => behind(ExternKind::Import, joined, fault),
    }
}

/// Whether each import asked is one of those given.
fn imports_fit(
    alloc: Global,
    turned: bool,
    given: &CoreImports,
    asked: &CoreImports,
) -> Result<(), SubtypeError>
    ensures yes { OnOk result (HasAll import_at given.now asked.now) }
    ensures no { IfMismatch result (LacksOne import_at ExternKind.Import joined_name given.now asked.now) }
    ensures words { IfSaid result (λ ss e f. AreCalled turned (ImportCalled given.now ss) (ImportCalled asked.now ss) e f) }
{
    for at in 0..asked.len() {
        let names = &asked.names()[at];
        let item = &asked.values()[at];
        let from = names.0.as_str();
        let name = names.1.as_str();
        match item_fits(alloc, turned, import_of(given, from, name), item) {
            Ok(()) => {}
            Err(fault) => return Err(behind_import(alloc, from, name, fault)),
        }
    }
    Ok(())
}

/// Whether each export asked is one of those given.
fn exports_fit(
    alloc: Global,
    turned: bool,
    given: &NamedMap<CoreExtern>,
    asked: &NamedMap<CoreExtern>,
) -> Result<(), SubtypeError>
    ensures yes { OnOk result (HasAll value_at given.now asked.now) }
    ensures no { IfMismatch result (LacksOne value_at ExternKind.Export (λ n. n) given.now asked.now) }
    ensures words { IfSaid result (λ ss e f. AreCalled turned (ExportCalled given.now ss) (ExportCalled asked.now ss) e f) }
{
    for at in 0..asked.len() {
        let (name, item) = asked.entry(at);
        match item_fits(alloc, turned, given.get(name), item) {
            Ok(()) => {}
            Err(fault) => return Err(within(alloc, ExternKind::Export, name, fault)),
        }
    }
    Ok(())
}

/// No name of a module type stands twice. It does nothing: its contract tells so.
fn see_distinct(ty: &ModuleType)
    ensures imports { AreDistinct (names_of ty.now.imports) }
    ensures exports { AreDistinct (names_of ty.now.exports) }
{
    let _ = ty.imports.len();
    let _ = ty.exports.len();
}

/// Whether a module type fits another: its imports the other way round, and its exports.
pub(crate) fn modules_fit(
    alloc: Global,
    turned: bool,
    given: &ModuleType,
    asked: &ModuleType,
) -> Result<(), SubtypeError>
    ensures yes { OnOk result (Fits (module_tree given.now) (module_tree asked.now)) }
    ensures no { IfMismatch result (λ ss. Disagree ss (module_tree given.now) (module_tree asked.now)) }
    ensures words { IfSaid result (λ ss e f. AreCalled turned (CoreCalled given.now ss) (CoreCalled asked.now ss) e f) }
{
    see_distinct(given);
    see_distinct(asked);
    imports_fit(alloc, !turned, &asked.imports, &given.imports)?;
    exports_fit(alloc, turned, &given.exports, &asked.exports)
}

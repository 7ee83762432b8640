//! Whether a component meets a target world.

ghost use Rattle.std.specs.Prelude.{◌≡◌, ◌++◌, ◌∷◌, [], IfOk, IfErr, OnOk, IsTrue, IsSome, ◌↔◌, Some, None, Option, Result, String, ⊤, slice_get};
ghost use Rattle.std.specs.Option.{option_copied};
ghost use Rattle.std.specs.Iterator.Adapters.{IterYieldsInOrder};
ghost use Rattle.std.specs.Slice.Iter.{iter_rest};
ghost use Rattle.wac_types_base.specs.declared.item.ItemKind.{ItemKind};
ghost use Rattle.wac_types_base.specs.declared.item.ExternKind.{ExternKind};
ghost use Rattle.wac_types_base.specs.declared.implicit.TargetError.{TargetError};
ghost use Rattle.wac_types_base.specs.declared.defined.World.{World};
ghost use Rattle.wac_types_base.specs.Entries.{Name, value_at, names_of, texts_of, entries_of};
ghost use Rattle.wac_types_base.specs.Collection.{Stands};
ghost use Rattle.wac_types_base.specs.Resolving.{promoted};
ghost use Rattle.wac_types_base.specs.Implicit.{shown, by_identifier, implicit_interfaces};
ghost use Rattle.wac_types_fit.specs.Errors.{words_of};
ghost use Rattle.wac_types_fit.specs.Checking.{IsTrueOf};
ghost use Rattle.wac_types_fit.specs.Targets.{Report, target_import, ImportDiffers, ExportDiffers, ImportLeads, ExportLeads, IsLacking, AreThose, AreLacking, Differing, IsReport, IsEmptyReport, Tells};
ghost use Rattle.wac_types_fit.specs.TargetSteps.{mismatches, name_if, entry_if, PairChecked, ImportChecked, ExportChecked, KindStands, GivesStanding, AllStand};

use crate::cache::{Cache, new_cache};
use crate::check::{Item, Sides, fits};
use crate::error::SubtypeError;
use indexmap::IndexMap;
use std::alloc::{AllocError, Global};
use std::error::Error;
use std::fmt;
use std::marker::Model;
use std::slice::Iter;
use wac_types_base::{ExternKind, ItemKind, NamedMap, TargetError, Types, World, WorldId};

/// How a component differs from a target world.
#[derive(Debug, Drop)]
pub struct TargetValidationReport {
    imports_not_in_target: Vec<String>,
    missing_exports: Vec<(String, ItemKind)>,
    mismatched_types: Vec<(String, ExternKind, SubtypeError)>,
}

impl Model for TargetValidationReport {
    ghost use Rattle.wac_types_base.specs.Entries.{texts_of, entries_of};
    ghost use Rattle.wac_types_fit.specs.Targets.{Report};
    ghost use Rattle.wac_types_fit.specs.TargetSteps.{mismatches};

    ghost Value = { Report };

    ghost view = { λ r. record {
      imports_not_in_target = texts_of r.imports_not_in_target.items;
      missing_exports = entries_of r.missing_exports.items;
      mismatched_types = mismatches r.mismatched_types.items;
    } };
}

/// Whether a component meets a target world, and if not the report.
pub type TargetValidationResult = Result<(), TargetValidationReport>;

impl TargetValidationReport {
    /// The imports of the component that the target does not have.
    pub fn imports_not_in_target(&self) -> Iter<'_, String>
        ensures rest { texts_of (iter_rest result) ≡ self.now.imports_not_in_target }
        ensures runs { IterYieldsInOrder (String Global) }
    {
        self.imports_not_in_target.iter()
    }

    /// The exports of the target that the component does not have.
    pub fn missing_exports(&self) -> Iter<'_, (String, ItemKind)>
        ensures rest { entries_of (iter_rest result) ≡ self.now.missing_exports }
        ensures runs { IterYieldsInOrder (String Global × ItemKind) }
    {
        self.missing_exports.iter()
    }

    /// The imports and exports whose types do not fit.
    pub fn mismatched_types(&self) -> Iter<'_, (String, ExternKind, SubtypeError)>
        ensures rest { mismatches (iter_rest result) ≡ self.now.mismatched_types }
        ensures runs { IterYieldsInOrder (String Global × ExternKind × SubtypeError) }
    {
        self.mismatched_types.iter()
    }

    /// Whether the component meets the target.
    fn is_empty(&self) -> bool
        ensures { IsTrue result ↔ IsEmptyReport self.now }
    {
        self.imports_not_in_target.is_empty()
            && self.missing_exports.is_empty()
            && self.mismatched_types.is_empty()
    }
}

/// Accepted exactly where the report's lists are empty.
fn answer_of(report: TargetValidationReport) -> TargetValidationResult
    ensures { Tells report result }
{
    if report.is_empty() {
        Ok(())
    } else {
        Err(report)
    }
}

impl From<TargetValidationReport> for TargetValidationResult {
    ghost use Rattle.wac_types_fit.specs.Targets.{Tells};

    ghost from_gives = { λ report answer. Tells report answer };

    fn from(report: TargetValidationReport) -> Self {
        answer_of(report)
    }
}

impl fmt::Display for TargetValidationReport {
    fn fmt<W: fmt::Write>(&self, f: &mut fmt::Formatter<W>) -> fmt::Result {
        for name in &self.imports_not_in_target {
            writeln!(f, "import `{name}` is not in the target")?;
        }
        for (name, _) in &self.missing_exports {
            writeln!(f, "export `{name}` of the target is missing")?;
        }
        for (name, kind, error) in &self.mismatched_types {
            writeln!(f, "{kind} `{name}` has a mismatched type: {error}")?;
        }
        Ok(())
    }
}

impl Error for TargetValidationReport {}

/// What a target gives under the name of an import.
fn given_import(implicit: &IndexMap<&str, ItemKind>, target: &World, name: &str) -> Option<ItemKind>
    ensures { result ≡ target_import (shown implicit.now.entries) target.now.imports name.now }
{
    match implicit.get(name).copied() {
        Some(kind) => Some(kind),
        None => target.imports.get(name).copied(),
    }
}

/// Adds the name of an item for which nothing is given.
fn add_lacking(
    alloc: Global,
    lacking: &mut Vec<String>,
    name: &str,
    given: Option<ItemKind>,
) -> Result<(), AllocError>
    ensures { OnOk result (texts_of lacking.new.items ≡ texts_of lacking.old.items ++ name_if given name.now) }
{
    match given {
        Some(_) => Ok(()),
        None => {
            lacking.push(String::from_str(alloc, name)?)?;
            Ok(())
        }
    }
}

/// The imports of the component that the target does not give.
fn lacking_imports(
    alloc: Global,
    implicit: &IndexMap<&str, ItemKind>,
    target: &World,
    imports: &NamedMap<ItemKind>,
) -> Result<Vec<String>, AllocError>
    ensures { IfOk result (λ names. AreLacking (target_import (shown implicit.now.entries) target.now.imports) imports.now
        (texts_of names.items)) }
{
    let mut lacking = Vec::new(alloc);
    for at in 0..imports.len() {
        let (name, _) = imports.entry(at);
        add_lacking(
            alloc,
            &mut lacking,
            name,
            given_import(implicit, target, name),
        )?;
    }
    Ok(lacking)
}

/// Adds an item for which nothing is given.
fn add_missing(
    alloc: Global,
    missing: &mut Vec<(String, ItemKind)>,
    name: &str,
    kind: ItemKind,
    given: Option<ItemKind>,
) -> Result<(), AllocError>
    ensures { OnOk result (entries_of missing.new.items ≡ entries_of missing.old.items ++ entry_if given name.now kind) }
{
    match given {
        Some(_) => Ok(()),
        None => {
            missing.push((String::from_str(alloc, name)?, kind))?;
            Ok(())
        }
    }
}

/// The exports of the target that the component does not have.
fn missing_exports(
    alloc: Global,
    component: &World,
    exports: &NamedMap<ItemKind>,
) -> Result<Vec<(String, ItemKind)>, AllocError>
    ensures { IfOk result
        (λ missing. AreThose (IsLacking (value_at component.now.exports)) exports.now (entries_of missing.items)) }
{
    let mut missing = Vec::new(alloc);
    for at in 0..exports.len() {
        let (name, kind) = exports.entry(at);
        let given = component.exports.get(name).copied();
        add_missing(alloc, &mut missing, name, *kind, given)?;
    }
    Ok(missing)
}

/// Adds an item of this name that does not fit.
fn add_fault(
    alloc: Global,
    side: ExternKind,
    name: &str,
    fault: SubtypeError,
    found: &mut Vec<(String, ExternKind, SubtypeError)>,
) -> Result<(), AllocError>
    ensures { OnOk result (IsSome (words_of fault)
        × (mismatches found.new.items ≡ mismatches found.old.items ++ (name.now, side, words_of fault) ∷ [])) }
{
    match fault {
        SubtypeError::Memory => Err(AllocError),
        SubtypeError::Mismatch {
            frames,
            expected,
            found: given,
        } => {
            let fault = SubtypeError::Mismatch {
                frames,
                expected,
                found: given,
            };
            found.push((String::from_str(alloc, name)?, side, fault))?;
            Ok(())
        }
    }
}

/// The pairs that are known to fit, and the items that were found not to.
#[derive(Drop)]
struct Comparison {
    cache: Cache,
    found: Vec<(String, ExternKind, SubtypeError)>,
}

impl Comparison {
    /// Adds an item that does not fit the one asked.
    fn add_mismatch(
        &mut self,
        types: &Types,
        alloc: Global,
        side: ExternKind,
        given: ItemKind,
        asked: Item<'_>,
    ) -> Result<(), AllocError>
        requires given { Stands types.now given }
        requires asked { Stands types.now asked.kind }
        requires cache { IsTrueOf types.now types.now self.old.cache.keys }
        ensures checked { OnOk result (PairChecked types.now given asked.entry.kind side asked.entry.name.now
            (mismatches self.old.found.items) (mismatches self.new.found.items)) }
        ensures cache { IsTrueOf types.now types.now self.new.cache.keys }
    {
        let sides = Sides {
            given: types,
            asked: types,
            turned: matches!(side, ExternKind::Import),
        };
        match fits(sides, alloc, &mut self.cache, given, asked.kind) {
            Ok(()) => Ok(()),
            Err(fault) => add_fault(alloc, side, asked.name, fault, &mut self.found),
        }
    }

    /// Adds an import that does not fit what the target gives.
    fn check_import(
        &mut self,
        types: &Types,
        alloc: Global,
        given: Option<ItemKind>,
        asked: Item<'_>,
    ) -> Result<(), AllocError>
        requires given { KindStands types.now given }
        requires asked { Stands types.now asked.kind }
        requires cache { IsTrueOf types.now types.now self.old.cache.keys }
        ensures checked { OnOk result (ImportChecked types.now given asked.entry.name.now asked.entry.kind
            (mismatches self.old.found.items) (mismatches self.new.found.items)) }
        ensures cache { IsTrueOf types.now types.now self.new.cache.keys }
    {
        match given {
            None => Ok(()),
            Some(given) => {
                let given = given.promote();
                self.add_mismatch(types, alloc, ExternKind::Import, given, asked)
            }
        }
    }

    /// Adds an export of the target that the component's does not fit.
    fn check_export(
        &mut self,
        types: &Types,
        alloc: Global,
        given: Option<ItemKind>,
        asked: Item<'_>,
    ) -> Result<(), AllocError>
        requires given { KindStands types.now given }
        requires asked { Stands types.now asked.kind }
        requires cache { IsTrueOf types.now types.now self.old.cache.keys }
        ensures checked { OnOk result (ExportChecked types.now given asked.entry.name.now asked.entry.kind
            (mismatches self.old.found.items) (mismatches self.new.found.items)) }
        ensures cache { IsTrueOf types.now types.now self.new.cache.keys }
    {
        match given {
            None => Ok(()),
            Some(given) => {
                let asked = Item {
                    name: asked.name,
                    kind: asked.kind.promote(),
                };
                self.add_mismatch(types, alloc, ExternKind::Export, given, asked)
            }
        }
    }

    /// Adds the imports of the component that do not fit what the target gives.
    fn check_imports(
        &mut self,
        types: &Types,
        alloc: Global,
        implicit: &IndexMap<&str, ItemKind>,
        target: &World,
        imports: &NamedMap<ItemKind>,
    ) -> Result<(), AllocError>
        requires given { GivesStanding types.now (target_import (shown implicit.now.entries) target.now.imports) }
        requires asked { AllStand types.now imports.now }
        requires cache { IsTrueOf types.now types.now self.old.cache.keys }
        ensures checked { OnOk result (Differing (ImportDiffers types.now
            (target_import (shown implicit.now.entries) target.now.imports))
            (ImportLeads types.now (target_import (shown implicit.now.entries) target.now.imports)) ExternKind.Import
            imports.now (mismatches self.old.found.items) (mismatches self.new.found.items)) }
        ensures cache { IsTrueOf types.now types.now self.new.cache.keys }
    {
        for at in 0..imports.len() {
            let (name, kind) = imports.entry(at);
            let given = given_import(implicit, target, name);
            let asked = Item { name, kind: *kind };
            self.check_import(types, alloc, given, asked)?;
        }
        Ok(())
    }

    /// Adds the exports of the target that those of the component do not fit.
    fn check_exports(
        &mut self,
        types: &Types,
        alloc: Global,
        component: &World,
        exports: &NamedMap<ItemKind>,
    ) -> Result<(), AllocError>
        requires given { GivesStanding types.now (value_at component.now.exports) }
        requires asked { AllStand types.now exports.now }
        requires cache { IsTrueOf types.now types.now self.old.cache.keys }
        ensures checked { OnOk result (Differing (ExportDiffers types.now (value_at component.now.exports))
            (ExportLeads types.now (value_at component.now.exports)) ExternKind.Export exports.now
            (mismatches self.old.found.items) (mismatches self.new.found.items)) }
        ensures cache { IsTrueOf types.now types.now self.new.cache.keys }
    {
        for at in 0..exports.len() {
            let (name, kind) = exports.entry(at);
            let given = component.exports.get(name).copied();
            let asked = Item { name, kind: *kind };
            self.check_export(types, alloc, given, asked)?;
        }
        Ok(())
    }
}

/// The report, by what the target imports implicitly.
fn report_of(
    alloc: Global,
    types: &Types,
    implicit: &IndexMap<&str, ItemKind>,
    target: &World,
    component: &World,
) -> Result<TargetValidationReport, AllocError>
    requires implicit { by_identifier types.now [] (implicit_interfaces types.now target.now)
        ≡ Some (shown implicit.now.entries) }
    requires given_imports { GivesStanding types.now (target_import (shown implicit.now.entries) target.now.imports) }
    requires imports { AllStand types.now component.now.imports }
    requires given_exports { GivesStanding types.now (value_at component.now.exports) }
    requires exports { AllStand types.now target.now.exports }
    ensures { IfOk result (IsReport types.now target.now component.now) }
{
    let mut comparison = Comparison {
        cache: new_cache(alloc),
        found: Vec::new(alloc),
    };
    comparison.check_imports(types, alloc, implicit, target, &component.imports)?;
    comparison.check_exports(types, alloc, component, &target.exports)?;
    Ok(TargetValidationReport {
        imports_not_in_target: lacking_imports(alloc, implicit, target, &component.imports)?,
        missing_exports: missing_exports(alloc, component, &target.exports)?,
        mismatched_types: comparison.found,
    })
}

/// Compares a component with a target world. Each import of the component has to be given by the target, and each
/// export of the target by the component.
pub fn validate_target(
    alloc: Global,
    types: &Types,
    target: WorldId,
    component: WorldId,
) -> Result<TargetValidationResult, TargetError>
    requires target { Stands types.now (ItemKind.Component target) }
    requires component { Stands types.now (ItemKind.Component component) }
    ensures report { (x y : World) → slice_get types.now.worlds target.index ≡ Some x
        → slice_get types.now.worlds component.index ≡ Some y
        → IfOk result (λ answer. (r : Report) × IsReport types.now x y r × Tells r answer) }
    ensures unnamed { (x : World) → slice_get types.now.worlds target.index ≡ Some x
        → IfErr result (λ e. e ≡ TargetError.UsedWithoutIdentifier
        → by_identifier types.now [] (implicit_interfaces types.now x) ≡ None) }
{
    let wanted = types.world(target);
    let own = types.world(component);
    let implicit = wanted.implicit_imported_interfaces(alloc, types)?;
    match report_of(alloc, types, &implicit, wanted, own) {
        Ok(report) => Ok(answer_of(report)),
        Err(AllocError) => Err(TargetError::Memory),
    }
}

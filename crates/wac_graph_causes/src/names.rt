//! Names that are alike.

ghost use Rattle.std.specs.Prelude.{◌≡◌, ◌++◌, ◌∷◌, [], Some, None, OnOk, IfOk, IfErr, option_map, option_copied, string_bytes};
ghost use Rattle.semver.specs.Identifiers.{parts_of};
ghost use Rattle.wac_types_base.specs.Entries.{names_of, value_at};
ghost use Rattle.wac_graph_core.specs.Graph.{package_of};
ghost use Rattle.wac_composition.specs.Conflicts.{alike, twins, version_name};
ghost use Rattle.wac_graph_causes.specs.Firsts.{AddsFirst};
ghost use Rattle.wac_graph_causes.specs.Alike.{AddsText, AreHeld, AreTwins, IsAlike, TellsAlike, alike_cause, both_texts, dependency_of};
ghost use Rattle.wac_graph_causes.specs.Alike.{exports_alike, imports_alike, likeness, names_imported, outer_names, package_name, package_names};

use crate::error::Refusal;
use semver::Version;
use std::alloc::{AllocError, Global};
use wac_graph_asks::asks::Asked;
use wac_graph_asks::nodes::package_at;
use wac_graph_asks::outers::Outers;
use wac_graph_core::{CompositionGraph, PackageId};
use wac_names::ValidationFault;
use wac_types_base::{NamedMap, Text};
use wac_types_names::Package;
use wac_types_parts::parts::{import_at, import_count};

// ---- the name of a package

fn push_version(
    alloc: Global,
    name: &mut String,
    version: Option<&Version>,
) -> Result<(), AllocError>
    ensures { OnOk result (AddsText name.old name.new (version_name (option_map parts_of (option_copied version.entry)))) }
{
    if let Some(version) = version {
        let text = format!(in alloc; "@{{>={version}}}")?;
        name.push_str(text.as_str())?;
    }
    Ok(())
}

/// Adds the name under which a package is imported to its beginning.
fn push_package(alloc: Global, name: &mut String, package: &Package) -> Result<(), AllocError>
    ensures { OnOk result (AddsText name.old name.new (package_name (Some «package».now))) }
{
    name.push_str(package.name())?;
    push_version(alloc, name, package.version())
}

/// Adds the name under which a package is imported to its beginning, if it stands.
fn push_package_of(
    alloc: Global,
    name: &mut String,
    graph: &CompositionGraph,
    id: PackageId,
) -> Result<(), AllocError>
    ensures { OnOk result (AddsText name.old name.new (package_name (package_of graph.now id))) }
{
    match package_at(graph, id) {
        Some(package) => push_package(alloc, name, package),
        None => Ok(()),
    }
}

/// The name under which a package is imported in place of being nested.
pub fn dependency_name(
    alloc: Global,
    graph: &CompositionGraph,
    id: PackageId,
) -> Result<String, AllocError>
    ensures { IfOk result (λ n. string_bytes n ≡ dependency_of graph.now id) }
{
    let mut name = String::from_str(alloc, "unlocked-dep=<")?;
    push_package_of(alloc, &mut name, graph, id)?;
    name.push_str(">")?;
    Ok(name)
}

// ---- twins

/// What two names that are too alike share.
fn likeness(alloc: Global, validate: bool, name: &str) -> Result<String, AllocError>
    ensures { IfOk result (λ t. string_bytes t ≡ likeness validate name.now) }
{
    let mut text = String::from_str(alloc, name)?;
    if !validate {
        return Ok(text);
    }
    text.make_ascii_lowercase();
    Ok(text)
}

/// The place of the first name that shares this with others, or else it is remembered.
fn first_before(
    firsts: &mut NamedMap<usize>,
    shared: String,
    at: usize,
) -> Result<Option<usize>, AllocError>
    ensures first { IfOk result (λ r. r ≡ value_at firsts.old (string_bytes shared)) }
    ensures firsts { OnOk result (AddsFirst firsts.old firsts.new ((string_bytes shared, at) ∷ [])) }
{
    match firsts.get(shared.as_str()).copied() {
        Some(first) => Ok(Some(first)),
        None => {
            let _ = firsts.insert(shared, at)?;
            Ok(None)
        }
    }
}

/// The place of an earlier name that this one is too like, or else it is remembered.
fn twin_before(
    alloc: Global,
    validate: bool,
    firsts: &mut NamedMap<usize>,
    name: &str,
    at: usize,
) -> Result<Option<usize>, AllocError>
    ensures first { IfOk result (λ r. r ≡ value_at firsts.old (likeness validate name.now)) }
    ensures firsts { OnOk result (AddsFirst firsts.old firsts.new ((likeness validate name.now, at) ∷ [])) }
{
    let shared = likeness(alloc, validate, name)?;
    first_before(firsts, shared, at)
}

/// The first name that is too like an earlier one, behind that one.
fn twins_among(
    alloc: Global,
    validate: bool,
    firsts: &mut NamedMap<usize>,
    names: &[Text],
) -> Result<Option<(usize, usize)>, AllocError>
    requires { firsts.old ≡ [] }
    ensures { IfOk result (AreTwins validate names.now) }
{
    for (at, name) in names.iter().enumerate() {
        if let Some(first) = twin_before(alloc, validate, firsts, name.as_str(), at)? {
            return Ok(Some((first, at)));
        }
    }
    Ok(None)
}

/// The first name of all that is too like an earlier one, behind that one.
fn find_twins(
    alloc: Global,
    validate: bool,
    names: &[Text],
) -> Result<Option<(usize, usize)>, AllocError>
    ensures { IfOk result (AreTwins validate names.now) }
{
    let mut firsts = NamedMap::new(alloc);
    twins_among(alloc, validate, &mut firsts, names)
}

/// Copies of two names.
fn copy_both(alloc: Global, first: &Text, second: &Text) -> Result<(String, String), AllocError>
    ensures { IfOk result (λ t. (string_bytes t.0 ≡ first.now) × (string_bytes t.1 ≡ second.now)) }
{
    let first = String::from_str(alloc, first.as_str())?;
    let second = String::from_str(alloc, second.as_str())?;
    Ok((first, second))
}

/// Copies of two of the names.
fn twins_of(
    alloc: Global,
    validate: bool,
    names: &[Text],
) -> Result<Option<(String, String)>, AllocError>
    ensures { IfOk result (λ o. both_texts o ≡ twins (alike validate) [] names.now) }
{
    let Some((first, second)) = find_twins(alloc, validate, names)? else {
        return Ok(None);
    };
    let both = copy_both(alloc, &names[first], &names[second])?;
    Ok(Some(both))
}

// ---- the names of imports and exports

/// Adds a name again.
fn push_copy(alloc: Global, names: &mut Vec<Text>, name: &str) -> Result<(), AllocError>
    ensures { OnOk result (names.new.items ≡ names.old.items ++ name.now ∷ []) }
{
    let name = String::from_str(alloc, name)?;
    names.push(Text::new(name))?;
    Ok(())
}

/// Adds the names of the outer imports.
fn push_outer_names(
    alloc: Global,
    names: &mut Vec<Text>,
    asked: &Asked,
    outers: &Outers,
) -> Result<(), AllocError>
    ensures { OnOk result (names.new.items ≡ names.old.items ++ outer_names asked.now outers.now) }
{
    for at in 0..import_count(&asked.types, outers.world) {
        if let Some(import) = import_at(&asked.types, outers.world, at) {
            push_copy(alloc, names, import.name)?;
        }
    }
    Ok(())
}

/// Adds the names under which packages are imported.
fn push_package_names(
    alloc: Global,
    names: &mut Vec<Text>,
    graph: &CompositionGraph,
    asked: &Asked,
) -> Result<(), AllocError>
    ensures { OnOk result (names.new.items ≡ names.old.items ++ package_names graph.now asked.now) }
{
    for id in asked.packages.keys() {
        let name = dependency_name(alloc, graph, *id)?;
        names.push(Text::new(name))?;
    }
    Ok(())
}

/// Adds the names of all that is imported.
fn push_import_names(
    alloc: Global,
    names: &mut Vec<Text>,
    graph: &CompositionGraph,
    asked: &Asked,
    outers: &Outers,
    define: bool,
) -> Result<(), AllocError>
    ensures { OnOk result (names.new.items ≡ names.old.items ++ names_imported define graph.now asked.now outers.now) }
{
    push_outer_names(alloc, names, asked, outers)?;
    if define {
        return Ok(());
    }
    push_package_names(alloc, names, graph, asked)
}

fn push_export_names(
    alloc: Global,
    names: &mut Vec<Text>,
    graph: &CompositionGraph,
) -> Result<(), AllocError>
    ensures { OnOk result (names.new.items ≡ names.old.items ++ names_of graph.now.exports) }
{
    let listed = graph.exports();
    for at in 0..listed.len() {
        let (name, _) = listed.entry(at);
        push_copy(alloc, names, name)?;
    }
    Ok(())
}

/// No two of these imports have names that are too alike.
fn check_imports(alloc: Global, names: &[Text], validate: bool) -> Result<(), Refusal>
    ensures none { OnOk result (imports_alike validate names.now ≡ None) }
    ensures cause { IfErr result (TellsAlike (imports_alike validate names.now)) }
{
    match twins_of(alloc, validate, names)? {
        Some((a, b)) => Err(Refusal::ValidationFailure {
            source: ValidationFault::ImportNames(a, b),
        }),
        None => Ok(()),
    }
}

/// No two of these exports have names that are too alike.
fn check_exports(alloc: Global, names: &[Text], validate: bool) -> Result<(), Refusal>
    ensures none { OnOk result (exports_alike validate names.now ≡ None) }
    ensures cause { IfErr result (TellsAlike (exports_alike validate names.now)) }
{
    match twins_of(alloc, validate, names)? {
        Some((a, b)) => Err(Refusal::ValidationFailure {
            source: ValidationFault::ExportNames(a, b),
        }),
        None => Ok(()),
    }
}

/// No two imports have names that are too alike.
fn check_import_names(
    alloc: Global,
    graph: &CompositionGraph,
    asked: &Asked,
    outers: &Outers,
    define: bool,
    validate: bool,
) -> Result<(), Refusal>
    ensures none { OnOk result (imports_alike validate (names_imported define graph.now asked.now outers.now) ≡ None) }
    ensures cause { IfErr result (TellsAlike (imports_alike validate (names_imported define graph.now asked.now outers.now))) }
{
    let mut names = Vec::new(alloc);
    push_import_names(alloc, &mut names, graph, asked, outers, define)?;
    check_imports(alloc, &names, validate)
}

/// No two exports have names that are too alike.
fn check_export_names(
    alloc: Global,
    graph: &CompositionGraph,
    validate: bool,
) -> Result<(), Refusal>
    ensures none { OnOk result (exports_alike validate (names_of graph.now.exports) ≡ None) }
    ensures cause { IfErr result (TellsAlike (exports_alike validate (names_of graph.now.exports))) }
{
    let mut names = Vec::new(alloc);
    push_export_names(alloc, &mut names, graph)?;
    check_exports(alloc, &names, validate)
}

/// No two imports, and no two exports, have names that are too alike.
pub fn check_names(
    alloc: Global,
    graph: &CompositionGraph,
    asked: &Asked,
    outers: &Outers,
    define: bool,
    validate: bool,
) -> Result<(), Refusal>
    ensures none { OnOk result (AreHeld graph.now asked.now outers.now → alike_cause define validate graph.now ≡ None) }
    ensures cause { IfErr result (λ e. AreHeld graph.now asked.now outers.now → IsAlike define validate graph.now e) }
{
    graph.see_sound();
    check_import_names(alloc, graph, asked, outers, define, validate)?;
    check_export_names(alloc, graph, validate)
}

//! The components of a manifest.

ghost use Rattle.std.specs.Prelude.{◌≡◌, ◌≢◌, Some, None, IfOk, IfErr, OnOk, string_bytes};
ghost use Rattle.wac_types_names.specs.Keys.{borrowed_key};
ghost use Rattle.wac_texts.specs.Files.{Has};
ghost use Rattle.wac.specs.Adding.{IsBytesOf, AddsComponent, AddsComponents, AddsDefined, AddsRead, added_key};
ghost use Rattle.wac.specs.Loading.{HasNoFileText, IsUnread, IsNoText, IsTextOf, IsTextRefused, StopsFor};
ghost use Rattle.wac.specs.Refusing.{GivesNone, HasNoBytesOf, IsNotAdded, IsTaken, ReadsNone, StopsAdding};
ghost use Rattle.wac.specs.Telling.{TellsResolving};
ghost use Rattle.wac.specs.Texts.{SaysOf, adding_text, selecting_text};
ghost use Rattle.wac_texts.specs.declared.declared.DeclaredWorldError.{DeclaredWorldError as Lack};
ghost use Rattle.wac_workspace.specs.declared.error.AddPackageError.{AddPackageError as Taken};

use crate::stop::{
    Stop, cannot_read, key_taken, not_declared, not_parsed, not_resolved, not_world, plain,
};
use std::alloc::Global;
use wac_graph_core::CompositionGraph;
use wac_manifest::{BytesData, Component, TextData};
use wac_parser_read::ParseDocument;
use wac_parser_resolve::{Error as ResolutionError, Packages, ResolveDocument};
use wac_parser_tree::Document;
use wac_texts::{DeclareDocument, DeclaredWorldError, Declares, Files, FilesError, world_in};
use wac_types_names::BorrowedPackageKey;
use wac_workspace::{AddPackageError, Workspace};

/// The number of the collection in which the world of a component is declared. A workspace never gives it out.
const DECLARED: u64 = u64::MAX;

/// The bytes of a file.
pub fn read_file<F: Files>(alloc: Global, files: &F, path: &str) -> Result<Vec<u8>, Stop>
    ensures bytes { IfOk result (λ bytes. Has (F.stored files.now) path.now (Some bytes.items)) }
    ensures refused { IfErr result (IsUnread (F.stored files.now) path.now) }
{
    match files.read(alloc, path) {
        Ok(bytes) => Ok(bytes),
        Err(FilesError::Memory) => Err(Stop::Memory),
        Err(FilesError::Failed) => Err(cannot_read(alloc, path)),
    }
}

/// The text that the bytes of a file are.
pub fn text_of(alloc: Global, path: &str, bytes: &[u8]) -> Result<String, Stop>
    ensures text { IfOk result (λ text. string_bytes text ≡ bytes.now) }
    ensures refused { IfErr result (IsNoText path.now bytes.now) }
{
    match std::str::from_utf8(bytes) {
        Ok(text) => Ok(String::from_str(alloc, text)?),
        Err(_) => Err(cannot_read(alloc, path)),
    }
}

/// The text of a file.
pub(crate) fn file_text<F: Files>(alloc: Global, files: &F, path: &str) -> Result<String, Stop>
    ensures text { IfOk result (λ text. Has (F.stored files.now) path.now (Some (string_bytes text))) }
    ensures refused { IfErr result (StopsFor (HasNoFileText (F.stored files.now) path.now)) }
{
    let bytes = read_file(alloc, files, path)?;
    text_of(alloc, path, &bytes)
}

/// The bytes that a manifest gives.
fn bytes_of<F: Files>(alloc: Global, files: &F, data: BytesData) -> Result<Vec<u8>, Stop>
    ensures bytes { IfOk result (λ bytes. IsBytesOf (F.stored files.now) «data» bytes.items) }
    ensures refused { IfErr result (StopsFor (HasNoBytesOf (F.stored files.now) «data»)) }
{
    match data {
        BytesData::Bytes(bytes) => Ok(bytes),
        BytesData::File(path) => read_file(alloc, files, path.as_str()),
    }
}

/// The text that a manifest gives.
pub fn load_text<F: Files>(alloc: Global, files: &F, data: TextData) -> Result<String, Stop>
    ensures text { IfOk result (λ text. IsTextOf (F.stored files.now) «data» (string_bytes text)) }
    ensures refused { IfErr result (IsTextRefused (F.stored files.now) «data») }
{
    match data {
        TextData::Text(text) => Ok(text),
        TextData::File(path) => file_text(alloc, files, path.as_str()),
    }
}

/// What is told of a world that a document does not declare.
fn not_selected(alloc: Global, name: &str, fault: DeclaredWorldError) -> Stop
    ensures { StopsFor (SaysOf (fault ≢ Lack.Memory) (selecting_text name.now fault)) result }
{
    match fault {
        DeclaredWorldError::Memory => Stop::Memory,
        DeclaredWorldError::NotDeclared => not_declared(alloc, name),
        DeclaredWorldError::NotWorld => not_world(alloc, name),
    }
}

/// What is told of a component that is not added.
fn not_added(alloc: Global, key: BorrowedPackageKey<'_>, fault: AddPackageError) -> Stop
    ensures { StopsFor (SaysOf (fault ≢ Taken.Memory) (adding_text (borrowed_key key.entry) fault)) result }
{
    match fault {
        AddPackageError::Memory => Stop::Memory,
        AddPackageError::KeyTaken => key_taken(alloc, &key),
        fault => plain(alloc, &fault),
    }
}

/// A component that is added, but for its world.
#[derive(Drop)]
struct Added {
    name: String,
    version: Option<semver::Version>,
    bytes: Vec<u8>,
    select: String,
}

/// Adds a component with a world of a graph.
fn add_with_graph(
    alloc: Global,
    workspace: &mut Workspace,
    added: Added,
    graph: &CompositionGraph,
    declares: Declares,
) -> Result<(), Stop>
    ensures added { OnOk result (AddsDefined graph.now declares added workspace.old workspace.new) }
    ensures refused { IfErr result (StopsFor (GivesNone graph.now declares (string_bytes added.select)
        (IsTaken workspace.old (added_key added) added.bytes.items))) }
{
    let Added {
        name,
        version,
        bytes,
        select,
    } = added;
    let world = match world_in(graph, declares, select.as_str()) {
        Ok(world) => world,
        Err(fault) => return Err(not_selected(alloc, select.as_str(), fault)),
    };
    let name = name.as_str();
    let version = version.as_ref();
    match workspace.add_package(name, version, bytes, graph.types(), world) {
        Ok(()) => Ok(()),
        Err(fault) => {
            let key = BorrowedPackageKey::from_name_and_version(name, version);
            Err(not_added(alloc, key, fault))
        }
    }
}

/// Why a document was not resolved. It is dropped by a call, so that no proof takes its type apart.
fn unresolved(alloc: Global, fault: ResolutionError) -> Stop
    ensures { StopsFor (TellsResolving fault) result }
{
    let stop = not_resolved(alloc, &fault);
    drop(fault);
    stop
}

/// Adds a component whose world a text declares.
fn add_with_text<'s, D: ParseDocument<'s> + ResolveDocument + DeclareDocument>(
    source: &'s str,
    alloc: Global,
    workspace: &mut Workspace,
    added: Added,
) -> Result<(), Stop>
    ensures added { OnOk result (AddsRead D.view D.rule D.ResolveDocument.stated D.DeclareDocument.stated source.now added
        workspace.old workspace.new) }
    ensures refused { IfErr result (StopsFor (ReadsNone D.view D.rule D.ResolveDocument.stated D.DeclareDocument.stated
        source.now (string_bytes added.select) (IsTaken workspace.old (added_key added) added.bytes.items))) }
{
    let document = match D::parse(alloc, source) {
        Ok(document) => document,
        Err(fault) => return Err(not_parsed(alloc, &fault)),
    };
    let declares = document.declares(added.select.as_str());
    let none: Packages<'_> = Packages::new(alloc);
    match document.resolve(alloc, &none, DECLARED) {
        Ok(resolution) => { add_with_graph(alloc, workspace, added, resolution.graph(), declares) }
        Err(fault) => Err(unresolved(alloc, fault)),
    }
}

/// Adds a component of a manifest.
fn add_component<F: Files>(
    alloc: Global,
    files: &F,
    workspace: &mut Workspace,
    component: Component,
) -> Result<(), Stop>
    ensures added { OnOk result (AddsComponent (F.stored files.now) component workspace.old workspace.new) }
    ensures refused { IfErr result (StopsFor (IsNotAdded (F.stored files.now) component workspace.old)) }
{
    let bytes = bytes_of(alloc, files, component.bytes)?;
    let source = load_text(alloc, files, component.world)?;
    let added = Added {
        name: component.name,
        version: component.version,
        bytes,
        select: component.select,
    };
    add_with_text::<Document<'_>>(source.as_str(), alloc, workspace, added)
}

/// Adds the components of a manifest, in order.
pub fn add_components<F: Files>(
    alloc: Global,
    files: &F,
    workspace: &mut Workspace,
    components: Vec<Component>,
) -> Result<(), Stop>
    ensures added { OnOk result (AddsComponents (F.stored files.now) components.items workspace.old workspace.new) }
    ensures refused { IfErr result (StopsFor (StopsAdding (F.stored files.now) components.items workspace.old)) }
{
    for component in components {
        add_component(alloc, files, workspace, component)?;
    }
    Ok(())
}

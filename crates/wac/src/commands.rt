//! What the program can be asked to do.

ghost use Rattle.std.specs.Prelude.{◌≡◌, All, None, IfOk, IfErr, OnOk, OnErr, string_bytes};
ghost use Rattle.std.specs.Io.KnownBytes.{Appends};
ghost use Rattle.std.specs.List.{AllZip};
ghost use Rattle.wac_streams.specs.Calls.{AppendsPrefix, FailedOnce, NoneFailed};
ghost use Rattle.wac_parser_grammar.specs.Documents.{document};
ghost use Rattle.wac_texts.specs.Worlds.{HasWorld};
ghost use Rattle.wac.specs.declared.stop.Stop.{Stop as Halt};
ghost use Rattle.wac.specs.Loading.{StopsFor};
ghost use Rattle.wac.specs.Refusing.{ComposesNot, FailsToPrint, HasNoPlug, HasNone, IsNotFound, IsNotRead, PlugsNot};
ghost use Rattle.wac.specs.Running.{ComposesManifest, FormatsTo, IsFound, IsPrintOf, PlugsFound, PlugsManifest, outside};

use crate::components::add_components;
use crate::documents::PrintDocument;
use crate::sources::{Wanted, path_of, put_composed, put_sources};
use crate::stop::{Stop, bad_manifest, not_parsed, plain, unknown_key};
use std::alloc::Global;
use wac_manifest::{ComposeManifest, Key, PlugManifest};
use wac_parser_read::ParseDocument;
use wac_parser_resolve::PackageRef;
use wac_parser_tree::Document;
use wac_texts::{Files, PlugTextError, plug_text};
use wac_types_names::BorrowedPackageKey;
use wac_workspace::{ByteSink, Workspace, write_bytes};

/// Composes the sources of a manifest.
pub(crate) fn compose<F: Files, W: ByteSink>(
    alloc: Global,
    text: &str,
    files: &mut F,
    out: &mut W,
) -> Result<(), Stop>
    ensures composes { OnOk result (ComposesManifest text.now
        (outside (F.stored files.old) (F.failures files.old) (W.contents out.old) (W.calls out.old))
        (outside (F.stored files.new) (F.failures files.new) (W.contents out.new) (W.calls out.new))) }
    ensures refused { IfErr result (ComposesNot text.now
        (outside (F.stored files.old) (F.failures files.old) (W.contents out.old) (W.calls out.old))
        (outside (F.stored files.new) (F.failures files.new) (W.contents out.new) (W.calls out.new))) }
{
    let manifest = match ComposeManifest::read(alloc, text) {
        Ok(manifest) => manifest,
        Err(fault) => return Err(bad_manifest(alloc, fault)),
    };
    let define = !manifest.import;
    let mut workspace = Workspace::new(alloc);
    add_components(alloc, files, &mut workspace, manifest.components)?;
    put_sources(alloc, &mut workspace, files, out, manifest.sources, define)
}

/// The package of a key.
fn find<'a>(alloc: Global, workspace: &'a Workspace, key: &Key) -> Result<PackageRef<'a>, Stop>
    ensures world { IfOk result HasWorld }
    ensures found { IfOk result (IsFound workspace.now.packages key.now) }
    ensures refused { IfErr result (StopsFor (HasNone workspace.now.packages key.now)) }
{
    let name = key.name.as_str();
    let version = key.version.as_ref();
    match workspace.get(name, version) {
        Some(package) => Ok(package),
        None => {
            let key = BorrowedPackageKey::from_name_and_version(name, version);
            Err(unknown_key(alloc, &key))
        }
    }
}

/// The packages of keys.
fn find_all<'a>(
    alloc: Global,
    workspace: &'a Workspace,
    keys: &[Key],
) -> Result<Vec<PackageRef<'a>>, Stop>
    ensures worlds { IfOk result (λ found. All HasWorld found.items) }
    ensures found { IfOk result (λ found. AllZip (IsFound workspace.now.packages) keys.now found.items) }
    ensures refused { IfErr result (StopsFor (IsNotFound workspace.now.packages keys.now)) }
{
    let mut found = Vec::new(alloc);
    for key in keys {
        found.push(find(alloc, workspace, key)?)?;
    }
    Ok(found)
}

/// The text that plugs what a manifest says.
fn plugging_text(
    alloc: Global,
    workspace: &Workspace,
    name: &str,
    plugs: &[Key],
    socket: &Key,
) -> Result<String, Stop>
    ensures plugs { IfOk result
        (λ text. PlugsFound workspace.now.packages name.now plugs.now socket.now (string_bytes text)) }
    ensures refused { IfErr result (StopsFor (HasNoPlug workspace.now.packages name.now plugs.now socket.now)) }
{
    let plugs = find_all(alloc, workspace, plugs)?;
    let socket = find(alloc, workspace, socket)?;
    match plug_text(alloc, name, &plugs, socket) {
        Ok(text) => Ok(text),
        Err(PlugTextError::Memory) => Err(Stop::Memory),
        Err(fault) => Err(plain(alloc, &fault)),
    }
}

/// Plugs packages of a manifest into one of them.
pub(crate) fn plug<F: Files, W: ByteSink>(
    alloc: Global,
    text: &str,
    files: &mut F,
    out: &mut W,
) -> Result<(), Stop>
    ensures plugs { OnOk result (PlugsManifest text.now
        (outside (F.stored files.old) (F.failures files.old) (W.contents out.old) (W.calls out.old))
        (outside (F.stored files.new) (F.failures files.new) (W.contents out.new) (W.calls out.new))) }
    ensures refused { IfErr result (PlugsNot text.now
        (outside (F.stored files.old) (F.failures files.old) (W.contents out.old) (W.calls out.old))
        (outside (F.stored files.new) (F.failures files.new) (W.contents out.new) (W.calls out.new))) }
{
    let manifest = match PlugManifest::read(alloc, text) {
        Ok(manifest) => manifest,
        Err(fault) => return Err(bad_manifest(alloc, fault)),
    };
    let mut workspace = Workspace::new(alloc);
    add_components(alloc, files, &mut workspace, manifest.components)?;
    let name = manifest.name.as_str();
    let source = plugging_text(alloc, &workspace, name, &manifest.plugs, &manifest.socket)?;
    let path = path_of(&manifest.out);
    let wanted = Wanted { define: true, path };
    put_composed(source.as_str(), alloc, &mut workspace, files, out, wanted)
}

/// The printed text of a source.
fn printed<'s, D: ParseDocument<'s> + PrintDocument>(
    source: &'s str,
    alloc: Global,
) -> Result<Vec<u8>, Stop>
    ensures print { IfOk result (λ text. IsPrintOf D.view D.rule D.printed source.now text.items) }
    ensures refused { IfErr result (StopsFor (IsNotRead D.rule source.now)) }
{
    match D::parse(alloc, source) {
        Ok(document) => document.print(alloc, source),
        Err(fault) => Err(not_parsed(alloc, &fault)),
    }
}

/// Writes a print.
fn put_print<W: ByteSink>(out: &mut W, print: &[u8]) -> Result<(), Stop>
    ensures whole { OnOk result (Appends (W.contents out.old) (W.contents out.new) print.now) }
    ensures front { OnErr result (AppendsPrefix (W.contents out.old) (W.contents out.new) print.now) }
    ensures none_failed { OnOk result (NoneFailed (W.calls out.old) (W.calls out.new)) }
    ensures failed { OnErr result (FailedOnce (W.calls out.old) (W.calls out.new)) }
    ensures refused { IfErr result (λ stop. stop ≡ Halt.Unwritten) }
{
    match write_bytes(out, print) {
        Ok(()) => Ok(()),
        Err(_) => Err(Stop::Unwritten),
    }
}

/// Prints a document.
pub(crate) fn format<W: ByteSink>(alloc: Global, source: &str, out: &mut W) -> Result<(), Stop>
    ensures formats { OnOk result (FormatsTo source.now (W.contents out.old) (W.contents out.new)) }
    ensures none_failed { OnOk result (NoneFailed (W.calls out.old) (W.calls out.new)) }
    ensures refused { IfErr result (FailsToPrint source.now (W.contents out.old) (W.contents out.new)
        (W.calls out.old) (W.calls out.new)) }
{
    let text = printed::<Document<'_>>(source, alloc)?;
    put_print(out, text.as_slice())
}

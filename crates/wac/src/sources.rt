//! Sources that are composed, and the lines of their outputs.

ghost use Rattle.std.specs.Prelude.{◌≡◌, Some, None, IfOk, IfErr, OnOk, OnErr, option_map, string_bytes};
ghost use Rattle.std.specs.Io.KnownBytes.{Appends};
ghost use Rattle.wac_streams.specs.Calls.{AppendsPrefix, FailedOnce, NoneFailed};
ghost use Rattle.wac.specs.declared.stop.Stop.{Stop as Halt};
ghost use Rattle.wac.specs.Loading.{StopsFor};
ghost use Rattle.wac.specs.Refusing.{FailsToPut, FailsToWriteLine, IsUncomposed, PutsNot, StopsComposing, TellsKey};
ghost use Rattle.wac_workspace.specs.Composing.{ComposesSource};
ghost use Rattle.wac_workspace.specs.declared.error.ComposeError.{ComposeError as Fault};
ghost use Rattle.wac.specs.Telling.{TellsIn};
ghost use Rattle.wac.specs.Running.{Keeps, PutsSources, PutsWanted, head_of, line_of, options_of, outside};

use crate::components::load_text;
use crate::documents::NameDocument;
use crate::stop::{Stop, cannot_write, not_composed, not_parsed};
use std::alloc::{AllocError, Global};
use wac_manifest::Source;
use wac_parser_read::ParseDocument;
use wac_parser_tree::Document;
use wac_texts::{Files, FilesError};
use wac_types_names::BorrowedPackageKey;
use wac_workspace::{ByteSink, ComposeError, EncodeOptions, Output, Workspace, write_bytes};

/// Writes a text.
pub(crate) fn put<W: ByteSink>(out: &mut W, text: &str) -> Result<(), Stop>
    ensures whole { OnOk result (Appends (W.contents out.old) (W.contents out.new) text.now) }
    ensures front { OnErr result (AppendsPrefix (W.contents out.old) (W.contents out.new) text.now) }
    ensures none_failed { OnOk result (NoneFailed (W.calls out.old) (W.calls out.new)) }
    ensures failed { OnErr result (FailedOnce (W.calls out.old) (W.calls out.new)) }
    ensures refused { IfErr result (λ stop. stop ≡ Halt.Unwritten) }
{
    match write_bytes(out, text.as_bytes()) {
        Ok(()) => Ok(()),
        Err(_) => Err(Stop::Unwritten),
    }
}

/// The name, the version and the length of an output.
fn head_of(alloc: Global, output: &Output) -> Result<String, AllocError>
    ensures { IfOk result (λ text. string_bytes text ≡ head_of output.now) }
{
    let key = BorrowedPackageKey::from_name_and_version(
        output.name.as_str(),
        output.version.as_ref(),
    );
    let length = output.bytes.len();
    format!(in alloc; "{key} {length}")
}

/// Writes the line of an output that no file has, its bytes in hexadecimal.
fn put_line<W: ByteSink>(alloc: Global, out: &mut W, output: &Output) -> Result<(), Stop>
    ensures line { OnOk result (Appends (W.contents out.old) (W.contents out.new) (line_of None output.now)) }
    ensures none_failed { OnOk result (NoneFailed (W.calls out.old) (W.calls out.new)) }
    ensures refused { IfErr result (FailsToWriteLine (line_of None output.now) (W.contents out.old) (W.contents out.new)
        (W.calls out.old) (W.calls out.new)) }
{
    let head = head_of(alloc, output)?;
    let digits = hex::encode(alloc, output.bytes.as_slice())?;
    let line = format!(in alloc; "{head} {digits}\n")?;
    put(out, line.as_str())
}

/// Writes the component of an output to a file, and then its line.
fn put_file<F: Files, W: ByteSink>(
    alloc: Global,
    files: &mut F,
    out: &mut W,
    path: &str,
    output: &Output,
) -> Result<(), Stop>
    ensures kept { OnOk result (Keeps (Some path.now) output.now.bytes.items (F.stored files.old) (F.stored files.new)) }
    ensures failures { OnOk result (F.failures files.new ≡ F.failures files.old) }
    ensures line { OnOk result (Appends (W.contents out.old) (W.contents out.new) (line_of (Some path.now) output.now)) }
    ensures none_failed { OnOk result (NoneFailed (W.calls out.old) (W.calls out.new)) }
    ensures refused { IfErr result (FailsToPut (Some path.now) output.now
        (outside (F.stored files.old) (F.failures files.old) (W.contents out.old) (W.calls out.old))
        (outside (F.stored files.new) (F.failures files.new) (W.contents out.new) (W.calls out.new))) }
{
    match files.write(alloc, path, &output.bytes) {
        Ok(()) => {}
        Err(FilesError::Memory) => return Err(Stop::Memory),
        Err(FilesError::Failed) => return Err(cannot_write(alloc, path)),
    }
    let head = head_of(alloc, output)?;
    let line = format!(in alloc; "{head}\n")?;
    put(out, line.as_str())
}

/// What is told of a source whose key is there already.
fn taken_by<'s, D: ParseDocument<'s> + NameDocument>(source: &'s str, alloc: Global) -> Stop
    ensures { StopsFor (TellsKey D.view D.rule D.key source.now) result }
{
    match D::parse(alloc, source) {
        Ok(document) => document.key_taken(alloc),
        Err(fault) => not_parsed(alloc, &fault),
    }
}

/// The same of a document.
fn key_taken(source: &str, alloc: Global) -> Stop
    ensures { StopsFor (TellsIn source.now Fault.KeyTaken) result }
{
    taken_by::<Document<'_>>(source, alloc)
}

/// Why a text was not composed.
fn refused(source: &str, alloc: Global, fault: ComposeError) -> Stop
    ensures { StopsFor (TellsIn source.now fault) result }
{
    let stop = match &fault {
        ComposeError::KeyTaken => key_taken(source, alloc),
        fault => not_composed(alloc, fault),
    };
    drop(fault);
    stop
}

/// Composes a text.
fn composed(
    source: &str,
    alloc: Global,
    workspace: &mut Workspace,
    define: bool,
) -> Result<Output, Stop>
    ensures composed { IfOk result (ComposesSource workspace.old workspace.new source.now (options_of define)) }
    ensures refused { IfErr result (StopsFor (IsUncomposed define source.now workspace.old)) }
{
    let options = EncodeOptions {
        define_components: define,
        validate: true,
        processor: None,
    };
    match workspace.compose(source, options) {
        Ok(output) => Ok(output),
        Err(fault) => Err(refused(source, alloc, fault)),
    }
}

/// How a text is composed, and where its component goes: to a file where there is a path.
#[derive(Clone, Copy)]
pub(crate) struct Wanted<'a> {
    pub define: bool,
    pub path: Option<&'a str>,
}

/// Composes a text, and writes what comes of it.
pub(crate) fn put_composed<F: Files, W: ByteSink>(
    source: &str,
    alloc: Global,
    workspace: &mut Workspace,
    files: &mut F,
    out: &mut W,
    wanted: Wanted<'_>,
) -> Result<(), Stop>
    ensures puts { OnOk result (PutsWanted wanted.entry source.now workspace.old workspace.new
        (outside (F.stored files.old) (F.failures files.old) (W.contents out.old) (W.calls out.old))
        (outside (F.stored files.new) (F.failures files.new) (W.contents out.new) (W.calls out.new))) }
    ensures refused { IfErr result (PutsNot wanted.entry source.now workspace.old
        (outside (F.stored files.old) (F.failures files.old) (W.contents out.old) (W.calls out.old))
        (outside (F.stored files.new) (F.failures files.new) (W.contents out.new) (W.calls out.new))) }
{
    let output = composed(source, alloc, workspace, wanted.define)?;
    match wanted.path {
        None => put_line(alloc, out, &output),
        Some(path) => put_file(alloc, files, out, path, &output),
    }
}

/// The path of an output, if it has one.
pub(crate) fn path_of(path: &Option<String>) -> Option<&str>
    ensures { option_map (λ p. p.now) result ≡ option_map string_bytes path.now }
{
    match path {
        None => None,
        Some(path) => Some(path.as_str()),
    }
}

/// Composes the sources of a manifest, in order.
pub(crate) fn put_sources<F: Files, W: ByteSink>(
    alloc: Global,
    workspace: &mut Workspace,
    files: &mut F,
    out: &mut W,
    sources: Vec<Source>,
    define: bool,
) -> Result<(), Stop>
    ensures puts { OnOk result (PutsSources define sources.items workspace.old workspace.new
        (outside (F.stored files.old) (F.failures files.old) (W.contents out.old) (W.calls out.old))
        (outside (F.stored files.new) (F.failures files.new) (W.contents out.new) (W.calls out.new))) }
    ensures refused { IfErr result (StopsComposing define sources.items workspace.old
        (outside (F.stored files.old) (F.failures files.old) (W.contents out.old) (W.calls out.old))
        (outside (F.stored files.new) (F.failures files.new) (W.contents out.new) (W.calls out.new))) }
{
    for source in sources {
        let text = load_text(alloc, files, source.source)?;
        let path = path_of(&source.out);
        let wanted = Wanted { define, path };
        put_composed(text.as_str(), alloc, workspace, files, out, wanted)?;
    }
    Ok(())
}

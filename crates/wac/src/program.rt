//! The run of the program.

ghost use Rattle.std.specs.Prelude.{◌≡◌, ◌≢◌, ◌≤◌, ◌+◌, ◌⊎◌, ◌↔◌, ◌++◌, List, [], ◌∷◌, length, codes, map, IsSome, IfSome, IfOk, IfErr, OnOk, string_bytes};
ghost use Rattle.std.specs.Fmt.{decimal};
ghost use Rattle.std.specs.Io.KnownBytes.{Appends};
ghost use Rattle.wac_streams.specs.Calls.{AppendsPrefix, CallsAtMost, FailedOnce};
ghost use Rattle.wac_types_base.specs.Entries.{Name};
ghost use Rattle.wac_workspace.specs.declared.error.StreamError.{StreamError as Unread};
ghost use Rattle.wac_workspace.specs.Reading.{ToEnd};
ghost use Rattle.wac.specs.Loading.{StopsFor};
ghost use Rattle.wac.specs.Refusing.{HasNoInput, HasNoInputText, HasNoTextAt, IsRefusedRun, StopsAt};
ghost use Rattle.wac.specs.declared.program.Command.{Command};
ghost use Rattle.wac.specs.Running.{DoesAt, IsInputText, IsTextAt, Runs, outside};
ghost use Rattle.wac.specs.Telling.{Tells, TellsLine, errors, placed_text, refused_text};
ghost use Rattle.wac.specs.Texts.{SaysOf, unread_text};
ghost use Rattle.wac.specs.Words.{IsCommand, Asks, usage, word_of};

use crate::commands::{compose, format, plug};
use crate::components::{file_text, text_of};
use crate::sources::put;
use crate::stop::{Stop, cannot_read};
use std::alloc::{AllocError, Global};
use wac_parser_lexer::SourceSpan;
use wac_texts::Files;
use wac_workspace::{ByteSink, ByteSource, MAX_SOURCE_LENGTH, StreamError, read_source};

/// What other words are answered.
const USAGE: &str = "usage: wac compose|format|plug FILE\n";

/// What is told where memory was short.
const SHORT: &str = "error: out of memory\n";

/// The status of a run that did what it was asked.
const DONE: u8 = 0;

/// The status of a run that was refused.
const REFUSED: u8 = 1;

/// The status of a run whose words say nothing.
const MISUSED: u8 = 2;

/// What the words ask for.
#[derive(Clone, Copy)]
enum Command {
    Compose,
    Format,
    Plug,
}

/// The command of a word.
fn command_of(word: &str) -> Option<Command>
    ensures known { IsSome result ↔ IsCommand word.now }
    ensures command { IfSome result (λ command. word.now ≡ word_of command) }
{
    match word {
        "compose" => Some(Command::Compose),
        "format" => Some(Command::Format),
        "plug" => Some(Command::Plug),
        _ => None,
    }
}

/// The command of the words, and its file.
fn asked<'a>(words: &[&'a str]) -> Option<(Command, &'a str)>
    ensures known { IsSome result ↔ Asks (map (λ word. word.now) words.now) }
    ensures words { IfSome result (λ a. map (λ word. word.now) words.now ≡ word_of a.0 ∷ a.1.now ∷ []) }
{
    match words {
        [word, path] => match command_of(word) {
            Some(command) => Some((command, *path)),
            None => None,
        },
        _ => None,
    }
}

// A fault is dropped by a call of `drop`: in an arm of a `match` each proof would take its whole type apart.

/// Why the input was not read.
fn unread(alloc: Global, fault: StreamError) -> Stop
    ensures { StopsFor (SaysOf (fault ≢ Unread.Memory) (unread_text (codes "-"))) result }
{
    let stop = match &fault {
        StreamError::Memory => Stop::Memory,
        _ => cannot_read(alloc, "-"),
    };
    drop(fault);
    stop
}

/// What the input has.
fn read_input<R: ByteSource>(alloc: Global, input: &mut R) -> Result<Vec<u8>, Stop>
    ensures whole { IfOk result (λ bytes. ToEnd (R.remaining input.old) (R.remaining input.new) bytes.items) }
    ensures bound { IfOk result (λ bytes. length bytes.items ≤ MAX_SOURCE_LENGTH) }
    ensures few_calls { CallsAtMost (R.calls input.old) (R.calls input.new) (MAX_SOURCE_LENGTH + 1) }
    ensures refused { IfErr result
        (StopsFor (HasNoInput (R.remaining input.old) (R.calls input.old) (R.calls input.new))) }
{
    match read_source(alloc, input) {
        Ok(bytes) => Ok(bytes),
        Err(fault) => Err(unread(alloc, fault)),
    }
}

/// The text that the input has.
fn input_text<R: ByteSource>(alloc: Global, input: &mut R) -> Result<String, Stop>
    ensures text { IfOk result (λ text. IsInputText (R.remaining input.old) (R.remaining input.new) (string_bytes text)) }
    ensures few_calls { CallsAtMost (R.calls input.old) (R.calls input.new) (MAX_SOURCE_LENGTH + 1) }
    ensures refused { IfErr result (StopsFor (HasNoInputText (R.remaining input.old) (R.remaining input.new)
        (R.calls input.old) (R.calls input.new))) }
{
    let bytes = read_input(alloc, input)?;
    text_of(alloc, "-", &bytes)
}

/// The text of a file, or for `-` of the input.
fn text_at<F: Files, R: ByteSource>(
    alloc: Global,
    path: &str,
    input: &mut R,
    files: &F,
) -> Result<String, Stop>
    ensures text { IfOk result
        (λ text. IsTextAt (R.remaining input.old) (R.remaining input.new) (F.stored files.now) path.now (string_bytes text)) }
    ensures unread { path.now ≢ codes "-" → input.new ≡ input.old }
    ensures few_calls { CallsAtMost (R.calls input.old) (R.calls input.new) (MAX_SOURCE_LENGTH + 1) }
    ensures refused { IfErr result (StopsFor (HasNoTextAt (R.remaining input.old) (R.remaining input.new)
        (R.calls input.old) (R.calls input.new) (F.stored files.now) path.now)) }
{
    if path == "-" {
        input_text(alloc, input)
    } else {
        file_text(alloc, files, path)
    }
}

/// Does what is asked.
fn done<F: Files, R: ByteSource, O: ByteSink>(
    alloc: Global,
    command: Command,
    path: &str,
    input: &mut R,
    files: &mut F,
    out: &mut O,
) -> Result<(), Stop>
    ensures done { OnOk result (DoesAt (word_of command) (R.remaining input.old) (R.remaining input.new) path.now
        (outside (F.stored files.old) (F.failures files.old) (O.contents out.old) (O.calls out.old))
        (outside (F.stored files.new) (F.failures files.new) (O.contents out.new) (O.calls out.new))) }
    ensures unread { path.now ≢ codes "-" → input.new ≡ input.old }
    ensures few_calls { CallsAtMost (R.calls input.old) (R.calls input.new) (MAX_SOURCE_LENGTH + 1) }
    ensures refused { IfErr result (StopsAt (word_of command) (R.remaining input.old) (R.remaining input.new)
        (R.calls input.old) (R.calls input.new) path.now
        (outside (F.stored files.old) (F.failures files.old) (O.contents out.old) (O.calls out.old))
        (outside (F.stored files.new) (F.failures files.new) (O.contents out.new) (O.calls out.new))) }
{
    let text = text_at(alloc, path, input, files)?;
    match command {
        Command::Compose => compose(alloc, text.as_str(), files, out),
        Command::Format => format(alloc, text.as_str(), out),
        Command::Plug => plug(alloc, text.as_str(), files, out),
    }
}

/// The line of a refusal without a place.
fn plain_line(alloc: Global, text: &str) -> Result<String, AllocError>
    ensures { IfOk result (λ line. string_bytes line ≡ codes "error: " ++ text.now ++ codes "\n") }
{
    format!(in alloc; "error: {text}\n")
}

/// A place, by two numbers.
fn place_of(alloc: Global, offset: usize, length: usize) -> Result<String, AllocError>
    ensures { IfOk result (λ place. string_bytes place ≡ decimal offset ++ 43 ∷ decimal length) }
{
    format!(in alloc; "{offset}+{length}")
}

/// The line of a refusal with its place.
fn placed_line(alloc: Global, text: &str, span: SourceSpan) -> Result<String, AllocError>
    ensures { IfOk result (λ line. string_bytes line ≡ placed_text text.now span) }
{
    let place = place_of(alloc, span.offset, span.length)?;
    format!(in alloc; "error: {text} at {place}\n")
}

/// The line that tells of a refusal.
fn line_of(alloc: Global, text: &str, span: Option<SourceSpan>) -> Result<String, AllocError>
    ensures { IfOk result (λ line. string_bytes line ≡ refused_text text.now span) }
{
    match span {
        None => plain_line(alloc, text),
        Some(span) => placed_line(alloc, text, span),
    }
}

/// Tells a line, or else that memory was short.
fn tell_line<E: ByteSink>(err: &mut E, line: Result<String, AllocError>)
    ensures { TellsLine line (errors (E.contents err.old) (E.calls err.old)) (errors (E.contents err.new) (E.calls err.new)) }
{
    let _ = match line {
        Ok(line) => put(err, line.as_str()),
        Err(AllocError) => put(err, SHORT),
    };
}

/// Tells why a run was refused, or else that memory was short. Whether that is written makes no difference.
fn tell<E: ByteSink>(alloc: Global, err: &mut E, stop: Stop)
    ensures { Tells stop (errors (E.contents err.old) (E.calls err.old)) (errors (E.contents err.new) (E.calls err.new)) }
{
    match stop {
        Stop::Unwritten => {}
        Stop::Memory => {
            let _ = put(err, SHORT);
        }
        Stop::Refused { text, span } => tell_line(err, line_of(alloc, text.as_str(), span)),
    }
}

/// Tells how the program is used.
fn misused<E: ByteSink>(err: &mut E) -> u8
    ensures status { (result ≡ MISUSED) ⊎ ((result ≡ REFUSED) × FailedOnce (E.calls err.old) (E.calls err.new)) }
    ensures usage { result ≡ MISUSED → Appends (E.contents err.old) (E.contents err.new) usage }
    ensures front { result ≡ REFUSED → AppendsPrefix (E.contents err.old) (E.contents err.new) usage }
{
    match put(err, USAGE) {
        Ok(()) => MISUSED,
        Err(_) => REFUSED,
    }
}

/// Runs the program on the words behind its name: `compose MANIFEST`, `format FILE` or `plug MANIFEST`, where `-` is the
/// input. What comes of it is written to `out` and into files, a refusal to `err`. The answer is the status: 0, 1 for a
/// refusal, 2 for other words. A writer that fails ends the run with status 1, and nothing more is written to either.
pub fn run<F: Files, R: ByteSource, O: ByteSink, E: ByteSink>(
    alloc: Global,
    words: &[&str],
    input: &mut R,
    files: &mut F,
    out: &mut O,
    err: &mut E,
) -> u8
    ensures asked { Asks (map (λ word. word.now) words.now) → result ≤ 1 }
    ensures misused { (Asks (map (λ word. word.now) words.now) → ⊥)
        → (result ≡ 2) ⊎ ((result ≡ 1) × FailedOnce (E.calls err.old) (E.calls err.new)) }
    ensures usage { result ≡ 2 → Appends (E.contents err.old) (E.contents err.new) usage }
    ensures front { (Asks (map (λ word. word.now) words.now) → ⊥) → result ≡ 1
        → AppendsPrefix (E.contents err.old) (E.contents err.new) usage }
    ensures idle { (Asks (map (λ word. word.now) words.now) → ⊥)
        → (input.new ≡ input.old) × (files.new ≡ files.old) × (out.new ≡ out.old) }
    ensures unread { (word path : Name) → map (λ word. word.now) words.now ≡ word ∷ path ∷ [] → path ≢ codes "-"
        → input.new ≡ input.old }
    ensures quiet { result ≡ 0 → err.new ≡ err.old }
    ensures done { result ≡ 0 → Runs (map (λ word. word.now) words.now) (R.remaining input.old) (R.remaining input.new)
        (outside (F.stored files.old) (F.failures files.old) (O.contents out.old) (O.calls out.old))
        (outside (F.stored files.new) (F.failures files.new) (O.contents out.new) (O.calls out.new)) }
    ensures refused { Asks (map (λ word. word.now) words.now) → result ≡ 1 → IsRefusedRun (map (λ word. word.now) words.now)
        (R.remaining input.old) (R.remaining input.new) (R.calls input.old) (R.calls input.new)
        (outside (F.stored files.old) (F.failures files.old) (O.contents out.old) (O.calls out.old))
        (outside (F.stored files.new) (F.failures files.new) (O.contents out.new) (O.calls out.new))
        (errors (E.contents err.old) (E.calls err.old)) (errors (E.contents err.new) (E.calls err.new)) }
    ensures few_calls { CallsAtMost (R.calls input.old) (R.calls input.new) (MAX_SOURCE_LENGTH + 1) }
{
    let Some((command, path)) = asked(words) else {
        return misused(err);
    };
    match done(alloc, command, path, input, files, out) {
        Ok(()) => DONE,
        Err(stop) => {
            tell(alloc, err, stop);
            REFUSED
        }
    }
}

//! Why a run stops.

ghost use Rattle.std.specs.Prelude.{◌≡◌, ◌≢◌, ℕ, List, IfOk, string_bytes};
ghost use Rattle.wac_manifest.specs.declared.error.ManifestError.{ManifestError};
ghost use Rattle.wac_manifest.specs.Words.{manifest_words};
ghost use Rattle.wac_texts.specs.declared.declared.DeclaredWorldError.{DeclaredWorldError as Lack};
ghost use Rattle.wac_types_names.specs.Keys.{borrowed_key};
ghost use Rattle.wac.specs.Loading.{StopsFor};
ghost use Rattle.wac.specs.Telling.{place_in_source, TellsFault, TellsParsing, TellsResolving};
ghost use Rattle.wac.specs.Texts.{Says, SaysIf, SaysOf, selecting_text, taken_text, unknown_text, unread_text, unwritten_text};
ghost use Rattle.wac.specs.declared.stop.Stop.{Stop};

use std::alloc::{AllocError, AllocFailed, Global};
use std::fmt::Display;
use wac_manifest::ManifestError;
use wac_parser_grammar::Error as ParseError;
use wac_parser_lexer::SourceSpan;
use wac_parser_resolve::Error as ResolutionError;
use wac_types_names::BorrowedPackageKey;
use wac_workspace::ComposeError;

/// Why a run stops.
#[derive(Drop)]
pub enum Stop {
    /// What is told, and where the cause stands in its source.
    Refused {
        text: String,
        span: Option<SourceSpan>,
    },
    /// A writer failed: nothing is told.
    Unwritten,
    Memory,
}

impl From<AllocError> for Stop {
    ghost from_gives = { λ _ stop. stop ≡ Stop.Memory };

    fn from(_: AllocError) -> Self {
        Stop::Memory
    }
}

impl<T: Drop> From<AllocFailed<T>> for Stop {
    ghost from_gives = { λ _ stop. stop ≡ Stop.Memory };

    fn from(_: AllocFailed<T>) -> Self {
        Stop::Memory
    }
}

/// A refusal with a text that is made.
fn with_text(text: Result<String, AllocError>) -> Stop
    ensures { (told : List ℕ) → IfOk text (λ t. string_bytes t ≡ told) → StopsFor (Says told) result }
{
    match text {
        Ok(text) => Stop::Refused { text, span: None },
        Err(AllocError) => Stop::Memory,
    }
}

/// A refusal with the text of a fault, and its place.
fn of_fault<E: Display>(alloc: Global, fault: &E, span: Option<SourceSpan>) -> Stop
    ensures { StopsFor (λ told. told.place ≡ span) result }
{
    match fault.to_string(alloc) {
        Ok(text) => Stop::Refused { text, span },
        Err(AllocError) => Stop::Memory,
    }
}

/// A refusal with the text of a fault, without a place.
pub(crate) fn plain<E: Display>(alloc: Global, fault: &E) -> Stop
    ensures { StopsFor (SaysIf (E.output fault.now)) result }
{
    match fault.to_string(alloc) {
        Ok(text) => Stop::Refused { text, span: None },
        Err(AllocError) => Stop::Memory,
    }
}

/// A file, or `-` for the input, that cannot be read.
pub(crate) fn cannot_read(alloc: Global, path: &str) -> Stop
    ensures { StopsFor (Says (unread_text path.now)) result }
{
    with_text(format!(in alloc; "cannot read {path}"))
}

/// A file that cannot be written.
pub(crate) fn cannot_write(alloc: Global, path: &str) -> Stop
    ensures { StopsFor (Says (unwritten_text path.now)) result }
{
    with_text(format!(in alloc; "cannot write {path}"))
}

/// A fault of a manifest.
pub fn bad_manifest(alloc: Global, fault: ManifestError) -> Stop
    ensures { StopsFor (SaysOf (fault ≡ ManifestError.Bad) (manifest_words fault)) result }
{
    match fault {
        ManifestError::Memory => Stop::Memory,
        ManifestError::Bad => plain(alloc, &fault),
    }
}

/// Where a fault of parsing stands.
fn parse_span(fault: &ParseError) -> Option<SourceSpan>
    ensures { result ≡ place_in_source fault.now }
{
    match fault {
        ParseError::Lexer { span, .. }
        | ParseError::Expected { span, .. }
        | ParseError::ExpectedEither { span, .. }
        | ParseError::ExpectedMultiple { span, .. }
        | ParseError::EmptyType { span, .. }
        | ParseError::InvalidVersion { span, .. }
        | ParseError::NestedTooDeep { span } => Some(*span),
        ParseError::Memory => None,
    }
}

/// A fault of parsing.
pub(crate) fn not_parsed(alloc: Global, fault: &ParseError) -> Stop
    ensures { StopsFor (TellsParsing fault.now) result }
{
    match fault {
        ParseError::Memory => Stop::Memory,
        fault => of_fault(alloc, fault, parse_span(fault)),
    }
}

/// A fault of resolving.
pub(crate) fn not_resolved(alloc: Global, fault: &ResolutionError) -> Stop
    ensures { StopsFor (TellsResolving fault.now) result }
{
    match fault {
        ResolutionError::Memory => Stop::Memory,
        fault => of_fault(alloc, fault, fault.span()),
    }
}

/// A package whose key is there already.
pub(crate) fn key_taken(alloc: Global, key: &BorrowedPackageKey<'_>) -> Stop
    ensures { StopsFor (Says (taken_text (borrowed_key key.now))) result }
{
    with_text(format!(in alloc; "package `{key}` is already there"))
}

/// A key that is no package's.
pub(crate) fn unknown_key(alloc: Global, key: &BorrowedPackageKey<'_>) -> Stop
    ensures { StopsFor (Says (unknown_text (borrowed_key key.now))) result }
{
    with_text(format!(in alloc; "unknown package `{key}`"))
}

/// A world that a document does not declare.
pub(crate) fn not_declared(alloc: Global, name: &str) -> Stop
    ensures { StopsFor (Says (selecting_text name.now Lack.NotDeclared)) result }
{
    with_text(format!(in alloc; "world `{name}` is not declared"))
}

/// A name under which a document declares something else than a world.
pub(crate) fn not_world(alloc: Global, name: &str) -> Stop
    ensures { StopsFor (Says (selecting_text name.now Lack.NotWorld)) result }
{
    with_text(format!(in alloc; "`{name}` is not a world"))
}

/// A fault of composing, but for a key that is there already.
pub fn not_composed(alloc: Global, fault: &ComposeError) -> Stop
    ensures { StopsFor (TellsFault fault.now) result }
{
    match fault {
        ComposeError::Memory => Stop::Memory,
        ComposeError::Parse(fault) => not_parsed(alloc, fault),
        ComposeError::Resolution(fault) => not_resolved(alloc, fault),
        fault => plain(alloc, fault),
    }
}

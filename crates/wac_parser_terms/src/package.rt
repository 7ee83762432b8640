//! Names of packages, and paths into them.

ghost use Rattle.wac_parser_grammar.specs.Places.{IsBehind};
ghost use Rattle.std.specs.Prelude.{◌≡◌, ◌<◌, length, IfOk, IfErr, OnOk};
ghost use Rattle.std.specs.Option.{option_map};
ghost use Rattle.semver.specs.Identifiers.{parts_of};
ghost use Rattle.wac_parser_tree.specs.Views.{view_package_name, view_package_path};
ghost use Rattle.wac_parser_grammar.specs.Rules.{left};
ghost use Rattle.wac_parser_grammar.specs.Reads.{Reads};
ghost use Rattle.wac_parser_lexer.specs.Items.{Input};
ghost use Rattle.semver.specs.Parse.{version_parts};
ghost use Rattle.wac_parser_grammar.specs.declared.error.Error.TheVariants.{Memory};
ghost use Rattle.wac_parser_grammar.specs.Faults as fault;
ghost use Rattle.wac_parser_grammar.specs.Names as grammar;
ghost use Rattle.wac_parser_grammar.specs.Tracks as tracks;
ghost use Rattle.wac_parser_terms.specs.Ends.{HasEnd};
ghost use Rattle.wac_parser_terms.specs.Views.{view_text, view_new_package};

use crate::base::parse_token;
use semver::Version;
use std::alloc::{AllocError, Global};
use wac_parser_grammar::{Error, ParseResult};
use wac_parser_lexer::{Lexer, SourceSpan, Token};
use wac_parser_tree::{PackageName, PackagePath};
use wac_types_names::is_track;

/// What stands before the first `mark` of a text, and what behind it.
fn split_at_mark(text: &str, mark: char) -> (&str, Option<&str>)
    requires { mark < 128 }
    ensures before { result.0.now ≡ grammar.before mark text.now }
    ensures behind { view_text result.1 ≡ grammar.behind_first mark text.now }
{
    match text.split_once(mark) {
        Some((before, behind)) => (before, Some(behind)),
        None => (text, None),
    }
}

/// The last bytes of a span.
fn end_of(span: SourceSpan, length: usize) -> SourceSpan
    requires { HasEnd span }
    ensures { result ≡ grammar.end_of span length }
{
    SourceSpan {
        offset: (span.offset + span.length).saturating_sub(length),
        length,
    }
}

/// The fault of a text that is no version, and stands at the end of a span.
fn invalid_version(alloc: Global, text: &str, span: SourceSpan) -> ParseResult<Error>
    requires { HasEnd span }
    ensures value { IfOk result
        (λ e. fault.fault_of e ≡ fault.invalid_version text.now (grammar.end_of span (length text.now))) }
    ensures memory { IfErr result (λ e. e ≡ Memory) }
{
    Ok(Error::InvalidVersion {
        version: String::from_str(alloc, text)?,
        span: end_of(span, text.len()),
    })
}

/// Reads the text of a version, which stands at the end of a span.
fn read_version(alloc: Global, text: &str, span: SourceSpan) -> ParseResult<Option<Version>>
    requires { HasEnd span }
    ensures { (s : Input)
        → Reads (option_map parts_of) (grammar.version_read (version_parts text.now) text.now span) s result s }
{
    match Version::parse(alloc, text) {
        Ok(version) => Ok(Some(version)),
        Err(e) => {
            if e == semver::Error::from(AllocError) {
                return Err(Error::Memory);
            }
            Err(invalid_version(alloc, text, span)?)
        }
    }
}

/// The version behind the `@` of a name that stands at a span, if it has one.
#[tactic(auto, unfolding(wac_parser_grammar::specs::Names::version_of))]
fn version_of(
    alloc: Global,
    version: Option<&str>,
    span: SourceSpan,
) -> ParseResult<Option<Version>>
    requires { HasEnd span }
    ensures { (s : Input) → Reads (option_map parts_of) (grammar.version_by (view_text version.entry) span) s result s }
{
    match version {
        Some(text) => read_version(alloc, text, span),
        None => Ok(None),
    }
}

/// The name of a package, with its version.
#[tactic(auto, using(crate::proofs::Places::places), unfolding(wac_parser_grammar::specs::Names::package_name, wac_parser_grammar::specs::Names::version_of))]
pub fn package_name<'a>(alloc: Global, lexer: &mut Lexer<'a>) -> ParseResult<PackageName<'a>>
    ensures value { Reads view_package_name grammar.package_name lexer.old result lexer.new }
    ensures takes { OnOk result (left lexer.new < left lexer.old) }
    ensures goes_on { IsBehind lexer.new lexer.old }
{
    let span = parse_token(lexer, Token::PackageName)?;
    let string = lexer.source(span);
    let (name, version) = split_at_mark(string, '@');
    let version = version_of(alloc, version, span)?;
    Ok(PackageName {
        string,
        name,
        version,
        span,
    })
}

/// The text behind the `@` of a name, where it is a version track.
fn track_in(text: Option<&str>) -> Option<&str>
    ensures { view_text result ≡ tracks.track_in (view_text text.entry) }
{
    match text {
        Some(text) => { if is_track(text) { Some(text) } else { None } }
        None => None,
    }
}

/// The version behind the `@` of a name that stands at a span; beside a track there is none.
fn version_beside(
    alloc: Global,
    track: Option<&str>,
    version: Option<&str>,
    span: SourceSpan,
) -> ParseResult<Option<Version>>
    requires { HasEnd span }
    ensures { (s : Input) → Reads (option_map parts_of)
        (grammar.version_beside (view_text track.entry) (view_text version.entry) span) s result s }
{
    match track {
        Some(_) => Ok(None),
        None => version_of(alloc, version, span),
    }
}

/// The package of a `new`, and the version track that may stand in place of its version.
#[tactic(auto, using(crate::proofs::Places::places), unfolding(wac_parser_grammar::specs::Names::new_package))]
pub fn new_package<'a>(
    alloc: Global,
    lexer: &mut Lexer<'a>,
) -> ParseResult<(PackageName<'a>, Option<&'a str>)>
    ensures value { Reads view_new_package grammar.new_package lexer.old result lexer.new }
    ensures takes { OnOk result (left lexer.new < left lexer.old) }
    ensures goes_on { IsBehind lexer.new lexer.old }
{
    let span = parse_token(lexer, Token::PackageName)?;
    let string = lexer.source(span);
    let (name, version) = split_at_mark(string, '@');
    let track = track_in(version);
    let version = version_beside(alloc, track, version, span)?;
    let package = PackageName {
        string,
        name,
        version,
        span,
    };
    Ok((package, track))
}

/// A path into a package, with its version.
#[tactic(auto, using(crate::proofs::Places::places), unfolding(wac_parser_grammar::specs::Names::package_path, wac_parser_grammar::specs::Names::version_of))]
pub fn package_path<'a>(alloc: Global, lexer: &mut Lexer<'a>) -> ParseResult<PackagePath<'a>>
    ensures value { Reads view_package_path grammar.package_path lexer.old result lexer.new }
    ensures takes { OnOk result (left lexer.new < left lexer.old) }
    ensures goes_on { IsBehind lexer.new lexer.old }
{
    let span = parse_token(lexer, Token::PackagePath)?;
    let string = lexer.source(span);
    let (path, version) = split_at_mark(string, '@');
    let (name, segments) = split_at_mark(path, '/');
    let version = version_of(alloc, version, span)?;
    Ok(PackagePath {
        span,
        string,
        name,
        segments: segments.unwrap_or(""),
        version,
    })
}

//! The names of a component's imports and exports.
ghost use Rattle.std.specs.Prelude.{◌≡◌, ◌==◌, position, not, false, Some, ◌<◌, List, ℕ, IfOk, IsOk, length, codes, string_bytes};
ghost use Rattle.std.specs.Bool.{Decides};
ghost use Rattle.std.specs.Option.{MatchOption};
ghost use Rattle.std.specs.List.{list_all, position_or_len, before_first, after_first};
ghost use Rattle.wac_names.specs.ComponentNames.{lower_word, upper_word, word_test, lower_or_digit, upper_or_digit, IsVersion, IsBehind, IsInside, IsInterfaceName, IsPlainName, IsDependency, IsName, has_byte};
ghost use Rattle.wac_names.specs.declared.names.NameKind.TheVariants as kind;
ghost use Rattle.wac_names.specs.NameTests.{joined_test, label_test, pair_test, behind_test, member_test, plain_test, package_test, path_test, unbroken_test};

use semver::{Error, Version};
use std::alloc::{AllocError, Global};

/// How a name of an import or an export is formed.
#[derive(Clone, Copy, Debug, PartialEq, Eq, Hash)]
pub enum NameKind {
    /// A label, or a constructor, a method or a static function of a resource.
    Plain,
    /// Labels of a package and of an interface in it, perhaps with a version.
    Interface,
    Dependency,
    Url,
    Hash,
}

fn all_lower_or_digit(text: &[u8]) -> bool
    ensures { result ≡ list_all lower_or_digit text.now }
{
    text.iter()
        .all(|b| b.is_ascii_lowercase() || b.is_ascii_digit())
}

fn all_upper_or_digit(text: &[u8]) -> bool
    ensures { result ≡ list_all upper_or_digit text.now }
{
    text.iter()
        .all(|b| b.is_ascii_uppercase() || b.is_ascii_digit())
}

/// A lowercase letter, and lowercase letters and digits.
fn is_lower_word(word: &[u8]) -> bool
    ensures { result ≡ lower_word word.now }
{
    match word.split_first() {
        None => false,
        Some((first, rest)) => first.is_ascii_lowercase() && all_lower_or_digit(rest),
    }
}

/// An uppercase letter, and uppercase letters and digits.
fn is_upper_word(word: &[u8]) -> bool
    ensures { result ≡ upper_word word.now }
{
    match word.split_first() {
        None => false,
        Some((first, rest)) => first.is_ascii_uppercase() && all_upper_or_digit(rest),
    }
}

fn is_word(word: &[u8]) -> bool
    ensures { result ≡ word_test word.now }
{
    is_lower_word(word) || is_upper_word(word)
}

/// Words joined by `-`.
fn is_label(text: &[u8]) -> bool
    ensures { result ≡ label_test text.now }
{
    text.split(|b| *b == b'-').all(is_word)
}

/// Labels joined by that byte.
fn are_labels(text: &[u8], byte: u8) -> bool
    ensures { result ≡ joined_test byte label_test text.now }
{
    text.split(|b| *b == byte).all(is_label)
}

/// Where the first such byte stands.
fn place_of(text: &[u8], byte: u8) -> Option<usize>
    ensures { result ≡ position (λ b. b == byte) text.now }
{
    text.iter().position(|b| *b == byte)
}

/// The text before the first such byte, and the text behind it.
fn split_at_byte(text: &[u8], byte: u8) -> Option<(&[u8], &[u8])>
    ensures { MatchOption result (position_or_len (λ b. b == byte) text.now ≡ length text.now)
        (λ x. (position_or_len (λ b. b == byte) text.now < length text.now) × (x.0.now ≡ before_first (λ b. b == byte) text.now)
        × (x.1.now ≡ after_first (λ b. b == byte) text.now)) }
{
    match place_of(text, byte) {
        None => None,
        Some(i) => Some((&text[..i], &text[i + 1..])),
    }
}

/// Two labels with `.` between them.
fn is_member(text: &[u8]) -> bool
    ensures { result ≡ member_test text.now }
{
    match split_at_byte(text, b'.') {
        None => false,
        Some((resource, name)) => is_label(resource) && is_label(name),
    }
}

/// A label, or a function of a resource.
fn is_plain(text: &[u8]) -> bool
    ensures { result ≡ plain_test text.now }
{
    is_label(text)
        || text
            .strip_prefix(b"[constructor]".as_slice())
            .is_some_and(|rest| is_label(rest))
        || text
            .strip_prefix(b"[method]".as_slice())
            .is_some_and(|rest| is_member(rest))
        || text
            .strip_prefix(b"[static]".as_slice())
            .is_some_and(|rest| is_member(rest))
}

/// Two or more labels joined by `:`.
fn is_package(text: &[u8]) -> bool
    ensures { result ≡ package_test text.now }
{
    match split_at_byte(text, b':') {
        None => false,
        Some((first, others)) => is_label(first) && are_labels(others, b':'),
    }
}

/// A package, and one or more labels behind a `/` each.
fn is_path(text: &[u8]) -> bool
    ensures { result ≡ path_test text.now }
{
    match split_at_byte(text, b'/') {
        None => false,
        Some((package, path)) => is_package(package) && are_labels(path, b'/'),
    }
}

/// Whether the text is one of a version.
fn is_version(alloc: Global, text: &str) -> Result<bool, AllocError>
    ensures { IfOk result (λ b. Decides b (IsVersion text.now)) }
{
    match Version::parse(alloc, text) {
        Ok(_) => Ok(true),
        Err(e) => {
            if e == Error::from(AllocError) {
                Err(AllocError)
            } else {
                Ok(false)
            }
        }
    }
}

fn has_no(text: &[u8], byte: u8) -> bool
    ensures { result ≡ list_all (λ b. not (b == byte)) text.now }
{
    text.iter().all(|b| *b != byte)
}

/// Not empty, and without `<`.
fn is_unbroken(text: &[u8]) -> bool
    ensures { result ≡ unbroken_test text.now }
{
    !text.is_empty() && has_no(text, b'<')
}

/// What may stand between `<` and the last byte, `>`.
fn is_inside(text: &[u8]) -> bool
    ensures { Decides result (IsInside text.now) }
{
    match text.split_last() {
        None => false,
        Some((last, inside)) => *last == b'>' && is_unbroken(inside),
    }
}

/// Whether the text begins so, and a text in brackets is behind.
fn is_enclosed(text: &[u8], front: &[u8]) -> bool
    ensures { Decides result (IsBehind front.now IsInside text.now) }
{
    match text.strip_prefix(front) {
        None => false,
        Some(rest) => is_inside(rest),
    }
}

/// A path, or a path and a version.
fn is_interface(alloc: Global, text: &str) -> Result<bool, AllocError>
    ensures decides { IfOk result (λ b. Decides b (IsInterfaceName text.now)) }
    ensures plain { has_byte 64 text.now ≡ false → IsOk result }
{
    match text.split_once('@') {
        None => Ok(is_path(text.as_bytes())),
        Some((path, version)) => {
            if is_path(path.as_bytes()) {
                is_version(alloc, version)
            } else {
                Ok(false)
            }
        }
    }
}

fn is_plain_name(text: &[u8]) -> bool
    ensures { Decides result (IsPlainName text.now) }
{
    is_plain(text)
}

fn is_dependency_name(text: &[u8]) -> bool
    ensures { Decides result (IsDependency text.now) }
{
    is_enclosed(text, b"unlocked-dep=<") || is_enclosed(text, b"locked-dep=<")
}

fn is_url(text: &[u8]) -> bool
    ensures { Decides result (IsName kind.Url text.now) }
{
    is_enclosed(text, b"url=<")
}

fn is_hash(text: &[u8]) -> bool
    ensures { Decides result (IsName kind.Hash text.now) }
{
    is_enclosed(text, b"integrity=<")
}

/// Which kind of name of an import or an export the text is, if it is one. Memory is taken only for the version of an
/// interface.
pub fn component_name(alloc: Global, text: &str) -> Result<Option<NameKind>, AllocError>
    ensures kind { IfOk result (λ o. (k : NameKind) → (o ≡ Some k → IsName k text.now) × (IsName k text.now → o ≡ Some k)) }
    ensures plain { has_byte 64 text.now ≡ false → IsOk result }
{
    if is_plain_name(text.as_bytes()) {
        return Ok(Some(NameKind::Plain));
    }
    if is_dependency_name(text.as_bytes()) {
        return Ok(Some(NameKind::Dependency));
    }
    if is_url(text.as_bytes()) {
        return Ok(Some(NameKind::Url));
    }
    if is_hash(text.as_bytes()) {
        return Ok(Some(NameKind::Hash));
    }
    if is_interface(alloc, text)? {
        return Ok(Some(NameKind::Interface));
    }
    Ok(None)
}

//! Names on version tracks.

ghost use Rattle.std.specs.Prelude.{◌≡◌, position, ◌↔◌, ◌<◌, ◌≤◌, ◌+◌, ◌==◌, ℕ, length, drop, take, slice_index, Some, None, IsTrue, IsOk, IfOk, option_map, MatchOption};
ghost use Rattle.std.specs.List.{position_or_len};
ghost use Rattle.semver.specs.Identifiers.{parts_of};
ghost use Rattle.wac_types_names.specs.Tracks.{read_version, track_text, lookup_key, AreCompatible, IsTrack, IsTrackNumber, key_view};

use semver::{Error, Version};
use std::alloc::{AllocError, Global};

/// The version that a text reads to, if it is one.
#[tactic(auto, unfolding(crate::specs::Tracks::read_version))]
fn read_version(alloc: Global, text: &str) -> Result<Option<Version>, AllocError>
    ensures { IfOk result (λ o. option_map parts_of o ≡ read_version text.now) }
{
    match Version::parse(alloc, text) {
        Ok(version) => Ok(Some(version)),
        Err(e) => {
            if e == Error::from(AllocError) {
                Err(AllocError)
            } else {
                Ok(None)
            }
        }
    }
}

/// Where the first such byte stands.
fn place_of(text: &[u8], byte: u8) -> Option<usize>
    ensures { result ≡ position (λ b. b == byte) text.now }
{
    text.iter().position(|b| *b == byte)
}

/// Where the first dot from that place on stands.
fn dot_from(text: &[u8], from: usize) -> usize
    requires { from ≤ length text.now }
    ensures { result ≡ from + position_or_len (λ b. b == 46) (drop from text.now) }
{
    let rest = &text[from..];
    match place_of(rest, b'.') {
        None => text.len(),
        Some(place) => from + place,
    }
}

/// How many bytes of a version's text name its track: those before its first dot, below 1.0 before its second.
fn track_len(version: &Version, text: &[u8]) -> Option<usize>
    requires { read_version text.now ≡ Some (parts_of version.now) }
    ensures { MatchOption result (track_text (parts_of version.now) ≡ None)
        (λ n. (n < length text.now) × (slice_index text.now n ≡ 46)
        × (track_text (parts_of version.now) ≡ Some (take n text.now))) }
{
    if !version.pre.is_empty() {
        None
    } else if version.major > 0 {
        Some(dot_from(text, 0))
    } else if version.minor > 0 {
        Some(dot_from(text, 2))
    } else {
        None
    }
}

/// The key under which a name is looked up where it is not found exactly, with its version: `a:b/c@1` for
/// `a:b/c@1.2.3`, `a:b/c@0.2` for `a:b/c@0.2.3`. There is none for a pre-release, for 0.0.z, and without a version.
pub fn alternate_lookup_key(
    alloc: Global,
    name: &str,
) -> Result<Option<(&str, Version)>, AllocError>
    ensures { IfOk result (λ o. option_map key_view o ≡ lookup_key name.now) }
{
    match name.split_once('@') {
        None => Ok(None),
        Some((front, text)) => match read_version(alloc, text)? {
            None => Ok(None),
            Some(version) => match track_len(&version, text.as_bytes()) {
                None => Ok(None),
                Some(len) => Ok(Some((&name[..front.len() + 1 + len], version))),
            },
        },
    }
}

/// Whether a text is a number from 1 that 64 bits hold, in decimal digits without a leading zero.
fn is_track_number(text: &str) -> bool
    ensures { IsTrue result ↔ IsTrackNumber text.now }
{
    match text.as_bytes().first() {
        Some(first) if *first > b'0' => text.parse::<u64>().is_ok(),
        _ => false,
    }
}

/// Whether a text names a version track, as `1` and `0.2` do: whether a lookup key can have it behind its `@`.
pub fn is_track(text: &str) -> bool
    ensures { IsTrue result ↔ IsTrack text.now }
{
    match text.strip_prefix("0.") {
        Some(minor) => is_track_number(minor),
        None => is_track_number(text),
    }
}

/// Whether two names are equal or on one version track.
pub fn are_semver_compatible(alloc: Global, a: &str, b: &str) -> Result<bool, AllocError>
    ensures value { IfOk result (λ r. IsTrue r ↔ AreCompatible a.now b.now) }
    ensures equal { a.now ≡ b.now → IsOk result }
{
    if a == b {
        return Ok(true);
    }
    match alternate_lookup_key(alloc, a)? {
        None => Ok(false),
        Some((track, _)) => match alternate_lookup_key(alloc, b)? {
            None => Ok(false),
            Some((other, _)) => Ok(track == other),
        },
    }
}

//! The names of a map, each with its track.

ghost use Rattle.std.specs.Prelude.{◌≡◌, ◌==◌, map, length, Option, Some, None, IfOk, option_map, option_copied, slice_get};
ghost use Rattle.std.specs.Ordering.{is_gt};
ghost use Rattle.semver.specs.Identifiers.{parts_of};
ghost use Rattle.wac_types_names.specs.Versions.{version_cmp};
ghost use Rattle.wac_types_names.specs.Tracks.{lookup_key, key_view};
ghost use Rattle.wac_types_names.specs.Spellings.{kept_track, track_view, IsRead, version_on, later_of, place_view, IsBestPlace};

use crate::track::alternate_lookup_key;
use semver::Version;
use std::alloc::{AllocError, Global};
use std::cmp::Ordering;
use wac_types_base::Text;

/// The track of a name.
#[derive(Drop)]
pub(crate) struct Track {
    pub(crate) key: Text,
    pub(crate) version: Version,
}

/// A name with its track, if it is on one.
#[derive(Drop)]
pub(crate) struct Spelling {
    pub(crate) name: Text,
    pub(crate) track: Option<Track>,
}

/// The track of a name, if it is on one.
fn track_of(alloc: Global, name: &str) -> Result<Option<Track>, AllocError>
    ensures { IfOk result (λ o. option_map track_view o ≡ lookup_key name.now) }
{
    match alternate_lookup_key(alloc, name)? {
        None => Ok(None),
        Some((key, version)) => {
            let key = Text::from_str(alloc, key)?;
            Ok(Some(Track { key, version }))
        }
    }
}

impl Spelling {
    /// A name, with its track.
    pub(crate) fn read(alloc: Global, name: &str) -> Result<Spelling, AllocError>
        ensures name { IfOk result (λ s. s.name ≡ name.now) }
        ensures read { IfOk result IsRead }
    {
        let track = track_of(alloc, name)?;
        let name = Text::from_str(alloc, name)?;
        Ok(Spelling { name, track })
    }

    /// The version, where the name is on that track.
    fn version_on(&self, key: &str) -> Option<&Version>
        ensures { option_map parts_of (option_copied result) ≡ version_on key.now (kept_track self.now) }
    {
        match &self.track {
            None => None,
            Some(track) => {
                if track.key.is(key) {
                    Some(&track.version)
                } else {
                    None
                }
            }
        }
    }
}

/// How two versions compare, build metadata included.
#[tactic(auto, unfolding(crate::specs::Versions::version_cmp))]
fn compared(a: &Version, b: &Version) -> Ordering
    ensures { result ≡ version_cmp (parts_of a.now) (parts_of b.now) }
{
    a.cmp(b)
}

/// The place with the later version: the one so far, or the next.
fn later<'a>(
    latest: Option<(usize, &'a Version)>,
    at: usize,
    found: Option<&'a Version>,
) -> Option<(usize, &'a Version)>
    ensures { place_view result ≡ later_of (place_view latest.entry) at (option_map parts_of (option_copied found.entry)) }
{
    match found {
        None => latest,
        Some(version) => match latest {
            None => Some((at, version)),
            Some((place, best)) => {
                if compared(version, best) == Ordering::Greater {
                    Some((at, version))
                } else {
                    Some((place, best))
                }
            }
        },
    }
}

/// The place of the name with the greatest version on a track.
pub(crate) fn latest_on(names: &[Spelling], key: &str) -> Option<usize>
    ensures { IsBestPlace (map kept_track names.now) key.now result }
{
    let mut latest: Option<(usize, &Version)> = None;
    for (at, name) in names.iter().enumerate() {
        latest = later(latest, at, name.version_on(key));
    }
    match latest {
        None => None,
        Some((place, _)) => Some(place),
    }
}

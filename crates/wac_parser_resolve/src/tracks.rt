//! The packages that are handed in, on version tracks.
#![tactic(auto, using(crate::proofs::Knowing::knowing))]

ghost use Rattle.std.specs.Prelude.{◌≡◌, IfOk, option_map};
ghost use Rattle.std.specs.Ordering.{is_gt};
ghost use Rattle.semver.specs.Identifiers.{parts_of};
ghost use Rattle.wac_types_names.specs.Keys.{borrowed_key};
ghost use Rattle.wac_types_names.specs.Versions.{version_cmp};
ghost use Rattle.wac_graph_core.specs.Graph.{ContainsPackage};
ghost use Rattle.wac_parser_declare.specs.Packages.{SamePackages};
ghost use Rattle.wac_parser_resolve.specs.Choosing.{greatest_on, later, version_on};
ghost use Rattle.wac_parser_resolve.specs.InInstances.{IsPackageNamed};
ghost use Rattle.wac_parser_resolve.specs.Keeping.{Keeps};
ghost use Rattle.wac_parser_resolve.specs.Knowing.{all_known, handed_keys, handed_version};

use crate::packages::{GraphTypes, PackageRef};
use semver::Version;
use std::alloc::{AllocError, Global};
use std::cmp::Ordering;
use wac_graph_core::PackageId;
use wac_parser_refusals::{Outcome, unknown_package};
use wac_parser_tree::NewExpr;
use wac_types_base::ItemKind;
use wac_types_names::{BorrowedPackageKey, alternate_lookup_key};

/// Whether a version is greater than another.
#[tactic(auto, unfolding(wac_types_names::specs::Versions::version_cmp))]
fn is_greater(version: &Version, other: &Version) -> bool
    ensures { result ≡ is_gt (version_cmp (parts_of version.now) (parts_of other.now)) }
{
    version.cmp(other) == Ordering::Greater
}

/// The greater version: the one so far, or the next.
fn later(best: Option<Version>, found: Option<Version>) -> Option<Version>
    ensures { option_map parts_of result ≡ later (option_map parts_of best) (option_map parts_of found) }
{
    match found {
        None => best,
        Some(version) => match best {
            None => Some(version),
            Some(best) => {
                if is_greater(&version, &best) {
                    Some(version)
                } else {
                    Some(best)
                }
            }
        },
    }
}

/// The version of a key, if it has one.
fn own_version(alloc: Global, key: BorrowedPackageKey<'_>) -> Result<Option<Version>, AllocError>
    ensures { IfOk result (λ o. option_map parts_of o ≡ (borrowed_key key.entry).1) }
{
    let key = key.into_owned(alloc)?;
    match key.version() {
        None => Ok(None),
        Some(version) => Ok(Some(version.clone()?)),
    }
}

/// The version of a key that is on the track with this lookup key.
fn version_on(
    alloc: Global,
    key: BorrowedPackageKey<'_>,
    track: &str,
) -> Result<Option<Version>, AllocError>
    ensures { IfOk result (λ o. option_map parts_of o ≡ version_on track.now (borrowed_key key.entry)) }
{
    let text = format!(in alloc; "{key}")?;
    match alternate_lookup_key(alloc, text.as_str())? {
        None => Ok(None),
        Some((found, _)) => {
            if found == track {
                own_version(alloc, key)
            } else {
                Ok(None)
            }
        }
    }
}

/// The same of a package that is handed in, where its world stands.
fn version_handed(
    alloc: Global,
    key: BorrowedPackageKey<'_>,
    handed: PackageRef<'_>,
    track: &str,
) -> Result<Option<Version>, AllocError>
    ensures { IfOk result (λ o. option_map parts_of o ≡ handed_version track.now key.entry handed.entry) }
{
    if handed.types.has(ItemKind::Component(handed.package.ty())) {
        version_on(alloc, key, track)
    } else {
        Ok(None)
    }
}

impl GraphTypes<'_> {
    /// The greatest version on a track of a name among the packages that are handed in.
    pub(crate) fn greatest_on(
        &self,
        alloc: Global,
        name: &str,
        track: &str,
    ) -> Result<Option<Version>, AllocError>
        ensures { IfOk result (λ o. option_map parts_of o ≡ greatest_on (handed_keys self.now) name.now track.now) }
    {
        let text = format!(in alloc; "{name}@{track}")?;
        let mut best: Option<Version> = None;
        for (key, handed) in self.packages.iter() {
            let found = version_handed(alloc, *key, *handed, text.as_str())?;
            best = later(best, found);
        }
        Ok(best)
    }

    /// The package that an instantiation names, among those that are known: with a track, that of the
    /// greatest version on it.
    pub(crate) fn package_named(&mut self, alloc: Global, new: &NewExpr<'_>) -> Outcome<PackageId>
        ensures outcome { IsPackageNamed new.now self.old self.new result }
        ensures stands { IfOk result (ContainsPackage self.new.graph) }
        ensures keeps { Keeps self.old.graph self.new.graph }
        ensures packages { SamePackages (all_known self.old) (all_known self.new) }
    {
        self.graph.types().see_acyclic();
        let named = &new.package;
        match new.track {
            None => self.package(alloc, named.name, named.version.as_ref(), named.span),
            Some(track) => match self.greatest_on(alloc, named.name, track)? {
                None => Err(unknown_package(alloc, named.name, named.span)),
                Some(version) => self.package(alloc, named.name, Some(&version), named.span),
            },
        }
    }
}

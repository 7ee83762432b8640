//! Packages of a graph.

ghost use Rattle.std.specs.Prelude.{◌≡◌, ◌<◌, ◌+◌, None, Some, IfOk, IfErr, OnOk, OnErr, IfSome, IfNone, slice_get, option_map};
ghost use Rattle.std.specs.Bool.{Decides};
ghost use Rattle.wac_types_names.specs.Keys.{borrowed_key};
ghost use Rattle.wac_graph_core.specs.Graph.{PackageStands, ContainsPackage};
ghost use Rattle.wac_graph_core.specs.Packages.{HoldsKey, HoldsKeyAt, NoneHoldsKey, IsFree, held_place, left_place, shown_at, key_of, HasPackage, NoKey};
ghost use Rattle.wac_graph_core.specs.Packages.{Registers, RegisterRefused, Unregisters, PlacesGrow, IsStale};

use crate::edge::{Follow, reached};
use crate::error::RegisterPackageError;
use crate::graph::CompositionGraph;
use crate::ids::PackageId;
use crate::node_set::NodeSet;
use crate::package::Place;
use semver::Version;
use std::alloc::AllocError;
use wac_types_names::{BorrowedPackageKey, Package, PackageKey, same_key};

/// Whether a place holds a package of that key.
fn holds(place: &Place, key: &BorrowedPackageKey<'_>) -> bool
    ensures { Decides result (HoldsKey place.now (borrowed_key key.now)) }
{
    match &place.held {
        Some(package) => same_key(&package.key(), key),
        None => false,
    }
}

/// The place of the package of a key.
fn place_of(places: &[Place], key: &BorrowedPackageKey<'_>) -> Option<usize>
    ensures found { IfSome result (HoldsKeyAt places.now (borrowed_key key.now)) }
    ensures none { IfNone result (NoneHoldsKey places.now (borrowed_key key.now)) }
{
    for (at, place) in places.iter().enumerate() {
        if holds(place, key) {
            return Some(at);
        }
    }
    None
}

/// Whether a package may be put there.
fn is_free(place: &Place) -> bool
    ensures { Decides result (IsFree place.now) }
{
    match &place.held {
        Some(_) => false,
        None => place.generation < u64::MAX,
    }
}

/// The first place where a package may be put.
fn free_place(places: &[Place]) -> Option<usize>
    ensures { IfSome result (λ i. (p : Place) × (slice_get places.now i ≡ Some p) × IsFree p) }
{
    for (at, place) in places.iter().enumerate() {
        if is_free(place) {
            return Some(at);
        }
    }
    None
}

/// Puts a package there, and answers the generation.
fn fill(place: &mut Place, package: Package) -> u64
    ensures filled { place.new ≡ held_place place.old.generation «package» }
    ensures now { result ≡ place.old.generation }
{
    place.held = Some(package);
    place.generation
}

/// Takes the package away, and its generation with it.
fn give_up(place: &mut Place)
    requires { place.old.generation < 18446744073709551615 }
    ensures { place.new ≡ left_place place.old.generation }
{
    place.held = None;
    place.generation += 1;
}

impl CompositionGraph {
    /// Registers a package whose world stands in the graph's collection. A package that is refused is dropped.
    pub fn register_package(&mut self, package: Package) -> Result<PackageId, RegisterPackageError>
        requires { PackageStands self.old.types «package» }
        ensures grow { PlacesGrow self.old.places self.new.places }
        ensures registered { IfOk result (λ id. Registers self.old self.new «package» id) }
        ensures refused { IfErr result (λ e. RegisterRefused self.old «package» e) }
        ensures kept { OnErr result (self.new ≡ self.old) }
    {
        if let Some(_) = place_of(self.places.as_slice(), &package.key()) {
            return Err(RegisterPackageError::PackageAlreadyRegistered {
                key: PackageKey::new(self.alloc, &package)?,
            });
        }
        match free_place(self.places.as_slice()) {
            Some(place) => {
                let generation = fill(&mut self.places[place], package);
                Ok(PackageId { place, generation })
            }
            None => {
                let place = self.places.len();
                self.places.push(Place {
                    generation: 0,
                    held: Some(package),
                })?;
                Ok(PackageId {
                    place,
                    generation: 0,
                })
            }
        }
    }

    /// The package of a name and a version, with its id.
    pub fn get_package_by_name(
        &self,
        name: &str,
        version: Option<&Version>,
    ) -> Option<(PackageId, &Package)>
        ensures found { IfSome result (λ x. HasPackage self.now x.0 x.1.now (key_of name.now version.entry)) }
        ensures none { IfNone result (NoKey self.now (key_of name.now version.entry)) }
    {
        let key = BorrowedPackageKey::from_name_and_version(name, version);
        match place_of(self.places.as_slice(), &key) {
            Some(at) => self.package_at(at),
            None => None,
        }
    }

    /// The package at a place, with its id.
    fn package_at(&self, at: usize) -> Option<(PackageId, &Package)>
        ensures { option_map (λ x. (x.0, x.1.now)) result ≡ shown_at at (slice_get self.now.places at) }
    {
        match self.places.get(at) {
            Some(place) => match &place.held {
                Some(package) => {
                    let id = PackageId {
                        place: at,
                        generation: place.generation,
                    };
                    Some((id, package))
                }
                None => None,
            },
            None => None,
        }
    }

    /// Takes a package away, and its instantiations as `remove_node` does. Its id never stands again.
    pub fn unregister_package(&mut self, package: PackageId) -> Result<(), AllocError>
        requires { ContainsPackage self.old «package» }
        ensures grow { PlacesGrow self.old.places self.new.places }
        ensures stale { OnOk result (IsStale self.new «package») }
        ensures unregistered { OnOk result (Unregisters self.old self.new «package») }
        ensures kept { OnErr result (self.new ≡ self.old) }
    {
        let instances = self.nodes.instances(self.alloc, package)?;
        let starts = NodeSet::of(self.alloc, instances.as_slice())?;
        let gone = reached(&self.edges, Follow::Owned, starts)?;
        self.remove_nodes(&gone);
        give_up(&mut self.places[package.place]);
        Ok(())
    }
}

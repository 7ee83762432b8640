//! Copies of graphs.

ghost use Rattle.std.specs.Prelude.{◌≡◌, IfOk, map, option_map};
ghost use Rattle.wac_types_names.specs.Packaged.{packaged_under};
ghost use Rattle.wac_graph_core.specs.Copying.{IsGraphUnder, AreCopied, place_under};

use crate::graph::CompositionGraph;
use crate::package::Place;
use std::alloc::{AllocError, Global};
use wac_types_names::Package;

/// The package again, if there is one, of a collection with this number.
fn package_under(
    alloc: Global,
    held: &Option<Package>,
    number: u64,
) -> Result<Option<Package>, AllocError>
    ensures { IfOk result (λ o. o ≡ option_map (packaged_under number) held.now) }
{
    match held {
        Some(package) => Ok(Some(package.copy_as(alloc, number)?)),
        None => Ok(None),
    }
}

/// The same places, of a collection with this number.
fn places_under(alloc: Global, places: &[Place], number: u64) -> Result<Vec<Place>, AllocError>
    ensures { IfOk result (λ v. v.items ≡ map (place_under number) places.now) }
{
    let mut copies = Vec::new(alloc);
    for place in places {
        let held = package_under(alloc, &place.held, number)?;
        copies.push(Place {
            generation: place.generation,
            held,
        })?;
    }
    Ok(copies)
}

impl CompositionGraph {
    /// The same graph over a collection with this number: each node and each package has the id that it has here, and
    /// each type its index.
    pub fn copy_as(&self, number: u64) -> Result<CompositionGraph, AllocError>
        ensures under { IfOk result (λ copy. IsGraphUnder number self.now copy) }
        ensures copied { IfOk result (λ copy. AreCopied number self.now.types copy.types) }
    {
        self.types.see_acyclic();
        let types = self.types.copy_as(self.alloc, number)?;
        types.see_acyclic();
        let defined_below = types.defined_types().len();
        let nodes = self.nodes.copy_under(self.alloc, number)?;
        let edges = self.edges.copy(self.alloc)?;
        let exports = self.exports.copy(self.alloc)?;
        let places = places_under(self.alloc, self.places.as_slice(), number)?;
        Ok(CompositionGraph {
            alloc: self.alloc,
            types,
            nodes,
            edges,
            exports,
            places,
            defined_below,
        })
    }
}

//! Which interfaces stand while imports are written.

ghost use Rattle.std.specs.Prelude.{◌≡◌, option_map, slice_get, unwrap_or};
ghost use Rattle.wac_types_base.specs.Entries.{Name};
ghost use Rattle.wac_graph_causes.specs.Standing.{spelled_in, stands_by};

use wac_types_base::{ItemKind, NamedMap, Names};

/// Imports, and their places by the names under which they are asked for.
#[derive(Clone, Copy)]
pub(crate) struct Placed<'a> {
    pub places: &'a NamedMap<usize>,
    pub imports: &'a NamedMap<ItemKind>,
}

/// The name of the import at a place, or else this name.
fn name_at<'a>(imports: &'a NamedMap<ItemKind>, at: usize, name: &'a str) -> &'a str
    ensures { result.now ≡ unwrap_or (option_map (λ e. e.0) (slice_get imports.now at)) name.now }
{
    if at < imports.len() {
        imports.entry(at).0
    } else {
        name
    }
}

/// The name of the import that is asked under a name: that of the import at its place, or else the name itself.
pub(crate) fn spelled<'a>(placed: Placed<'a>, name: &'a str) -> &'a str
    ensures { result.now ≡ spelled_in placed.entry name.now }
{
    match placed.places.get(name) {
        Some(at) => name_at(placed.imports, *at, name),
        None => name,
    }
}

/// The imports that are asked under names, and the names of those that stand.
#[derive(Clone, Copy)]
pub(crate) struct Standing<'a> {
    pub placed: Placed<'a>,
    pub names: &'a Names,
}

impl Standing<'_> {
    /// Whether the interface that is asked under this name stands.
    pub(crate) fn has(self, identifier: &str) -> bool
        ensures { result ≡ stands_by self.entry identifier.now }
    {
        self.names.contains(spelled(self.placed, identifier))
    }
}

//! Laws over the definitions alone: each is the contract of a function without a body.

ghost use Rattle.std.specs.Prelude.{◌≡◌, ◌∷◌, [], codes};
ghost use Rattle.wac_graph_asks.specs.Graphs.{first_export};
ghost use Rattle.wac_graph_asks.specs.Composed.{GraphsAreComposed};
ghost use Rattle.wac_graph_asks.specs.Asked.{Asked_once_conflicts, Asked_once_imports, Asked_once_keeps, Asked_once_tells};

/// A definition that leads to several exports has the name of the first.
pub fn first_name_of_a_definition()
    ensures { first_export ((codes "w", 0) ∷ (codes "z", 0) ∷ []) 0 ≡ codes "w" }
{}

/// The wiring of a graph is the one that its composition has: each instance is an instance of the composition, whose
/// imports are given what the composition says, and each export is what the composition exports.
pub fn graphs_are_composed()
    ensures { GraphsAreComposed }
{}

/// Asks of which some are left out that ask what an earlier one asks have the classes of all of them, and what these
/// keep, and the spellings; and their outer imports and conflicts, and what is told of these.
pub fn asks_once_are_all_asks<A>()
    ensures keeps { Asked_once_keeps A }
    ensures imports { Asked_once_imports A }
    ensures conflicts { Asked_once_conflicts A }
    ensures tells { Asked_once_tells A }
{}

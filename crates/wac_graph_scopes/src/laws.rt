//! Laws over the definitions alone: each is the contract of a function without a body.

ghost use Rattle.wac_graph_scopes.specs.Roots.{RootsRead};

/// Types and imports that are written like the declarations of a type say the same as entries at the root.
pub fn types_at_the_root()
    ensures { RootsRead }
{}

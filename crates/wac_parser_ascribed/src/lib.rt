//! The graph of a resolved document is the composition that the document ascribes. Definitions and
//! one law over them, which is the contract of a function without a body.
#![tactic(auto)]

ghost use Rattle.wac_parser_ascribed.specs.Tied.{Graphs_are_ascribed};

/// The composition of a graph that holds what a document says is the one that the document ascribes,
/// with nodes for those who ask and for instances, and each wiring of the graph is the ascribed one.
pub fn graphs_are_ascribed()
    ensures { Graphs_are_ascribed }
{}

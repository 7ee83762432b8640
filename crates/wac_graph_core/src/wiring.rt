//! The wiring of a graph: a law over the definitions alone, as the contract of a function without a body.

ghost use Rattle.wac_graph_core.specs.GraphWiring.{GraphsHaveWirings, WiringsAreUnique};

/// Each graph has a wiring, however outer imports are spelled and types written, and it has one alone.
pub fn one_wiring_of_a_graph()
    ensures there { GraphsHaveWirings }
    ensures one { WiringsAreUnique }
{}

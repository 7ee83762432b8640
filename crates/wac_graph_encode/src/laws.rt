//! Laws over the definitions alone: each is the contract of a function without a body.

ghost use Rattle.wac_graph_encode.specs.Finished.{FinishedIsWired};
ghost use Rattle.wac_graph_encode.specs.PlainOrders.{Each_source_has_its_turn, Outer_imports_are_found, Plain_order_is_written, Standing_is_before};
ghost use Rattle.wac_graph_encode.specs.RefusedImports.{Accepted_imports_give, Outer_imports_give, Refused_import_is_unwritable};
ghost use Rattle.wac_graph_encode.specs.RefusedInstances.{Refused_beside_is_unwritable, Refused_instance_is_unwritable};
ghost use Rattle.wac_graph_encode.specs.Stocked.{Refused_is_unwritable};

/// Entries that are finished with the packages nested state the wiring of their graph, but for the numbers of
/// instances.
pub fn finished_entries_are_wired()
    ensures { FinishedIsWired }
{}

/// What the writer refuses in a scope in which all stands that a holder has cannot be written in the holder: a value, a
/// value type, a function or its type, a resource, a core module.
pub fn refused_is_unwritable()
    ensures { Refused_is_unwritable }
{}

/// What the writer refuses as the type of an instance, where all that its interface uses stands around, cannot be written.
pub fn refused_instances_are_unwritable()
    ensures { Refused_instance_is_unwritable }
{}

/// What the writer refuses as the type of an instance, where that stands around which the interfaces give that stand, cannot
/// be written with the uses of those interfaces alone.
pub fn refused_beside_is_unwritable()
    ensures { Refused_beside_is_unwritable }
{}

/// Outer imports that are found under the names under which they are asked, and then under their own, are found by their
/// spellings.
pub fn outer_imports_are_found()
    ensures { Outer_imports_are_found }
{}

/// Of the imports in plain order, those that are instances or interfaces are, by their names, in the order of the causes.
pub fn plain_order_is_that_of_causes()
    ensures { Plain_order_is_written }
{}

/// Each import that is an instance or an interface has its turn in the order of the causes.
pub fn each_source_has_its_turn()
    ensures { Each_source_has_its_turn }
{}

/// What an import uses, and what stands before it in the order of the causes, is written before it in each order in which
/// instances and interfaces are behind those that they use.
pub fn standing_sources_come_before()
    ensures { Standing_is_before }
{}

/// An import of an instance or an interface without components or worlds that the writer refuses, once what it uses is
/// prepared, cannot be written as causes write it.
pub fn refused_imports_are_unwritable()
    ensures { Refused_import_is_unwritable }
{}

/// The imports of a component type against which no cause stands, in an outer import, give what is used of them.
pub fn accepted_imports_give()
    ensures { Accepted_imports_give }
{}

/// The outer imports of a composition give what is used of them: what the type of an ask uses is asked too, and each ask is met.
pub fn outer_imports_give()
    ensures { Outer_imports_give }
{}

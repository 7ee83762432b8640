//! Laws over the definitions alone: each is the contract of a function without a body.

ghost use Rattle.std.specs.Prelude.{ℕ};
ghost use Rattle.wac_types_base.specs.declared.item.ItemKind.{ItemKind};
ghost use Rattle.wac_types_base.specs.Entries.{Name};
ghost use Rattle.wac_graph_core.specs.declared.ids.PackageId.{PackageId as PackageName};
ghost use Rattle.wac_graph_core.specs.Nodes.{NodeData};
ghost use Rattle.wac_graph_core.specs.NodeMaps.{NodeMap, AreBelow, IsListedLast};
ghost use Rattle.wac_types_names.specs.Packaged.{Packaged};
ghost use Rattle.wac_graph_core.specs.Graph.{Graph, IsGraph, PackageStands};
ghost use Rattle.wac_graph_core.specs.Types.{Enlarges};
ghost use Rattle.wac_graph_core.specs.Steps.{IsOneAlias, UnsetsAdded};
ghost use Rattle.wac_graph_core.specs.Packages.{PlacesGrow, IsStale, IsGone};

/// An alias made twice is one node.
pub fn alias_twice()
    ensures { (old mid new : Graph) (i j k : ℕ) (n : Name) → IsGraph old → IsOneAlias old mid new i n k j }
{}

/// An argument that was added and is taken back leaves the edges from before.
pub fn unset_after_set()
    ensures { (old mid new : Graph) (i a : ℕ) (n : Name) (item : ItemKind) → UnsetsAdded old mid new i n a item }
{}

/// The id of an unregistered package never stands again while no generation is lowered.
pub fn stale_ids_stay_stale()
    ensures { (g h : Graph) (id : PackageName) → PlacesGrow g.places h.places → IsStale g id → IsGone h id }
{}

/// A package that stands in a graph's collection stands there whatever is added.
pub fn packages_still_stand()
    ensures { (old new : Graph) (p : Packaged) → Enlarges old new → PackageStands old.types p → PackageStands new.types p }
{}

/// A node whose id is above all others is listed behind them.
pub fn new_nodes_are_last()
    ensures { (m : NodeMap) (k : ℕ) (x : NodeData) → AreBelow m k → IsListedLast m k x }
{}

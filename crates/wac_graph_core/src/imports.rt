//! What a graph imports, in order.

ghost use Rattle.std.specs.Prelude.{◌≡◌, []};
ghost use Rattle.std.specs.Option.{option_copied};
ghost use Rattle.std.specs.Iterator.{YieldsFirstBy, item_count};
ghost use Rattle.wac_graph_core.specs.Graph.{package_if};
ghost use Rattle.wac_graph_core.specs.Imports.{unbound_imports, imports_of};

use crate::edges::Edges;
use crate::graph::CompositionGraph;
use crate::ids::{NodeId, PackageId};
use crate::slots::SlotIter;
use std::marker::Model;
use wac_types_base::ItemKind;
use wac_types_names::Package;

/// The explicit imports among nodes, seen as the list of those that are left.
#[derive(Drop)]
struct ExplicitIter<'a> {
    entries: SlotIter<'a>,
}

impl<'a> Model for ExplicitIter<'a> {
    ghost use Rattle.std.specs.Prelude.{List};
    ghost use Rattle.wac_graph_core.specs.Imports.{Import};

    ghost Value = { List Import };

    ghost use Rattle.wac_graph_core.specs.Imports.{explicit_list};

    ghost view = { λ it. explicit_list it.entries };
}

impl<'a> Iterator for ExplicitIter<'a> {
    type Item = (&'a str, ItemKind, Option<NodeId>);

    ghost next_gives = { YieldsFirstBy (λ item. (item.0.now, item.1, item.2)) (λ rest. rest) };

    ghost remaining = { item_count (λ rest. rest) };

    fn next(&mut self) -> Option<(&'a str, ItemKind, Option<NodeId>)> {
        while let Some((id, node)) = self.entries.next() {
            if let Some(name) = node.import_name() {
                return Some((name, node.item_kind(), Some(id)));
            }
        }
        None
    }
}

/// The imports of one instance that have no argument, seen as the list of those that are left.
#[derive(Drop)]
struct UnboundIter<'a> {
    edges: &'a Edges,
    instantiation: NodeId,
    names: &'a [String],
    kinds: &'a [ItemKind],
}

impl<'a> Model for UnboundIter<'a> {
    ghost use Rattle.std.specs.Prelude.{List};
    ghost use Rattle.std.specs.List.{zip};
    ghost use Rattle.wac_types_base.specs.Entries.{texts_of};
    ghost use Rattle.wac_graph_core.specs.Imports.{Import};

    ghost Value = { List Import };

    ghost use Rattle.wac_graph_core.specs.Imports.{unbound_list};

    ghost view = { λ it. unbound_list it.edges.now it.instantiation (zip (texts_of it.names.now) it.kinds.now) };
}

impl<'a> UnboundIter<'a> {
    /// None are left.
    fn empty(edges: &'a Edges) -> Self
        ensures { result ≡ [] }
    {
        UnboundIter {
            edges,
            instantiation: NodeId::new(0),
            names: &[],
            kinds: &[],
        }
    }
}

impl<'a> Iterator for UnboundIter<'a> {
    type Item = (&'a str, ItemKind, Option<NodeId>);

    ghost next_gives = { YieldsFirstBy (λ item. (item.0.now, item.1, item.2)) (λ rest. rest) };

    ghost remaining = { item_count (λ rest. rest) };

    fn next(&mut self) -> Option<(&'a str, ItemKind, Option<NodeId>)> {
        while let Some((name, names)) = self.names.split_first() {
            let Some((kind, kinds)) = self.kinds.split_first() else {
                return None;
            };
            self.names = names;
            self.kinds = kinds;
            if self.edges.argument(self.instantiation, name).is_none() {
                return Some((name.as_str(), *kind, None));
            }
        }
        None
    }
}

/// The imports that have no argument of the instances among nodes, seen as the list of those that are left.
#[derive(Drop)]
struct FilledIter<'a> {
    graph: &'a CompositionGraph,
    unbound: UnboundIter<'a>,
    entries: SlotIter<'a>,
}

impl<'a> Model for FilledIter<'a> {
    ghost use Rattle.std.specs.Prelude.{List, ◌++◌};
    ghost use Rattle.wac_graph_core.specs.Imports.{Import};

    ghost Value = { List Import };

    ghost use Rattle.wac_graph_core.specs.Imports.{filled_list};

    ghost view = { λ it. it.unbound ++ filled_list it.graph.now it.entries };
}

impl<'a> Iterator for FilledIter<'a> {
    type Item = (&'a str, ItemKind, Option<NodeId>);

    ghost next_gives = { YieldsFirstBy (λ item. (item.0.now, item.1, item.2)) (λ rest. rest) };

    ghost remaining = { item_count (λ rest. rest) };

    fn next(&mut self) -> Option<(&'a str, ItemKind, Option<NodeId>)> {
        if let Some(import) = self.unbound.next() {
            return Some(import);
        }
        while let Some((id, node)) = self.entries.next() {
            self.unbound = self.graph.unbound_imports(id, node.package());
            if let Some(import) = self.unbound.next() {
                return Some(import);
            }
        }
        None
    }
}

/// What a graph imports, seen as the list of what is left: names, kinds, and the nodes of explicit imports.
#[derive(Drop)]
pub struct ImportIter<'a> {
    explicit: ExplicitIter<'a>,
    filled: FilledIter<'a>,
}

impl<'a> Model for ImportIter<'a> {
    ghost use Rattle.std.specs.Prelude.{List, ◌++◌};
    ghost use Rattle.wac_graph_core.specs.Imports.{Import};

    ghost Value = { List Import };

    ghost view = { λ it. it.explicit ++ it.filled };
}

impl<'a> Iterator for ImportIter<'a> {
    type Item = (&'a str, ItemKind, Option<NodeId>);

    ghost next_gives = { YieldsFirstBy (λ item. (item.0.now, item.1, item.2)) (λ rest. rest) };

    ghost remaining = { item_count (λ rest. rest) };

    fn next(&mut self) -> Option<(&'a str, ItemKind, Option<NodeId>)> {
        match self.explicit.next() {
            Some(import) => Some(import),
            None => self.filled.next(),
        }
    }
}

impl CompositionGraph {
    /// The package of an id, if there is one and it stands.
    fn package_if(&self, of: Option<PackageId>) -> Option<&Package>
        ensures { option_copied result ≡ package_if self.now of }
    {
        self.get_package(of?)
    }

    /// The imports of an instance of a package that have no argument; none where it is no instance.
    fn unbound_imports(&self, node: NodeId, of: Option<PackageId>) -> UnboundIter<'_>
        ensures { result ≡ unbound_imports self.now node (package_if self.now of) }
    {
        self.see_sound();
        match self.package_if(of) {
            Some(package) => {
                let imports = &self.types.world(package.ty()).imports;
                UnboundIter {
                    edges: &self.edges,
                    instantiation: node,
                    names: imports.names(),
                    kinds: imports.values(),
                }
            }
            None => UnboundIter::empty(&self.edges),
        }
    }

    /// What the graph imports: the explicit imports with their nodes, by their ids, and then the imports of instances that
    /// have no argument, without a node, by the ids of the instances and in the order of their worlds.
    pub fn imports(&self) -> ImportIter<'_>
        ensures { result ≡ imports_of self.now }
    {
        ImportIter {
            explicit: ExplicitIter {
                entries: self.nodes.entries(),
            },
            filled: FilledIter {
                graph: self,
                unbound: UnboundIter::empty(&self.edges),
                entries: self.nodes.entries(),
            },
        }
    }
}

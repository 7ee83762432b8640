//! What the statements of a document have said so far.
#![tactic(auto, using(crate::proofs::SoundGraph::growing))]

ghost use Rattle.std.specs.Prelude.{◌≡◌, OnOk};
ghost use Rattle.wac_graph_core.specs.Graph.{ContainsNode};
ghost use Rattle.wac_parser_resolve.specs.InDocuments.{Starts};
ghost use Rattle.wac_parser_resolve.specs.InStatements.{IsBinding};
ghost use Rattle.wac_parser_resolve.specs.Later.{SameNumber};
ghost use Rattle.wac_parser_resolve.specs.Standing.{IsSound};

use crate::board::{Board, item_of};
use crate::calls::name_once;
use crate::packages::{GraphTypes, Packages};
use crate::spans::Spans;
use std::alloc::Global;
use wac_graph_core::{CompositionGraph, NodeId};
use wac_parser_declare::{Binding, bind};
use wac_parser_refusals::Outcome;
use wac_parser_tree::Ident;
use wac_types_base::NamedMap;

/// What the statements so far have said: the graph, the names of the root with their items and nodes, and where imports
/// and exports are named and where items got their identifiers.
#[derive(Drop)]
pub(crate) struct State<'p> {
    pub(crate) board: Board<'p>,
    pub(crate) names: NamedMap<Binding>,
    pub(crate) nodes: NamedMap<NodeId>,
    pub(crate) imports: Spans,
    pub(crate) exports: Spans,
    pub(crate) ids: Spans,
}

impl<'p> State<'p> {
    /// Nothing said yet, over these packages.
    pub(crate) fn new(alloc: Global, packages: &'p Packages<'p>, number: u64) -> Self
        ensures sound { IsSound result.board.types.graph result.names }
        ensures number { result.board.types.graph.types.number ≡ number }
        ensures starts { Starts «packages».now result }
    {
        let _ = packages.len();
        State {
            board: Board {
                types: GraphTypes {
                    graph: CompositionGraph::new(alloc, number),
                    packages,
                },
                instances: Spans::new(alloc),
            },
            names: NamedMap::new(alloc),
            nodes: NamedMap::new(alloc),
            imports: Spans::new(alloc),
            exports: Spans::new(alloc),
            ids: Spans::new(alloc),
        }
    }

    /// `id` now stands for this node, whose first name it may be.
    pub(crate) fn bind(&mut self, alloc: Global, id: &Ident<'_>, node: NodeId) -> Outcome<()>
        requires node { ContainsNode self.old.board.types.graph node }
        requires sound { IsSound self.old.board.types.graph self.old.names }
        ensures sound { OnOk result (IsSound self.new.board.types.graph self.new.names) }
        ensures number { SameNumber self.old.board.types.graph self.new.board.types.graph }
        ensures outcome { IsBinding id.now node self.old self.new result }
    {
        let kind = item_of(&self.board.types.graph, node);
        bind(alloc, &mut self.names, id, kind)?;
        let _ = self
            .nodes
            .insert(String::from_str(alloc, id.string)?, node)?;
        name_once(&mut self.board.types.graph, node, id.string)?;
        Ok(())
    }
}

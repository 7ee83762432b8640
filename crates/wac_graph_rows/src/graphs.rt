//! Rows of graphs: steps on them, and their types compared or merged.
mod answers;
mod fits;
mod merges;
mod steps;

use self::fits::tell_fits;
use self::merges::tell_merges;
use self::steps::tell_steps;
use crate::lines::{Named, add_types};
use wac_graph_core::CompositionGraph;
use wac_rows::{Row, RowTeller, Told, Words};

/// The number of a graph's collection of types.
const NUMBER: u64 = 7;

/// Does what a row says of its part `types`: `steps` on a graph, `asks` of what fits what, or `merges` of asks with their
/// `canonical` names.
pub struct GraphRows;

/// Tells what comes of a row over a graph that is empty yet.
fn tell_row(graph: &mut CompositionGraph, told: &mut Told, row: &Row<'_>) {
    let mut words = Words::new(told.alloc(), row.text_or_nothing("types"));
    let items = add_types(graph, &mut words);
    told.push(words.fault());
    if let Some(steps) = row.text("steps") {
        let mut named = Named::new(told.alloc(), items);
        return tell_steps(graph, &mut named, told, steps);
    }
    if let Some(asks) = row.text("asks") {
        return tell_fits(graph.types(), &items, told, asks);
    }
    let asks = row.text_or_nothing("merges");
    tell_merges(graph.types(), &items, told, asks, row.text("canonical"));
}

impl RowTeller for GraphRows {
    fn tell(&self, told: &mut Told, row: &Row<'_>) {
        let mut graph = CompositionGraph::new(told.alloc(), NUMBER);
        tell_row(&mut graph, told, row);
    }
}

//! Rows of types, names and packages.
mod added;
mod asks;
mod copies;
mod maps;
mod merges;
mod names;
mod packages;
mod printed;
mod replaced;
mod steps;
mod turns;

use crate::lines::add_types;
use copies::items_under;
use maps::tell_map;
use names::tell_names;
use printed::tell_prints;
use steps::tell_steps;
use wac_graph_core::CompositionGraph;
use wac_rows::{Row, RowTeller, Told, Words};

/// The number of the collection that lines of types are added to.
const GRAPH: u64 = 7;

/// The number of the collection that rows are told of.
const NUMBER: u64 = 1;

/// Does what a row says: `steps` over its part `types`, or `names`, `map` or `prints`.
pub struct TypeRows;

/// Tells what comes of steps over the types of a row.
fn tell_types(told: &mut Told, row: &Row<'_>) {
    let mut graph = CompositionGraph::new(told.alloc(), GRAPH);
    let mut words = Words::new(told.alloc(), row.text_or_nothing("types"));
    let items = add_types(&mut graph, &mut words);
    let items = items_under(&items, &mut words, NUMBER);
    told.push(words.fault());
    let copied = graph.types().copy_as(told.alloc(), NUMBER);
    if let Some(mut types) = told.given(copied) {
        tell_steps(&mut types, &items, told, row.text_or_nothing("steps"));
    }
}

impl RowTeller for TypeRows {
    fn tell(&self, told: &mut Told, row: &Row<'_>) {
        if let Some(text) = row.text("names") {
            return tell_names(told, text);
        }
        if let Some(text) = row.text("prints") {
            return tell_prints(told, text);
        }
        match row.text("map") {
            Some(text) => tell_map(told, text, row.text("write")),
            None => tell_types(told, row),
        }
    }
}

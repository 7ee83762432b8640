//! The bytes and the world of a composition graph.
#![tactic(auto)]

mod copying;
mod declarations;
pub mod encode;
mod error;
mod exports;
mod forms;
mod instances;
mod labels;
mod laws;
pub mod options;
mod root;
mod uses;
mod without_uses;
mod world;

pub use encode::EncodeGraph;
pub use laws::{
    accepted_imports_give, each_source_has_its_turn, finished_entries_are_wired,
    outer_imports_are_found, outer_imports_give, plain_order_is_that_of_causes,
    refused_beside_is_unwritable, refused_imports_are_unwritable, refused_instances_are_unwritable,
    refused_is_unwritable, standing_sources_come_before,
};
pub use options::{EncodeOptions, Encoded};
pub use wac_graph_asks::{asks_once_are_all_asks, first_name_of_a_definition, graphs_are_composed};
pub use wac_graph_bytes::Processor;
pub use wac_graph_causes::EncodeError;
pub use wac_names::ValidationFault;

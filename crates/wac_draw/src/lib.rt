//! Graphs as Mermaid flowcharts, which pages and editors show as pictures.
#![tactic(auto)]

mod draw;

pub use draw::flowchart;

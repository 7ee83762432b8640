//! The composition graph: nodes with their types, the edges between them, exports and packages.
#![tactic(auto)]

mod alias;
mod argument;
mod copying;
pub mod count;
mod definition;
mod edge;
mod edges;
pub mod error;
mod export;
pub mod graph;
pub mod ids;
pub mod imports;
mod index;
pub mod iter;
pub mod laws;
mod named;
pub mod node;
mod node_set;
mod nodes;
mod noted;
pub mod order;
mod package;
mod places;
mod reach;
mod registry;
mod remove;
mod slots;
pub mod sorted;
mod standing;
mod tie;
mod ties;
mod type_map;
mod type_set;
pub mod types_mut;
mod wiring;

pub use count::Count;
pub use error::{
    AliasError, DefineTypeError, ExportError, ImportError, InstantiationArgumentError, NameError,
    RegisterPackageError, UnexportError,
};
pub use graph::CompositionGraph;
pub use ids::{NodeId, PackageId};
pub use imports::ImportIter;
pub use iter::{ArgumentIter, NodeIdIter, NodeIter, PackageIter};
pub use named::NamedNodes;
pub use node::{Node, NodeKind};
pub use order::{ByOrd, KeyOrder};
pub use sorted::SortedList;
pub use types_mut::TypesMut;
pub use wiring::one_wiring_of_a_graph;

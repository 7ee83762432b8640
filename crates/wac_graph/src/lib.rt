//! The composition graph, and the bytes of components: the public crate over its parts.
#![tactic(auto)]

pub use wac_graph_bytes as bytes;
pub use wac_graph_core::{
    AliasError, ArgumentIter, CompositionGraph, DefineTypeError, ExportError, ImportError,
    ImportIter, InstantiationArgumentError, NameError, NamedNodes, Node, NodeId, NodeIdIter,
    NodeIter, NodeKind, PackageId, PackageIter, RegisterPackageError, TypesMut, UnexportError,
    laws, one_wiring_of_a_graph,
};
pub use wac_graph_encode::{
    EncodeError, EncodeGraph, EncodeOptions, Encoded, Processor, ValidationFault,
};
pub use wac_graph_plug::{PlugError, PlugFault, plug};
pub use wac_types as types;

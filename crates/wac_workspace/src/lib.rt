//! A workspace of WebAssembly components, and the documents that compose them.
#![tactic(auto)]

mod adding;
mod compose;
mod entries;
mod error;
mod output;
mod read;
mod stream;
mod workspace;

pub use entries::PackageRefs;
pub use error::{AddPackageError, ComposeError, StreamError};
pub use output::Output;
pub use read::{MAX_SOURCE_LENGTH, read_source};
pub use stream::compose_stream;
pub use wac_graph_encode::{EncodeOptions, Processor};
pub use wac_parser_resolve::PackageRef;
pub use wac_streams::{ByteSink, ByteSource, WriteError, write_bytes};
pub use workspace::Workspace;

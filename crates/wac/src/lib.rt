//! Composing WebAssembly components: a workspace of components and documents, and what the program does with them over files, a
//! reader and writers: composing what manifests say, printing documents, plugging.
#![tactic(auto)]

mod commands;
mod components;
mod documents;
mod program;
mod sources;
mod stop;

pub use components::{add_components, load_text, read_file, text_of};
pub use program::run;
pub use stop::{Stop, bad_manifest, not_composed};
pub use wac_manifest as manifest;
pub use wac_texts::{
    DeclareDocument, DeclaredWorldError, Declares, Files, FilesError, MemoryFiles, Place,
    PlugTextError, declared_world, place_of, plug_text, show_place,
};
pub use wac_workspace::{
    AddPackageError, ByteSink, ByteSource, ComposeError, EncodeOptions, MAX_SOURCE_LENGTH, Output,
    PackageRef, PackageRefs, Processor, StreamError, Workspace, WriteError, compose_stream,
    read_source, write_bytes,
};

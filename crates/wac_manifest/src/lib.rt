//! Manifests: which components and sources a run composes, as JSON texts. A member that no manifest has, a member that is
//! missing or of another kind, and a version or digits that cannot be read make a manifest a bad one.
#![tactic(auto)]

mod data;
mod error;
mod manifest;
mod members;

pub use data::{BytesData, TextData};
pub use error::ManifestError;
pub use manifest::{Component, ComposeManifest, Key, PlugManifest, Source};

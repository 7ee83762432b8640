//! What a source is composed to.

use semver::Version;
use wac_types_base::{Types, WorldId};

/// A component, and the world that is true of it.
#[derive(Drop)]
pub struct Output {
    pub bytes: Vec<u8>,
    /// The collection of the world. Its number is the last of the three that the workspace gave out.
    pub types: Types,
    /// A world of the collection.
    pub world: WorldId,
    /// The name of the directive's package.
    pub name: String,
    /// The version of the directive's package, if it has one.
    pub version: Option<Version>,
}

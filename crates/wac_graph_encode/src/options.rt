//! How a graph is encoded, and what comes of it.

use wac_graph_bytes::Processor;
use wac_types_base::{Types, WorldId};

/// How a graph is encoded.
#[derive(Debug, Drop)]
pub struct EncodeOptions {
    /// Whether packages are nested; else they are imported.
    pub define_components: bool,
    /// Whether names are also asked to differ in more than the case of their letters.
    pub validate: bool,
    /// What is said to have written the component.
    pub processor: Option<Processor>,
}

/// Packages are nested, names are tested, and no processor is named.
impl Default for EncodeOptions {
    ghost use Rattle.std.specs.Prelude.{◌≡◌, None, true};

    ghost is_default = { λ o. o ≡ record { define_components = true; validate = true; processor = None } };

    fn default() -> Self {
        EncodeOptions {
            define_components: true,
            validate: true,
            processor: None,
        }
    }
}

/// The bytes of a component, and the world that is true of them.
#[derive(Drop)]
pub struct Encoded {
    pub bytes: Vec<u8>,
    pub types: Types,
    /// A world of the collection.
    pub world: WorldId,
}

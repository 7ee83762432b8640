//! The places of packages.

use wac_types_names::Package;

/// A place for a package: how often a package was unregistered there, and the package that is there now.
#[derive(Drop)]
pub struct Place {
    pub generation: u64,
    pub held: Option<Package>,
}

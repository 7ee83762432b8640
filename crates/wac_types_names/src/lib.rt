//! Names on version tracks, packages and their keys.
#![tactic(auto)]

mod adding;
mod copies;
mod definitions;
mod laws;
pub mod names;
pub mod package;
mod spelling;
mod track;

pub use adding::{Adding, copy_world};
pub use definitions::{definition_of, is_interface_name};
pub use laws::{
    compatible_names, examples, one_name_a_version, order_of_insertion, tracks_end_lookup_keys,
};
pub use names::{
    NameMap, NameMapError, NameMapIntern, NameMapNoIntern, alternate_lookup_key,
    are_semver_compatible, is_track,
};
pub use package::{BorrowedKey, BorrowedPackageKey, Package, PackageKey, same_key};

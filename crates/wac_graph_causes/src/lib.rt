//! Why a composition graph cannot be written.
#![tactic(auto)]

mod beside;
pub mod circles;
pub mod error;
pub mod implicit;
mod inside;
mod late;
pub mod names;
mod order;
mod standing;
pub mod writable;

pub use error::EncodeError;

//! Manifests: the list of a snapshot's range files, as JSON.
#![tactic(auto)]

mod fault;
mod laws;
mod manifest;
mod reading;
mod writing;

pub use fault::{Field, ManifestFault};
pub use laws::{manifest_is_read, read_is_manifest, written_is_manifest};
pub use manifest::Manifest;
pub use reading::read;
pub use writing::write;

#[cfg(test)]
mod tests;

//! Snapshots: the pieces of a job's ranges, and the files that were noted for them.
#![tactic(auto)]

mod fault;
mod file_map;
mod laws;
mod least_keys;
mod plan;
mod settings;

pub use fault::MapFault;
pub use file_map::{Done, FileMap, Noted};
pub use laws::{least_key_law, manifest_law, piece_law, plan_law, take_back_law, whole_law};
pub use plan::pieces;
pub use settings::JobSettings;

#[cfg(test)]
mod tests;

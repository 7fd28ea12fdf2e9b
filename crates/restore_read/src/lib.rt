//! Reads what a container says for a version, and gives its pairs.
#![tactic(auto)]

mod laws;
mod links;
mod ranges;
mod restoring;

pub use laws::restore_law;
pub use restoring::restore;

//! The files of a container, what versions they advertise, and what these mean.
#![tactic(auto)]

mod catalog;
mod chaining;
mod describing;
mod laws;
mod listing;
mod logs;
mod property;
mod restoring;
mod sorting;
mod versions;
mod view;

pub use catalog::containers;
pub use chaining::{Link, chain, chain_past};
pub use describing::{Description, Snapshot, describe, describe_names};
pub use laws::{
    applied_law, bounds_law, chain_law, change_law, chosen_law, container_law, contents_law,
    file_law, given_law, growth_law, honest_store_law, life_law, names_law, property_law,
    reach_law, restored_law, set_law, store_law,
};
pub use property::read_property;
pub use restoring::{RestoreSet, get_file, restore_set};
pub use versions::{Bounds, manifest_for, restorable};
pub use view::{FileFault, ViewFault, get_property, list_names, whole_name};

#[cfg(test)]
mod tests;

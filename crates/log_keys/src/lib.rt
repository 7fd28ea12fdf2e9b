//! The logs of jobs: batches of mutations by job and version, in parts under keys.
#![tactic(auto)]

mod joining;
mod key;
mod laws;
mod logs;
mod row;
mod table;
mod whole;

pub use laws::{
    erase_join_law, erase_law, join_law, join_order_law, key_order_law, newest_law, one_key_law,
    put_law, retract_law, undo_law, unused_law,
};
pub use logs::LogKeys;

#[cfg(test)]
mod tests;

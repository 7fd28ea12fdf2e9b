//! Mutations of a database: what they leave at a key, their histories and their bytes.
#![tactic(auto)]

mod batch;
mod clipping;
mod counting;
mod decoding;
mod encoding;
mod history;
mod laws;
mod mutation;
mod tx_fault;
mod tx_op;
mod wire;
mod wire_fault;

pub use batch::{Batch, LogChunk};
pub use clipping::{clip, touches};
pub use counting::{clipped_bytes, mutation_bytes};
pub use decoding::decode_batch;
pub use encoding::encode_batch;
pub use history::{Entry, Who};
pub use laws::{
    append_law, clip_law, first_fault_law, lock_law, logged_append_law, logged_join_law,
    logged_law, logged_replay_law, logged_state_law, one_spelling_law, replay_append_law,
    replay_join_law, state_law, touch_law, untouched_law,
};
pub use mutation::Mutation;
pub use tx_fault::{TxFault, fault_of};
pub use tx_op::{TxOp, TxOps};
pub use wire_fault::WireFault;

#[cfg(test)]
mod tests;

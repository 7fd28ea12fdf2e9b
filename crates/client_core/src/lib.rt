//! Clients: their transactions one after another, and what became of each try.
#![tactic(auto)]

mod client;
mod laws;
mod outcome;
mod outcomes;

pub use client::Client;
pub use laws::{begin_law, entry_law, new_client_law, try_law, wait_law};
pub use outcome::{End, Outcome};
pub use outcomes::Outcomes;

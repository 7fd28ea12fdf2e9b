//! The versions that databases share, and what a database holds at each of them.
#![tactic(auto)]

mod chain;
mod chunks;
mod keys;
mod laws;
mod page;
mod queue;
mod steps;
mod store;
mod table;
#[cfg(test)]
mod tests;
mod versions;
mod writes;

pub use laws::{digits_law, history_law};
pub use page::Page;
pub use steps::Steps;
pub use store::Store;
pub use versions::Versions;

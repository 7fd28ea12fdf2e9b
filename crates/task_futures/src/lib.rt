//! Futures: what is to be done once the last of some tasks is closed.
#![tactic(auto)]

mod due;
mod future;
mod futures;
mod laws;
mod links;
mod list_futures;
mod part;
mod settling;
mod tasks;

pub use futures::Futures;
pub use laws::futures_law;
pub use list_futures::ListFutures;
pub use part::Part;
pub use tasks::Tasks;

#[cfg(test)]
mod tests;

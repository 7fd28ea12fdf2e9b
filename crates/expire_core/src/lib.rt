//! What a container no longer promises: its old files go, and what it advertises stays.
#![tactic(auto)]

mod changing;
mod expiring;
mod laws;
mod listing;
mod planning;

pub use expiring::{ExpireFault, Expiry, expire};
pub use laws::{elsewhere_law, honest_law, order_law, raise_law, refusal_law, stays_law};
pub use listing::{Listing, read_listing};
pub use planning::{ExpirePlan, PlanFault, plan};

#[cfg(test)]
mod tests;

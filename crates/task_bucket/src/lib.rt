//! The bucket of tasks: those that are available, and those that are leased until a version.
#![tactic(auto)]

mod bucket;
mod changes;
mod held;
mod laws;
mod lease;
mod list_bucket;

pub use bucket::Bucket;
pub use laws::{holders_law, sums_law};
pub use lease::{Lease, LeaseFault};
pub use list_bucket::ListBucket;

#[cfg(test)]
mod tests;

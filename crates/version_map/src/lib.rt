//! A map from keys to versions, which keeps the last version that was set on each range of keys.
#![tactic(auto)]

mod keys;
mod laws;
mod map;
mod piece;
mod places;
#[cfg(test)]
mod tests;
mod versioned;

pub use laws::{last_set_law, parts_law, set_law};
pub use map::VersionMap;
pub use piece::Piece;
pub use versioned::{Part, Versioned};

//! The blocks that range files and log files are made of, and the four profiles of their sizes.
#![tactic(auto)]

mod block;
mod frame;
mod laws;
mod profile;
mod string;

pub use block::block_at;
pub use frame::FrameWriter;
pub use laws::{blocks_have_room, rows_have_room};
pub use profile::Profile;
pub use string::{header_at, is_over, push_string, string_at, unpadded_at};

#[cfg(test)]
mod tests;

//! Range files: the pairs of a range of keys at one version, in blocks.
#![tactic(auto)]

mod block;
mod fault;
mod file;
mod laws;
mod writing;

pub use block::{Block, read_block};
pub use fault::BlockFault;
pub use file::{RangeBody, read_range};
pub use laws::{file_is_read, one_body, read_is_file, written_is_file, written_is_read};
pub use writing::{Chunk, write_range, write_range_at};

#[cfg(test)]
mod tests;

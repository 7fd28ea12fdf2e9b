//! What the files of a restore say, once they are read.
#![tactic(auto)]

mod laws;
mod loaded;
mod meaning;
mod order;
mod overlaps;
mod pieces;
mod replay;
mod stored;
mod table;

pub use laws::overlap_law;
pub use loaded::{Loaded, LoadedFile, LoadedLink};
pub use meaning::{LoadFault, pairs_at, whole};
pub use overlaps::{At, overlap};

#[cfg(test)]
mod tests;

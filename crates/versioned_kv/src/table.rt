mod edits;
mod entries;
mod looks;
mod scans;

pub use entries::Table;

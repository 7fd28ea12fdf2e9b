//! Log files: the mutations of a span of versions, in blocks.
#![tactic(auto)]

mod batched;
mod fault;
mod joined;
mod joining;
mod laws;
mod reading;
mod record;
mod writing;

pub use fault::LogFault;
pub use laws::{log_is_read, one_log, read_is_log, written_is_log, written_is_read};
pub use reading::read_log;
pub use writing::{write_log, write_log_at};

#[cfg(test)]
mod tests;

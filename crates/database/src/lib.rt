//! A database: its history, the commits that make it, the states that it had, and what its jobs
//! log.
#![tactic(auto)]

mod commit_fault;
mod conflicts;
mod db;
mod found;
mod job_log;
mod keeping;
mod laws;
mod lock_fault;
mod locking;
mod logging;
mod reading;
mod system_fault;
#[cfg(test)]
mod tests;
mod writes;

pub use commit_fault::CommitFault;
pub use db::{Committed, Db, Tx};
pub use found::Found;
pub use job_log::JobLog;
pub use laws::{
    cause_law, commit_law, dump_law, large_law, leaves_reads_law, read_only_law, serial_law,
};
pub use lock_fault::{LockFault, UnlockFault};
pub use system_fault::SystemFault;

//! Backups: what each keeps between its calls, and when what it puts is honest.
#![tactic(auto)]

mod adding;
mod backup;
mod closing;
mod fault;
mod laws;
mod making;
mod mode;
mod part;
mod ranging;
mod starting;
mod taking;

pub use backup::BackupJob;
pub use fault::CloseFault;
pub use laws::{
    bucket_law, calm_law, closes_law, hand_law, honest_manifest_law, kept_law, limit_law, made_law,
    made_reads_law, newest_law, noting_law, orders_law, row_files_law, rows_law, takes_law,
    tasks_law, tiling_law, undo_law, waiting_law,
};
pub use making::{FileMade, made};
pub use mode::Mode;
pub use part::FilePart;

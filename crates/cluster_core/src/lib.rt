//! The world: two databases, their clients and the file store, stepped by events.
#![tactic(auto)]

mod backup;
mod change;
mod clients;
mod crew;
mod drain;
mod event;
mod job;
mod job_kind;
mod jobs;
mod laws;
mod logging;
mod memory;
mod plan;
mod planning;
mod refusal;
mod world;

pub use backup::Backup;
pub use drain::DrainFault;
pub use event::{Answer, Event, StepFault};
pub use job::Job;
pub use job_kind::JobKind;
pub use jobs::Jobs;
pub use laws::{
    elsewhere_law, faithful_law, footprint_law, least_key_law, opening_law, run_law, step_law,
};
pub use refusal::Refusal;
pub use task_kinds::JobState;
pub use world::{OpenFault, Parts, World};

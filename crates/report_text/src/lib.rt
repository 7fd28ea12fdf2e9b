//! Reports: what a run did, and its text.
#![tactic(auto)]

mod answers;
mod commands;
mod described;
mod entries;
mod event_answer;
mod events;
mod faults;
mod jobs;
mod kept;
mod listed;
mod outcomes;
mod printing;
mod reads;
mod reply;
mod report;
mod restored;
mod tail;
#[cfg(test)]
mod tests;
mod words;

pub use described::put_number_or_none;
pub use event_answer::EventAnswer;
pub use faults::put_file_fault;
pub use printing::report_bytes;
pub use reply::Reply;
pub use report::{CommandLine, Described, EventLine, Report, Restored, RunReport};

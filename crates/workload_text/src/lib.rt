//! Workloads: the clients' transactions and the schedule that a run plays, and their text.
#![tactic(auto)]

mod agent_death;
mod agent_stall;
mod building;
mod client_lines;
mod client_script;
mod command;
mod command_kind;
mod command_lines;
mod counts;
mod event_lines;
mod keyword;
mod line;
mod line_fault;
mod numbers;
mod part;
mod pieces;
mod ranges;
mod reader;
mod reading;
mod schedule;
mod setting;
mod setting_lines;
mod settings;
#[cfg(test)]
mod tests;
mod text_fault;
mod words;
mod workload;

pub use agent_death::AgentDeath;
pub use agent_stall::AgentStall;
pub use client_script::{ClientScript, Side};
pub use command::Command;
pub use command_kind::CommandKind;
pub use keyword::{Keyword, ReadKind, WriteKind, keyword_of};
pub use pieces::{first_line, first_word};
pub use reading::{MOST_BYTES, read_workload};
pub use schedule::{EventKind, ScheduleLine};
pub use setting::{Setting, SettingKind};
pub use settings::Settings;
pub use text_fault::{TextFault, TextKind};
pub use words::is_container_name;
pub use workload::Workload;

use crate::Reply;
use client_core::Outcomes;
use cluster_core::{Answer, Jobs};
use container_view::Description;
use fb_bytes::{Names, Pairs, Seq, Text};
use mutations::Entry;
use workload_text::{CommandKind, ScheduleLine};

/// An event of a schedule, and what it was answered.
#[derive(Debug, Drop)]
pub struct EventLine {
    pub line: ScheduleLine,
    /// The command of an operator's step, where one was left.
    pub command: Option<CommandKind>,
    pub reply: Reply,
}

/// A command of the operator, and the last answer that its steps got.
#[derive(Debug, Drop)]
pub struct CommandLine {
    pub command: CommandKind,
    pub answer: Answer,
}

/// What a run did.
#[derive(Debug, Drop)]
pub struct RunReport {
    /// The schedule's events, in order. A run without a schedule has none.
    pub lines: Seq<EventLine>,
    /// Of a run without a schedule: the operator's commands that were reached, in order.
    pub commands: Seq<CommandLine>,
    /// In the order of the clients' numbers.
    pub outcomes: Outcomes,
    pub src: Seq<Entry>,
    pub dst: Seq<Entry>,
    /// In the order of their numbers.
    pub jobs: Jobs,
    /// The newest version when the run ended.
    pub end: u64,
}

/// The pairs that a container has at a version.
#[derive(Debug, Drop)]
pub struct Restored {
    pub version: u64,
    pub pairs: Pairs,
}

/// What a container has.
#[derive(Debug, Drop)]
pub struct Described {
    pub container: Text,
    pub description: Description,
}

/// What a command has to tell.
#[derive(Debug, Drop)]
pub enum Report {
    Run(RunReport),
    Restored(Restored),
    Described(Described),
    /// How many files an expire deleted.
    Expired { deleted: u64 },
    /// The containers of a store.
    Listed(Names),
}

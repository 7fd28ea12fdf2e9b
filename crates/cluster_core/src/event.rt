ghost use Rattle.std.specs.Prelude.{◌≡◌};
ghost use Rattle.cluster_core.specs.declared.event.StepFault.TheVariants.{NoMemory};

use crate::{JobState, Refusal};
use client_core::Outcome;
use fb_bytes::Text;
use std::alloc::AllocError;
use task_kinds::Kind;

/// What may happen in the world. One event is one step.
#[derive(Clone, Copy, Debug, PartialEq, Eq)]
pub enum Event {
    /// The client begins its next transaction.
    Begin { client: u32 },
    /// The client tries to commit the transaction that it began.
    Commit { client: u32 },
    /// So many versions go by.
    Tick { n: u64 },
    /// The agent claims a task: that with the greatest uid at or below the pick, else the first.
    Claim { agent: u32, pick: u64 },
    /// The agent asks for more time for its task.
    Extend { agent: u32 },
    /// The agent dies, and forgets its task. Another process with its number may claim again.
    Die { agent: u32 },
    /// The operator makes a step of its next command.
    Command,
}

/// What an event is answered.
#[derive(Debug, Drop)]
pub enum Answer {
    /// The event doesn't apply. It changed nothing.
    Nothing,
    /// A transaction was begun, and its reads see this version.
    Read { version: u64 },
    /// What became of a try to commit.
    Outcome(Outcome),
    /// Time passed; the newest version.
    Version { version: u64 },
    /// There is no task to claim.
    NoTask,
    /// Agents claim nothing while they are paused.
    Paused,
    /// The agent claimed this task, and has it until that version.
    Task { uid: u64, kind: Kind, until: u64 },
    /// The agent has its task until that version.
    Until { until: u64 },
    /// The agent took what it is to place, and the ticket for it.
    Taken { ticket: u64 },
    /// The command is done.
    Done,
    /// A file was put under this name, its container's folder included.
    Placed { name: Text },
    /// What the agent is to load is there.
    Loaded,
    /// The agent closed its task.
    Closed { uid: u64 },
    /// Another agent has the task by now, or it is gone.
    Interrupted { uid: u64 },
    /// The agent is dead.
    Dead,
    /// The command goes on with the operator's next step.
    Going,
    /// The command was refused.
    Refused(Refusal),
    /// The state of the newest job with the tag. None where no job has it.
    State { state: Option<JobState> },
    /// By how many versions the copy is behind. None where that can't be said.
    Lag { lag: Option<u64> },
}

/// Why a step was refused.
#[derive(Clone, Copy, Debug, PartialEq, Eq)]
pub enum StepFault {
    /// The file store failed. A put that failed has left the old files or the new ones; the
    /// operator stays at its command.
    VaultFault,
    /// The step would take a version past the greatest one; the version is the newest.
    VersionsSpent { version: u64 },
    /// The entry that the step would make has too many bytes for a job's log.
    LogTooLarge { bytes: u64 },
    /// There was no memory for the step.
    NoMemory,
}

impl From<AllocError> for StepFault {
    ghost from_gives = { λ _ e. e ≡ NoMemory };

    fn from(_: AllocError) -> Self {
        StepFault::NoMemory
    }
}

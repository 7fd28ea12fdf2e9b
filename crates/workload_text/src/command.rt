ghost use Rattle.std.specs.Prelude.{◌≡◌, IfOk};
ghost use Rattle.workload_text.specs.declared.command.Command.TheVariants.{Open, Backup, Restore, Dr};

use crate::Side;
use fb_bytes::{KeyRange, Ranges, Text, TryCopy};
use std::alloc::AllocError;

/// A command of the operator. One with a tag speaks of the newest job with that tag.
#[derive(Debug, Drop)]
pub enum Command {
    /// Begins a hand job under the tag: a backup of ranges of a database into a container, piece by
    /// piece.
    Open {
        tag: Text,
        side: Side,
        container: Text,
        ranges: Ranges,
    },
    /// Dumps a piece of the hand job.
    Dump {
        tag: Text,
        piece: KeyRange,
    },
    /// Writes the log file of what came since the last cut.
    Cut {
        tag: Text,
    },
    /// Writes the manifest of the pieces dumped.
    Seal {
        tag: Text,
    },
    /// Begins a backup by agents: once, or continuous.
    Backup {
        tag: Text,
        side: Side,
        container: Text,
        continuous: bool,
        ranges: Ranges,
    },
    /// Asks a continuous backup for a further snapshot.
    Snapshot {
        tag: Text,
    },
    /// Lets a continuous backup end with its snapshot.
    Discontinue {
        tag: Text,
    },
    /// Ends the job.
    Abort {
        tag: Text,
    },
    /// Agents claim nothing from now on.
    Pause,
    /// Agents claim again.
    Resume,
    /// Waits until the job has come to rest.
    Wait {
        tag: Text,
    },
    /// Asks for the job's state.
    Status {
        tag: Text,
    },
    /// Deletes what a container no longer needs: files below the cutoff, if a version at or past
    /// `wanted` stays restorable, or if forced.
    Expire {
        container: Text,
        cutoff: u64,
        wanted: u64,
        force: bool,
    },
    /// Brings a version of a container back into a database: none is the greatest that is
    /// advertised.
    Restore {
        tag: Text,
        side: Side,
        container: Text,
        version: Option<u64>,
    },
    /// Copies ranges of a database, and what follows, to the other one.
    Dr {
        tag: Text,
        side: Side,
        ranges: Ranges,
    },
    /// Moves over to the copy.
    Switch {
        tag: Text,
    },
    /// Asks how far the copy is behind.
    Lag {
        tag: Text,
    },
}

impl TryCopy for Command {
    fn copy(&self) -> Result<Self, AllocError> {
        let command = match self {
            Command::Open {
                tag,
                side,
                container,
                ranges,
            } => opening(tag, *side, container, ranges)?,
            Command::Dump { tag, piece } => Command::Dump {
                tag: tag.copy()?,
                piece: piece.copy()?,
            },
            Command::Cut { tag } => Command::Cut { tag: tag.copy()? },
            Command::Seal { tag } => Command::Seal { tag: tag.copy()? },
            Command::Backup {
                tag,
                side,
                container,
                continuous,
                ranges,
            } => backup(tag, *side, container, *continuous, ranges)?,
            Command::Snapshot { tag } => Command::Snapshot { tag: tag.copy()? },
            Command::Discontinue { tag } => Command::Discontinue { tag: tag.copy()? },
            Command::Abort { tag } => Command::Abort { tag: tag.copy()? },
            Command::Pause => Command::Pause,
            Command::Resume => Command::Resume,
            Command::Wait { tag } => Command::Wait { tag: tag.copy()? },
            Command::Status { tag } => Command::Status { tag: tag.copy()? },
            Command::Expire {
                container,
                cutoff,
                wanted,
                force,
            } => Command::Expire {
                container: container.copy()?,
                cutoff: *cutoff,
                wanted: *wanted,
                force: *force,
            },
            Command::Restore {
                tag,
                side,
                container,
                version,
            } => restore(tag, *side, container, *version)?,
            Command::Dr { tag, side, ranges } => dr(tag, *side, ranges)?,
            Command::Switch { tag } => Command::Switch { tag: tag.copy()? },
            Command::Lag { tag } => Command::Lag { tag: tag.copy()? },
        };
        Ok(command)
    }
}

fn opening(tag: &Text, side: Side, container: &Text, ranges: &Ranges) -> Result<Command, AllocError>
    ensures { IfOk result (λ command. command ≡ Open tag.now side container.now ranges.now) }
{
    let tag = tag.copy()?;
    let container = container.copy()?;
    let ranges = ranges.copy()?;
    Ok(Command::Open {
        tag,
        side,
        container,
        ranges,
    })
}

fn backup(
    tag: &Text,
    side: Side,
    container: &Text,
    continuous: bool,
    ranges: &Ranges,
) -> Result<Command, AllocError>
    ensures { IfOk result
        (λ command. command ≡ Backup tag.now side container.now continuous ranges.now) }
{
    let tag = tag.copy()?;
    let container = container.copy()?;
    let ranges = ranges.copy()?;
    Ok(Command::Backup {
        tag,
        side,
        container,
        continuous,
        ranges,
    })
}

fn restore(
    tag: &Text,
    side: Side,
    container: &Text,
    version: Option<u64>,
) -> Result<Command, AllocError>
    ensures { IfOk result (λ command. command ≡ Restore tag.now side container.now version) }
{
    let tag = tag.copy()?;
    let container = container.copy()?;
    Ok(Command::Restore {
        tag,
        side,
        container,
        version,
    })
}

fn dr(tag: &Text, side: Side, ranges: &Ranges) -> Result<Command, AllocError>
    ensures { IfOk result (λ command. command ≡ Dr tag.now side ranges.now) }
{
    let tag = tag.copy()?;
    let ranges = ranges.copy()?;
    Ok(Command::Dr { tag, side, ranges })
}

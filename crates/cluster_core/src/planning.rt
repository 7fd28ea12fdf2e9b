//! What the operator's next command comes to, before anything is changed. A file for each
//! command.

ghost use Rattle.std.specs.Prelude.{◌<◌, Some, None, IfOk};
ghost use Rattle.workload_text.specs.Commands.{IsCommand};
ghost use Rattle.cluster_core.specs.inner.Plans.{command_of, IsPlan, IsPlanOf, IsSafe};

mod cut;
mod dump;
mod open;
mod seal;
mod shared;
mod status;

use crate::World;
use crate::plan::{Plan, Running};
use fb_bytes::{KeyRange, Text};
use fb_outside::Vault;
use std::alloc::AllocError;
use workload_text::Command;

/// What a command asks of a job that runs.
#[derive(Clone, Copy, Debug)]
enum JobCommand<'a> {
    Dump { piece: &'a KeyRange },
    Cut,
    Seal,
    Abort,
}

impl<V: Vault> World<V> {
    /// What the operator's next command comes to.
    pub(crate) fn plan(&self) -> Result<Plan, AllocError>
        ensures plan { IfOk result (IsPlan self.now.workload self.now.state) }
        ensures safe { IfOk result (IsSafe self.now.state) }
    {
        match self.workload.operator.as_slice().get(self.place) {
            Some(command) => self.plan_of(command),
            None => Ok(Plan::Nothing),
        }
    }

    fn plan_of(&self, command: &Command) -> Result<Plan, AllocError>
        requires { IsCommand self.now.workload.settings.block command.now }
        ensures plan { IfOk result
            (IsPlanOf self.now.workload.settings self.now.state command.now) }
        ensures safe { IfOk result (IsSafe self.now.state) }
    {
        match command {
            Command::Open {
                tag,
                side,
                container,
                ranges,
            } => self.plan_open(tag, *side, container, ranges),
            Command::Dump { tag, piece } => self.plan_on(tag, JobCommand::Dump { piece }),
            Command::Cut { tag } => self.plan_on(tag, JobCommand::Cut),
            Command::Seal { tag } => self.plan_on(tag, JobCommand::Seal),
            Command::Abort { tag } => self.plan_on(tag, JobCommand::Abort),
            Command::Status { tag } => Ok(Plan::Tell(self.state_of(tag))),
            Command::Pause => Ok(Plan::Pause { paused: true }),
            Command::Resume => Ok(Plan::Pause { paused: false }),
            // These aren't served yet.
            Command::Backup { .. }
            | Command::Snapshot { .. }
            | Command::Discontinue { .. }
            | Command::Wait { .. }
            | Command::Expire { .. }
            | Command::Restore { .. }
            | Command::Dr { .. }
            | Command::Switch { .. }
            | Command::Lag { .. } => Ok(Plan::Nothing),
        }
    }

    // What is asked of the newest job with the tag comes to.
    fn plan_on(&self, tag: &Text, asked: JobCommand<'_>) -> Result<Plan, AllocError>
        requires { IsCommand self.now.workload.settings.block (command_of tag.now asked) }
        ensures plan { IfOk result (IsPlanOf self.now.workload.settings self.now.state
            (command_of tag.now asked.entry)) }
        ensures safe { IfOk result (IsSafe self.now.state) }
    {
        let place = match self.running(tag)? {
            Running::At(place) => place,
            Running::Refused(refusal) => return Ok(Plan::Refuse(refusal)),
        };
        match asked {
            JobCommand::Dump { piece } => self.plan_dump(place, piece),
            JobCommand::Cut => self.plan_cut(place),
            JobCommand::Seal => self.plan_seal(place),
            JobCommand::Abort => Ok(Plan::Abort { place }),
        }
    }
}

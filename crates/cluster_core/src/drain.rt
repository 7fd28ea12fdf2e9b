//! Drains: the operator's steps, one after another.

ghost use Rattle.std.specs.Prelude.{◌≡◌, ◌+◌, ◌≤◌, length, nat_le, IsErrOf};
ghost use Rattle.fb_outside.specs.Faults.{Counts};
ghost use Rattle.cluster_core.specs.Drain.{is_over, DrainGives};
ghost use Rattle.cluster_core.specs.Sound.{Sound};

use crate::{Event, StepFault, World};
use fb_outside::Vault;

/// Why a drain ended before the operator's script did.
#[derive(Clone, Copy, Debug, PartialEq, Eq)]
pub enum DrainFault {
    /// So many events were made, and the script hasn't ended.
    TurnsSpent { turns: u64 },
    /// The drain's last event was refused.
    Step(StepFault),
}

impl<V: Vault> World<V> {
    /// Whether the operator's script has ended. It takes no memory.
    pub fn ended(&self) -> bool
        ensures { result ≡ is_over self.now.workload self.now.state }
    {
        self.place >= self.workload.operator.len()
    }

    /// Makes events until the operator's script has ended, at most so many, and answers their number.
    /// Each is a step of the operator's next command. After a fault all events before it were made.
    pub fn drain(&mut self, most: u64) -> Result<u64, DrainFault>
        ensures drain { DrainGives self.old.workload most self.old.state result self.new.state }
        ensures workload { self.new.workload ≡ self.old.workload }
        // An event makes at most one call on the store.
        ensures calls { self.new.calls ≤ self.old.calls + most }
        // The store's count of faults rose where the last event was refused for it.
        ensures faults { Counts self.old.faults self.new.faults
            (IsErrOf result (DrainFault.Step StepFault.VaultFault)) }
        ensures sound { Sound self.new.workload self.new.state }
    {
        let _sound = &self.workload;
        for made in 0..most {
            if self.ended() {
                return Ok(made);
            }
            match self.step(&Event::Command).err() {
                None => continue,
                Some(fault) => return Err(DrainFault::Step(fault)),
            }
        }
        if self.ended() {
            return Ok(most);
        }
        Err(DrainFault::TurnsSpent { turns: most })
    }
}

ghost use Rattle.std.specs.Prelude.{◌≡◌, true, length, nat_le};
ghost use Rattle.std.specs.List.{AllByRecursion, AllByRecursion-prop};
ghost use Rattle.workload_text.specs.Allowed.{are_clients, are_events};
ghost use Rattle.workload_text.specs.Commands.{IsCommand, IsCommand-prop};

use crate::{ClientScript, Command, ScheduleLine, Settings};
use fb_bytes::{Seq, SharedSeq, TryCopy};
use std::alloc::AllocError;

/// What a run plays. Copies share its lists.
#[derive(Debug, Drop)]
pub struct Workload {
    pub settings: Settings,
    /// In the order of their numbers.
    pub clients: Seq<ClientScript>,
    /// In their order.
    pub operator: SharedSeq<Command>,
    pub schedule: SharedSeq<ScheduleLine>,
    pub ghost clients_allowed: { are_clients clients ≡ true },
    pub ghost few_commands: { nat_le (length operator) 1000 ≡ true },
    pub ghost operator_allowed: { AllByRecursion (IsCommand settings.block) operator } by { AllByRecursion-prop (IsCommand settings.block) (IsCommand-prop settings.block) operator },
    pub ghost schedule_allowed: { are_events (length clients) settings.agents schedule ≡ true },
}

impl TryCopy for Workload {
    fn copy(&self) -> Result<Self, AllocError> {
        let settings = self.settings.copy()?;
        let clients = self.clients.copy()?;
        let operator = self.operator.copy()?;
        let schedule = self.schedule.copy()?;
        Ok(Workload {
            settings,
            clients,
            operator,
            schedule,
        })
    }
}

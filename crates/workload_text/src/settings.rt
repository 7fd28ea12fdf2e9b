ghost use Rattle.std.specs.Prelude.{◌≡◌, true};
ghost use Rattle.workload_text.specs.declared.setting.SettingKind.TheVariants as kinds;
ghost use Rattle.workload_text.specs.Settings.{is_allowed};
ghost use Rattle.workload_text.specs.Allowed.{are_deaths, are_stalls};

use crate::{AgentDeath, AgentStall};
use fb_bytes::{SharedSeq, TryCopy};
use std::alloc::AllocError;

/// What holds for a whole run. Copies share the lists.
#[derive(Debug, Drop)]
pub struct Settings {
    /// The size of a block in bytes, which also says the limits on keys and values.
    pub block: u32,
    /// How many versions each commit takes.
    pub pace: u64,
    /// For how many versions a task is leased.
    pub lease: u64,
    /// For how many versions a dispatch of logs sleeps.
    pub rest: u64,
    /// How many keys a piece has.
    pub shard: u64,
    /// How many versions a task of logs has.
    pub span: u64,
    /// How often a transaction is tried.
    pub tries: u32,
    /// Agents are numbered from 1; agent 0 is the operator's.
    pub agents: u32,
    /// How many turns an agent or the operator has in a run.
    pub steps: u64,
    pub deaths: SharedSeq<AgentDeath>,
    pub stalls: SharedSeq<AgentStall>,
    pub ghost block_allowed: { is_allowed kinds.Block block ≡ true },
    pub ghost pace_allowed: { is_allowed kinds.Pace pace ≡ true },
    pub ghost lease_allowed: { is_allowed kinds.Lease lease ≡ true },
    pub ghost rest_allowed: { is_allowed kinds.Rest rest ≡ true },
    pub ghost shard_allowed: { is_allowed kinds.Shard shard ≡ true },
    pub ghost span_allowed: { is_allowed kinds.Span span ≡ true },
    pub ghost tries_allowed: { is_allowed kinds.Tries tries ≡ true },
    pub ghost agents_allowed: { is_allowed kinds.Agents agents ≡ true },
    pub ghost steps_allowed: { is_allowed kinds.Steps steps ≡ true },
    pub ghost deaths_allowed: { are_deaths deaths ≡ true },
    pub ghost stalls_allowed: { are_stalls stalls ≡ true },
}

impl TryCopy for Settings {
    fn copy(&self) -> Result<Self, AllocError> {
        let deaths = self.deaths.copy()?;
        let stalls = self.stalls.copy()?;
        Ok(Settings {
            block: self.block,
            pace: self.pace,
            lease: self.lease,
            rest: self.rest,
            shard: self.shard,
            span: self.span,
            tries: self.tries,
            agents: self.agents,
            steps: self.steps,
            deaths,
            stalls,
        })
    }
}

//! The agents of a run, and the tasks that they claim.

ghost use Rattle.std.specs.Prelude.{◌≡◌, ◌+◌, ◌^◌, ◌<◌, length, replicate, suc, None, Some, IfOk, OnErr, slice_get, slice_set};
ghost use Rattle.std.specs.Option.{option_copied};
ghost use Rattle.cluster_core.specs.Agents.{memory_at};
ghost use Rattle.cluster_core.specs.events.Claim as spec;
ghost use Rattle.cluster_core.specs.inner.Crew.{new_crew};
ghost use Rattle.cluster_core.specs.inner.Crewed.{Claims, Extends, Dies};

use crate::Answer;
use crate::memory::Memory;
use std::alloc::{AllocError, Global};
use std::marker::Model;
use task_bucket::{Bucket, LeaseFault, ListBucket};

/// The agents of a run, and the tasks that they claim.
#[derive(Drop)]
pub struct Crew {
    bucket: ListBucket,
    /// The next uid.
    uids: u64,
    /// Agents claim nothing meanwhile.
    paused: bool,
    /// What each agent remembers, by its number from 0.
    memories: Vec<Option<Memory>>,
}

impl Model for Crew {
    ghost use Rattle.cluster_core.specs.inner.Crew as spec;

    ghost Value = { spec.Crew };

    ghost view = { λ crew. record {
      bucket = crew.bucket;
      uids = crew.uids;
      paused = crew.paused;
      agents = crew.memories.items;
    } };
}

impl Crew {
    /// Agents up to this number that remember nothing, and no task.
    pub fn new(alloc: Global, last: u32) -> Result<Self, AllocError>
        ensures { IfOk result (λ crew. crew ≡ new_crew last) }
    {
        let memories = no_memories(alloc, last)?;
        Ok(Crew {
            bucket: ListBucket::new(alloc),
            uids: 1,
            paused: false,
            memories,
        })
    }

    /// The next uid. It takes no memory.
    pub fn next_uid(&self) -> u64
        ensures { result ≡ self.now.uids }
    {
        self.uids
    }

    /// Lets agents claim nothing, or claim again. It takes no memory.
    pub fn set_paused(&mut self, paused: bool)
        ensures { self.new ≡ record self.old { paused = paused } }
    {
        self.paused = paused;
    }

    /// The agent claims a task, which is leased until `now + length`.
    pub fn claim(
        &mut self,
        agent: u32,
        pick: u64,
        now: u64,
        length: u64,
    ) -> Result<Answer, AllocError>
        requires { now + length < 2 ^ 63 }
        ensures ok { IfOk result (λ answer. Claims agent pick now length self.old answer self.new) }
        ensures err { OnErr result (self.new ≡ self.old) }
    {
        if !is_idle(&self.memories, agent) {
            return Ok(Answer::Nothing);
        }
        if self.paused {
            return Ok(Answer::Paused);
        }
        let Some(lease) = self.bucket.claim(now, length, pick)? else {
            return Ok(Answer::NoTask);
        };
        let answer = Answer::Task {
            uid: lease.uid,
            kind: lease.task.kind(),
            until: lease.until,
        };
        replace(&mut self.memories, agent, Some(Memory::new(lease)));
        Ok(answer)
    }

    /// The agent's lease goes on until `now + length`.
    pub fn extend(&mut self, agent: u32, now: u64, length: u64) -> Result<Answer, AllocError>
        requires { now + length < 2 ^ 63 }
        ensures ok { IfOk result (λ answer. Extends agent now length self.old answer self.new) }
        ensures err { OnErr result (self.new ≡ self.old) }
    {
        let Some(memory) = memory_of(&self.memories, agent) else {
            return Ok(Answer::Nothing);
        };
        let held = memory.lease();
        match self.bucket.extend(held, now, length) {
            Ok(lease) => {
                let memory = memory.with_lease(lease);
                replace(&mut self.memories, agent, Some(memory));
                Ok(Answer::Until {
                    until: now + length,
                })
            }
            Err(LeaseFault::Interrupted { .. }) => Ok(Answer::Interrupted { uid: held.uid }),
            Err(LeaseFault::NoMemory) => Err(AllocError),
        }
    }

    /// The agent forgets what it remembers. It takes no memory.
    pub fn die(&mut self, agent: u32) -> Answer
        ensures { Dies agent self.old result self.new }
    {
        if agent as usize >= self.memories.len() {
            return Answer::Nothing;
        }
        replace(&mut self.memories, agent, None);
        Answer::Dead
    }
}

// No agent up to this number remembers a thing.
fn no_memories(alloc: Global, last: u32) -> Result<Vec<Option<Memory>>, AllocError>
    ensures { IfOk result (λ memories. memories.items ≡ replicate (suc last) None) }
{
    let count = last as usize + 1;
    let mut memories = Vec::with_capacity(alloc, count)?;
    'agents: for _agent in 0..count {
        memories.push(None)?;
    }
    Ok(memories)
}

// Whether the agent is there and remembers nothing.
fn is_idle(memories: &[Option<Memory>], agent: u32) -> bool
    ensures { result ≡ spec.is_idle (slice_get memories.now agent) }
{
    match memories.get(agent as usize) {
        Some(memory) => memory.is_none(),
        None => false,
    }
}

// What the agent remembers, if it is there and remembers a task.
fn memory_of(memories: &[Option<Memory>], agent: u32) -> Option<&Memory>
    ensures { option_copied result ≡ memory_at memories.now agent }
{
    match memories.get(agent as usize) {
        Some(memory) => memory.as_ref(),
        None => None,
    }
}

// The agent remembers this from now on.
fn replace(memories: &mut Vec<Option<Memory>>, agent: u32, memory: Option<Memory>)
    ensures { memories.new.items ≡ slice_set memories.old.items agent memory }
{
    let place = agent as usize;
    if place < memories.len() {
        memories[place] = memory;
    }
}

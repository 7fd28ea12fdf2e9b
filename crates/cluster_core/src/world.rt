ghost use Rattle.std.specs.Prelude.{◌≡◌, ◌+◌, ◌<◌, ◌≤◌, List, [], length, Some, Ok, Err, map};
ghost use Rattle.std.specs.Prelude.{None, nat_lt, if◌then◌else◌, slice_get, ◌⊎◌, IfOk, IfErr, OnErr};
ghost use Rattle.std.specs.Prelude.{IsErrOf};
ghost use Rattle.std.specs.Option.{option_copied};
ghost use Rattle.fb_outside.specs.Faults.{Counts};
ghost use Rattle.database.specs.Commits.{most_version};
ghost use Rattle.client_core.specs.Clients.{new_client, told_of};
ghost use Rattle.cluster_core.specs.Jobs as spec;
ghost use Rattle.cluster_core.specs.State.{State, opening};
ghost use Rattle.cluster_core.specs.Moves.{Fine, moved, Silent};
ghost use Rattle.cluster_core.specs.commands.Shared.{gone_on};
ghost use Rattle.cluster_core.specs.Step.{Step, step};
ghost use Rattle.cluster_core.specs.events.Begin.{begin};
ghost use Rattle.cluster_core.specs.events.Commit.{commit};
ghost use Rattle.cluster_core.specs.events.Die.{die};
ghost use Rattle.cluster_core.specs.events.Tick.{tick};
ghost use Rattle.cluster_core.specs.commands.Pause.{set_paused};
ghost use Rattle.cluster_core.specs.inner.Plans.{IsPlan, IsSafe};
ghost use Rattle.cluster_core.specs.Footprints.{Footprint, reach};
ghost use Rattle.cluster_core.specs.Sound.{Sound};
ghost use Rattle.cluster_core.specs.inner.World.{CommitSteps, AgentSteps, OperatorSteps, IsListed, IsFirstName};

use crate::change::{go_ahead, settle, take_back};
use crate::clients::{begin_client, commit_client, new_clients};
use crate::crew::Crew;
use crate::logging::{begin_log, end_log};
use crate::plan::{Filing, Plan};
use crate::{Answer, Backup, Event, Job, Jobs, Refusal, StepFault};
use backup_core::{BackupJob, Mode};
use block_frame::Profile;
use client_core::{Client, Outcomes};
use container_view::{ViewFault, list_names};
use database::Db;
use fb_bytes::{Names, Ranges, Seq, Text, TryCopy};
use fb_outside::{Vault, VaultFail};
use mutations::Entry;
use std::alloc::{AllocError, Global};
use std::marker::Model;
use versioned_kv::Versions;
use workload_text::{Command, Settings, Side, Workload};

/// There was no memory for a world. The vault comes back.
#[derive(Debug, Drop)]
pub struct OpenFault<V> {
    pub vault: V,
}

/// What a world leaves.
#[derive(Drop)]
pub struct Parts<V> {
    pub src: Seq<Entry>,
    pub dst: Seq<Entry>,
    /// What became of the clients' tries.
    pub outcomes: Outcomes,
    /// In the order of their numbers.
    pub jobs: Jobs,
    /// The newest version.
    pub end: u64,
    pub vault: V,
}

/// Two databases, their clients and the file store. Each event is one step.
#[derive(Drop)]
pub struct World<V: Vault> {
    pub(crate) workload: Workload,
    pub(crate) versions: Versions,
    pub(crate) src: Db,
    pub(crate) dst: Db,
    clients: Vec<Client>,
    pub(crate) jobs: Vec<Job>,
    /// How many of the operator's commands have ended.
    pub(crate) place: usize,
    /// The next ticket.
    pub(crate) tickets: u64,
    crew: Crew,
    vault: V,
    pub(crate) alloc: Global,
}

impl<V: Vault> Model for World<V> {
    ghost use Rattle.cluster_core.specs.World.{Seen};
    ghost use Rattle.cluster_core.specs.inner.World.{Desk, allowed_code, state_of, IsWorld};
    ghost use Rattle.std.specs.Coded.{codes};

    ghost Value = { Seen };

    ghost coded = { Prim.hlevel (codes, allowed_code) };

    ghost view = { λ world. record {
      workload = world.workload;
      state = state_of world.clients.items world.src world.dst world.versions
          (record {
            jobs = world.jobs.items;
            place = world.place;
            tickets = world.tickets;
            crew = world.crew;
          })
          (V.files world.vault);
      calls = V.calls world.vault;
      faults = V.faults world.vault;
    } };

    ghost invariant = { λ world. IsWorld world.workload world.src world.dst world.versions
        (state_of world.clients.items world.src world.dst world.versions
        (record {
          jobs = world.jobs.items;
          place = world.place;
          tickets = world.tickets;
          crew = world.crew;
        })
        (V.files world.vault)) };
}

impl<V: Vault> World<V> {
    /// The world in which a workload begins, over a vault with whatever files.
    pub fn open(alloc: Global, workload: &Workload, vault: V) -> Result<World<V>, OpenFault<V>>
        ensures workload { IfOk result (λ world. world.workload ≡ workload.now) }
        ensures opening { IfOk result
            (λ world. world.state ≡ opening workload.now (V.files vault)) }
        ensures calls { IfOk result (λ world. world.calls ≡ V.calls vault) }
        ensures faults { IfOk result (λ world. world.faults ≡ V.faults vault) }
        ensures sound { IfOk result (λ world. Sound world.workload world.state) }
        ensures vault_back { IfErr result (λ fault. fault.vault ≡ vault) }
    {
        let profile = profile_of(&workload.settings);
        let Ok((workload, clients)) = copies(alloc, workload) else {
            return Err(OpenFault { vault });
        };
        let Ok(crew) = Crew::new(alloc, workload.settings.agents) else {
            return Err(OpenFault { vault });
        };
        Ok(World {
            versions: Versions {
                now: 0,
                pace: workload.settings.pace,
            },
            workload,
            src: Db::new(alloc, profile),
            dst: Db::new(alloc, profile),
            clients,
            jobs: Vec::new(alloc),
            place: 0,
            tickets: 1,
            crew,
            vault,
            alloc,
        })
    }

    /// The workload that is played. It takes no memory.
    pub fn workload(&self) -> &Workload
        ensures { result.now ≡ self.now.workload }
    {
        &self.workload
    }

    /// The newest version. It takes no memory.
    pub fn version(&self) -> u64
        ensures { result ≡ self.now.state.time }
    {
        self.versions.now
    }

    /// The next uid that a task is to have. It takes no memory.
    pub fn next_uid(&self) -> u64
        ensures { result ≡ self.now.state.uids }
    {
        self.crew.next_uid()
    }

    /// The operator's next command, where one is left. It takes no memory.
    pub fn command(&self) -> Option<&Command>
        ensures { option_copied result ≡ slice_get self.now.workload.operator self.now.state.place }
    {
        self.workload.operator.as_slice().get(self.place)
    }

    /// Makes one step. After a fault the world is as it was, but for the file that a failed put may
    /// have left in the store.
    pub fn step(&mut self, event: &Event) -> Result<Answer, StepFault>
        ensures step { Step self.old.workload self.old.state event.now result self.new.state }
        ensures workload { self.new.workload ≡ self.old.workload }
        // A step makes at most one call on the store.
        ensures calls { self.new.calls ≤ self.old.calls + 1 }
        // The store's count of faults rose where the step was refused for it.
        ensures faults { Counts self.old.faults self.new.faults
            (IsErrOf result StepFault.VaultFault) }
        ensures footprint { Footprint (reach self.old.workload.settings.pace event.now)
            self.old.state result self.new.state }
        ensures sound { Sound self.new.workload self.new.state }
    {
        let answer = match event {
            Event::Begin { client } => Ok(self.begin(*client)),
            Event::Commit { client } => self.commit(*client),
            Event::Tick { n } => self.tick(*n),
            Event::Claim { agent, pick } => self.claim(*agent, *pick),
            Event::Extend { agent } => self.extend(*agent),
            Event::Die { agent } => Ok(self.die(*agent)),
            Event::Command => self.operate(),
        };
        let _sound = &self.workload;
        answer
    }

    /// What the world leaves, with no copy. It takes no memory.
    pub fn into_parts(self) -> Parts<V>
        ensures src { result.src ≡ self.state.src }
        ensures dst { result.dst ≡ self.state.dst }
        ensures outcomes { result.outcomes ≡ map told_of self.state.clients }
        ensures jobs { result.jobs ≡ map spec.job_told self.state.jobs }
        ensures end { result.end ≡ self.state.time }
        ensures files { V.files result.vault ≡ self.state.files }
        ensures calls { V.calls result.vault ≡ self.calls }
        ensures faults { V.faults result.vault ≡ self.faults }
        ensures sound { Sound self.workload self.state }
    {
        let World {
            workload: _,
            versions,
            src,
            dst,
            clients,
            jobs,
            place: _,
            tickets: _,
            crew: _,
            vault,
            alloc: _,
        } = self;
        Parts {
            src: src.into_history(),
            dst: dst.into_history(),
            outcomes: Outcomes::from_clients(clients),
            jobs: Jobs::from_vec(jobs),
            end: versions.now,
            vault,
        }
    }

    fn begin(&mut self, number: u32) -> Answer
        ensures step { begin self.old.state number ≡ moved (Ok result) self.new.state }
        ensures workload { self.new.workload ≡ self.old.workload }
        ensures calls { self.new.calls ≡ self.old.calls }
        ensures faults { self.new.faults ≡ self.old.faults }
        ensures files { self.new.state.files ≡ self.old.state.files }
    {
        match begin_client(&mut self.clients, number, &self.src, &self.versions) {
            Some(version) => Answer::Read { version },
            None => Answer::Nothing,
        }
    }

    fn commit(&mut self, number: u32) -> Result<Answer, StepFault>
        ensures step { CommitSteps self.old.workload.settings self.old.state number result
            self.new.state }
        ensures workload { self.new.workload ≡ self.old.workload }
        ensures calls { self.new.calls ≡ self.old.calls }
        ensures faults { self.new.faults ≡ self.old.faults }
        ensures files { self.new.state.files ≡ self.old.state.files }
        ensures refused { OnErr result (self.new.state ≡ self.old.state) }
        ensures fault { IsErrOf result StepFault.VaultFault → ⊥ }
    {
        let versions = &mut self.versions;
        let answer = match commit_client(
            &mut self.clients,
            number,
            &mut self.src,
            &mut self.dst,
            versions,
        ) {
            Ok(answer) => answer,
            Err(fault) => return Err(fault),
        };
        Ok(answer)
    }

    /// Time goes on, where there are so many versions left.
    fn tick(&mut self, n: u64) -> Result<Answer, StepFault>
        ensures step { tick self.old.state n ≡ moved result self.new.state }
        ensures workload { self.new.workload ≡ self.old.workload }
        ensures calls { self.new.calls ≡ self.old.calls }
        ensures faults { self.new.faults ≡ self.old.faults }
        ensures fault { IsErrOf result StepFault.VaultFault → ⊥ }
    {
        match later(self.versions.now, n) {
            Some(version) => {
                self.versions.now = version;
                Ok(Answer::Version { version })
            }
            None => Err(StepFault::VersionsSpent {
                version: self.versions.now,
            }),
        }
    }

    /// The agent claims a task.
    fn claim(&mut self, agent: u32, pick: u64) -> Result<Answer, StepFault>
        ensures step { AgentSteps self.old.workload self.old.state (Event.Claim agent pick) result
            self.new.state }
        ensures workload { self.new.workload ≡ self.old.workload }
        ensures calls { self.new.calls ≡ self.old.calls }
        ensures faults { self.new.faults ≡ self.old.faults }
        ensures fault { IsErrOf result StepFault.VaultFault → ⊥ }
    {
        let now = self.versions.now;
        match self
            .crew
            .claim(agent, pick, now, self.workload.settings.lease)
        {
            Ok(answer) => Ok(answer),
            Err(AllocError) => Err(StepFault::NoMemory),
        }
    }

    /// The agent asks for more time.
    fn extend(&mut self, agent: u32) -> Result<Answer, StepFault>
        ensures step { AgentSteps self.old.workload self.old.state (Event.Extend agent) result
            self.new.state }
        ensures workload { self.new.workload ≡ self.old.workload }
        ensures calls { self.new.calls ≡ self.old.calls }
        ensures faults { self.new.faults ≡ self.old.faults }
        ensures fault { IsErrOf result StepFault.VaultFault → ⊥ }
    {
        let now = self.versions.now;
        match self.crew.extend(agent, now, self.workload.settings.lease) {
            Ok(answer) => Ok(answer),
            Err(AllocError) => Err(StepFault::NoMemory),
        }
    }

    /// The agent dies.
    fn die(&mut self, agent: u32) -> Answer
        ensures step { die self.old.state agent ≡ moved (Ok result) self.new.state }
        ensures workload { self.new.workload ≡ self.old.workload }
        ensures calls { self.new.calls ≡ self.old.calls }
        ensures faults { self.new.faults ≡ self.old.faults }
    {
        self.crew.die(agent)
    }

    /// Makes the step of the operator's next command.
    fn operate(&mut self) -> Result<Answer, StepFault>
        ensures step { OperatorSteps self.old result self.new }
        ensures workload { self.new.workload ≡ self.old.workload }
        ensures calls { self.new.calls ≤ self.old.calls + 1 }
        ensures faults { Counts self.old.faults self.new.faults
            (IsErrOf result StepFault.VaultFault) }
    {
        match self.plan()? {
            Plan::Nothing => Ok(Answer::Nothing),
            Plan::Refuse(refusal) => {
                self.go_on();
                Ok(Answer::Refused(refusal))
            }
            Plan::Tell(state) => {
                self.go_on();
                Ok(Answer::State { state })
            }
            Plan::Pause { paused } => {
                self.pause(paused);
                Ok(Answer::Done)
            }
            Plan::Put(filing) => self.put(filing),
            Plan::Abort { place } => {
                self.abort(place);
                Ok(Answer::Done)
            }
            Plan::Open {
                tag,
                side,
                container,
                ranges,
            } => self.open_listed(tag, side, container, ranges),
        }
    }

    // The operator goes on to the next command.
    fn go_on(&mut self)
        requires { self.old.state.place < length self.old.workload.operator }
        ensures state { self.new.state ≡ gone_on self.old.state }
        ensures workload { self.new.workload ≡ self.old.workload }
        ensures calls { self.new.calls ≡ self.old.calls }
        ensures faults { self.new.faults ≡ self.old.faults }
    {
        self.place = next_place(self.place, self.workload.operator.len());
    }

    // Lets agents claim nothing, or claim again.
    fn pause(&mut self, paused: bool)
        requires { self.old.state.place < length self.old.workload.operator }
        ensures state { set_paused self.old.state paused ≡ moved (Ok Answer.Done) self.new.state }
        ensures workload { self.new.workload ≡ self.old.workload }
        ensures calls { self.new.calls ≡ self.old.calls }
        ensures faults { self.new.faults ≡ self.old.faults }
    {
        self.crew.set_paused(paused);
        self.place = next_place(self.place, self.workload.operator.len());
    }

    // Puts a job's file.
    fn put(&mut self, filing: Filing) -> Result<Answer, StepFault>
        requires plan { IsPlan self.old.workload self.old.state (Plan.Put filing) }
        requires safe { IsSafe self.old.state (Plan.Put filing) }
        requires room { self.old.state.place < length self.old.workload.operator }
        ensures step { OperatorSteps self.old result self.new }
        ensures workload { self.new.workload ≡ self.old.workload }
        ensures calls { self.new.calls ≤ self.old.calls + 1 }
        ensures faults { Counts self.old.faults self.new.faults
            (IsErrOf result StepFault.VaultFault) }
    {
        let snapshot = go_ahead(&mut self.jobs, filing.place, &filing.change)?;
        match self
            .vault
            .put(self.alloc, &filing.whole, filing.bytes.as_slice())
        {
            Ok(()) => {
                settle(&mut self.jobs, filing.place, &filing.change);
                self.tickets += 1;
                self.place = next_place(self.place, self.workload.operator.len());
                Ok(Answer::Placed { name: filing.whole })
            }
            Err(VaultFail::Failed) => {
                take_back(&mut self.jobs, filing.place, &filing.change, snapshot);
                Err(StepFault::VaultFault)
            }
            Err(VaultFail::NoMemory) => {
                take_back(&mut self.jobs, filing.place, &filing.change, snapshot);
                Err(StepFault::NoMemory)
            }
        }
    }

    // Ends the job at a place.
    fn abort(&mut self, place: usize)
        requires plan { IsPlan self.old.workload self.old.state (Plan.Abort place) }
        requires safe { IsSafe self.old.state (Plan.Abort place) }
        requires room { self.old.state.place < length self.old.workload.operator }
        ensures step { step self.old.workload self.old.state Event.Command (Fine Silent)
            ≡ moved (Ok Answer.Done) self.new.state }
        ensures workload { self.new.workload ≡ self.old.workload }
        ensures calls { self.new.calls ≡ self.old.calls }
        ensures faults { self.new.faults ≡ self.old.faults }
    {
        let side = self.jobs[place].side();
        end_log(&mut self.src, &mut self.dst, side, place as u64 + 1);
        self.jobs[place].abort();
        self.place = next_place(self.place, self.workload.operator.len());
    }

    // Starts a job, where its container is empty.
    fn open_listed(
        &mut self,
        tag: Text,
        side: Side,
        container: Text,
        ranges: Ranges,
    ) -> Result<Answer, StepFault>
        requires plan { IsPlan self.old.workload self.old.state
            (Plan.Open tag side container ranges) }
        requires room { self.old.state.place < length self.old.workload.operator }
        ensures step { OperatorSteps self.old result self.new }
        ensures workload { self.new.workload ≡ self.old.workload }
        ensures calls { self.new.calls ≤ self.old.calls + 1 }
        ensures faults { Counts self.old.faults self.new.faults
            (IsErrOf result StepFault.VaultFault) }
    {
        match self.least_name(&container) {
            Ok(Some(name)) => {
                self.go_on();
                Ok(Answer::Refused(Refusal::ContainerInUse { name }))
            }
            Ok(None) => self.start(tag, side, container, &ranges),
            Err(fault) => Err(fault),
        }
    }

    // The least name among a container's files, by one list of them.
    fn least_name(&mut self, container: &Text) -> Result<Option<Text>, StepFault>
        ensures listed { IfOk result (IsListed self.old.state container.now) }
        ensures fault { IfErr result
            (λ fault. (fault ≡ StepFault.VaultFault) ⊎ (fault ≡ StepFault.NoMemory)) }
        ensures state { self.new.state ≡ self.old.state }
        ensures workload { self.new.workload ≡ self.old.workload }
        ensures calls { self.new.calls ≤ self.old.calls + 1 }
        ensures faults { Counts self.old.faults self.new.faults
            (IsErrOf result StepFault.VaultFault) }
    {
        match list_names(self.alloc, &mut self.vault, container) {
            Ok(names) => {
                let name = first_name(&names)?;
                Ok(name)
            }
            Err(ViewFault::NoContainer) => Ok(None),
            Err(ViewFault::VaultFault) => Err(StepFault::VaultFault),
            Err(_) => Err(StepFault::NoMemory),
        }
    }

    // Takes a version for a job, whose log begins there.
    fn start(
        &mut self,
        tag: Text,
        side: Side,
        container: Text,
        ranges: &Ranges,
    ) -> Result<Answer, StepFault>
        requires plan { IsPlan self.old.workload self.old.state
            (Plan.Open tag side container ranges.now) }
        requires empty { IsListed self.old.state container None }
        requires room { self.old.state.place < length self.old.workload.operator }
        ensures step { OperatorSteps self.old result self.new }
        ensures workload { self.new.workload ≡ self.old.workload }
        ensures calls { self.new.calls ≡ self.old.calls }
        ensures faults { self.new.faults ≡ self.old.faults }
        ensures no_fault { IsErrOf result StepFault.VaultFault → ⊥ }
    {
        let Some(version) = self.versions.next() else {
            let version = self.versions.now;
            return Err(StepFault::VersionsSpent { version });
        };
        let count = self.jobs.len();
        let number = count as u64 + 1;
        let job = BackupJob::new(self.alloc, number, Mode::Hand, ranges, version)?;
        let backup = Backup::new(tag, side, container, job);
        let Ok(()) = self.jobs.push(Job::Backup(backup)) else {
            return Err(StepFault::NoMemory);
        };
        match begin_log(
            &mut self.src,
            &mut self.dst,
            &mut self.versions,
            side,
            number,
            ranges,
        ) {
            Ok(_) => {
                self.place = next_place(self.place, self.workload.operator.len());
                Ok(Answer::Done)
            }
            Err(_) => {
                self.jobs.truncate(count);
                Err(StepFault::NoMemory)
            }
        }
    }
}

// The first of the names, where there is one.
fn first_name(names: &Names) -> Result<Option<Text>, AllocError>
    ensures { IfOk result (λ name. IsFirstName names.now name) }
{
    match names.as_slice().first() {
        Some(name) => Ok(Some(name.copy()?)),
        None => Ok(None),
    }
}

// The place behind one of so many.
fn next_place(place: usize, count: usize) -> usize
    ensures { place < count → result ≡ place + 1 }
{
    if place < count { place + 1 } else { place }
}

// The version that is so far behind this one, where there is one.
fn later(now: u64, n: u64) -> Option<u64>
    ensures { result ≡ (if nat_lt most_version (now + n) then None else Some (now + n)) }
{
    let version = now.checked_add(n)?;
    if version > Versions::MOST {
        return None;
    }
    Some(version)
}

// A copy of the workload, and its clients at the start of their scripts.
fn copies(alloc: Global, workload: &Workload) -> Result<(Workload, Vec<Client>), AllocError>
    ensures { IfOk result
        (λ both. (both.0 ≡ workload.now)
        × (both.1.items ≡ map (new_client workload.now.settings.tries) workload.now.clients)) }
{
    let tries = workload.settings.tries;
    let clients = new_clients(alloc, workload.clients.as_slice(), tries)?;
    let workload = workload.copy()?;
    Ok((workload, clients))
}

// The profile of the block that the settings name.
fn profile_of(settings: &Settings) -> Profile
    ensures { result.block ≡ settings.now.block }
{
    match Profile::from_block(settings.block) {
        Some(profile) => profile,
        None => unreachable!(),
    }
}

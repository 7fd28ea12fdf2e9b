//! A job, by its type, and how jobs are found.

ghost use Rattle.std.specs.Prelude.{◌≡◌, option_map, IfOk, OnOk, OnErr};
ghost use Rattle.std.specs.Option.{option_copied};
ghost use Rattle.cluster_core.specs.inner.Filed.{CanChange, ahead, settled, taken_back, snapshot_of};
ghost use Rattle.cluster_core.specs.commands.Abort.{with_abort};
ghost use Rattle.cluster_core.specs.Jobs as spec;

use crate::change::Change;
use crate::{Backup, JobKind};
use backup_core::Mode;
use fb_bytes::{Ranges, Text, is_same};
use std::alloc::AllocError;
use task_kinds::JobState;
use workload_text::Side;

/// A job, by its type.
#[derive(Debug, Drop)]
pub enum Job {
    Backup(Backup),
}

impl Job {
    /// Its number, counted from 1.
    pub fn number(&self) -> u64
        ensures { result ≡ (spec.terms_of self.now).number }
    {
        match self {
            Job::Backup(backup) => backup.job().number(),
        }
    }

    pub fn tag(&self) -> &Text
        ensures { result.now ≡ (spec.terms_of self.now).tag }
    {
        match self {
            Job::Backup(backup) => backup.tag(),
        }
    }

    pub fn kind(&self) -> JobKind
        ensures { result ≡ (spec.terms_of self.now).kind }
    {
        match self {
            Job::Backup(backup) => kind_of(backup.job().mode()),
        }
    }

    /// The database that it reads.
    pub fn side(&self) -> Side
        ensures { result ≡ (spec.terms_of self.now).side }
    {
        match self {
            Job::Backup(backup) => backup.side(),
        }
    }

    /// The container that its command names.
    pub fn container(&self) -> Option<&Text>
        ensures { option_copied result ≡ (spec.terms_of self.now).container }
    {
        match self {
            Job::Backup(backup) => Some(backup.container()),
        }
    }

    /// The ranges that its command names.
    pub fn ranges(&self) -> Option<&Ranges>
        ensures { option_copied result ≡ (spec.terms_of self.now).ranges }
    {
        match self {
            Job::Backup(backup) => Some(backup.job().ranges()),
        }
    }

    pub fn state(&self) -> JobState
        ensures { result ≡ spec.state_of_job self.now }
    {
        match self {
            Job::Backup(backup) => backup.job().state(),
        }
    }

    // The container that it was started in, where it writes to one.
    fn started(&self) -> Option<&Text>
        ensures { option_copied result ≡ spec.started (spec.terms_of self.now) }
    {
        match self.kind() {
            JobKind::Hand | JobKind::Backup => self.container(),
            JobKind::Restore | JobKind::Dr => None,
        }
    }

    /// What takes memory of a change is made. It answers the number that the job's snapshot had.
    pub(crate) fn go_ahead(&mut self, change: &Change) -> Result<u64, AllocError>
        requires { CanChange change.now }
        ensures before { IfOk result (λ snapshot. snapshot ≡ snapshot_of self.old) }
        ensures ok { OnOk result (self.new ≡ ahead change.now self.old) }
        ensures err { OnErr result (self.new ≡ self.old) }
    {
        match self {
            Job::Backup(backup) => backup.go_ahead(change),
        }
    }

    /// The rest of a change. It takes no memory.
    pub(crate) fn settle(&mut self, change: &Change)
        requires { CanChange change.now }
        ensures { self.new ≡ settled change.now self.old }
    {
        match self {
            Job::Backup(backup) => backup.settle(change),
        }
    }

    /// Takes back what was made of a change, before which the snapshot had this number. It takes no
    /// memory.
    pub(crate) fn take_back(&mut self, change: &Change, snapshot: u64)
        ensures { self.new ≡ taken_back change.now snapshot self.old }
    {
        match self {
            Job::Backup(backup) => backup.take_back(change, snapshot),
        }
    }

    /// It takes no memory.
    pub(crate) fn abort(&mut self)
        ensures { self.new ≡ with_abort self.old }
    {
        match self {
            Job::Backup(backup) => backup.abort(),
        }
    }
}

// What is told of a backup that goes on so.
fn kind_of(mode: Mode) -> JobKind
    ensures { result ≡ spec.kind_of mode }
{
    match mode {
        Mode::Hand => JobKind::Hand,
        Mode::Once | Mode::Continuous => JobKind::Backup,
    }
}

/// The place of the newest job with the tag.
pub(crate) fn newest(jobs: &[Job], tag: &Text) -> Option<usize>
    ensures { result
        ≡ option_map (λ (found : spec.Found). found.place) (spec.newest tag.now jobs.now) }
{
    let mut found = None;
    'jobs: for (place, job) in jobs.iter().enumerate() {
        if is_same(job.tag().as_bytes(), tag.as_bytes()) {
            found = Some(place);
        }
    }
    found
}

/// The first job that was started in the container.
pub(crate) fn started_in<'a>(jobs: &'a [Job], container: &Text) -> Option<&'a Job>
    ensures { option_map (λ job. job.now) result ≡ spec.started_in container.now jobs.now }
{
    'jobs: for job in jobs {
        if is_started_in(job, container) {
            return Some(job);
        }
    }
    None
}

// Whether the job was started in the container.
fn is_started_in(job: &Job, container: &Text) -> bool
    ensures { result ≡ spec.is_container container.now (spec.started (spec.terms_of job.now)) }
{
    match job.started() {
        Some(other) => is_same(other.as_bytes(), container.as_bytes()),
        None => false,
    }
}

//! What a backup keeps between its calls.

ghost use Rattle.std.specs.Prelude.{◌≡◌, ◌+◌, ◌<◌, ◌≤◌, ◌^◌, false, Some, None, IfOk, IfErr, OnOk, OnErr, option_map, ◌⊎◌};
ghost use Rattle.fb_bytes.specs.Keys.{is_backwards};
ghost use Rattle.manifests.specs.Grammar.{name_for};
ghost use Rattle.snapshot_plan.specs.Noted.{fault_of, gap, manifest_of, most_bytes, pieces_of};
ghost use Rattle.snapshot_plan.specs.Pieces.{ArePieces};
ghost use Rattle.backup_core.specs.Backups as spec;

mod steps;

use crate::Mode;
use fb_bytes::{KeyRange, Ranges};
use manifests::Manifest;
use snapshot_plan::{Done, FileMap, JobSettings, MapFault, Noted};
use std::alloc::{AllocError, Global};
use std::marker::Model;
use task_kinds::JobState;

/// A backup: what is dumped of its present snapshot, and how far it logged.
#[derive(Debug, Drop)]
pub struct BackupJob {
    number: u64,
    mode: Mode,
    settings: JobSettings,
    state: JobState,
    started: bool,
    ending: bool,
    map: FileMap,
    begin: u64,
    erased: u64,
    next: u64,
    snapshot: u64,
    done: bool,
    last: u64,
}

impl Model for BackupJob {
    ghost use Rattle.backup_core.specs.Backups as spec;

    ghost Value = { spec.BackupJob };

    ghost view = { λ job. record {
      terms = record {
        number = job.number;
        mode = job.mode;
        ranges = job.map.ranges;
        settings = job.settings;
      };
      state = job.state;
      started = job.started;
      ending = job.ending;
      begin = job.begin;
      erased = job.erased;
      next = job.next;
      snapshot = job.snapshot;
      noted = job.map.noted;
      done = job.done;
      last = job.last;
    } };
}

impl BackupJob {
    /// A job of these ranges that logs from the version on.
    pub fn new(
        alloc: Global,
        number: u64,
        mode: Mode,
        ranges: &Ranges,
        version: u64,
    ) -> Result<Self, AllocError>
        ensures { IfOk result (λ job. job ≡ spec.opened number mode ranges.now version) }
    {
        let map = FileMap::new(alloc, ranges)?;
        Ok(BackupJob {
            number,
            mode,
            settings: JobSettings {
                shard: 0,
                span: 0,
                rest: 0,
            },
            state: JobState::Running,
            started: true,
            ending: false,
            map,
            begin: version,
            erased: version,
            next: version,
            snapshot: 0,
            done: false,
            last: 0,
        })
    }

    /// A job of these ranges that waits for its first task, and goes on by its tasks.
    pub fn submit(
        alloc: Global,
        number: u64,
        mode: Mode,
        ranges: &Ranges,
        settings: JobSettings,
    ) -> Result<Self, AllocError>
        ensures { IfOk result (λ job. job ≡ spec.submitted (record {
          number = number;
          mode = mode;
          ranges = ranges.now;
          settings = settings;
        })) }
    {
        let map = FileMap::new(alloc, ranges)?;
        Ok(BackupJob {
            number,
            mode,
            settings,
            state: JobState::Submitted,
            started: false,
            ending: false,
            map,
            begin: 0,
            erased: 0,
            next: 0,
            snapshot: 0,
            done: false,
            last: 0,
        })
    }

    /// Its number among the jobs.
    pub fn number(&self) -> u64
        ensures { result ≡ self.now.terms.number }
    {
        self.number
    }

    pub fn mode(&self) -> Mode
        ensures { result ≡ self.now.terms.mode }
    {
        self.mode
    }

    pub fn state(&self) -> JobState
        ensures { result ≡ self.now.state }
    {
        self.state
    }

    /// What its tasks go by. A hand job has no tasks, and zeros.
    pub fn settings(&self) -> JobSettings
        ensures { result ≡ self.now.terms.settings }
    {
        self.settings
    }

    /// Its log has begun.
    pub fn is_started(&self) -> bool
        ensures { result ≡ self.now.started }
    {
        self.started
    }

    /// It was told to end.
    pub fn is_ending(&self) -> bool
        ensures { result ≡ self.now.ending }
    {
        self.ending
    }

    /// The manifest of its present snapshot is done.
    pub fn is_done(&self) -> bool
        ensures { result ≡ self.now.done }
    {
        self.done
    }

    /// The greatest version of the last snapshot whose manifest is done.
    pub fn last(&self) -> u64
        ensures { result ≡ self.now.last }
    {
        self.last
    }

    /// The ranges that it backs up.
    pub fn ranges(&self) -> &Ranges
        ensures { result.now ≡ self.now.terms.ranges }
    {
        self.map.ranges()
    }

    /// The pieces that are noted for the present snapshot, in key order.
    pub fn noted(&self) -> &[Noted]
        ensures same { result.now ≡ self.now.noted }
        ensures pieces { ArePieces (pieces_of self.now.noted) }
    {
        self.map.noted()
    }

    /// The version from which on it logs.
    pub fn begin(&self) -> u64
        ensures { result ≡ self.now.begin }
    {
        self.begin
    }

    /// The first version that no log file of it has yet.
    pub fn next(&self) -> u64
        ensures { result ≡ self.now.next }
    {
        self.next
    }

    /// The version from which on its log is kept.
    pub fn erased(&self) -> u64
        ensures { result ≡ self.now.erased }
    {
        self.erased
    }

    /// The number of the snapshot that a dump at this version belongs to.
    pub fn snapshot_at(&self, now: u64) -> u64
        ensures { result ≡ spec.snapshot_at self.now now }
    {
        if self.map.noted().is_empty() {
            now
        } else {
            self.snapshot
        }
    }

    /// Why the piece can't be dumped, if it can't.
    pub fn check(&self, piece: &KeyRange) -> Result<(), MapFault>
        ensures ok { OnOk result (fault_of (spec.map_of self.now) piece.now ≡ None) }
        ensures err { IfErr result (λ fault. (fault ≡ MapFault.NoMemory)
            ⊎ (fault_of (spec.map_of self.now) piece.now ≡ Some fault)) }
    {
        self.map.check(piece)
    }

    /// A piece was dumped at this version into the file. Where it is refused, the job stays as it was.
    pub fn dump(&mut self, piece: KeyRange, now: u64, file: Done) -> Result<(), MapFault>
        requires { is_backwards piece ≡ false }
        ensures ok { OnOk result (fault_of (spec.map_of self.old) piece ≡ None) }
        ensures err { IfErr result (λ fault. (fault ≡ MapFault.NoMemory)
            ⊎ (fault_of (spec.map_of self.old) piece ≡ Some fault)) }
        ensures dumped { OnOk result (self.new ≡ spec.dumped self.old piece now file) }
        ensures refused { OnErr result (self.new ≡ self.old) }
    {
        let snapshot = self.snapshot_at(now);
        self.map.done(piece, file)?;
        self.snapshot = snapshot;
        Ok(())
    }

    /// The number that the present snapshot had last.
    pub fn snapshot(&self) -> u64
        ensures { result ≡ self.now.snapshot }
    {
        self.snapshot
    }

    /// Takes back the dump of the piece that begins at the key, before which the snapshot had this
    /// number. It takes no memory.
    pub fn take_back(&mut self, begin: &[u8], snapshot: u64)
        ensures { self.new ≡ spec.taken_back self.old begin.now snapshot }
    {
        self.map.take_back(begin);
        self.snapshot = snapshot;
    }

    /// The manifest of the present snapshot, once its pieces tile the ranges.
    pub fn manifest(&self) -> Result<Manifest, MapFault>
        ensures ok { IfOk result (λ manifest. (gap (spec.map_of self.now) ≡ None)
            × (manifest ≡ manifest_of self.now.noted)) }
        ensures fits { IfOk result (λ manifest. manifest.bytes ≤ most_bytes) }
        ensures err { IfErr result (λ fault. (fault ≡ MapFault.NoMemory)
            ⊎ (option_map (λ key. MapFault.Untiled key) (gap (spec.map_of self.now))
            ≡ Some fault)) }
    {
        self.map.manifest()
    }

    /// Its log files reach through this version. It takes no memory.
    pub fn cut_to(&mut self, now: u64)
        requires { now + 1 < 2 ^ 64 }
        ensures { self.new ≡ spec.cut_to self.old now }
    {
        self.next = now + 1;
    }

    /// Its snapshot is sealed, and the next one begins with no piece. It takes no memory.
    pub fn seal(&mut self)
        ensures { self.new ≡ spec.sealed self.old }
    {
        self.map.clear();
    }

    /// It is given up. It takes no memory.
    pub fn abort(&mut self)
        ensures { self.new ≡ spec.aborted_job self.old }
    {
        self.state = JobState::Aborted;
    }
}

ghost use Rattle.std.specs.Prelude.{◌≡◌, ◌-◌, ◌^◌, ◌<◌, ◌≤◌, List, length, [], ◌∷◌, ◌++◌};
ghost use Rattle.std.specs.Prelude.{Some, None, Ok, Err, ◌⊎◌, IfOk, IfErr, OnOk, OnErr};
ghost use Rattle.std.specs.List.{AllByRecursion};
ghost use Rattle.std.specs.Option.{option_copied};
ghost use Rattle.mutations.specs.declared.Entry.{Entry};
ghost use Rattle.mutations.specs.declared.Who.TheVariants as who;
ghost use Rattle.mutations.specs.Histories.{logged, locked};
ghost use Rattle.mutations.specs.Transactions.{writes_of};
ghost use Rattle.database.specs.Logs.{JobLog, AreLoggable, log_of, with_log, without_log};
ghost use Rattle.database.specs.Logs.{with_erased};
ghost use Rattle.database.specs.Reads.{reads_at};
ghost use Rattle.database.specs.Commits.{Database, scene_of, oldest_at, commit_answer};
ghost use Rattle.database.specs.Commits.{entry_answer};
ghost use Rattle.database.specs.Commits.{lock_answer, unlock_answer, database_after, next_version};
ghost use Rattle.database.specs.Commits.{time_after};
ghost use Rattle.database.specs.Dumps.{pairs_at};

use crate::conflicts::first_conflict;
use crate::job_log::{erase_log, insert_log, log_of, remove_log};
use crate::keeping::{put_kept, take_kept};
use crate::locking::{lock_after, lock_in};
use crate::reading::reads_at;
use crate::writes::{entry_version, oldest_at, version_taken};
use crate::{CommitFault, Found, JobLog, LockFault, SystemFault, UnlockFault};
use block_frame::Profile;
use fb_bytes::{KeyRange, Pair, Pairs, Ranges, Seq};
use log_keys::{LogKeys, erase_join_law};
use mutations::{Entry, LogChunk, Mutation, TxOps, Who, fault_of};
use std::alloc::{AllocError, Global};
use std::marker::Model;
use versioned_kv::{Store, Versions};

/// A transaction: the version that its reads see, who commits it, and what it does.
#[derive(Clone, Copy, Debug)]
pub struct Tx<'a> {
    pub read: u64,
    pub who: Who,
    pub ops: &'a TxOps,
}

/// What a transaction came to.
#[derive(Debug, Drop)]
pub struct Committed {
    /// The version that it took. None exactly where it has no writes.
    pub version: Option<u64>,
    /// What its reads found, in their order.
    pub reads: Seq<Found>,
}

/// A database under the limits of a profile.
#[derive(Debug, Drop)]
pub struct Db {
    alloc: Global,
    profile: Profile,
    history: Seq<Entry>,
    /// The job that holds the lock.
    lock: Option<u64>,
    store: Store,
    logs: Vec<JobLog>,
    keys: LogKeys,
}

impl Model for Db {
    ghost use Rattle.database.specs.Commits.{Database};

    ghost Value = { Database };

    ghost use Rattle.database.specs.inner.Kept.{IsKept};

    ghost view = { λ db. record {
      block = db.profile.block;
      oldest = db.store.oldest;
      history = db.history;
      logs = db.logs.items;
    } };

    ghost invariant = { λ db. IsKept db.profile.block db.history db.lock db.logs.items db.keys
        db.store };
}

impl Db {
    /// An empty database. It takes no memory.
    pub fn new(alloc: Global, profile: Profile) -> Self
        ensures { result ≡ record { block = profile.block; oldest = 0; history = []; logs = [] } }
    {
        Db {
            alloc,
            profile,
            history: Seq::new(alloc),
            lock: None,
            store: Store::new(alloc, profile.value),
            logs: Vec::new(alloc),
            keys: LogKeys::new(alloc),
        }
    }

    /// The version that a transaction which begins now reads at. It takes no memory.
    pub fn begin(&self, versions: &Versions) -> u64
        ensures { result ≡ versions.entry.now.now }
    {
        versions.now
    }

    /// The oldest version that is kept. It takes no memory.
    pub fn oldest(&self) -> u64
        ensures { result ≡ self.now.oldest }
    {
        self.store.oldest()
    }

    /// What was committed, oldest first. It takes no memory.
    pub fn history(&self) -> &Seq<Entry>
        ensures { result.now ≡ self.now.history }
    {
        &self.history
    }

    /// What was committed, with no copy.
    pub fn into_history(self) -> Seq<Entry>
        ensures { result ≡ self.history }
    {
        let Db {
            alloc: _,
            profile: _,
            history,
            lock: _,
            store: _,
            logs: _,
            keys: _,
        } = self;
        history
    }

    /// The job that holds the lock. It takes no memory.
    pub fn locked(&self) -> Option<u64>
        ensures { result ≡ locked self.now.history }
    {
        self.lock
    }

    /// What `commit` would answer. It changes nothing.
    pub fn check(&self, versions: &Versions, tx: &Tx) -> Result<Committed, CommitFault>
        requires oldest { self.now.oldest ≤ oldest_at versions.now.now }
        ensures ok { IfOk result
            (λ done. commit_answer (scene_of self.now versions.entry.now) tx.now.read tx.now.ops.now
            ≡ Ok done.version) }
        ensures reads { IfOk result
            (λ done. done.reads
            ≡ reads_at self.now.block self.now.history tx.now.read tx.now.ops.now) }
        ensures err { IfErr result (λ fault. (fault ≡ CommitFault.NoMemory)
            ⊎ (commit_answer (scene_of self.now versions.entry.now) tx.now.read tx.now.ops.now
            ≡ Err fault)) }
    {
        let version = self.version_for(versions, tx)?;
        let reads = reads_at(self.alloc, &self.store, tx.read, tx.ops.as_slice())?;
        Ok(Committed { version, reads })
    }

    /// The version that a transaction takes, or why it is refused.
    fn version_for(&self, versions: &Versions, tx: &Tx) -> Result<Option<u64>, CommitFault>
        ensures ok { IfOk result
            (λ version. commit_answer (scene_of self.now versions.entry.now) tx.now.read
            tx.now.ops.now ≡ Ok version) }
        ensures err { IfErr result (λ fault. (fault ≡ CommitFault.NoMemory)
            ⊎ (commit_answer (scene_of self.now versions.entry.now) tx.now.read tx.now.ops.now
            ≡ Err fault)) }
    {
        if let Some(fault) = fault_of(tx.ops.as_slice(), self.profile.key, self.profile.value) {
            return Err(CommitFault::of_transaction(fault));
        }
        if let Some(uid) = self.lock {
            return Err(CommitFault::Locked { uid });
        }
        let oldest = oldest_at(versions.now);
        if tx.read < oldest {
            return Err(CommitFault::TooOld {
                read: tx.read,
                oldest,
            });
        }
        if let Some(version) = first_conflict(tx.ops, tx.read, self.history.as_slice()) {
            return Err(CommitFault::NotCommitted { version });
        }
        version_taken(versions, &self.logs, tx.ops)
    }

    /// Makes one entry of the writes, at the next version. A fault changes nothing.
    pub fn commit(&mut self, versions: &mut Versions, tx: &Tx) -> Result<Committed, CommitFault>
        requires pace { 1 ≤ versions.old.pace }
        requires past { AllByRecursion (λ (entry : Entry). entry.version ≤ versions.old.now)
            self.old.history }
        requires oldest { self.old.oldest ≤ oldest_at versions.old.now }
        ensures ok { IfOk result
            (λ done. commit_answer (scene_of self.old versions.old) tx.now.read tx.now.ops.now
            ≡ Ok done.version) }
        ensures reads { IfOk result
            (λ done. done.reads
            ≡ reads_at self.old.block self.old.history tx.now.read tx.now.ops.now) }
        ensures err { IfErr result (λ fault. (fault ≡ CommitFault.NoMemory)
            ⊎ (commit_answer (scene_of self.old versions.old) tx.now.read tx.now.ops.now
            ≡ Err fault)) }
        ensures entry { IfOk result
            (λ done. self.new ≡ database_after done.version versions.old.now tx.now.who
            (writes_of tx.now.ops.now) self.old) }
        ensures time { IfOk result
            (λ done. versions.new
            ≡ record versions.old { now = time_after done.version versions.old.now }) }
        ensures refused { OnErr result ((self.new ≡ self.old) × (versions.new ≡ versions.old)) }
    {
        let done = self.check(versions, tx)?;
        if let Some(version) = done.version {
            self.enter(versions, tx, version)?;
        }
        Ok(done)
    }

    /// Makes the entry of a transaction for which `check` has answered this version. Without memory
    /// nothing changes.
    pub fn enter(
        &mut self,
        versions: &mut Versions,
        tx: &Tx,
        version: u64,
    ) -> Result<(), AllocError>
        requires pace { 1 ≤ versions.old.pace }
        requires past { AllByRecursion (λ (entry : Entry). entry.version ≤ versions.old.now)
            self.old.history }
        requires oldest { self.old.oldest ≤ oldest_at versions.old.now }
        requires checked { commit_answer (scene_of self.old versions.old) tx.now.read
            tx.now.ops.now ≡ Ok (Some version) }
        ensures entry { OnOk result
            (self.new ≡ database_after (Some version) versions.old.now tx.now.who
            (writes_of tx.now.ops.now) self.old) }
        ensures time { OnOk result (versions.new ≡ record versions.old { now = version }) }
        ensures refused { OnErr result ((self.new ≡ self.old) × (versions.new ≡ versions.old)) }
    {
        let muts = tx.ops.writes(self.alloc)?;
        let who = tx.who;
        self.put(versions, Entry { version, who, muts })
    }

    /// Makes an entry by a job, whatever the lock. A fault changes nothing.
    pub fn system(
        &mut self,
        versions: &mut Versions,
        who: Who,
        muts: Seq<Mutation>,
    ) -> Result<u64, SystemFault>
        requires pace { 1 ≤ versions.old.pace }
        requires past { AllByRecursion (λ (entry : Entry). entry.version ≤ versions.old.now)
            self.old.history }
        requires oldest { self.old.oldest ≤ oldest_at versions.old.now }
        ensures ok { IfOk result
            (λ version. entry_answer (scene_of self.old versions.old) muts ≡ Ok version) }
        ensures err { IfErr result (λ fault. (fault ≡ SystemFault.NoMemory)
            ⊎ (entry_answer (scene_of self.old versions.old) muts ≡ Err fault)) }
        ensures entry { IfOk result
            (λ version. self.new
            ≡ database_after (Some version) versions.old.now who muts self.old) }
        ensures time { IfOk result
            (λ version. versions.new ≡ record versions.old { now = version }) }
        ensures refused { OnErr result ((self.new ≡ self.old) × (versions.new ≡ versions.old)) }
    {
        let version = entry_version(versions, &self.logs, muts.as_slice())?;
        self.put(versions, Entry { version, who, muts })?;
        Ok(version)
    }

    /// The job takes the lock, by an entry. A fault changes nothing.
    pub fn lock(&mut self, versions: &mut Versions, job: u64) -> Result<u64, LockFault>
        requires pace { 1 ≤ versions.old.pace }
        requires past { AllByRecursion (λ (entry : Entry). entry.version ≤ versions.old.now)
            self.old.history }
        requires oldest { self.old.oldest ≤ oldest_at versions.old.now }
        ensures ok { IfOk result
            (λ version. lock_answer (locked self.old.history)
            (entry_answer (scene_of self.old versions.old) []) ≡ Ok version) }
        ensures err { IfErr result
            (λ fault. (fault ≡ LockFault.System SystemFault.NoMemory)
            ⊎ (lock_answer (locked self.old.history)
            (entry_answer (scene_of self.old versions.old) []) ≡ Err fault)) }
        ensures entry { IfOk result
            (λ version. self.new
            ≡ database_after (Some version) versions.old.now (who.Lock job) [] self.old) }
        ensures time { IfOk result
            (λ version. versions.new ≡ record versions.old { now = version }) }
        ensures refused { OnErr result ((self.new ≡ self.old) × (versions.new ≡ versions.old)) }
    {
        if let Some(uid) = self.lock {
            return Err(LockFault::Locked { uid });
        }
        let alloc = self.alloc;
        let none = Seq::new(alloc);
        match self.system(versions, Who::Lock { job }, none) {
            Ok(version) => Ok(version),
            Err(fault) => Err(LockFault::System(fault)),
        }
    }

    /// The job gives its lock back, by an entry. A fault changes nothing.
    pub fn unlock(&mut self, versions: &mut Versions, job: u64) -> Result<u64, UnlockFault>
        requires pace { 1 ≤ versions.old.pace }
        requires past { AllByRecursion (λ (entry : Entry). entry.version ≤ versions.old.now)
            self.old.history }
        requires oldest { self.old.oldest ≤ oldest_at versions.old.now }
        ensures ok { IfOk result
            (λ version. unlock_answer job (locked self.old.history)
            (entry_answer (scene_of self.old versions.old) []) ≡ Ok version) }
        ensures err { IfErr result
            (λ fault. (fault ≡ UnlockFault.System SystemFault.NoMemory)
            ⊎ (unlock_answer job (locked self.old.history)
            (entry_answer (scene_of self.old versions.old) []) ≡ Err fault)) }
        ensures entry { IfOk result
            (λ version. self.new
            ≡ database_after (Some version) versions.old.now (who.Unlock job) [] self.old) }
        ensures time { IfOk result
            (λ version. versions.new ≡ record versions.old { now = version }) }
        ensures refused { OnErr result ((self.new ≡ self.old) × (versions.new ≡ versions.old)) }
    {
        let found = self.lock;
        if found != Some(job) {
            return Err(UnlockFault::NotLocked { found });
        }
        let alloc = self.alloc;
        let none = Seq::new(alloc);
        match self.system(versions, Who::Unlock { job }, none) {
            Ok(version) => Ok(version),
            Err(fault) => Err(UnlockFault::System(fault)),
        }
    }

    /// Takes the newest entry back, with what logs took of it. It takes no memory.
    pub fn retract(&mut self)
        requires { (front : List Entry) × (last : Entry) × (self.old.history ≡ front ++ last ∷ [])
            × (self.old.oldest < last.version) }
        ensures { (front : List Entry) (last : Entry) → self.old.history ≡ front ++ last ∷ []
            → self.new ≡ record self.old { history = front } }
    {
        take_kept(&mut self.history, &mut self.store, &mut self.keys);
        self.lock = lock_in(self.history.as_slice());
    }

    /// The pairs of a range at `now`.
    pub fn dump(&self, versions: &Versions, range: &KeyRange) -> Result<Pairs, AllocError>
        requires oldest { self.now.oldest ≤ versions.now.now }
        ensures pairs { IfOk result
            (λ pairs. pairs
            ≡ pairs_at self.now.block self.now.history versions.entry.now.now range.now) }
    {
        let page = self.store.scan(range, versions.now, usize::MAX)?;
        let _few = len_of(page.pairs.as_slice());
        Ok(page.pairs)
    }

    /// The log of a job, where it logs. It takes no memory.
    pub fn log_of(&self, job: u64) -> Option<&JobLog>
        ensures { option_copied result ≡ log_of self.now.logs job }
    {
        log_of(&self.logs, job)
    }

    /// What a job logs from the version `begin` on and before `end`.
    pub fn log_chunk(&self, job: u64, begin: u64, end: u64) -> Result<LogChunk, AllocError>
        requires { (log : JobLog) × (log_of self.now.logs job ≡ Some log) × (log.erased ≤ begin) }
        ensures begin { IfOk result (λ chunk. chunk.begin ≡ begin) }
        ensures end { IfOk result (λ chunk. chunk.end ≡ end) }
        ensures batches { IfOk result (λ chunk. (log : JobLog) → log_of self.now.logs job ≡ Some log
            → chunk.batches ≡ logged self.now.history log.ranges begin end) }
    {
        self.keys.join(job, begin, end)
    }

    /// Takes a version, from which on the job logs in these ranges, and keeps what it logs. A fault
    /// changes nothing.
    pub fn add_log(
        &mut self,
        versions: &mut Versions,
        job: u64,
        ranges: &Ranges,
    ) -> Result<u64, SystemFault>
        requires free { log_of self.old.logs job ≡ None }
        requires pace { 1 ≤ versions.old.pace }
        requires past { AllByRecursion (λ (entry : Entry). entry.version ≤ versions.old.now)
            self.old.history }
        ensures ok { IfOk result (λ version. next_version versions.old.now versions.old.pace
            ≡ Ok version) }
        ensures err { IfErr result (λ fault. (fault ≡ SystemFault.NoMemory)
            ⊎ (next_version versions.old.now versions.old.pace ≡ Err fault)) }
        ensures log { IfOk result
            (λ version. self.new
            ≡ record self.old {
              logs = with_log
                  (record { job = job; ranges = ranges.now; begin = version; erased = version })
                  self.old.logs;
            }) }
        ensures time { IfOk result
            (λ version. versions.new ≡ record versions.old { now = version }) }
        ensures refused { OnErr result ((self.new ≡ self.old) × (versions.new ≡ versions.old)) }
    {
        let Some(version) = versions.next() else {
            return Err(SystemFault::VersionsSpent {
                version: versions.now,
            });
        };
        let ranges = ranges.copy()?;
        let log = JobLog {
            job,
            ranges,
            begin: version,
            erased: version,
        };
        insert_log(&mut self.logs, log)?;
        versions.now = version;
        Ok(version)
    }

    /// What the job logged before a version is let go. It takes no memory.
    pub fn erase_log(&mut self, job: u64, below: u64)
        ensures { self.new ≡ record self.old { logs = with_erased job below self.old.logs } }
    {
        erase_join_law();
        erase_log(&mut self.logs, job, below);
        self.keys.erase(job, below);
    }

    /// The job logs no more. It takes no memory.
    pub fn end_log(&mut self, job: u64)
        ensures { self.new ≡ record self.old { logs = without_log job self.old.logs } }
    {
        erase_join_law();
        remove_log(&mut self.logs, job);
        self.keys.erase(job, u64::MAX);
    }

    /// Makes an entry, which is past all others, and forgets what no transaction can read any more.
    /// Without memory nothing changes.
    fn put(&mut self, versions: &mut Versions, entry: Entry) -> Result<(), AllocError>
        requires past { AllByRecursion (λ (earlier : Entry). earlier.version < entry.version)
            self.old.history }
        requires oldest { self.old.oldest ≤ oldest_at versions.old.now }
        requires later { versions.old.now < entry.version }
        requires logged { AreLoggable entry.muts self.old.logs }
        ensures entry { OnOk result
            (self.new ≡ database_after (Some entry.version) versions.old.now entry.who entry.muts
            self.old) }
        ensures time { OnOk result (versions.new ≡ record versions.old { now = entry.version }) }
        ensures refused { OnErr result ((self.new ≡ self.old) × (versions.new ≡ versions.old)) }
    {
        let version = entry.version;
        let lock = lock_after(self.lock, entry.who);
        put_kept(
            self.alloc,
            &mut self.history,
            &mut self.store,
            &mut self.keys,
            &self.logs,
            entry,
            self.profile.part,
        )?;
        self.lock = lock;
        self.store.forget(oldest_at(versions.now));
        versions.now = version;
        Ok(())
    }
}

// The number of pairs. There is no memory for as many as a `usize` can count.
fn len_of(pairs: &[Pair]) -> usize
    ensures len { result ≡ length pairs.now }
    ensures few { result < 2 ^ 64 - 1 }
{
    pairs.len()
}

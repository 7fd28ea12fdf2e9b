ghost use Rattle.std.specs.Prelude.{◌≡◌, ◌≤◌, Some, None, MatchOption, IfOk, OnOk, OnErr};
ghost use Rattle.std.specs.List.{AllByRecursion};
ghost use Rattle.mutations.specs.declared.Entry.{Entry};
ghost use Rattle.mutations.specs.Transactions.{writes_of};
ghost use Rattle.database.specs.Commits.{scene_of, oldest_at, commit_answer, database_after};
ghost use Rattle.database.specs.Commits.{time_after};
ghost use Rattle.database.specs.Reads.{reads_at};
ghost use Rattle.client_core.specs.Ends.{end_of, version_of, goes_again};
ghost use Rattle.client_core.specs.Clients.{ClientState, new_client, begun_client, commit_try};

use crate::{End, Outcome};
use database::{CommitFault, Committed, Db, Tx};
use fb_bytes::{Seq, TryCopy};
use mutations::Who;
use std::alloc::{AllocError, Global};
use std::marker::Model;
use versioned_kv::Versions;
use workload_text::{ClientScript, Side};

/// A client that goes through its script.
#[derive(Debug, Drop)]
pub struct Client {
    script: ClientScript,
    /// How often a transaction is tried.
    tries: u32,
    place: usize,
    /// How often the transaction at the place was tried.
    tried: u32,
    begun: Option<u64>,
    outcomes: Seq<Outcome>,
}

impl Model for Client {
    ghost use Rattle.std.specs.Prelude.{◌≤◌, ◌<◌, ◌^◌, ◌+◌, length};
    ghost use Rattle.client_core.specs.Clients.{ClientState};

    ghost Value = { ClientState };

    ghost view = { λ c. record {
      script = c.script;
      tries = c.tries;
      place = c.place;
      tried = c.tried;
      begun = c.begun;
      outcomes = c.outcomes;
    } };

    ghost invariant = { λ c. (c.place ≤ length c.script.txns) × (c.tried + 1 < 2 ^ 32) };
}

impl Client {
    /// A client at the start of a copy of the script. It tries each transaction so often at most,
    /// and once at least.
    pub fn new(alloc: Global, script: &ClientScript, tries: u32) -> Result<Self, AllocError>
        ensures { IfOk result (λ client. client ≡ new_client tries script.now) }
    {
        let script = script.copy()?;
        // Each transaction has one try at least.
        let outcomes = Seq::from_vec(Vec::with_capacity(alloc, script.txns.len())?);
        Ok(Client {
            script,
            tries,
            place: 0,
            tried: 0,
            begun: None,
            outcomes,
        })
    }

    /// What it is to do.
    pub fn script(&self) -> &ClientScript
        ensures { result.now ≡ self.now.script }
    {
        &self.script
    }

    /// The database that it works on.
    pub fn side(&self) -> Side
        ensures { result ≡ self.now.script.side }
    {
        self.script.side
    }

    /// What became of its tries so far. It takes no memory.
    pub fn outcomes(&self) -> &Seq<Outcome>
        ensures { result.now ≡ self.now.outcomes }
    {
        &self.outcomes
    }

    /// Begins the next transaction, and answers its read version. None exactly where the script has
    /// ended or a transaction is begun. It takes no memory.
    pub fn begin(&mut self, db: &Db, versions: &Versions) -> Option<u64>
        ensures { MatchOption result
            ((begun_client versions.entry.now.now self.old ≡ None) × (self.new ≡ self.old))
            (λ read. (read ≡ versions.entry.now.now)
            × (begun_client versions.entry.now.now self.old ≡ Some self.new)) }
    {
        if self.begun.is_some() || self.place >= self.script.txns.len() {
            return None;
        }
        let read = db.begin(versions);
        self.begun = Some(read);
        Some(read)
    }

    /// Tries to commit the transaction that is begun. None exactly where none is. Without memory
    /// nothing changes.
    pub fn commit(
        &mut self,
        db: &mut Db,
        versions: &mut Versions,
    ) -> Result<Option<Outcome>, AllocError>
        requires pace { 1 ≤ versions.old.pace }
        requires past { AllByRecursion (λ (entry : Entry). entry.version ≤ versions.old.now)
            db.old.history }
        requires oldest { db.old.oldest ≤ oldest_at versions.old.now }
        ensures ok { IfOk result (λ outcome. MatchOption outcome
            ((commit_try (scene_of db.old versions.old) self.old ≡ None)
            × (self.new ≡ self.old) × (db.new ≡ db.old) × (versions.new ≡ versions.old))
            (λ outcome. commit_try (scene_of db.old versions.old) self.old
            ≡ Some (record {
              outcome = outcome;
              client = self.new;
              history = db.new.history;
              time = versions.new.now;
            }))) }
        ensures same { IfOk result (λ _. (db.new.block ≡ db.old.block) × (db.new.logs ≡ db.old.logs)
            × (versions.new.pace ≡ versions.old.pace)) }
        ensures oldest { IfOk result (λ _. db.new.oldest ≤ oldest_at versions.new.now) }
        ensures err { OnErr result ((self.new ≡ self.old) × (db.new ≡ db.old)
            × (versions.new ≡ versions.old)) }
    {
        let Some(read) = self.begun else {
            return Ok(None);
        };
        let Some(ops) = self.script.txns.as_slice().get(self.place) else {
            return Ok(None);
        };
        let place = self.place as u64 + 1;
        let who = Who::Client {
            client: self.script.number,
            place,
        };
        let tx = Tx { read, who, ops };
        let outcome = Outcome {
            place,
            attempt: self.tried + 1,
            read,
            end: end_of_try(db, versions, &tx)?,
        };
        let told = outcome.copy()?;
        self.outcomes.push(outcome)?;
        if make_entry(db, versions, &tx, &told.end).is_err() {
            let _ = self.outcomes.pop();
            return Err(AllocError);
        }
        if told.goes_again(self.tries) {
            self.tried += 1;
        } else {
            self.place += 1;
            self.tried = 0;
        }
        self.begun = None;
        Ok(Some(told))
    }
}

// How a try will end, while nothing has changed yet.
fn end_of_try(db: &Db, versions: &Versions, tx: &Tx) -> Result<End, AllocError>
    requires oldest { db.now.oldest ≤ oldest_at versions.now.now }
    ensures { IfOk result
        (λ end. end ≡ end_of
        (commit_answer (scene_of db.now versions.entry.now) tx.now.read tx.now.ops.now)
        (reads_at db.now.block db.now.history tx.now.read tx.now.ops.now)) }
{
    match db.check(versions, tx) {
        Ok(
            Committed {
                version: None,
                reads,
            },
        ) => Ok(End::ReadOnly { reads }),
        Ok(
            Committed {
                version: Some(version),
                reads,
            },
        ) => Ok(End::Commit { version, reads }),
        Err(CommitFault::NoMemory) => Err(AllocError),
        Err(fault) => Ok(End::Fault(fault)),
    }
}

// Makes the entry of a try, where it is to have one.
fn make_entry(db: &mut Db, versions: &mut Versions, tx: &Tx, end: &End) -> Result<(), AllocError>
    requires pace { 1 ≤ versions.old.pace }
    requires past { AllByRecursion (λ (entry : Entry). entry.version ≤ versions.old.now)
        db.old.history }
    requires oldest { db.old.oldest ≤ oldest_at versions.old.now }
    requires end { end.now
        ≡ end_of (commit_answer (scene_of db.old versions.old) tx.now.read tx.now.ops.now)
        (reads_at db.old.block db.old.history tx.now.read tx.now.ops.now) }
    ensures entry { OnOk result
        (db.new ≡ database_after (version_of end.now) versions.old.now tx.now.who
        (writes_of tx.now.ops.now) db.old) }
    ensures time { OnOk result
        (versions.new
        ≡ record versions.old { now = time_after (version_of end.now) versions.old.now }) }
    ensures err { OnErr result ((db.new ≡ db.old) × (versions.new ≡ versions.old)) }
{
    match end {
        End::Commit { version, .. } => db.enter(versions, tx, *version),
        End::ReadOnly { .. } | End::Fault(_) => Ok(()),
    }
}

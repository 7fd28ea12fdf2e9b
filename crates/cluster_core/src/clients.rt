ghost use Rattle.std.specs.Prelude.{◌≡◌, ℕ, ◌≤◌, List, Option, Some, None, Ok, map, MatchOption};
ghost use Rattle.std.specs.Prelude.{IfOk, IfErr, OnErr};
ghost use Rattle.fb_outside.specs.declared.File.{File};
ghost use Rattle.std.specs.List.{AllByRecursion};
ghost use Rattle.mutations.specs.declared.Entry.{Entry};
ghost use Rattle.workload_text.specs.declared.Settings.{Settings};
ghost use Rattle.workload_text.specs.declared.Side.TheVariants as spec;
ghost use Rattle.client_core.specs.Clients.{ClientState, new_client};
ghost use Rattle.database.specs.Commits.{oldest_at};
ghost use Rattle.cluster_core.specs.State.{put_client};
ghost use Rattle.cluster_core.specs.Jobs.{logs_of};
ghost use Rattle.cluster_core.specs.Moves.{moved};
ghost use Rattle.cluster_core.specs.events.Commit.{commit};
ghost use Rattle.cluster_core.specs.inner.World.{Desk, state_of, begun_in, tried_in, side_in, answer_of};

use crate::{Answer, StepFault};
use client_core::{Client, Outcome};
use database::Db;
use std::alloc::{AllocError, Global};
use versioned_kv::Versions;
use workload_text::{ClientScript, Side};

// Clients at the start of their scripts, which try each transaction so often.
pub fn new_clients(
    alloc: Global,
    scripts: &[ClientScript],
    tries: u32,
) -> Result<Vec<Client>, AllocError>
    ensures { IfOk result (λ clients. clients.items ≡ map (new_client tries) scripts.now) }
{
    let mut clients = Vec::new(alloc);
    for script in scripts {
        let client = Client::new(alloc, script, tries)?;
        clients.push(client)?;
    }
    Ok(clients)
}

// The client of that number begins its next transaction, where it can.
pub fn begin_client(
    clients: &mut [Client],
    number: u32,
    db: &Db,
    versions: &Versions,
) -> Option<u64>
    ensures { MatchOption result
        ((begun_in clients.old number versions.entry.now.now ≡ None) × (clients.new ≡ clients.old))
        (λ read. (read ≡ versions.entry.now.now) × ((client : ClientState)
        × (begun_in clients.old number versions.entry.now.now ≡ Some client)
        × (clients.new ≡ put_client clients.old number client))) }
{
    if number == 0 {
        return None;
    }
    let index = number as usize - 1;
    if index >= clients.len() {
        return None;
    }
    clients[index].begin(db, versions)
}

// The client of that number tries to commit, where it has begun a transaction.
pub fn commit_client(
    clients: &mut [Client],
    number: u32,
    src: &mut Db,
    dst: &mut Db,
    versions: &mut Versions,
) -> Result<Answer, StepFault>
    requires pace { 1 ≤ versions.old.pace }
    requires src { AllByRecursion (λ (entry : Entry). entry.version ≤ versions.old.now)
        src.old.history }
    requires dst { AllByRecursion (λ (entry : Entry). entry.version ≤ versions.old.now)
        dst.old.history }
    requires src_oldest { src.old.oldest ≤ oldest_at versions.old.now }
    requires dst_oldest { dst.old.oldest ≤ oldest_at versions.old.now }
    ensures ok { IfOk result
        (λ answer. (settings : Settings) (desk : Desk) (files : Option (List File))
        → src.old.block ≡ settings.block → dst.old.block ≡ settings.block
        → versions.old.pace ≡ settings.pace
        → src.old.logs ≡ logs_of spec.Src desk.jobs → dst.old.logs ≡ logs_of spec.Dst desk.jobs
        → commit settings (state_of clients.old src.old dst.old versions.old desk files) number
        ≡ moved (Ok answer) (state_of clients.new src.new dst.new versions.new desk files)) }
    ensures blocks { (src.new.block ≡ src.old.block) × (dst.new.block ≡ dst.old.block) }
    ensures logs { (src.new.logs ≡ src.old.logs) × (dst.new.logs ≡ dst.old.logs) }
    ensures pace { versions.new.pace ≡ versions.old.pace }
    ensures src_oldest { src.new.oldest ≤ oldest_at versions.new.now }
    ensures dst_oldest { dst.new.oldest ≤ oldest_at versions.new.now }
    ensures err { OnErr result
        ((clients.new ≡ clients.old) × (src.new ≡ src.old) × (dst.new ≡ dst.old)
        × (versions.new ≡ versions.old)) }
    ensures fault { IfErr result (λ fault. fault ≡ StepFault.NoMemory) }
{
    match side_of(clients, number) {
        Some(Side::Src) => {
            let tried = try_client(clients, number, src, versions)?;
            Ok(answer_of(tried))
        }
        Some(Side::Dst) => {
            let tried = try_client(clients, number, dst, versions)?;
            Ok(answer_of(tried))
        }
        None => Ok(Answer::Nothing),
    }
}

// A try's outcome as an answer.
fn answer_of(tried: Option<Outcome>) -> Answer
    ensures { result ≡ answer_of tried }
{
    match tried {
        Some(outcome) => Answer::Outcome(outcome),
        None => Answer::Nothing,
    }
}

// The side of the client of that number.
fn side_of(clients: &[Client], number: u32) -> Option<Side>
    ensures { result ≡ side_in clients.now number }
{
    if number == 0 {
        return None;
    }
    match clients.get(number as usize - 1) {
        Some(client) => Some(client.side()),
        None => None,
    }
}

// The client of that number tries to commit to the database.
fn try_client(
    clients: &mut [Client],
    number: u32,
    db: &mut Db,
    versions: &mut Versions,
) -> Result<Option<Outcome>, AllocError>
    requires pace { 1 ≤ versions.old.pace }
    requires past { AllByRecursion (λ (entry : Entry). entry.version ≤ versions.old.now)
        db.old.history }
    requires oldest { db.old.oldest ≤ oldest_at versions.old.now }
    ensures ok { IfOk result (λ outcome. MatchOption outcome
        ((tried_in clients.old number db.old versions.old ≡ None)
        × (clients.new ≡ clients.old) × (db.new ≡ db.old) × (versions.new ≡ versions.old))
        (λ outcome. (client : ClientState)
        × (tried_in clients.old number db.old versions.old
        ≡ Some (record {
          outcome = outcome;
          client = client;
          history = db.new.history;
          time = versions.new.now;
        }))
        × (clients.new ≡ put_client clients.old number client))) }
    ensures same { (db.new.block ≡ db.old.block) × (db.new.logs ≡ db.old.logs)
        × (versions.new.pace ≡ versions.old.pace) }
    ensures oldest { db.new.oldest ≤ oldest_at versions.new.now }
    ensures later { versions.old.now ≤ versions.new.now }
    ensures err { OnErr result
        ((clients.new ≡ clients.old) × (db.new ≡ db.old) × (versions.new ≡ versions.old)) }
{
    if number == 0 {
        return Ok(None);
    }
    let index = number as usize - 1;
    if index >= clients.len() {
        return Ok(None);
    }
    clients[index].commit(db, versions)
}

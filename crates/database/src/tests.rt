ghost use Rattle.std.specs.Prelude.{◌≡◌, ◌≤◌, ◌<◌, true, List, [], ◌∷◌, ◌++◌};
ghost use Rattle.std.specs.List.{AllByRecursion};
ghost use Rattle.mutations.specs.declared.Entry.{Entry};
ghost use Rattle.database.specs.Commits as commits;

use crate::writes::oldest_at;
use crate::{CommitFault, Committed, Db, Found, LockFault, Tx, UnlockFault};
use block_frame::Profile;
use fb_bytes::{Blob, KeyRange, Ranges};
use mutations::{Entry, Mutation, TxOp, TxOps, Who};
use std::alloc::{AllocError, Global};
use std::test::Fail;
use versioned_kv::Versions;

fn clear(alloc: Global, begin: &[u8], end: &[u8]) -> Result<TxOp, AllocError> {
    Ok(TxOp::Write(Mutation::ClearRange {
        begin: Blob::from_slice(alloc, begin)?,
        end: Blob::from_slice(alloc, end)?,
    }))
}

fn empty_db(alloc: Global, block: u32) -> Result<Db, Fail> {
    let Some(profile) = Profile::from_block(block) else {
        return Err("no such block".into());
    };
    Ok(Db::new(alloc, profile))
}

/// Whether no entry is past a version.
fn none_past(history: &[Entry], version: u64) -> bool
    ensures { result ≡ true
        → AllByRecursion (λ (entry : Entry). entry.version ≤ version) history.now }
{
    for entry in history {
        if entry.version > version {
            return false;
        }
    }
    true
}

/// Whether a call that makes an entry may be made.
fn is_ready(db: &Db, versions: &Versions) -> bool
    ensures pace { result ≡ true → 1 ≤ versions.entry.now.pace }
    ensures past { result ≡ true
        → AllByRecursion (λ (entry : Entry). entry.version ≤ versions.entry.now.now)
        db.now.history }
    ensures oldest { result ≡ true → db.now.oldest ≤ commits.oldest_at versions.entry.now.now }
{
    versions.pace > 0
        && db.oldest() <= oldest_at(versions.now)
        && none_past(db.history().as_slice(), versions.now)
}

/// Commits these operations. None where they have no writes, or where the commit is refused.
fn commit(
    db: &mut Db,
    versions: &mut Versions,
    read: u64,
    ops: &TxOps,
) -> Result<Committed, CommitFault> {
    if !is_ready(db, versions) {
        return Err(CommitFault::NoMemory);
    }
    let who = Who::Client {
        client: 1,
        place: 1,
    };
    let tx = Tx { read, who, ops };
    db.commit(versions, &tx)
}

/// The version that a commit of these operations takes.
fn version_of(
    db: &mut Db,
    versions: &mut Versions,
    read: u64,
    ops: &TxOps,
) -> Result<Option<u64>, CommitFault> {
    let done = commit(db, versions, read, ops)?;
    Ok(done.version)
}

/// Begins a log.
fn add_log(db: &mut Db, versions: &mut Versions, job: u64, ranges: &Ranges) -> Result<u64, Fail> {
    if db.log_of(job).is_some() || !is_ready(db, versions) {
        return Err("the job logs".into());
    }
    match db.add_log(versions, job, ranges) {
        Ok(version) => Ok(version),
        Err(_) => Err("no log".into()),
    }
}

/// A key of 10,000 bytes.
fn long_key(alloc: Global, number: u16, last: u8) -> Result<Blob, AllocError> {
    let [high, low] = number.to_be_bytes();
    let mut bytes = Vec::new(alloc);
    bytes.resize(10_000, last)?;
    bytes[0] = high;
    bytes[1] = low;
    Ok(Blob::from_vec(bytes))
}

/// 100 ranges, whose begins and ends have 10,000 bytes each.
fn long_ranges(alloc: Global) -> Result<Ranges, Fail> {
    let mut list = Vec::new(alloc);
    for number in 0..100 {
        list.push(KeyRange {
            begin: long_key(alloc, number, 1)?,
            end: long_key(alloc, number, 2)?,
        })?;
    }
    match Ranges::build(alloc, &list) {
        Ok(ranges) => Ok(ranges),
        Err(_) => Err("no ranges".into()),
    }
}

/// So many clears of all user keys.
fn clears(alloc: Global, count: u64) -> Result<TxOps, AllocError> {
    let mut ops = TxOps::new(alloc);
    for _ in 0..count {
        ops.push(clear(alloc, b"", &[255])?)?;
    }
    Ok(ops)
}

/// What a commit of 2,200 clears answers where a job logs in 100 long ranges.
fn answer_of_many(
    db: &mut Db,
    versions: &mut Versions,
    alloc: Global,
) -> Result<Result<Option<u64>, CommitFault>, Fail> {
    let ranges = long_ranges(alloc)?;
    let _begin = add_log(db, versions, 1, &ranges)?;
    let ops = clears(alloc, 2_200)?;
    Ok(version_of(db, versions, 0, &ops))
}

#[test]
fn a_commit_that_a_log_has_no_room_for_is_refused(rt: HostRuntime) -> Result<(), Fail> {
    let mut db = empty_db(rt.alloc(), 1_048_576)?;
    let mut versions = Versions { now: 0, pace: 10 };
    let answer = answer_of_many(&mut db, &mut versions, rt.alloc())?;
    let bytes = 4_402_640_000;
    assert!(rt; answer == Err(CommitFault::LogTooLarge { bytes }));
    assert_eq!(rt; versions.now, 10);
    assert!(rt; db.history().is_empty());
    Ok(())
}

/// An operation of a row.
#[derive(Clone, Copy)]
enum Op {
    Get(&'static [u8]),
    Peek(&'static [u8]),
    Scan(&'static [u8], &'static [u8]),
    Set(&'static [u8], &'static [u8]),
}

/// A call of a row, and what it gives.
#[derive(Clone, Copy)]
enum Call {
    Lock(u64, Result<u64, LockFault>),
    Unlock(u64, Result<u64, UnlockFault>),
    /// The job logs in a..m, from this version on.
    Log(u64, u64),
    /// What the job logged in a stretch has one batch, of this version, that sets a to 1.
    Chunk(u64, u64, u64, u64),
    /// A commit of operations by their read version.
    Commit(u64, &'static [Op], Result<Option<u64>, CommitFault>),
    /// The value of a key at a version.
    Find(u64, &'static [u8], &'static [u8]),
    /// The newest version is this one.
    Wait(u64),
    Retract,
}

const UPDATE: &[Op] = &[Op::Get(b"k"), Op::Set(b"k", b"1")];

const PEEK: &[Op] = &[Op::Peek(b"k"), Op::Set(b"k", b"2")];

const SCAN: &[Op] = &[Op::Scan(b"j", b"l"), Op::Set(b"z", b"3")];

const FIRST: &[Op] = &[Op::Set(b"a", b"1")];

const SECOND: &[Op] = &[Op::Set(b"a", b"2")];

const OUTSIDE: &[Op] = &[Op::Set(b"p", b"2")];

const ROWS: &[&[Call]] = &[
    &[
        Call::Lock(1, Ok(10)),
        Call::Lock(2, Err(LockFault::Locked { uid: 1 })),
        Call::Commit(10, FIRST, Err(CommitFault::Locked { uid: 1 })),
        Call::Unlock(2, Err(UnlockFault::NotLocked { found: Some(1) })),
        Call::Unlock(1, Ok(20)),
        Call::Commit(10, FIRST, Ok(Some(30))),
    ],
    &[
        Call::Log(1, 10),
        Call::Commit(10, FIRST, Ok(Some(20))),
        Call::Commit(10, OUTSIDE, Ok(Some(30))),
        Call::Chunk(1, 10, 31, 20),
    ],
    &[
        Call::Commit(0, UPDATE, Ok(Some(10))),
        Call::Commit(0, UPDATE, Err(CommitFault::NotCommitted { version: 10 })),
        Call::Commit(0, SCAN, Err(CommitFault::NotCommitted { version: 10 })),
        Call::Commit(0, PEEK, Ok(Some(20))),
    ],
    &[
        Call::Wait(5_000_000),
        Call::Commit(0, FIRST, Ok(Some(5_000_010))),
    ],
    &[
        Call::Wait(5_000_001),
        Call::Commit(0, FIRST, Err(CommitFault::TooOld { read: 0, oldest: 1 })),
    ],
    &[
        Call::Commit(0, FIRST, Ok(Some(10))),
        Call::Commit(0, SECOND, Ok(Some(20))),
        Call::Find(20, b"a", b"2"),
        Call::Retract,
        Call::Find(20, b"a", b"1"),
    ],
];

fn range(alloc: Global, begin: &[u8], end: &[u8]) -> Result<KeyRange, AllocError> {
    Ok(KeyRange {
        begin: Blob::from_slice(alloc, begin)?,
        end: Blob::from_slice(alloc, end)?,
    })
}

fn op_of(alloc: Global, op: Op) -> Result<TxOp, AllocError> {
    match op {
        Op::Get(key) => Ok(TxOp::Get {
            key: Blob::from_slice(alloc, key)?,
        }),
        Op::Peek(key) => Ok(TxOp::SnapshotGet {
            key: Blob::from_slice(alloc, key)?,
        }),
        Op::Scan(begin, end) => Ok(TxOp::Scan {
            range: range(alloc, begin, end)?,
            limit: 1,
        }),
        Op::Set(key, value) => Ok(TxOp::Write(Mutation::Set {
            key: Blob::from_slice(alloc, key)?,
            value: Blob::from_slice(alloc, value)?,
        })),
    }
}

fn ops_of(alloc: Global, list: &[Op]) -> Result<TxOps, AllocError> {
    let mut ops = TxOps::new(alloc);
    for op in list {
        ops.push(op_of(alloc, *op)?)?;
    }
    Ok(ops)
}

fn begins_log(
    db: &mut Db,
    versions: &mut Versions,
    alloc: Global,
    job: u64,
    version: u64,
) -> Result<bool, Fail> {
    let list = [range(alloc, b"a", b"m")?];
    match Ranges::build(alloc, &list) {
        Ok(ranges) => Ok(add_log(db, versions, job, &ranges)? == version),
        Err(_) => Err("no ranges".into()),
    }
}

fn is_first(mutation: &Mutation) -> bool {
    match mutation {
        Mutation::Set { key, value } => key.as_slice() == b"a".as_slice()
            && value.as_slice() == b"1".as_slice(),
        _ => false,
    }
}

fn has_chunk(db: &Db, job: u64, begin: u64, end: u64, version: u64) -> Result<bool, AllocError> {
    let erased = match db.log_of(job) {
        Some(log) => log.erased,
        None => return Ok(false),
    };
    if erased > begin {
        return Ok(false);
    }
    let chunk = db.log_chunk(job, begin, end)?;
    match chunk.batches.as_slice() {
        [batch] => match batch.muts.as_slice() {
            [mutation] => Ok(batch.version == version && is_first(mutation)),
            _ => Ok(false),
        },
        _ => Ok(false),
    }
}

fn commits_so(
    db: &mut Db,
    versions: &mut Versions,
    alloc: Global,
    read: u64,
    list: &[Op],
) -> Result<Result<Option<u64>, CommitFault>, AllocError> {
    let ops = ops_of(alloc, list)?;
    Ok(version_of(db, versions, read, &ops))
}

fn is_found(reads: &[Found], value: &[u8]) -> bool {
    match reads {
        [Found::One(Some(found))] => found.as_slice() == value,
        _ => false,
    }
}

fn finds(
    db: &mut Db,
    versions: &mut Versions,
    alloc: Global,
    read: u64,
    key: &'static [u8],
    value: &[u8],
) -> Result<bool, AllocError> {
    let ops = ops_of(alloc, &[Op::Get(key)])?;
    match commit(db, versions, read, &ops) {
        Ok(done) => Ok(done.version.is_none() && is_found(done.reads.as_slice(), value)),
        Err(_) => Ok(false),
    }
}

/// Whether the newest entry may be taken back.
fn can_retract(db: &Db) -> bool
    ensures { result ≡ true → (front : List Entry) × (last : Entry)
        × (db.now.history ≡ front ++ last ∷ []) × (db.now.oldest < last.version) }
{
    match db.history().as_slice().split_last() {
        Some((last, _)) => db.oldest() < last.version,
        None => false,
    }
}

fn retracts(db: &mut Db) -> bool {
    let can = can_retract(db);
    if can {
        db.retract();
    }
    can
}

fn locks(db: &mut Db, versions: &mut Versions, job: u64) -> Option<Result<u64, LockFault>> {
    if !is_ready(db, versions) {
        return None;
    }
    Some(db.lock(versions, job))
}

fn unlocks(db: &mut Db, versions: &mut Versions, job: u64) -> Option<Result<u64, UnlockFault>> {
    if !is_ready(db, versions) {
        return None;
    }
    Some(db.unlock(versions, job))
}

/// Makes a call. Whether it gives what it should.
fn gives(db: &mut Db, versions: &mut Versions, alloc: Global, call: &Call) -> Result<bool, Fail> {
    match *call {
        Call::Lock(job, answer) => Ok(locks(db, versions, job) == Some(answer)),
        Call::Unlock(job, answer) => Ok(unlocks(db, versions, job) == Some(answer)),
        Call::Log(job, version) => begins_log(db, versions, alloc, job, version),
        Call::Chunk(job, begin, end, version) => Ok(has_chunk(db, job, begin, end, version)?),
        Call::Commit(read, ops, answer) => {
            Ok(commits_so(db, versions, alloc, read, ops)? == answer)
        }
        Call::Find(read, key, value) => Ok(finds(db, versions, alloc, read, key, value)?),
        Call::Wait(version) => {
            versions.now = version;
            Ok(true)
        }
        Call::Retract => Ok(retracts(db)),
    }
}

/// Makes the calls of a row on an empty database. Whether each gives what it should.
fn plays(alloc: Global, row: &[Call]) -> Result<bool, Fail> {
    let mut db = empty_db(alloc, 4096)?;
    let mut versions = Versions { now: 0, pace: 10 };
    for call in row {
        if !gives(&mut db, &mut versions, alloc, call)? {
            return Ok(false);
        }
    }
    Ok(true)
}

/// How many rows at the front go as they should.
fn good(alloc: Global, rows: &[&[Call]]) -> Result<usize, Fail> {
    for (count, row) in rows.iter().enumerate() {
        if !plays(alloc, row)? {
            return Ok(count);
        }
    }
    Ok(rows.len())
}

#[test]
fn calls_give_what_they_should(rt: HostRuntime) -> Result<(), Fail> {
    assert_eq!(rt; good(rt.alloc(), ROWS)?, ROWS.len());
    Ok(())
}

fn crosses<T: Send + Sync>() {}

/// Threads may hand these on and share them.
#[test]
fn types_cross_threads() {
    crosses::<Db>();
    crosses::<CommitFault>();
}

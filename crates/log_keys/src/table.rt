//! Changes of the table of parts.

ghost use Rattle.std.specs.Prelude.{◌≡◌, ◌+◌, ◌*◌, ◌<◌, ◌≤◌, ◌^◌, ◌==◌, ◌&&◌, not, ◌++◌, length, take, drop, IfOk, OnOk, OnErr};
ghost use Rattle.std.specs.List.{filter};
ghost use Rattle.log_keys.specs.inner.Keys.{first_at};
ghost use Rattle.log_keys.specs.Logs.{is_between, is_older};
ghost use Rattle.mutations.specs.Cutting.{pieces_of};
ghost use Rattle.log_keys.specs.inner.Parts.{rows_from};
ghost use Rattle.log_keys.specs.inner.Table.{AreRising, keys_below, has_part, rows_between};

use crate::key::LogKey;
use crate::row::Row;
use fb_bytes::Blob;
use std::alloc::{AllocError, Global};

/// The parts of a batch, each but the last one with `part` bytes.
pub fn parts_of(
    alloc: Global,
    job: u64,
    version: u64,
    batch: &[u8],
    part: usize,
) -> Result<Vec<Row>, AllocError>
    requires some { 0 < part }
    requires few { length batch.now ≤ 2 ^ 32 * part }
    ensures { IfOk result
        (λ rows. rows.items ≡ rows_from job version 0 (pieces_of part batch.now)) }
{
    let mut rows = Vec::new(alloc);
    let mut rest = batch;
    let mut number: u32 = 0;
    'parts: while rest.len() > part {
        let (piece, after) = rest.split_at(part);
        let row = row_of(alloc, job, version, number, piece)?;
        rows.push(row)?;
        rest = after;
        number += 1;
    }
    let row = row_of(alloc, job, version, number, rest)?;
    rows.push(row)?;
    Ok(rows)
}

fn row_of(alloc: Global, job: u64, version: u64, part: u32, piece: &[u8]) -> Result<Row, AllocError>
    ensures { IfOk result
        (λ row. row ≡ record {
          key = record { job = job; version = version; part = part };
          piece = piece.now;
        }) }
{
    let key = LogKey::new(alloc, job, version, part)?;
    let piece = Blob::from_slice(alloc, piece)?;
    Ok(Row { key, piece })
}

/// How many parts at the front come before those of a job and a version. It halves.
pub fn place_of(rows: &[Row], job: u64, version: u64) -> usize
    requires { AreRising rows.now }
    ensures place { result ≡ keys_below (first_at job version) rows.now }
    ensures within { result ≤ length rows.now }
{
    rows.partition_point(|row| row.is_before(job, version))
}

/// The parts of a job from the version `begin` on and before `end`, which stand side by side.
pub fn rows_between(rows: &[Row], job: u64, begin: u64, end: u64) -> &[Row]
    requires { AreRising rows.now }
    ensures { result.now ≡ rows_between job begin end rows.now }
{
    let first = place_of(rows, job, begin);
    let last = place_of(rows, job, end);
    &rows[first..first.max(last)]
}

/// Whether some part is of the job and the version.
pub fn has_part(rows: &[Row], job: u64, version: u64) -> bool
    requires { AreRising rows.now }
    ensures { result ≡ has_part job version rows.now }
{
    let place = place_of(rows, job, version);
    if place < rows.len() {
        rows[place].is_of(job, version)
    } else {
        false
    }
}

/// Puts rows in at a place. Without memory nothing changes.
pub fn insert_all(rows: &mut Vec<Row>, place: usize, more: Vec<Row>) -> Result<(), AllocError>
    requires { place ≤ length rows.old.items }
    ensures ok { OnOk result (rows.new.items ≡ take place rows.old.items ++ more.items
        ++ drop place rows.old.items) }
    ensures err { OnErr result (rows.new.items ≡ rows.old.items) }
{
    let mut more = more;
    let count = more.len();
    rows.append(&mut more)?;
    rows[place..].rotate_right(count);
    Ok(())
}

/// Takes the parts of a job out that are of versions before `below`, which stand side by side.
pub fn erase(rows: &mut Vec<Row>, job: u64, below: u64)
    requires { AreRising rows.old.items }
    ensures { rows.new.items
        ≡ filter (λ row. not (is_older job below row.key.job row.key.version)) rows.old.items }
{
    let first = place_of(rows, job, 0);
    let last = place_of(rows, job, below);
    if first < last {
        cut(rows, first, last);
    }
}

/// Takes out what stands at the places from `first` on and before `last`.
fn cut(rows: &mut Vec<Row>, first: usize, last: usize)
    requires ordered { first ≤ last }
    requires within { last ≤ length rows.old.items }
    ensures { rows.new.items ≡ take first rows.old.items ++ drop last rows.old.items }
{
    let count = last - first;
    let rest = rows.len() - count;
    rows[first..].rotate_left(count);
    rows.truncate(rest);
}

/// Takes the parts of a version out. It goes from job to job.
pub fn retract(rows: &mut Vec<Row>, version: u64)
    requires { AreRising rows.old.items }
    ensures { rows.new.items ≡ filter (λ row. not (row.key.version == version)) rows.old.items }
{
    let mut done = 0;
    'jobs: while done < rows.len() {
        let job = rows[done].key.job();
        retract_of(rows, job, version);
        done = place_past(rows, job);
    }
}

// Takes the parts of a job's version out, which stand side by side.
fn retract_of(rows: &mut Vec<Row>, job: u64, version: u64)
    requires { AreRising rows.old.items }
    ensures { rows.new.items
        ≡ filter (λ row. not (is_between job version (version + 1) row.key.job row.key.version))
        rows.old.items }
{
    let first = place_of(rows, job, version);
    let last = place_behind(rows, job, version);
    if first < last {
        cut(rows, first, last);
    }
}

// How many parts at the front come before those of later versions of the job. It halves.
fn place_behind(rows: &[Row], job: u64, version: u64) -> usize
    requires { AreRising rows.now }
    ensures place { result ≡ keys_below (first_at job (version + 1)) rows.now }
    ensures within { result ≤ length rows.now }
{
    rows.partition_point(|row| row.is_upto(job, version))
}

// How many parts at the front come before those of later jobs. It halves.
fn place_past(rows: &[Row], job: u64) -> usize
    requires { AreRising rows.now }
    ensures place { result ≡ keys_below (first_at (job + 1) 0) rows.now }
    ensures within { result ≤ length rows.now }
{
    rows.partition_point(|row| row.is_upto_job(job))
}

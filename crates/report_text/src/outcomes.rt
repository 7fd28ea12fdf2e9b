//! The lines of clients.

ghost use Rattle.std.specs.Prelude.{◌≡◌, ◌≤◌, [], ◌++◌, length, OnOk};
ghost use Rattle.std.specs.List.{flat_map};
ghost use Rattle.client_core.specs.Legal.{ops_of};
ghost use Rattle.report_text.specs.Lines.{behind};
ghost use Rattle.report_text.specs.Outcomes.{end_words, fault_words, client_line, try_lines};
ghost use Rattle.report_text.specs.Outcomes.{client_lines, found_in};

use crate::reads::put_reads;
use crate::tail::Tail;
use crate::words::put;
use client_core::{End, Outcome, Outcomes};
use database::{CommitFault, Found};
use fb_bytes::Blob;
use mutations::{TxOp, TxOps};
use std::alloc::{AllocError, Global};

/// The lines of all clients' tries.
pub fn put_outcomes(alloc: Global, out: &mut Blob, outcomes: &Outcomes) -> Result<(), AllocError>
    ensures { OnOk result (out.new ≡ out.old ++ client_lines 1 outcomes.now) }
{
    for index in 0..outcomes.len() {
        let (script, tries) = outcomes.get(index);
        put_tries(
            alloc,
            out,
            index + 1,
            script.txns.as_slice(),
            tries.as_slice(),
        )?;
    }
    Ok(())
}

fn put_tries(
    alloc: Global,
    out: &mut Blob,
    client: usize,
    txns: &[TxOps],
    tries: &[Outcome],
) -> Result<(), AllocError>
    ensures { OnOk result (out.new ≡ out.old ++ flat_map (try_lines client txns.now) tries.now) }
{
    for outcome in tries {
        put_try(out, client, outcome)?;
        put_reads(
            alloc,
            out,
            ops_at(txns, outcome.place),
            found_in(&outcome.end),
        )?;
    }
    Ok(())
}

/// The operations of the transaction of a number, counted from 1.
fn ops_at(txns: &[TxOps], number: u64) -> &[TxOp]
    ensures { result.now ≡ ops_of txns.now number }
{
    match txns.get(number.saturating_sub(1) as usize) {
        Some(ops) => ops.as_slice(),
        None => &[],
    }
}

/// What the reads of a try found.
fn found_in(end: &End) -> &[Found]
    ensures { result.now ≡ found_in end.now }
{
    match end {
        End::Commit { reads, .. } | End::ReadOnly { reads } => reads.as_slice(),
        End::Fault(_) => &[],
    }
}

fn put_try(out: &mut Blob, client: usize, outcome: &Outcome) -> Result<(), AllocError>
    ensures { OnOk result (out.new ≡ out.old ++ client_line client outcome.now) }
{
    let mut tail = end_of(&outcome.end);
    tail.number(outcome.read);
    tail.text(b" read ");
    tail.number(u64::from(outcome.attempt));
    tail.text(b" try ");
    tail.number(outcome.place);
    tail.text(b" txn ");
    tail.number(client as u64);
    tail.text(b"client ");
    put(out, tail.as_slice())
}

/// How a try ended, as the last words of a line.
pub fn put_end(out: &mut Blob, end: &End) -> Result<(), AllocError>
    ensures { OnOk result (out.new ≡ out.old ++ behind (end_words end.now)) }
{
    put(out, end_of(end).as_slice())
}

/// The same for a line that is put together from the back.
pub fn end_of(end: &End) -> Tail
    ensures words { result ≡ behind (end_words end.now) }
    ensures len { length result ≤ 67 }
{
    match end {
        End::Commit { version, .. } => Tail::last(b" commit ", *version),
        End::ReadOnly { .. } => Tail::of(b" readonly"),
        End::Fault(fault) => fault_of(*fault),
    }
}

fn fault_of(fault: CommitFault) -> Tail
    ensures words { result ≡ behind (fault_words fault) }
    ensures len { length result ≤ 67 }
{
    match fault {
        CommitFault::Outside { index } => Tail::last(b" 2004 ", index as u64),
        CommitFault::KeyTooLarge { index } => Tail::last(b" 2102 ", index as u64),
        CommitFault::ValueTooLarge { index } => Tail::last(b" 2103 ", index as u64),
        CommitFault::TooLarge { bytes } => Tail::last(b" 2101 ", bytes),
        CommitFault::Locked { uid } => Tail::last(b" 1038 ", uid),
        CommitFault::TooOld { read, oldest } => {
            let mut tail = Tail::last(b" ", oldest);
            tail.number(read);
            tail.text(b" 1007 ");
            tail
        }
        CommitFault::NotCommitted { version } => Tail::last(b" 1020 ", version),
        CommitFault::VersionsSpent { version } => Tail::last(b" versions-spent ", version),
        CommitFault::LogTooLarge { bytes } => Tail::last(b" log-too-large ", bytes),
        CommitFault::NoMemory => Tail::of(b" no-memory"),
    }
}

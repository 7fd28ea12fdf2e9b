use super::*;
use crate::commands::put_told;
use crate::entries::{put_mutations, put_who};
use crate::events::put_events;
use crate::outcomes::put_end;
use atomic_ops::Op;
use client_core::{End, Outcome};
use cluster_core::{Answer, DrainFault, JobState, Refusal, StepFault};
use database::{CommitFault, Found};
use fb_bytes::{Blob, Seq};
use mutations::{Mutation, Who};
use std::alloc::{AllocError, Global};
use std::test::Fail;
use task_kinds::Kind;
use workload_text::{CommandKind, ScheduleLine};

// A line with its answer, and with the command where it is the operator's.
fn told(
    alloc: Global,
    line: ScheduleLine,
    command: Option<CommandKind>,
    answer: EventAnswer,
) -> Result<EventLine, AllocError> {
    let reply = Reply::new(alloc, answer)?;
    Ok(EventLine {
        line,
        command,
        reply,
    })
}

// A line of the operator.
fn operated(
    alloc: Global,
    command: CommandKind,
    answer: Result<Answer, StepFault>,
) -> Result<EventLine, AllocError> {
    told(
        alloc,
        ScheduleLine::Op,
        Some(command),
        EventAnswer::Step(answer),
    )
}

// Lines of the operator with answers of several kinds.
fn answers(alloc: Global) -> Result<[EventLine; 7], AllocError> {
    let aborted = Some(JobState::Aborted);
    let spent = StepFault::VersionsSpent { version: 7 };
    Ok([
        operated(alloc, CommandKind::Open, Ok(Answer::Done))?,
        operated(alloc, CommandKind::Dump, Err(StepFault::VaultFault))?,
        operated(alloc, CommandKind::Cut, Err(spent))?,
        operated(alloc, CommandKind::Seal, Err(StepFault::NoMemory))?,
        operated(alloc, CommandKind::Abort, Ok(Answer::Done))?,
        operated(
            alloc,
            CommandKind::Status,
            Ok(Answer::State { state: None }),
        )?,
        operated(
            alloc,
            CommandKind::Status,
            Ok(Answer::State { state: aborted }),
        )?,
    ])
}

const ANSWERS: &[u8] = b"op open -> done\n\
      op dump -> vault-fault\n\
      op cut -> versions-spent 7\n\
      op seal -> no-memory\n\
      op abort -> done\n\
      op status -> never-ran\n\
      op status -> aborted\n";

#[test]
fn operator_lines(rt: HostRuntime) -> Result<(), Fail> {
    let events = answers(rt.alloc())?;
    let mut out = Blob::new(rt.alloc());
    put_events(rt.alloc(), &mut out, &events)?;
    assert_eq!(rt; out.as_slice(), ANSWERS);
    Ok(())
}

// A line of time, of a client or of an agent.
fn answered(alloc: Global, line: ScheduleLine, answer: Answer) -> Result<EventLine, AllocError> {
    told(alloc, line, None, EventAnswer::Step(Ok(answer)))
}

// A line of time, and an agent's claim with what comes of it.
fn claims(alloc: Global) -> Result<[EventLine; 3], AllocError> {
    let task = Answer::Task {
        uid: 3,
        kind: Kind::BackupRange,
        until: 99,
    };
    let ticked = Answer::Version { version: 15 };
    let extended = Answer::Until { until: 120 };
    Ok([
        answered(alloc, ScheduleLine::Tick { n: 5 }, ticked)?,
        answered(alloc, ScheduleLine::Claim { agent: 1, pick: 7 }, task)?,
        answered(alloc, ScheduleLine::Extend { agent: 1 }, extended)?,
    ])
}

// What an agent does with its task.
fn turns(alloc: Global) -> Result<[EventLine; 4], AllocError> {
    let taken = Answer::Taken { ticket: 4 };
    let closed = Answer::Closed { uid: 3 };
    Ok([
        answered(alloc, ScheduleLine::Take { agent: 1 }, taken)?,
        answered(alloc, ScheduleLine::Place { agent: 1 }, Answer::Loaded)?,
        answered(alloc, ScheduleLine::Close { agent: 1 }, closed)?,
        answered(alloc, ScheduleLine::Die { agent: 1 }, Answer::Dead)?,
    ])
}

const TURNS: &[u8] = b"tick 5 -> version 15\n\
      claim 1 7 -> task 3 backup-range until 99\n\
      extend 1 -> until 120\n\
      take 1 -> taken 4\n\
      place 1 -> loaded\n\
      close 1 -> closed 3\n\
      die 1 -> dead\n\
      op 12 wait -> going\n";

#[test]
fn agents_lines_and_a_command(rt: HostRuntime) -> Result<(), Fail> {
    let waits = CommandLine {
        command: CommandKind::Wait,
        answer: Answer::Going,
    };
    let mut out = Blob::new(rt.alloc());
    put_events(rt.alloc(), &mut out, &claims(rt.alloc())?)?;
    put_events(rt.alloc(), &mut out, &turns(rt.alloc())?)?;
    put_told(rt.alloc(), &mut out, 12, &waits)?;
    assert_eq!(rt; out.as_slice(), TURNS);
    Ok(())
}

// What a try was answered that was committed, with so many reads of a key without a value.
fn tried(alloc: Global, count: usize) -> Result<Answer, AllocError> {
    let mut reads = Seq::new(alloc);
    for _ in 0..count {
        reads.push(Found::One(None))?;
    }
    Ok(Answer::Outcome(Outcome {
        place: 1,
        attempt: 1,
        read: 0,
        end: End::Commit { version: 20, reads },
    }))
}

// Lines of clients: what stands in place, and what stands behind a pointer.
fn short_and_long(alloc: Global) -> Result<[EventLine; 3], AllocError> {
    let read = Answer::Read { version: 10 };
    Ok([
        answered(alloc, ScheduleLine::Begin { client: 1 }, read)?,
        answered(alloc, ScheduleLine::Commit { client: 1 }, tried(alloc, 0)?)?,
        answered(alloc, ScheduleLine::Commit { client: 2 }, tried(alloc, 1)?)?,
    ])
}

// A drain.
fn drained(alloc: Global, drained: Result<u64, DrainFault>) -> Result<EventLine, AllocError> {
    told(
        alloc,
        ScheduleLine::Drain,
        None,
        EventAnswer::Drain(drained),
    )
}

// Drains that ended with the script, with their turns, and with a step that was refused.
fn drains(alloc: Global) -> Result<[EventLine; 3], AllocError> {
    let spent = DrainFault::TurnsSpent { turns: 99 };
    let failed = DrainFault::Step(StepFault::VaultFault);
    Ok([
        drained(alloc, Ok(50))?,
        drained(alloc, Err(spent))?,
        drained(alloc, Err(failed))?,
    ])
}

const SHORT_AND_LONG: &[u8] = b"begin 1 -> read 10\n\
      commit 1 -> commit 20\n\
      commit 2 -> commit 20\n\
      drain -> steps 50\n\
      drain -> turns-spent 99\n\
      drain -> vault-fault\n";

#[test]
fn replies(rt: HostRuntime) -> Result<(), Fail> {
    let mut out = Blob::new(rt.alloc());
    put_events(rt.alloc(), &mut out, &short_and_long(rt.alloc())?)?;
    put_events(rt.alloc(), &mut out, &drains(rt.alloc())?)?;
    assert_eq!(rt; out.as_slice(), SHORT_AND_LONG);
    Ok(())
}

// The line of a dump that was refused.
fn refused(alloc: Global, refusal: Refusal) -> Result<EventLine, AllocError> {
    operated(alloc, CommandKind::Dump, Ok(Answer::Refused(refusal)))
}

// Dumps that are refused, each with a key or a version.
fn refusals(alloc: Global) -> Result<[EventLine; 4], AllocError> {
    let outside = Blob::from_slice(alloc, b"k v")?;
    let again = Blob::from_slice(alloc, b"m")?;
    let empty = Blob::new(alloc);
    Ok([
        refused(alloc, Refusal::OutsideRanges { key: outside })?,
        refused(alloc, Refusal::Overlap { key: again })?,
        refused(alloc, Refusal::NothingNew { version: 20 })?,
        refused(alloc, Refusal::Untiled { key: empty })?,
    ])
}

const REFUSALS: &[u8] = b"op dump -> refused outside-ranges k\\x20v\n\
      op dump -> refused overlap m\n\
      op dump -> refused nothing-new 20\n\
      op dump -> refused untiled \\e\n";

#[test]
fn refusals_with_keys(rt: HostRuntime) -> Result<(), Fail> {
    let events = refusals(rt.alloc())?;
    let mut out = Blob::new(rt.alloc());
    put_events(rt.alloc(), &mut out, &events)?;
    assert_eq!(rt; out.as_slice(), REFUSALS);
    Ok(())
}

// Each way in which a try is refused.
const FAULTS: &[CommitFault] = &[
    CommitFault::Outside { index: 0 },
    CommitFault::KeyTooLarge { index: 1 },
    CommitFault::ValueTooLarge { index: 2 },
    CommitFault::TooLarge { bytes: 10_000_001 },
    CommitFault::Locked { uid: 3 },
    CommitFault::TooOld { read: 0, oldest: 1 },
    CommitFault::NotCommitted { version: 10 },
    CommitFault::VersionsSpent { version: 7 },
    CommitFault::LogTooLarge {
        bytes: 4_294_967_296,
    },
    CommitFault::NoMemory,
];

#[test]
fn ends(rt: HostRuntime) -> Result<(), Fail> {
    let mut out = Blob::new(rt.alloc());
    let reads = Seq::new(rt.alloc());
    put_end(&mut out, &End::Commit { version: 20, reads })?;
    let reads = Seq::new(rt.alloc());
    put_end(&mut out, &End::ReadOnly { reads })?;
    for fault in FAULTS {
        put_end(&mut out, &End::Fault(*fault))?;
    }
    let text =
        b" commit 20\n readonly\n 2004 0\n 2102 1\n 2103 2\n 2101 10000001\n 1038 3\n 1007 0 1\n 1020 10\n versions-spent 7\n log-too-large 4294967296\n no-memory\n";
    assert_eq!(rt; out.as_slice(), text.as_slice());
    Ok(())
}

// Each author of an entry.
const WHOS: &[Who] = &[
    Who::Client {
        client: 2,
        place: 3,
    },
    Who::Load { job: 1 },
    Who::Apply { job: 1 },
    Who::Lock { job: 1 },
    Who::Unlock { job: 1 },
];

#[test]
fn authors_and_mutations(rt: HostRuntime) -> Result<(), Fail> {
    let mut out = Blob::new(rt.alloc());
    for who in WHOS {
        put_who(&mut out, *who)?;
    }
    let mutations = [
        Mutation::ClearRange {
            begin: Blob::new(rt.alloc()),
            end: Blob::from_slice(rt.alloc(), b"\xff")?,
        },
        Mutation::Atomic {
            op: Op::ByteMin,
            key: Blob::from_slice(rt.alloc(), b"k v")?,
            param: Blob::from_slice(rt.alloc(), b"\\")?,
        },
    ];
    put_mutations(rt.alloc(), &mut out, &mutations)?;
    let text =
        b" client 2 3\n load 1\n apply 1\n lock 1\n unlock 1\nclear \\e \\xff\nbytemin k\\x20v \\x5c\n";
    assert_eq!(rt; out.as_slice(), text.as_slice());
    Ok(())
}

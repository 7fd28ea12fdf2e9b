use super::*;
use std::alloc::{AllocError, Global};
use std::test::Fail;

// Every setting, line of a client, command and event. It stands in the document too.
const EXAMPLE: &str = r"# two clients, a backup by agents, and a hand job
block 256
pace 10
lease 500
rest 50
shard 3
span 1000
tries 5
agents 3
steps 100
death 3 7
stall 0 1 0

client 1 src
txn
get a
sget \e
scan a \xff 10
set a 1
clear b
clearrange c d
add n \x01
  client   2  dst
operator
open hand src box
dump hand \e \xff
cut hand
seal hand
backup b src other once a b
snapshot b
discontinue b
abort b
pause
resume
wait b
status b
expire other 5 4611686018427387904 safe
restore r dst box latest
dr d src a b c d
switch d
lag d
schedule
begin 1
commit 1
tick 4611686018427387904
claim 3 7
extend 0
take 1
place 1
close 1
die 1
op
drain";

const EVENTS: &[ScheduleLine] = &[
    ScheduleLine::Begin { client: 1 },
    ScheduleLine::Commit { client: 1 },
    ScheduleLine::Tick {
        n: 4_611_686_018_427_387_904,
    },
    ScheduleLine::Claim { agent: 3, pick: 7 },
    ScheduleLine::Extend { agent: 0 },
    ScheduleLine::Take { agent: 1 },
    ScheduleLine::Place { agent: 1 },
    ScheduleLine::Close { agent: 1 },
    ScheduleLine::Die { agent: 1 },
    ScheduleLine::Op,
    ScheduleLine::Drain,
];

const DEATHS: &[AgentDeath] = &[AgentDeath { agent: 3, turn: 7 }];

const STALLS: &[AgentStall] = &[AgentStall {
    agent: 0,
    turn: 1,
    turns: 0,
}];

#[test]
fn whole_text(rt: HostRuntime) -> Result<(), Fail> {
    let workload = read_workload(rt.alloc(), EXAMPLE.as_bytes(), false)?;
    assert_eq!(rt; workload.settings.block, 256);
    assert_eq!(rt; workload.settings.tries, 5);
    assert_eq!(rt; workload.settings.agents, 3);
    assert_eq!(rt; workload.settings.deaths.as_slice(), DEATHS);
    assert_eq!(rt; workload.settings.stalls.as_slice(), STALLS);
    assert_eq!(rt; workload.clients.len(), 2);
    assert_eq!(rt; workload.operator.len(), 17);
    assert_eq!(rt; workload.schedule.as_slice(), EVENTS);
    Ok(())
}

#[test]
fn empty_text_has_the_defaults(rt: HostRuntime) -> Result<(), Fail> {
    let workload = read_workload(rt.alloc(), b"", true)?;
    assert_eq!(rt; workload.settings.block, 1_048_576);
    assert_eq!(rt; workload.settings.pace, 1_000);
    assert_eq!(rt; workload.settings.agents, 2);
    assert_eq!(rt; workload.clients.len(), 0);
    Ok(())
}

// The line that is refused and its reason's word; line 999 where the text is read.
fn refused(alloc: Global, text: &[u8], run: bool) -> (u64, &'static str) {
    match read_workload(alloc, text, run) {
        Ok(_) => (999, "read"),
        Err(TextFault::Refused { line, kind }) => (line, kind.word()),
        Err(TextFault::NoMemory) => (999, "no memory"),
    }
}

// Texts, whether they are for a run, their first bad lines and the reasons.
const BAD_LINES: &[(&[u8], bool, u64, &str)] = &[
    (b"# \xff", false, 1, "byte"),
    (b"pace 10\n\t", false, 2, "byte"),
    (b"\n\nblocks 256 \\q", false, 3, "word"),
    (b"set a 1", false, 1, "place"),
    (b"schedule\nschedule", false, 2, "place"),
    (b"client 1 src\ntxn\nset a 1\nget \\q", false, 4, "place"),
    (b"client 99999999999999999999 src", false, 1, "place"),
    (b"schedule now", true, 1, "schedule"),
    (b"operator\nopen t src box a", false, 2, "count"),
    (b"pace 01 2", false, 1, "count"),
    (b"pace 01", false, 1, "number"),
    (b"death 70 x", false, 1, "number"),
    (b"agents 0", false, 1, "range"),
    (b"pace 123456789012345678901234567890", false, 1, "range"),
    (b"operator\nopen -t Src box \\x b", false, 2, "range"),
    (b"operator\nopen -t src box \\x b", false, 2, "name"),
    (b"client 1 src\ntxn\nscan b\\x a 1", false, 3, "key"),
    (
        b"block 256\noperator\ndump t aaaaaaaaaaaaaaaaaaaaaaaaa a",
        false,
        3,
        "long",
    ),
    (b"client 1 src\ntxn\nclearrange b a", false, 3, "backwards"),
    (b"operator\ndr t src \\xff \\xff\\xff", false, 2, "past"),
    (b"pace 10\npace 10", false, 2, "repeat"),
    (b"death 1 1\ndeath 1 2", false, 2, "repeat"),
    (b"death 3 1", false, 1, "nobody"),
    (b"client 1 src\nschedule\nbegin 2", false, 3, "nobody"),
];

#[test]
fn first_bad_lines(rt: HostRuntime) {
    for (text, run, line, kind) in BAD_LINES {
        let (at, word) = refused(rt.alloc(), text, *run);
        assert_eq!(rt; at, *line);
        assert_eq!(rt; word, *kind);
    }
}

// A line, so many times behind a first one.
fn repeated(alloc: Global, first: &str, line: &str, count: u64) -> Result<String, AllocError> {
    let mut text = String::from_str(alloc, first)?;
    for _ in 0..count {
        text.push_str(line)?;
    }
    Ok(text)
}

// Clients without transactions.
fn clients(alloc: Global, count: u64) -> Result<String, AllocError> {
    let mut text = String::new(alloc);
    for number in 0..count {
        let line = format!(in alloc; "client {} dst\n", number + 1)?;
        text.push_str(line.as_str())?;
    }
    Ok(text)
}

// A first line, a line behind it and how often: the most that may be, and one more. With them the
// first bad line and the reason, line 999 where the text is read. A million events alone would take
// long to try; that the first bad line is the one behind them says that they may stand.
const LIMITS: &[(&str, &str, u64, u64, &str)] = &[
    ("client 1 src\n", "txn\n", 100_000, 999, "read"),
    ("client 1 src\n", "txn\n", 100_001, 100_002, "many"),
    ("client 1 src\ntxn\n", "get a\n", 10_000, 999, "read"),
    ("client 1 src\ntxn\n", "get a\n", 10_001, 10_003, "many"),
    ("operator\n", "pause\n", 1_000, 999, "read"),
    ("operator\n", "pause\n", 1_001, 1_002, "many"),
    ("operator\ndr t src", " a b", 1_000, 999, "read"),
    ("operator\ndr t src", " a b", 1_001, 2, "many"),
    ("schedule\n", "op\n", 1_000_001, 1_000_002, "many"),
];

#[test]
fn limits(rt: HostRuntime) -> Result<(), Fail> {
    let alloc = rt.alloc();
    for (first, line, count, at, kind) in LIMITS {
        let text = repeated(alloc, first, line, *count)?;
        assert_eq!(rt; refused(alloc, text.as_bytes(), false), (*at, *kind));
    }
    let text = clients(alloc, 64)?;
    assert_eq!(rt; refused(alloc, text.as_bytes(), true).0, 999);
    let text = clients(alloc, 65)?;
    assert_eq!(rt; refused(alloc, text.as_bytes(), true), (65, "many"));
    Ok(())
}

fn crosses<T: Send + Sync>() {}

/// Threads may hand these on and share them.
#[test]
fn types_cross_threads() {
    crosses::<Workload>();
}

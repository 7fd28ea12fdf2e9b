//! Calls of the program over files in memory: each row is one file store and the calls over it.

mod clients;
mod damages;
mod expires;
mod replays;
mod restores;
mod words;

use crate::replay::Ended;
use crate::top::top;
use cluster_core::{OpenFault, Parts, StepFault, World};
use fb_bytes::{Blob, Text, is_same};
use fb_outside::{File, Files, MemSink, MemSource, MemVault};
use std::alloc::{AllocError, Global};
use std::test::Fail;

const RANGE: &str = "box/kvranges/snapshot.20/0/range,20,1,256";

const RANGE_FILE: &[u8] =
    b"\xe9\x03\x00\x00\x00\x00\x00\x00\x00\x00\x00\x01a\x00\x00\x00\x011\x00\x00\x00\x01\xff";

const LOG: &str = "box/logs/0/log,10,21,2,256";

const LOG_FILE: &[u8] =
    b"\xd1\x07\x00\x00\x00\x00\x00\x0c\x00\x00\x00\x00\x00\x00\x00\x14\x00\x00\x00\x00\x00\x00\x00\x1a\xbd\x1b\x00\x00\x00\x00\x00\x00\x0e\x00\x00\x00\x00\x00\x00\x00\x01\x00\x00\x00\x01\x00\x00\x00a1";

const SEALED: &str = "box/snapshots/snapshot,20,20,23,3";

const MANIFEST: &[u8] =
    b"{\"beginVersion\":20,\"endVersion\":20,\"files\":[\"kvranges/snapshot.20/0/range,20,1,256\"],\"format\":1,\"totalBytes\":23}";

// A name of a file, and its bytes; none where there is no such file.
type Change = (&'static str, Option<&'static [u8]>);

// The number of the call that fails at each end of the outside; 0 is none.
#[derive(Clone, Copy)]
struct Failing {
    source: u64,
    store: u64,
    sink: u64,
}

const NONE: Failing = Failing {
    source: 0,
    store: 0,
    sink: 0,
};

// A call: its words, the source's text, which calls of the outside fail, the status, and what is said.
type Call = (
    &'static [&'static str],
    &'static [u8],
    Failing,
    u8,
    &'static [u8],
);

// Changes of a store without files, calls one after another, and files that are left, or aren't.
type Case = (
    &'static [&'static [Change]],
    &'static [Call],
    &'static [Change],
);

const REPLAY: &[&str] = &["replay"];

fn change(alloc: Global, files: &mut Files, change: &Change) -> Result<(), AllocError> {
    let (name, bytes) = change;
    match bytes {
        Some(bytes) => {
            let name = Text::from_str(alloc, name)?;
            let bytes = Blob::from_slice(alloc, bytes)?;
            files.put(File { name, bytes })
        }
        None => {
            files.delete(name.as_bytes());
            Ok(())
        }
    }
}

fn changed(alloc: Global, lists: &[&[Change]]) -> Result<Files, AllocError> {
    let mut files = Files::new(alloc);
    for list in lists {
        for one in *list {
            change(alloc, &mut files, one)?;
        }
    }
    Ok(files)
}

fn words_of(alloc: Global, list: &[&str]) -> Result<Vec<Text>, AllocError> {
    let mut words = Vec::new(alloc);
    for word in list {
        words.push(Text::from_str(alloc, word)?)?;
    }
    Ok(words)
}

// The files that a call leaves, where it ends as it should.
fn left_by(alloc: Global, files: &Files, call: &Call) -> Result<Option<Files>, AllocError> {
    let (words, text, failing, status, said) = call;
    let words = words_of(alloc, words)?;
    let vault = MemVault::new(alloc, files, &[failing.store])?;
    let mut source = MemSource::new(alloc, text, &[failing.source])?;
    let mut sink = MemSink::new(alloc, 2000, &[failing.sink])?;
    let exit = top(alloc, &words, &mut source, vault, &mut sink);
    if exit.status != *status || !is_same(sink.written().as_slice(), said) {
        return Ok(None);
    }
    let left = exit.vault.files().copy()?;
    Ok(Some(left))
}

fn are_left(files: &Files, some: &[Change]) -> bool {
    for (name, bytes) in some {
        let found = files.get(name.as_bytes());
        let same = match (found, bytes) {
            (Some(found), Some(bytes)) => is_same(found.as_slice(), bytes),
            (found, bytes) => found.is_none() && bytes.is_none(),
        };
        if !same {
            return false;
        }
    }
    true
}

fn goes(alloc: Global, case: &Case) -> Result<bool, AllocError> {
    let (changes, calls, left) = case;
    let mut files = changed(alloc, changes)?;
    for call in *calls {
        match left_by(alloc, &files, call)? {
            Some(after) => files = after,
            None => return Ok(false),
        }
    }
    Ok(are_left(&files, left))
}

// How many cases at the front go as they should.
fn good(alloc: Global, cases: &[Case]) -> Result<usize, AllocError> {
    for (place, case) in cases.iter().enumerate() {
        if !goes(alloc, case)? {
            return Ok(place);
        }
    }
    Ok(cases.len())
}

#[test]
fn each_text_is_played_as_its_row_says(rt: HostRuntime) -> Result<(), Fail> {
    assert_eq!(rt; good(rt.alloc(), replays::JOBS)?, replays::JOBS.len());
    assert_eq!(rt;
        good(rt.alloc(), replays::FAILING_CALLS)?,
        replays::FAILING_CALLS.len()
    );
    assert_eq!(rt; good(rt.alloc(), replays::REFUSED)?, replays::REFUSED.len());
    assert_eq!(rt; good(rt.alloc(), replays::AGENTS)?, replays::AGENTS.len());
    assert_eq!(rt; good(rt.alloc(), replays::ENDINGS)?, replays::ENDINGS.len());
    assert_eq!(rt; good(rt.alloc(), clients::CLIENTS)?, clients::CLIENTS.len());
    Ok(())
}

#[test]
fn each_container_is_read_as_its_row_says(rt: HostRuntime) -> Result<(), Fail> {
    assert_eq!(rt;
        good(rt.alloc(), restores::RESTORES)?,
        restores::RESTORES.len()
    );
    assert_eq!(rt; good(rt.alloc(), damages::DAMAGES)?, damages::DAMAGES.len());
    assert_eq!(rt;
        good(rt.alloc(), restores::CHANGES)?,
        restores::CHANGES.len()
    );
    assert_eq!(rt;
        good(rt.alloc(), restores::DESCRIPTIONS)?,
        restores::DESCRIPTIONS.len()
    );
    assert_eq!(rt;
        good(rt.alloc(), restores::STORE_FAULTS)?,
        restores::STORE_FAULTS.len()
    );
    Ok(())
}

#[test]
fn each_container_is_expired_as_its_row_says(rt: HostRuntime) -> Result<(), Fail> {
    assert_eq!(rt; good(rt.alloc(), expires::EXPIRES)?, expires::EXPIRES.len());
    Ok(())
}

#[test]
fn each_list_of_words_is_answered_as_its_row_says(rt: HostRuntime) -> Result<(), Fail> {
    assert_eq!(rt; good(rt.alloc(), words::MISUSED)?, words::MISUSED.len());
    assert_eq!(rt; good(rt.alloc(), words::LATER)?, words::LATER.len());
    assert_eq!(rt; good(rt.alloc(), words::BRIEF)?, words::BRIEF.len());
    assert_eq!(rt; good(rt.alloc(), words::LISTS)?, words::LISTS.len());
    Ok(())
}

fn crosses<T: Send + Sync>() {}

/// Threads may hand on and share the world, with its clients, jobs and databases, and what a call
/// gives.
#[test]
fn types_cross_threads() {
    crosses::<World<MemVault>>();
    crosses::<OpenFault<MemVault>>();
    crosses::<Parts<MemVault>>();
    crosses::<StepFault>();
    crosses::<Ended<MemVault>>();
}

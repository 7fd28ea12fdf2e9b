use super::*;
use fb_bytes::{Blob, Names, Text};
use fb_outside::{File, Files, MemVault};
use std::alloc::{AllocError, Global};
use std::test::Fail;

fn names(alloc: Global, list: &[&str]) -> Result<Names, AllocError> {
    let mut names = Names::new(alloc);
    for name in list {
        names.push(Text::from_str(alloc, name)?)?;
    }
    Ok(names)
}

/// Logs that overlap, of which two end alike.
const FILES: [&str; 4] = [
    "logs/0/log,10,21,2,256",
    "logs/0/log,15,31,4,256",
    "logs/0/log,18,31,5,256",
    "logs/0/log,40,51,7,256",
];

/// How many links the chain of a span has, where there is one.
fn links_of(alloc: Global, names: &Names, from: u64, to: u64) -> Result<Option<usize>, AllocError> {
    match chain(alloc, names, from, to)? {
        Some(links) => Ok(Some(links.len())),
        None => Ok(None),
    }
}

/// Spans, and how many links their chain has.
const CHAINS: &[(u64, u64, Option<usize>)] = &[
    (10, 21, Some(1)),
    (10, 31, Some(2)),
    (20, 31, Some(1)),
    (12, 12, Some(0)),
    (40, 45, Some(1)),
    (10, 32, None),
    (9, 21, None),
];

#[test]
fn a_chain_takes_the_log_with_the_greatest_end(rt: HostRuntime) -> Result<(), Fail> {
    let names = names(rt.alloc(), &FILES)?;
    for (from, to, wanted) in CHAINS {
        assert_eq!(rt; links_of(rt.alloc(), &names, *from, *to)?, *wanted);
    }
    Ok(())
}

/// In byte order `box-x/..` stands before `box/..`. The last one stands in no folder.
const STORED: &[&str] = &["a.b/x", "box-x/x", "box/logs/x", "box/x", "root"];

const CONTAINERS: &[&str] = &["a.b", "box", "box-x"];

fn store(alloc: Global) -> Result<MemVault, AllocError> {
    let mut files = Files::new(alloc);
    for name in STORED {
        let name = Text::from_str(alloc, name)?;
        let bytes = Blob::new(alloc);
        files.put(File { name, bytes })?;
    }
    MemVault::new(alloc, &files, &[])
}

#[test]
fn containers_stand_in_byte_order_each_once(rt: HostRuntime) -> Result<(), Fail> {
    let mut vault = store(rt.alloc())?;
    let wanted = names(rt.alloc(), CONTAINERS)?;
    let found = containers(rt.alloc(), &mut vault).map_err(|_| AllocError)?;
    assert_eq!(rt; found.as_slice(), wanted.as_slice());
    Ok(())
}

//! Each row is a store's files and an expire over them.

use crate::{ExpireFault, expire};
use container_view::ViewFault;
use fb_bytes::{Blob, Text, is_same};
use fb_outside::{File, Files, MemVault};
use std::alloc::{AllocError, Global};
use std::test::Fail;

/// A file's name in the store, and its bytes.
type Stored = (&'static str, &'static str);

/// What an expire answers.
#[derive(Clone, Copy)]
enum Told {
    Deleted(u64),
    NoContainer,
    Damaged(&'static str),
    Short(u64, Option<u64>),
    StoreFault,
}

/// The files, the container, the cutoff, the wanted version, whether it is forced, the call that
/// fails (0 is none), the answer, and the files that are left.
type Row = (
    &'static [Stored],
    &'static str,
    u64,
    u64,
    bool,
    u64,
    Told,
    &'static [Stored],
);

/// One snapshot at 20, and a log up to it.
const ONE: &[Stored] = &[
    ("box/kvranges/snapshot.20/0/range,20,1,256", ""),
    ("box/logs/0/log,10,21,2,256", ""),
    ("box/snapshots/snapshot,20,20,23,3", ""),
];

const ONE_AT_20: &[Stored] = &[
    ("box/kvranges/snapshot.20/0/range,20,1,256", ""),
    ("box/logs/0/log,10,21,2,256", ""),
    ("box/properties/expired_end", "20"),
    ("box/properties/unreliable_end", "20"),
    ("box/snapshots/snapshot,20,20,23,3", ""),
];

const BOTH_AT_21: &[Stored] = &[
    ("box/properties/expired_end", "21"),
    ("box/properties/unreliable_end", "21"),
];

/// Three snapshots, of an earlier run that expired the container up to 15, and a file of another
/// kind.
const TWO: &[Stored] = &[
    ("box-x/logs/0/log,10,21,2,256", ""),
    ("box/kvranges/snapshot.20/0/range,20,1,256", ""),
    ("box/kvranges/snapshot.40/0/range,40,4,256", ""),
    ("box/logs/0/log,10,21,2,256", ""),
    ("box/logs/0/log,21,40,5,256", ""),
    ("box/logs/0/log,40,61,6,256", ""),
    ("box/notes", ""),
    ("box/properties/expired_end", "15"),
    ("box/properties/unreliable_end", "15"),
    ("box/snapshots/snapshot,20,20,23,3", ""),
    ("box/snapshots/snapshot,20,40,23,8", ""),
    ("box/snapshots/snapshot,40,40,23,7", ""),
];

const TWO_AT_40: &[Stored] = &[
    ("box-x/logs/0/log,10,21,2,256", ""),
    ("box/kvranges/snapshot.40/0/range,40,4,256", ""),
    ("box/logs/0/log,40,61,6,256", ""),
    ("box/notes", ""),
    ("box/properties/expired_end", "40"),
    ("box/properties/unreliable_end", "40"),
    ("box/snapshots/snapshot,20,40,23,8", ""),
    ("box/snapshots/snapshot,40,40,23,7", ""),
];

/// The raise was made, and then no more.
const TWO_RAISED: &[Stored] = &[
    ("box-x/logs/0/log,10,21,2,256", ""),
    ("box/kvranges/snapshot.20/0/range,20,1,256", ""),
    ("box/kvranges/snapshot.40/0/range,40,4,256", ""),
    ("box/logs/0/log,10,21,2,256", ""),
    ("box/logs/0/log,21,40,5,256", ""),
    ("box/logs/0/log,40,61,6,256", ""),
    ("box/notes", ""),
    ("box/properties/expired_end", "15"),
    ("box/properties/unreliable_end", "40"),
    ("box/snapshots/snapshot,20,20,23,3", ""),
    ("box/snapshots/snapshot,20,40,23,8", ""),
    ("box/snapshots/snapshot,40,40,23,7", ""),
];

/// All but the expired end was done.
const TWO_DELETED: &[Stored] = &[
    ("box-x/logs/0/log,10,21,2,256", ""),
    ("box/kvranges/snapshot.40/0/range,40,4,256", ""),
    ("box/logs/0/log,40,61,6,256", ""),
    ("box/notes", ""),
    ("box/properties/expired_end", "15"),
    ("box/properties/unreliable_end", "40"),
    ("box/snapshots/snapshot,20,40,23,8", ""),
    ("box/snapshots/snapshot,40,40,23,7", ""),
];

/// The properties are ahead of the cutoff already.
const AHEAD: &[Stored] = &[
    ("box/kvranges/snapshot.20/0/range,20,1,256", ""),
    ("box/properties/expired_end", "33"),
    ("box/properties/unreliable_end", "50"),
];

const STILL_AHEAD: &[Stored] = &[
    ("box/properties/expired_end", "33"),
    ("box/properties/unreliable_end", "50"),
];

const BAD_END: &[Stored] = &[
    ("box/properties/expired_end", "x"),
    ("box/properties/unreliable_end", "07"),
];

const BAD_EXPIRED: &[Stored] = &[("box/properties/expired_end", "x")];

const UNRELIABLE: &str = "properties/unreliable_end";

const EXPIRED: &str = "properties/expired_end";

const ROWS: &[Row] = &[
    (ONE, "box", 20, 20, false, 0, Told::Deleted(0), ONE_AT_20),
    (ONE, "box", 21, 21, false, 0, Told::Short(21, None), ONE),
    (ONE, "box", 21, 20, false, 0, Told::Short(20, None), ONE),
    (ONE, "box", 20, 21, false, 0, Told::Short(21, Some(20)), ONE),
    (ONE, "box", 21, 21, true, 0, Told::Deleted(3), BOTH_AT_21),
    (ONE, "none", 21, 21, true, 0, Told::NoContainer, ONE),
    (ONE, "bo", 21, 21, true, 0, Told::NoContainer, ONE),
    (
        BAD_END,
        "box",
        1,
        1,
        true,
        0,
        Told::Damaged(UNRELIABLE),
        BAD_END,
    ),
    (
        BAD_EXPIRED,
        "box",
        1,
        1,
        true,
        0,
        Told::Damaged(EXPIRED),
        BAD_EXPIRED,
    ),
    (TWO, "box", 40, 60, false, 0, Told::Deleted(4), TWO_AT_40),
    (TWO, "box", 40, 61, false, 0, Told::Short(61, Some(60)), TWO),
    (AHEAD, "box", 30, 30, true, 0, Told::Deleted(1), STILL_AHEAD),
    (TWO, "box", 40, 40, false, 1, Told::StoreFault, TWO),
    (TWO, "box", 40, 40, false, 3, Told::StoreFault, TWO),
    (TWO, "box", 40, 40, false, 4, Told::StoreFault, TWO),
    (TWO, "box", 40, 40, false, 5, Told::StoreFault, TWO_RAISED),
    (TWO, "box", 40, 40, false, 9, Told::StoreFault, TWO_DELETED),
    (
        TWO_RAISED,
        "box",
        40,
        40,
        false,
        0,
        Told::Deleted(4),
        TWO_AT_40,
    ),
    (
        TWO_DELETED,
        "box",
        40,
        40,
        false,
        0,
        Told::Deleted(0),
        TWO_AT_40,
    ),
];

fn files_of(alloc: Global, list: &[Stored]) -> Result<Files, AllocError> {
    let mut files = Files::new(alloc);
    for (name, text) in list {
        let name = Text::from_str(alloc, name)?;
        let bytes = Blob::from_slice(alloc, text.as_bytes())?;
        files.put(File { name, bytes })?;
    }
    Ok(files)
}

fn are_files(files: &Files, list: &[Stored]) -> bool {
    for (name, text) in list {
        let same = match files.get(name.as_bytes()) {
            Some(bytes) => is_same(bytes.as_slice(), text.as_bytes()),
            None => false,
        };
        if !same {
            return false;
        }
    }
    files.len() == list.len()
}

fn is_told(answer: &Result<u64, ExpireFault>, told: Told) -> bool {
    match (answer, told) {
        (Ok(deleted), Told::Deleted(wanted)) => *deleted == wanted,
        (Err(ExpireFault::CannotExpire { wanted, left }), Told::Short(version, most)) => {
            *wanted == version && *left == most
        }
        (Err(ExpireFault::View { fault }), told) => is_view(fault, told),
        _ => false,
    }
}

fn is_view(fault: &ViewFault, told: Told) -> bool {
    match (fault, told) {
        (ViewFault::NoContainer, Told::NoContainer) => true,
        (ViewFault::Damaged { name, .. }, Told::Damaged(wanted)) => {
            is_same(name.as_bytes(), wanted.as_bytes())
        }
        (ViewFault::VaultFault, Told::StoreFault) => true,
        _ => false,
    }
}

fn goes(alloc: Global, row: &Row) -> Result<bool, AllocError> {
    let (files, container, cutoff, wanted, force, failing, told, left) = row;
    let files = files_of(alloc, files)?;
    let container = Text::from_str(alloc, container)?;
    let mut vault = MemVault::new(alloc, &files, &[*failing])?;
    let answer = expire(alloc, &mut vault, &container, *cutoff, *wanted, *force);
    Ok(is_told(&answer, *told) && are_files(vault.files(), left))
}

/// How many rows at the front go as they should.
fn good(alloc: Global, rows: &[Row]) -> Result<usize, AllocError> {
    for (place, row) in rows.iter().enumerate() {
        if !goes(alloc, row)? {
            return Ok(place);
        }
    }
    Ok(rows.len())
}

#[test]
fn each_expire_goes_as_its_row_says(rt: HostRuntime) -> Result<(), Fail> {
    assert_eq!(rt; good(rt.alloc(), ROWS)?, ROWS.len());
    Ok(())
}

/// The calls of an expire of `TWO`: a list, two properties, two puts, four deletions.
const CALLS: u64 = 9;

/// An expire in which one call fails, and another one after it.
fn goes_on(alloc: Global, failing: u64) -> Result<bool, AllocError> {
    let files = files_of(alloc, TWO)?;
    let container = Text::from_str(alloc, "box")?;
    let mut vault = MemVault::new(alloc, &files, &[failing])?;
    let answer = expire(alloc, &mut vault, &container, 40, 40, false);
    if !is_told(&answer, Told::StoreFault) {
        return Ok(false);
    }
    let again = expire(alloc, &mut vault, &container, 40, 40, false);
    Ok(again.is_ok() && are_files(vault.files(), TWO_AT_40))
}

fn go_on(alloc: Global) -> Result<bool, AllocError> {
    for failing in 1..=CALLS {
        if !goes_on(alloc, failing)? {
            return Ok(false);
        }
    }
    Ok(true)
}

#[test]
fn an_expire_that_was_stopped_anywhere_goes_on(rt: HostRuntime) -> Result<(), Fail> {
    assert!(rt; go_on(rt.alloc())?);
    Ok(())
}

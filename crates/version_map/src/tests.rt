use crate::VersionMap;
use fb_bytes::{Blob, KeyRange};
use std::alloc::{AllocError, Global};
use std::test::Fail;

fn range(alloc: Global, begin: &[u8], end: &[u8]) -> Result<KeyRange, AllocError> {
    Ok(KeyRange {
        begin: Blob::from_slice(alloc, begin)?,
        end: Blob::from_slice(alloc, end)?,
    })
}

/// The version 10 on `a` to `t` in two sets, and 20 on `c` to `d`. The last set has no keys.
fn four_sets(alloc: Global) -> Result<VersionMap, AllocError> {
    let mut map = VersionMap::new(alloc);
    map.set(&range(alloc, b"a", b"m")?, 10)?;
    map.set(&range(alloc, b"m", b"t")?, 10)?;
    map.set(&range(alloc, b"c", b"d")?, 20)?;
    map.set(&range(alloc, b"x", b"b")?, 30)?;
    Ok(map)
}

/// The version at each of some keys.
const AT: &[(&[u8], Option<u64>)] = &[
    (b"a", Some(10)),
    (b"b", Some(10)),
    (b"c", Some(20)),
    (b"d", Some(10)),
    (b"m", Some(10)),
    (b"t", None),
    (b"A", None),
];

/// The pieces from `b` to `z`.
const PIECES: &[(&[u8], &[u8], Option<u64>)] = &[
    (b"b", b"c", Some(10)),
    (b"c", b"d", Some(20)),
    (b"d", b"m", Some(10)),
    (b"m", b"t", Some(10)),
    (b"t", b"z", None),
];

#[test]
fn the_last_set_stands_in_pieces(rt: HostRuntime) -> Result<(), Fail> {
    let map = four_sets(rt.alloc())?;
    for (key, version) in AT {
        assert_eq!(rt; map.at(key), *version);
    }
    let parts = map.pieces(&range(rt.alloc(), b"b", b"z")?)?;
    assert_eq!(rt; parts.len(), PIECES.len());
    for (part, (begin, end, version)) in parts.as_slice().iter().zip(PIECES) {
        assert!(rt; part.range.begin.as_slice() == *begin);
        assert!(rt; part.range.end.as_slice() == *end);
        assert_eq!(rt; part.version, *version);
    }
    Ok(())
}

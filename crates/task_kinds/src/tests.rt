use super::*;
use fb_bytes::{Blob, KeyRange};
use std::test::*;
use tuple_keys::pack;

/// The task that dumps all of a user's keys.
fn piece(rt: &HostRuntime) -> Result<Task, Fail> {
    let range = KeyRange {
        begin: Blob::new(rt.alloc()),
        end: Blob::from_slice(rt.alloc(), &[0xff])?,
    };
    let params = Params::Piece {
        snapshot: 10,
        range,
        future: 1,
        block: 1,
    };
    Ok(Task::new(1, Kind::BackupRange, params))
}

#[test]
fn a_piece_as_bytes(rt: HostRuntime) -> Result<(), Fail> {
    let task = piece(&rt)?;
    let tuple = to_tuple(rt.alloc(), &task)?;
    let bytes = pack(rt.alloc(), &tuple)?;
    assert_eq!(rt;
        bytes.as_slice(),
        b"\x15\x03\x15\x01\x15\x0a\x01\x00\x01\xff\x00\x15\x01\x15\x01".as_slice()
    );
    Ok(())
}

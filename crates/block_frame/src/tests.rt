use super::*;
use std::test::Fail;

/// Three items in blocks of 12 bytes with the format 7.
const BLOCKS: &[u8] = &[
    7, 0, 0, 0, 1, 2, 3, 4, 5, 6, 0xff, 0xff, 7, 0, 0, 0, 6, 8, 9, 10,
];

#[test]
fn items_in_blocks(rt: HostRuntime) -> Result<(), Fail> {
    let mut frames = FrameWriter::<12, 7>::new(rt.alloc());
    frames.item(&[1, 2, 3, 4], &[])?;
    frames.item(&[5, 6], &[4])?;
    frames.item(&[8, 9, 10], &[6])?;
    let text = frames.finish();
    assert_eq!(rt; text.as_slice(), BLOCKS);
    let last = block_at(text.as_slice(), 12, 1).ok_or("two blocks")?;
    assert_eq!(rt; last, [7, 0, 0, 0, 6, 8, 9, 10].as_slice());
    assert!(rt; block_at(text.as_slice(), 12, 2).is_none());
    Ok(())
}

fn crosses<T: Send + Sync>() {}

/// Threads may hand these on and share them.
#[test]
fn types_cross_threads() {
    crosses::<Profile>();
    crosses::<FrameWriter<256, 1001>>();
}

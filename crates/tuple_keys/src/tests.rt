use super::*;
use fb_bytes::{Blob, Text};
use std::test::*;

/// Integers, and the bytes that they are packed as.
const NUMBERS: &[(i32, &[u8])] = &[
    (0, &[0x14]),
    (255, &[0x15, 0xff]),
    (256, &[0x16, 0x01, 0x00]),
    (-1, &[0x13, 0xfe]),
    (-256, &[0x12, 0xfe, 0xff]),
];

fn int(rt: &HostRuntime, number: i32) -> Result<Blob, Fail> {
    let mut tuple = Tuple::new(rt.alloc());
    tuple.push(Element::Int(i128::from(number)))?;
    Ok(pack(rt.alloc(), &tuple)?)
}

#[test]
fn integers_as_bytes(rt: HostRuntime) -> Result<(), Fail> {
    for (number, bytes) in NUMBERS {
        let packed = int(&rt, *number)?;
        assert_eq!(rt; packed.as_slice(), *bytes);
    }
    Ok(())
}

/// A text, bytes with a zero, and nothing.
fn three(rt: &HostRuntime) -> Result<Tuple, Fail> {
    let mut tuple = Tuple::new(rt.alloc());
    tuple.push(Element::Text(Text::from_str(rt.alloc(), "a")?))?;
    tuple.push(Element::Bytes(Blob::from_slice(rt.alloc(), &[0x61, 0])?))?;
    tuple.push(Element::Null)?;
    Ok(tuple)
}

#[test]
fn text_and_bytes_with_a_zero(rt: HostRuntime) -> Result<(), Fail> {
    let tuple = three(&rt)?;
    let space = Subspace {
        prefix: Blob::from_slice(rt.alloc(), &[0xff])?,
    };
    let key = space.key(rt.alloc(), &tuple)?;
    assert_eq!(rt;
        key.as_slice(),
        [0xff, 0x02, 0x61, 0, 0x01, 0x61, 0, 0xff, 0, 0].as_slice()
    );
    Ok(())
}

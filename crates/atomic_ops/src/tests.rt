use crate::{Op, apply};
use std::test::Fail;

type Row = (
    Op,
    Option<&'static [u8]>,
    &'static [u8],
    Option<&'static [u8]>,
);

/// What each operation leaves of a value with its parameter, at a limit of 4 bytes.
const ROWS: &[Row] = &[
    (Op::Add, Some(b"\xff"), b"\x01", Some(b"\x00")),
    (Op::Add, Some(b"\xff\x00"), b"\x01\x00", Some(b"\x00\x01")),
    (Op::Add, None, b"\x01\x00", Some(b"\x01\x00")),
    (Op::Add, Some(b"\x05"), b"", Some(b"")),
    (Op::And, Some(b"\x0f\x0f"), b"\xff", Some(b"\x0f")),
    (Op::And, None, b"\xff", Some(b"\x00")),
    (Op::AndV2, None, b"\xff", Some(b"\xff")),
    (Op::AndV2, Some(b"\x3c"), b"\x0f\xff", Some(b"\x0c\x00")),
    (Op::Or, Some(b"\x30"), b"\x0f\x01", Some(b"\x3f\x01")),
    (Op::Xor, Some(b"\xff"), b"\x0f", Some(b"\xf0")),
    (Op::Max, Some(b"\x05"), b"\x03\x00", Some(b"\x05\x00")),
    (Op::Max, Some(b"\x02\x01"), b"\x01\x02", Some(b"\x01\x02")),
    (Op::Min, None, b"\x03", Some(b"\x00")),
    (Op::MinV2, None, b"\x03", Some(b"\x03")),
    (Op::MinV2, Some(b"\x02\x01"), b"\x01\x02", Some(b"\x02\x01")),
    (Op::ByteMin, None, b"b", Some(b"b")),
    (
        Op::ByteMin,
        Some(b"\x02\x01"),
        b"\x01\x02",
        Some(b"\x01\x02"),
    ),
    (Op::ByteMax, Some(b"ab"), b"b", Some(b"b")),
    (Op::AppendIfFits, None, b"", Some(b"")),
    (Op::AppendIfFits, None, b"01234", Some(b"")),
    (Op::AppendIfFits, Some(b"01"), b"23", Some(b"0123")),
    (Op::CompareAndClear, Some(b"\x31"), b"\x31", None),
    (Op::CompareAndClear, None, b"\x31", None),
    (Op::CompareAndClear, Some(b"\x31"), b"\x32", Some(b"\x31")),
];

#[test]
fn each_operation_leaves(rt: HostRuntime) -> Result<(), Fail> {
    for (op, old, param, left) in ROWS {
        let found = apply(rt.alloc(), *op, *old, param, 4)?;
        assert!(rt;
            found.as_ref().map(|bytes| bytes.as_slice()) == *left,
            "{op:?} {old:?} {param:?}"
        );
    }
    Ok(())
}

/// The code and the word of each operation.
const WORDS: &[(u32, &str)] = &[
    (2, "add"),
    (6, "and"),
    (7, "or"),
    (8, "xor"),
    (9, "append"),
    (12, "max"),
    (13, "min"),
    (16, "bytemin"),
    (17, "bytemax"),
    (18, "minv2"),
    (19, "andv2"),
    (20, "cac"),
];

#[test]
fn a_code_and_a_word_give_their_operation(rt: HostRuntime) {
    for (code, word) in WORDS {
        let op = Op::from_code(*code).expect(&rt, word);
        assert_eq!(rt; op.code(), *code);
        assert!(rt; op.word() == *word);
        assert!(rt; Op::from_word(word.as_bytes()) == Some(op));
    }
}

fn crosses<T: Send + Sync>() {}

/// Threads may hand these on and share them.
#[test]
fn types_cross_threads() {
    crosses::<Op>();
}

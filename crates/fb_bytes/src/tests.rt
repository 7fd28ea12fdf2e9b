use crate::{Blob, Names, Pairs, Ranges, SharedSeq, print_bytes, read_bytes};
use std::test::Fail;

fn crosses<T: Send + Sync>() {}

/// Threads may hand these on and share them.
#[test]
fn types_cross_threads() {
    crosses::<Ranges>();
    crosses::<Pairs>();
    crosses::<Names>();
    crosses::<SharedSeq<Blob>>();
}

/// Bytes and their text form.
const FORMS: &[(&[u8], &str)] = &[
    (b"a~", "a~"),
    (b"\x00\\\xff", "\\x00\\x5c\\xff"),
    (b"", "\\e"),
];

#[test]
fn bytes_are_printed_and_read(rt: HostRuntime) -> Result<(), Fail> {
    for (bytes, word) in FORMS {
        let printed = print_bytes(rt.alloc(), bytes)?;
        assert_eq!(rt; printed.as_str(), *word);
        let read = read_bytes(rt.alloc(), word.as_bytes())?;
        assert_eq!(rt; read.as_slice(), *bytes);
    }
    Ok(())
}

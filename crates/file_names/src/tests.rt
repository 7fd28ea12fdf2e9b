use super::*;

/// A name of each form, and what it says.
const NAMES: &[(&[u8], Name)] = &[
    (
        b"kvranges/snapshot.20/0/range,20,1,256",
        Name::Range {
            snapshot: 20,
            version: 20,
            ticket: 1,
            block: 256,
        },
    ),
    (
        b"logs/0/log,10,21,2,256",
        Name::Log {
            begin: 10,
            end: 21,
            ticket: 2,
            block: 256,
        },
    ),
    (
        b"snapshots/snapshot,20,20,23,3",
        Name::Manifest {
            begin: 20,
            end: 20,
            bytes: 23,
            ticket: 3,
        },
    ),
    (b"properties/unreliable_end", Name::Unreliable),
    (b"properties/expired_end", Name::Expired),
];

#[test]
fn names_of_every_form(rt: HostRuntime) {
    for (text, name) in NAMES {
        assert_eq!(rt; parse(text), *name);
    }
}

fn crosses<T: Send + Sync>() {}

/// Threads may hand these on and share them.
#[test]
fn types_cross_threads() {
    crosses::<Name>();
}

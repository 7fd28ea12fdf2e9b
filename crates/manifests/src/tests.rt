use super::*;
use file_names::parse;
use std::test::Fail;

/// The manifest of one range file.
const SMALLEST: &str =
    r#"{"beginVersion":20,"endVersion":20,"files":["kvranges/snapshot.20/0/range,20,1,256"],"format":1,"totalBytes":23}"#;

#[test]
fn smallest_manifest(rt: HostRuntime) -> Result<(), Fail> {
    let alloc = rt.alloc();
    let name = parse(b"snapshots/snapshot,20,20,23,3");
    let manifest = read(alloc, SMALLEST.as_bytes(), &name)?;
    assert_eq!(rt;
        (manifest.begin, manifest.end, manifest.bytes),
        (20, 20, 23)
    );
    let [file] = manifest.files.as_slice() else {
        return Err("one file".into());
    };
    assert_eq!(rt; file.as_str(), "kvranges/snapshot.20/0/range,20,1,256");
    let text = write(alloc, &manifest)?;
    assert_eq!(rt; text.as_slice(), SMALLEST.as_bytes());
    Ok(())
}

/// Bytes that are no manifest, and why.
const FAULTS: &[(&[u8], ManifestFault)] = &[
    (b"\xff", ManifestFault::Json),
    (b"{", ManifestFault::Json),
    (
        b"{}",
        ManifestFault::Field {
            name: Field::BeginVersion,
        },
    ),
    (
        br#"{"beginVersion":20,"endVersion":20.0}"#,
        ManifestFault::Field {
            name: Field::EndVersion,
        },
    ),
    (
        br#"{"beginVersion":20,"endVersion":20,"files":[1]}"#,
        ManifestFault::Field { name: Field::Files },
    ),
    (
        br#"{"beginVersion":20,"endVersion":20,"files":[],"format":1,"format":2}"#,
        ManifestFault::Field {
            name: Field::Format,
        },
    ),
    (
        br#"{"beginVersion":20,"endVersion":20,"files":[],"format":1}"#,
        ManifestFault::Field {
            name: Field::TotalBytes,
        },
    ),
    (
        br#"{"beginVersion":20,"endVersion":20,"files":["a"],"format":1,"totalBytes":23}"#,
        ManifestFault::Order { at: 0 },
    ),
    (
        br#"{"beginVersion":20,"endVersion":20,"files":[],"format":2,"format":1,"totalBytes":23}"#,
        ManifestFault::Versions,
    ),
];

/// Of a field that stands twice the last one counts.
#[test]
fn faults(rt: HostRuntime) {
    let name = parse(b"snapshots/snapshot,20,20,23,3");
    for (text, fault) in FAULTS {
        assert_eq!(rt; read(rt.alloc(), text, &name).err(), Some(*fault));
    }
}

fn crosses<T: Send + Sync>() {}

/// Threads may hand these on and share them.
#[test]
fn types_cross_threads() {
    crosses::<Manifest>();
    crosses::<ManifestFault>();
}

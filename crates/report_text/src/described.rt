//! The lines of a description.

ghost use Rattle.std.specs.Prelude.{◌≡◌, ◌≤◌, [], ◌∷◌, ◌++◌, length, OnOk};
ghost use Rattle.std.specs.List.{flat_map};
ghost use Rattle.report_text.specs.Descriptions as spec;

use crate::Described;
use crate::tail::Tail;
use crate::words::{put, put_number};
use container_view::{Description, Snapshot};
use fb_bytes::{Blob, Text};
use std::alloc::AllocError;

/// The container, its snapshots, how far its logs go, what it advertises, and its properties.
pub fn put_described(out: &mut Blob, told: &Described) -> Result<(), AllocError>
    ensures { OnOk result (out.new ≡ out.old ++ spec.described_text told.now) }
{
    put_container(out, &told.container)?;
    put_snapshots(out, told.description.snapshots.as_slice())?;
    put_numbers(out, &told.description)
}

/// The line of a container.
pub fn put_container(out: &mut Blob, name: &Text) -> Result<(), AllocError>
    ensures { OnOk result (out.new ≡ out.old ++ spec.container_line name.now) }
{
    put(out, b"container ")?;
    put(out, name.as_bytes())?;
    put(out, b"\n")
}

fn put_snapshots(out: &mut Blob, snapshots: &[Snapshot]) -> Result<(), AllocError>
    ensures { OnOk result (out.new ≡ out.old ++ flat_map spec.snapshot_line snapshots.now) }
{
    for snapshot in snapshots {
        put_snapshot(out, snapshot)?;
    }
    Ok(())
}

fn put_snapshot(out: &mut Blob, snapshot: &Snapshot) -> Result<(), AllocError>
    ensures { OnOk result (out.new ≡ out.old ++ spec.snapshot_line snapshot.now) }
{
    let mut tail = end_of_number(snapshot.greatest);
    tail.text(b" ");
    tail.number(snapshot.bytes);
    tail.text(b" ");
    tail.number(snapshot.end);
    tail.text(b" ");
    tail.number(snapshot.begin);
    tail.text(b"snapshot ");
    put(out, tail.as_slice())
}

fn put_numbers(out: &mut Blob, description: &Description) -> Result<(), AllocError>
    ensures { OnOk result (out.new ≡ out.old ++ spec.number_lines description.now) }
{
    put_logs(out, description)?;
    put_restorable(out, description)?;
    put_properties(out, description)
}

fn put_logs(out: &mut Blob, description: &Description) -> Result<(), AllocError>
    ensures { OnOk result (out.new ≡ out.old ++ spec.log_lines description.now) }
{
    put_line(out, b"MinLogBeginVersion", description.log_begin)?;
    put_line(out, b"ContiguousLogEndVersion", description.log_contiguous)?;
    put_line(out, b"MaxLogEndVersion", description.log_end)
}

fn put_restorable(out: &mut Blob, description: &Description) -> Result<(), AllocError>
    ensures { OnOk result (out.new ≡ out.old ++ spec.restorable_lines description.now) }
{
    put_line(out, b"MinRestorableVersion", description.min)?;
    put_line(out, b"MaxRestorableVersion", description.max)?;
    Ok(())
}

fn put_properties(out: &mut Blob, description: &Description) -> Result<(), AllocError>
    ensures { OnOk result (out.new ≡ out.old ++ spec.property_lines description.now) }
{
    put_line(out, b"UnreliableEndVersion", description.unreliable)?;
    put_line(out, b"ExpiredEndVersion", description.expired)?;
    Ok(())
}

fn put_line(out: &mut Blob, word: &[u8], number: Option<u64>) -> Result<(), AllocError>
    requires { length word.now ≤ 40 }
    ensures { OnOk result (out.new ≡ out.old ++ spec.number_line word.now number) }
{
    let mut tail = end_of_number(number);
    tail.text(b" ");
    tail.text(word);
    put(out, tail.as_slice())
}

/// The word of a number that may be absent.
pub fn put_number_or_none(out: &mut Blob, number: Option<u64>) -> Result<(), AllocError>
    ensures { OnOk result (out.new ≡ out.old ++ spec.number_or_none number) }
{
    match number {
        Some(number) => put_number(out, number),
        None => put(out, b"none"),
    }
}

// The same word, and the line feed.
fn end_of_number(number: Option<u64>) -> Tail
    ensures text { result ≡ spec.number_or_none number ++ 10 ∷ [] }
    ensures len { length result ≤ 41 }
{
    match number {
        Some(number) => Tail::last(b"", number),
        None => Tail::of(b"none"),
    }
}

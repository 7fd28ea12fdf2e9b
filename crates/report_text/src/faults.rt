//! What is wrong with a file of a container, as the last words of a line.

ghost use Rattle.std.specs.Prelude.{◌≡◌, [], ◌∷◌, ◌++◌, codes, OnOk};
ghost use Rattle.report_text.specs.Lines.{behind};
ghost use Rattle.report_text.specs.Faults.{wire_words, block_words, log_words, manifest_words, file_fault_words};

use crate::words::{put, put_bytes, put_field, put_last};
use container_view::FileFault;
use fb_bytes::Blob;
use log_files::LogFault;
use manifests::ManifestFault;
use mutations::WireFault;
use range_files::BlockFault;
use std::alloc::{AllocError, Global};

/// Puts the words of a file's fault, each behind a space, and the line's end.
pub fn put_file_fault(alloc: Global, out: &mut Blob, fault: &FileFault) -> Result<(), AllocError>
    ensures { OnOk result (out.new ≡ out.old ++ behind (file_fault_words fault.now)) }
{
    match fault {
        FileFault::Property => put(out, b" property\n"),
        FileFault::Manifest { fault } => put_manifest_fault(out, *fault),
        FileFault::Range { fault } => put_block_fault(out, *fault),
        FileFault::Log { fault } => put_log_fault(out, *fault),
        FileFault::Overlap { key } => put_overlap(alloc, out, key),
    }
}

fn put_overlap(alloc: Global, out: &mut Blob, key: &Blob) -> Result<(), AllocError>
    ensures { OnOk result
        (out.new ≡ out.old ++ behind (file_fault_words (FileFault.Overlap key.now))) }
{
    put(out, b" overlap ")?;
    put_bytes(alloc, out, key.as_slice())?;
    put(out, b"\n")
}

fn put_manifest_fault(out: &mut Blob, fault: ManifestFault) -> Result<(), AllocError>
    ensures { OnOk result (out.new ≡ out.old ++ behind (manifest_words fault)) }
{
    match fault {
        ManifestFault::Json => put(out, b" json\n"),
        ManifestFault::Field { name } => put_field_name(out, name.word().as_bytes()),
        ManifestFault::Order { at } => put_last(out, b" order ", at),
        ManifestFault::Versions => put(out, b" versions\n"),
        ManifestFault::NoMemory => put(out, b" no-memory\n"),
    }
}

fn put_field_name(out: &mut Blob, name: &[u8]) -> Result<(), AllocError>
    ensures { OnOk result (out.new ≡ out.old ++ behind (codes "field" ∷ name.now ∷ [])) }
{
    put(out, b" field ")?;
    put(out, name)?;
    put(out, b"\n")
}

fn put_block_fault(out: &mut Blob, fault: BlockFault) -> Result<(), AllocError>
    ensures { OnOk result (out.new ≡ out.old ++ behind (block_words fault)) }
{
    match fault {
        BlockFault::Format { found } => put_last(out, b" format ", found),
        BlockFault::Short { at } => put_last(out, b" short ", at),
        BlockFault::Padding { at } => put_last(out, b" padding ", at),
        BlockFault::Order { at } => put_last(out, b" order ", at),
        BlockFault::Join { block } => put_last(out, b" join ", block),
        BlockFault::NoMemory => put(out, b" no-memory\n"),
    }
}

fn put_log_fault(out: &mut Blob, fault: LogFault) -> Result<(), AllocError>
    ensures { OnOk result (out.new ≡ out.old ++ behind (log_words fault)) }
{
    match fault {
        LogFault::Format { found } => put_last(out, b" format ", found),
        LogFault::Short { at } => put_last(out, b" short ", at),
        LogFault::Padding { at } => put_last(out, b" padding ", at),
        LogFault::KeyLength { at } => put_last(out, b" key-length ", at),
        LogFault::Version { at, version } => {
            put_field(out, b" version ", at)?;
            put_last(out, b" ", version)
        }
        LogFault::Part { at, part } => {
            put_field(out, b" part ", at)?;
            put_last(out, b" ", part)
        }
        LogFault::Batch { at, wire } => {
            put_field(out, b" batch ", at)?;
            put_wire_fault(out, wire)
        }
        LogFault::NoMemory => put(out, b" no-memory\n"),
    }
}

fn put_wire_fault(out: &mut Blob, fault: WireFault) -> Result<(), AllocError>
    ensures { OnOk result (out.new ≡ out.old ++ behind (wire_words fault)) }
{
    match fault {
        WireFault::Short { at } => put_last(out, b" short ", at),
        WireFault::Protocol { found } => put_last(out, b" protocol ", found),
        WireFault::Length { said, found } => {
            put_field(out, b" length ", said)?;
            put_last(out, b" ", found)
        }
        WireFault::Code { at, code } => {
            put_field(out, b" code ", at)?;
            put_last(out, b" ", code)
        }
        WireFault::Backwards { at } => put_last(out, b" backwards ", at),
        WireFault::NoMemory => put(out, b" no-memory\n"),
    }
}

//! The files that are made of what takes keep.

ghost use Rattle.std.specs.Prelude.{◌≡◌, IfOk};
ghost use Rattle.backup_core.specs.Backups.{text_of};
ghost use Rattle.backup_core.specs.Made as spec;

use crate::FilePart;
use block_frame::Profile;
use fb_bytes::{Blob, Text};
use file_names::{Name, print};
use log_files::write_log_at;
use range_files::write_range_at;
use std::alloc::{AllocError, Global};
use std::marker::Model;

/// The file of a part, under the ticket that was drawn for it.
#[derive(Debug, Drop)]
pub struct FileMade {
    block: u32,
    ticket: u64,
    part: FilePart,
    bytes: Blob,
}

impl Model for FileMade {
    ghost use Rattle.backup_core.specs.Made as spec;

    ghost Value = { spec.Made };

    ghost view = { λ made. record {
      block = made.block;
      ticket = made.ticket;
      part = spec.part_in made.part;
      bytes = made.bytes;
    } };

    ghost invariant = { λ made. spec.IsMade (record {
      block = made.block;
      ticket = made.ticket;
      part = spec.part_in made.part;
      bytes = made.bytes;
    }) };
}

/// The file of a part, in blocks of the profile's size.
pub fn made(
    alloc: Global,
    profile: Profile,
    ticket: u64,
    part: &FilePart,
) -> Result<FileMade, AllocError>
    requires { spec.CanMake profile.block (spec.part_in part.now) }
    ensures { IfOk result
        (λ made. made ≡ spec.made_of profile.block ticket (spec.part_in part.now)) }
{
    let bytes = bytes_of(alloc, profile.block, part)?;
    let part = part.copy()?;
    Ok(FileMade {
        block: profile.block,
        ticket,
        part,
        bytes,
    })
}

// What the part's writer writes.
fn bytes_of(alloc: Global, block: u32, part: &FilePart) -> Result<Blob, AllocError>
    requires { spec.CanMake block (spec.part_in part.now) }
    ensures written { IfOk result
        (λ bytes. bytes ≡ spec.part_bytes block (spec.part_in part.now)) }
    ensures typed { IfOk result (λ bytes. spec.IsTyped (spec.part_in part.now)) }
{
    match part {
        FilePart::Range { chunk, .. } => {
            let _rising = chunk.pairs.as_slice();
            write_range_at(alloc, block, chunk)
        }
        FilePart::Log { chunk } => {
            let _end = chunk.end;
            write_log_at(alloc, block, chunk)
        }
        FilePart::Manifest { manifest } => {
            let _bytes = manifest.bytes;
            manifests::write(alloc, manifest)
        }
    }
}

impl FileMade {
    /// The size of its blocks.
    pub fn block(&self) -> u32
        ensures { result ≡ self.now.block }
    {
        self.block
    }

    /// The ticket that its name has.
    pub fn ticket(&self) -> u64
        ensures { result ≡ self.now.ticket }
    {
        self.ticket
    }

    pub fn part(&self) -> &FilePart
        ensures { spec.part_in result.now ≡ self.now.part }
    {
        &self.part
    }

    pub fn bytes(&self) -> &[u8]
        ensures same { result.now ≡ self.now.bytes }
        ensures made { spec.IsMade self.now }
    {
        self.bytes.as_slice()
    }

    /// The name of the file.
    pub fn name(&self, alloc: Global) -> Result<Text, AllocError>
        requires { spec.HasName self.now.block self.now.ticket self.now.part }
        ensures { IfOk result (λ name. name
            ≡ text_of (spec.part_name self.now.block self.now.ticket self.now.part)) }
    {
        let name = name_of(&self.part, self.block, self.ticket);
        print(alloc, &name)
    }
}

fn name_of(part: &FilePart, block: u32, ticket: u64) -> Name
    ensures { result ≡ spec.part_name block ticket (spec.part_in part.now) }
{
    match part {
        FilePart::Range { snapshot, chunk } => Name::Range {
            snapshot: *snapshot,
            version: chunk.version,
            ticket,
            block,
        },
        FilePart::Log { chunk } => Name::Log {
            begin: chunk.begin,
            end: chunk.end,
            ticket,
            block,
        },
        FilePart::Manifest { manifest } => Name::Manifest {
            begin: manifest.begin,
            end: manifest.end,
            bytes: manifest.bytes,
            ticket,
        },
    }
}

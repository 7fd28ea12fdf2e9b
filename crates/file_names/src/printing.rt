ghost use Rattle.std.specs.Prelude.{◌≡◌, true, is_some, Some, IfOk, string_bytes};
ghost use Rattle.file_names.specs.Spelling.{spelling, spelled, range_texts, range_numbers, log_texts, log_numbers, manifest_texts, manifest_numbers};

use crate::Name;
use fb_bytes::Text;
use std::alloc::{AllocError, Global};

/// The spelling of a name.
pub fn print(alloc: Global, name: &Name) -> Result<Text, AllocError>
    requires { is_some (spelling name.now) ≡ true }
    ensures { IfOk result (λ text. spelling name.now ≡ Some text) }
{
    let text = match *name {
        Name::Range {
            snapshot,
            version,
            ticket,
            block,
        } => range(alloc, snapshot, version, ticket, block)?,
        Name::Log {
            begin,
            end,
            ticket,
            block,
        } => log(alloc, begin, end, ticket, block)?,
        Name::Manifest {
            begin,
            end,
            bytes,
            ticket,
        } => manifest(alloc, begin, end, bytes, ticket)?,
        Name::Unreliable => String::from_str(alloc, "properties/unreliable_end")?,
        Name::Expired => String::from_str(alloc, "properties/expired_end")?,
        Name::Other => unreachable!(),
    };
    Ok(Text::from_string(text))
}

fn range(
    alloc: Global,
    snapshot: u64,
    version: u64,
    ticket: u64,
    block: u32,
) -> Result<String, AllocError>
    ensures { IfOk result
        (λ text. string_bytes text
        ≡ spelled range_texts (range_numbers snapshot version ticket block)) }
{
    let group = ticket / 1000;
    format!(in alloc; "kvranges/snapshot.{snapshot}/{group}/range,{version},{ticket},{block}")
}

fn log(alloc: Global, begin: u64, end: u64, ticket: u64, block: u32) -> Result<String, AllocError>
    ensures { IfOk result
        (λ text. string_bytes text ≡ spelled log_texts (log_numbers begin end ticket block)) }
{
    let group = begin / 1_000_000_000;
    format!(in alloc; "logs/{group}/log,{begin},{end},{ticket},{block}")
}

fn manifest(
    alloc: Global,
    begin: u64,
    end: u64,
    bytes: u64,
    ticket: u64,
) -> Result<String, AllocError>
    ensures { IfOk result
        (λ text. string_bytes text
        ≡ spelled manifest_texts (manifest_numbers begin end bytes ticket)) }
{
    format!(in alloc; "snapshots/snapshot,{begin},{end},{bytes},{ticket}")
}

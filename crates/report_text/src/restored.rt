//! The lines of a restore.

ghost use Rattle.std.specs.Prelude.{◌≡◌, ◌++◌, OnOk};
ghost use Rattle.std.specs.List.{flat_map};
ghost use Rattle.report_text.specs.Restores.{pair_line, restored_text};

use crate::Restored;
use crate::entries::put_pair;
use crate::words::put_last;
use fb_bytes::{Blob, Pair};
use std::alloc::{AllocError, Global};

/// The version, the pairs, and their number.
pub fn put_restored(alloc: Global, out: &mut Blob, told: &Restored) -> Result<(), AllocError>
    ensures { OnOk result (out.new ≡ out.old ++ restored_text told.now) }
{
    put_last(out, b"version ", told.version)?;
    put_pairs(alloc, out, told.pairs.as_slice())?;
    put_last(out, b"pairs ", told.pairs.len())
}

fn put_pairs(alloc: Global, out: &mut Blob, pairs: &[Pair]) -> Result<(), AllocError>
    ensures { OnOk result (out.new ≡ out.old ++ flat_map pair_line pairs.now) }
{
    for pair in pairs {
        put_pair(alloc, out, b"pair", &pair.key, &pair.value)?;
    }
    Ok(())
}

//! Joining parts to batches.

ghost use Rattle.std.specs.Prelude.{◌≡◌, ◌++◌, List, ◌∷◌, map, IfOk};
ghost use Rattle.std.specs.List.{All};
ghost use Rattle.log_keys.specs.inner.Parts.{Row};
ghost use Rattle.log_keys.specs.inner.Table.{Whole, IsRead, goes_on, joined, joined_onto, joined_with, whole_of, with_piece, batch_in};

use crate::row::Row;
use crate::whole::Whole;
use fb_bytes::Seq;
use mutations::{Batch, WireFault, decode_batch};
use std::alloc::{AllocError, Global};

/// The parts of each job and version joined.
pub fn all_joined(alloc: Global, rows: &[Row]) -> Result<Vec<Whole>, AllocError>
    ensures { IfOk result (λ wholes. wholes.items ≡ joined rows.now) }
{
    let mut wholes = Vec::new(alloc);
    let mut last = None;
    for row in rows {
        last = Some(taken(&mut wholes, last, row)?);
    }
    if let Some(whole) = last {
        wholes.push(whole)?;
    }
    Ok(wholes)
}

/// Takes one more row in. It gives what is being joined then.
fn taken(wholes: &mut Vec<Whole>, last: Option<Whole>, row: &Row) -> Result<Whole, AllocError>
    ensures { IfOk result (λ whole. (rows : List Row) → wholes.new.items ++ joined_onto whole rows
        ≡ wholes.old.items ++ joined_with last (row.now ∷ rows)) }
{
    let Some(whole) = last else {
        return begun(row);
    };
    if goes_on(&whole, row) {
        return with_piece(whole, row);
    }
    wholes.push(whole)?;
    begun(row)
}

fn goes_on(whole: &Whole, row: &Row) -> bool
    ensures { result ≡ goes_on whole.now row.now }
{
    row.is_of(whole.job, whole.version)
}

fn begun(row: &Row) -> Result<Whole, AllocError>
    ensures { IfOk result (λ whole. whole ≡ whole_of row.now) }
{
    let bytes = row.piece.copy()?;
    Ok(Whole {
        job: row.key.job(),
        version: row.key.version(),
        bytes,
    })
}

fn with_piece(whole: Whole, row: &Row) -> Result<Whole, AllocError>
    ensures { IfOk result (λ longer. longer ≡ with_piece whole row.now) }
{
    let Whole {
        job,
        version,
        mut bytes,
    } = whole;
    bytes.extend_from_slice(row.piece.as_slice())?;
    Ok(Whole {
        job,
        version,
        bytes,
    })
}

/// Reads what was joined.
pub fn batches_of(alloc: Global, wholes: &[Whole]) -> Result<Seq<Batch>, AllocError>
    requires { All (λ whole. IsRead whole.bytes) wholes.now }
    ensures { IfOk result (λ batches. batches ≡ map batch_in wholes.now) }
{
    let mut batches = Seq::new(alloc);
    for whole in wholes {
        let batch = read(alloc, whole)?;
        batches.push(batch)?;
    }
    Ok(batches)
}

fn read(alloc: Global, whole: &Whole) -> Result<Batch, AllocError>
    requires { IsRead whole.now.bytes }
    ensures { IfOk result (λ batch. batch ≡ batch_in whole.now) }
{
    let version = whole.version;
    match decode_batch(alloc, whole.bytes.as_slice()) {
        Ok(muts) => Ok(Batch { version, muts }),
        Err(WireFault::NoMemory) => Err(AllocError),
        Err(_) => unreachable!(),
    }
}

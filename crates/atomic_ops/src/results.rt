ghost use Rattle.std.specs.Prelude.{◌≡◌, [], length, IfOk, Some, None, option_copied, option_and_then, unwrap_or, if◌then◌else◌};
ghost use Rattle.std.specs.Option.{option_map_or};
ghost use Rattle.atomic_ops.specs.Bytes.{is_same, fitted, bytes_and, bytes_or, bytes_xor, earlier, later};
ghost use Rattle.atomic_ops.specs.Numbers.{sum_bytes, greater, lesser};
ghost use Rattle.atomic_ops.specs.Operation.{operation, appended, bytes_left};

use crate::bitwise::{and, or, xor};
use crate::byte_order::{earlier, later};
use crate::fitting::fitted;
use crate::number::{add_into, compare};
use crate::op::Op;
use crate::table::operations;
use std::alloc::{AllocError, Global};

macro_rules! result_of {
    ([$op:ident $alloc:ident $old:ident $param:ident $limit:ident]
        $($number:literal $name:ident $word:literal $result:ident;)*) => {
        match $op {
            $(Op::$name => $result($alloc, $old, $param, $limit),)*
        }
    };
}

/// What the operation leaves at a key that has the old value, where `None` is an absent
/// key. The limit is that on the length of an append.
#[tactic(auto, unfolding(crate::specs::Operation::operation))]
pub fn apply(
    alloc: Global,
    op: Op,
    old: Option<&[u8]>,
    param: &[u8],
    limit: usize,
) -> Result<Option<Vec<u8>>, AllocError>
    ensures { IfOk result (λ left. bytes_left left ≡
        operation op (option_copied old.entry) param.now limit) }
{
    operations!(result_of op alloc old param limit)
}

// A function for each row of the table, under the name that the row has for it.

fn sum(
    alloc: Global,
    old: Option<&[u8]>,
    param: &[u8],
    _limit: usize,
) -> Result<Option<Vec<u8>>, AllocError>
    ensures { IfOk result (λ left. bytes_left left ≡
        Some (sum_bytes (fitted (option_copied old.entry) (length param.now)) param.now)) }
{
    let mut total = fitted(alloc, old, param.len())?;
    add_into(&mut total, param);
    Ok(Some(total))
}

fn conjunction(
    alloc: Global,
    old: Option<&[u8]>,
    param: &[u8],
    _limit: usize,
) -> Result<Option<Vec<u8>>, AllocError>
    ensures { IfOk result (λ left. bytes_left left ≡
        Some (bytes_and (fitted (option_copied old.entry) (length param.now)) param.now)) }
{
    let old = fitted(alloc, old, param.len())?;
    Ok(Some(and(alloc, &old, param)?))
}

fn disjunction(
    alloc: Global,
    old: Option<&[u8]>,
    param: &[u8],
    _limit: usize,
) -> Result<Option<Vec<u8>>, AllocError>
    ensures { IfOk result (λ left. bytes_left left ≡
        Some (bytes_or (fitted (option_copied old.entry) (length param.now)) param.now)) }
{
    let old = fitted(alloc, old, param.len())?;
    Ok(Some(or(alloc, &old, param)?))
}

fn exclusion(
    alloc: Global,
    old: Option<&[u8]>,
    param: &[u8],
    _limit: usize,
) -> Result<Option<Vec<u8>>, AllocError>
    ensures { IfOk result (λ left. bytes_left left ≡
        Some (bytes_xor (fitted (option_copied old.entry) (length param.now)) param.now)) }
{
    let old = fitted(alloc, old, param.len())?;
    Ok(Some(xor(alloc, &old, param)?))
}

fn extended(
    alloc: Global,
    old: Option<&[u8]>,
    param: &[u8],
    limit: usize,
) -> Result<Option<Vec<u8>>, AllocError>
    ensures { IfOk result (λ left. bytes_left left ≡
        Some (appended (unwrap_or (option_copied old.entry) []) param.now limit)) }
{
    let old = old.unwrap_or(&[]);
    let mut bytes = Vec::from_slice(alloc, old)?;
    if old.len() <= limit && param.len() <= limit - old.len() {
        bytes.extend_from_slice(param)?;
    }
    Ok(Some(bytes))
}

fn greater(
    alloc: Global,
    old: Option<&[u8]>,
    param: &[u8],
    _limit: usize,
) -> Result<Option<Vec<u8>>, AllocError>
    ensures { IfOk result (λ left. bytes_left left ≡
        Some (greater (fitted (option_copied old.entry) (length param.now)) param.now)) }
{
    let mut bytes = fitted(alloc, old, param.len())?;
    if compare(&bytes, param).is_lt() {
        bytes.copy_from_slice(param);
    }
    Ok(Some(bytes))
}

fn lesser(
    alloc: Global,
    old: Option<&[u8]>,
    param: &[u8],
    _limit: usize,
) -> Result<Option<Vec<u8>>, AllocError>
    ensures { IfOk result (λ left. bytes_left left ≡
        Some (lesser (fitted (option_copied old.entry) (length param.now)) param.now)) }
{
    let mut bytes = fitted(alloc, old, param.len())?;
    if compare(&bytes, param).is_gt() {
        bytes.copy_from_slice(param);
    }
    Ok(Some(bytes))
}

fn earlier_or_param(
    alloc: Global,
    old: Option<&[u8]>,
    param: &[u8],
    _limit: usize,
) -> Result<Option<Vec<u8>>, AllocError>
    ensures { IfOk result (λ left. bytes_left left ≡
        Some (option_map_or (λ old. earlier old param.now) (option_copied old.entry) param.now)) }
{
    match old {
        Some(old) => kept(alloc, earlier(old, param)),
        None => kept(alloc, param),
    }
}

fn later_or_param(
    alloc: Global,
    old: Option<&[u8]>,
    param: &[u8],
    _limit: usize,
) -> Result<Option<Vec<u8>>, AllocError>
    ensures { IfOk result (λ left. bytes_left left ≡
        Some (option_map_or (λ old. later old param.now) (option_copied old.entry) param.now)) }
{
    match old {
        Some(old) => kept(alloc, later(old, param)),
        None => kept(alloc, param),
    }
}

fn lesser_or_param(
    alloc: Global,
    old: Option<&[u8]>,
    param: &[u8],
    limit: usize,
) -> Result<Option<Vec<u8>>, AllocError>
    ensures { IfOk result (λ left. bytes_left left ≡
        Some (option_map_or (λ old. lesser (fitted (Some old) (length param.now)) param.now)
        (option_copied old.entry) param.now)) }
{
    match old {
        Some(_) => lesser(alloc, old, param, limit),
        None => kept(alloc, param),
    }
}

fn conjunction_or_param(
    alloc: Global,
    old: Option<&[u8]>,
    param: &[u8],
    limit: usize,
) -> Result<Option<Vec<u8>>, AllocError>
    ensures { IfOk result (λ left. bytes_left left ≡
        Some (option_map_or (λ old. bytes_and (fitted (Some old) (length param.now)) param.now)
        (option_copied old.entry) param.now)) }
{
    match old {
        Some(_) => conjunction(alloc, old, param, limit),
        None => kept(alloc, param),
    }
}

fn kept_unless_same(
    alloc: Global,
    old: Option<&[u8]>,
    param: &[u8],
    _limit: usize,
) -> Result<Option<Vec<u8>>, AllocError>
    ensures { IfOk result (λ left. bytes_left left ≡
        option_and_then (λ old. if is_same old param.now then None else Some old)
        (option_copied old.entry)) }
{
    match old {
        Some(old) if old != param => kept(alloc, old),
        _ => Ok(None),
    }
}

fn kept(alloc: Global, bytes: &[u8]) -> Result<Option<Vec<u8>>, AllocError>
    ensures { IfOk result (λ left. bytes_left left ≡ Some bytes.now) }
{
    let bytes = Vec::from_slice(alloc, bytes)?;
    Ok(Some(bytes))
}

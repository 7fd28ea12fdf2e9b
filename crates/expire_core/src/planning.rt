//! What an expire is to do, by the names of a container's files alone.

ghost use Rattle.std.specs.Prelude.{◌≡◌, IfOk};
ghost use Rattle.container_view.specs.Description as description;
ghost use Rattle.expire_core.specs.Doomed as doomed_names;
ghost use Rattle.expire_core.specs.Plan as spec;
ghost use Rattle.expire_core.specs.declared.planning.PlanFault.TheVariants as faults;
ghost use Rattle.fb_bytes.specs.Results.{GivesBut};
ghost use Rattle.file_names.specs.Reading.{name_of};

use container_view::{Bounds, restorable};
use fb_bytes::{Names, Text};
use file_names::{Name, parse};
use std::alloc::{AllocError, Global};

/// What an expire is to do.
#[derive(Debug, Drop)]
pub struct ExpirePlan {
    /// The files to be deleted, in the order of the names that were given.
    pub names: Names,
    /// The number that the unreliable end gets before anything is deleted.
    pub unreliable: u64,
}

/// Why there is no plan.
#[derive(Clone, Copy, Debug, PartialEq, Eq)]
pub enum PlanFault {
    /// No version at or past the wanted one would stay. The greatest that would is `left`, where
    /// there is one.
    CannotExpire { wanted: u64, left: Option<u64> },
    /// There was no memory.
    NoMemory,
}

impl From<AllocError> for PlanFault {
    ghost from_gives = { λ _ e. e ≡ faults.NoMemory };

    fn from(_: AllocError) -> Self {
        PlanFault::NoMemory
    }
}

/// The plan of an expire up to a cutoff, of a container with these names and this number of its
/// unreliable end. With `force` whatever is left is enough.
pub fn plan(
    alloc: Global,
    names: &Names,
    unreliable: Option<u64>,
    cutoff: u64,
    wanted: u64,
    force: bool,
) -> Result<ExpirePlan, PlanFault>
    ensures { GivesBut faults.NoMemory (λ plan. plan) result
        (spec.planned names.now unreliable cutoff wanted force) }
{
    let end = raised(cutoff, unreliable);
    let left = left_of(alloc, names, end)?;
    if !force && is_short(wanted, left) {
        return Err(PlanFault::CannotExpire { wanted, left });
    }
    let names = doomed(alloc, names, cutoff)?;
    Ok(ExpirePlan {
        names,
        unreliable: end,
    })
}

/// The number of a property after an expire.
pub(crate) fn raised(cutoff: u64, number: Option<u64>) -> u64
    ensures { result ≡ spec.raised cutoff number }
{
    cutoff.max(number.unwrap_or(0))
}

// The greatest version that the names advertise.
fn left_of(alloc: Global, names: &Names, end: u64) -> Result<Option<u64>, AllocError>
    ensures { IfOk result (λ left. left ≡ spec.left_of names.now end) }
{
    let bounds = restorable(alloc, names, end)?;
    Ok(greatest_of(bounds))
}

fn greatest_of(bounds: Option<Bounds>) -> Option<u64>
    ensures { result ≡ description.greatest_of bounds }
{
    match bounds {
        Some(bounds) => Some(bounds.greatest),
        None => None,
    }
}

fn is_short(wanted: u64, left: Option<u64>) -> bool
    ensures { result ≡ spec.is_short wanted left }
{
    match left {
        Some(left) => left < wanted,
        None => true,
    }
}

// The names of the files that go.
fn doomed(alloc: Global, names: &Names, cutoff: u64) -> Result<Names, AllocError>
    ensures { IfOk result (λ list. list ≡ doomed_names.doomed cutoff names.now) }
{
    let mut list = Names::new(alloc);
    'names: for name in names.as_slice() {
        if is_doomed(cutoff, name) {
            let name = name.copy()?;
            list.push(name)?;
        }
    }
    Ok(list)
}

fn is_doomed(cutoff: u64, name: &Text) -> bool
    ensures { result ≡ doomed_names.is_doomed cutoff (name_of name.now) }
{
    match parse(name.as_bytes()) {
        Name::Range { version, .. } => version < cutoff,
        Name::Log { end, .. } => end <= cutoff,
        Name::Manifest { end, .. } => end < cutoff,
        Name::Unreliable | Name::Expired | Name::Other => false,
    }
}

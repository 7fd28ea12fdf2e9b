//! Chains of log files, from the names of a container's files alone.

ghost use Rattle.std.specs.Prelude.{◌≡◌, ◌+◌, IfOk};
ghost use Rattle.container_view.specs.Names.{chain_named};
ghost use Rattle.container_view.specs.inner.Listed.{AreSorted};

use crate::logs::{best_at, best_logs};
use crate::sorting::{SortedNames, sorted_names};
use fb_bytes::{Names, Seq, Text, TryCopy};
use std::alloc::{AllocError, Global};

/// A log file of a chain, and the versions that it gives: from `from` on and before `to`.
#[derive(Debug, Drop)]
pub struct Link {
    /// The name in the container.
    pub name: Text,
    pub from: u64,
    pub to: u64,
}

impl Link {
    /// An equal link with memory of its own.
    pub fn copy(&self) -> Result<Self, AllocError>
        ensures { IfOk result (λ link. link ≡ self.now) }
    {
        let name = self.name.copy()?;
        Ok(Link {
            name,
            from: self.from,
            to: self.to,
        })
    }
}

impl TryCopy for Link {
    fn copy(&self) -> Result<Self, AllocError> {
        Link::copy(self)
    }
}

/// The chain of log files from `from` until it reaches `to`, of a container with these names. There
/// is none where no log file has some version between.
pub fn chain(
    alloc: Global,
    names: &Names,
    from: u64,
    to: u64,
) -> Result<Option<Seq<Link>>, AllocError>
    ensures { IfOk result (λ links. links ≡ chain_named names.now from to) }
{
    if to == 0 {
        return Ok(Some(Seq::new(alloc)));
    }
    chain_past(alloc, names, from, to - 1)
}

/// The chain of log files from `from` until it is past `last`.
pub fn chain_past(
    alloc: Global,
    names: &Names,
    from: u64,
    last: u64,
) -> Result<Option<Seq<Link>>, AllocError>
    ensures { IfOk result (λ links. links ≡ chain_named names.now from (last + 1)) }
{
    let sorted = sorted_names(alloc, names)?;
    sorted_chain(alloc, &sorted, from, last)
}

/// The chain of the log files among names from `from` until it is past `last`.
pub(crate) fn sorted_chain(
    alloc: Global,
    sorted: &SortedNames<'_>,
    from: u64,
    last: u64,
) -> Result<Option<Seq<Link>>, AllocError>
    requires { AreSorted sorted.now }
    ensures { IfOk result (λ links. links ≡ chain_named sorted.now.names.now from (last + 1)) }
{
    let bests = best_logs(alloc, sorted)?;
    let mut links = Vec::new(alloc);
    let mut version = from;
    'links: while version <= last {
        let Some((name, end)) = best_at(&bests, version) else {
            return Ok(None);
        };
        let name = name.copy()?;
        links.push(Link {
            name,
            from: version,
            to: end,
        })?;
        version = end;
    }
    Ok(Some(Seq::from_vec(links)))
}

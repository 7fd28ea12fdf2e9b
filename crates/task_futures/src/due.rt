//! The tasks that an unblocking makes due.

ghost use Rattle.std.specs.Prelude.{◌≡◌, [], ◌∷◌, IfOk};
ghost use Rattle.task_futures.specs.Laws.{AreRising, AreFutures};
ghost use Rattle.task_futures.specs.Futures.{newly_set, settle};
ghost use Rattle.task_futures.specs.inner.Changes.{nearer, nearest, IsNext};

use crate::future::Future;
use crate::settling::place_of;
use crate::{Part, Tasks};
use std::alloc::{AllocError, Global};

fn nearer(bound: u64, least: Option<u64>, join: u64) -> Option<u64>
    ensures { result ≡ nearer bound least join }
{
    match least {
        _ if join < bound => least,
        Some(number) => Some(number.min(join)),
        None => Some(join),
    }
}

// The least number of these parts from a bound on.
fn nearest(pending: &[Part], bound: u64) -> Option<u64>
    ensures { result ≡ nearest bound pending.now }
{
    let mut least = None;
    for part in pending {
        least = nearer(bound, least, part.join);
    }
    least
}

// The place from the first on of the next future of which a block may fall.
fn next_place(futures: &[Future], pending: &[Part], first: usize) -> Option<usize>
    requires { AreRising futures.now }
    ensures { IsNext pending.now first futures.now result }
{
    if first >= futures.len() {
        return None;
    }
    let bound = futures[first].number();
    let Some(number) = nearest(pending, bound) else {
        return None;
    };
    let place = place_of(futures, number);
    if place < futures.len() {
        Some(place)
    } else {
        None
    }
}

/// The tasks of each future that would be set once the block of this part falls. It goes from
/// future to future by the blocks that fall.
pub fn due_in(alloc: Global, futures: &[Future], part: Part) -> Result<Tasks, AllocError>
    requires { AreFutures futures.now }
    ensures { IfOk result
        (λ tasks. tasks ≡ newly_set futures.now (settle (part ∷ []) futures.now)) }
{
    let mut pending = vec![in alloc; part]?;
    let mut due = Tasks::new(alloc);
    let mut first = 0;
    while let Some(place) = next_place(futures, &pending, first) {
        futures[place].fall(&mut pending, &mut due)?;
        first = place + 1;
    }
    Ok(due)
}

//! Changes and looks over a list of futures, in the order of their numbers.

ghost use Rattle.std.specs.Prelude.{◌≡◌, ◌≤◌, ◌<◌, [], ◌∷◌, ◌++◌, map, take, drop, length};
ghost use Rattle.task_futures.specs.Laws.{AreRising, AreFutures, HavePassedOn};
ghost use Rattle.task_futures.specs.Futures.{greatest_number, is_open, unjoined, settle};
ghost use Rattle.task_futures.specs.inner.Futures.{cleared_by, head_settled};
ghost use Rattle.task_futures.specs.inner.Changes.{cleared, lesser_count};

use crate::Part;
use crate::future::Future;
use std::alloc::Global;

/// The greatest number of these, or 0.
pub fn greatest(futures: &[Future]) -> u64
    requires { AreRising futures.now }
    ensures { result ≡ greatest_number futures.now }
{
    let count = futures.len();
    if count == 0 {
        return 0;
    }
    let last = count - 1;
    futures[last].number()
}

/// How many futures have lesser numbers: where the future with this number stands, or would stand.
/// It halves.
pub fn place_of(futures: &[Future], number: u64) -> usize
    requires { AreRising futures.now }
    ensures place { result ≡ lesser_count number futures.now }
    ensures within { result ≤ length futures.now }
{
    futures.partition_point(|one| one.number() < number)
}

/// Whether the future with this number isn't set.
pub fn is_open(futures: &[Future], number: u64) -> bool
    requires { AreRising futures.now }
    ensures { result ≡ is_open number futures.now }
{
    let place = place_of(futures, number);
    if place < futures.len() {
        futures[place].is_open_one(number)
    } else {
        false
    }
}

// Takes a block off, where it is open.
fn clear(futures: &mut [Future], part: Part)
    requires { AreRising futures.old }
    ensures { futures.new ≡ map (cleared part) futures.old }
{
    let place = place_of(futures, part.join);
    if place < futures.len() {
        futures[place].clear(part);
    }
}

pub fn unlink_all(futures: &mut [Future], number: u64)
    ensures { futures.new ≡ map (unjoined number) futures.old }
{
    for one in futures.iter_mut() {
        one.unlink(number);
    }
}

fn clear_each(futures: &mut [Future], parts: &[Part])
    requires { AreRising futures.old }
    ensures { futures.new ≡ map (cleared_by parts.now) futures.old }
{
    for part in parts {
        clear(futures, *part);
    }
}

// The one at this place passes its joins on, where it is set.
fn pass_on(alloc: Global, futures: &mut [Future], at: usize)
    requires rising { AreRising futures.old }
    requires within { at < length futures.old }
    ensures { futures.new ≡ take at futures.old ++ head_settled (drop at futures.old) }
{
    if futures[at].is_open() {
        return;
    }
    let joins = futures[at].take_joins(alloc);
    let behind = at + 1;
    clear_each(&mut futures[behind..], &joins);
}

// From this place on, those that are set pass their joins on.
fn settle(alloc: Global, futures: &mut [Future], first: usize)
    requires rising { AreRising futures.old }
    requires front { HavePassedOn (take first futures.old) }
    ensures { futures.new ≡ settle [] futures.old }
{
    let count = futures.len();
    for i in first..count {
        pass_on(alloc, futures, i);
    }
}

/// Takes a block off, and those of each join that this sets a part of.
pub fn unblock(alloc: Global, futures: &mut [Future], part: Part)
    requires { AreFutures futures.old }
    ensures { futures.new ≡ settle (part ∷ []) futures.old }
{
    let place = place_of(futures, part.join);
    if place >= futures.len() {
        return;
    }
    let open = futures[place].clear(part);
    if open {
        return;
    }
    settle(alloc, futures, place);
}

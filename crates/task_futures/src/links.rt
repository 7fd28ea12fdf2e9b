//! The links of a join, in the futures of its parts.

ghost use Rattle.std.specs.Prelude.{◌≡◌, ◌<◌, ◌+◌, ◌^◌, map, if◌then◌else◌, IfOk, OnOk, OnErr};
ghost use Rattle.task_futures.specs.Laws.{AreRising};
ghost use Rattle.task_futures.specs.Futures.{is_open, linked, next_number};
ghost use Rattle.task_futures.specs.inner.Changes.{with_link, without_link, unlinked};

use crate::Part;
use crate::future::Future;
use crate::settling::place_of;
use std::alloc::AllocError;

// Adds a link to the future with this number, where it isn't set. It says whether it isn't.
fn link(futures: &mut [Future], number: u64, link: Part) -> Result<bool, AllocError>
    requires { AreRising futures.old }
    ensures answer { IfOk result (λ found. found ≡ is_open number futures.old) }
    ensures ok { OnOk result (futures.new ≡ with_link number link futures.old) }
    ensures err { OnErr result (futures.new ≡ futures.old) }
{
    let place = place_of(futures, number);
    if place < futures.len() {
        futures[place].link(number, link)
    } else {
        Ok(false)
    }
}

fn unlink(futures: &mut [Future], number: u64)
    requires { AreRising futures.old }
    ensures { futures.new ≡ without_link number futures.old }
{
    let place = place_of(futures, number);
    if place < futures.len() {
        futures[place].unlink_last(number);
    }
}

/// Takes a link for each of these parts off again. It takes no memory.
pub fn unlink_each(futures: &mut [Future], parts: &[u64])
    requires { AreRising futures.old }
    ensures { futures.new ≡ unlinked parts.now futures.old }
{
    let count = parts.len();
    for i in 0..count {
        let at = count - 1 - i;
        unlink(futures, parts[at]);
    }
}

// The block that comes next.
fn next(block: u64, linked: bool) -> u64
    requires { block < 2 ^ 63 }
    ensures { result ≡ (if linked then block + 1 else block) }
{
    if linked { block + 1 } else { block }
}

/// Adds a link for each part that isn't set. Without memory nothing changes.
pub fn link_each(futures: &mut [Future], parts: &[u64], join: u64) -> Result<(), AllocError>
    requires rising { AreRising futures.old }
    requires next { join ≡ next_number futures.old }
    ensures rising { AreRising futures.new }
    ensures ok { OnOk result (futures.new ≡ map (linked parts.now futures.old) futures.old) }
    ensures back { OnOk result (unlinked parts.now futures.new ≡ futures.old) }
    ensures err { OnErr result (futures.new ≡ futures.old) }
{
    let mut block: u64 = 1;
    let count = parts.len();
    for i in 0..count {
        match link(futures, parts[i], Part { join, block }) {
            Ok(linked) => block = next(block, linked),
            Err(error) => {
                unlink_each(futures, &parts[..i]);
                return Err(error);
            }
        }
    }
    Ok(())
}

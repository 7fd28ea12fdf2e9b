ghost use Rattle.std.specs.Prelude.{◌≡◌, ◌≤◌, ◌+◌, length};
ghost use Rattle.versioned_kv.specs.Chains.{rows_of};

use crate::{Steps, Store, Versions};
use std::sync::ledger::Ledger;

/// Of 1,000 keys with three versions each a read takes at most 28 steps.
pub fn read_of_a_thousand<'a, L: Ledger>(
    store: &'a Store,
    key: &[u8],
    version: u64,
    steps: &mut Steps<L>,
) -> Option<&'a [u8]>
    requires live { store.now.oldest ≤ version }
    requires keys { length store.now.chains ≡ 1000 }
    requires versions { length (rows_of store.now.chains key.now) ≡ 3 }
    ensures { steps.new ≤ steps.old + 28 }
{
    store.read(key, version, steps)
}

fn crosses<T: Send + Sync>() {}

/// Threads may hand these on and share them.
#[test]
fn types_cross_threads() {
    crosses::<Store>();
    crosses::<Versions>();
}

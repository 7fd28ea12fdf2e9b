ghost use Rattle.std.specs.Prelude.{◌≡◌, ◌≤◌, [], ◌∷◌, ◌++◌, length, IfOk, OnOk};
ghost use Rattle.versioned_kv.specs.inner.Chains.{AreChains};
ghost use Rattle.versioned_kv.specs.inner.Pages.{IsPart};

use super::Table;
use crate::Steps;
use crate::chain::Chain;
use fb_bytes::{Blob, KeyRange, Pair};
use std::alloc::AllocError;
use std::sync::ledger::Ledger;

impl Table<Chain> {
    /// Adds the pairs of a range at a version, as long as there are fewer than the limit, and tells
    /// the first key that is left, where there is one.
    pub fn scan<L: Ledger>(
        &self,
        range: &KeyRange,
        version: u64,
        limit: usize,
        pairs: &mut Vec<Pair>,
        steps: &mut Steps<L>,
    ) -> Result<Option<Blob>, AllocError>
        requires chains { AreChains self.now }
        requires few { length pairs.old.items ≤ limit }
        ensures { IfOk result
            (λ next. IsPart range.now version limit self.now pairs.old.items pairs.new.items next) }
    {
        let first = self.place_of(range.begin.as_slice(), steps);
        let last = self.place_of(range.end.as_slice(), steps);
        for place in first..last {
            let chain = self.at(place, steps);
            let Some(value) = chain.rows.value(version, steps) else {
                continue;
            };
            if pairs.len() == limit {
                let next = chain.key.copy()?;
                return Ok(Some(next));
            }
            push_pair(pairs, &chain.key, value)?;
        }
        Ok(None)
    }
}

/// Adds a pair at the end.
fn push_pair(pairs: &mut Vec<Pair>, key: &Blob, value: &Blob) -> Result<(), AllocError>
    ensures { OnOk result (pairs.new.items ≡ pairs.old.items
        ++ record { key = key.now; value = value.now } ∷ []) }
{
    let key = key.copy()?;
    let value = value.copy()?;
    pairs.push(Pair { key, value })?;
    Ok(())
}

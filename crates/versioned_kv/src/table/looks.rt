ghost use Rattle.std.specs.Prelude.{◌≡◌, ℕ, ◌+◌, ◌<◌, ◌≤◌, ◌^◌, [], length, None, unwrap_or};
ghost use Rattle.std.specs.Option.{option_copied};
ghost use Rattle.versioned_kv.specs.Chains.{rows_upto, rows_of, value_in, value_at};
ghost use Rattle.versioned_kv.specs.inner.Chains.{AreChains, AreRising, keys_below};

use super::Table;
use crate::Steps;
use crate::chain::{Chain, Row};
use fb_bytes::{Blob, is_below, is_same};
use std::sync::ledger::Ledger;

impl Table<Chain> {
    /// How many keys come before this one.
    pub fn place_of<L: Ledger>(&self, key: &[u8], steps: &mut Steps<L>) -> usize
        requires { AreChains self.now }
        ensures place { result ≡ keys_below key.now self.now }
        ensures within { result ≤ length self.now }
        ensures steps { (d : ℕ) → length self.now < 2 ^ d → steps.new ≤ steps.old + d }
    {
        let mut low = 0;
        let mut high = self.len();
        while low < high {
            let middle = low + (high - low) / 2;
            let chain = self.at(middle, steps);
            if is_below(chain.key.as_slice(), key) {
                low = middle + 1;
            } else {
                high = middle;
            }
        }
        low
    }

    /// The rows of a key, where it has some.
    pub fn rows<L: Ledger>(&self, key: &[u8], steps: &mut Steps<L>) -> Option<&Table<Row>>
        requires { AreChains self.now }
        ensures rows { unwrap_or (option_copied result) [] ≡ rows_of self.now key.now }
        ensures rising { AreRising (rows_of self.now key.now) }
        ensures steps { (d : ℕ) → length self.now < 2 ^ d → steps.new ≤ steps.old + d + 1 }
    {
        let place = self.place_of(key, steps);
        if place == self.len() {
            return None;
        }
        let chain = self.at(place, steps);
        if !is_same(chain.key.as_slice(), key) {
            return None;
        }
        Some(&chain.rows)
    }

    /// What a version left at a key.
    pub fn value<L: Ledger>(&self, key: &[u8], version: u64, steps: &mut Steps<L>) -> Option<&Blob>
        requires { AreChains self.now }
        ensures value { option_copied result ≡ value_at self.now key.now version }
        ensures steps { (d e : ℕ) → length self.now < 2 ^ d
            → length (rows_of self.now key.now) < 2 ^ e → steps.new ≤ steps.old + d + e + 2 }
    {
        let rows = self.rows(key, steps)?;
        rows.value(version, steps)
    }
}

impl Table<Row> {
    /// How many versions are at or below this one.
    pub fn place_past<L: Ledger>(&self, version: u64, steps: &mut Steps<L>) -> usize
        requires { AreRising self.now }
        ensures place { result ≡ rows_upto version self.now }
        ensures within { result ≤ length self.now }
        ensures steps { (d : ℕ) → length self.now < 2 ^ d → steps.new ≤ steps.old + d }
    {
        let mut low = 0;
        let mut high = self.len();
        while low < high {
            let middle = low + (high - low) / 2;
            let row = self.at(middle, steps);
            if row.version <= version {
                low = middle + 1;
            } else {
                high = middle;
            }
        }
        low
    }

    /// What the last row at or below a version left.
    pub fn value<L: Ledger>(&self, version: u64, steps: &mut Steps<L>) -> Option<&Blob>
        requires { AreRising self.now }
        ensures value { option_copied result ≡ value_in self.now version None }
        ensures steps { (d : ℕ) → length self.now < 2 ^ d → steps.new ≤ steps.old + d + 1 }
    {
        let place = self.place_past(version, steps);
        if place == 0 {
            return None;
        }
        let row = self.at(place - 1, steps);
        row.value.as_ref()
    }
}

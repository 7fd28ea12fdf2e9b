ghost use Rattle.std.specs.Prelude.{◌≡◌, ℕ, ◌+◌, ◌-◌, ◌*◌, ◌<◌, ◌≤◌, ◌^◌, min, max, List, [], ◌∷◌, ◌++◌, length, IsTrue, ◌↔◌, IfOk, OnOk, OnErr};
ghost use Rattle.std.specs.Option.{option_copied};
ghost use Rattle.mutations.specs.declared.batch.Batch.{Batch};
ghost use Rattle.fb_bytes.specs.Bytes.{Bytes};
ghost use Rattle.mutations.specs.Effects.{effects};
ghost use Rattle.versioned_kv.specs.Chains.{rows_of, value_at};
ghost use Rattle.versioned_kv.specs.inner.Chains.{AreChains};
ghost use Rattle.versioned_kv.specs.Edits.{without};
ghost use Rattle.versioned_kv.specs.inner.Edits.{AreUpto, Extends};
ghost use Rattle.versioned_kv.specs.Touched.{touched, RowsStay, WritesAt};
ghost use Rattle.versioned_kv.specs.Forgotten.{all_forgotten};
ghost use Rattle.versioned_kv.specs.inner.Queued.{Notes, Falls, AreNoted, AreInOrder, AreDue, AreTouchesUpto, AreTouchesBelow, AreTouchesPast};
ghost use Rattle.versioned_kv.specs.Applied.{Holds, IsPast, IsRetractable, StandsWith, applied_at, with_entry};
ghost use Rattle.versioned_kv.specs.inner.Sound.{AreVersions};
ghost use Rattle.versioned_kv.specs.Pages.{IsPage};
ghost use Rattle.versioned_kv.specs.Digits.{digits};

use crate::keys::Keys;
use crate::queue::Queue;
use crate::writes::write_all;
use crate::{Page, Steps};
use fb_bytes::{KeyRange, Seq};
use mutations::Mutation;
use std::alloc::{AllocError, Global};
use std::marker::{Brand, Model};
use std::sync::ledger::{Blank, Ledger};

/// What was applied to a database, seen at each version that isn't forgotten.
#[derive(Debug, Drop)]
pub struct Store {
    limit: usize,
    oldest: u64,
    versions: Vec<u64>,
    chains: Keys,
    queue: Queue,
}

impl Model for Store {
    ghost use Rattle.versioned_kv.specs.Applied.{Contents};

    ghost Value = { Contents };

    ghost use Rattle.versioned_kv.specs.inner.Queued.{IsWhole};

    ghost view = { λ s. record { limit = s.limit; oldest = s.oldest; versions = s.versions.items; chains = s.chains } };

    ghost invariant = { λ s. IsWhole s.versions.items s.oldest s.chains s.queue };
}

impl Store {
    /// Nothing was applied. An operation appends to a value up to the limit. It takes no memory.
    pub fn new(alloc: Global, limit: usize) -> Self
        ensures empty { result ≡ record { limit = limit; oldest = 0; versions = []; chains = [] } }
        ensures holds { Holds result [] }
    {
        Store {
            limit,
            oldest: 0,
            versions: Vec::new(alloc),
            chains: Keys::new(alloc),
            queue: Queue::new(alloc),
        }
    }

    /// The oldest version that can be read.
    pub fn oldest(&self) -> u64
        ensures { result ≡ self.now.oldest }
    {
        self.oldest
    }

    /// How many keys there are, or the greatest `usize` where there are more.
    pub fn keys(&self) -> usize
        ensures { result ≡ min (length self.now.chains) (2 ^ 64 - 1) }
    {
        self.chains.count()
    }

    /// How many rows a key has: one for each version that left a value there or took one away, as far as
    /// it isn't forgotten.
    pub fn rows_of(&self, key: &[u8]) -> usize
        ensures { result ≡ length (rows_of self.now.chains key.now) }
    {
        count_of(&self.chains, key)
    }

    /// Whether a version is past all that were applied, so that it may be applied next.
    pub fn is_past(&self, version: u64) -> bool
        ensures { IsTrue result ↔ IsPast version self.now.versions }
    {
        is_past(&self.versions, version)
    }

    /// Whether there is a newest entry that may be taken back.
    pub fn can_retract(&self) -> bool
        ensures { IsTrue result ↔ IsRetractable self.now }
    {
        match self.versions.last() {
            Some(newest) => self.oldest < *newest,
            None => false,
        }
    }

    /// The value of a key at a version that isn't forgotten. It takes no memory.
    pub fn read<L: Ledger>(&self, key: &[u8], version: u64, steps: &mut Steps<L>) -> Option<&[u8]>
        requires { self.now.oldest ≤ version }
        ensures state { (entries : List Batch) → Holds self.now entries
            → option_copied result ≡ applied_at self.now.limit entries version key.now }
        ensures steps { steps.new ≤ steps.old +
            (2 * digits (length self.now.chains) + 2 * digits
            (length (rows_of self.now.chains key.now)) + 4) }
    {
        let value = self.chains.value(key, version, steps)?;
        Some(value.as_slice())
    }

    /// The first pairs of a range at a version that isn't forgotten, at most as many as the limit.
    pub fn scan(&self, range: &KeyRange, version: u64, limit: usize) -> Result<Page, AllocError>
        requires { self.now.oldest ≤ version }
        ensures { IfOk result (λ page. (entries : List Batch) → Holds self.now entries
            → IsPage (applied_at self.now.limit entries version) range.now limit page) }
    {
        scan(&self.chains, range, version, limit)
    }

    /// Applies mutations at a version that is past the earlier ones. Without memory the store is as it
    /// was.
    pub fn apply(&mut self, version: u64, mutations: &Seq<Mutation>) -> Result<(), AllocError>
        requires { IsPast version self.old.versions }
        ensures ok { OnOk result ((entries : List Batch) → Holds self.old entries
            → Holds self.new (with_entry entries version mutations.now)) }
        ensures same { OnOk result
            (StandsWith self.old (self.old.versions ++ version ∷ []) self.new) }
        ensures rows { OnOk result (without version self.new.chains ≡ self.old.chains) }
        ensures written { OnOk result
            (WritesAt (touched mutations.now) self.old.chains self.new.chains) }
        ensures err { OnErr result (self.new ≡ self.old) }
    {
        self.versions.push(version)?;
        let (chains, queue) = (&mut self.chains, &mut self.queue);
        match write(chains, version, mutations.as_slice(), self.limit, queue) {
            Ok(()) => Ok(()),
            Err(error) => {
                self.versions.pop();
                cut(&mut self.chains, version, &mut self.queue);
                Err(error)
            }
        }
    }

    /// Forgets the versions before the oldest that is to be read. It takes no memory, and looks only at
    /// keys that a version up to the oldest one touched since the last call.
    pub fn forget(&mut self, oldest: u64)
        ensures holds { (entries : List Batch) → Holds self.old entries → Holds self.new entries }
        ensures left { self.new
            ≡ record self.old {
              oldest = max self.old.oldest oldest;
              chains = all_forgotten (max self.old.oldest oldest) self.old.chains;
            } }
    {
        self.oldest = self.oldest.max(oldest);
        forget(&mut self.chains, self.oldest, &mut self.queue);
    }

    /// Takes the newest entry back. It takes no memory, and looks only at the keys that it touched.
    pub fn retract(&mut self)
        requires { IsRetractable self.old }
        ensures holds { (entries : List Batch) (entry : Batch)
            → Holds self.old (entries ++ entry ∷ []) → Holds self.new entries }
        ensures same { (versions : List ℕ) (version : ℕ) → self.old.versions ≡ versions
            ++ version ∷ [] → StandsWith self.old versions self.new }
        ensures rows { (versions : List ℕ) (version : ℕ) → self.old.versions ≡ versions
            ++ version ∷ [] → self.new.chains ≡ without version self.old.chains }
    {
        if let Some(version) = self.versions.pop() {
            cut(&mut self.chains, version, &mut self.queue);
        }
    }
}

fn is_past(versions: &[u64], version: u64) -> bool
    requires { AreVersions versions.now }
    ensures { IsTrue result ↔ IsPast version versions.now }
{
    match versions.last() {
        Some(newest) => *newest < version,
        None => true,
    }
}

/// How many rows a key has.
fn count_of(chains: &Keys, key: &[u8]) -> usize
    requires { AreChains chains.now }
    ensures { result ≡ length (rows_of chains.now key.now) }
{
    count_of_counted::<Brand>(chains, key, Blank::new(1))
}

fn count_of_counted<L: Ledger>(chains: &Keys, key: &[u8], blank: Blank) -> usize
    requires name { blank.name ≡ L.name }
    requires parts { blank.parts ≡ L.parts }
    requires some { 0 < blank.parts }
    requires chains { AreChains chains.now }
    ensures { result ≡ length (rows_of chains.now key.now) }
{
    let mut steps = Steps::<L>::new(blank);
    chains.count_of(key, &mut steps)
}

/// Writes what mutations leave. Without memory some may be left out.
fn write(
    chains: &mut Keys,
    version: u64,
    mutations: &[Mutation],
    limit: usize,
    queue: &mut Queue,
) -> Result<(), AllocError>
    requires chains { AreChains chains.old }
    requires upto { AreUpto version chains.old }
    ensures extends { Extends version chains.old chains.new }
    ensures notes { Notes version queue.old queue.new }
    ensures noted { AreNoted version chains.old queue.old → AreNoted version chains.new queue.new }
    ensures others { OnOk result (RowsStay (touched mutations.now) chains.old chains.new) }
    ensures ok { OnOk result ((key : Bytes) → value_at chains.new key version
        ≡ effects limit mutations.now key (value_at chains.old key version)) }
{
    write_counted::<Brand>(chains, version, mutations, limit, queue, Blank::new(1))
}

fn write_counted<L: Ledger>(
    chains: &mut Keys,
    version: u64,
    mutations: &[Mutation],
    limit: usize,
    queue: &mut Queue,
    blank: Blank,
) -> Result<(), AllocError>
    requires name { blank.name ≡ L.name }
    requires parts { blank.parts ≡ L.parts }
    requires some { 0 < blank.parts }
    requires chains { AreChains chains.old }
    requires upto { AreUpto version chains.old }
    ensures extends { Extends version chains.old chains.new }
    ensures notes { Notes version queue.old queue.new }
    ensures noted { AreNoted version chains.old queue.old → AreNoted version chains.new queue.new }
    ensures others { OnOk result (RowsStay (touched mutations.now) chains.old chains.new) }
    ensures ok { OnOk result ((key : Bytes) → value_at chains.new key version
        ≡ effects limit mutations.now key (value_at chains.old key version)) }
{
    let mut steps = Steps::<L>::new(blank);
    write_all(chains, version, mutations, limit, queue, &mut steps)
}

/// Takes the rows of the newest version away, at the keys that it touched.
fn cut(chains: &mut Keys, version: u64, queue: &mut Queue)
    requires chains { AreChains chains.old }
    requires upto { AreUpto version chains.old }
    requires noted { AreNoted version chains.old queue.old }
    requires order { AreInOrder queue.old }
    requires newest { AreTouchesUpto version queue.old }
    ensures chains { chains.new ≡ without version chains.old }
    ensures notes { Notes version queue.new queue.old }
    ensures older { AreTouchesBelow version queue.new }
{
    cut_counted::<Brand>(chains, version, queue, Blank::new(1));
}

fn cut_counted<L: Ledger>(chains: &mut Keys, version: u64, queue: &mut Queue, blank: Blank)
    requires name { blank.name ≡ L.name }
    requires parts { blank.parts ≡ L.parts }
    requires some { 0 < blank.parts }
    requires chains { AreChains chains.old }
    requires upto { AreUpto version chains.old }
    requires noted { AreNoted version chains.old queue.old }
    requires order { AreInOrder queue.old }
    requires newest { AreTouchesUpto version queue.old }
    ensures chains { chains.new ≡ without version chains.old }
    ensures notes { Notes version queue.new queue.old }
    ensures older { AreTouchesBelow version queue.new }
{
    let mut steps = Steps::<L>::new(blank);
    while let Some(key) = queue.pop_newest(version) {
        chains.cut(key.as_slice(), version, &mut steps);
    }
}

/// Forgets the rows up to the oldest version, but for the last one of a key where it has a value.
fn forget(chains: &mut Keys, oldest: u64, queue: &mut Queue)
    requires chains { AreChains chains.old }
    requires order { AreInOrder queue.old }
    requires due { AreDue oldest chains.old queue.old }
    ensures chains { chains.new ≡ all_forgotten oldest chains.old }
    ensures falls { Falls oldest queue.old queue.new }
    ensures newer { AreTouchesPast oldest queue.new }
{
    forget_counted::<Brand>(chains, oldest, queue, Blank::new(1));
}

fn forget_counted<L: Ledger>(chains: &mut Keys, oldest: u64, queue: &mut Queue, blank: Blank)
    requires name { blank.name ≡ L.name }
    requires parts { blank.parts ≡ L.parts }
    requires some { 0 < blank.parts }
    requires chains { AreChains chains.old }
    requires order { AreInOrder queue.old }
    requires due { AreDue oldest chains.old queue.old }
    ensures chains { chains.new ≡ all_forgotten oldest chains.old }
    ensures falls { Falls oldest queue.old queue.new }
    ensures newer { AreTouchesPast oldest queue.new }
{
    let mut steps = Steps::<L>::new(blank);
    while let Some(key) = queue.pop_oldest(oldest) {
        chains.forget(key.as_slice(), oldest, &mut steps);
    }
}

/// The first pairs of a range at a version.
fn scan(chains: &Keys, range: &KeyRange, version: u64, limit: usize) -> Result<Page, AllocError>
    requires { AreChains chains.now }
    ensures { IfOk result
        (λ page. IsPage (λ key. value_at chains.now key version) range.now limit page) }
{
    scan_counted::<Brand>(chains, range, version, limit, Blank::new(1))
}

fn scan_counted<L: Ledger>(
    chains: &Keys,
    range: &KeyRange,
    version: u64,
    limit: usize,
    blank: Blank,
) -> Result<Page, AllocError>
    requires name { blank.name ≡ L.name }
    requires parts { blank.parts ≡ L.parts }
    requires some { 0 < blank.parts }
    requires chains { AreChains chains.now }
    ensures { IfOk result
        (λ page. IsPage (λ key. value_at chains.now key version) range.now limit page) }
{
    let mut steps = Steps::<L>::new(blank);
    chains.scan(range, version, limit, &mut steps)
}

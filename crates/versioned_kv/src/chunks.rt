//! Keys with their rows in chunks, so that a new key moves the keys of its own chunk alone.

ghost use Rattle.std.specs.Prelude.{◌≡◌, ℕ, suc, ◌+◌, ◌-◌, ◌*◌, ◌<◌, ◌≤◌, ◌^◌, min, List, [], length, take, drop, slice_get, slice_set, Some, IfOk, OnOk, OnErr};
ghost use Rattle.std.specs.Option.{option_copied};
ghost use Rattle.versioned_kv.specs.declared.chain.Chain.{Chain};
ghost use Rattle.versioned_kv.specs.Chains.{rows_of, value_at};
ghost use Rattle.versioned_kv.specs.inner.Chains.{AreChains};
ghost use Rattle.versioned_kv.specs.inner.Chunks.{joined, AreFilled, BelongsTo};
ghost use Rattle.mutations.specs.Effects.{range_of};
ghost use Rattle.versioned_kv.specs.Edits.{without_rows};
ghost use Rattle.versioned_kv.specs.inner.Edits.{AreUpto, put_at, changed_at, all_cleared, IsClearedUpto};
ghost use Rattle.versioned_kv.specs.Forgotten.{forgotten};
ghost use Rattle.versioned_kv.specs.inner.Queued.{Notes, AreNoted};
ghost use Rattle.versioned_kv.specs.Pages.{IsPage};

use crate::chain::{Chain, Row};
use crate::queue::Queue;
use crate::table::Table;
use crate::{Page, Steps};
use fb_bytes::{Blob, KeyRange, Pairs, is_below};
use std::alloc::{AllocError, Global};
use std::sync::ledger::Ledger;

/// How many keys a chunk has before it is split.
const MOST: usize = 128;

/// The place of the chunk that a key belongs to.
pub fn chunk_of<L: Ledger>(chunks: &[Table<Chain>], key: &[u8], steps: &mut Steps<L>) -> usize
    requires chains { AreChains (joined chunks.now) }
    requires filled { AreFilled chunks.now }
    ensures belongs { BelongsTo key.now result chunks.now }
    ensures within { 0 < length chunks.now → result < length chunks.now }
    ensures steps { (d : ℕ) → length chunks.now < 2 ^ d → steps.new ≤ steps.old + d }
{
    let mut low = 0;
    let mut high = chunks.len();
    while low < high {
        let middle = low + (high - low) / 2;
        let first = chunks[middle].at(0, steps);
        if is_below(key, first.key.as_slice()) {
            high = middle;
        } else {
            low = middle + 1;
        }
    }
    low.saturating_sub(1)
}

/// What a version left at a key.
pub fn value<'a, L: Ledger>(
    chunks: &'a [Table<Chain>],
    key: &[u8],
    version: u64,
    steps: &mut Steps<L>,
) -> Option<&'a Blob>
    requires chains { AreChains (joined chunks.now) }
    requires filled { AreFilled chunks.now }
    ensures value { option_copied result ≡ value_at (joined chunks.now) key.now version }
    ensures steps { (d e : ℕ) → length (joined chunks.now) < 2 ^ d
        → length (rows_of (joined chunks.now) key.now) < 2 ^ e
        → steps.new ≤ steps.old + (2 * d + e + 2) }
{
    if chunks.is_empty() {
        return None;
    }
    let place = chunk_of(chunks, key, steps);
    chunks[place].value(key, version, steps)
}

/// How many keys there are, or the greatest `usize` where there are more.
pub fn count(chunks: &[Table<Chain>]) -> usize
    ensures { result ≡ min (length (joined chunks.now)) (2 ^ 64 - 1) }
{
    let mut keys = 0usize;
    for chunk in chunks {
        keys = keys.saturating_add(chunk.len());
    }
    keys
}

/// How many rows a key has.
pub fn count_of<L: Ledger>(chunks: &[Table<Chain>], key: &[u8], steps: &mut Steps<L>) -> usize
    requires chains { AreChains (joined chunks.now) }
    requires filled { AreFilled chunks.now }
    ensures { result ≡ length (rows_of (joined chunks.now) key.now) }
{
    if chunks.is_empty() {
        return 0;
    }
    let place = chunk_of(chunks, key, steps);
    match chunks[place].rows(key, steps) {
        Some(rows) => rows.len(),
        None => 0,
    }
}

/// Puts a row at the end of the rows of a key.
pub fn put<L: Ledger>(
    chunks: &mut Vec<Table<Chain>>,
    key: &[u8],
    row: Row,
    steps: &mut Steps<L>,
) -> Result<(), AllocError>
    requires chains { AreChains (joined chunks.old.items) }
    requires filled { AreFilled chunks.old.items }
    requires upto { AreUpto row.version (joined chunks.old.items) }
    ensures filled { AreFilled chunks.new.items }
    ensures ok { OnOk result
        (joined chunks.new.items ≡ put_at key.now row (joined chunks.old.items)) }
    ensures err { OnErr result (joined chunks.new.items ≡ joined chunks.old.items) }
{
    if chunks.is_empty() {
        return put_first(chunks, key, row);
    }
    let place = room_for(chunks, key, steps)?;
    put_in(chunks, place, key, row, steps)
}

/// The first key.
fn put_first(chunks: &mut Vec<Table<Chain>>, key: &[u8], row: Row) -> Result<(), AllocError>
    requires { chunks.old.items ≡ [] }
    ensures filled { AreFilled chunks.new.items }
    ensures ok { OnOk result (joined chunks.new.items ≡ put_at key.now row []) }
    ensures err { OnErr result (chunks.new.items ≡ []) }
{
    let alloc = *chunks.allocator();
    let mut chunk = Table::new(alloc);
    chunk.push(Chain::of_row(alloc, key, row)?)?;
    chunks.push(chunk)?;
    Ok(())
}

/// The place of the chunk that a key belongs to, which is split first where it is full.
fn room_for<L: Ledger>(
    chunks: &mut Vec<Table<Chain>>,
    key: &[u8],
    steps: &mut Steps<L>,
) -> Result<usize, AllocError>
    requires chains { AreChains (joined chunks.old.items) }
    requires filled { AreFilled chunks.old.items }
    requires some { 0 < length chunks.old.items }
    ensures filled { AreFilled chunks.new.items }
    ensures same { joined chunks.new.items ≡ joined chunks.old.items }
    ensures place { IfOk result (λ place. (place < length chunks.new.items)
        × BelongsTo key.now place chunks.new.items) }
{
    let place = chunk_of(chunks, key, steps);
    if chunks[place].len() < MOST {
        return Ok(place);
    }
    split(chunks, place)?;
    Ok(chunk_of(chunks, key, steps))
}

/// Splits a chunk in the middle.
fn split(chunks: &mut Vec<Table<Chain>>, place: usize) -> Result<(), AllocError>
    requires place { place < length chunks.old.items }
    requires filled { AreFilled chunks.old.items }
    requires two { (chunk : List Chain) → slice_get chunks.old.items place ≡ Some chunk
        → 2 ≤ length chunk }
    ensures filled { AreFilled chunks.new.items }
    ensures same { joined chunks.new.items ≡ joined chunks.old.items }
    ensures some { 0 < length chunks.new.items }
{
    chunks.reserve(1)?;
    let chunk = &mut chunks[place];
    let middle = chunk.len() / 2;
    let upper = chunk.split_off(middle)?;
    chunks.insert(place + 1, upper)?;
    Ok(())
}

/// Puts a row at the end of the rows of a key that belongs to a chunk.
fn put_in<L: Ledger>(
    chunks: &mut Vec<Table<Chain>>,
    place: usize,
    key: &[u8],
    row: Row,
    steps: &mut Steps<L>,
) -> Result<(), AllocError>
    requires place { place < length chunks.old.items }
    requires belongs { BelongsTo key.now place chunks.old.items }
    requires chains { AreChains (joined chunks.old.items) }
    requires filled { AreFilled chunks.old.items }
    requires upto { AreUpto row.version (joined chunks.old.items) }
    ensures filled { AreFilled chunks.new.items }
    ensures ok { OnOk result
        (joined chunks.new.items ≡ put_at key.now row (joined chunks.old.items)) }
    ensures err { OnErr result (joined chunks.new.items ≡ joined chunks.old.items) }
{
    let chunk = &mut chunks[place];
    chunk.put(key, row, steps)
}

/// Takes the values of the keys of a range away, and notes these keys. Without memory some may be left.
pub fn clear<L: Ledger>(
    chunks: &mut Vec<Table<Chain>>,
    begin: &[u8],
    end: &[u8],
    version: u64,
    queue: &mut Queue,
    steps: &mut Steps<L>,
) -> Result<(), AllocError>
    requires chains { AreChains (joined chunks.old.items) }
    requires filled { AreFilled chunks.old.items }
    requires upto { AreUpto version (joined chunks.old.items) }
    ensures filled { AreFilled chunks.new.items }
    ensures part { IsClearedUpto (range_of begin.now end.now) version (joined chunks.old.items)
        (joined chunks.new.items) }
    ensures ok { OnOk result
        (joined chunks.new.items ≡ all_cleared (range_of begin.now end.now) version
        (joined chunks.old.items)) }
    ensures notes { Notes version queue.old queue.new }
    ensures noted { AreNoted version (joined chunks.old.items) queue.old
        → AreNoted version (joined chunks.new.items) queue.new }
{
    if chunks.is_empty() {
        return Ok(());
    }
    let first = chunk_of(chunks, begin, steps);
    let last = chunk_of(chunks, end, steps);
    for place in first..last + 1 {
        clear_in(chunks, place, begin, end, version, queue, steps)?;
    }
    Ok(())
}

/// The same for the keys of one chunk.
fn clear_in<L: Ledger>(
    chunks: &mut Vec<Table<Chain>>,
    place: usize,
    begin: &[u8],
    end: &[u8],
    version: u64,
    queue: &mut Queue,
    steps: &mut Steps<L>,
) -> Result<(), AllocError>
    requires place { place < length chunks.old.items }
    requires chains { (chunk : List Chain) → slice_get chunks.old.items place ≡ Some chunk
        → AreChains chunk × AreUpto version chunk }
    ensures part { (chunk : List Chain) → slice_get chunks.old.items place ≡ Some chunk
        → (left : List Chain) × IsClearedUpto (range_of begin.now end.now) version chunk left
        × (chunks.new.items ≡ slice_set chunks.old.items place left) }
    ensures ok { OnOk result ((chunk : List Chain) → slice_get chunks.old.items place ≡ Some chunk
        → chunks.new.items
        ≡ slice_set chunks.old.items place
        (all_cleared (range_of begin.now end.now) version chunk)) }
    ensures notes { Notes version queue.old queue.new }
    ensures noted { AreNoted version (joined chunks.old.items) queue.old
        → AreNoted version (joined chunks.new.items) queue.new }
{
    let chunk = &mut chunks[place];
    chunk.clear(begin, end, version, queue, steps)
}

/// Takes the row of a version, to which no row is newer, from a key. It takes no memory.
pub fn cut<L: Ledger>(
    chunks: &mut Vec<Table<Chain>>,
    key: &[u8],
    version: u64,
    steps: &mut Steps<L>,
)
    requires chains { AreChains (joined chunks.old.items) }
    requires filled { AreFilled chunks.old.items }
    requires upto { AreUpto version (joined chunks.old.items) }
    ensures filled { AreFilled chunks.new.items }
    ensures cut { joined chunks.new.items
        ≡ changed_at (without_rows version) key.now (joined chunks.old.items) }
{
    if chunks.is_empty() {
        return;
    }
    let place = chunk_of(chunks, key, steps);
    cut_in(chunks, place, key, version, steps);
    drop_empty(chunks, place);
}

/// The same in one chunk.
fn cut_in<L: Ledger>(
    chunks: &mut Vec<Table<Chain>>,
    place: usize,
    key: &[u8],
    version: u64,
    steps: &mut Steps<L>,
)
    requires place { place < length chunks.old.items }
    requires chains { (chunk : List Chain) → slice_get chunks.old.items place ≡ Some chunk
        → AreChains chunk × AreUpto version chunk }
    ensures { (chunk : List Chain) → slice_get chunks.old.items place ≡ Some chunk
        → chunks.new.items
        ≡ slice_set chunks.old.items place
        (changed_at (without_rows version) key.now chunk) }
{
    let chunk = &mut chunks[place];
    chunk.cut(key, version, steps);
}

/// Forgets what falls of a key. It takes no memory.
pub fn forget<L: Ledger>(
    chunks: &mut Vec<Table<Chain>>,
    key: &[u8],
    oldest: u64,
    steps: &mut Steps<L>,
)
    requires chains { AreChains (joined chunks.old.items) }
    requires filled { AreFilled chunks.old.items }
    ensures filled { AreFilled chunks.new.items }
    ensures forgotten { joined chunks.new.items
        ≡ changed_at (forgotten oldest) key.now (joined chunks.old.items) }
{
    if chunks.is_empty() {
        return;
    }
    let place = chunk_of(chunks, key, steps);
    forget_in(chunks, place, key, oldest, steps);
    drop_empty(chunks, place);
}

/// The same in one chunk.
fn forget_in<L: Ledger>(
    chunks: &mut Vec<Table<Chain>>,
    place: usize,
    key: &[u8],
    oldest: u64,
    steps: &mut Steps<L>,
)
    requires place { place < length chunks.old.items }
    requires chains { (chunk : List Chain) → slice_get chunks.old.items place ≡ Some chunk
        → AreChains chunk }
    ensures { (chunk : List Chain) → slice_get chunks.old.items place ≡ Some chunk
        → chunks.new.items
        ≡ slice_set chunks.old.items place (changed_at (forgotten oldest) key.now chunk) }
{
    let chunk = &mut chunks[place];
    chunk.forget(key, oldest, steps);
}

/// Lets a chunk go where it has no key.
fn drop_empty(chunks: &mut Vec<Table<Chain>>, place: usize)
    requires place { place < length chunks.old.items }
    requires before { AreFilled (take place chunks.old.items) }
    requires behind { AreFilled (drop (suc place) chunks.old.items) }
    ensures filled { AreFilled chunks.new.items }
    ensures same { joined chunks.new.items ≡ joined chunks.old.items }
{
    if chunks[place].len() == 0 {
        chunks.remove(place);
    }
}

/// The first pairs of a range at a version, at most as many as the limit.
pub fn scan<L: Ledger>(
    chunks: &[Table<Chain>],
    range: &KeyRange,
    version: u64,
    limit: usize,
    alloc: Global,
    steps: &mut Steps<L>,
) -> Result<Page, AllocError>
    requires chains { AreChains (joined chunks.now) }
    requires filled { AreFilled chunks.now }
    ensures { IfOk result
        (λ page. IsPage (λ key. value_at (joined chunks.now) key version) range.now limit page) }
{
    let mut pairs = Vec::new(alloc);
    if chunks.is_empty() {
        let pairs = Pairs::from_vec(pairs);
        return Ok(Page { pairs, next: None });
    }
    let first = chunk_of(chunks, range.begin.as_slice(), steps);
    let last = chunk_of(chunks, range.end.as_slice(), steps);
    for place in first..last + 1 {
        let next = chunks[place].scan(range, version, limit, &mut pairs, steps)?;
        if next.is_some() {
            let pairs = Pairs::from_vec(pairs);
            return Ok(Page { pairs, next });
        }
    }
    let pairs = Pairs::from_vec(pairs);
    Ok(Page { pairs, next: None })
}

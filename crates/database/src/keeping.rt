//! An entry more, and an entry less, in all that a database keeps in step.

ghost use Rattle.std.specs.Prelude.{◌≡◌, ◌≤◌, ◌<◌, ℕ, List, Option, [], ◌∷◌, ◌++◌, OnOk, OnErr};
ghost use Rattle.std.specs.List.{AllByRecursion};
ghost use Rattle.mutations.specs.declared.Entry.{Entry};
ghost use Rattle.mutations.specs.Histories.{locked};
ghost use Rattle.database.specs.Logs.{JobLog, AreLoggable};
ghost use Rattle.database.specs.inner.Kept.{IsKept};

use crate::JobLog;
use crate::locking::{lock_after, lock_in};
use crate::logging::put_logs;
use crate::writes::put_entry;
use fb_bytes::Seq;
use log_keys::{LogKeys, newest_law};
use mutations::Entry;
use std::alloc::{AllocError, Global};
use versioned_kv::Store;

/// Puts an entry that is past all others at the end, and what logs take of it under keys, in parts
/// of `part` bytes. Without memory nothing that is seen changes.
pub fn put_kept(
    alloc: Global,
    history: &mut Seq<Entry>,
    store: &mut Store,
    keys: &mut LogKeys,
    logs: &[JobLog],
    entry: Entry,
    part: usize,
) -> Result<(), AllocError>
    requires part { 64 ≤ part }
    requires past { AllByRecursion (λ (earlier : Entry). earlier.version < entry.version)
        history.old }
    requires oldest { store.old.oldest < entry.version }
    requires logged { AreLoggable entry.muts logs.now }
    requires kept { (block : ℕ) × (lock : Option ℕ)
        × IsKept block history.old lock logs.now keys.old store.old }
    ensures ok { OnOk result (history.new ≡ history.old ++ entry ∷ []) }
    ensures err { OnErr result (history.new ≡ history.old) }
    ensures oldest { store.new.oldest ≡ store.old.oldest }
    ensures kept { (block : ℕ) (lock : Option ℕ)
        → IsKept block history.old lock logs.now keys.old store.old
        → IsKept block history.new (locked history.new) logs.now keys.new store.new }
{
    put_logs(alloc, keys, logs, &entry, part)?;
    let version = entry.version;
    match put_entry(history, store, entry) {
        Ok(()) => {
            newest_law();
            keys.in_order();
            Ok(())
        }
        Err(error) => {
            keys.retract(version);
            Err(error)
        }
    }
}

/// Takes the newest entry back, with what logs took of it.
pub fn take_kept(history: &mut Seq<Entry>, store: &mut Store, keys: &mut LogKeys)
    requires some { (front : List Entry) × (last : Entry) × (history.old ≡ front ++ last ∷ [])
        × (store.old.oldest < last.version) }
    requires kept { (block : ℕ) × (lock : Option ℕ) × (logs : List JobLog)
        × IsKept block history.old lock logs keys.old store.old }
    ensures front { (front : List Entry) (last : Entry) → history.old ≡ front ++ last ∷ []
        → history.new ≡ front }
    ensures oldest { store.new.oldest ≡ store.old.oldest }
    ensures kept { (block : ℕ) (lock : Option ℕ) (logs : List JobLog)
        → IsKept block history.old lock logs keys.old store.old
        → IsKept block history.new (locked history.new) logs keys.new store.new }
{
    if let Some(entry) = history.pop() {
        store.retract();
        keys.retract(entry.version);
    }
}

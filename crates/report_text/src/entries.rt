//! The lines of a history.

ghost use Rattle.std.specs.Prelude.{◌≡◌, ◌≤◌, true, [], ◌∷◌, ◌++◌, codes, decimal, length, IfSome, OnOk};
ghost use Rattle.std.specs.List.{flat_map, list_all};
ghost use Rattle.fb_bytes.specs.Words.{printed, is_plain};
ghost use Rattle.report_text.specs.Lines.{behind, line};
ghost use Rattle.report_text.specs.Entries.{who_words, mutation_line, entry_lines};

use crate::tail::Tail;
use crate::words::{put, put_bytes};
use fb_bytes::Blob;
use mutations::{Entry, Mutation, Who};
use std::alloc::{AllocError, Global};

/// The lines of all entries of the database of this name.
pub fn put_entries(
    alloc: Global,
    out: &mut Blob,
    database: &[u8],
    entries: &[Entry],
) -> Result<(), AllocError>
    requires { length database.now ≤ 20 }
    ensures { OnOk result (out.new ≡ out.old ++ flat_map (entry_lines database.now) entries.now) }
{
    for entry in entries {
        put_entry(alloc, out, database, entry)?;
    }
    Ok(())
}

fn put_entry(
    alloc: Global,
    out: &mut Blob,
    database: &[u8],
    entry: &Entry,
) -> Result<(), AllocError>
    requires { length database.now ≤ 20 }
    ensures { OnOk result (out.new ≡ out.old ++ entry_lines database.now entry.now) }
{
    put_head(out, database, entry.version, entry.who)?;
    put_mutations(alloc, out, entry.muts.as_slice())
}

/// The line above an entry's mutations.
fn put_head(out: &mut Blob, database: &[u8], version: u64, who: Who) -> Result<(), AllocError>
    requires { length database.now ≤ 20 }
    ensures { OnOk result
        (out.new ≡ out.old
        ++ line (codes "entry" ∷ database.now ∷ decimal version ∷ who_words who)) }
{
    let mut tail = who_of(who);
    tail.number(version);
    tail.text(b" ");
    tail.text(database);
    tail.text(b"entry ");
    put(out, tail.as_slice())
}

pub fn put_who(out: &mut Blob, who: Who) -> Result<(), AllocError>
    ensures { OnOk result (out.new ≡ out.old ++ behind (who_words who)) }
{
    put(out, who_of(who).as_slice())
}

/// The same for a line that is put together from the back.
fn who_of(who: Who) -> Tail
    ensures words { result ≡ behind (who_words who) }
    ensures len { length result ≤ 69 }
{
    match who {
        Who::Client { client, place } => {
            let mut tail = Tail::last(b" ", place);
            tail.number(u64::from(client));
            tail.text(b" client ");
            tail
        }
        Who::Load { job } => Tail::last(b" load ", job),
        Who::Apply { job } => Tail::last(b" apply ", job),
        Who::Lock { job } => Tail::last(b" lock ", job),
        Who::Unlock { job } => Tail::last(b" unlock ", job),
    }
}

pub fn put_mutations(
    alloc: Global,
    out: &mut Blob,
    mutations: &[Mutation],
) -> Result<(), AllocError>
    ensures { OnOk result (out.new ≡ out.old ++ flat_map mutation_line mutations.now) }
{
    for mutation in mutations {
        put_mutation(alloc, out, mutation)?;
    }
    Ok(())
}

fn put_mutation(alloc: Global, out: &mut Blob, mutation: &Mutation) -> Result<(), AllocError>
    ensures { OnOk result (out.new ≡ out.old ++ mutation_line mutation.now) }
{
    match mutation {
        Mutation::Set { key, value } => put_pair(alloc, out, b"set", key, value),
        Mutation::ClearRange { begin, end } => put_pair(alloc, out, b"clear", begin, end),
        Mutation::Atomic { op, key, param } => {
            put_pair(alloc, out, op.word().as_bytes(), key, param)
        }
    }
}

/// A line of a word and two texts of bytes.
pub fn put_pair(
    alloc: Global,
    out: &mut Blob,
    word: &[u8],
    first: &Blob,
    second: &Blob,
) -> Result<(), AllocError>
    ensures { OnOk result
        (out.new ≡ out.old ++ line (word.now ∷ printed first.now ∷ printed second.now ∷ [])) }
{
    match short_pair(word, first.as_slice(), second.as_slice()) {
        Some(tail) => put(out, tail.as_slice()),
        None => put_long_pair(alloc, out, word, first.as_slice(), second.as_slice()),
    }
}

fn put_long_pair(
    alloc: Global,
    out: &mut Blob,
    word: &[u8],
    first: &[u8],
    second: &[u8],
) -> Result<(), AllocError>
    ensures { OnOk result
        (out.new ≡ out.old ++ line (word.now ∷ printed first.now ∷ printed second.now ∷ [])) }
{
    put(out, word)?;
    put(out, b" ")?;
    put_bytes(alloc, out, first)?;
    put(out, b" ")?;
    put_bytes(alloc, out, second)?;
    put(out, b"\n")
}

/// The same line in one piece, where its words are short and each byte stands for itself.
fn short_pair(word: &[u8], first: &[u8], second: &[u8]) -> Option<Tail>
    ensures { IfSome result
        (λ tail. tail ≡ line (word.now ∷ printed first.now ∷ printed second.now ∷ [])) }
{
    if word.len() > 20 {
        return None;
    }
    if !is_short(first) {
        return None;
    }
    if !is_short(second) {
        return None;
    }
    let mut tail = Tail::new();
    tail.text(second);
    tail.text(b" ");
    tail.text(first);
    tail.text(b" ");
    tail.text(word);
    Some(tail)
}

/// Whether these are at most 64 bytes, at least one, and each stands for itself.
fn is_short(bytes: &[u8]) -> bool
    ensures printed { result ≡ true → printed bytes.now ≡ bytes.now }
    ensures few { result ≡ true → length bytes.now ≤ 64 }
{
    if bytes.is_empty() {
        return false;
    }
    if bytes.len() > 64 {
        return false;
    }
    are_plain(bytes)
}

fn are_plain(bytes: &[u8]) -> bool
    ensures { result ≡ list_all is_plain bytes.now }
{
    bytes
        .iter()
        .all(|byte| matches!(*byte, b'!'..=b'~') && *byte != b'\\')
}

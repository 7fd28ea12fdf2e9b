ghost use Rattle.std.specs.Prelude.{◌≡◌};
ghost use Rattle.workload_text.specs.Keywords as spec;

use crate::command_kind::command_of_word;
use crate::schedule::event_of_word;
use crate::setting::setting_of_word;
use crate::{CommandKind, EventKind, SettingKind};
use atomic_ops::Op;
use fb_bytes::is_same;

/// A word that reads in a transaction.
#[derive(Clone, Copy, Debug)]
pub enum ReadKind {
    Get,
    SnapshotGet,
    Scan,
}

/// A word that writes in a transaction.
#[derive(Clone, Copy, Debug)]
pub enum WriteKind {
    Set,
    Clear,
    ClearRange,
    Atomic(Op),
}

/// The first word of a line.
#[derive(Clone, Copy, Debug)]
pub enum Keyword {
    Setting(SettingKind),
    Death,
    Stall,
    Client,
    Txn,
    Read(ReadKind),
    Write(WriteKind),
    Operator,
    Command(CommandKind),
    Schedule,
    Event(EventKind),
}

/// The keyword that a word is, if it is one.
pub fn keyword_of(word: &[u8]) -> Option<Keyword>
    ensures { result ≡ spec.keyword_of word.now }
{
    if let Some(keyword) = plain_keyword(word) {
        return Some(keyword);
    }
    if let Some(kind) = event_of_word(word) {
        return Some(Keyword::Event(kind));
    }
    if let Some(op) = Op::from_word(word) {
        return Some(Keyword::Write(WriteKind::Atomic(op)));
    }
    if let Some(kind) = command_of_word(word) {
        return Some(Keyword::Command(kind));
    }
    let kind = setting_of_word(word)?;
    Some(Keyword::Setting(kind))
}

/// The keyword of a word that stands for nothing but a keyword.
fn plain_keyword(word: &[u8]) -> Option<Keyword>
    ensures { result ≡ spec.plain_keyword word.now }
{
    if is_same(word, b"set") {
        return Some(Keyword::Write(WriteKind::Set));
    }
    if is_same(word, b"clear") {
        return Some(Keyword::Write(WriteKind::Clear));
    }
    if is_same(word, b"clearrange") {
        return Some(Keyword::Write(WriteKind::ClearRange));
    }
    if is_same(word, b"get") {
        return Some(Keyword::Read(ReadKind::Get));
    }
    if is_same(word, b"sget") {
        return Some(Keyword::Read(ReadKind::SnapshotGet));
    }
    if is_same(word, b"scan") {
        return Some(Keyword::Read(ReadKind::Scan));
    }
    if is_same(word, b"txn") {
        return Some(Keyword::Txn);
    }
    if is_same(word, b"client") {
        return Some(Keyword::Client);
    }
    if is_same(word, b"operator") {
        return Some(Keyword::Operator);
    }
    if is_same(word, b"schedule") {
        return Some(Keyword::Schedule);
    }
    if is_same(word, b"death") {
        return Some(Keyword::Death);
    }
    if is_same(word, b"stall") {
        return Some(Keyword::Stall);
    }
    None
}

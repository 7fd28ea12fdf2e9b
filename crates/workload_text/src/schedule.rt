ghost use Rattle.std.specs.Prelude.{◌≡◌, true};
ghost use Rattle.workload_text.specs.inner.Ready.{fits};
ghost use Rattle.workload_text.specs.Kinds as spec;

use fb_bytes::{TryCopy, is_same};
use std::alloc::AllocError;

/// A line of a schedule: the event that is to come.
#[derive(Clone, Copy, Debug, PartialEq, Eq)]
pub enum ScheduleLine {
    Begin { client: u32 },
    Commit { client: u32 },
    /// Time passes.
    Tick { n: u64 },
    /// The agent claims a task: that with the greatest uid at or below the pick.
    Claim { agent: u32, pick: u64 },
    Extend { agent: u32 },
    Take { agent: u32 },
    Place { agent: u32 },
    Close { agent: u32 },
    Die { agent: u32 },
    /// The operator's next step.
    Op,
    /// Steps until the operator's script has ended.
    Drain,
}

/// Which event a line of a schedule is, whatever its numbers.
#[derive(Clone, Copy, Debug, PartialEq, Eq)]
pub enum EventKind {
    Begin,
    Commit,
    Tick,
    Claim,
    Extend,
    Take,
    Place,
    Close,
    Die,
    Op,
    Drain,
}

impl TryCopy for ScheduleLine {
    fn copy(&self) -> Result<Self, AllocError> {
        Ok(*self)
    }
}

impl EventKind {
    /// The kind of an event.
    pub fn of(event: &ScheduleLine) -> EventKind
        ensures { result ≡ spec.event_kind_of event.now }
    {
        match event {
            ScheduleLine::Begin { .. } => EventKind::Begin,
            ScheduleLine::Commit { .. } => EventKind::Commit,
            ScheduleLine::Tick { .. } => EventKind::Tick,
            ScheduleLine::Claim { .. } => EventKind::Claim,
            ScheduleLine::Extend { .. } => EventKind::Extend,
            ScheduleLine::Take { .. } => EventKind::Take,
            ScheduleLine::Place { .. } => EventKind::Place,
            ScheduleLine::Close { .. } => EventKind::Close,
            ScheduleLine::Die { .. } => EventKind::Die,
            ScheduleLine::Op => EventKind::Op,
            ScheduleLine::Drain => EventKind::Drain,
        }
    }

    /// The word that begins the event's line in a workload.
    pub fn word(self) -> &'static str
        ensures { result.now ≡ spec.event_word self }
    {
        match self {
            EventKind::Begin => "begin",
            EventKind::Commit => "commit",
            EventKind::Tick => "tick",
            EventKind::Claim => "claim",
            EventKind::Extend => "extend",
            EventKind::Take => "take",
            EventKind::Place => "place",
            EventKind::Close => "close",
            EventKind::Die => "die",
            EventKind::Op => "op",
            EventKind::Drain => "drain",
        }
    }
}

/// The event of a word, if the word is one's.
pub fn event_of_word(word: &[u8]) -> Option<EventKind>
    ensures { result ≡ spec.event_of_word word.now }
{
    if is_same(b"begin", word) {
        return Some(EventKind::Begin);
    }
    if is_same(b"commit", word) {
        return Some(EventKind::Commit);
    }
    if is_same(b"op", word) {
        return Some(EventKind::Op);
    }
    if is_same(b"tick", word) {
        return Some(EventKind::Tick);
    }
    if is_same(b"claim", word) {
        return Some(EventKind::Claim);
    }
    if is_same(b"extend", word) {
        return Some(EventKind::Extend);
    }
    if is_same(b"take", word) {
        return Some(EventKind::Take);
    }
    if is_same(b"place", word) {
        return Some(EventKind::Place);
    }
    if is_same(b"close", word) {
        return Some(EventKind::Close);
    }
    if is_same(b"die", word) {
        return Some(EventKind::Die);
    }
    if is_same(b"drain", word) {
        return Some(EventKind::Drain);
    }
    None
}

/// The event of a kind with these numbers.
pub fn event_with(kind: EventKind, n: u64, m: u64) -> ScheduleLine
    requires { fits kind n ≡ true }
    ensures { result ≡ spec.event_with kind n m }
{
    match kind {
        EventKind::Begin => ScheduleLine::Begin { client: n as u32 },
        EventKind::Commit => ScheduleLine::Commit { client: n as u32 },
        EventKind::Tick => ScheduleLine::Tick { n },
        EventKind::Claim => ScheduleLine::Claim {
            agent: n as u32,
            pick: m,
        },
        EventKind::Extend => ScheduleLine::Extend { agent: n as u32 },
        EventKind::Take => ScheduleLine::Take { agent: n as u32 },
        EventKind::Place => ScheduleLine::Place { agent: n as u32 },
        EventKind::Close => ScheduleLine::Close { agent: n as u32 },
        EventKind::Die => ScheduleLine::Die { agent: n as u32 },
        EventKind::Op => ScheduleLine::Op,
        EventKind::Drain => ScheduleLine::Drain,
    }
}

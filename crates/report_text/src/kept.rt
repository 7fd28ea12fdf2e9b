//! Answers of events, as they are kept: short ones in place.

ghost use Rattle.std.specs.Prelude.{◌≡◌, Ok, IfOk, IfSome};
ghost use Rattle.report_text.specs.inner.Replies.{kept_answer};

use crate::EventAnswer;
use client_core::{End, Outcome};
use cluster_core::Answer;
use std::alloc::{AllocError, Global};

/// Short answers stand in place, others behind a pointer.
#[derive(Debug, Drop)]
pub enum Kept {
    Read {
        version: u64,
    },
    Version {
        version: u64,
    },
    /// A try that was committed and has no reads.
    Commit {
        place: u64,
        attempt: u32,
        read: u64,
        version: u64,
    },
    Other(Box<EventAnswer>),
}

impl Kept {
    pub fn new(alloc: Global, answer: EventAnswer) -> Result<Self, AllocError>
        ensures { IfOk result (λ kept. kept_answer kept ≡ answer) }
    {
        match in_place(&answer) {
            Some(kept) => Ok(kept),
            None => Ok(Kept::Other(Box::new(alloc, answer)?)),
        }
    }
}

// An answer that stands in place.
fn in_place(answer: &EventAnswer) -> Option<Kept>
    ensures { IfSome result (λ kept. kept_answer kept ≡ answer.now) }
{
    match answer {
        EventAnswer::Step(Ok(Answer::Read { version })) => Some(Kept::Read { version: *version }),
        EventAnswer::Step(Ok(Answer::Version { version })) => {
            Some(Kept::Version { version: *version })
        }
        EventAnswer::Step(Ok(Answer::Outcome(outcome))) => committed(outcome),
        _ => None,
    }
}

// A commit without reads.
fn committed(outcome: &Outcome) -> Option<Kept>
    ensures { IfSome result
        (λ kept. kept_answer kept ≡ EventAnswer.Step (Ok (Answer.Outcome outcome.now))) }
{
    match &outcome.end {
        End::Commit { version, reads } if reads.is_empty() => Some(Kept::Commit {
            place: outcome.place,
            attempt: outcome.attempt,
            read: outcome.read,
            version: *version,
        }),
        _ => None,
    }
}

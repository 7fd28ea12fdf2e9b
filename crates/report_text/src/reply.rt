//! What an event was answered, as a report keeps it.

ghost use Rattle.std.specs.Prelude.{◌≡◌, ◌≤◌, ◌++◌, length, IfOk, IfSome, OnOk};
ghost use Rattle.report_text.specs.Lines.{behind};
ghost use Rattle.report_text.specs.Events.{reply_words, fault_in};

use crate::EventAnswer;
use crate::answers::{put_drain, put_step, short_step};
use crate::kept::Kept;
use crate::tail::Tail;
use crate::words::put_last;
use cluster_core::DrainFault;
use fb_bytes::Blob;
use std::alloc::{AllocError, Global};
use std::marker::Model;

/// What an event was answered, in little memory: a run may have a million events, and most of them
/// are answered with no more than some numbers.
#[derive(Debug, Drop)]
pub struct Reply {
    kept: Kept,
}

impl Model for Reply {
    ghost use Rattle.report_text.specs.declared.event_answer.EventAnswer.{EventAnswer};
    ghost use Rattle.report_text.specs.inner.Replies.{kept_answer};

    ghost Value = { EventAnswer };

    ghost view = { λ reply. kept_answer reply.kept };
}

impl Reply {
    pub fn new(alloc: Global, answer: EventAnswer) -> Result<Self, AllocError>
        ensures { IfOk result (λ reply. reply ≡ answer) }
    {
        let kept = Kept::new(alloc, answer)?;
        Ok(Reply { kept })
    }

    /// Why the event was refused, where it was.
    pub fn fault(&self) -> Option<DrainFault>
        ensures { result ≡ fault_in self.now }
    {
        match &self.kept {
            Kept::Other(answer) => fault_in(answer),
            _ => None,
        }
    }

    /// The end of its line, where that is short.
    pub(crate) fn short(&self) -> Option<Tail>
        ensures words { IfSome result (λ tail. tail ≡ behind (reply_words self.now)) }
        ensures len { IfSome result (λ tail. length tail ≤ 67) }
    {
        match &self.kept {
            Kept::Read { version } => Some(Tail::last(b" read ", *version)),
            Kept::Version { version } => Some(Tail::last(b" version ", *version)),
            Kept::Commit { version, .. } => Some(Tail::last(b" commit ", *version)),
            Kept::Other(answer) => short_answer(answer),
        }
    }

    /// Puts it as the last words of a line.
    pub(crate) fn put(&self, alloc: Global, out: &mut Blob) -> Result<(), AllocError>
        ensures { OnOk result (out.new ≡ out.old ++ behind (reply_words self.now)) }
    {
        match &self.kept {
            Kept::Read { version } => put_last(out, b" read ", *version),
            Kept::Version { version } => put_last(out, b" version ", *version),
            Kept::Commit { version, .. } => put_last(out, b" commit ", *version),
            Kept::Other(answer) => put_event_answer(alloc, out, answer),
        }
    }
}

fn fault_in(answer: &EventAnswer) -> Option<DrainFault>
    ensures { result ≡ fault_in answer.now }
{
    match answer {
        EventAnswer::Step(Err(fault)) => Some(DrainFault::Step(*fault)),
        EventAnswer::Drain(Err(fault)) => Some(*fault),
        _ => None,
    }
}

fn short_answer(answer: &EventAnswer) -> Option<Tail>
    ensures words { IfSome result (λ tail. tail ≡ behind (reply_words answer.now)) }
    ensures len { IfSome result (λ tail. length tail ≤ 67) }
{
    match answer {
        EventAnswer::Step(answer) => short_step(answer),
        EventAnswer::Drain(_) => None,
    }
}

fn put_event_answer(alloc: Global, out: &mut Blob, answer: &EventAnswer) -> Result<(), AllocError>
    ensures { OnOk result (out.new ≡ out.old ++ behind (reply_words answer.now)) }
{
    match answer {
        EventAnswer::Step(answer) => put_step(alloc, out, answer),
        EventAnswer::Drain(drained) => put_drain(out, *drained),
    }
}

//! What events are answered, each as the last words of a line.

ghost use Rattle.std.specs.Prelude.{◌≡◌, ◌≤◌, [], ◌∷◌, ◌++◌, codes, length, IfSome, OnOk};
ghost use Rattle.fb_bytes.specs.Words.{printed};
ghost use Rattle.cluster_core.specs.declared.Answer.TheVariants as answers;
ghost use Rattle.report_text.specs.Descriptions.{number_or_none};
ghost use Rattle.report_text.specs.Faults.{file_fault_words};
ghost use Rattle.report_text.specs.inner.Fields.{field_words};
ghost use Rattle.report_text.specs.Lines.{behind};
ghost use Rattle.report_text.specs.Jobs as spec;
ghost use Rattle.report_text.specs.Events.{refusal_words, status_word, answer_words, step_fault_words, step_words, drain_words};

use crate::described::put_number_or_none;
use crate::faults::put_file_fault;
use crate::jobs::{kind_word, state_word};
use crate::outcomes::{end_of, put_end};
use crate::tail::Tail;
use crate::words::{put, put_bytes, put_field, put_last};
use cluster_core::{Answer, DrainFault, JobState, Refusal, StepFault};
use container_view::FileFault;
use fb_bytes::{Blob, Text};
use std::alloc::{AllocError, Global};
use task_kinds::Kind;

/// What a step was answered, or why it was refused.
pub fn put_step(
    alloc: Global,
    out: &mut Blob,
    answer: &Result<Answer, StepFault>,
) -> Result<(), AllocError>
    ensures { OnOk result (out.new ≡ out.old ++ behind (step_words answer.now)) }
{
    match answer {
        Ok(answer) => put_answer(alloc, out, answer),
        Err(fault) => put_step_fault(out, *fault),
    }
}

/// How a drain ended.
pub fn put_drain(out: &mut Blob, drained: Result<u64, DrainFault>) -> Result<(), AllocError>
    ensures { OnOk result (out.new ≡ out.old ++ behind (drain_words drained)) }
{
    match drained {
        Ok(steps) => put_last(out, b" steps ", steps),
        Err(DrainFault::TurnsSpent { turns }) => put_last(out, b" turns-spent ", turns),
        Err(DrainFault::Step(fault)) => put_step_fault(out, fault),
    }
}

/// The answer to a client's step, where it is no more than the end of a line.
pub fn short_step(answer: &Result<Answer, StepFault>) -> Option<Tail>
    ensures words { IfSome result (λ tail. tail ≡ behind (step_words answer.now)) }
    ensures len { IfSome result (λ tail. length tail ≤ 67) }
{
    match answer {
        Ok(Answer::Read { version }) => Some(Tail::last(b" read ", *version)),
        Ok(Answer::Outcome(outcome)) => Some(end_of(&outcome.end)),
        _ => None,
    }
}

/// What a step was answered.
pub fn put_answer(alloc: Global, out: &mut Blob, answer: &Answer) -> Result<(), AllocError>
    ensures { OnOk result (out.new ≡ out.old ++ behind (answer_words answer.now)) }
{
    match answer {
        Answer::Nothing => put(out, b" none\n"),
        Answer::Read { version } => put_last(out, b" read ", *version),
        Answer::Outcome(outcome) => put_end(out, &outcome.end),
        Answer::Version { version } => put_last(out, b" version ", *version),
        Answer::NoTask => put(out, b" no-task\n"),
        Answer::Paused => put(out, b" paused\n"),
        Answer::Task { uid, kind, until } => put_task(out, *uid, *kind, *until),
        Answer::Until { until } => put_last(out, b" until ", *until),
        Answer::Taken { ticket } => put_last(out, b" taken ", *ticket),
        Answer::Loaded => put(out, b" loaded\n"),
        Answer::Closed { uid } => put_last(out, b" closed ", *uid),
        Answer::Interrupted { uid } => put_last(out, b" interrupted ", *uid),
        Answer::Dead => put(out, b" dead\n"),
        Answer::Going => put(out, b" going\n"),
        Answer::Lag { lag } => put_lag(out, *lag),
        Answer::Done => put(out, b" done\n"),
        Answer::Placed { name } => put_name(out, b" placed ", name),
        Answer::Refused(refusal) => put_refused(alloc, out, refusal),
        Answer::State { state } => put_status(out, *state),
    }
}

fn put_task(out: &mut Blob, uid: u64, kind: Kind, until: u64) -> Result<(), AllocError>
    ensures { OnOk result
        (out.new ≡ out.old ++ behind (answer_words (answers.Task uid kind until))) }
{
    put_field(out, b" task ", uid)?;
    put(out, b" ")?;
    put(out, kind.word().as_bytes())?;
    put_last(out, b" until ", until)
}

fn put_lag(out: &mut Blob, lag: Option<u64>) -> Result<(), AllocError>
    ensures { OnOk result (out.new ≡ out.old ++ behind (answer_words (answers.Lag lag))) }
{
    put(out, b" lag ")?;
    put_number_or_none(out, lag)?;
    put(out, b"\n")
}

fn put_refused(alloc: Global, out: &mut Blob, refusal: &Refusal) -> Result<(), AllocError>
    ensures { OnOk result
        (out.new ≡ out.old ++ behind (codes "refused" ∷ refusal_words refusal.now)) }
{
    put(out, b" refused")?;
    put_refusal(alloc, out, refusal)
}

fn put_refusal(alloc: Global, out: &mut Blob, refusal: &Refusal) -> Result<(), AllocError>
    ensures { OnOk result (out.new ≡ out.old ++ behind (refusal_words refusal.now)) }
{
    let (word, fields) = parts_of(refusal);
    put(out, b" ")?;
    put(out, word.as_bytes())?;
    put_fields(alloc, out, fields)
}

/// What stands behind the word of a refusal.
#[derive(Clone, Copy, Debug)]
enum Fields<'a> {
    Nothing,
    Number(u64),
    Numbers(Option<u64>, Option<u64>),
    Word(&'static str),
    Name(&'a Text),
    Key(&'a Blob),
    Damage(&'a Text, &'a FileFault),
}

/// The word of a refusal, and what stands behind it.
fn parts_of(refusal: &Refusal) -> (&'static str, Fields<'_>)
    ensures { refusal_words refusal.now ≡ result.0.now ∷ field_words result.1 }
{
    match refusal {
        Refusal::TagBusy { tag } => ("tag-busy", Fields::Name(tag)),
        Refusal::ContainerTaken { tag } => ("container-taken", Fields::Name(tag)),
        Refusal::ContainerInUse { name } => ("container-in-use", Fields::Name(name)),
        Refusal::NoJob { tag } => ("no-job", Fields::Name(tag)),
        Refusal::WrongKind { kind } => ("wrong-kind", Fields::Word(kind_word(*kind))),
        Refusal::WrongState { state } => ("wrong-state", Fields::Word(state_word(*state))),
        Refusal::OutsideRanges { key } => ("outside-ranges", Fields::Key(key)),
        Refusal::Overlap { key } => ("overlap", Fields::Key(key)),
        Refusal::NothingNew { version } => ("nothing-new", Fields::Number(*version)),
        Refusal::Untiled { key } => ("untiled", Fields::Key(key)),
        Refusal::Switching => ("switching", Fields::Nothing),
        Refusal::Paused => ("paused", Fields::Nothing),
        Refusal::AheadOfNow { now } => ("ahead-of-now", Fields::Number(*now)),
        Refusal::RestoreRunning { tag } => ("restore-running", Fields::Name(tag)),
        Refusal::NoContainer => ("no-container", Fields::Nothing),
        Refusal::NotRestorable { min, max } => ("not-restorable", Fields::Numbers(*min, *max)),
        Refusal::Damaged { name, fault } => ("damaged", Fields::Damage(name, fault)),
        Refusal::Missing { name } => ("missing", Fields::Name(name)),
        Refusal::CannotExpire { wanted, left } => {
            ("cannot-expire", Fields::Numbers(Some(*wanted), *left))
        }
        Refusal::SourceLocked { uid } => ("source-locked", Fields::Number(*uid)),
        Refusal::DestinationLocked { uid } => ("destination-locked", Fields::Number(*uid)),
        Refusal::DestinationNotEmpty { key } => ("destination-not-empty", Fields::Key(key)),
        Refusal::NotCopied { applied } => ("not-copied", Fields::Number(*applied)),
    }
}

fn put_fields(alloc: Global, out: &mut Blob, fields: Fields<'_>) -> Result<(), AllocError>
    ensures { OnOk result (out.new ≡ out.old ++ behind (field_words fields.entry)) }
{
    match fields {
        Fields::Nothing => put(out, b"\n"),
        Fields::Number(number) => put_last(out, b" ", number),
        Fields::Numbers(first, second) => put_numbers(out, first, second),
        Fields::Word(word) => put_word(out, b" ", word),
        Fields::Name(name) => put_name(out, b" ", name),
        Fields::Key(key) => put_key(alloc, out, b" ", key),
        Fields::Damage(name, fault) => put_damage(alloc, out, name, fault),
    }
}

fn put_numbers(out: &mut Blob, first: Option<u64>, second: Option<u64>) -> Result<(), AllocError>
    ensures { OnOk result
        (out.new ≡ out.old ++ behind (number_or_none first ∷ number_or_none second ∷ [])) }
{
    put(out, b" ")?;
    put_number_or_none(out, first)?;
    put(out, b" ")?;
    put_number_or_none(out, second)?;
    put(out, b"\n")
}

fn put_damage(
    alloc: Global,
    out: &mut Blob,
    name: &Text,
    fault: &FileFault,
) -> Result<(), AllocError>
    ensures { OnOk result (out.new ≡ out.old ++ behind (name.now ∷ file_fault_words fault.now)) }
{
    put(out, b" ")?;
    put(out, name.as_bytes())?;
    put_file_fault(alloc, out, fault)
}

fn put_status(out: &mut Blob, state: Option<JobState>) -> Result<(), AllocError>
    ensures { OnOk result (out.new ≡ out.old ++ behind (status_word state ∷ [])) }
{
    match state {
        Some(state) => put_state(out, b" ", state),
        None => put(out, b" never-ran\n"),
    }
}

fn put_step_fault(out: &mut Blob, fault: StepFault) -> Result<(), AllocError>
    ensures { OnOk result (out.new ≡ out.old ++ behind (step_fault_words fault)) }
{
    match fault {
        StepFault::VaultFault => put(out, b" vault-fault\n"),
        StepFault::VersionsSpent { version } => put_last(out, b" versions-spent ", version),
        StepFault::LogTooLarge { bytes } => put_last(out, b" log-too-large ", bytes),
        StepFault::NoMemory => put(out, b" no-memory\n"),
    }
}

// A tag or a name stands as it is.
fn put_name(out: &mut Blob, text: &[u8], name: &Text) -> Result<(), AllocError>
    ensures { OnOk result (out.new ≡ out.old ++ (text.now ++ (name.now ++ 10 ∷ []))) }
{
    put(out, text)?;
    put(out, name.as_bytes())?;
    put(out, b"\n")
}

fn put_word(out: &mut Blob, text: &[u8], word: &str) -> Result<(), AllocError>
    ensures { OnOk result (out.new ≡ out.old ++ (text.now ++ (word.now ++ 10 ∷ []))) }
{
    put(out, text)?;
    put(out, word.as_bytes())?;
    put(out, b"\n")
}

fn put_key(alloc: Global, out: &mut Blob, text: &[u8], key: &Blob) -> Result<(), AllocError>
    ensures { OnOk result (out.new ≡ out.old ++ (text.now ++ (printed key.now ++ 10 ∷ []))) }
{
    put(out, text)?;
    put_bytes(alloc, out, key.as_slice())?;
    put(out, b"\n")
}

fn put_state(out: &mut Blob, text: &[u8], state: JobState) -> Result<(), AllocError>
    ensures { OnOk result (out.new ≡ out.old ++ (text.now ++ (spec.state_word state ++ 10 ∷ []))) }
{
    put_word(out, text, state_word(state))
}

ghost use Rattle.std.specs.Prelude.{◌≡◌, ◌≤◌, Option, Some, None, Ok, Err, map, IfOk, IfSome, IsSome, IsErrOf, IsTrue, OnErr, ◌↔◌, ◌⊎◌};
ghost use Rattle.fb_outside.specs.Faults.{Counts};
ghost use Rattle.fb_cli.specs.Causes.{RoseInEach};
ghost use Rattle.fb_cli.specs.Faults.{status_of, fault_of, last_fault};
ghost use Rattle.fb_cli.specs.Fronts.{Starves, PlaysFront, LeavesFront};
ghost use Rattle.fb_cli.specs.Outside.{stream_change, store_change};
ghost use Rattle.fb_cli.specs.Runs.{event_of, command_of, next_kind, line_told, schedule_of, Answers, TellsTurns, Tells, IsRunReport, fault_in};
ghost use Rattle.fb_cli.specs.Replays.{IsPlayed, Replays, OwesStore, ReadsText};

use crate::fault::{Fault, last_fault};
use crate::later::{first_later, is_played};
use cluster_core::{DrainFault, Event, StepFault, World, faithful_law};
use fb_bytes::Seq;
use fb_outside::{ReadFault, Source, Vault, read_all};
use report_text::{EventAnswer, EventLine, Reply, Report, RunReport};
use std::alloc::{AllocError, Global};
use workload_text::{
    CommandKind, MOST_BYTES, ScheduleLine, TextFault, TextKind, Workload, read_workload,
};

/// The most events that a drain makes.
const MOST_TURNS: u64 = 10_000_000;

/// How a command ended: its status, what it has to tell, why it was refused, and the file store.
#[derive(Drop)]
pub struct Ended<V> {
    pub status: u8,
    pub report: Option<Report>,
    pub fault: Option<Fault>,
    pub vault: V,
}

/// Plays the workload whose text the source gives, over the files of the vault.
pub fn replay<S: Source, V: Vault>(alloc: Global, source: &mut S, vault: V) -> Ended<V>
    ensures replays { Replays
        (stream_change (S.left source.old) (S.left source.new) (S.faults source.old)
        (S.faults source.new))
        (store_change (V.files vault) (V.files result.vault) (V.faults vault)
        (V.faults result.vault))
        result.report
        result.fault }
    ensures status { result.status ≡ status_of result.fault }
    ensures store { OwesStore
        (store_change (V.files vault) (V.files result.vault) (V.faults vault)
        (V.faults result.vault)) result.fault }
{
    match read_text(alloc, source) {
        Ok(workload) => play(alloc, &workload, vault),
        Err(fault) => refused(fault, vault),
    }
}

// The workload that a source's text says.
fn read_text<S: Source>(alloc: Global, source: &mut S) -> Result<Workload, Fault>
    ensures { ReadsText
        (stream_change (S.left source.old) (S.left source.new) (S.faults source.old)
        (S.faults source.new)) result }
{
    let text = match read_all(alloc, source, MOST_BYTES) {
        Ok(text) => text,
        Err(ReadFault::Failed) => return Err(Fault::SourceFault),
        Err(ReadFault::TooLong) => {
            return Err(Fault::TextRefused {
                line: 0,
                kind: TextKind::Long,
            });
        }
        Err(ReadFault::NoMemory) => return Err(Fault::NoMemory),
    };
    match read_workload(alloc, text.as_slice(), false) {
        Ok(workload) => {
            if is_played(&workload) {
                return Ok(workload);
            }
            let line = first_later(text.as_slice()).unwrap_or(0);
            Err(Fault::NotBuilt { line })
        }
        Err(TextFault::Refused { line, kind }) => Err(Fault::TextRefused { line, kind }),
        Err(TextFault::NoMemory) => Err(Fault::NoMemory),
    }
}

// Nothing was played.
pub fn refused<V: Vault>(fault: Fault, vault: V) -> Ended<V>
    ensures report { result.report ≡ None }
    ensures fault { result.fault ≡ Some fault }
    ensures status { result.status ≡ status_of result.fault }
    ensures vault { result.vault ≡ vault }
{
    let fault = Some(fault);
    Ended {
        status: crate::fault::status_of(&fault),
        report: None,
        fault,
        vault,
    }
}

// Plays a workload's schedule.
fn play<V: Vault>(alloc: Global, workload: &Workload, vault: V) -> Ended<V>
    ensures fault { IsPlayed result.fault ⊎ (result.fault ≡ Some Fault.NoMemory) }
    ensures reported { IsSome result.report ↔ IsPlayed result.fault }
    ensures run { IfSome result.report
        (IsRunReport workload.now
        (store_change (V.files vault) (V.files result.vault) (V.faults vault)
        (V.faults result.vault))) }
    ensures front { LeavesFront workload.now
        (store_change (V.files vault) (V.files result.vault) (V.faults vault)
        (V.faults result.vault)) }
    ensures last { IfSome result.report (λ report. result.fault ≡ fault_in report) }
    ensures status { result.status ≡ status_of result.fault }
    ensures store { OwesStore
        (store_change (V.files vault) (V.files result.vault) (V.faults vault)
        (V.faults result.vault)) result.fault }
{
    faithful_law();
    let mut world = match World::open(alloc, workload, vault) {
        Ok(world) => world,
        Err(fault) => return refused(Fault::NoMemory, fault.vault),
    };
    let lines = make_steps(alloc, &mut world, workload.schedule.as_slice());
    let parts = world.into_parts();
    match lines {
        Ok(lines) => {
            let fault = last_fault(lines.as_slice());
            Ended {
                status: crate::fault::status_of(&fault),
                report: Some(Report::Run(RunReport {
                    lines,
                    commands: Seq::from_vec(Vec::new(alloc)),
                    outcomes: parts.outcomes,
                    src: parts.src,
                    dst: parts.dst,
                    jobs: parts.jobs,
                    end: parts.end,
                })),
                fault,
                vault: parts.vault,
            }
        }
        Err(AllocError) => refused(Fault::NoMemory, parts.vault),
    }
}

// Makes the steps of a schedule, and notes what each was answered.
fn make_steps<V: Vault>(
    alloc: Global,
    world: &mut World<V>,
    schedule: &[ScheduleLine],
) -> Result<Seq<EventLine>, AllocError>
    ensures run { IfOk result
        (λ lines. Tells world.old.workload world.old.state lines world.new.state) }
    ensures lines { IfOk result (λ lines. schedule_of lines ≡ schedule.now) }
    ensures causes { IfOk result (λ lines. RoseInEach lines world.old.faults world.new.faults) }
    ensures front { PlaysFront world.old.workload world.old.state schedule.now world.new.state
        world.old.faults world.new.faults }
    ensures workload { world.new.workload ≡ world.old.workload }
{
    let mut lines = Seq::from_vec(Vec::with_capacity(alloc, schedule.len())?);
    for line in schedule {
        let told = make_step(world, *line)?;
        let event_line = keep_line(alloc, *line, told)?;
        lines.push(event_line)?;
    }
    Ok(lines)
}

// A line of a schedule with its command and its answer.
fn keep_line(
    alloc: Global,
    line: ScheduleLine,
    told: (Option<CommandKind>, EventAnswer),
) -> Result<EventLine, AllocError>
    ensures { IfOk result (λ kept. kept ≡ line_told line told.0 told.1) }
{
    let (command, answer) = told;
    let reply = Reply::new(alloc, answer)?;
    Ok(EventLine {
        line,
        command,
        reply,
    })
}

// Makes the events of one line of a schedule. With what it was answered comes its command.
fn make_step<V: Vault>(
    world: &mut World<V>,
    line: ScheduleLine,
) -> Result<(Option<CommandKind>, EventAnswer), AllocError>
    ensures step { IfOk result
        (λ told. TellsTurns world.old.workload world.old.state (line_told line told.0 told.1)
        world.new.state) }
    ensures workload { world.new.workload ≡ world.old.workload }
    ensures faults { IfOk result
        (λ told. Counts world.old.faults world.new.faults
        (fault_of told.1 ≡ Some Fault.VaultFault)) }
    ensures starved { OnErr result
        (Starves world.old.workload world.old.state line world.new.state) }
    ensures later { world.old.faults ≤ world.new.faults }
{
    let command = command_of(world, line);
    let answer = answer_of(world, line);
    if is_starved(&answer) {
        return Err(AllocError);
    }
    Ok((command, answer))
}

// What a schedule's line is answered.
fn answer_of<V: Vault>(world: &mut World<V>, line: ScheduleLine) -> EventAnswer
    ensures answers { Answers world.old.workload world.old.state line result world.new.state }
    ensures workload { world.new.workload ≡ world.old.workload }
    ensures faults { Counts world.old.faults world.new.faults
        (fault_of result ≡ Some Fault.VaultFault) }
    ensures starved { fault_of result ≡ Some Fault.NoMemory
        → Starves world.old.workload world.old.state line world.new.state }
{
    match event_of(line) {
        Some(event) => EventAnswer::Step(world.step(&event)),
        None => EventAnswer::Drain(world.drain(MOST_TURNS)),
    }
}

// There was no memory for the event.
fn is_starved(answer: &EventAnswer) -> bool
    ensures { IsTrue result ↔ (fault_of answer.now ≡ Some Fault.NoMemory) }
{
    matches!(
        answer,
        EventAnswer::Step(Err(StepFault::NoMemory))
            | EventAnswer::Drain(Err(DrainFault::Step(StepFault::NoMemory)))
    )
}

// The command that a schedule's line makes a step of.
fn command_of<V: Vault>(world: &World<V>, line: ScheduleLine) -> Option<CommandKind>
    ensures { result ≡ command_of world.now.workload world.now.state line }
{
    match line {
        ScheduleLine::Begin { .. }
        | ScheduleLine::Commit { .. }
        | ScheduleLine::Tick { .. }
        | ScheduleLine::Claim { .. }
        | ScheduleLine::Extend { .. }
        | ScheduleLine::Die { .. }
        | ScheduleLine::Drain => None,
        _ => next_kind(world),
    }
}

// The kind of the operator's next command.
fn next_kind<V: Vault>(world: &World<V>) -> Option<CommandKind>
    ensures { result ≡ next_kind world.now.workload world.now.state }
{
    match world.command() {
        Some(command) => Some(CommandKind::of(command)),
        None => None,
    }
}

// The event of a schedule's line; a drain makes its own.
fn event_of(line: ScheduleLine) -> Option<Event>
    ensures { result ≡ event_of line }
{
    match line {
        ScheduleLine::Begin { client } => Some(Event::Begin { client }),
        ScheduleLine::Commit { client } => Some(Event::Commit { client }),
        ScheduleLine::Tick { n } => Some(Event::Tick { n }),
        ScheduleLine::Claim { agent, pick } => Some(Event::Claim { agent, pick }),
        ScheduleLine::Extend { agent } => Some(Event::Extend { agent }),
        ScheduleLine::Die { agent } => Some(Event::Die { agent }),
        ScheduleLine::Drain => None,
        _ => Some(Event::Command),
    }
}

ghost use Rattle.std.specs.Prelude.{◌≡◌, Some, ◌++◌, decimal, IfOk};
ghost use Rattle.fb_cli.specs.Faults.{status_of, refusal_line, fault_of, refusal_of_step, refusal_of_event, last_fault};
ghost use Rattle.fb_cli.specs.Expires.{refusal_of_expire};
ghost use Rattle.fb_cli.specs.Restores.{refusal_of};

use cluster_core::{DrainFault, StepFault};
use container_view::{FileFault, ViewFault};
use expire_core::ExpireFault;
use fb_bytes::{Blob, Text};
use itoa::Buffer;
use report_text::{EventLine, Reply, put_file_fault, put_number_or_none};
use std::alloc::{AllocError, Global};
use workload_text::TextKind;

/// Why a command was refused.
#[derive(Debug, Drop)]
pub enum Fault {
    /// The words aren't a command of the program.
    Usage,
    /// The text says no workload: its first line that isn't allowed, from 1, and why; line 0 where it
    /// is too long.
    TextRefused { line: u64, kind: TextKind },
    /// The source failed.
    SourceFault,
    /// The sink failed.
    SinkFault,
    /// The file store failed: in a replay, in its last step.
    VaultFault,
    /// The container doesn't advertise the version. These are the least and the greatest version that
    /// it does, where there are any.
    NotRestorable { min: Option<u64>, max: Option<u64> },
    /// The bytes of this file aren't in their grammar, or its range overlaps another one's.
    Damaged { name: Text, fault: FileFault },
    /// No version at or past the wanted one would stay in the container. The greatest that would is
    /// `left`, where there is one.
    CannotExpire { wanted: u64, left: Option<u64> },
    /// The last event was a drain that made so many events, and the script hadn't ended.
    TurnsSpent { turns: u64 },
    /// The last step would take a version past the greatest one; the version is the newest.
    VersionsSpent { version: u64 },
    /// The last step's entry has too many bytes for a job's log.
    LogTooLarge { bytes: u64 },
    /// There was no memory.
    NoMemory,
    /// The container has no file.
    NoContainer,
    /// A file that is needed isn't there.
    Missing { name: Text },
    /// This isn't played yet: the text's first line of that sort, from 1, and 0 for words.
    NotBuilt { line: u64 },
}

/// The status that a command ends with.
pub fn status_of(fault: &Option<Fault>) -> u8
    ensures { result ≡ status_of fault.now }
{
    match fault {
        None => 0,
        Some(Fault::Usage) => 1,
        Some(Fault::TextRefused { .. }) => 2,
        Some(Fault::SourceFault) => 3,
        Some(Fault::SinkFault) => 4,
        Some(Fault::VaultFault) => 5,
        Some(Fault::NotRestorable { .. }) => 6,
        Some(Fault::Damaged { .. }) => 7,
        Some(Fault::CannotExpire { .. }) => 8,
        Some(Fault::TurnsSpent { .. }) => 9,
        Some(Fault::VersionsSpent { .. }) => 10,
        Some(Fault::NoMemory) => 12,
        Some(Fault::NoContainer) => 13,
        Some(Fault::Missing { .. }) => 14,
        Some(Fault::NotBuilt { .. }) => 15,
        Some(Fault::LogTooLarge { .. }) => 19,
    }
}

/// The refusal by the answer of the last event.
pub fn last_fault(lines: &[EventLine]) -> Option<Fault>
    ensures { result ≡ last_fault lines.now }
{
    match lines.last() {
        Some(line) => fault_of(&line.reply),
        None => None,
    }
}

// The refusal of a command whose last event was answered so.
fn fault_of(reply: &Reply) -> Option<Fault>
    ensures { result ≡ fault_of reply.now }
{
    match reply.fault() {
        Some(fault) => Some(refusal_of_event(fault)),
        None => None,
    }
}

// The refusal of a command whose last event was refused so.
fn refusal_of_event(fault: DrainFault) -> Fault
    ensures { result ≡ refusal_of_event fault }
{
    match fault {
        DrainFault::TurnsSpent { turns } => Fault::TurnsSpent { turns },
        DrainFault::Step(fault) => refusal_of_step(fault),
    }
}

// The refusal of a command whose last step was refused so.
fn refusal_of_step(fault: StepFault) -> Fault
    ensures { result ≡ refusal_of_step fault }
{
    match fault {
        StepFault::VaultFault => Fault::VaultFault,
        StepFault::VersionsSpent { version } => Fault::VersionsSpent { version },
        StepFault::LogTooLarge { bytes } => Fault::LogTooLarge { bytes },
        StepFault::NoMemory => Fault::NoMemory,
    }
}

/// The refusal by what is wrong with a container.
pub fn refusal_of(fault: ViewFault) -> Fault
    ensures { result ≡ refusal_of fault }
{
    match fault {
        ViewFault::NoContainer => Fault::NoContainer,
        ViewFault::NotRestorable { min, max } => Fault::NotRestorable { min, max },
        ViewFault::Damaged { name, fault } => Fault::Damaged { name, fault },
        ViewFault::Missing { name } => Fault::Missing { name },
        ViewFault::VaultFault => Fault::VaultFault,
        ViewFault::NoMemory => Fault::NoMemory,
    }
}

/// The refusal by what an expire was refused for.
pub fn refusal_of_expire(fault: ExpireFault) -> Fault
    ensures { result ≡ refusal_of_expire fault }
{
    match fault {
        ExpireFault::View { fault } => refusal_of(fault),
        ExpireFault::CannotExpire { wanted, left } => Fault::CannotExpire { wanted, left },
    }
}

/// Adds the line of a refusal, where it has one.
pub fn push_refusal(alloc: Global, out: &mut Blob, fault: &Option<Fault>) -> Result<(), AllocError>
    ensures { IfOk result (λ _. out.new ≡ out.old ++ refusal_line fault.now) }
{
    match fault {
        Some(Fault::Usage) => out.extend_from_slice(b"refused usage\n"),
        Some(Fault::TextRefused { line, kind }) => push_text_refused(out, *line, *kind),
        Some(Fault::SourceFault) => out.extend_from_slice(b"refused source-fault\n"),
        Some(Fault::VaultFault) => out.extend_from_slice(b"refused vault-fault\n"),
        Some(Fault::NotRestorable { min, max }) => push_not_restorable(out, *min, *max),
        Some(Fault::Damaged { name, fault }) => push_damaged(alloc, out, name, fault),
        Some(Fault::TurnsSpent { turns }) => {
            push_number(out, b"refused turns-spent ", *turns, b"\n")
        }
        Some(Fault::VersionsSpent { version }) => {
            push_number(out, b"refused versions-spent ", *version, b"\n")
        }
        Some(Fault::LogTooLarge { bytes }) => {
            push_number(out, b"refused log-too-large ", *bytes, b"\n")
        }
        Some(Fault::CannotExpire { wanted, left }) => push_cannot_expire(out, *wanted, *left),
        Some(Fault::NoContainer) => out.extend_from_slice(b"refused no-container\n"),
        Some(Fault::Missing { name }) => push_missing(out, name),
        Some(Fault::NotBuilt { line }) => push_number(out, b"refused not-built ", *line, b"\n"),
        None | Some(Fault::SinkFault) | Some(Fault::NoMemory) => Ok(()),
    }
}

// A text, a number, and a text behind it.
fn push_number(out: &mut Blob, front: &[u8], number: u64, back: &[u8]) -> Result<(), AllocError>
    ensures { IfOk result (λ _. out.new ≡ out.old ++ (front.now ++ (decimal number ++ back.now))) }
{
    let mut buffer = Buffer::new();
    out.extend_from_slice(front)?;
    out.extend_from_slice(buffer.format(number).as_bytes())?;
    out.extend_from_slice(back)
}

fn push_text_refused(out: &mut Blob, line: u64, kind: TextKind) -> Result<(), AllocError>
    ensures { IfOk result
        (λ _. out.new ≡ out.old ++ refusal_line (Some (Fault.TextRefused line kind))) }
{
    out.extend_from_slice(b"refused text ")?;
    put_number_or_none(out, Some(line))?;
    out.extend_from_slice(b" ")?;
    out.extend_from_slice(kind.word().as_bytes())?;
    out.extend_from_slice(b"\n")?;
    Ok(())
}

fn push_not_restorable(out: &mut Blob, min: Option<u64>, max: Option<u64>) -> Result<(), AllocError>
    ensures { IfOk result
        (λ _. out.new ≡ out.old ++ refusal_line (Some (Fault.NotRestorable min max))) }
{
    out.extend_from_slice(b"refused not-restorable ")?;
    put_number_or_none(out, min)?;
    out.extend_from_slice(b" ")?;
    put_number_or_none(out, max)?;
    out.extend_from_slice(b"\n")?;
    Ok(())
}

fn push_cannot_expire(out: &mut Blob, wanted: u64, left: Option<u64>) -> Result<(), AllocError>
    ensures { IfOk result
        (λ _. out.new ≡ out.old ++ refusal_line (Some (Fault.CannotExpire wanted left))) }
{
    out.extend_from_slice(b"refused cannot-expire ")?;
    put_number_or_none(out, Some(wanted))?;
    out.extend_from_slice(b" ")?;
    put_number_or_none(out, left)?;
    out.extend_from_slice(b"\n")?;
    Ok(())
}

fn push_damaged(
    alloc: Global,
    out: &mut Blob,
    name: &Text,
    fault: &FileFault,
) -> Result<(), AllocError>
    ensures { IfOk result
        (λ _. out.new ≡ out.old ++ refusal_line (Some (Fault.Damaged name.now fault.now))) }
{
    out.extend_from_slice(b"refused damaged ")?;
    out.extend_from_slice(name.as_bytes())?;
    put_file_fault(alloc, out, fault)?;
    Ok(())
}

fn push_missing(out: &mut Blob, name: &Text) -> Result<(), AllocError>
    ensures { IfOk result (λ _. out.new ≡ out.old ++ refusal_line (Some (Fault.Missing name.now))) }
{
    out.extend_from_slice(b"refused missing ")?;
    out.extend_from_slice(name.as_bytes())?;
    out.extend_from_slice(b"\n")
}

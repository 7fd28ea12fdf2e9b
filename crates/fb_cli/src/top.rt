ghost use Rattle.std.specs.Prelude.{◌≡◌, Option, IfOk};
ghost use Rattle.fb_cli.specs.declared.fault.Fault.{Fault};
ghost use Rattle.fb_cli.specs.Outside.{stream_change, store_change};
ghost use Rattle.fb_cli.specs.Replays.{OwesStore};
ghost use Rattle.fb_cli.specs.inner.Words.{request_in};
ghost use Rattle.fb_cli.specs.Requests.{request_of, is_brief};
ghost use Rattle.fb_cli.specs.Shows.{Does, Shows, shown, report_part};

use crate::describe::describe_words;
use crate::expire::expire_words;
use crate::fault::{Fault, push_refusal, status_of};
use crate::list::list_words;
use crate::replay::{Ended, refused, replay};
use crate::restore::restore_words;
use crate::words::{Asked, words_ask};
use fb_bytes::{Blob, Text};
use fb_outside::{Sink, Source, Vault, write_all};
use report_text::{Report, report_bytes};
use std::alloc::{AllocError, Global};

/// How the program ends: its status, what it had to tell, and the file store.
#[derive(Drop)]
pub struct Exit<V> {
    pub status: u8,
    pub report: Option<Report>,
    pub vault: V,
}

/// Does what the words say, and writes the report and then the line of a refusal to the sink.
pub fn top<S: Source, V: Vault, K: Sink>(
    alloc: Global,
    words: &[Text],
    source: &mut S,
    vault: V,
    sink: &mut K,
) -> Exit<V>
    ensures command { (fault : Option Fault)
        × Does (request_of words.now)
        (stream_change (S.left source.old) (S.left source.new) (S.faults source.old)
        (S.faults source.new))
        (store_change (V.files vault) (V.files result.vault) (V.faults vault)
        (V.faults result.vault))
        result.report
        fault
        × OwesStore
        (store_change (V.files vault) (V.files result.vault) (V.faults vault)
        (V.faults result.vault))
        fault
        × Shows
        (is_brief (request_of words.now))
        (stream_change (K.held sink.old) (K.held sink.new) (K.faults sink.old) (K.faults sink.new))
        result.report
        fault
        result.status }
{
    let asked = words_ask(words);
    let brief = crate::words::is_brief(&asked);
    let ended = command(alloc, asked, source, vault);
    let status = show(alloc, sink, brief, &ended.report, &ended.fault);
    let Ended {
        status: _,
        report,
        fault: _,
        vault,
    } = ended;
    Exit {
        status,
        report,
        vault,
    }
}

// Does what is asked for.
fn command<S: Source, V: Vault>(
    alloc: Global,
    asked: Asked<'_>,
    source: &mut S,
    vault: V,
) -> Ended<V>
    ensures does { Does (request_in asked.entry)
        (stream_change (S.left source.old) (S.left source.new) (S.faults source.old)
        (S.faults source.new))
        (store_change (V.files vault) (V.files result.vault) (V.faults vault)
        (V.faults result.vault))
        result.report
        result.fault }
    ensures store { OwesStore
        (store_change (V.files vault) (V.files result.vault) (V.faults vault)
        (V.faults result.vault)) result.fault }
{
    match asked {
        Asked::Replay { brief: _ } => replay(alloc, source, vault),
        Asked::Restore { container, version } => restore_words(alloc, vault, container, version),
        Asked::Describe { container } => describe_words(alloc, vault, container),
        Asked::Expire {
            container,
            cutoff,
            wanted,
            force,
        } => expire_words(alloc, vault, container, cutoff, wanted, force),
        Asked::List => list_words(alloc, vault),
        Asked::Later => refused(Fault::NotBuilt { line: 0 }, vault),
        Asked::Misused => refused(Fault::Usage, vault),
    }
}

// Writes what a command tells, and answers the status.
fn show<K: Sink>(
    alloc: Global,
    sink: &mut K,
    brief: bool,
    report: &Option<Report>,
    fault: &Option<Fault>,
) -> u8
    ensures { Shows
        brief
        (stream_change (K.held sink.old) (K.held sink.new) (K.faults sink.old) (K.faults sink.new))
        report.now
        fault.now
        result }
{
    match shown(alloc, brief, report, fault) {
        Ok(text) => match write_all(sink, text.as_slice()) {
            Ok(()) => status_of(fault),
            Err(_) => status_of(&Some(Fault::SinkFault)),
        },
        Err(AllocError) => status_of(&Some(Fault::NoMemory)),
    }
}

// The report, and then the line of a refusal.
fn shown(
    alloc: Global,
    brief: bool,
    report: &Option<Report>,
    fault: &Option<Fault>,
) -> Result<Blob, AllocError>
    ensures { IfOk result (λ text. text ≡ shown brief report.now fault.now) }
{
    let mut text = report_text(alloc, brief, report)?;
    push_refusal(alloc, &mut text, fault)?;
    Ok(text)
}

fn report_text(alloc: Global, brief: bool, report: &Option<Report>) -> Result<Blob, AllocError>
    ensures { IfOk result (λ text. text ≡ report_part brief report.now) }
{
    match report {
        Some(report) => report_bytes(alloc, report, brief),
        None => Ok(Blob::new(alloc)),
    }
}

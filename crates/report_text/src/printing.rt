ghost use Rattle.std.specs.Prelude.{◌≡◌, ◌++◌, IfOk, OnOk};
ghost use Rattle.report_text.specs.Reports.{details, end_line, run_text, report_text};

use crate::commands::put_operator;
use crate::described::put_described;
use crate::entries::put_entries;
use crate::events::put_events;
use crate::jobs::put_jobs;
use crate::listed::put_listed;
use crate::outcomes::put_outcomes;
use crate::restored::put_restored;
use crate::words::put_last;
use crate::{Report, RunReport};
use client_core::Outcomes;
use fb_bytes::{Blob, Seq};
use mutations::Entry;
use std::alloc::{AllocError, Global};

/// The bytes of a report. A brief one leaves out the clients' tries and the histories.
pub fn report_bytes(alloc: Global, report: &Report, brief: bool) -> Result<Blob, AllocError>
    ensures { IfOk result (λ bytes. bytes ≡ report_text brief report.now) }
{
    let mut out = Blob::new(alloc);
    match report {
        Report::Run(run) => put_run(alloc, &mut out, run, brief)?,
        Report::Restored(told) => put_restored(alloc, &mut out, told)?,
        Report::Described(told) => put_described(&mut out, told)?,
        Report::Expired { deleted } => put_last(&mut out, b"deleted ", *deleted)?,
        Report::Listed(names) => put_listed(&mut out, names.as_slice())?,
    }
    Ok(out)
}

fn put_run(alloc: Global, out: &mut Blob, run: &RunReport, brief: bool) -> Result<(), AllocError>
    ensures { OnOk result (out.new ≡ out.old ++ run_text brief run.now) }
{
    put_events(alloc, out, run.lines.as_slice())?;
    put_operator(alloc, out, run.commands.as_slice())?;
    if !brief {
        put_details(alloc, out, &run.outcomes, &run.src, &run.dst)?;
    }
    put_jobs(out, &run.jobs)?;
    put_newest(out, run.end)
}

/// What a brief report leaves out.
pub fn put_details(
    alloc: Global,
    out: &mut Blob,
    outcomes: &Outcomes,
    src: &Seq<Entry>,
    dst: &Seq<Entry>,
) -> Result<(), AllocError>
    ensures { OnOk result (out.new ≡ out.old ++ details outcomes.now src.now dst.now) }
{
    put_outcomes(alloc, out, outcomes)?;
    put_entries(alloc, out, b"src", src.as_slice())?;
    put_entries(alloc, out, b"dst", dst.as_slice())
}

/// The last line.
pub fn put_newest(out: &mut Blob, version: u64) -> Result<(), AllocError>
    ensures { OnOk result (out.new ≡ out.old ++ end_line version) }
{
    put_last(out, b"end ", version)
}

//! Log files in the order of their begins, and what is found there by halving.

ghost use Rattle.std.specs.Prelude.{◌≡◌, ◌<◌, option_map, None, IfOk, IfSome};
ghost use Rattle.container_view.specs.Chain as spec;
ghost use Rattle.container_view.specs.Names.{logs_named};
ghost use Rattle.container_view.specs.inner.Listed.{IsRisingBy, log_of, log_named, plain_logs, logs_of, bests, better, best_in, runs_of, reach_in, HaveSameBest, AreSorted, TellsBest, TellsReach};
ghost use Rattle.file_names.specs.Reading.{name_of};

use crate::sorting::SortedNames;
use fb_bytes::{Text, is_below};
use std::alloc::{AllocError, Global};

/// A log file by its name.
#[derive(Debug, Drop)]
pub(crate) struct NamedLog<'a> {
    pub name: &'a Text,
    pub begin: u64,
    pub end: u64,
}

/// Versions without a gap that log files have: from `begin` on and before `end`.
#[derive(Debug, Drop)]
pub(crate) struct Run {
    pub begin: u64,
    pub end: u64,
}

/// The log files, each with the name and the end of the one that comes first among those up to it.
pub(crate) fn best_logs<'a>(
    alloc: Global,
    sorted: &SortedNames<'a>,
) -> Result<Vec<NamedLog<'a>>, AllocError>
    requires { AreSorted sorted.now }
    ensures rising { IfOk result (λ list. IsRisingBy (λ log. log.begin) 0 list.items) }
    ensures same { IfOk result
        (λ list. TellsBest (logs_of list.items) (logs_named sorted.now.names.now)) }
{
    with_bests(alloc, &sorted.logs)
}

/// The runs of the versions that the log files have.
pub(crate) fn runs(alloc: Global, sorted: &SortedNames<'_>) -> Result<Vec<Run>, AllocError>
    requires { AreSorted sorted.now }
    ensures rising { IfOk result (λ runs. IsRisingBy (λ run. run.begin) 0 runs.items) }
    ensures same { IfOk result (λ runs. TellsReach runs.items (logs_named sorted.now.names.now)) }
{
    joined(alloc, &sorted.logs)
}

/// Of log files in the order of their begins, the name and end of the one that comes first among
/// those that have the version.
pub(crate) fn best_at<'a>(logs: &[NamedLog<'a>], version: u64) -> Option<(&'a Text, u64)>
    requires { IsRisingBy (λ log. log.begin) 0 logs.now }
    ensures same { option_map (λ x. (x.0.now, x.1)) result ≡ best_in (logs_of logs.now) version }
    ensures later { IfSome result (λ x. version < x.1) }
{
    let place = logs.partition_point(|log| log.begin <= version);
    if place == 0 {
        return None;
    }
    let log = &logs[place - 1];
    if version < log.end {
        Some((log.name, log.end))
    } else {
        None
    }
}

/// The end that is reached from the version, by the runs.
pub(crate) fn reached(runs: &[Run], from: u64) -> u64
    requires { IsRisingBy (λ run. run.begin) 0 runs.now }
    ensures { result ≡ reach_in runs.now from }
{
    let place = runs.partition_point(|run| run.begin <= from);
    if place == 0 {
        return from;
    }
    from.max(runs[place - 1].end)
}

/// Each begin, with the name and the end of the log file that comes first among those up to it.
fn with_bests<'a>(alloc: Global, logs: &[NamedLog<'a>]) -> Result<Vec<NamedLog<'a>>, AllocError>
    ensures { IfOk result (λ list. logs_of list.items ≡ bests None (logs_of logs.now)) }
{
    let mut list = Vec::new(alloc);
    let mut best = None;
    'logs: for log in logs {
        let (name, end) = better(best, log);
        best = Some((name, end));
        list.push(NamedLog {
            name,
            begin: log.begin,
            end,
        })?;
    }
    Ok(list)
}

/// The name and end of the best so far or, where it comes first, of one log file more.
fn better<'a>(best: Option<(&'a Text, u64)>, log: &NamedLog<'a>) -> (&'a Text, u64)
    ensures { (result.0.now, result.1) ≡ better (option_map (λ x. (x.0.now, x.1)) best.entry)
        (log_of log.now) }
{
    let Some((name, end)) = best else {
        return (log.name, log.end);
    };
    if comes_first(log.end, log.name.as_bytes(), end, name.as_bytes()) {
        (log.name, log.end)
    } else {
        (name, end)
    }
}

/// Whether a file with the greater end or, of two with one end, the lesser name comes first.
pub(crate) fn comes_first(end: u64, name: &[u8], other_end: u64, other: &[u8]) -> bool
    ensures { result ≡ spec.comes_first end name.now other_end other.now }
{
    end > other_end || (end == other_end && is_below(name, other))
}

/// The runs of log files that come in the order of their begins.
fn joined(alloc: Global, logs: &[NamedLog<'_>]) -> Result<Vec<Run>, AllocError>
    ensures { IfOk result (λ runs. runs.items ≡ runs_of (logs_of logs.now)) }
{
    let mut runs = Vec::new(alloc);
    let Some((first, rest)) = logs.split_first() else {
        return Ok(runs);
    };
    let mut begin = first.begin;
    let mut end = first.end;
    'logs: for log in rest {
        if log.begin <= end {
            end = end.max(log.end);
        } else {
            runs.push(Run { begin, end })?;
            begin = log.begin;
            end = log.end;
        }
    }
    runs.push(Run { begin, end })?;
    Ok(runs)
}

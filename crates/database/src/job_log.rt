ghost use Rattle.std.specs.Prelude.{◌≡◌, ◌≤◌, length, position, nat_le, nat_eq, not, OnOk, OnErr};
ghost use Rattle.std.specs.List.{filter};
ghost use Rattle.std.specs.Option.{option_copied};
ghost use Rattle.database.specs.Logs as spec;
ghost use Rattle.database.specs.inner.Logs as inner;

use fb_bytes::Ranges;
use std::alloc::AllocError;

/// A job that logs: in which ranges, from which version on, and from which its log is kept.
#[derive(Debug, Drop)]
pub struct JobLog {
    pub job: u64,
    pub ranges: Ranges,
    pub begin: u64,
    /// What it logged before this version is erased.
    pub erased: u64,
}

/// The log of a job, where it logs.
pub fn log_of(logs: &[JobLog], job: u64) -> Option<&JobLog>
    ensures { option_copied result ≡ spec.log_of logs.now job }
{
    for log in logs {
        if log.job == job {
            return Some(log);
        }
    }
    None
}

/// Puts a log where it belongs in the order of the jobs' numbers. Without memory nothing changes.
pub fn insert_log(logs: &mut Vec<JobLog>, log: JobLog) -> Result<(), AllocError>
    ensures ok { OnOk result (logs.new.items ≡ spec.with_log log logs.old.items) }
    ensures err { OnErr result (logs.new.items ≡ logs.old.items) }
{
    let place = place_of(logs, log.job);
    logs.insert(place, log)?;
    Ok(())
}

/// Takes the log of a job out.
pub fn remove_log(logs: &mut Vec<JobLog>, job: u64)
    ensures { logs.new.items ≡ spec.without_log job logs.old.items }
{
    logs.retain(|log| log.job != job);
}

/// What the job logged before a version is let go.
pub fn erase_log(logs: &mut [JobLog], job: u64, below: u64)
    ensures { logs.new ≡ spec.with_erased job below logs.old }
{
    for log in logs.iter_mut() {
        erase_to(log, job, below);
    }
}

fn erase_to(log: &mut JobLog, job: u64, below: u64)
    ensures { log.new ≡ spec.erased_to job below log.old }
{
    if log.job == job {
        log.erased = log.erased.max(below);
    }
}

// The place of the first log that isn't of a job with a lower number.
fn place_of(logs: &[JobLog], job: u64) -> usize
    ensures { result ≡ inner.place_of job logs.now }
{
    first_from(logs, job).unwrap_or(logs.len())
}

fn first_from(logs: &[JobLog], job: u64) -> Option<usize>
    ensures { result ≡ position (λ log. nat_le job log.job) logs.now }
{
    logs.iter().position(|log| log.job >= job)
}

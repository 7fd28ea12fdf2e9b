//! The start of a backup that agents carry out.

ghost use Rattle.std.specs.Prelude.{◌≡◌, ◌≢◌, ◌+◌, ◌<◌, ◌≤◌, ◌^◌, None, IfOk, OnOk, OnErr};
ghost use Rattle.task_kinds.specs.declared.Shape.TheVariants as shapes;
ghost use Rattle.task_kinds.specs.declared.Params.TheVariants as params;
ghost use Rattle.task_kinds.specs.Kinds.{shape_of};
ghost use Rattle.task_kinds.specs.Works.{BackupStart, OfBackup, task_as, task_for};
ghost use Rattle.backup_core.specs.declared.mode.Mode.TheVariants.{Hand};
ghost use Rattle.backup_core.specs.Added.{IsFresh, added_all};
ghost use Rattle.backup_core.specs.Backups.{Terms};
ghost use Rattle.backup_core.specs.Orders.{submits};

use crate::adding::add;
use crate::{BackupJob, Mode};
use fb_bytes::Ranges;
use snapshot_plan::JobSettings;
use std::alloc::{AllocError, Global};
use task_bucket::Bucket;
use task_kinds::{Kind, Params, Task};

/// A task of a kind without parameters.
pub fn plain_task(job: u64, kind: Kind) -> Task
    requires numbered { 1 ≤ job }
    requires bounded { job < 2 ^ 63 }
    requires plain { shape_of kind ≡ shapes.Nothing }
    ensures { result ≡ task_as job kind params.Nothing }
{
    Task::new(job, kind, Params::Nothing)
}

impl BackupJob {
    /// A backup of these ranges that agents carry out: its start task is added under the next uid. Where
    /// that is refused, nothing changes.
    pub fn start<B: Bucket>(
        alloc: Global,
        number: u64,
        mode: Mode,
        ranges: &Ranges,
        settings: JobSettings,
        bucket: &mut B,
        next_uid: &mut u64,
    ) -> Result<Self, AllocError>
        requires numbered { 1 ≤ number }
        requires bounded { number < 2 ^ 63 }
        requires by_tasks { mode ≢ Hand }
        requires fresh { IsFresh next_uid.old (B.lists bucket.old) }
        ensures job { IfOk result
            (λ job. job
            ≡ (submits (record {
              number = number;
              mode = mode;
              ranges = ranges.now;
              settings = settings;
            })).job) }
        ensures lists { OnOk result
            (B.lists bucket.new
            ≡ added_all number 0 0 next_uid.old
            (submits (record {
              number = number;
              mode = mode;
              ranges = ranges.now;
              settings = settings;
            })).adds
            (B.lists bucket.old)) }
        ensures next { OnOk result (next_uid.new ≡ next_uid.old + 1) }
        ensures fresh { OnOk result (IsFresh next_uid.new (B.lists bucket.new)) }
        ensures refused { OnErr result
            ((B.lists bucket.new ≡ B.lists bucket.old) × (next_uid.new ≡ next_uid.old)) }
    {
        let job = BackupJob::submit(alloc, number, mode, ranges, settings)?;
        add(
            bucket,
            next_uid,
            None,
            plain_task(number, Kind::BackupStart),
        )?;
        Ok(job)
    }
}

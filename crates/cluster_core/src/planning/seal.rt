//! The command `seal`: the manifest of a job's pieces is put.

ghost use Rattle.std.specs.Prelude.{◌≡◌, ◌<◌, ◌≤◌, ◌^◌, Some, None, slice_get, IfOk};
ghost use Rattle.container_view.specs.Files as files;
ghost use Rattle.manifests.specs.Grammar.{name_for, manifest_text};
ghost use Rattle.snapshot_plan.specs.Noted.{gap, manifest_of, most_bytes};
ghost use Rattle.database.specs.Commits.{most_version};
ghost use Rattle.backup_core.specs.Backups.{text_of, manifest_name};
ghost use Rattle.cluster_core.specs.declared.change.Change.TheVariants as changes;
ghost use Rattle.cluster_core.specs.declared.plan.Filing.{Filing};
ghost use Rattle.cluster_core.specs.Jobs as jobs;
ghost use Rattle.cluster_core.specs.declared.job.Job.TheVariants as types;
ghost use Rattle.backup_core.specs.Backups.{map_of};
ghost use Rattle.cluster_core.specs.inner.Plans.{IsPlanAt, IsSafe};
ghost use Rattle.cluster_core.specs.commands.Seal.{seal_job, seal_name};

use crate::change::Change;
use crate::plan::{Filing, Plan};
use crate::{Backup, Refusal, World};
use fb_bytes::Text;
use fb_outside::Vault;
use file_names::{Name, print};
use manifests::Manifest;
use snapshot_plan::MapFault;
use std::alloc::AllocError;
use versioned_kv::Versions;

impl<V: Vault> World<V> {
    pub(crate) fn plan_seal(&self, place: usize) -> Result<Plan, AllocError>
        requires at { (job : jobs.Job) × (slice_get self.now.state.jobs place ≡ Some job) }
        ensures plan { IfOk result (λ plan. (job : jobs.Job) → slice_get self.now.state.jobs place
            ≡ Some job → IsPlanAt self.now.workload.settings self.now.state
            (seal_job self.now.state) (record { place = place; job = job }) plan) }
        ensures safe { IfOk result (IsSafe self.now.state) }
    {
        let backup = self.backup_at(place);
        match backup.job().manifest() {
            Ok(manifest) => {
                let filing = self.seal(place, backup, &manifest)?;
                Ok(Plan::Put(filing))
            }
            Err(MapFault::Untiled { key }) => Ok(Plan::Refuse(Refusal::Untiled { key })),
            Err(_) => Err(AllocError),
        }
    }

    // The manifest of a job's snapshot.
    fn seal(&self, place: usize, backup: &Backup, manifest: &Manifest) -> Result<Filing, AllocError>
        requires at { slice_get self.now.state.jobs place ≡ Some (types.Backup backup.now) }
        requires tiled { gap (map_of backup.now.job) ≡ None }
        requires manifest { manifest.now ≡ manifest_of backup.now.job.noted }
        requires fits { manifest.now.bytes ≤ most_bytes }
        ensures file { IfOk result
            (λ filing. filing
            ≡ record {
              place = place;
              change = changes.Seal;
              whole = files.whole_name backup.now.container (seal_name self.now.state backup.now);
              bytes = manifest_text (manifest_of backup.now.job.noted);
            }) }
        ensures drawn { IfOk result (λ _. self.now.state.tickets ≤ most_version) }
    {
        let bytes = manifests::write(self.alloc, manifest)?;
        let name = self.manifest_name(manifest)?;
        self.filing(place, backup, Change::Seal, &name, bytes)
    }

    // The name of a manifest.
    fn manifest_name(&self, manifest: &Manifest) -> Result<Text, AllocError>
        requires order { manifest.now.begin ≤ manifest.now.end }
        requires end { manifest.now.end ≤ most_version }
        requires bytes { manifest.now.bytes < 2 ^ 63 }
        ensures name { IfOk result
            (λ name. name ≡ text_of (name_for manifest.now self.now.state.tickets)) }
        ensures drawn { IfOk result (λ _. self.now.state.tickets ≤ most_version) }
    {
        if self.tickets > Versions::MOST {
            return Err(AllocError);
        }
        print(
            self.alloc,
            &Name::Manifest {
                begin: manifest.begin,
                end: manifest.end,
                bytes: manifest.bytes,
                ticket: self.tickets,
            },
        )
    }
}

ghost use Rattle.std.specs.Prelude.{◌≡◌, ◌+◌, ◌≤◌, List, Some};
ghost use Rattle.fb_outside.specs.declared.File.{File};
ghost use Rattle.restore_read.specs.Reading.{most_calls};
ghost use Rattle.fb_cli.specs.Faults.{status_of};
ghost use Rattle.fb_cli.specs.Outside.{store_change};
ghost use Rattle.fb_cli.specs.Replays.{OwesStore};
ghost use Rattle.fb_cli.specs.Restores.{Restores};

use crate::fault::refusal_of;
use crate::replay::{Ended, refused};
use fb_bytes::Text;
use fb_outside::Vault;
use report_text::{Report, Restored};
use restore_read::{restore, restore_law};
use std::alloc::Global;

/// Restores a version of a container, and tells its pairs.
pub fn restore_words<V: Vault>(alloc: Global, vault: V, container: &Text, version: u64) -> Ended<V>
    ensures restores { Restores container.now version
        (store_change (V.files vault) (V.files result.vault) (V.faults vault)
        (V.faults result.vault)) result.report result.fault }
    ensures status { result.status ≡ status_of result.fault }
    ensures store { OwesStore
        (store_change (V.files vault) (V.files result.vault) (V.faults vault)
        (V.faults result.vault)) result.fault }
    ensures called { (files : List File) → V.files vault ≡ Some files →
        V.calls result.vault ≤ V.calls vault + most_calls container.now files version }
{
    restore_law();
    let mut vault = vault;
    match restore(alloc, &mut vault, container, version) {
        Ok(pairs) => Ended {
            status: 0,
            report: Some(Report::Restored(Restored { version, pairs })),
            fault: None,
            vault,
        },
        Err(fault) => refused(refusal_of(fault), vault),
    }
}

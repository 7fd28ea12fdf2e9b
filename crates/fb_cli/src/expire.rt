ghost use Rattle.std.specs.Prelude.{◌≡◌, ◌+◌, ◌≤◌, IfSome};
ghost use Rattle.fb_cli.specs.Expires.{Expires};
ghost use Rattle.fb_cli.specs.Faults.{status_of};
ghost use Rattle.fb_cli.specs.Outside.{store_change};
ghost use Rattle.fb_cli.specs.Replays.{OwesStore};

use crate::fault::refusal_of_expire;
use crate::replay::{Ended, refused};
use expire_core::{expire, honest_law};
use fb_bytes::Text;
use fb_outside::Vault;
use report_text::Report;
use std::alloc::Global;

/// Deletes the files of a container that hold only what is below the cutoff, and tells how many.
pub fn expire_words<V: Vault>(
    alloc: Global,
    vault: V,
    container: &Text,
    cutoff: u64,
    wanted: u64,
    force: bool,
) -> Ended<V>
    ensures expires { Expires container.now cutoff wanted force
        (store_change (V.files vault) (V.files result.vault) (V.faults vault)
        (V.faults result.vault)) result.report result.fault }
    ensures status { result.status ≡ status_of result.fault }
    ensures store { OwesStore
        (store_change (V.files vault) (V.files result.vault) (V.faults vault)
        (V.faults result.vault)) result.fault }
{
    honest_law();
    let mut vault = vault;
    match expire(alloc, &mut vault, container, cutoff, wanted, force) {
        Ok(deleted) => Ended {
            status: 0,
            report: Some(Report::Expired { deleted }),
            fault: None,
            vault,
        },
        Err(fault) => refused(refusal_of_expire(fault), vault),
    }
}

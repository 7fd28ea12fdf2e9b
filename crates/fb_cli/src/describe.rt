ghost use Rattle.std.specs.Prelude.{◌≡◌, ◌+◌, ◌≤◌, IfOk};
ghost use Rattle.fb_cli.specs.Describes.{Describes};
ghost use Rattle.fb_cli.specs.Faults.{status_of};
ghost use Rattle.fb_cli.specs.Outside.{store_change};
ghost use Rattle.fb_cli.specs.Replays.{OwesStore};

use crate::fault::{Fault, refusal_of};
use crate::replay::{Ended, refused};
use container_view::{Description, describe};
use fb_bytes::Text;
use fb_outside::Vault;
use report_text::{Described, Report};
use std::alloc::{AllocError, Global};

/// Tells what a container has: its snapshots, how far its logs go, which versions it can be restored
/// to, and its properties.
pub fn describe_words<V: Vault>(alloc: Global, vault: V, container: &Text) -> Ended<V>
    ensures describes { Describes container.now
        (store_change (V.files vault) (V.files result.vault) (V.faults vault)
        (V.faults result.vault)) result.report result.fault }
    ensures status { result.status ≡ status_of result.fault }
    ensures store { OwesStore
        (store_change (V.files vault) (V.files result.vault) (V.faults vault)
        (V.faults result.vault)) result.fault }
    ensures called { V.calls result.vault ≤ V.calls vault + 3 }
{
    let mut vault = vault;
    let description = match describe(alloc, &mut vault, container) {
        Ok(description) => description,
        Err(fault) => return refused(refusal_of(fault), vault),
    };
    let report = match described(container, description) {
        Ok(report) => report,
        Err(AllocError) => return refused(Fault::NoMemory, vault),
    };
    Ended {
        status: 0,
        report: Some(report),
        fault: None,
        vault,
    }
}

// The report of a description.
fn described(container: &Text, description: Description) -> Result<Report, AllocError>
    ensures { IfOk result (λ report. report
        ≡ Report.Described (record { container = container.now; description = description })) }
{
    let container = container.copy()?;
    Ok(Report::Described(Described {
        container,
        description,
    }))
}

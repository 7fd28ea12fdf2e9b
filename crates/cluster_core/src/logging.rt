//! The logs of jobs in the two databases.

ghost use Rattle.std.specs.Prelude.{◌≡◌, ◌≤◌, Ok, None, IfOk, OnErr};
ghost use Rattle.std.specs.List.{AllByRecursion};
ghost use Rattle.mutations.specs.declared.Entry.{Entry};
ghost use Rattle.database.specs.Logs.{log_of};
ghost use Rattle.database.specs.Commits.{next_version};
ghost use Rattle.workload_text.specs.declared.Side.TheVariants as sides;
ghost use Rattle.cluster_core.specs.inner.World as spec;

use database::Db;
use fb_bytes::Ranges;
use std::alloc::AllocError;
use versioned_kv::Versions;
use workload_text::Side;

/// Takes a version, from which on a job logs in the database of a side. Without memory nothing
/// changes.
pub fn begin_log(
    src: &mut Db,
    dst: &mut Db,
    versions: &mut Versions,
    side: Side,
    number: u64,
    ranges: &Ranges,
) -> Result<u64, AllocError>
    requires src { log_of src.old.logs number ≡ None }
    requires dst { log_of dst.old.logs number ≡ None }
    requires pace { 1 ≤ versions.old.pace }
    requires src_past { AllByRecursion (λ (entry : Entry). entry.version ≤ versions.old.now)
        src.old.history }
    requires dst_past { AllByRecursion (λ (entry : Entry). entry.version ≤ versions.old.now)
        dst.old.history }
    ensures version { IfOk result
        (λ version. next_version versions.old.now versions.old.pace ≡ Ok version) }
    ensures time { IfOk result (λ version. versions.new ≡ record versions.old { now = version }) }
    ensures src { IfOk result
        (λ version. src.new ≡ spec.logs_more side sides.Src
        (record { job = number; ranges = ranges.now; begin = version; erased = version }) src.old) }
    ensures dst { IfOk result
        (λ version. dst.new ≡ spec.logs_more side sides.Dst
        (record { job = number; ranges = ranges.now; begin = version; erased = version }) dst.old) }
    ensures err { OnErr result
        ((src.new ≡ src.old) × (dst.new ≡ dst.old) × (versions.new ≡ versions.old)) }
{
    match side {
        Side::Src => match src.add_log(versions, number, ranges) {
            Ok(version) => Ok(version),
            Err(_) => Err(AllocError),
        },
        Side::Dst => match dst.add_log(versions, number, ranges) {
            Ok(version) => Ok(version),
            Err(_) => Err(AllocError),
        },
    }
}

/// Ends a job's log in the database of a side. It takes no memory.
pub fn end_log(src: &mut Db, dst: &mut Db, side: Side, number: u64)
    ensures src { src.new ≡ spec.logs_less side sides.Src number src.old }
    ensures dst { dst.new ≡ spec.logs_less side sides.Dst number dst.old }
{
    match side {
        Side::Src => src.end_log(number),
        Side::Dst => dst.end_log(number),
    }
}

use super::*;
use std::test::*;
use task_kinds::{Kind, Params, Task};

fn task() -> Task {
    Task::new(1, Kind::BackupStart, Params::Nothing)
}

fn awake(rt: &HostRuntime) -> Result<ListBucket, Fail> {
    let mut bucket = ListBucket::new(rt.alloc());
    bucket.add(2, task())?;
    bucket.add(5, task())?;
    Ok(bucket)
}

fn claimed(bucket: &mut ListBucket, now: u32, pick: u64) -> Result<Option<Lease>, Fail> {
    Ok(bucket.claim(u64::from(now), 100, pick)?)
}

fn uid_of(lease: &Option<Lease>) -> u64 {
    match lease {
        Some(lease) => lease.uid,
        None => 0,
    }
}

// A time, a pick, and the uid that is claimed then; 0 is none.
const CLAIMS: &[(u32, u64, u64)] = &[(0, 4, 2), (10, 4, 5), (99, 4, 0), (100, 0, 2)];

#[test]
fn claims_one_after_the_other(rt: HostRuntime) -> Result<(), Fail> {
    let mut bucket = awake(&rt)?;
    for (now, pick, uid) in CLAIMS {
        let lease = claimed(&mut bucket, *now, *pick)?;
        assert_eq!(rt; uid_of(&lease), *uid);
    }
    assert!(rt; bucket.holds(200, 2));
    assert!(rt; !bucket.holds(100, 2));
    assert_eq!(rt; bucket.earliest(), Some(110));
    Ok(())
}

fn crosses<T: Send + Sync>() {}

/// Threads may hand these on and share them.
#[test]
fn types_cross_threads() {
    crosses::<ListBucket>();
    crosses::<Lease>();
    crosses::<LeaseFault>();
}

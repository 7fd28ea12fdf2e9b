use super::*;
use std::test::*;
use task_kinds::{Kind, Params, Task};

fn task(job: u8) -> Task {
    Task::new(u64::from(job) + 1, Kind::BackupStart, Params::Nothing)
}

fn two_blocks(rt: &HostRuntime) -> Result<ListFutures, Fail> {
    let mut futures = ListFutures::new(rt.alloc());
    futures.fresh()?;
    futures.block(1)?;
    futures.block(1)?;
    futures.on_set(1, task(0))?;
    futures.join(&[1])?;
    futures.on_set(2, task(1))?;
    Ok(futures)
}

fn jobs(futures: &ListFutures, rt: &HostRuntime, block: u64) -> Result<Vec<u64>, Fail> {
    let due = futures.due(1, block)?;
    let mut jobs = Vec::new(rt.alloc());
    for task in due.as_slice() {
        jobs.push(task.job())?;
    }
    Ok(jobs)
}

#[test]
fn a_join(rt: HostRuntime) -> Result<(), Fail> {
    let mut futures = two_blocks(&rt)?;
    assert!(rt; jobs(&futures, &rt, 1)?.is_empty());
    futures.unblock(1, 1);
    let due = jobs(&futures, &rt, 2)?;
    assert_eq!(rt; due.as_slice(), [1, 2].as_slice());
    futures.unblock(1, 2);
    assert!(rt; jobs(&futures, &rt, 2)?.is_empty());
    futures.drop_newest();
    futures.drop_newest();
    assert_eq!(rt; futures.fresh()?, 1);
    Ok(())
}

fn crosses<T: Send + Sync>() {}

/// Threads may hand these on and share them.
#[test]
fn types_cross_threads() {
    crosses::<ListFutures>();
    crosses::<Tasks>();
}

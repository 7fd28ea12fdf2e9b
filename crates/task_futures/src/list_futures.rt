ghost use Rattle.std.specs.Prelude.{◌≡◌, ◌++◌, ◌≤◌, ◌+◌, ◌==◌, not, [], ◌∷◌, List, IfOk, OnOk, OnErr, if◌then◌else◌};
ghost use Rattle.std.specs.List.{filter};
ghost use Rattle.task_futures.specs.Laws.{AreRising};
ghost use Rattle.task_futures.specs.Futures.{next_number, without_newest, join_blocks, joined};
ghost use Rattle.fb_bytes.specs.Limits.{most_number};

use crate::due::due_in;
use crate::future::{Future, below_limit};
use crate::links::{link_each, unlink_each};
use crate::settling::{greatest, is_open, place_of, unblock, unlink_all};
use crate::{Futures, Part, Tasks};
use std::alloc::{AllocError, Global};
use std::marker::Model;
use task_kinds::Task;

/// Futures in memory, as a list.
#[derive(Debug, Drop)]
pub struct ListFutures {
    alloc: Global,
    futures: Vec<Future>,
}

impl Model for ListFutures {
    ghost use Rattle.std.specs.Prelude.{List};
    ghost use Rattle.task_futures.specs.Futures.{SeenFuture};
    ghost use Rattle.task_futures.specs.Laws.{AreFutures};

    ghost Value = { List SeenFuture };

    ghost view = { λ f. f.futures.items };

    ghost invariant = { λ f. AreFutures f.futures.items };
}

impl ListFutures {
    /// No futures. It takes no memory.
    pub fn new(alloc: Global) -> Self
        ensures { result ≡ [] }
    {
        ListFutures {
            alloc,
            futures: Vec::new(alloc),
        }
    }
}

fn next_number(futures: &[Future]) -> Result<u64, AllocError>
    requires { AreRising futures.now }
    ensures { IfOk result (λ n. (n ≡ next_number futures.now) × (n ≤ most_number)) }
{
    below_limit(greatest(futures))
}

fn keep_others(futures: &mut Vec<Future>, number: u64)
    ensures { futures.new.items ≡ filter (λ f. not (f.number == number)) futures.old.items }
{
    futures.retain(|one| one.number() != number);
}

fn blocks_for(alloc: Global, futures: &[Future], parts: &[u64]) -> Result<Vec<u64>, AllocError>
    requires { AreRising futures.now }
    ensures { IfOk result (λ blocks. blocks.items ≡ join_blocks 1 parts.now futures.now) }
{
    let mut blocks = Vec::new(alloc);
    let mut block: u64 = 1;
    for part in parts {
        if is_open(futures, *part) {
            blocks.push(block)?;
            block = block.checked_add(1).ok_or(AllocError)?;
        }
    }
    Ok(blocks)
}

fn drop_newest(futures: &mut Vec<Future>)
    requires { AreRising futures.old.items }
    ensures { futures.new.items ≡ without_newest futures.old.items }
{
    let number = greatest(futures);
    keep_others(futures, number);
    unlink_all(futures, number);
}

// Adds the future of a join, and the links in its parts. Without memory nothing changes.
fn join(
    futures: &mut Vec<Future>,
    parts: &[u64],
    number: u64,
    blocks: Vec<u64>,
) -> Result<(), AllocError>
    requires rising { AreRising futures.old.items }
    requires next { number ≡ next_number futures.old.items }
    requires blocks { blocks.items ≡ join_blocks 1 parts.now futures.old.items }
    ensures ok { OnOk result (futures.new.items ≡ joined parts.now futures.old.items) }
    ensures err { OnErr result (futures.new.items ≡ futures.old.items) }
{
    let alloc = *futures.allocator();
    link_each(futures, parts, number)?;
    if futures.push(Future::new(alloc, number, blocks)).is_err() {
        unlink_each(futures, parts);
        return Err(AllocError);
    }
    Ok(())
}

impl Futures for ListFutures {
    ghost futures = { λ f. f };

    fn fresh(&mut self) -> Result<u64, AllocError> {
        let number = next_number(&self.futures)?;
        let future = Future::new(self.alloc, number, Vec::new(self.alloc));
        self.futures.push(future)?;
        Ok(number)
    }

    fn block(&mut self, future: u64) -> Result<u64, AllocError> {
        let at = place_of(&self.futures, future);
        let block = self.futures[at].add_block()?;
        Ok(block)
    }

    fn on_set(&mut self, future: u64, task: Task) -> Result<(), AllocError> {
        let at = place_of(&self.futures, future);
        self.futures[at].add_callback(task)?;
        Ok(())
    }

    fn join(&mut self, parts: &[u64]) -> Result<u64, AllocError> {
        let number = next_number(&self.futures)?;
        let blocks = blocks_for(self.alloc, &self.futures, parts)?;
        join(&mut self.futures, parts, number, blocks)?;
        Ok(number)
    }

    fn due(&self, future: u64, block: u64) -> Result<Tasks, AllocError> {
        due_in(
            self.alloc,
            &self.futures,
            Part {
                join: future,
                block,
            },
        )
    }

    fn unblock(&mut self, future: u64, block: u64) {
        unblock(
            self.alloc,
            &mut self.futures,
            Part {
                join: future,
                block,
            },
        );
    }

    fn drop_newest(&mut self) {
        drop_newest(&mut self.futures);
    }
}

ghost use Rattle.std.specs.Prelude.{◌≡◌, ◌+◌, ◌≤◌, ◌++◌, ◌==◌, not, [], IfOk, OnOk, OnErr, if◌then◌else◌};
ghost use Rattle.std.specs.List.{filter};
ghost use Rattle.task_futures.specs.Futures.{next_block, is_part, is_some_block, left};
ghost use Rattle.task_futures.specs.inner.Changes.{front};
ghost use Rattle.fb_bytes.specs.Limits.{most_number};

use crate::part::falls;
use crate::{Part, Tasks};
use fb_bytes::MOST_NUMBER;
use std::alloc::{AllocError, Global};
use std::marker::Model;
use std::mem;
use task_kinds::Task;

/// A future with its open blocks, the tasks to add once it is set, and the blocks of joins that
/// fall then.
#[derive(Debug, Drop)]
pub struct Future {
    number: u64,
    blocks: Vec<u64>,
    callbacks: Tasks,
    joins: Vec<Part>,
}

impl Model for Future {
    ghost use Rattle.task_futures.specs.Futures.{SeenFuture};

    ghost Value = { SeenFuture };

    ghost view = { λ f. record { number = f.number; blocks = f.blocks.items; callbacks = f.callbacks; joins = f.joins.items } };
}

/// The number past the greatest of these, up to the greatest number.
pub fn next_block(blocks: &[u64]) -> Result<u64, AllocError>
    ensures { IfOk result (λ n. (n ≡ next_block blocks.now) × (n ≤ most_number)) }
{
    let mut greatest: u64 = 0;
    for block in blocks {
        greatest = greatest.max(*block);
    }
    below_limit(greatest)
}

/// One more, up to the greatest number.
pub fn below_limit(greatest: u64) -> Result<u64, AllocError>
    ensures { IfOk result (λ n. (n ≡ greatest + 1) × (n ≤ most_number)) }
{
    if greatest < MOST_NUMBER {
        Ok(greatest + 1)
    } else {
        Err(AllocError)
    }
}

fn keep_left(blocks: &mut Vec<u64>, number: u64, part: Part)
    ensures { blocks.new.items ≡ filter (λ b. not (is_part number b part)) blocks.old.items }
{
    blocks.retain(|block| !part.is(number, *block));
}

fn keep_others(joins: &mut Vec<Part>, number: u64)
    ensures { joins.new.items ≡ filter (λ p. not (p.join == number)) joins.old.items }
{
    joins.retain(|part| part.join != number);
}

fn drop_last(joins: &mut Vec<Part>)
    ensures { joins.new.items ≡ front joins.old.items }
{
    joins.pop();
}

fn has_left(blocks: &[u64], pending: &[Part], number: u64) -> bool
    ensures { result ≡ is_some_block (left pending.now number blocks.now) }
{
    for block in blocks {
        if !falls(pending, number, *block) {
            return true;
        }
    }
    false
}

impl Future {
    ghost use Rattle.task_futures.specs.Futures.{SeenFuture, fresh_with, next_block, and_block, and_callback, is_some_block, left, is_part, unjoined, passed_on, becomes_set};
    ghost use Rattle.task_futures.specs.inner.Changes.{cleared, emptied, is_open_one, and_link, less_link};

    pub fn new(alloc: Global, number: u64, blocks: Vec<u64>) -> Self
        ensures { result ≡ fresh_with number blocks.items }
    {
        Future {
            number,
            blocks,
            callbacks: Tasks::new(alloc),
            joins: Vec::new(alloc),
        }
    }

    pub fn number(&self) -> u64
        ensures { result ≡ self.now.number }
    {
        self.number
    }

    pub fn is_open(&self) -> bool
        ensures { result ≡ is_some_block self.now.blocks }
    {
        !self.blocks.is_empty()
    }

    pub fn add_block(&mut self) -> Result<u64, AllocError>
        ensures answer { IfOk result (λ n. (n ≡ next_block self.old.blocks) × (n ≤ most_number)) }
        ensures ok { OnOk result (self.new ≡ and_block self.old) }
        ensures err { OnErr result (self.new ≡ self.old) }
    {
        let block = next_block(&self.blocks)?;
        self.blocks.push(block)?;
        Ok(block)
    }

    /// Whether it has this number and isn't set.
    pub fn is_open_one(&self, number: u64) -> bool
        ensures { result ≡ is_open_one number self.now }
    {
        self.number == number && self.is_open()
    }

    /// Adds a block that falls when the future is set, where it has this number and isn't set. It
    /// says whether it has and isn't.
    pub fn link(&mut self, number: u64, part: Part) -> Result<bool, AllocError>
        ensures answer { IfOk result (λ found. found ≡ is_open_one number self.old) }
        ensures ok { OnOk result
            (self.new ≡ and_link (is_open_one number self.old) number part self.old) }
        ensures err { OnErr result (self.new ≡ self.old) }
    {
        if !self.is_open_one(number) {
            return Ok(false);
        }
        self.joins.push(part)?;
        Ok(true)
    }

    /// Takes the last of these blocks off again, where it has this number and isn't set.
    pub fn unlink_last(&mut self, number: u64)
        ensures { self.new ≡ less_link (is_open_one number self.old) number self.old }
    {
        if self.is_open_one(number) {
            drop_last(&mut self.joins);
        }
    }

    pub fn add_callback(&mut self, task: Task) -> Result<(), AllocError>
        ensures ok { OnOk result (self.new ≡ and_callback task self.old) }
        ensures err { OnErr result (self.new ≡ self.old) }
    {
        self.callbacks.push(task)
    }

    /// Takes the block of the part off, where it is this future's. It says whether the future is open
    /// then.
    pub fn clear(&mut self, part: Part) -> bool
        ensures open { result ≡ is_some_block self.new.blocks }
        ensures cleared { self.new ≡ cleared part self.old }
    {
        keep_left(&mut self.blocks, self.number, part);
        self.is_open()
    }

    pub fn unlink(&mut self, number: u64)
        ensures { self.new ≡ unjoined number self.old }
    {
        keep_others(&mut self.joins, number);
    }

    /// Takes its joins out. It takes no memory.
    pub fn take_joins(&mut self, alloc: Global) -> Vec<Part>
        ensures joins { result.items ≡ self.old.joins }
        ensures emptied { self.new ≡ emptied self.old }
    {
        mem::replace(&mut self.joins, Vec::new(alloc))
    }

    /// Adds the future's tasks to those that are due, where these blocks fall and it is set then,
    /// and its joins to the blocks that fall.
    pub fn fall(&self, pending: &mut Vec<Part>, due: &mut Tasks) -> Result<(), AllocError>
        ensures pending { OnOk result
            (pending.new.items
            ≡ passed_on (left pending.old.items self.now.number self.now.blocks) self.now.joins
            pending.old.items) }
        ensures due { OnOk result
            (due.new ≡ due.old
            ++ (if becomes_set self.now.blocks
            (left pending.old.items self.now.number self.now.blocks) then self.now.callbacks
            else [])) }
    {
        if has_left(&self.blocks, pending, self.number) {
            return Ok(());
        }
        if self.is_open() {
            due.extend_from(self.callbacks.as_slice())?;
        }
        pending.extend_from_slice(&self.joins)?;
        Ok(())
    }
}

ghost use Rattle.std.specs.Prelude.{◌≡◌, ◌≤◌, List, true, IfOk, OnOk, OnErr};
ghost use Rattle.task_futures.specs.Futures.{SeenFuture, is_made, are_made, is_open, next_number, next_block_of, with_fresh, with_block, with_callback, joined, unblocked, due_of, without_newest};
ghost use Rattle.fb_bytes.specs.Limits.{most_number};

use crate::Tasks;
use std::alloc::AllocError;
use task_kinds::Task;

/// Futures by their numbers, each with its open blocks and the tasks to add once it is set. It is
/// set when it has no open block left. A join has a block for each part that isn't set yet, and
/// that block falls when the part is set.
///
/// Numbers go up to 2 to the 62nd: where a new future or block would need a greater one, the call
/// answers want of memory. A refused call leaves the futures.
pub trait Futures {
    ghost futures: { Self → List SeenFuture };

    /// Makes a future without a block.
    fn fresh(&mut self) -> Result<u64, AllocError>
        ensures answer { IfOk result (λ number. (number ≡ next_number (futures self.old))
            × (number ≤ most_number)) }
        ensures ok { OnOk result (futures self.new ≡ with_fresh (futures self.old)) }
        ensures err { OnErr result (futures self.new ≡ futures self.old) };

    /// Adds a block to a future.
    fn block(&mut self, future: u64) -> Result<u64, AllocError>
        requires { is_made future (futures self.old) ≡ true }
        ensures answer { IfOk result (λ block. (block ≡ next_block_of future (futures self.old))
            × (block ≤ most_number)) }
        ensures ok { OnOk result (futures self.new ≡ with_block future (futures self.old)) }
        ensures err { OnErr result (futures self.new ≡ futures self.old) };

    /// Adds a task to those that a future waits with.
    fn on_set(&mut self, future: u64, task: Task) -> Result<(), AllocError>
        requires { is_open future (futures self.old) ≡ true }
        ensures ok { OnOk result (futures self.new ≡ with_callback future task (futures self.old)) }
        ensures err { OnErr result (futures self.new ≡ futures self.old) };

    /// Makes a future that is set once all parts are.
    fn join(&mut self, parts: &[u64]) -> Result<u64, AllocError>
        requires { are_made parts.now (futures self.old) ≡ true }
        ensures answer { IfOk result (λ number. (number ≡ next_number (futures self.old))
            × (number ≤ most_number)) }
        ensures ok { OnOk result (futures self.new ≡ joined parts.now (futures self.old)) }
        ensures err { OnErr result (futures self.new ≡ futures self.old) };

    /// The tasks of each future that the unblocking of this block would set, in the order of the
    /// futures' numbers; no task where the block isn't open.
    fn due(&self, future: u64, block: u64) -> Result<Tasks, AllocError>
        ensures { IfOk result (λ tasks. tasks ≡ due_of future block (futures self.now)) };

    /// Takes a block off, where it is open, and those of each join that this sets a part of. It
    /// takes no memory.
    fn unblock(&mut self, future: u64, block: u64)
        ensures { futures self.new ≡ unblocked future block (futures self.old) };

    /// Takes the future with the greatest number out again, with its blocks, its tasks and its place
    /// as a join. It takes no memory.
    fn drop_newest(&mut self)
        ensures { futures self.new ≡ without_newest (futures self.old) };
}

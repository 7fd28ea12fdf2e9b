ghost use Rattle.std.specs.Prelude.{◌≡◌};
ghost use Rattle.task_futures.specs.Futures.{is_part, falls};

/// A block of a join that falls when one of its parts is set.
#[derive(Clone, Copy, Debug, PartialEq, Eq)]
pub struct Part {
    pub join: u64,
    pub block: u64,
}

impl Part {
    /// Whether it is this block of the future with this number.
    pub(crate) fn is(self, number: u64, block: u64) -> bool
        ensures { result ≡ is_part number block self }
    {
        self.join == number && self.block == block
    }
}

/// Whether the block is one of these.
pub(crate) fn falls(pending: &[Part], number: u64, block: u64) -> bool
    ensures { result ≡ falls pending.now number block }
{
    for part in pending {
        if part.is(number, block) {
            return true;
        }
    }
    false
}

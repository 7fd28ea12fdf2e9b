ghost use Rattle.std.specs.Prelude.{◌≡◌, ℕ, ◌<◌, ◌≤◌, List, length, drop, Option, Some, IsErr, IfOk, OnErr};
ghost use Rattle.fb_outside.specs.Contents.{Moves};
ghost use Rattle.fb_outside.specs.Faults.{Counts};

use crate::Failed;

/// Where bytes come from, as standard input. Bytes that were read are gone.
pub trait Source: Drop {
    /// How many faults there were.
    ghost faults: { Self → ℕ };

    /// The bytes that are left, where the source tells them. One that tells them goes on telling.
    ghost left: { Self → Option (List ℕ) };

    /// Moves some bytes to the front of the buffer and answers how many. Where the source tells its
    /// bytes they are the first of what is left, and 0 is the end of them; a failing call moves none.
    fn read(&mut self, buf: &mut [u8]) -> Result<usize, Failed>
        requires { 0 < length buf.old }
        ensures within { IfOk result (λ n. n ≤ length buf.old) }
        ensures moved { IfOk result (λ n. (bytes : List ℕ) → left self.old ≡ Some bytes
            → Moves n bytes buf.new × (left self.new ≡ Some (drop n bytes))) }
        ensures stays { OnErr result (left self.new ≡ left self.old) }
        ensures count { Counts (faults self.old) (faults self.new) (IsErr result) };

    /// The count of faults. It takes no memory.
    fn faults(&self) -> u64
        ensures { result ≡ faults self.now };
}

ghost use Rattle.std.specs.Prelude.{◌≡◌, ◌≢◌, ℕ, ◌≤◌, List, [], ◌++◌, length, take, Option, Some, Ok, ◌⊎◌, IsErr, IfOk, OnErr};
ghost use Rattle.fb_outside.specs.Faults.{Counts};

use crate::Failed;

/// Where bytes go to, as standard output.
pub trait Sink: Drop {
    /// How many faults there were.
    ghost faults: { Self → ℕ };

    /// The bytes that it holds, where the sink tells them. One that tells them goes on telling.
    ghost held: { Self → Option (List ℕ) };

    /// Takes the first bytes of the piece and answers how many. An answer of 0 for a piece that isn't
    /// empty is a fault too. A failing call takes none.
    fn write(&mut self, piece: &[u8]) -> Result<usize, Failed>
        ensures within { IfOk result (λ n. n ≤ length piece.now) }
        ensures taken { IfOk result (λ n. (bytes : List ℕ) → held self.old ≡ Some bytes
            → held self.new ≡ Some (bytes ++ take n piece.now)) }
        ensures stays { OnErr result (held self.new ≡ held self.old) }
        ensures count { Counts (faults self.old) (faults self.new) (IsErr result ⊎ (result ≡ Ok 0)
            × (piece.now ≢ [])) };

    /// The count of faults. It takes no memory.
    fn faults(&self) -> u64
        ensures { result ≡ faults self.now };
}

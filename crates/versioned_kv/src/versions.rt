ghost use Rattle.std.specs.Prelude.{◌≡◌, ◌+◌, Some, None, nat_lt, if◌then◌else◌};
ghost use Rattle.fb_bytes.specs.Limits.{most_number};

use fb_bytes::MOST_NUMBER;

/// The counter of versions that the databases share.
#[derive(Clone, Copy, Debug, PartialEq, Eq)]
pub struct Versions {
    /// The newest version that was taken, or was ticked to.
    pub now: u64,
    /// How far a step that takes a version moves on.
    pub pace: u64,
}

impl Versions {
    /// The greatest version that there can be.
    pub const MOST: u64 = MOST_NUMBER;

    /// The version that a step would take. None exactly where it is past the greatest one.
    pub fn next(&self) -> Option<u64>
        ensures { result
            ≡ (if nat_lt most_number (self.entry.now.now + self.entry.now.pace) then None
            else Some (self.entry.now.now + self.entry.now.pace)) }
    {
        let next = self.now.checked_add(self.pace)?;
        if next > Versions::MOST {
            return None;
        }
        Some(next)
    }
}

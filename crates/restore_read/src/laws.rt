ghost use Rattle.restore_read.specs.Meanings.{RestoreLaw};

use restore_apply::overlap_law;

/// What is loaded for a version says what the container means, and each version that a faithful
/// container advertises is loaded.
pub fn restore_law()
    ensures { RestoreLaw }
{
    overlap_law();
}

ghost use Rattle.std.specs.Prelude.{◌≡◌, ℕ, true};
ghost use Rattle.block_frame.specs.Profiles.{RowsHaveRoom, IsRoomy, is_block};

/// Law: each row of the table of profiles has the room that writers count on.
pub fn rows_have_room()
    ensures { RowsHaveRoom }
{}

/// Law: so has each block of the table.
pub fn blocks_have_room()
    ensures { (block : ℕ) → is_block block ≡ true → IsRoomy block }
{}

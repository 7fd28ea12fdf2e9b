ghost use Rattle.std.specs.Prelude.{◌≡◌, ◌<◌};
ghost use Rattle.std.specs.Option.{option_map};
ghost use Rattle.block_frame.specs.Text.{block_of};

/// The block at an index, counted from 0. The last one may be shorter. None exactly where the
/// index is past the last block.
pub fn block_at(bytes: &[u8], block: u32, index: usize) -> Option<&[u8]>
    requires { 0 < block }
    ensures { option_map (λ piece. piece.now) result ≡ block_of bytes.now block index }
{
    let block = block as usize;
    let start = index.checked_mul(block)?;
    if start >= bytes.len() {
        return None;
    }
    let rest = &bytes[start..];
    Some(&rest[..block.min(rest.len())])
}

ghost use Rattle.std.specs.Prelude.{◌≡◌};
ghost use Rattle.fb_bytes.specs.Bytes as bytes;

/// Whether one string of bytes comes strictly before another, in byte order.
#[tactic(auto, unfolding(crate::specs::Bytes::is_below))]
pub fn is_below(a: &[u8], b: &[u8]) -> bool
    ensures { result ≡ bytes.is_below a.now b.now }
{
    a.cmp(&b).is_lt()
}

#[tactic(auto, unfolding(crate::specs::Bytes::is_same))]
pub fn is_same(a: &[u8], b: &[u8]) -> bool
    ensures { result ≡ bytes.is_same a.now b.now }
{
    a == b
}

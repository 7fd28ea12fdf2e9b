ghost use Rattle.std.specs.Prelude.{◌≡◌};
ghost use Rattle.atomic_ops.specs.Bytes.{earlier, later};

// The one that comes first in byte order.
pub fn earlier<'a>(x: &'a [u8], y: &'a [u8]) -> &'a [u8]
    ensures { result.now ≡ earlier x.now y.now }
{
    if x.cmp(y).is_gt() { y } else { x }
}

// The one that comes last in byte order.
pub fn later<'a>(x: &'a [u8], y: &'a [u8]) -> &'a [u8]
    ensures { result.now ≡ later x.now y.now }
{
    if x.cmp(y).is_gt() { x } else { y }
}

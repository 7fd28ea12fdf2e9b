ghost use Rattle.std.specs.Prelude.{◌≡◌, ◌+◌, ◌%◌, ◌^◌, length};
ghost use Rattle.std.specs.Ordering.{nat_cmp};
ghost use Rattle.atomic_ops.specs.Numbers.{number, sum_bytes};

use std::cmp::Ordering;

// Adds a number to another of as many bytes; a carry out of the last byte is lost.
pub fn add_into(total: &mut [u8], more: &[u8])
    requires { length total.old ≡ length more.now }
    ensures { total.new ≡ sum_bytes total.old more.now }
{
    let mut carry = 0;
    for (i, byte) in more.iter().enumerate() {
        let sum = u16::from(total[i]) + u16::from(*byte) + carry;
        total[i] = (sum % 256) as u8;
        carry = sum / 256;
    }
}

// Compares from the highest byte down, which is the last one.
pub fn compare(x: &[u8], y: &[u8]) -> Ordering
    requires { length x.now ≡ length y.now }
    ensures { result ≡ nat_cmp (number x.now) (number y.now) }
{
    x.iter().rev().cmp(y.iter().rev())
}

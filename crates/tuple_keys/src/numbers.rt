//! The big-endian digits of integers.

ghost use Rattle.std.specs.Prelude.{◌≡◌, ℕ, ◌<◌, ◌≤◌, ◌^◌, length};
ghost use Rattle.std.specs.Int.RustNames.{unsigned_abs};
ghost use Rattle.tuple_keys.specs.Spelling.{without_zeros, is_negative};
ghost use Rattle.tuple_keys.specs.Reading.{value, signed, turned};
ghost use Rattle.tuple_keys.specs.inner.Reading.{digit_of};

/// The bytes from the first that isn't zero on.
pub fn without_zeros(bytes: &[u8]) -> &[u8]
    ensures { result.now ≡ without_zeros bytes.now }
{
    match bytes {
        [0, rest @ ..] => without_zeros(rest),
        _ => bytes,
    }
}

fn digit_of(byte: u8, negative: bool) -> u8
    ensures { result ≡ digit_of negative byte }
{
    if negative { 255 - byte } else { byte }
}

/// The number that at most eight bytes stand for; the bytes of a negative one are complements.
pub fn value_of(digits: &[u8], negative: bool) -> u64
    requires { length digits.now ≤ 8 }
    ensures { result ≡ value (turned negative digits.now) }
{
    let mut value: u64 = 0;
    for byte in digits {
        value = value * 256 + u64::from(digit_of(*byte, negative));
    }
    value
}

/// The number with this sign and magnitude.
pub fn signed(negative: bool, magnitude: u64) -> i128
    ensures { result ≡ signed negative magnitude }
{
    if negative {
        -i128::from(magnitude)
    } else {
        i128::from(magnitude)
    }
}

pub fn is_negative(number: i128) -> bool
    ensures { result ≡ is_negative number }
{
    number < 0
}

pub fn magnitude(number: i128) -> u64
    requires { unsigned_abs number < 2 ^ 64 }
    ensures { result ≡ unsigned_abs number }
{
    number.unsigned_abs() as u64
}

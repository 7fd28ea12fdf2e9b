ghost use Rattle.std.specs.Prelude.{◌≡◌, true};
ghost use Rattle.block_frame.specs.Profiles.{is_block, key_limit_of, limit_of, part_of};

/// A size of blocks, and the limits that go with it. There are four.
#[derive(Clone, Copy, Debug, PartialEq, Eq)]
pub struct Profile {
    /// The bytes of a block.
    pub block: u32,
    /// The greatest length of a key.
    pub key: usize,
    /// The greatest length of a value or a parameter.
    pub value: usize,
    /// The length of the parts that a batch of a log is cut into.
    pub part: usize,
    pub ghost listed: { is_block block ≡ true },
    pub ghost keys: { key ≡ key_limit_of block },
    pub ghost values: { value ≡ limit_of block },
    pub ghost parts: { part ≡ part_of block },
}

/// Picks, in a `match` over a block, the instance of a generic function for that block.
#[macro_export]
macro_rules! at_block {
    ($block:expr, $call:ident ( $($arg:expr),* ), $otherwise:expr) => {
        match $block {
            256 => $call::<256>($($arg),*),
            4096 => $call::<4096>($($arg),*),
            262144 => $call::<262144>($($arg),*),
            1048576 => $call::<1048576>($($arg),*),
            _ => $otherwise,
        }
    };
}

impl Profile {
    ghost use Rattle.std.specs.Prelude.{Some, IfSome, is_some};
    ghost use Rattle.block_frame.specs.Profiles.{row_of};
    ghost use Rattle.block_frame.specs.Rows.{row_in};

    /// The profile of a block. None exactly where the table doesn't have it.
    pub fn from_block(block: u32) -> Option<Self>
        ensures row { IfSome result (λ profile. row_of block ≡ Some (row_in profile)) }
        ensures variant { is_some result ≡ is_block block }
    {
        match block {
            256 => Some(Profile {
                block,
                key: 24,
                value: 64,
                part: 64,
            }),
            4096 => Some(Profile {
                block,
                key: 256,
                value: 1024,
                part: 1000,
            }),
            262144 => Some(Profile {
                block,
                key: 10000,
                value: 100000,
                part: 10000,
            }),
            1048576 => Some(Profile {
                block,
                key: 10000,
                value: 100000,
                part: 10000,
            }),
            _ => None,
        }
    }
}

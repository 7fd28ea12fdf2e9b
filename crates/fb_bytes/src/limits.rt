/// The greatest version, ticket and number of a text.
pub const MOST_NUMBER: u64 = 1 << 62;

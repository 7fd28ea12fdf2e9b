use crate::{Seq, Text};

/// A list of names, in the order of whoever made it.
pub type Names = Seq<Text>;

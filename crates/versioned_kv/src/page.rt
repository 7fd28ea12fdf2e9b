use fb_bytes::{Blob, Pairs};

/// The first pairs of a range.
#[derive(Debug, Drop)]
pub struct Page {
    pub pairs: Pairs,
    /// The first key that is left, where there is one.
    pub next: Option<Blob>,
}

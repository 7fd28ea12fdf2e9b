use fb_bytes::Blob;

/// The bytes of a batch, of which the last pieces may not be joined yet.
#[derive(Debug, Drop)]
pub struct Whole {
    pub job: u64,
    pub version: u64,
    pub bytes: Blob,
}

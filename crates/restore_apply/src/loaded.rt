use fb_bytes::Seq;
use mutations::LogChunk;
use range_files::RangeBody;

/// A range file that was read, with the version in its name.
#[derive(Debug, Drop)]
pub struct LoadedFile {
    pub version: u64,
    pub body: RangeBody,
}

/// A link whose log file was read. It gives the versions from `from` on and before `to`, and its
/// operations append to a value up to the limit.
#[derive(Debug, Drop)]
pub struct LoadedLink {
    pub from: u64,
    pub to: u64,
    pub limit: usize,
    pub chunk: LogChunk,
}

/// The range files of a manifest in its order, and the links of a chain in theirs.
#[derive(Debug, Drop)]
pub struct Loaded {
    pub files: Seq<LoadedFile>,
    pub links: Seq<LoadedLink>,
}

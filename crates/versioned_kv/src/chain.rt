use crate::table::Table;
use fb_bytes::Blob;

/// What a key was left with at a version: a value, or none.
#[derive(Debug, Drop)]
pub struct Row {
    pub version: u64,
    pub value: Option<Blob>,
}

/// A key and its rows, in the order of their versions.
#[derive(Debug, Drop)]
pub struct Chain {
    pub key: Blob,
    pub rows: Table<Row>,
}

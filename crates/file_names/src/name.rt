/// The name of a file in a container.
#[derive(Clone, Copy, Debug, PartialEq, Eq)]
pub enum Name {
    /// A range file: the pairs of a piece of the keys at one version.
    Range {
        /// The snapshot that it belongs to.
        snapshot: u64,
        version: u64,
        ticket: u64,
        /// The bytes of its blocks.
        block: u32,
    },
    /// A log file: the mutations from `begin` on and before `end`.
    Log {
        begin: u64,
        end: u64,
        ticket: u64,
        block: u32,
    },
    /// A manifest: the range files of a snapshot.
    Manifest {
        /// The least version of its files.
        begin: u64,
        /// Their greatest version.
        end: u64,
        /// The bytes of all its files.
        bytes: u64,
        ticket: u64,
    },
    /// Below this version nothing is promised.
    Unreliable,
    /// Below this version everything was deleted.
    Expired,
    /// No file of a container.
    Other,
}

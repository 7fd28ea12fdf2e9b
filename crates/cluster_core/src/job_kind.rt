/// What is told of a job's type: how it was started, and what it does.
#[derive(Clone, Copy, Debug, PartialEq, Eq)]
pub enum JobKind {
    /// A backup whose dumps, cuts and seals are called one by one.
    Hand,
    /// A backup that agents work on.
    Backup,
    Restore,
    /// It keeps one database as the other one is.
    Dr,
}

/// How a backup goes on.
#[derive(Clone, Copy, Debug, PartialEq, Eq)]
pub enum Mode {
    /// Its dumps, cuts and seals are called one by one.
    Hand,
    /// It ends once one snapshot is restorable.
    Once,
    /// It takes snapshots one after another until it is told to end.
    Continuous,
}

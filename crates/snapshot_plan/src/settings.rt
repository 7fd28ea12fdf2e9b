/// What the tasks of a job take from the settings of its workload.
#[derive(Clone, Copy, Debug)]
pub struct JobSettings {
    /// How many keys a piece of the snapshot has at most.
    pub shard: u64,
    /// How many versions a log task is for at most.
    pub span: u64,
    /// For how many versions a dispatch sleeps that has nothing to wait for.
    pub rest: u64,
}

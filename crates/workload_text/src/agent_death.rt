/// In a run the agent ends after this turn, counted from 1.
#[derive(Clone, Copy, Debug, PartialEq, Eq)]
pub struct AgentDeath {
    pub agent: u32,
    pub turn: u64,
}

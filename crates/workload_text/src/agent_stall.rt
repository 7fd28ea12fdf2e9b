/// In a run the agent makes so many turns without a step, after this turn.
#[derive(Clone, Copy, Debug, PartialEq, Eq)]
pub struct AgentStall {
    pub agent: u32,
    pub turn: u64,
    pub turns: u64,
}

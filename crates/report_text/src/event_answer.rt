use cluster_core::{Answer, DrainFault, StepFault};

/// What an event of a schedule was answered.
#[derive(Debug, Drop)]
pub enum EventAnswer {
    /// The step was answered so, or refused.
    Step(Result<Answer, StepFault>),
    /// The drain came to the end of the operator's script in so many steps, or was refused.
    Drain(Result<u64, DrainFault>),
}

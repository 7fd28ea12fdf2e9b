ghost use Rattle.cluster_core.specs.Elsewhere.{ElsewhereLaw};
ghost use Rattle.cluster_core.specs.Footprints.{FootprintLaw};
ghost use Rattle.cluster_core.specs.LeastKeys.{LeastKeyLaw};
ghost use Rattle.cluster_core.specs.Laws.{OpeningLaw, StepLaw, RunLaw, FaithfulLaw};

/// The opening state of each workload is sound.
pub fn opening_law()
    ensures { OpeningLaw }
{}

/// Each step of the machine keeps what is sound, refused or not.
pub fn step_law()
    ensures { StepLaw }
{}

/// So every run keeps it.
pub fn run_law()
    ensures { RunLaw }
{}

/// In a sound state each job's container is faithful.
pub fn faithful_law()
    ensures { FaithfulLaw }
{}

/// What each step may touch, whatever it is answered.
pub fn footprint_law()
    ensures { FootprintLaw }
{}

/// No step changes a file outside the containers of the jobs.
pub fn elsewhere_law()
    ensures { ElsewhereLaw }
{}

/// In a sound state a dump and a seal of a job that runs are refused for the least keys alone.
pub fn least_key_law()
    ensures { LeastKeyLaw }
{}

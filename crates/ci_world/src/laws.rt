//! What holds of every run, whatever its project and its script.
ghost use Rattle.ci_world.specs.Laws.{NoStepAfterEnd, OneEnding, OneSerial, OneWorld, RunFollowsTrails, SerialIsRun};

/// There is at most one world after a history.
pub fn one_world()
    ensures { OneWorld }
{}

/// A run ends in at most one way.
pub fn one_ending()
    ensures { OneEnding }
{}

/// In every run each task has come along its trail: its birth and its answers bring it to where it stands.
pub fn run_follows_trails()
    ensures { RunFollowsTrails }
{}

/// A task that has ended or was killed stays so, and makes no further step.
pub fn no_step_after_end()
    ensures { NoStepAfterEnd }
{}

/// The round-robin run is a run of the preemptive machine, its loose ticks fit, and it ends as it says, within its budget.
pub fn serial_is_run()
    ensures { SerialIsRun }
{}

/// There is at most one round-robin run of an origin with its limits.
pub fn one_serial()
    ensures { OneSerial }
{}

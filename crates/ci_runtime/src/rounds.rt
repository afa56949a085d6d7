//! A run on one thread, from its beginning to its end.
ghost use Rattle.std.specs.Prelude.{◌<◌, IfOk};
ghost use Rattle.ci_runtime.specs.Desks.{IsSame, origin_of, state};
ghost use Rattle.ci_runtime.specs.Runs.{EndsSo, IsRun, RoundsFrom};

use crate::desk::Desk;
use crate::ended::Ended;
use ci_base::{Ending, Limits, OutOfMemory, Turn};
use ci_program::Program;
use ci_script::Script;
use std::alloc::Global;

/// The round-robin run of a program with a script, from its beginning to its end. It is a run of the preemptive machine on the trees
/// of the project, its loose ticks fit, its work is within the budget, and it ends as it says. Memory is taken before the first round
/// alone, and the call always returns.
pub fn run(
    alloc: Global,
    program: &Program,
    script: Script,
    limits: Limits,
) -> Result<Ended, OutOfMemory>
    requires { 0 < limits.slice }
    ensures { IfOk result (λ ended. IsRun (origin_of program.now script) limits ended) }
{
    let mut desk = Desk::start(alloc, program, script, limits)?;
    let ending = finish(&mut desk);
    Ok(desk.into_ended(ending))
}

/// Rounds until the run has ended, and how it ends.
fn finish(desk: &mut Desk) -> Ending
    requires { 0 < (state desk.old).limits.slice }
    ensures frame { IsSame (state desk.old) (state desk.new) }
    ensures rounds { RoundsFrom (state desk.old) (state desk.new) }
    ensures ends { EndsSo (state desk.new) result }
{
    loop {
        match desk.turn_serial() {
            Turn::Went => {}
            Turn::Finished => return desk.ending_at_rest(),
            Turn::Spent => return Ending::Spent,
        }
    }
}

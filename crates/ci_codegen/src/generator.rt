//! From a bound project to its program.
ghost use Rattle.std.specs.Prelude.{◌≡◌, map, IfOk};
ghost use Rattle.ci_tree.specs.Rooms.{room as room_of};
ghost use Rattle.ci_tree.specs.SeenBound.{project_of};

use ci_base::OutOfMemory;
use ci_emit::emit;
use ci_meaning::room;
use ci_program::Program;
use ci_tree::Project;
use std::alloc::Global;

/// The program of a project: its code is the project's translation, breaks no rule of the verifier, and does what the project says,
/// all of which the type keeps. No project is refused but for want of memory; it is let go then.
pub fn generate(alloc: Global, project: Project) -> Result<Program, OutOfMemory>
    ensures { IfOk result (λ program. program ≡ project) }
{
    let rooms = rooms(alloc, &project)?;
    let code = emit(alloc, &project, rooms.as_slice())?;
    Ok(Program::of(project, code))
}

/// The room that each function takes, in their order.
fn rooms(alloc: Global, project: &Project) -> Result<Vec<u32>, OutOfMemory>
    ensures { IfOk result (λ rooms. rooms.items ≡ map room_of (project_of project.now).functions) }
{
    let count = project.parts().functions.len();
    let mut rooms = Vec::new(alloc);
    for number in 0..count {
        let Ok(()) = rooms.push(room(project, number) as u32) else {
            return Err(OutOfMemory);
        };
    }
    Ok(rooms)
}

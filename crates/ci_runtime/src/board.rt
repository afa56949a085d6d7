//! What changes while a run goes on.
ghost use Rattle.std.specs.Prelude.{◌≡◌, ◌≤◌, ◌<◌, ◌+◌, ◌^◌, ℕ, Some, length, min};
ghost use Rattle.ci_base.specs.declared.bounds.TheConstants.{MOST_INSTRUCTIONS};
ghost use Rattle.ci_shared.specs.Laws.{IsFormed, gained};
ghost use Rattle.ci_shared.specs.Roster.{Ready, standing_at};
ghost use Rattle.ci_shared.specs.Serving.{apply, script};
ghost use Rattle.ci_task.specs.Moved.{instructions_of};
ghost use Rattle.ci_world.specs.Lists.{at_task};
ghost use Rattle.ci_world.specs.Serial.{is_answer as answers};
ghost use Rattle.ci_runtime.specs.Boards.{Entered, Taken};
ghost use Rattle.ci_runtime.specs.Seats.{CanBegin, Runner};

use crate::notes::Notes;
use crate::seats::Seats;
use crate::serving::{happen, serve};
use ci_base::bounds::MOST_INSTRUCTIONS;
use ci_base::{Event, Request};
use ci_store::Store;
use ci_verify::Verified;

/// What changes while a run goes on.
#[derive(Debug, Drop)]
pub(crate) struct Board {
    pub notes: Notes,
    pub seats: Seats,
    pub store: Store,
    /// How many events were taken.
    pub next: usize,
    /// The task that had the last turn, or 0.
    pub last: u32,
    /// The work done so far.
    pub work: u64,
    /// The instructions that led to the entries so far.
    pub instructions: u64,
}

/// Serves the request that a task makes after so many ticks since its last entry, of which so many are new. Whether the task was
/// answered. Takes no memory.
pub(crate) fn enter(
    board: &mut Board,
    code: &Verified,
    task: u32,
    used: u32,
    ticks: u32,
    request: Request,
) -> bool
    requires ready { standing_at board.old.store.shared.roster task ≡ Some Ready }
    requires formed { IsFormed board.old.store.basis request }
    requires least { 1 ≤ task }
    requires most { task ≤ length board.old.notes.ticks }
    requires room { length board.old.notes.entries < board.old.notes.room }
    requires begins { CanBegin code.now (apply board.old.store.basis board.old.store.shared task request).birth board.old.seats board.old.notes.ticks }
    requires there { (m : Runner) × (at_task board.old.seats task ≡ Some (Some m)) × (instructions_of m ≤ MOST_INSTRUCTIONS) }
    requires work { board.old.work + ticks + 100 < 2 ^ 64 }
    requires instructions { board.old.instructions ≤ MOST_INSTRUCTIONS }
    ensures answered { result ≡ answers (apply board.old.store.basis board.old.store.shared task request).reply }
    ensures entered { Entered code.now task used ticks request (apply board.old.store.basis board.old.store.shared task request) board.old board.new }
{
    let count = board.seats.instructions(task);
    let answered = serve(
        &mut board.notes,
        &mut board.seats,
        &mut board.store,
        code,
        task,
        used,
        request,
    );
    board.work += u64::from(ticks) + 100;
    board.instructions = sum_capped(board.instructions, count);
    answered
}

/// Takes the front event, which is this. Takes no memory.
pub(crate) fn take(board: &mut Board, code: &Verified, event: &Event)
    requires early { board.old.store.shared.clock + gained event.now.what < 2 ^ 62 }
    requires room { length board.old.notes.entries < board.old.notes.room }
    requires begins { CanBegin code.now (script board.old.store.basis board.old.store.shared event.now.what).birth board.old.seats board.old.notes.ticks }
    requires work { board.old.work + 100 < 2 ^ 64 }
    requires next { board.old.next + 1 < 2 ^ 64 }
    ensures { Taken code.now event.now (script board.old.store.basis board.old.store.shared event.now.what) board.old board.new }
{
    happen(
        &mut board.notes,
        &mut board.seats,
        &mut board.store,
        code,
        event,
    );
    board.next += 1;
    board.work += 100;
}

/// The sum of two counts, which stops at the greatest.
fn sum_capped(one: u64, other: u64) -> u64
    requires one { one ≤ MOST_INSTRUCTIONS }
    requires other { other ≤ MOST_INSTRUCTIONS }
    ensures { result ≡ min (one + other) MOST_INSTRUCTIONS }
{
    (one + other).min(MOST_INSTRUCTIONS)
}

//! Functions of the project that are entered.
ghost use Rattle.std.specs.Prelude.{◌≡◌, ◌+◌, ◌++◌, [], ◌∷◌, nat_le, map, reverse, IfOk, OnErr};
ghost use Rattle.ci_base.specs.declared.bounds.TheConstants.{MOST_ROOM};
ghost use Rattle.ci_base.specs.Values as values;
ghost use Rattle.ci_tree.specs.Bound as tree;
ghost use Rattle.ci_tree.specs.LeftOut.{Heads};
ghost use Rattle.ci_tree.specs.Rooms as widths;
ghost use Rattle.ci_tree.specs.SeenBound.{block_of, heads_of, project_of};
ghost use Rattle.ci_meaning.specs.Configuration as configuration;
ghost use Rattle.ci_meaning.specs.Configuration.{function_at, run, to_return};
ghost use Rattle.ci_meaning.specs.Held.{caller_of, task_of, want_of, wants_behind, Calls};
ghost use Rattle.ci_meaning.specs.Moves as moves;
ghost use Rattle.ci_meaning.specs.Moves.{called};

use crate::operators::first_of_kind;
use crate::parts::{Aim, Frame, Hand, Left, Want};
use crate::sizes::room;
use crate::stack::{drop_top, push, push_spare, set_top};
use crate::tree_task::{TreeMove, TreeTask};
use ci_base::bounds::MOST_ROOM;
use ci_base::errors::CALL_DEPTH;
use ci_base::{Kind, OutOfMemory, Request, Value};
use ci_tree::Project;
use ci_tree::bound::Stmt;
use sqlite_items::Items;
use std::alloc::Global;
use std::mem::replace;

fn copy_values(alloc: Global, args: &[Value]) -> Result<Items<Value>, OutOfMemory>
    ensures { IfOk result (λ copy. copy ≡ args.now) }
{
    let mut copy = Items::new(alloc);
    for one in args {
        if copy.push(one.copy()).is_err() {
            return Err(OutOfMemory);
        }
    }
    Ok(copy)
}

/// The locals of a function that is entered with these arguments, and whose other locals have these kinds.
fn locals_with(alloc: Global, others: &[Kind], args: &[Value]) -> Result<Items<Value>, OutOfMemory>
    ensures { IfOk result (λ locals. locals ≡ args.now ++ map values.first_of_kind others.now) }
{
    let mut locals = copy_values(alloc, args)?;
    for kind in others {
        if locals.push(first_of_kind(*kind)).is_err() {
            return Err(OutOfMemory);
        }
    }
    Ok(locals)
}

/// The kinds of the locals behind the parameters of the function of this number; none where there is no such function.
fn others_of(project: &Project, function: usize) -> &[Kind]
    ensures { result.now ≡ (function_at (project_of project.now) function).others }
{
    match project.parts().functions.get(function) {
        Some(found) => found.others.as_slice(),
        None => &[],
    }
}

/// The body of the function of this number; an empty one where there is no such function.
fn body_of(project: &Project, function: usize) -> &[Stmt]
    ensures { block_of (heads_of project.now.functions) result.now ≡ (function_at (project_of project.now) function).body }
{
    match project.parts().functions.get(function) {
        Some(found) => found.body.as_slice(),
        None => &[],
    }
}

/// The function of this number at its beginning, with these arguments.
pub fn open_function<'p>(
    alloc: Global,
    project: &'p Project,
    function: usize,
    args: &[Value],
) -> Result<Frame<'p>, OutOfMemory>
    ensures { let found = function_at (project_of project.now) function in IfOk result (λ frame. caller_of (heads_of project.now.functions) frame ≡ record { function = function; locals = configuration.locals_with found args.now; wants = []; aim = to_return; left = run found.body ∷ [] }) }
{
    let locals = locals_with(alloc, others_of(project, function), args)?;
    let rest = body_of(project, function);
    let mut left = Items::new(alloc);
    push(&mut left, Left::Run { rest })?;
    Ok(Frame {
        function,
        locals,
        wants: Items::new(alloc),
        aim: Aim::Return,
        left,
    })
}

/// A frame that stands where another is to stand. Takes no memory.
fn spare_frame<'p>(alloc: Global) -> Frame<'p> {
    Frame {
        function: 0,
        locals: Items::new(alloc),
        wants: Items::new(alloc),
        aim: Aim::Return,
        left: Items::new(alloc),
    }
}

/// Whether there is room for one more function, beside those that are active.
fn has_room(project: &Project, task: &TreeTask, function: usize) -> bool
    ensures { (heads : Heads) → result ≡ nat_le (widths.room (function_at (project_of project.now) function) + moves.rooms (project_of project.now) (task_of heads task.now)) MOST_ROOM }
{
    let mut taken = room(project, function) + room(project, task.frame.function);
    for caller in task.callers.as_slice() {
        if taken > MOST_ROOM {
            return false;
        }
        taken += room(project, caller.function);
    }
    taken <= MOST_ROOM
}

/// What is wanted behind a call. Where `passed`, the top of the stack is its last argument.
fn drop_passed(wants: &mut Items<Want>, passed: bool)
    ensures { (heads : Heads) → map (want_of heads) (reverse wants.new) ≡ wants_behind passed heads wants.old }
{
    if passed {
        drop_top(wants);
    }
}

/// The function of this number is called with these values, where there is room for it. Where `passed`, the last of them is in
/// hand, and its argument is the top of what is wanted.
pub fn call_function<'p>(
    alloc: Global,
    task: &mut TreeTask<'p>,
    project: &'p Project,
    function: usize,
    args: &[Value],
    passed: bool,
) -> Result<TreeMove, OutOfMemory>
    ensures ok { IfOk result (λ m. Calls (heads_of project.now.functions) passed (called (project_of project.now) (tree.function function) args.now) task.old m task.new) }
    ensures err { OnErr result (task.new ≡ task.old) }
{
    if !has_room(project, task, function) {
        return Ok(TreeMove::Asks(Request::End { code: CALL_DEPTH }));
    }
    let entered = open_function(alloc, project, function, args)?;
    push_spare(&mut task.callers, spare_frame(alloc))?;
    drop_passed(&mut task.frame.wants, passed);
    let caller = replace(&mut task.frame, entered);
    set_top(&mut task.callers, caller);
    task.hand = Hand::Enter;
    Ok(TreeMove::Private { tick: false })
}

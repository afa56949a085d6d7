//! Calls: their arguments, one after another, and what is called with them.
ghost use Rattle.std.specs.Prelude.{◌≡◌, ◌≢◌, ◌<◌, ◌≤◌, ◌++◌, [], ◌∷◌, length, drop, reverse, IfOk, IfSome, IsTrue, MatchOption, OnErr};
ghost use Rattle.ci_tree.specs.Bound as tree;
ghost use Rattle.ci_tree.specs.LeftOut.{Heads, constant, constants, firsts, left_out};
ghost use Rattle.ci_tree.specs.SeenBound.{callee_of, call_of, heads_of, project_of};
ghost use Rattle.ci_meaning.specs.Configuration.{as_argument};
ghost use Rattle.ci_meaning.specs.Held.{behind_of, hand_of, values_of, Calls, Makes};
ghost use Rattle.ci_meaning.specs.Meaning.{argued, evaluated};
ghost use Rattle.ci_meaning.specs.Moves.{called, goes};

use crate::entering::call_function;
use crate::evaluating::{given, wanted};
use crate::operators::first_of_kind;
use crate::parts::{Behind, Hand, Targets, Want};
use crate::stack::{drop_top, push, set_top};
use crate::tree_task::{TreeMove, TreeTask};
use ci_base::{OutOfMemory, PrivateName, Request, SharedName, Text, Value};
use ci_builtin::{error_after, goes_on_after, private_value, request_of};
use ci_tree::Project;
use ci_tree::bound::{Call, Callee, Param};
use sqlite_items::Items;
use std::alloc::Global;

/// A private function is called with these values.
fn call_private(task: &mut TreeTask, name: PrivateName, args: &[Value], passed: bool) -> TreeMove
    ensures { (p : tree.Project) (heads : Heads) → Calls heads passed (called p (tree.private name) args.now) task.old result task.new }
{
    match private_value(task.error, name, args) {
        Ok(value) => {
            task.error = error_after(name, task.error);
            task.goes_on = goes_on_after(name, args, task.goes_on);
            if passed {
                drop_top(&mut task.frame.wants);
            }
            given(task, value)
        }
        Err(code) => {
            if task.goes_on {
                task.error = code;
                if passed {
                    drop_top(&mut task.frame.wants);
                }
                given(task, first_of_kind(name.gives()))
            } else {
                TreeMove::Asks(Request::End { code })
            }
        }
    }
}

/// A shared function is called with these values.
fn call_shared(task: &mut TreeTask, name: SharedName, args: &[Value], passed: bool) -> TreeMove
    ensures { (p : tree.Project) (heads : Heads) → Calls heads passed (called p (tree.shared name) args.now) task.old result task.new }
{
    TreeMove::Asks(request_of(name, args))
}

/// What is called gets these values. The last one is in hand where `passed`, and then its argument is the top of what is wanted.
fn make_call<'p>(
    alloc: Global,
    task: &mut TreeTask<'p>,
    project: &'p Project,
    callee: Callee,
    args: &[Value],
    passed: bool,
) -> Result<TreeMove, OutOfMemory>
    ensures ok { IfOk result (λ m. Calls (heads_of project.now.functions) passed (called (project_of project.now) (callee_of callee) args.now) task.old m task.new) }
    ensures err { OnErr result (task.new ≡ task.old) }
{
    match callee {
        Callee::Function(f) => Ok(call_function(alloc, task, project, f, args, passed)?),
        Callee::Private(name) => Ok(call_private(task, name, args, passed)),
        Callee::Shared(name) => Ok(call_shared(task, name, args, passed)),
    }
}

/// The first of these parameters from this place on that has a value for an argument that is left out: the value, and the place
/// behind it.
fn next_default(params: &[Param], at: usize) -> Option<(Value, usize)>
    ensures next { MatchOption result (constants (drop at (values_of params.now)) ≡ tree.no_expr) (λ found. constants (drop at (values_of params.now)) ≡ tree.more (constant found.0) (constants (drop found.1 (values_of params.now)))) }
    ensures later { IfSome result (λ found. at < found.1) }
    ensures within { IfSome result (λ found. found.1 ≤ length params.now) }
{
    let mut place = at;
    while place < params.len() {
        match &params[place].first {
            Some(value) => return Some((value.copy(), place + 1)),
            None => place += 1,
        }
    }
    None
}

/// The next value that stands for an argument which a call leaves out, from this place on, and the place behind it. Places are
/// counted from 0.
pub fn next_left_out(project: &Project, callee: Callee, at: usize) -> Option<(Value, usize)>
    ensures next { MatchOption result (left_out (heads_of project.now.functions) (callee_of callee) at ≡ tree.no_expr) (λ found. left_out (heads_of project.now.functions) (callee_of callee) at ≡ tree.more (constant found.0) (left_out (heads_of project.now.functions) (callee_of callee) found.1)) }
    ensures later { IfSome result (λ found. at < found.1) }
    ensures within { IfSome result (λ found. found.1 ≤ length (firsts (heads_of project.now.functions) (callee_of callee))) }
{
    match callee {
        Callee::Function(f) => match project.parts().functions.get(f) {
            Some(function) => next_default(function.params.as_slice(), at),
            None => None,
        },
        Callee::Private(_) => None,
        Callee::Shared(SharedName::TaskHnd) => {
            if at == 0 {
                Some((Value::Str(Text::empty()), 1))
            } else {
                None
            }
        }
        Callee::Shared(_) => None,
    }
}

/// The values, and one more behind them.
pub fn with_one_more(
    alloc: Global,
    before: &[Value],
    value: &Value,
) -> Result<Items<Value>, OutOfMemory>
    ensures { IfOk result (λ values. values ≡ before.now ++ value.now ∷ []) }
{
    let mut values = Items::new(alloc);
    for one in before {
        if values.push(one.copy()).is_err() {
            return Err(OutOfMemory);
        }
    }
    match values.push(value.copy()) {
        Ok(()) => Ok(values),
        Err(_) => Err(OutOfMemory),
    }
}

/// This comes into hand, whose value is the next argument, behind these. Where `passed` it takes the place of the argument before.
fn want_argument<'p>(
    task: &mut TreeTask<'p>,
    hand: Hand<'p>,
    before: Items<Value>,
    behind: Behind<'p>,
    passed: bool,
) -> Result<TreeMove, OutOfMemory>
    requires { IsTrue passed → reverse task.old.frame.wants ≢ [] }
    ensures ok { (heads : Heads) → IfOk result (λ m. Calls heads passed (λ ws aim t. goes (hand_of heads hand.entry (as_argument (callee_of behind.entry.callee) (reverse before) (behind_of heads behind.entry) ∷ ws) aim) t) task.old m task.new) }
    ensures err { OnErr result (task.new ≡ task.old) }
{
    let want = Want::Argument { before, behind };
    if passed {
        set_top(&mut task.frame.wants, want);
        task.hand = hand;
        Ok(TreeMove::Private { tick: false })
    } else {
        push(&mut task.frame.wants, want)?;
        task.hand = hand;
        Ok(TreeMove::Private { tick: false })
    }
}

/// The next argument is evaluated, behind these values; where there is none, the call is made.
pub fn argue<'p>(
    alloc: Global,
    task: &mut TreeTask<'p>,
    project: &'p Project,
    before: Items<Value>,
    behind: &Behind<'p>,
    passed: bool,
) -> Result<TreeMove, OutOfMemory>
    requires { IsTrue passed → reverse task.old.frame.wants ≢ [] }
    ensures ok { IfOk result (λ m. Calls (heads_of project.now.functions) passed (argued (project_of project.now) (callee_of behind.now.callee) (reverse before) (behind_of (heads_of project.now.functions) behind.now)) task.old m task.new) }
    ensures err { OnErr result (task.new ≡ task.old) }
{
    let callee = behind.callee;
    match behind.rest {
        [first, rest @ ..] => {
            let given = behind.given;
            let behind = Behind {
                callee,
                rest,
                given,
            };
            let hand = Hand::Eval { expr: first };
            Ok(want_argument(task, hand, before, behind, passed)?)
        }
        [] => match next_left_out(project, callee, behind.given) {
            Some((value, given)) => {
                let behind = Behind {
                    callee,
                    rest: &[],
                    given,
                };
                let hand = Hand::Constant { value };
                Ok(want_argument(task, hand, before, behind, passed)?)
            }
            None => Ok(make_call(alloc, task, project, callee, before.as_slice(), passed)?),
        },
    }
}

/// A call begins.
pub fn begin_call<'p>(
    alloc: Global,
    task: &mut TreeTask<'p>,
    project: &'p Project,
    call: &'p Call,
) -> Result<TreeMove, OutOfMemory>
    ensures ok { IfOk result (λ m. Makes (heads_of project.now.functions) (evaluated (project_of project.now) (tree.called (call_of (heads_of project.now.functions) call.now))) task.old m task.new) }
    ensures err { OnErr result (task.new ≡ task.old) }
{
    match call {
        Call::Plain { callee, args } => {
            let behind = Behind {
                callee: *callee,
                rest: args.as_slice(),
                given: args.len(),
            };
            Ok(argue(alloc, task, project, Items::new(alloc), &behind, false)?)
        }
        Call::QueRead {
            queue,
            sort,
            text,
            mode,
        } => {
            let targets = Targets {
                sort: *sort,
                text: *text,
            };
            let mode = mode.get();
            Ok(wanted(task, queue.get(), Want::Queue { mode, targets })?)
        }
    }
}

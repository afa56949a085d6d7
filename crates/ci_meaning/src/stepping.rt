//! One step of a task: what is in hand says which.
ghost use Rattle.std.specs.Prelude.{◌≡◌, IfOk, OnErr};
ghost use Rattle.ci_tree.specs.SeenBound.{expr_of, heads_of, project_of};
ghost use Rattle.ci_meaning.specs.Configuration.{give};
ghost use Rattle.ci_meaning.specs.Held.{aim_of, configuration_of, task_of, wants_of, Did, Makes};
ghost use Rattle.ci_meaning.specs.Meaning.{act, evaluated, next};
ghost use Rattle.ci_meaning.specs.Within.{expr_within, IsOf};

use crate::aims::step_reached;
use crate::calling::{argue, begin_call, with_one_more};
use crate::elements::use_index;
use crate::evaluating::{given, literal, read_scalar, wanted};
use crate::going::step_gone;
use crate::limits::texts_and_cells_fit;
use crate::parts::{Hand, Want};
use crate::reaching::go;
use crate::stack::top;
use crate::tree_task::{TreeMove, TreeTask};
use crate::using::{use_answer, use_front, use_kept, use_mode, use_operand, use_queue, use_right};
use ci_base::{OutOfMemory, Request, Value};
use ci_tree::Project;
use ci_tree::bound::Expr;
use std::alloc::Global;

/// The expression is evaluated.
fn step_expr<'p>(
    alloc: Global,
    task: &mut TreeTask<'p>,
    project: &'p Project,
    expr: &'p Expr,
) -> Result<TreeMove, OutOfMemory>
    requires { expr_within (expr_of (heads_of project.now.functions) expr.now) }
    ensures ok { IfOk result (λ m. Makes (heads_of project.now.functions) (evaluated (project_of project.now) (expr_of (heads_of project.now.functions) expr.now)) task.old m task.new) }
    ensures err { OnErr result (task.new ≡ task.old) }
{
    match expr {
        Expr::Number { value } => Ok(given(task, Value::Int(*value))),
        Expr::Literal { text } => Ok(literal(task, text)),
        Expr::Scalar { of } => Ok(read_scalar(task, *of)),
        Expr::Element { array, index } => {
            let array = *array;
            Ok(wanted(task, index.get(), Want::Index { array })?)
        }
        Expr::Called { call } => Ok(begin_call(alloc, task, project, call)?),
        Expr::Unary { minus, operand } => {
            let minus = *minus;
            Ok(wanted(task, operand.get(), Want::Operand { minus })?)
        }
        Expr::Chain { first, rest } => {
            let rest = rest.as_slice();
            Ok(wanted(task, first.get(), Want::Front { rest })?)
        }
    }
}

/// The value is used for what it is wanted for.
fn step_value<'p>(
    alloc: Global,
    task: &mut TreeTask<'p>,
    project: &'p Project,
    value: &Value,
) -> Result<TreeMove, OutOfMemory>
    ensures ok { let heads = heads_of project.now.functions in IfOk result (λ m. Did (act (project_of project.now) (give value.now (wants_of heads task.old.frame.wants) (aim_of heads task.old.frame.aim)) (task_of heads task.old)) m (configuration_of heads task.old) (configuration_of heads task.new)) }
    ensures err { OnErr result (task.new ≡ task.old) }
{
    match top(&task.frame.wants) {
        None => Ok(step_reached(task, project, value)?),
        Some(Want::Operand { minus }) => {
            let minus = *minus;
            Ok(use_operand(task, value, minus))
        }
        Some(Want::Front { rest }) => {
            let rest = *rest;
            Ok(use_front(task, value, rest))
        }
        Some(
            Want::Right {
                left,
                operator,
                rest,
            },
        ) => {
            let left = left.copy();
            let operator = *operator;
            let rest = *rest;
            Ok(use_right(task, value, &left, operator, rest))
        }
        Some(Want::Index { array }) => {
            let array = *array;
            Ok(use_index(task, project, value, array))
        }
        Some(Want::Argument { before, behind }) => {
            let values = with_one_more(alloc, before.as_slice(), value)?;
            let behind = *behind;
            Ok(argue(alloc, task, project, values, &behind, true)?)
        }
        Some(Want::Queue { mode, targets }) => {
            let mode = *mode;
            let targets = *targets;
            Ok(use_queue(task, value, mode, targets))
        }
        Some(Want::Mode { queue, targets }) => {
            let queue = queue.copy();
            let targets = *targets;
            Ok(use_mode(task, value, &queue, targets))
        }
        Some(Want::Answer { targets }) => {
            let targets = *targets;
            Ok(use_answer(task, value, targets))
        }
        Some(Want::Kept { target }) => {
            let target = *target;
            Ok(use_kept(task, value, target))
        }
    }
}

/// The next private step, or the request at which the task stands.
fn step<'p>(
    alloc: Global,
    task: &mut TreeTask<'p>,
    project: &'p Project,
) -> Result<TreeMove, OutOfMemory>
    requires { IsOf project.now task.old }
    ensures ok { let heads = heads_of project.now.functions in IfOk result (λ m. Did (next (project_of project.now) (configuration_of heads task.old)) m (configuration_of heads task.old) (configuration_of heads task.new)) }
    ensures err { OnErr result (task.new ≡ task.old) }
{
    match &task.hand {
        Hand::Eval { expr } => {
            let expr = *expr;
            Ok(step_expr(alloc, task, project, expr)?)
        }
        Hand::Constant { value } => {
            let value = value.copy();
            Ok(given(task, value))
        }
        Hand::Scalar { of } => {
            let of = *of;
            Ok(read_scalar(task, of))
        }
        Hand::Called { call } => {
            let call = *call;
            Ok(begin_call(alloc, task, project, call)?)
        }
        Hand::Give { value } => {
            let value = value.copy();
            Ok(step_value(alloc, task, project, &value)?)
        }
        Hand::Write {
            cell,
            value,
            after: _,
        } => {
            let cell = *cell as u32;
            Ok(TreeMove::Asks(Request::Write {
                cell,
                value: value.copy(),
            }))
        }
        Hand::Enter => {
            task.hand = Hand::Go;
            Ok(TreeMove::Private { tick: true })
        }
        Hand::Go => Ok(step_gone(alloc, task, project)?),
    }
}

impl<'p> TreeTask<'p> {
    /// Makes the next private step, or says at which request the task stands, which changes nothing. The project is that of `start`.
    /// Where there is no memory for the step, nothing changes.
    pub fn tree_step(
        &mut self,
        alloc: Global,
        project: &'p Project,
    ) -> Result<TreeMove, OutOfMemory>
        requires { IsOf project.now self.old }
        ensures step { let heads = heads_of project.now.functions in IfOk result (λ m. Did (next (project_of project.now) (configuration_of heads self.old)) m (configuration_of heads self.old) (configuration_of heads self.new)) }
        ensures of { IsOf project.now self.new }
        ensures err { OnErr result (self.new ≡ self.old) }
    {
        texts_and_cells_fit(project);
        Ok(step(alloc, self, project)?)
    }
}

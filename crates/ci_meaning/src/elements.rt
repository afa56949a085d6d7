//! Elements of arrays.
ghost use Rattle.std.specs.Prelude.{◌≡◌, ◌+◌, ◌≤◌, slice_get};
ghost use Rattle.ci_base.specs.declared.bounds.TheConstants.{MOST_CELLS};
ghost use Rattle.ci_tree.specs.LeftOut.{Heads};
ghost use Rattle.ci_tree.specs.SeenBound.{array_of, project_of};
ghost use Rattle.ci_meaning.specs.Configuration.{as_index, to_element};
ghost use Rattle.ci_meaning.specs.Held.{Reaches, Uses};
ghost use Rattle.ci_meaning.specs.Meaning.{reached, used};
ghost use Rattle.ci_meaning.specs.Moves as moves;

use crate::evaluating::given;
use crate::operators::first_of_kind;
use crate::reaching::go;
use crate::stack::drop_top;
use crate::tree_task::{TreeMove, TreeTask};
use ci_base::errors::BAD_INDEX;
use ci_base::{Kind, Request, Value};
use ci_tree::Project;
use ci_tree::bound::Array;

/// The cell of the array's element with this index, where there is one.
fn cell_in(array: &Array, i: i32) -> Option<u32>
    requires { array.now.first + array.now.length ≤ MOST_CELLS }
    ensures { result ≡ moves.cell_in (array_of array.now) i }
{
    match usize::try_from(i) {
        Ok(i) => {
            if i < array.length {
                Some((array.first + i) as u32)
            } else {
                None
            }
        }
        Err(_) => None,
    }
}

/// The same of the array of this number.
fn cell_at(project: &Project, array: usize, index: &Value) -> Option<u32>
    ensures { result ≡ moves.cell_of (slice_get (project_of project.now).arrays array) index.now }
{
    match project.parts().arrays.get(array) {
        Some(found) => match index {
            Value::Int(i) => cell_in(found, *i),
            Value::Str(_) => None,
        },
        None => None,
    }
}

/// The kind of the array's elements.
fn kind_at(project: &Project, array: usize) -> Kind
    ensures { result ≡ moves.kind_in (slice_get (project_of project.now).arrays array) }
{
    match project.parts().arrays.get(array) {
        Some(found) => found.kind,
        None => Kind::Int,
    }
}

/// The value is the index of an element that is read.
pub fn use_index(task: &mut TreeTask, project: &Project, value: &Value, array: usize) -> TreeMove
    ensures { (heads : Heads) → Uses heads (used (project_of project.now) value.now (as_index array)) task.old result task.new }
{
    match cell_at(project, array, value) {
        Some(cell) => TreeMove::Asks(Request::Read { cell }),
        None => {
            if task.goes_on {
                task.error = BAD_INDEX;
                drop_top(&mut task.frame.wants);
                given(task, first_of_kind(kind_at(project, array)))
            } else {
                TreeMove::Asks(Request::End { code: BAD_INDEX })
            }
        }
    }
}

/// The value is assigned to the element with this index.
pub fn reach_element(
    task: &mut TreeTask,
    project: &Project,
    value: &Value,
    array: usize,
    index: &Value,
) -> TreeMove
    ensures { (heads : Heads) → Reaches heads (reached (project_of project.now) value.now (to_element array index.now)) task.old result task.new }
{
    match cell_at(project, array, index) {
        Some(cell) => TreeMove::Asks(Request::Write {
            cell,
            value: value.copy(),
        }),
        None => {
            if task.goes_on {
                task.error = BAD_INDEX;
                go(task)
            } else {
                TreeMove::Asks(Request::End { code: BAD_INDEX })
            }
        }
    }
}

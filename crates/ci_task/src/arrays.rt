//! Elements of arrays.
ghost use Rattle.std.specs.Prelude.{◌≡◌, ◌+◌, ◌<◌, Some, slice_get, length};
ghost use Rattle.ci_code.specs.declared.instruction.Instruction.TheVariants as does;
ghost use Rattle.ci_code.specs.Moves as moves;
ghost use Rattle.ci_task.specs.Going.{CanHeard, DoesHeard, is_inside};

use crate::active::Active;
use crate::heard::Heard;
use crate::outcomes::fail;
use crate::went::Went;
use ci_base::errors::BAD_INDEX;
use ci_code::{Cells, RawParts};
use ci_stack::TaskStack;

/// The array of this number.
pub fn array_at(code: &RawParts, number: u32) -> &Cells
    requires { number < length code.now.arrays }
    ensures { slice_get code.now.arrays number ≡ Some result.now }
{
    &code.arrays.members()[number as usize]
}

/// Whether the array has an element with this index.
pub fn is_inside(array: &Cells, index: i32) -> bool
    ensures { result ≡ is_inside array.now index }
{
    index >= 0 && (index as u32) < array.length
}

/// An element of an array is asked for; outside the array that is a run error.
pub fn read_at(
    code: &RawParts,
    number: u32,
    at: Active,
    stack: &mut TaskStack,
    heard: &mut Heard,
) -> Went
    requires can { CanHeard code.now (does.ReadAt number) at stack.old heard.old }
    ensures { DoesHeard code.now (does.ReadAt number) at stack.old heard.old result stack.new heard.new }
{
    let array = array_at(code, number);
    let index = stack.last_number();
    if is_inside(array, index) {
        return Went::Asks;
    }
    let _count = stack.count();
    fail(1, array.kind, BAD_INDEX, stack, heard)
}

/// A value is to be written into an element of an array; outside the array that is a run error.
pub fn write_at(
    code: &RawParts,
    number: u32,
    at: Active,
    stack: &mut TaskStack,
    heard: &mut Heard,
) -> Went
    requires can { CanHeard code.now (does.WriteAt number) at stack.old heard.old }
    ensures { DoesHeard code.now (does.WriteAt number) at stack.old heard.old result stack.new heard.new }
{
    let array = array_at(code, number);
    let index = stack.second_number();
    if is_inside(array, index) {
        return Went::Asks;
    }
    if heard.goes_on {
        heard.error = BAD_INDEX;
        stack.take_off(2);
        return Went::On;
    }
    Went::Ends(BAD_INDEX)
}

//! The lines of a listing.
ghost use Rattle.std.specs.Prelude.{◌≡◌, ◌+◌, ◌≤◌, ◌<◌, ◌^◌, ◌++◌, length, decimal, codes};
ghost use Rattle.ci_base.specs.declared.bounds.TheConstants.{MOST_LINE_BYTES};
ghost use Rattle.ci_outside.specs.Sink.{Puts};
ghost use Rattle.ci_listing.specs.Listing.{listing, numbered, name_of, function_text, function_line, step_line};

use crate::instruction::{add_operand, instruction_name};
use ci_base::{Line, Text, put_u32, put_u64};
use ci_code::{RawFunction, RawParts, Step};
use ci_outside::{Failed, Sink, put_all};
use ci_verify::Verified;

/// Puts the listing of code: for each function a line with its number, name, number of locals and room, and then a line for
/// each instruction, with its place, name and operand. Takes no memory.
pub fn write_listing<K: Sink>(code: &Verified, out: &mut K) -> Result<(), Failed>
    ensures { Puts K.bytes K.faults out.old out.new result (listing code.now) }
{
    let parts = code.parts();
    put_functions(parts, parts.functions.members(), out)
}

/// Puts the lines of the functions.
fn put_functions<K: Sink>(
    code: &RawParts,
    functions: &[RawFunction],
    out: &mut K,
) -> Result<(), Failed>
    ensures { Puts K.bytes K.faults out.old out.new result (numbered (function_text code.now) 0 functions.now) }
{
    for number in 0..functions.len() {
        match put_function(code, number, &functions[number], out) {
            Ok(()) => {}
            Err(failed) => return Err(failed),
        }
    }
    Ok(())
}

/// Puts the lines of the function with this number.
fn put_function<K: Sink>(
    code: &RawParts,
    number: usize,
    function: &RawFunction,
    out: &mut K,
) -> Result<(), Failed>
    ensures { Puts K.bytes K.faults out.old out.new result (function_text code.now number function.now) }
{
    put_first_line(code, number, function, out)?;
    put_steps(code.texts.members(), function.steps.members(), out)
}

/// Puts the first line of the function with this number.
fn put_first_line<K: Sink>(
    code: &RawParts,
    number: usize,
    function: &RawFunction,
    out: &mut K,
) -> Result<(), Failed>
    ensures { Puts K.bytes K.faults out.old out.new result (function_line code.now number function.now) }
{
    put_all(out, first_line(code, number, function).bytes())
}

/// Puts the lines of the steps.
fn put_steps<K: Sink>(texts: &[Text], steps: &[Step], out: &mut K) -> Result<(), Failed>
    ensures { Puts K.bytes K.faults out.old out.new result (numbered (step_line texts.now) 0 steps.now) }
{
    for place in 0..steps.len() {
        match put_step(texts, place, steps[place], out) {
            Ok(()) => {}
            Err(failed) => return Err(failed),
        }
    }
    Ok(())
}

/// Puts the line of the step at this place.
fn put_step<K: Sink>(texts: &[Text], place: usize, step: Step, out: &mut K) -> Result<(), Failed>
    ensures { Puts K.bytes K.faults out.old out.new result (step_line texts.now place step) }
{
    put_all(out, line_of_step(texts, place, step).bytes())
}

/// The first line of the function with this number.
#[tactic(auto, unfolding(crate::specs::Listing::function_line))]
fn first_line(code: &RawParts, number: usize, function: &RawFunction) -> Line
    ensures { result ≡ function_line code.now number function.now }
{
    let mut line = Line::empty();
    line.add(b"function ");
    put_u64(number as u64, &mut line);
    line.add(b" ");
    line.add(name_of(code, number));
    line.add(b" locals ");
    put_u64(function.locals.members().len() as u64, &mut line);
    line.add(b" room ");
    put_u32(function.room, &mut line);
    line.add(b"\n");
    line
}

/// The name of the function with this number.
fn name_of(code: &RawParts, number: usize) -> &[u8]
    ensures value { result.now ≡ name_of code.now number }
    ensures short { length result.now ≤ 255 }
{
    match code.layout.functions.members().get(number) {
        Some(head) => head.name.bytes(),
        None => b"",
    }
}

/// The line of the step at this place.
#[tactic(auto, unfolding(crate::specs::Listing::step_line))]
fn line_of_step(texts: &[Text], place: usize, step: Step) -> Line
    ensures { result ≡ step_line texts.now place step }
{
    let mut line = Line::empty();
    put_u64(place as u64, &mut line);
    line.add(b" ");
    line.add(instruction_name(step.what));
    add_operand(texts, step.what, &mut line);
    line.add(b"\n");
    line
}

//! The source of a workload.
ghost use Rattle.std.specs.Prelude.{◌≡◌, ◌+◌, ◌*◌, ◌≤◌, ◌++◌, length, codes, decimal, IsTrue, IfOk, OnOk, ◌↔◌};
ghost use Rattle.std.specs.List.{flat_map};
ghost use Rattle.ci_base.specs.declared.bounds.TheConstants.{MOST_LINE_BYTES, MOST_SOURCE_BYTES};
ghost use Rattle.ci_workload.specs.Workload.{numbers, rounds, argument, sleeps, function_line, start_text, workload_text};

use ci_base::{Bytes, Line, OutOfMemory, put_u32};
use std::alloc::Global;

/// The most functions that a workload may have beside Main.
pub const MOST_WORKLOAD: u32 = 900;

/// The source of the workload with `n` functions: each adds to one shared sum and traces a line, and Main starts them one
/// after another, with a sleep behind each fiftieth.
#[tactic(auto, unfolding(crate::specs::Workload::workload_text))]
pub fn workload(alloc: Global, n: u32) -> Result<Bytes, OutOfMemory>
    requires some { 1 ≤ n }
    requires few { n ≤ MOST_WORKLOAD }
    ensures value { IfOk result (λ text. text ≡ workload_text n) }
    ensures within { IfOk result (λ text. length text ≤ MOST_SOURCE_BYTES) }
{
    let mut text = Bytes::copy(alloc, b"GLOBAL INT total;\n")?;
    add_functions(n, &mut text)?;
    text.append(b"FUNCTION Main() ")?;
    add_starts(n, &mut text)?;
    text.append(b"END\n")?;
    Ok(text)
}

/// Adds the lines of the functions.
fn add_functions(n: u32, text: &mut Bytes) -> Result<(), OutOfMemory>
    requires { n ≤ MOST_WORKLOAD }
    ensures value { OnOk result (text.new ≡ text.old ++ flat_map function_line (numbers n)) }
    ensures short { OnOk result (length text.new ≤ length text.old + 140 * n) }
{
    for earlier in 0..n {
        text.append(function_line(earlier + 1).bytes())?;
    }
    Ok(())
}

/// Adds the starts of the functions.
fn add_starts(n: u32, text: &mut Bytes) -> Result<(), OutOfMemory>
    requires { n ≤ MOST_WORKLOAD }
    ensures value { OnOk result (text.new ≡ text.old ++ flat_map start_text (numbers n)) }
    ensures short { OnOk result (length text.new ≤ length text.old + 60 * n) }
{
    for earlier in 0..n {
        text.append(start_text(earlier + 1).bytes())?;
    }
    Ok(())
}

/// The line of the function with this number.
#[tactic(auto, unfolding(crate::specs::Workload::function_line))]
fn function_line(number: u32) -> Line
    ensures value { result ≡ function_line number }
    ensures short { length result ≤ 140 }
{
    let mut line = Line::empty();
    line.add(b"FUNCTION F");
    put_u32(number, &mut line);
    line.add(b"(INT a) INT i; FOR i = 1 TO ");
    put_u32(rounds(number), &mut line);
    line.add(b" DO total = total + a * i; END TraceMsg(\"F");
    put_u32(number, &mut line);
    line.add(b" \" + IntToStr(a)); END\n");
    line
}

/// The start of the function with this number, and the sleep behind it.
#[tactic(auto, unfolding(crate::specs::Workload::start_text))]
fn start_text(number: u32) -> Line
    requires { number ≤ MOST_WORKLOAD }
    ensures value { result ≡ start_text number }
    ensures short { length result ≤ 60 }
{
    let mut line = Line::empty();
    line.add(b"TaskNew(\"F");
    put_u32(number, &mut line);
    line.add(b"\", \"");
    put_u32(argument(number), &mut line);
    line.add(b"\", 0); ");
    line.add(if sleeps(number) { b"SleepMS(1); " } else { b"" });
    line
}

/// How often the function with this number adds its argument.
fn rounds(number: u32) -> u32
    ensures { result ≡ rounds number }
{
    number % 7 + 1
}

/// The argument with which the function with this number is started.
fn argument(number: u32) -> u32
    requires { number ≤ MOST_WORKLOAD }
    ensures { result ≡ argument number }
{
    number * 37 % 101
}

/// Whether Main sleeps behind the start of the function with this number.
pub(crate) fn sleeps(number: u32) -> bool
    ensures { result ≡ sleeps number }
{
    number % 50 == 0
}

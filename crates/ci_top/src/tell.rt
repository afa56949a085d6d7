//! Telling what became of an order: its text is put, and its status is given.
ghost use Rattle.std.specs.Prelude.{◌≡◌, ◌+◌, ◌≤◌, ◌++◌, length, decimal, codes};
ghost use Rattle.ci_outside.specs.Sink.{Puts};
ghost use Rattle.ci_top.specs.Answers.{Delivers, ending_status, fault_status, fault_text, line_text, made_line as line_of_made, made_text, memory_text, script_text, told_text, words_text};
ghost use Rattle.ci_top.specs.Decisions.{decision_text, decision_status, told_run};

use crate::decision::{Decision, FileFault, Made};
use ci_base::bounds::MOST_SCRIPT_LINES;
use ci_base::{Ending, Line, Position, put_u32};
use ci_listing::write_listing;
use ci_outside::{Failed, Sink, put_all, put_three, put_two};
use ci_runtime::Ended;
use ci_script::ScriptFault;
use ci_source::{Fault, fault_text as source_fault_text};
use ci_words::{WordFault, fault_text as word_fault_text};

/// Puts the text of the decision, and gives the exit status: that of the decision, or 5 where a put failed.
pub(crate) fn deliver<K: Sink>(decision: &Decision, out: &mut K) -> u8
    ensures { Delivers K.bytes K.faults out.old out.new (decision_status decision.now) (decision_text decision.now) result }
{
    match put_decision(decision, out) {
        Ok(()) => status_of(decision),
        Err(_) => 5,
    }
}

/// Puts the text of the decision.
fn put_decision<K: Sink>(decision: &Decision, out: &mut K) -> Result<(), Failed>
    ensures { Puts K.bytes K.faults out.old out.new result (decision_text decision.now) }
{
    match decision {
        Decision::WordsRefused(fault) => put_all(out, words_line(*fault).bytes()),
        Decision::OrderNotBuilt => put_all(out, b"words 0: form not built\n"),
        Decision::NotFetched {
            fault,
            number,
            name,
        } => put_three(
            out,
            file_words(*fault, *number).bytes(),
            name.bytes(),
            b"\n",
        ),
        Decision::SourceRefused { name, fault, place } => {
            put_two(out, name, told_at(*fault, place).bytes())
        }
        Decision::ScriptRefused(fault) => put_all(out, script_line(*fault).bytes()),
        Decision::Checked => put_all(out, b"ok\n"),
        Decision::Listed(program) => write_listing(program.code(), out),
        Decision::NoMemory => put_all(out, b"out of memory\n"),
        Decision::Ran { made, ended } => put_run(*made, ended, out),
    }
}

/// Puts the report of a run; of the run of a workload that it was made, and the closing line.
fn put_run<K: Sink>(made: Option<Made>, ended: &Ended, out: &mut K) -> Result<(), Failed>
    ensures { Puts K.bytes K.faults out.old out.new result (told_run made ended.now.history.entries ended.now.end) }
{
    match made {
        None => ended.history.write_report(&ended.end, out),
        Some(made) => put_made(made, ended, out),
    }
}

/// Puts what is told of the run of a workload.
fn put_made<K: Sink>(made: Made, ended: &Ended, out: &mut K) -> Result<(), Failed>
    ensures { Puts K.bytes K.faults out.old out.new result (made_text made.size made.bytes ended.now.history.entries ended.now.end) }
{
    let closing = ended.history.closing_line(&ended.end);
    put_two(out, made_line(made).bytes(), closing.bytes())
}

/// The line for a workload that was made.
fn made_line(made: Made) -> Line
    ensures { result ≡ line_of_made made.size made.bytes }
{
    let mut line = Line::empty();
    line.add(b"made ");
    put_u32(made.size, &mut line);
    line.add(b" bytes ");
    put_u32(made.bytes, &mut line);
    line.add(b"\n");
    line
}

/// The line for a refused script.
fn script_line(fault: ScriptFault) -> Line
    ensures { result ≡ script_text fault }
{
    match fault {
        ScriptFault::UnknownEvent { line } => line_with(line, b"unknown event"),
        ScriptFault::BadArgument { line } => line_with(line, b"bad argument"),
        ScriptFault::TooManyLines => line_with(MOST_SCRIPT_LINES as u32 + 1, b"too many lines"),
        ScriptFault::Memory => memory_line(),
    }
}

/// What is told of this line of a script.
fn line_with(number: u32, words: &[u8]) -> Line
    requires { length words.now ≤ 20 }
    ensures { result ≡ line_text number words.now }
{
    let mut line = Line::empty();
    line.add(b"script line ");
    put_u32(number, &mut line);
    line.add(b": ");
    line.add(words);
    line.add(b"\n");
    line
}

/// The line for want of memory.
fn memory_line() -> Line
    ensures { result ≡ memory_text }
{
    let mut line = Line::empty();
    line.add(b"out of memory\n");
    line
}

/// The line for refused words.
fn words_line(fault: WordFault) -> Line
    ensures { result ≡ words_text fault }
{
    let mut line = Line::empty();
    line.add(b"words ");
    put_u32(fault.index, &mut line);
    line.add(b": ");
    line.add(word_fault_text(fault.number).as_bytes());
    line.add(b"\n");
    line
}

/// What is told behind the name of a file: the place in its source, and the fault there.
fn told_at(fault: Fault, place: &Position) -> Line
    ensures { result ≡ told_text place.now fault }
{
    let mut line = Line::empty();
    line.add(b":");
    put_u32(place.line, &mut line);
    line.add(b":");
    put_u32(place.column, &mut line);
    line.add(b": ");
    line.add(source_fault_text(fault));
    line.add(b"\n");
    line
}

/// The words before the name of a file that isn't fetched.
fn file_words(fault: FileFault, number: u32) -> Line
    ensures { result ≡ codes "file " ++ decimal number ++ codes " " ++ fault_text fault ++ codes ": " }
{
    let mut line = Line::empty();
    line.add(b"file ");
    put_u32(number, &mut line);
    line.add(b" ");
    line.add(fault_word(fault));
    line.add(b": ");
    line
}

/// The words for a file fault.
fn fault_word(fault: FileFault) -> &'static [u8]
    ensures value { result.now ≡ fault_text fault }
    ensures short { length result.now ≤ 10 }
{
    match fault {
        FileFault::Absent => b"absent",
        FileFault::ReadFault => b"read fault",
        FileFault::TooLong => b"too long",
    }
}

/// The exit status of the decision, where no put fails.
fn status_of(decision: &Decision) -> u8
    ensures { result ≡ decision_status decision.now }
{
    match decision {
        Decision::WordsRefused(_) | Decision::OrderNotBuilt => 2,
        Decision::NotFetched { fault, .. } => fault_number(*fault),
        Decision::SourceRefused { .. } => 1,
        Decision::ScriptRefused(_) => 4,
        Decision::Checked | Decision::Listed(_) => 0,
        Decision::NoMemory => 6,
        Decision::Ran { ended, .. } => ending_number(ended.end.ending),
    }
}

/// The exit status for a file fault.
fn fault_number(fault: FileFault) -> u8
    ensures { result ≡ fault_status fault }
{
    match fault {
        FileFault::Absent => 3,
        FileFault::ReadFault => 15,
        FileFault::TooLong => 9,
    }
}

/// The exit status of a run that ended so.
fn ending_number(ending: Ending) -> u8
    ensures { result ≡ ending_status ending }
{
    match ending {
        Ending::Finished | Ending::NotRun => 0,
        Ending::Resting => 7,
        Ending::Spent => 8,
    }
}

//! The report of a run.
ghost use Rattle.std.specs.Prelude.{◌≡◌, ◌+◌, ◌≤◌, ◌++◌, [], length, decimal, codes, IfSome, IsNone};
ghost use Rattle.std.specs.Fmt.{signed_decimal};
ghost use Rattle.std.specs.List.{flat_map};
ghost use Rattle.ci_base.specs.declared.bounds.TheConstants.{MOST_LINE_BYTES, MOST_TASKS};
ghost use Rattle.ci_outside.specs.Sink.{Puts};
ghost use Rattle.ci_history.specs.Ends.{is_live_status};
ghost use Rattle.ci_history.specs.Report.{report_text, entry_line, task_line as line_of_task, task_lines, closing_line as line_at_end, ending_word as word_of, status_text, wait_text, place_text, mark_text};

use crate::end::{EndState, TaskEnd};
use crate::history::History;
use ci_base::bounds::MOST_INSTRUCTIONS;
use ci_base::{
    Ending, Entry, Line, Place, Request, Status, Text, put_caret, put_number, put_u32, put_u64,
};
use ci_outside::{Failed, Sink, put_all};

impl History {
    /// Puts the report of a run that ended so: a line for each trace, a line for each task, and the closing line. Takes no
    /// memory.
    pub fn write_report<K: Sink>(&self, end: &EndState, out: &mut K) -> Result<(), Failed>
        ensures { Puts K.bytes K.faults out.old out.new result (report_text self.now.entries end.now) }
    {
        put_traces(self.entries(), out)?;
        put_tasks(end.tasks.members(), out)?;
        put_closing(self.entries().len() as u64, end, out)
    }

    /// The line that closes the report of a run that ended so. Takes no memory.
    pub fn closing_line(&self, end: &EndState) -> Line
        ensures { result ≡ line_at_end (length self.now.entries) end.now.work end.now.instructions end.now.ending }
    {
        closing_line(self.entries().len() as u64, end)
    }
}

/// Puts a line for each trace.
fn put_traces<K: Sink>(entries: &[Entry], out: &mut K) -> Result<(), Failed>
    ensures { Puts K.bytes K.faults out.old out.new result (flat_map entry_line entries.now) }
{
    for entry in entries {
        put_entry(entry, out)?;
    }
    Ok(())
}

/// Puts the line of an entry, where it has one.
fn put_entry<K: Sink>(entry: &Entry, out: &mut K) -> Result<(), Failed>
    ensures { Puts K.bytes K.faults out.old out.new result (entry_line entry.now) }
{
    match line_of(entry) {
        Some(line) => put_all(out, line.bytes()),
        None => put_all(out, b""),
    }
}

/// The line of a trace, and of no other entry.
fn line_of(entry: &Entry) -> Option<Line>
    ensures some { IfSome result (λ line. line ≡ entry_line entry.now) }
    ensures none { IsNone result → entry_line entry.now ≡ [] }
{
    match entry {
        Entry::Ask {
            task,
            request: Request::Trace { text },
            ..
        } => Some(trace_line(*task, text)),
        _ => None,
    }
}

/// The task's number and the text that it traced.
fn trace_line(task: u32, text: &Text) -> Line
    ensures { result ≡ decimal task ++ codes " " ++ text.now ++ codes "\n" }
{
    let mut line = Line::empty();
    put_u32(task, &mut line);
    line.add(b" ");
    line.add(text.bytes());
    line.add(b"\n");
    line
}

/// Puts a line for each task.
fn put_tasks<K: Sink>(tasks: &[TaskEnd], out: &mut K) -> Result<(), Failed>
    requires { length tasks.now ≤ MOST_TASKS }
    ensures { Puts K.bytes K.faults out.old out.new result (task_lines 1 tasks.now) }
{
    let mut number = 1;
    for task in tasks {
        put_task(number, task, out)?;
        number += 1;
    }
    Ok(())
}

/// Puts the line of the task with this number.
fn put_task<K: Sink>(number: u32, task: &TaskEnd, out: &mut K) -> Result<(), Failed>
    ensures { Puts K.bytes K.faults out.old out.new result (line_of_task number task.now) }
{
    put_all(out, task_line(number, task).bytes())
}

/// The line of the task with this number: its name and how it stands.
fn task_line(number: u32, task: &TaskEnd) -> Line
    ensures { result ≡ line_of_task number task.now }
{
    let mut line = Line::empty();
    line.add(b"task ");
    put_u32(number, &mut line);
    line.add(b" ");
    line.add(task.name.bytes());
    line.add(b" ");
    add_status(task, &mut line);
    line.add(mark(task));
    line.add(b"\n");
    line
}

/// Adds how a task stands, in at most 1,400 bytes.
fn add_status(task: &TaskEnd, to: &mut Line)
    requires { length to.old + 1400 ≤ MOST_LINE_BYTES }
    ensures value { to.new ≡ to.old ++ status_text task.now.status task.now.place }
    ensures short { length to.new ≤ length to.old + 1400 }
{
    match task.status {
        Status::Ready => to.add(b"ready"),
        Status::Waits => {
            to.add(b"waits");
            add_wait(&task.place, to);
        }
        Status::Ended(0) => to.add(b"ended 0"),
        Status::Ended(code) => {
            to.add(b"faulted ");
            put_u32(u32::from(code), to);
        }
        Status::Killed => to.add(b"killed"),
    }
}

/// Adds for what a task waits, in at most 1,300 bytes.
fn add_wait(place: &Option<Place>, to: &mut Line)
    requires { length to.old + 1300 ≤ MOST_LINE_BYTES }
    ensures value { to.new ≡ to.old ++ wait_text place.now }
    ensures short { length to.new ≤ length to.old + 1300 }
{
    match place {
        Some(place) => add_place(place, to),
        None => {}
    }
}

/// Adds a place, in at most 1,300 bytes.
fn add_place(place: &Place, to: &mut Line)
    requires { length to.old + 1300 ≤ MOST_LINE_BYTES }
    ensures value { to.new ≡ to.old ++ place_text place.now }
    ensures short { length to.new ≤ length to.old + 1300 }
{
    match place {
        Place::Semaphore(number) => add_object(b" semaphore ", *number, to),
        Place::Queue(number) => add_object(b" queue ", *number, to),
        Place::Section(name) => {
            to.add(b" section \"");
            put_caret(name.bytes(), to);
            to.add(b"\"");
        }
        Place::Clock => to.add(b" clock"),
    }
}

/// Adds the number of an object behind a word.
fn add_object(word: &[u8], number: i32, to: &mut Line)
    requires word { length word.now ≤ 20 }
    requires room { length to.old + 40 ≤ MOST_LINE_BYTES }
    ensures value { to.new ≡ to.old ++ word.now ++ signed_decimal number }
    ensures short { length to.new ≤ length to.old + 40 }
{
    to.add(word);
    put_number(i64::from(number), to);
}

/// What is said of a live task that is suspended.
fn mark(task: &TaskEnd) -> &'static [u8]
    ensures value { result.now ≡ mark_text task.now }
    ensures short { length result.now ≤ 10 }
{
    if task.suspended && is_live(task.status) {
        b" suspended"
    } else {
        b""
    }
}

/// Whether a task of this status has neither ended nor been killed.
fn is_live(status: Status) -> bool
    ensures { result ≡ is_live_status status }
{
    match status {
        Status::Ready | Status::Waits => true,
        Status::Ended(_) | Status::Killed => false,
    }
}

/// Puts the closing line.
fn put_closing<K: Sink>(count: u64, end: &EndState, out: &mut K) -> Result<(), Failed>
    ensures { Puts K.bytes K.faults out.old out.new result (line_at_end count end.now.work end.now.instructions end.now.ending) }
{
    put_all(out, closing_line(count, end).bytes())
}

/// The closing line: how the run ended, the number of its entries, its work and its instructions.
fn closing_line(count: u64, end: &EndState) -> Line
    ensures { result ≡ line_at_end count end.now.work end.now.instructions end.now.ending }
{
    let mut line = Line::empty();
    line.add(ending_word(end.ending));
    line.add(b" entries ");
    put_u64(count, &mut line);
    line.add(b" work ");
    put_u64(end.work, &mut line);
    line.add(b" instructions ");
    put_u64(end.instructions.min(MOST_INSTRUCTIONS), &mut line);
    line.add(b"\n");
    line
}

/// The word for how a run ended.
fn ending_word(ending: Ending) -> &'static [u8]
    ensures value { result.now ≡ word_of ending }
    ensures short { length result.now ≤ 8 }
{
    match ending {
        Ending::Finished => b"finished",
        Ending::Resting => b"resting",
        Ending::Spent => b"spent",
        Ending::NotRun => b"",
    }
}

//! What a row of a table does.
ghost use Rattle.ci_shared.specs.Laws.{IsFormed};
ghost use Rattle.ci_shared.specs.Started.{Basis};
ghost use Rattle.ci_store_tests.specs.Cells.{HasCells};

use ci_base::{EventKind, Request, Text, Value};

/// A step of a row.
#[derive(Clone, Copy)]
pub enum Step {
    /// The task makes a request.
    By(u32, Ask),
    /// The script has an event.
    Script(Tell),
    /// How each started task stands, and which are live.
    Tasks,
    /// Who owns the section of this name.
    Owner(&'static str),
    /// So many starts from `Main`: how many of them get the next number.
    Starts(i32),
    /// The tasks from the first number up to the one before the second are killed in turn, and after each a task is started from
    /// `Main`: how many of them are killed and followed by the next number.
    Follows(i32, i32),
    /// The event so many times over: how many of them do what they are for.
    Again(i32, Tell),
    /// A start from each of `F`, `Main`, `Two`, `All` and `Late` with this list: for how many of them it isn't of use.
    Misfits(&'static str),
}

/// A request. Its cell is that of `count` or that of `name`.
#[derive(Clone, Copy)]
pub enum Ask {
    ReadCount,
    ReadName,
    WriteCount(i32),
    WriteName(&'static str),
    TaskNew(&'static str, &'static str, i32),
    TaskKill(i32),
    TaskSuspend(i32),
    TaskResume(i32),
    TaskHnd(&'static str),
    Sleep(i32),
    SleepMS(i32),
    SemOpen(&'static str, i32),
    SemWait(i32, i32),
    SemSignal(i32),
    SemClose(i32),
    QueOpen(&'static str, i32),
    QueWrite(i32, i32, &'static str),
    QueRead(i32, i32),
    QueLength(i32),
    QueClose(i32),
    Enter(&'static str),
    Leave(&'static str),
    Trace(&'static str),
    SysTime,
    End(u8),
}

/// An event.
#[derive(Clone, Copy)]
pub enum Tell {
    Run(&'static str, &'static str),
    Tick(i32),
    Kill(i32),
    Suspend(i32),
    Resume(i32),
    Put(&'static str, i32, &'static str),
    Signal(&'static str),
    SetInt(&'static str, i32),
    SetText(&'static str, &'static str),
}

/// The text of a row, which has at most 255 bytes.
pub fn text(bytes: &str) -> Text {
    match Text::of(bytes.as_bytes()) {
        Some(text) => text,
        None => Text::empty(),
    }
}

/// The request of a row.
pub fn request(ask: Ask) -> Request
    ensures { (b : Basis) → HasCells b.kinds → IsFormed b result }
{
    match ask {
        Ask::ReadCount => Request::Read { cell: 0 },
        Ask::ReadName => Request::Read { cell: 1 },
        Ask::WriteCount(n) => Request::Write {
            cell: 0,
            value: Value::Int(n),
        },
        Ask::WriteName(bytes) => Request::Write {
            cell: 1,
            value: Value::Str(text(bytes)),
        },
        Ask::TaskNew(name, list, mode) => Request::TaskNew {
            name: text(name),
            list: text(list),
            mode,
        },
        Ask::TaskKill(n) => Request::TaskKill { n },
        Ask::TaskSuspend(n) => Request::TaskSuspend { n },
        Ask::TaskResume(n) => Request::TaskResume { n },
        Ask::TaskHnd(name) => Request::TaskHnd { name: text(name) },
        Ask::Sleep(n) => Request::Sleep { n },
        Ask::SleepMS(n) => Request::SleepMS { n },
        Ask::SemOpen(name, mode) => Request::SemOpen {
            name: text(name),
            mode,
        },
        Ask::SemWait(number, n) => Request::SemWait { number, n },
        Ask::SemSignal(number) => Request::SemSignal { number },
        Ask::SemClose(number) => Request::SemClose { number },
        Ask::QueOpen(name, mode) => Request::QueOpen {
            name: text(name),
            mode,
        },
        Ask::QueWrite(number, sort, bytes) => Request::QueWrite {
            number,
            sort,
            text: text(bytes),
        },
        Ask::QueRead(number, mode) => Request::QueRead { number, mode },
        Ask::QueLength(number) => Request::QueLength { number },
        Ask::QueClose(number) => Request::QueClose { number },
        Ask::Enter(name) => Request::Enter { text: text(name) },
        Ask::Leave(name) => Request::Leave { text: text(name) },
        Ask::Trace(bytes) => Request::Trace { text: text(bytes) },
        Ask::SysTime => Request::SysTime,
        Ask::End(code) => Request::End { code },
    }
}

/// The event of a row.
pub fn event(tell: Tell) -> EventKind {
    match tell {
        Tell::Run(name, list) => EventKind::Run {
            name: text(name),
            list: text(list),
        },
        Tell::Tick(ms) => EventKind::Tick { ms },
        Tell::Kill(n) => EventKind::Kill { n },
        Tell::Suspend(n) => EventKind::Suspend { n },
        Tell::Resume(n) => EventKind::Resume { n },
        Tell::Put(name, sort, bytes) => EventKind::Put {
            name: text(name),
            sort,
            text: text(bytes),
        },
        Tell::Signal(name) => EventKind::Signal { name: text(name) },
        Tell::SetInt(name, n) => EventKind::Set {
            name: text(name),
            value: Value::Int(n),
        },
        Tell::SetText(name, bytes) => EventKind::Set {
            name: text(name),
            value: Value::Str(text(bytes)),
        },
    }
}

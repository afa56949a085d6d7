//! The shared requests of tasks.
ghost use Rattle.std.specs.Prelude.{◌≡◌, ◌↔◌, IsTrue};

use crate::{Text, Value};

/// A shared request of a task, with its arguments.
#[derive(Debug, PartialEq, Eq, Drop)]
pub enum Request {
    /// The shared variable or array element with this number.
    Read { cell: u32 },
    /// The value is put into the shared variable or array element with this number.
    Write { cell: u32, value: Value },
    /// A task is started from the PUBLIC function of this name, with the arguments in the list; the mode has no effect.
    TaskNew { name: Text, list: Text, mode: i32 },
    /// The task with this number is killed.
    TaskKill { n: i32 },
    /// The task with this number makes no shared step until it is resumed.
    TaskSuspend { n: i32 },
    /// The task with this number may go on.
    TaskResume { n: i32 },
    /// The number of the task that runs the function of this name; the own one where the name is empty.
    TaskHnd { name: Text },
    /// Waits for so many seconds.
    Sleep { n: i32 },
    /// Waits for so many milliseconds.
    SleepMS { n: i32 },
    /// Makes or finds the semaphore of this name.
    SemOpen { name: Text, mode: i32 },
    /// Takes a unit of the semaphore, waiting at most so many seconds, or for ever where n is -1.
    SemWait { number: i32, n: i32 },
    /// Gives a unit to the semaphore.
    SemSignal { number: i32 },
    /// Ends the semaphore.
    SemClose { number: i32 },
    /// Makes or finds the queue of this name.
    QueOpen { name: Text, mode: i32 },
    /// Puts an element into the queue.
    QueWrite { number: i32, sort: i32, text: Text },
    /// Takes the first element of the queue, waiting for one where the mode is 1.
    QueRead { number: i32, mode: i32 },
    /// The number of elements in the queue.
    QueLength { number: i32 },
    /// Ends the queue.
    QueClose { number: i32 },
    /// Enters the critical section of this name.
    Enter { text: Text },
    /// Leaves the critical section of this name.
    Leave { text: Text },
    /// Prints the text.
    Trace { text: Text },
    /// The clock in milliseconds, modulo 2^32.
    SysTime,
    /// The task ends; the code is 0, or the number of the error that ends it.
    End { code: u8 },
}

impl Request {
    /// The same request again. Takes no memory.
    pub fn copy(&self) -> Request
        ensures { result ≡ self.now }
    {
        match self {
            Request::Read { cell } => Request::Read { cell: *cell },
            Request::Write { cell, value } => Request::Write {
                cell: *cell,
                value: value.copy(),
            },
            Request::TaskNew { name, list, mode } => Request::TaskNew {
                name: name.copy(),
                list: list.copy(),
                mode: *mode,
            },
            Request::TaskKill { n } => Request::TaskKill { n: *n },
            Request::TaskSuspend { n } => Request::TaskSuspend { n: *n },
            Request::TaskResume { n } => Request::TaskResume { n: *n },
            Request::TaskHnd { name } => Request::TaskHnd { name: name.copy() },
            Request::Sleep { n } => Request::Sleep { n: *n },
            Request::SleepMS { n } => Request::SleepMS { n: *n },
            Request::SemOpen { name, mode } => Request::SemOpen {
                name: name.copy(),
                mode: *mode,
            },
            Request::SemWait { number, n } => Request::SemWait {
                number: *number,
                n: *n,
            },
            Request::SemSignal { number } => Request::SemSignal { number: *number },
            Request::SemClose { number } => Request::SemClose { number: *number },
            Request::QueOpen { name, mode } => Request::QueOpen {
                name: name.copy(),
                mode: *mode,
            },
            Request::QueWrite { number, sort, text } => Request::QueWrite {
                number: *number,
                sort: *sort,
                text: text.copy(),
            },
            Request::QueRead { number, mode } => Request::QueRead {
                number: *number,
                mode: *mode,
            },
            Request::QueLength { number } => Request::QueLength { number: *number },
            Request::QueClose { number } => Request::QueClose { number: *number },
            Request::Enter { text } => Request::Enter { text: text.copy() },
            Request::Leave { text } => Request::Leave { text: text.copy() },
            Request::Trace { text } => Request::Trace { text: text.copy() },
            Request::SysTime => Request::SysTime,
            Request::End { code } => Request::End { code: *code },
        }
    }

    /// Whether both are the same.
    pub fn is_same(&self, other: &Request) -> bool
        ensures { IsTrue result ↔ (self.now ≡ other.now) }
    {
        match self {
            Request::Read { cell } => match other {
                Request::Read { cell: other_cell } => cell == other_cell,
                _ => false,
            },
            Request::Write { cell, value } => match other {
                Request::Write {
                    cell: other_cell,
                    value: other_value,
                } => cell == other_cell && value == other_value,
                _ => false,
            },
            Request::TaskNew { name, list, mode } => match other {
                Request::TaskNew {
                    name: other_name,
                    list: other_list,
                    mode: other_mode,
                } => name == other_name && list == other_list && mode == other_mode,
                _ => false,
            },
            Request::TaskKill { n } => match other {
                Request::TaskKill { n: other_n } => n == other_n,
                _ => false,
            },
            Request::TaskSuspend { n } => match other {
                Request::TaskSuspend { n: other_n } => n == other_n,
                _ => false,
            },
            Request::TaskResume { n } => match other {
                Request::TaskResume { n: other_n } => n == other_n,
                _ => false,
            },
            Request::TaskHnd { name } => match other {
                Request::TaskHnd { name: other_name } => name == other_name,
                _ => false,
            },
            Request::Sleep { n } => match other {
                Request::Sleep { n: other_n } => n == other_n,
                _ => false,
            },
            Request::SleepMS { n } => match other {
                Request::SleepMS { n: other_n } => n == other_n,
                _ => false,
            },
            Request::SemOpen { name, mode } => match other {
                Request::SemOpen {
                    name: other_name,
                    mode: other_mode,
                } => name == other_name && mode == other_mode,
                _ => false,
            },
            Request::SemWait { number, n } => match other {
                Request::SemWait {
                    number: other_number,
                    n: other_n,
                } => number == other_number && n == other_n,
                _ => false,
            },
            Request::SemSignal { number } => match other {
                Request::SemSignal {
                    number: other_number,
                } => number == other_number,
                _ => false,
            },
            Request::SemClose { number } => match other {
                Request::SemClose {
                    number: other_number,
                } => number == other_number,
                _ => false,
            },
            Request::QueOpen { name, mode } => match other {
                Request::QueOpen {
                    name: other_name,
                    mode: other_mode,
                } => name == other_name && mode == other_mode,
                _ => false,
            },
            Request::QueWrite { number, sort, text } => match other {
                Request::QueWrite {
                    number: other_number,
                    sort: other_sort,
                    text: other_text,
                } => number == other_number && sort == other_sort && text == other_text,
                _ => false,
            },
            Request::QueRead { number, mode } => match other {
                Request::QueRead {
                    number: other_number,
                    mode: other_mode,
                } => number == other_number && mode == other_mode,
                _ => false,
            },
            Request::QueLength { number } => match other {
                Request::QueLength {
                    number: other_number,
                } => number == other_number,
                _ => false,
            },
            Request::QueClose { number } => match other {
                Request::QueClose {
                    number: other_number,
                } => number == other_number,
                _ => false,
            },
            Request::Enter { text } => match other {
                Request::Enter { text: other_text } => text == other_text,
                _ => false,
            },
            Request::Leave { text } => match other {
                Request::Leave { text: other_text } => text == other_text,
                _ => false,
            },
            Request::Trace { text } => match other {
                Request::Trace { text: other_text } => text == other_text,
                _ => false,
            },
            Request::SysTime => match other {
                Request::SysTime => true,
                _ => false,
            },
            Request::End { code } => match other {
                Request::End { code: other_code } => code == other_code,
                _ => false,
            },
        }
    }
}

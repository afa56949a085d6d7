//! What tasks ask for, as a text: `2 trace "hi", 0 end 0` are two requests, each behind its ticks since the one before.
use arrayvec::ArrayVec;
use ci_base::{Request, Text, Value};
use itoa::Buffer;

/// A request, and the ticks before it; none where a task makes none for long.
pub type Next = Option<(u32, Request)>;

/// A text that is cut where it passes 2,048 bytes, so that putting it needs no memory and can't fail.
#[derive(Drop)]
pub struct Shown {
    text: ArrayVec<u8, 2048>,
}

impl Shown {
    /// Nothing yet.
    pub fn new() -> Shown {
        Shown {
            text: ArrayVec::new(),
        }
    }

    /// This text.
    pub fn of(text: &str) -> Shown {
        let mut shown = Shown::new();
        shown.put(text);
        shown
    }

    /// All of it.
    pub fn as_str(&self) -> &str {
        match str::from_utf8(self.text.as_slice()) {
            Ok(text) => text,
            Err(_) => "not UTF-8",
        }
    }

    /// Some text more.
    pub fn put(&mut self, text: &str) {
        let _fits = self.text.try_extend_from_slice(text.as_bytes());
    }

    /// A number.
    pub fn count(&mut self, n: i64) {
        let mut buffer = Buffer::new();
        self.put(buffer.format(n));
    }

    /// How many there are.
    pub fn length(&mut self, n: usize) {
        let mut buffer = Buffer::new();
        self.put(buffer.format(n));
    }

    fn number(&mut self, n: i64) {
        self.put(" ");
        self.count(n);
    }

    fn text(&mut self, text: &Text) {
        self.put(" \"");
        let _fits = self.text.try_extend_from_slice(text.bytes());
        self.put("\"");
    }

    fn value(&mut self, value: &Value) {
        match value {
            Value::Int(n) => self.number(i64::from(*n)),
            Value::Str(text) => self.text(text),
        }
    }

    /// What the task on the tree comes to and what the one in code does: once where both are the same, else one behind the other.
    /// Whether they are the same.
    pub fn both(&mut self, on_tree: &Next, in_code: &Next) -> bool {
        if !self.text.is_empty() {
            self.put(", ");
        }
        self.next(on_tree);
        let same = on_tree == in_code;
        if !same {
            self.put(" | ");
            self.next(in_code);
        }
        same
    }

    /// What a task comes to.
    pub fn next(&mut self, next: &Next) {
        match next {
            Some((ticks, request)) => {
                self.count(i64::from(*ticks));
                self.put(" ");
                self.put(word(request));
                self.parts(request);
            }
            None => self.put("no request"),
        }
    }

    /// What a request is made with.
    fn parts(&mut self, request: &Request) {
        match request {
            Request::Read { cell } => self.number(i64::from(*cell)),
            Request::Write { cell, value } => {
                self.number(i64::from(*cell));
                self.value(value);
            }
            Request::TaskNew { name, list, mode } => {
                self.text(name);
                self.text(list);
                self.number(i64::from(*mode));
            }
            Request::TaskKill { n } => self.number(i64::from(*n)),
            Request::TaskSuspend { n } => self.number(i64::from(*n)),
            Request::TaskResume { n } => self.number(i64::from(*n)),
            Request::TaskHnd { name } => self.text(name),
            Request::Sleep { n } => self.number(i64::from(*n)),
            Request::SleepMS { n } => self.number(i64::from(*n)),
            Request::SemOpen { name, mode } => self.named(name, *mode),
            Request::SemWait { number, n } => self.pair(*number, *n),
            Request::SemSignal { number } => self.number(i64::from(*number)),
            Request::SemClose { number } => self.number(i64::from(*number)),
            Request::QueOpen { name, mode } => self.named(name, *mode),
            Request::QueWrite { number, sort, text } => {
                self.pair(*number, *sort);
                self.text(text);
            }
            Request::QueRead { number, mode } => self.pair(*number, *mode),
            Request::QueLength { number } => self.number(i64::from(*number)),
            Request::QueClose { number } => self.number(i64::from(*number)),
            Request::Enter { text } => self.text(text),
            Request::Leave { text } => self.text(text),
            Request::Trace { text } => self.text(text),
            Request::SysTime => {}
            Request::End { code } => self.number(i64::from(*code)),
        }
    }

    fn pair(&mut self, one: i32, other: i32) {
        self.number(i64::from(one));
        self.number(i64::from(other));
    }

    fn named(&mut self, name: &Text, mode: i32) {
        self.text(name);
        self.number(i64::from(mode));
    }
}

/// The word of a request.
fn word(request: &Request) -> &'static str {
    match request {
        Request::Read { cell: _ } => "read",
        Request::Write { cell: _, value: _ } => "write",
        Request::TaskNew {
            name: _,
            list: _,
            mode: _,
        } => "tasknew",
        Request::TaskKill { n: _ } => "taskkill",
        Request::TaskSuspend { n: _ } => "tasksuspend",
        Request::TaskResume { n: _ } => "taskresume",
        Request::TaskHnd { name: _ } => "taskhnd",
        Request::Sleep { n: _ } => "sleep",
        Request::SleepMS { n: _ } => "sleepms",
        Request::SemOpen { name: _, mode: _ } => "semopen",
        Request::SemWait { number: _, n: _ } => "semwait",
        Request::SemSignal { number: _ } => "semsignal",
        Request::SemClose { number: _ } => "semclose",
        Request::QueOpen { name: _, mode: _ } => "queopen",
        Request::QueWrite {
            number: _,
            sort: _,
            text: _,
        } => "quewrite",
        Request::QueRead { number: _, mode: _ } => "queread",
        Request::QueLength { number: _ } => "quelength",
        Request::QueClose { number: _ } => "queclose",
        Request::Enter { text: _ } => "enter",
        Request::Leave { text: _ } => "leave",
        Request::Trace { text: _ } => "trace",
        Request::SysTime => "systime",
        Request::End { code: _ } => "end",
    }
}

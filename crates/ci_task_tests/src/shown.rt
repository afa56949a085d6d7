//! What is told of a task, as a text.
use arrayvec::ArrayVec;
use ci_base::{Request, Text, Value};
use ci_task::Pause;
use itoa::Buffer;

/// A text that is cut where it passes 2,048 bytes, so that putting it needs no memory and can't fail.
#[derive(Drop)]
pub struct Shown {
    text: ArrayVec<u8, 2048>,
    /// The ticks since the last request.
    ticks: u32,
    /// Whether ticks and instructions are told.
    counts: bool,
}

impl Shown {
    /// Nothing yet. Behind each request stand its ticks and its instructions, if they are to be told.
    pub fn new(counts: bool) -> Shown {
        Shown {
            text: ArrayVec::new(),
            ticks: 0,
            counts,
        }
    }

    pub fn as_str(&self) -> &str {
        match str::from_utf8(self.text.as_slice()) {
            Ok(text) => text,
            Err(_) => "not UTF-8",
        }
    }

    pub fn put(&mut self, text: &str) {
        let _fits = self.text.try_extend_from_slice(text.as_bytes());
    }

    fn text(&mut self, text: &Text) {
        self.put(" \"");
        let _fits = self.text.try_extend_from_slice(text.bytes());
        self.put("\"");
    }

    fn number(&mut self, n: i64) {
        self.put(" ");
        let mut buffer = Buffer::new();
        self.put(buffer.format(n));
    }

    fn value(&mut self, value: &Value) {
        match value {
            Value::Int(n) => self.number(i64::from(*n)),
            Value::Str(text) => self.text(text),
        }
    }

    /// What a run came to, and the count of instructions behind it.
    pub fn pause(&mut self, pause: &Pause, instructions: u64) {
        match pause {
            Pause::OutOfTicks { ticks } => {
                self.ticks(*ticks);
                self.put("spent");
                self.counted(instructions);
            }
            Pause::Asks { request, ticks } => {
                self.ticks(*ticks);
                self.request(request);
                self.counted(instructions);
            }
        }
    }

    /// So many ticks more.
    pub fn ticks(&mut self, more: u32) {
        self.ticks = self.ticks.saturating_add(more);
    }

    fn counted(&mut self, instructions: u64) {
        if self.counts {
            self.number(i64::from(self.ticks));
            self.number((instructions % 1_000_000_000) as i64);
        }
        self.ticks = 0;
    }

    fn request(&mut self, request: &Request) {
        if !self.text.is_empty() {
            self.put("; ");
        }
        match request {
            Request::Read { cell } => self.named("read", i64::from(*cell)),
            Request::Write { cell, value } => {
                self.named("write", i64::from(*cell));
                self.value(value);
            }
            Request::Sleep { n } => self.named("sleep", i64::from(*n)),
            Request::SemWait { number, n } => self.two("wait", *number, *n),
            Request::QueRead { number, mode } => self.two("take", *number, *mode),
            Request::Enter { text } => self.told("enter", text),
            Request::Trace { text } => self.told("trace", text),
            Request::SysTime => self.put("time"),
            Request::End { code } => self.named("end", i64::from(*code)),
            _ => self.longer(request),
        }
    }

    // A request with several arguments, of which one at least is a text.
    fn longer(&mut self, request: &Request) {
        match request {
            Request::SemOpen { name, mode } => {
                self.told("semaphore", name);
                self.number(i64::from(*mode));
            }
            Request::TaskNew { name, list, mode } => {
                self.told("start", name);
                self.text(list);
                self.number(i64::from(*mode));
            }
            Request::QueWrite { number, sort, text } => {
                self.two("put", *number, *sort);
                self.text(text);
            }
            _ => self.put("another"),
        }
    }

    fn named(&mut self, name: &str, n: i64) {
        self.put(name);
        self.number(n);
    }

    fn two(&mut self, name: &str, a: i32, b: i32) {
        self.named(name, i64::from(a));
        self.number(i64::from(b));
    }

    fn told(&mut self, name: &str, text: &Text) {
        self.put(name);
        self.text(text);
    }
}

//! What a task asks for, as a text: `2 trace "hi", 0 end 0` are two requests, each behind its ticks since the one before.
use arrayvec::ArrayVec;
use ci_base::{Request, Text, Value};
use itoa::Buffer;

/// A text that is cut where it passes 4,096 bytes, so that putting it needs no memory and can't fail.
#[derive(Drop)]
pub struct Shown {
    text: ArrayVec<u8, 4096>,
}

impl Shown {
    /// Nothing.
    pub fn empty() -> Shown {
        Shown {
            text: ArrayVec::new(),
        }
    }

    pub fn bytes(&self) -> &[u8] {
        self.text.as_slice()
    }

    /// Adds a request, and the ticks before it.
    pub fn add(&mut self, ticks: u32, request: &Request) {
        if !self.text.is_empty() {
            self.put(", ");
        }
        let mut buffer = Buffer::new();
        self.put(buffer.format(ticks));
        self.put(" ");
        self.request(request);
    }

    fn put(&mut self, text: &str) {
        let _fits = self.text.try_extend_from_slice(text.as_bytes());
    }

    fn number(&mut self, word: &str, n: i64) {
        let mut buffer = Buffer::new();
        self.put(word);
        self.put(" ");
        self.put(buffer.format(n));
    }

    fn text(&mut self, word: &str, text: &Text) {
        self.put(word);
        self.put(" \"");
        let _fits = self.text.try_extend_from_slice(text.bytes());
        self.put("\"");
    }

    fn value(&mut self, value: &Value) {
        match value {
            Value::Int(n) => self.number("", i64::from(*n)),
            Value::Str(text) => self.text("", text),
        }
    }

    fn request(&mut self, request: &Request) {
        match request {
            Request::Read { cell } => self.number("read", i64::from(*cell)),
            Request::Write { cell, value } => {
                self.number("write", i64::from(*cell));
                self.value(value);
            }
            Request::TaskHnd { name } => self.text("taskhnd", name),
            Request::QueRead { number, mode } => {
                self.number("queread", i64::from(*number));
                self.number("", i64::from(*mode));
            }
            Request::Trace { text } => self.text("trace", text),
            Request::End { code } => self.number("end", i64::from(*code)),
            _ => self.put("another"),
        }
    }
}

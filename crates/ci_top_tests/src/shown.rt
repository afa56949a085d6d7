//! What is kept of a run, as a text: entries and loose ticks as a journal spells them, joined by `; `.
use arrayvec::ArrayVec;
use ci_base::{Answer, Entry, Event, EventKind, Loose, Reply, Request, Text, Value};
use itoa::Buffer;

/// A text that is cut where it passes 4,096 bytes, so that putting it needs no memory and can't fail.
#[derive(Drop)]
pub(crate) struct Shown {
    text: ArrayVec<u8, 4096>,
}

impl Shown {
    /// Nothing yet.
    pub(crate) fn empty() -> Shown {
        Shown {
            text: ArrayVec::new(),
        }
    }

    pub(crate) fn bytes(&self) -> &[u8] {
        self.text.as_slice()
    }

    fn put(&mut self, text: &str) {
        let _fits = self.text.try_extend_from_slice(text.as_bytes());
    }

    /// Begins a line with a word.
    fn line(&mut self, word: &str) {
        if !self.text.is_empty() {
            self.put("; ");
        }
        self.put(word);
    }

    /// A number behind a space.
    fn number(&mut self, n: i64) {
        let mut buffer = Buffer::new();
        self.put(" ");
        self.put(buffer.format(n));
    }

    /// A text between quotes behind a space, where a quote is spelled with a caret before it. The texts of these tests have no other
    /// byte that is spelled so.
    fn text(&mut self, text: &Text) {
        self.put(" \"");
        for byte in text.bytes() {
            if *byte == b'"' {
                self.put("^");
            }
            let _fits = self.text.try_push(*byte);
        }
        self.put("\"");
    }

    fn value(&mut self, value: &Value) {
        match value {
            Value::Int(n) => self.number(i64::from(*n)),
            Value::Str(text) => self.text(text),
        }
    }

    fn event(&mut self, event: &Event) {
        self.line("s");
        if event.soon {
            self.put(" soon");
        }
        match &event.what {
            EventKind::Run { name, list } => {
                self.put(" run");
                self.text(name);
                self.text(list);
            }
            _ => self.put(" another"),
        }
    }

    fn request(&mut self, request: &Request) {
        match request {
            Request::Read { cell } => {
                self.put(" read");
                self.number(i64::from(*cell));
            }
            Request::Write { cell, value } => {
                self.put(" write");
                self.number(i64::from(*cell));
                self.value(value);
            }
            Request::Trace { text } => {
                self.put(" trace");
                self.text(text);
            }
            Request::End { code } => {
                self.put(" end");
                self.number(i64::from(*code));
            }
            _ => self.put(" another"),
        }
    }

    fn answer(&mut self, answer: &Answer) {
        self.value(&answer.value);
        self.number(i64::from(answer.code));
    }

    fn reply(&mut self, reply: &Reply) {
        self.put(" =");
        match reply {
            Reply::Answer(answer) => self.answer(answer),
            Reply::Waits => self.put(" waits"),
            Reply::Ends => self.put(" ends"),
        }
    }

    /// Adds an entry.
    pub(crate) fn entry(&mut self, entry: &Entry) {
        match entry {
            Entry::Ask {
                task,
                ticks,
                request,
                reply,
            } => {
                self.line("a");
                self.number(i64::from(*task));
                self.number(i64::from(*ticks));
                self.request(request);
                self.reply(reply);
            }
            Entry::Script { event, reply } => {
                self.event(event);
                self.put(" =");
                self.number(i64::from(reply.value));
                self.number(i64::from(reply.code));
            }
        }
    }

    /// Adds the loose ticks of a task.
    pub(crate) fn loose(&mut self, loose: Loose) {
        self.line("l");
        self.number(i64::from(loose.task));
        self.number(i64::from(loose.ticks));
    }
}

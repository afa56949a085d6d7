//! Runs as texts: entries, loose ticks and the ending as a journal spells them, and how tasks stand.
use arrayvec::ArrayVec;
use ci_base::{
    Answer, Ending, Entry, Event, EventKind, Loose, Place, Reply, Request, Status, Text, Value,
};
use ci_history::TaskEnd;
use itoa::Buffer;

/// A text that is cut where it passes 4,096 bytes, so that putting it needs no memory and can't fail. Its lines are joined by `; `.
#[derive(Drop)]
pub struct Shown {
    text: ArrayVec<u8, 4096>,
}

impl Shown {
    /// Nothing.
    pub fn empty() -> Shown {
        Shown {
            text: ArrayVec::new(),
        }
    }

    pub fn bytes(&self) -> &[u8] {
        self.text.as_slice()
    }

    pub fn put(&mut self, text: &str) {
        let _fits = self.text.try_extend_from_slice(text.as_bytes());
    }

    /// Begins a line with a word.
    pub fn line(&mut self, word: &str) {
        if !self.text.is_empty() {
            self.put("; ");
        }
        self.put(word);
    }

    /// Puts a number behind a space.
    pub fn number(&mut self, n: u64) {
        let mut buffer = Buffer::new();
        self.put(" ");
        self.put(buffer.format(n));
    }

    fn signed(&mut self, n: i32) {
        let mut buffer = Buffer::new();
        self.put(" ");
        self.put(buffer.format(n));
    }

    /// Puts a text between quotes behind a space. All of its bytes can be printed.
    fn quoted(&mut self, text: &Text) {
        self.put(" \"");
        for byte in text.bytes() {
            if *byte == b'"' || *byte == b'^' {
                self.put("^");
            }
            let _fits = self.text.try_push(*byte);
        }
        self.put("\"");
    }

    fn value(&mut self, value: &Value) {
        match value {
            Value::Int(n) => self.signed(*n),
            Value::Str(text) => self.quoted(text),
        }
    }

    fn event(&mut self, event: &Event) {
        self.line("s");
        if event.soon {
            self.put(" soon");
        }
        match &event.what {
            EventKind::Run { name, list } => {
                self.put(" run");
                self.quoted(name);
                self.quoted(list);
            }
            _ => self.put(" another"),
        }
    }

    fn request(&mut self, request: &Request) {
        match request {
            Request::Read { cell } => {
                self.put(" read");
                self.number(u64::from(*cell));
            }
            Request::Write { cell, value } => {
                self.put(" write");
                self.number(u64::from(*cell));
                self.value(value);
            }
            Request::End { code } => {
                self.put(" end");
                self.number(u64::from(*code));
            }
            _ => self.put(" another"),
        }
    }

    fn answer(&mut self, answer: &Answer) {
        self.value(&answer.value);
        self.number(u64::from(answer.code));
    }

    fn reply(&mut self, reply: &Reply) {
        self.put(" =");
        match reply {
            Reply::Answer(answer) => self.answer(answer),
            Reply::Waits => self.put(" waits"),
            Reply::Ends => self.put(" ends"),
        }
    }

    /// Adds an entry.
    pub fn entry(&mut self, entry: &Entry) {
        match entry {
            Entry::Ask {
                task,
                ticks,
                request,
                reply,
            } => {
                self.line("a");
                self.number(u64::from(*task));
                self.number(u64::from(*ticks));
                self.request(request);
                self.reply(reply);
            }
            Entry::Script { event, reply } => {
                self.event(event);
                self.put(" =");
                self.signed(reply.value);
                self.number(u64::from(reply.code));
            }
        }
    }

    /// Adds the loose ticks of a task.
    pub fn loose(&mut self, loose: Loose) {
        self.line("l");
        self.number(u64::from(loose.task));
        self.number(u64::from(loose.ticks));
    }

    /// Adds how the run ended.
    pub fn ending(&mut self, ending: Ending) {
        self.line("end");
        match ending {
            Ending::Finished => self.put(" finished"),
            Ending::Resting => self.put(" resting"),
            Ending::Spent => self.put(" spent"),
            Ending::NotRun => self.put(" not run"),
        }
    }

    fn status(&mut self, status: Status) {
        match status {
            Status::Ready => self.put(" ready"),
            Status::Waits => self.put(" waits"),
            Status::Ended(code) => {
                self.put(" ended");
                self.number(u64::from(code));
            }
            Status::Killed => self.put(" killed"),
        }
    }

    fn place(&mut self, place: &Place) {
        match place {
            Place::Semaphore(number) => {
                self.put(" semaphore");
                self.signed(*number);
            }
            Place::Queue(number) => {
                self.put(" queue");
                self.signed(*number);
            }
            Place::Section(name) => {
                self.put(" section");
                self.quoted(name);
            }
            Place::Clock => self.put(" clock"),
        }
    }

    /// Adds how a task stands.
    pub fn task(&mut self, end: &TaskEnd) {
        self.line("task");
        self.quoted(&end.name);
        self.status(end.status);
        if let Some(place) = &end.place {
            self.place(place);
        }
        if let Some(owner) = end.owner {
            self.put(" of");
            self.number(u64::from(owner));
        }
        if end.suspended {
            self.put(" suspended");
        }
    }
}

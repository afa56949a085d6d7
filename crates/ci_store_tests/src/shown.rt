//! What is told of a step, as a text.
use arrayvec::ArrayVec;
use ci_base::{Answer, Birth, Delivery, EventReply, Extra, Place, Reply, Status, Text, Value};
use itoa::Buffer;

/// A text that is cut where it passes 1,024 bytes, so that putting it needs no memory and can't fail.
#[derive(Drop)]
pub struct Shown {
    text: ArrayVec<u8, 1024>,
}

impl Shown {
    /// Nothing yet.
    pub fn new() -> Shown {
        Shown {
            text: ArrayVec::new(),
        }
    }

    pub fn as_str(&self) -> &str {
        match str::from_utf8(self.text.as_slice()) {
            Ok(text) => text,
            Err(_) => "not UTF-8",
        }
    }

    pub fn put(&mut self, text: &str) {
        let _fits = self.text.try_extend_from_slice(text.as_bytes());
    }

    fn text(&mut self, text: &Text) {
        self.put("\"");
        let _fits = self.text.try_extend_from_slice(text.bytes());
        self.put("\"");
    }

    pub fn number(&mut self, n: i64) {
        let mut buffer = Buffer::new();
        self.put(buffer.format(n));
    }

    fn value(&mut self, value: &Value) {
        match value {
            Value::Int(n) => self.number(i64::from(*n)),
            Value::Str(text) => self.text(text),
        }
    }

    /// An answer: value, code, and the element where there is one.
    fn answer(&mut self, answer: &Answer) {
        self.value(&answer.value);
        self.put(" ");
        self.number(i64::from(answer.code));
        match &answer.extra {
            Extra::Nothing => {}
            Extra::Element { sort, text } => {
                self.put(" ");
                self.number(i64::from(*sort));
                self.put(" ");
                self.text(text);
            }
        }
    }

    /// The reply to a task.
    pub fn reply(&mut self, reply: &Reply) {
        match reply {
            Reply::Answer(answer) => self.answer(answer),
            Reply::Waits => self.put("waits"),
            Reply::Ends => self.put("ends"),
        }
    }

    /// The reply to the script.
    pub fn event_reply(&mut self, reply: EventReply) {
        self.number(i64::from(reply.value));
        self.put(" ");
        self.number(i64::from(reply.code));
    }

    /// A task that was started: its number, that of its function, and its arguments.
    pub fn birth(&mut self, birth: &Birth) {
        self.put("; starts ");
        self.number(i64::from(birth.task));
        self.put(": ");
        self.number(i64::from(birth.function));
        self.put("(");
        for (at, value) in birth.args.values().iter().enumerate() {
            if at > 0 {
                self.put(", ");
            }
            self.value(value);
        }
        self.put(")");
    }

    /// The reply to a start from `Main` of the task with this number, and the start.
    pub fn start(&mut self, task: i64) {
        self.number(task);
        self.put(" 0; starts ");
        self.number(task);
        self.put(": 1()");
    }

    /// An answer to a task that waited.
    pub fn delivery(&mut self, delivery: &Delivery) {
        self.put("; ");
        self.number(i64::from(delivery.task));
        self.put(" gets ");
        self.answer(&delivery.answer);
    }

    /// How a task stands.
    pub fn status(&mut self, status: Status) {
        match status {
            Status::Ready => self.put("ready"),
            Status::Waits => self.put("waits"),
            Status::Ended(code) => {
                self.put("ended ");
                self.number(i64::from(code));
            }
            Status::Killed => self.put("killed"),
        }
    }

    /// Where it waits.
    pub fn place(&mut self, place: &Place) {
        match place {
            Place::Semaphore(number) => {
                self.put(" semaphore ");
                self.number(i64::from(*number));
            }
            Place::Queue(number) => {
                self.put(" queue ");
                self.number(i64::from(*number));
            }
            Place::Section(name) => {
                self.put(" section ");
                self.text(name);
            }
            Place::Clock => self.put(" clock"),
        }
    }
}

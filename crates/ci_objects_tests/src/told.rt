//! What the calls of a table get.
use ci_base::{Answer, Delivery, Place, Reply, Text, Woken};
use ci_shared::answers::{coded, numbered, refused, with_element};
use std::process::Abort;

/// What is told of a call.
#[derive(Clone, Copy)]
pub enum Told {
    /// The code, as value and code.
    Coded(u8),
    /// -1 with the code.
    Refused(u8),
    /// A number with code 0.
    Numbered(i32),
    /// 0 with an element.
    Element(i32, &'static str),
    /// The task waits.
    Waits,
    /// The task owns the section.
    Owner(u32),
    /// Nobody owns the section.
    Nobody,
    /// The task waited nowhere.
    Nowhere,
    /// The call has no answer.
    Done,
}

/// A task that is answered, and what it gets.
pub type Given = (u32, Told);

/// What a call gets.
#[derive(Debug, PartialEq, Drop)]
pub enum Got {
    Reply(Reply),
    Owner(Option<u32>),
    Left(Option<Place>),
    Done,
    /// The task can't wait any more.
    Full,
}

/// What a call gets, and who is answered.
#[derive(Drop)]
pub struct Heard {
    got: Got,
    woken: Woken,
}

impl Told {
    fn got(self, rt: &impl Abort) -> Got {
        match self {
            Told::Coded(code) => Got::Reply(Reply::Answer(coded(code))),
            Told::Refused(code) => Got::Reply(Reply::Answer(refused(code))),
            Told::Numbered(n) => Got::Reply(Reply::Answer(numbered(n))),
            Told::Element(sort, bytes) => {
                Got::Reply(Reply::Answer(with_element(sort, text(rt, bytes))))
            }
            Told::Waits => Got::Reply(Reply::Waits),
            Told::Owner(task) => Got::Owner(Some(task)),
            Told::Nobody => Got::Owner(None),
            Told::Nowhere => Got::Left(None),
            Told::Done => Got::Done,
        }
    }
}

impl Heard {
    /// This and nothing besides.
    pub fn only(got: Got) -> Heard {
        Heard {
            got,
            woken: Woken::empty(),
        }
    }

    /// An answer, where nobody else is answered.
    pub fn answer(answer: Answer) -> Heard {
        Heard::only(Got::Reply(Reply::Answer(answer)))
    }

    /// The reply to a task that may wait.
    pub fn reply(reply: Option<Reply>) -> Heard {
        match reply {
            Some(reply) => Heard::only(Got::Reply(reply)),
            None => Heard::only(Got::Full),
        }
    }

    /// An answer, and who is answered besides.
    pub fn both(both: (Answer, Woken)) -> Heard {
        let (answer, woken) = both;
        Heard {
            got: Got::Reply(Reply::Answer(answer)),
            woken,
        }
    }

    /// Others alone are answered.
    pub fn others(woken: Woken) -> Heard {
        Heard {
            got: Got::Done,
            woken,
        }
    }

    /// It is as the row tells.
    pub fn is_told(&self, rt: &impl Abort, at: usize, told: Told, given: &[Given]) {
        assert_eq!(rt; self.got, told.got(rt), "row {at}");
        let deliveries = self.woken.deliveries();
        assert_eq!(rt; deliveries.len(), given.len(), "row {at}");
        for (delivery, (task, told)) in deliveries.iter().zip(given.iter()) {
            is_given(rt, at, delivery, *task, *told);
        }
    }
}

// The delivery is as the row tells.
fn is_given(rt: &impl Abort, at: usize, delivery: &Delivery, task: u32, told: Told) {
    assert_eq!(rt; delivery.task, task, "row {at}");
    let got = Got::Reply(Reply::Answer(delivery.answer.copy()));
    assert_eq!(rt; got, told.got(rt), "row {at}");
}

/// The text of a row.
pub fn text(rt: &impl Abort, bytes: &str) -> Text {
    Text::of(bytes.as_bytes()).expect(rt, "at most 255 bytes")
}

/// The text of one byte.
pub fn letter(rt: &impl Abort, byte: u8) -> Text {
    Text::of(&[byte]).expect(rt, "one byte")
}

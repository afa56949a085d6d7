//! What a request of a task gets.
ghost use Rattle.std.specs.Prelude.{◌≡◌, ◌↔◌, IsTrue, pos};
ghost use Rattle.ci_base.specs.declared.value.Value.TheVariants as values;
ghost use Rattle.ci_base.specs.declared.reply.Extra.TheVariants as extras;

use crate::{Text, Value};

/// The answer to a request.
#[derive(Debug, PartialEq, Eq, Drop)]
pub struct Answer {
    /// The value of the request in the expression that made it.
    pub value: Value,
    /// 0 where all is well, otherwise the number of the error, at most 14.
    pub code: u8,
    /// What comes besides.
    pub extra: Extra,
}

/// What an answer brings besides its value.
#[derive(Debug, PartialEq, Eq, Drop)]
pub enum Extra {
    Nothing,
    /// An element of a queue: its number and its text.
    Element { sort: i32, text: Text },
}

/// The reply to a request.
#[derive(Debug, PartialEq, Eq, Drop)]
pub enum Reply {
    /// The task goes on with this answer.
    Answer(Answer),
    /// The task waits in a line; the answer comes later.
    Waits,
    /// The task has ended.
    Ends,
}

/// The INT 0 with code 0.
impl Default for Answer {
    ghost is_default = { λ answer. answer ≡ record { value = values.Int (pos 0); code = 0; extra = extras.Nothing } };

    fn default() -> Answer {
        Answer {
            value: Value::default(),
            code: 0,
            extra: Extra::Nothing,
        }
    }
}

impl Answer {
    /// The same answer again. Takes no memory.
    pub fn copy(&self) -> Answer
        ensures { result ≡ self.now }
    {
        Answer {
            value: self.value.copy(),
            code: self.code,
            extra: self.extra.copy(),
        }
    }
}

impl Extra {
    /// The same again. Takes no memory.
    pub fn copy(&self) -> Extra
        ensures { result ≡ self.now }
    {
        match self {
            Extra::Nothing => Extra::Nothing,
            Extra::Element { sort, text } => Extra::Element {
                sort: *sort,
                text: text.copy(),
            },
        }
    }
}

impl Reply {
    /// The same reply again. Takes no memory.
    pub fn copy(&self) -> Reply
        ensures { result ≡ self.now }
    {
        match self {
            Reply::Answer(answer) => Reply::Answer(answer.copy()),
            Reply::Waits => Reply::Waits,
            Reply::Ends => Reply::Ends,
        }
    }
}

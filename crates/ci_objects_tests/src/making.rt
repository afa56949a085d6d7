//! Queues that are opened one after another.
ghost use Rattle.std.specs.Prelude.{◌≤ℤ◌, pos};

use crate::told::{Heard, Told, text};
use ci_base::{Answer, Text};
use ci_queues::Queues;
use std::alloc::Global;
use std::marker::Model;
use std::process::Abort;
use std::test::Fail;

/// A name, a mode, and what the opening gets.
pub type Opening = (&'static str, i32, Told);

/// Queues, and the next number, which is above theirs.
#[derive(Drop)]
pub struct Making {
    queues: Queues,
    next: i32,
}

impl Model for Making {
    ghost use Rattle.std.specs.Prelude.{List};
    ghost use Rattle.ci_shared.specs.Queues.{Queue};
    ghost use Rattle.ci_objects_tests.specs.Opening.{IsBelow, queue_number};

    ghost Value = { List Queue };

    ghost view = { λ making. making.queues };

    ghost invariant = { λ making. IsBelow queue_number making.next making.queues };
}

impl Making {
    /// No queue is there; the first gets this number.
    pub fn new(alloc: Global, next: i32) -> Result<Making, Fail>
        requires { pos 1 ≤ℤ next }
    {
        match Queues::room(alloc) {
            Ok(queues) => Ok(Making { queues, next }),
            Err(_) => Err(Fail::from("no memory")),
        }
    }

    pub fn open(&mut self, name: &Text, mode: i32) -> Answer {
        self.queues.name(name, mode, &mut self.next)
    }

    /// Each opening gets what its row tells.
    pub fn follow(&mut self, rt: &impl Abort, rows: &[Opening]) {
        for (at, (name, mode, told)) in rows.iter().enumerate() {
            Heard::answer(self.open(&text(rt, name), *mode)).is_told(rt, at, *told, &[]);
        }
    }

    pub fn next(&self) -> i32 {
        self.next
    }

    pub fn made(self) -> Queues {
        let Making { queues, next: _ } = self;
        queues
    }
}

//! How tasks are started, answered and lent.
ghost use Rattle.std.specs.Prelude.{◌≡◌, ◌<◌, ◌≤◌, [], ◌∷◌, ◌++◌, ◌↔◌, length, IsTrue};
ghost use Rattle.ci_base.specs.declared.reply.Answer.{Answer};
ghost use Rattle.ci_base.specs.declared.bounds.TheConstants.{MOST_PARAMETERS, MOST_LIVE_TASKS};

use crate::bounds::{MOST_LIVE_TASKS, MOST_PARAMETERS};
use crate::{Answer, Value};
use arrayvec::ArrayVec;
use std::collections::LinkedList;
use std::marker::Model;

/// The arguments of a task: a list of at most 16 values, which contracts see.
#[derive(Debug, PartialEq, Eq, Drop)]
pub struct Args {
    kept: ArrayVec<Value, MOST_PARAMETERS>,
}

impl Model for Args {
    ghost use Rattle.ci_base.specs.declared.bounds.TheConstants.{MOST_PARAMETERS};
    ghost use Rattle.std.specs.Prelude.{List, ◌≤◌, length};
    ghost use Rattle.ci_base.specs.declared.value.Value.{Value as Held};

    ghost Value = { List Held };

    ghost view = { λ args. args.kept.items };

    ghost invariant = { λ args. length args.kept.items ≤ MOST_PARAMETERS };

    ghost inverse = { λ values. record { kept = record { items = values } } };
}

impl Default for Args {
    ghost is_default = { λ args. args ≡ [] };

    fn default() -> Args {
        Args::empty()
    }
}

impl Args {
    /// No arguments.
    pub fn empty() -> Args
        ensures { result ≡ [] }
    {
        Args {
            kept: ArrayVec::new(),
        }
    }

    /// Adds the value at the end.
    pub fn add(&mut self, value: Value)
        requires { length self.old < MOST_PARAMETERS }
        ensures { self.new ≡ self.old ++ value ∷ [] }
    {
        self.kept.push(value);
    }

    /// Whether both are the same.
    pub fn is_same(&self, other: &Args) -> bool
        ensures { IsTrue result ↔ (self.now ≡ other.now) }
    {
        self.values() == other.values()
    }

    /// The values, in order.
    pub fn values(&self) -> &[Value]
        ensures value { result.now ≡ self.now }
        ensures within { length result.now ≤ MOST_PARAMETERS }
    {
        self.kept.as_slice()
    }

    /// The same arguments again. Takes no memory.
    pub fn copy(&self) -> Args
        ensures value { result ≡ self.now }
        ensures within { length result ≤ MOST_PARAMETERS }
    {
        let mut copy = Args::empty();
        for value in self.kept.as_slice() {
            copy.add(value.copy());
        }
        copy
    }
}

/// A task that was started.
#[derive(Debug, PartialEq, Eq, Drop)]
pub struct Birth {
    /// Its number, at least 1.
    pub task: u32,
    /// The number of its function, from 0.
    pub function: u32,
    /// Its arguments, those left out included.
    pub args: Args,
}

impl Birth {
    /// The same birth again. Takes no memory.
    pub fn copy(&self) -> Birth
        ensures { result ≡ self.now }
    {
        Birth {
            task: self.task,
            function: self.function,
            args: self.args.copy(),
        }
    }

    /// Whether both are the same.
    pub fn is_same(&self, other: &Birth) -> bool
        ensures { IsTrue result ↔ (self.now ≡ other.now) }
    {
        self.task == other.task && self.function == other.function && self.args.is_same(&other.args)
    }
}

/// An answer to a task that waited.
#[derive(Debug, PartialEq, Eq, Drop)]
pub struct Delivery {
    /// The number of the task, at least 1.
    pub task: u32,
    /// What it gets.
    pub answer: Answer,
}

/// Task 0, which no task has, and the INT 0.
impl Default for Delivery {
    ghost is_default = { λ delivery. delivery.task ≡ 0 };

    fn default() -> Delivery {
        Delivery {
            task: 0,
            answer: Answer::default(),
        }
    }
}

impl Delivery {
    /// The same delivery again. Takes no memory.
    pub fn copy(&self) -> Delivery
        ensures { result ≡ self.now }
    {
        Delivery {
            task: self.task,
            answer: self.answer.copy(),
        }
    }
}

/// The answers that one step gave to tasks that waited: a list of at most 64 deliveries, which contracts see.
#[derive(Debug, PartialEq, Eq, Drop)]
pub struct Woken {
    kept: ArrayVec<Delivery, MOST_LIVE_TASKS>,
}

impl Model for Woken {
    ghost use Rattle.ci_base.specs.declared.bounds.TheConstants.{MOST_LIVE_TASKS};
    ghost use Rattle.std.specs.Prelude.{List, ◌≤◌, length};
    ghost use Rattle.ci_base.specs.declared.task.Delivery.{Delivery};

    ghost Value = { List Delivery };

    ghost view = { λ woken. woken.kept.items };

    ghost invariant = { λ woken. length woken.kept.items ≤ MOST_LIVE_TASKS };

    ghost inverse = { λ deliveries. record { kept = record { items = deliveries } } };
}

impl Woken {
    /// No deliveries.
    pub fn empty() -> Woken
        ensures { result ≡ [] }
    {
        Woken {
            kept: ArrayVec::new(),
        }
    }

    /// Drops all deliveries.
    pub fn clear(&mut self)
        ensures { self.new ≡ [] }
    {
        self.kept.clear();
    }

    /// Adds the delivery at the end.
    pub fn add(&mut self, delivery: Delivery)
        requires { length self.old < MOST_LIVE_TASKS }
        ensures { self.new ≡ self.old ++ delivery ∷ [] }
    {
        self.kept.push(delivery);
    }

    /// Whether both are the same.
    pub fn is_same(&self, other: &Woken) -> bool
        ensures { IsTrue result ↔ (self.now ≡ other.now) }
    {
        let ours = self.deliveries();
        let theirs = other.deliveries();
        if ours.len() != theirs.len() {
            return false;
        }
        for i in 0..ours.len() {
            if ours[i] != theirs[i] {
                return false;
            }
        }
        true
    }

    /// The deliveries, in order.
    pub fn deliveries(&self) -> &[Delivery]
        ensures value { result.now ≡ self.now }
        ensures within { length result.now ≤ MOST_LIVE_TASKS }
    {
        self.kept.as_slice()
    }

    /// The same deliveries again. Takes no memory.
    pub fn copy(&self) -> Woken
        ensures value { result ≡ self.now }
        ensures within { length result ≤ MOST_LIVE_TASKS }
    {
        let mut copy = Woken::empty();
        for delivery in self.kept.as_slice() {
            copy.add(delivery.copy());
        }
        copy
    }
}

/// The token of a task that is lent to a worker.
#[derive(Clone, Copy, Debug, PartialEq, Eq)]
pub struct Grant {
    /// The number of the task, at least 1.
    pub task: u32,
    /// Its ticks since its last entry, or since its start, when it is lent.
    pub before: u32,
    /// The ticks that it may make while it is away.
    pub ticks: u32,
}

impl Grant {
    /// The same grant again. Takes no memory.
    pub fn copy(&self) -> Grant
        ensures { result ≡ self.now }
    {
        *self
    }
}

/// All that a task has got: its birth, once it was started, and its answers in order. Contracts alone use it.
#[derive(Drop)]
pub struct Trail {
    pub birth: Option<Birth>,
    pub answers: LinkedList<Answer>,
}

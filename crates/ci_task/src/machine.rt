//! The machine of a task.
ghost use Rattle.std.specs.Prelude.{◌≡◌, ◌+◌, ◌<◌, ◌≤◌, ◌^◌, ℕ, List, [], ◌∷◌, ◌++◌, length, min, reverse, Some, IfOk};
ghost use Rattle.ci_base.specs.declared.bounds.TheConstants.{MOST_ROOM};
ghost use Rattle.ci_base.specs.declared.reply.Extra.{Extra as Besides};
ghost use Rattle.ci_base.specs.declared.task.Trail.{Trail};
ghost use Rattle.ci_base.specs.declared.value.Value.{Value as Held};
ghost use Rattle.ci_base.specs.Heard.{error_kept, last_after};
ghost use Rattle.ci_task.specs.Moved.{ArgsFit, Begins, Paused, brought, Resumes, instructions_of, moved};

use crate::active::Active;
use crate::behind::{Behind, behind_of};
use crate::calls::{function_at, kinds_from, push_firsts};
use crate::heard::Heard;
use crate::request::request;
use crate::run::{go, instruction_of};
use crate::went::Went;
use ci_base::bounds::MOST_ROOM;
use ci_base::{Answer, Args, Extra, OutOfMemory, Request, Text, Value};
use ci_stack::TaskStack;
use ci_verify::Verified;
use std::alloc::Global;
use std::marker::Model;

/// What a run came to.
#[derive(Debug, Drop)]
pub enum Pause {
    /// The machine stands at this request, after so many ticks of the run.
    Asks { request: Request, ticks: u32 },
    /// All ticks that were granted are used, and a tick comes next.
    OutOfTicks { ticks: u32 },
}

/// A machine that runs the code of one task after another. Contracts see where it stands.
#[derive(Debug, Drop)]
pub struct TaskMachine {
    at: Active,
    callers: Vec<Active>,
    stack: TaskStack,
    heard: Heard,
    count: u64,
    told: Option<Behind>,
}

impl Model for TaskMachine {
    ghost use Rattle.std.specs.Prelude.{◌≤◌, reverse};
    ghost use Rattle.std.specs.Vec.{vec_capacity};
    ghost use Rattle.ci_base.specs.declared.bounds.TheConstants.{MOST_ROOM};
    ghost use Rattle.ci_task.specs.Moved.{Standing};
    ghost use Rattle.ci_task.specs.Running.{most_counted};

    ghost Value = { Standing };

    ghost view = { λ machine. record { at = machine.at; callers = reverse machine.callers.items; values = machine.stack; heard = machine.heard; count = machine.count; told = machine.told } };

    ghost invariant = { λ machine. (MOST_ROOM ≤ vec_capacity machine.callers) × (machine.count ≤ most_counted) };
}

impl TaskMachine {
    /// A machine with room for every task. It stands nowhere until a task begins on it.
    pub fn room(alloc: Global) -> Result<TaskMachine, OutOfMemory>
        ensures { IfOk result (λ machine. machine.values ≡ []) }
    {
        let stack = TaskStack::room(alloc)?;
        let callers = match Vec::with_capacity(alloc, MOST_ROOM) {
            Ok(callers) => callers,
            Err(_) => return Err(OutOfMemory),
        };
        Ok(TaskMachine {
            at: Active {
                function: 0,
                place: 0,
                base: 0,
                rooms: 0,
            },
            callers,
            stack,
            heard: Heard {
                error: 0,
                sort: 0,
                text: Text::empty(),
                goes_on: false,
            },
            count: 0,
            told: None,
        })
    }

    /// A task begins at the function of this number, with these arguments. Takes no memory.
    pub fn begin(&mut self, code: &Verified, function: u32, args: &Args)
        requires { ArgsFit code.now function args.now }
        ensures { Begins code.now function args.now self.new }
    {
        let parts = code.parts();
        let given = args.values();
        let entered = function_at(parts, function);
        self.callers.clear();
        self.stack.cut(0);
        push_all(given, &mut self.stack);
        push_firsts(
            kinds_from(entered.locals.members(), given.len()),
            &mut self.stack,
        );
        self.at = Active {
            function,
            place: 0,
            base: 0,
            rooms: entered.room,
        };
        self.heard.error = 0;
        self.heard.sort = 0;
        self.heard.text = Text::empty();
        self.heard.goes_on = false;
        self.count = 0;
        self.told = None;
    }

    /// The task runs until it comes to a request, or has used so many ticks and a tick comes next. A machine that stands at a
    /// request answers it again, with 0 ticks. Takes no memory.
    pub fn run(&mut self, code: &Verified, ticks: u32) -> Pause
        requires { (trail : Trail) × (before : ℕ) × moved code.now trail before self.old }
        ensures { (trail : Trail) (before : ℕ) → moved code.now trail before self.old → Paused code.now trail before ticks result self.new }
    {
        let parts = code.parts();
        let stop = go(
            parts,
            self.at,
            &mut self.callers,
            &mut self.stack,
            &mut self.heard,
            ticks,
            self.count,
        );
        self.at = stop.at;
        self.count = stop.count;
        let function = function_at(parts, stop.at.function);
        let what = instruction_of(function, stop.at.place);
        match stop.went {
            Went::On => unreachable!(),
            Went::Tick => {
                self.told = None;
                Pause::OutOfTicks { ticks: stop.used }
            }
            Went::Ends(code) => {
                self.told = Some(behind_of(what));
                Pause::Asks {
                    request: Request::End { code },
                    ticks: stop.used,
                }
            }
            Went::Asks => {
                self.told = Some(behind_of(what));
                Pause::Asks {
                    request: request(parts, what, &self.stack),
                    ticks: stop.used,
                }
            }
        }
    }

    /// The task has this answer to the request that `run` told, and goes on behind it. Takes no memory.
    pub fn resume(&mut self, answer: &Answer)
        ensures { Resumes answer.now self.old self.new }
    {
        match self.told {
            None => {}
            Some(behind) => {
                take_answer(behind, &answer.value, &mut self.stack);
                self.at.place = self.at.place.wrapping_add(1);
                hear(answer, &mut self.heard);
                self.count = 0;
                self.told = None;
            }
        }
    }

    /// How many instructions were run since the last answer, or since the start, with the one that asks, ends or fails where
    /// `run` has told its request since then; at most 9,223,372,036,854,775,807.
    pub fn instructions(&self) -> u64
        ensures { result ≡ instructions_of self.now }
    {
        match self.told {
            None => self.count,
            Some(_) => (self.count + 1).min(9_223_372_036_854_775_807),
        }
    }
}

/// These values go on top, in order.
fn push_all(values: &[Value], stack: &mut TaskStack)
    requires { length stack.old + length values.now ≤ MOST_ROOM }
    ensures { stack.new ≡ stack.old ++ values.now }
{
    for value in values {
        push_value(value, stack);
    }
}

/// The value goes on top.
fn push_value(value: &Value, stack: &mut TaskStack)
    requires { length stack.old < MOST_ROOM }
    ensures { stack.new ≡ stack.old ++ value.now ∷ [] }
{
    stack.replace_by(0, value);
}

/// The answer's value takes the place of the operands of the request.
fn take_answer(behind: Behind, value: &Value, stack: &mut TaskStack)
    ensures { (low high : List Held) → stack.old ≡ low ++ high → length high ≡ behind.taken → length low + length (brought behind.gives value.now) ≤ MOST_ROOM → stack.new ≡ low ++ brought behind.gives value.now }
{
    let taken = behind.taken as usize;
    if taken > stack.count() {
        return;
    }
    stack.take_off(taken);
    if behind.gives && stack.count() < MOST_ROOM {
        push_value(value, stack);
    }
}

/// The task keeps an element that comes with an answer, and a code other than 0.
fn hear(answer: &Answer, heard: &mut Heard)
    ensures error { heard.new.error ≡ error_kept answer.now.code heard.old.error }
    ensures last { record { sort = heard.new.sort; text = heard.new.text } ≡ last_after answer.now.extra (record { sort = heard.old.sort; text = heard.old.text }) }
    ensures goes_on { heard.new.goes_on ≡ heard.old.goes_on }
{
    if answer.code != 0 {
        heard.error = answer.code;
    }
    match &answer.extra {
        Extra::Nothing => {}
        Extra::Element { sort, text } => {
            heard.sort = *sort;
            heard.text = text.copy();
        }
    }
}

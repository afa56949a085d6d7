//! The desk: it runs the tasks of a program in turns.
ghost use Rattle.std.specs.Prelude.{◌≡◌, ◌<◌, Some, IfOk, IfSome, length, slice_get};
ghost use Rattle.ci_base.specs.declared.limits.Turn.TheVariants.{Went};
ghost use Rattle.ci_runtime.specs.Counting.{Counts};
ghost use Rattle.ci_shared.specs.Laws.{gained};
ghost use Rattle.ci_runtime.specs.Desks.{CanGoOn, Chooses, DoesFrom, GoesBy, HasRest, IsAtEnd, IsFrontDue, IsSame, RoundFrom, TookFrom, TurnFrom, opening_desk, origin_of, state, work_of};
ghost use Rattle.ci_runtime.specs.Runs.{EndsSo, IsEnd};
ghost use Rattle.ci_translation.specs.Translation.{translation};

use crate::board::{Board, enter, take};
use crate::choice::{Choice, choose_rule, mark_at, next_task, still_left};
use crate::ended::{Ended, ending_at_rest};
use crate::notes::Notes;
use crate::seats::Seats;
use ci_base::{Ending, Entry, Event, EventKind, Limits, OutOfMemory, Turn};
use ci_program::Program;
use ci_script::Script;
use ci_shared::words::whole;
use ci_store::Store;
use ci_task::Pause;
use ci_verify::Verified;
use std::alloc::Global;
use std::marker::Model;

/// A run that goes on turn by turn. Contracts see the project with the events of the script, the limits, the entries so far, the
/// ticks of each task since its last entry, and the task that had the last turn. No call but `start` takes memory.
#[derive(Debug, Drop)]
pub struct Desk<'p> {
    program: &'p Program,
    code: &'p Verified,
    script: Script,
    limits: Limits,
    board: Board,
}

impl<'p> Model for Desk<'p> {
    ghost use Rattle.ci_runtime.specs.Desks.{DeskValue, IsKept, origin_of};
    ghost use Rattle.ci_tree.specs.contracts.bound.ProjectParts as parts;
    ghost use Rattle.std.specs.Coded.{codes};

    ghost Value = { DeskValue };

    ghost coded = { Prim.hlevel (codes, parts.the_row.coded) };

    ghost view = { λ d. record { project = d.program.now; events = d.script; limits = d.limits; history = d.board.notes.entries; ticks = d.board.notes.ticks; last = d.board.last } };

    ghost invariant = { λ d. IsKept (origin_of d.program.now d.script) d.code.now d.limits d.board };
}

impl<'p> Desk<'p> {
    /// A desk at the beginning of a run. Takes all memory that the run will use: room for as many entries as the budget allows, for
    /// all tasks, and a machine for each that can be live.
    pub fn start(
        alloc: Global,
        program: &'p Program,
        script: Script,
        limits: Limits,
    ) -> Result<Desk<'p>, OutOfMemory>
        ensures { IfOk result (λ d. state d ≡ opening_desk (origin_of program.entry.now script) limits) }
    {
        let code = program.code();
        let _events = script.events();
        let parts = code.parts();
        let store = Store::start(alloc, &parts.layout)?;
        let notes = Notes::room(alloc, limits.budget / 100)?;
        let seats = Seats::room(alloc)?;
        Ok(Desk {
            program,
            code,
            script,
            limits,
            board: Board {
                notes,
                seats,
                store,
                next: 0,
                last: 0,
                work: 0,
                instructions: 0,
            },
        })
    }

    /// One round of the round-robin run, or that the run has ended: finished where no event is left and no task can make a step, and
    /// spent where the budget is used. Takes no memory, and always returns.
    pub fn turn_serial(&mut self) -> Turn
        requires { 0 < (state self.old).limits.slice }
        ensures frame { IsSame (state self.old) (state self.new) }
        ensures round { RoundFrom (state self.old) result (state self.new) }
        ensures by { GoesBy (state self.old) result }
        ensures still { (result ≡ Went → ⊥) → self.new ≡ self.old }
        ensures nears { result ≡ Went → work_of (state self.old) < work_of (state self.new) }
    {
        match self.choose() {
            Choice::End => Turn::Finished,
            Choice::Stop => Turn::Spent,
            Choice::Happen => {
                self.take_event();
                Turn::Went
            }
            Choice::Turn(task) => {
                self.board.last = task;
                self.turn(task);
                Turn::Went
            }
        }
    }

    /// Which rule of a round applies. Takes no memory.
    fn choose(&self) -> Choice
        ensures { Chooses (state self.now) result }
    {
        let front = mark_at(self.script.events(), self.board.next);
        let ready = next_task(&self.board.store, self.board.last);
        let spent = u64::from(self.limits.budget) - self.board.work <= 100;
        choose_rule(front, ready, spent)
    }

    /// The turn of a task. Takes no memory.
    fn turn(&mut self, task: u32)
        requires { CanGoOn (state self.old) task (state self.old).limits.slice }
        ensures frame { IsSame (state self.old) (state self.new) }
        ensures turned { TurnFrom (state self.old) task (state self.old).limits.slice (state self.new) }
        ensures grows { work_of (state self.old) < work_of (state self.new) }
    {
        let mut left = self.limits.slice;
        while let Some(rest) = self.go_on(task, left) {
            left = rest;
        }
    }

    /// The task makes a request and is served, or uses its ticks. What is left of its turn, where that goes on. Takes no memory.
    fn go_on(&mut self, task: u32, left: u32) -> Option<u32>
        requires { CanGoOn (state self.old) task left }
        ensures frame { IsSame (state self.old) (state self.new) }
        ensures does { DoesFrom (state self.old) task left result (state self.new) }
        ensures more { IfSome result (λ rest. CanGoOn (state self.new) task rest) }
        ensures grows { work_of (state self.old) < work_of (state self.new) }
    {
        let rest = u64::from(self.limits.budget) - self.board.work - 100;
        let granted = u64::from(left).min(rest) as u32;
        let before = self.board.notes.ticks_of(task);
        match self.board.seats.run(self.code, task, granted) {
            Pause::OutOfTicks { ticks } => {
                self.board.notes.set_ticks(task, before + ticks);
                self.board.work += u64::from(ticks);
                None
            }
            Pause::Asks { request, ticks } => {
                let used = before + ticks;
                let answered = enter(&mut self.board, self.code, task, used, ticks, request);
                let suspended = self.board.store.is_suspended(task);
                let rest = u64::from(self.limits.budget) - self.board.work;
                still_left(answered, suspended, left - ticks, rest)
            }
        }
    }

    /// Takes the front event. Takes no memory.
    fn take_event(&mut self)
        requires rest { HasRest (state self.old) }
        requires due { IsFrontDue (state self.old) }
        ensures frame { IsSame (state self.old) (state self.new) }
        ensures took { TookFrom (state self.old) (state self.new) }
        ensures grows { work_of (state self.old) < work_of (state self.new) }
    {
        let _budget = self.limits.budget;
        let event = front(self.script.events(), self.board.next);
        let _gain = gain(event);
        take(&mut self.board, self.code, event);
    }

    /// The entries so far, in order.
    pub fn entries(&self) -> &[Entry]
        ensures { result.now ≡ (state self.now).history }
    {
        self.board.notes.entries()
    }

    /// How many instructions led to the entries so far; at most 9,223,372,036,854,775,807.
    pub fn instructions(&self) -> u64
        ensures { Counts (translation (state self.now).origin.project) (state self.now).origin (state self.now).history result }
    {
        self.board.instructions
    }

    /// The work so far: the ticks of all entries, 100 for each entry, and the ticks that tasks made since their last entries.
    pub fn work(&self) -> u64
        ensures { result ≡ work_of (state self.now) }
    {
        self.board.work
    }

    /// How the run ends, where no event is left and no task can make a step. Takes no memory.
    pub fn ending_at_rest(&self) -> Ending
        requires { IsAtEnd (state self.now) }
        ensures { EndsSo (state self.now) result }
    {
        ending_at_rest(&self.board.store)
    }

    /// What is kept of a run that ends so: its history, its loose ticks, and the state in which it ended. Takes no memory.
    pub fn into_ended(self, ending: Ending) -> Ended
        requires { EndsSo (state self) ending }
        ensures { IsEnd (state self.entry) result }
    {
        let work = self.work();
        let instructions = self.instructions();
        let parts = self.code.parts();
        let heads = parts.layout.functions.members();
        let board = self.board;
        let notes = board.notes;
        notes.into_ended(&board.store, heads, work, instructions, ending)
    }
}

/// By how much an event moves the clock: by so little that 32 bits hold it.
fn gain(event: &Event) -> u32
    ensures { result ≡ gained event.now.what }
{
    match &event.what {
        EventKind::Tick { ms } => whole(*ms),
        _ => 0,
    }
}

/// The event at a place.
fn front(events: &[Event], at: usize) -> &Event
    requires { at < length events.now }
    ensures { slice_get events.now at ≡ Some result.now }
{
    &events[at]
}

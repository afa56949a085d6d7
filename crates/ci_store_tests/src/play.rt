//! A store on which the steps of a table are played.
ghost use Rattle.std.specs.Prelude.{◌≡◌, ◌≤◌, ◌<◌, ◌^◌, Some, IsTrue, length};
ghost use Rattle.ci_base.specs.declared.bounds.TheConstants.{MOST_TASKS};
ghost use Rattle.ci_shared.specs.Laws.{IsFormed, gained};
ghost use Rattle.ci_shared.specs.Roster.{Ready, standing_at};
ghost use Rattle.ci_shared.specs.Started.{Basis};
ghost use Rattle.ci_store_tests.specs.Cells.{HasCells};

use crate::project::project;
use crate::shown::Shown;
use crate::steps::{Ask, Step, Tell, event, request, text};
use ci_base::{Event, EventKind, EventReply, Reply, Request, Status};
use ci_shared::laws::{ask_clock, script_clock};
use ci_shared::words::whole;
use ci_store::Store;
use std::alloc::Global;
use std::marker::Model;
use std::process::Abort;
use std::test::Fail;

/// What a row does, and what is told of it: the reply, who is started, and who is answered.
pub type Row = (Step, &'static str);

/// The names of functions of no, one and two parameters of both kinds, with defaults and without.
static NAMES: [&str; 5] = ["F", "Main", "Two", "All", "Late"];

/// A store of the project of the tests, and its clock.
#[derive(Drop)]
pub struct Play {
    store: Store,
    clock: u64,
}

impl Model for Play {
    ghost use Rattle.std.specs.Prelude.{◌≡◌};
    ghost use Rattle.ci_store.specs.Stored.{Stored};
    ghost use Rattle.ci_store_tests.specs.Cells.{HasCells};

    ghost Value = { Stored };

    ghost view = { λ play. play.store };

    ghost invariant = { λ play. HasCells play.store.basis.kinds × (play.store.shared.clock ≡ play.clock) };
}

impl Play {
    /// The beginning of a run, with so many cells besides three.
    pub fn new(alloc: Global, others: usize) -> Result<Play, Fail> {
        let layout = project(alloc, others)?;
        match Store::start(alloc, &layout) {
            Ok(store) => Ok(Play { store, clock: 0 }),
            Err(_) => Err(Fail::from("no memory")),
        }
    }

    /// What is told of a step.
    pub fn told(&mut self, step: Step) -> Shown {
        match step {
            Step::By(task, ask) => self.told_by(task, ask),
            Step::Script(tell) => self.told_script(tell),
            Step::Tasks => self.tasks(),
            Step::Owner(name) => self.owner(name),
            Step::Starts(times) => self.starts(times),
            Step::Follows(first, end) => self.follows(first, end),
            Step::Again(times, tell) => self.again(times, tell),
            Step::Misfits(list) => self.misfits(list),
        }
    }

    fn told_by(&mut self, task: u32, ask: Ask) -> Shown {
        let mut out = Shown::new();
        match self.serve(task, &request(ask)) {
            Some(reply) => {
                out.reply(&reply);
                self.put_others(&mut out);
            }
            None => out.put("can't ask"),
        }
        out
    }

    fn told_script(&mut self, tell: Tell) -> Shown {
        let mut out = Shown::new();
        match self.happen(event(tell)) {
            Some(reply) => {
                out.event_reply(reply);
                self.put_others(&mut out);
            }
            None => out.put("too late"),
        }
        out
    }

    // Who was started, and who was answered.
    fn put_others(&self, out: &mut Shown) {
        if let Some(birth) = self.store.birth() {
            out.birth(birth);
        }
        for delivery in self.store.deliveries() {
            out.delivery(delivery);
        }
    }

    /// The reply to the task, if it can ask.
    pub fn serve(&mut self, task: u32, request: &Request) -> Option<Reply>
        requires { (b : Basis) → HasCells b.kinds → IsFormed b request.now }
    {
        if !self.is_ready(task) {
            return None;
        }
        ask_clock();
        Some(self.store.serve(task, request))
    }

    fn is_ready(&self, task: u32) -> bool
        ensures { IsTrue result → standing_at self.now.shared.roster task ≡ Some Ready }
    {
        if task == 0 || task > self.store.started() {
            return false;
        }
        match self.store.status(task) {
            Status::Ready => true,
            Status::Waits => false,
            Status::Ended(_) => false,
            Status::Killed => false,
        }
    }

    // The reply to the script, if the clock can still gain.
    fn happen(&mut self, what: EventKind) -> Option<EventReply> {
        if self.clock >= 1_000_000_000_000_000_000 {
            return None;
        }
        let gain = gain(&what);
        script_clock();
        let reply = self.store.event(&Event { soon: false, what });
        self.clock += gain;
        Some(reply)
    }

    // How each task stands, and which are live.
    fn tasks(&self) -> Shown {
        let mut out = Shown::new();
        for at in 0..self.store.started() {
            let task = at + 1;
            out.number(i64::from(task));
            out.put(" ");
            out.status(self.store.status(task));
            if let Some(place) = self.store.place(task) {
                out.place(&place);
            }
            if self.store.is_suspended(task) {
                out.put(" suspended");
            }
            out.put(", ");
        }
        out.put("live");
        for task in self.store.live() {
            out.put(" ");
            out.number(i64::from(*task));
        }
        out
    }

    fn owner(&self, name: &str) -> Shown {
        let mut out = Shown::new();
        match self.store.owner(&text(name)) {
            Some(task) => out.number(i64::from(task)),
            None => out.put("nobody"),
        }
        out
    }

    fn starts(&mut self, times: i32) -> Shown {
        let mut right: u32 = 0;
        for _ in 0..times {
            right = right.saturating_add(u32::from(self.starts_next()));
        }
        count(right)
    }

    fn follows(&mut self, first: i32, end: i32) -> Shown {
        let mut right: u32 = 0;
        for task in first..end {
            right = right.saturating_add(u32::from(self.replaces(task)));
        }
        count(right)
    }

    fn again(&mut self, times: i32, tell: Tell) -> Shown {
        let mut right: u32 = 0;
        for _ in 0..times {
            right = right.saturating_add(u32::from(self.is_told(tell, "0 0")));
        }
        count(right)
    }

    fn misfits(&mut self, list: &'static str) -> Shown {
        let mut right: u32 = 0;
        for name in NAMES.iter() {
            right = right.saturating_add(u32::from(self.is_told(Tell::Run(*name, list), "-1 10")));
        }
        count(right)
    }

    // Whether this is told of the event.
    fn is_told(&mut self, tell: Tell, want: &str) -> bool {
        let told = self.told_script(tell);
        told.as_str() == want
    }

    // Whether a start from `Main` gets the next number.
    fn starts_next(&mut self) -> bool {
        let mut want = Shown::new();
        want.start(i64::from(self.store.started()) + 1);
        self.is_told(Tell::Run("Main", ""), want.as_str())
    }

    // Whether the task is killed, and a start from `Main` gets the next number.
    fn replaces(&mut self, task: i32) -> bool {
        self.is_told(Tell::Kill(task), "0 0") && self.starts_next()
    }
}

fn count(n: u32) -> Shown {
    let mut out = Shown::new();
    out.number(i64::from(n));
    out
}

// By how much an event moves the clock.
fn gain(what: &EventKind) -> u64
    ensures exact { result ≡ gained what.now }
    ensures within { result < 2 ^ 32 }
{
    match what {
        EventKind::Tick { ms } => u64::from(whole(*ms)),
        _ => 0,
    }
}

/// The step is told so; the number of its row is there for the message.
fn tells(rt: &impl Abort, play: &mut Play, at: usize, step: Step, want: &str) {
    let told = play.told(step);
    assert_eq!(rt; told.as_str(), want, "row {at}");
}

/// Each row is told as it says. First so many tasks are started from `Main`.
pub fn follow(rt: &impl Abort, alloc: Global, tasks: i32, rows: &[Row]) -> Result<(), Fail> {
    let mut play = Play::new(alloc, 0)?;
    let _started = play.told(Step::Starts(tasks));
    for (at, (step, want)) in rows.iter().enumerate() {
        tells(rt, &mut play, at, *step, want);
    }
    Ok(())
}

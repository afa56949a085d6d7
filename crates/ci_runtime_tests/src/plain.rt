//! A run of two tasks in turns, on a plain state: the rules of a round, one after another, over what each task has made.
use crate::shown::Shown;
use ci_base::{Ending, Loose};

/// The ticks before each request of the function: its entry and its first statement lead to the first write, one statement to each
/// other one, and none to its end.
static WAY: [u32; 4] = [2, 1, 1, 0];

/// The request of each task at each place of its way, and what becomes of it.
static REQUESTS: [[&str; 4]; 2] = [
    [
        " write 0 \"a\" = 0 0",
        " write 0 \"a\" = 0 0",
        " write 0 \"a\" = 0 0",
        " end 0 = ends",
    ],
    [
        " write 0 \"b\" = 0 0",
        " write 0 \"b\" = 0 0",
        " write 0 \"b\" = 0 0",
        " end 0 = ends",
    ],
];

/// The events that start the tasks. The second is marked.
static EVENTS: [&str; 2] = [
    "s run \"W\" \"^\"a^\"\" = 1 0",
    "s soon run \"W\" \"^\"b^\"\" = 2 0",
];

/// A task: how many requests it has made, and its ticks since the last one.
#[derive(Clone, Copy, Debug, PartialEq, Eq)]
struct Doing {
    made: usize,
    ticks: u32,
}

/// The state between two rounds.
#[derive(Drop)]
struct Plain {
    slice: u32,
    budget: u32,
    /// How many tasks were started.
    started: usize,
    tasks: [Doing; 2],
    /// The task that had the last turn, counted from 1, or 0.
    last: usize,
    work: u32,
    shown: Shown,
}

impl Plain {
    fn new(slice: u32, budget: u32) -> Plain {
        Plain {
            slice,
            budget,
            started: 0,
            tasks: [Doing { made: 0, ticks: 0 }; 2],
            last: 0,
            work: 0,
            shown: Shown::empty(),
        }
    }

    /// What is left of the budget.
    fn rest(&self) -> u32 {
        self.budget.saturating_sub(self.work)
    }

    /// A task by its number, as far as it was started.
    fn task(&self, number: usize) -> Option<Doing> {
        if number == 0 || number > self.started {
            return None;
        }
        self.tasks.get(number - 1).copied()
    }

    fn set_task(&mut self, number: usize, doing: Doing) {
        if number > 0 && number <= self.tasks.len() {
            self.tasks[number - 1] = doing;
        }
    }

    /// Whether the task was started and hasn't ended.
    fn is_ready(&self, number: usize) -> bool {
        match self.task(number) {
            Some(doing) => doing.made < WAY.len(),
            None => false,
        }
    }

    /// The first ready task above a number.
    fn first_above(&self, above: usize) -> Option<usize> {
        for number in 1..3 {
            if number > above && self.is_ready(number) {
                return Some(number);
            }
        }
        None
    }

    /// The task whose turn is next: the first one above the task that had the last turn, or else the first of all.
    fn next(&self) -> Option<usize> {
        match self.first_above(self.last) {
            Some(number) => Some(number),
            None => self.first_above(0),
        }
    }

    /// Takes the next event.
    fn take_event(&mut self) {
        if let Some(event) = EVENTS.get(self.started) {
            self.shown.line(event);
            self.started = self.started.saturating_add(1);
            self.work = self.work.saturating_add(100);
        }
    }

    /// The task makes its next request, after so many ticks more.
    fn ask(&mut self, number: usize, doing: Doing, more: u32) {
        self.shown.line("a");
        self.shown.number(number as u64);
        self.shown
            .number(u64::from(doing.ticks.saturating_add(more)));
        self.shown.put(request(number, doing.made));
        self.work = self.work.saturating_add(more).saturating_add(100);
        self.set_task(
            number,
            Doing {
                made: doing.made.saturating_add(1),
                ticks: 0,
            },
        );
    }

    /// The task uses so many ticks, and comes to no request.
    fn use_ticks(&mut self, number: usize, doing: Doing, ticks: u32) {
        self.work = self.work.saturating_add(ticks);
        self.set_task(
            number,
            Doing {
                made: doing.made,
                ticks: doing.ticks.saturating_add(ticks),
            },
        );
    }

    /// The task makes its next request, or uses its ticks. What is left of its turn, where that goes on.
    fn go_on(&mut self, number: usize, left: u32) -> Option<u32> {
        let doing = self.task(number)?;
        let more = WAY.get(doing.made)?.saturating_sub(doing.ticks);
        let granted = left.min(self.rest().saturating_sub(100));
        if more > granted {
            self.use_ticks(number, doing, granted);
            return None;
        }
        self.ask(number, doing, more);
        let left = left.saturating_sub(more);
        let goes_on = self.is_ready(number) && left > 0 && self.rest() > 100;
        goes_on.then_some(left)
    }

    /// The turn of a task, which makes at most four requests.
    fn turn(&mut self, number: usize) {
        self.last = number;
        let mut left = self.slice;
        for _ in 0..4 {
            match self.go_on(number, left) {
                Some(rest) => left = rest,
                None => return,
            }
        }
    }

    /// One round, or how the run ends.
    fn round(&mut self) -> Option<Ending> {
        let next = self.next();
        let front = EVENTS.get(self.started).is_some();
        if !front && next.is_none() {
            return Some(Ending::Finished);
        }
        if self.rest() <= 100 {
            return Some(Ending::Spent);
        }
        // The first event comes while no task is ready, and the second is marked.
        match next {
            Some(number) if !front => self.turn(number),
            _ => self.take_event(),
        }
        None
    }

    /// Tells the ticks of a task since its last request, where it made some.
    fn tell_loose(&mut self, number: u32) {
        match self.task(number as usize) {
            Some(Doing { made: _, ticks }) if ticks > 0 => self.shown.loose(Loose {
                task: number,
                ticks,
            }),
            _ => {}
        }
    }

    /// Rounds until the run has ended, of which there are at most so many; and what is told of the run.
    fn run(mut self, rounds: u32) -> Shown {
        for _ in 0..rounds {
            if let Some(ending) = self.round() {
                self.tell_loose(1);
                self.tell_loose(2);
                self.shown.ending(ending);
                return self.shown;
            }
        }
        self.shown
    }
}

/// The request that a task makes at a place of its way.
fn request(number: usize, made: usize) -> &'static str {
    match REQUESTS.get(number.saturating_sub(1)) {
        Some(requests) => requests.get(made).copied().unwrap_or(""),
        None => "",
    }
}

/// The entries, the loose ticks and the ending of a run with this slice and this budget.
pub fn plain_run(slice: u32, budget: u32) -> Shown {
    Plain::new(slice, budget).run(100)
}

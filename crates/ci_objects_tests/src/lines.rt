//! Lines as a plain list, written for the test alone, and calls that are drawn.
use crate::crowd::Crowd;
use crate::plain::drawn;
use crate::told::letter;
use ci_base::Place;
use std::alloc::{AllocError, Global};
use std::process::Abort;
use std::test::Fail;

#[derive(Drop)]
struct Standing {
    task: u32,
    place: Place,
    due: Option<u64>,
}

// Those who wait, by arrival.
#[derive(Drop)]
struct PlainLines {
    standing: Vec<Standing>,
}

impl PlainLines {
    fn come(
        &mut self,
        place: Place,
        task: u32,
        due: Option<u64>,
    ) -> Result<Option<Place>, AllocError> {
        let left = self.leave(task);
        self.standing.push(Standing { task, place, due })?;
        Ok(left)
    }

    fn leave(&mut self, task: u32) -> Option<Place> {
        let at = self
            .standing
            .as_slice()
            .iter()
            .position(|one| one.task == task)?;
        Some(self.standing.remove(at).place)
    }

    fn take_first(&mut self, place: &Place) -> Option<u32> {
        let at = self
            .standing
            .as_slice()
            .iter()
            .position(|one| one.place == *place)?;
        Some(self.standing.remove(at).task)
    }

    // For each moment up to now the tasks are asked in their order.
    fn take_due(&mut self, now: u64) -> Option<(u32, Place)> {
        for moment in 0..=now {
            for task in 1..=TASKS {
                let found = self
                    .standing
                    .as_slice()
                    .iter()
                    .position(|one| one.task == task && one.due == Some(moment));
                if let Some(at) = found {
                    let one = self.standing.remove(at);
                    return Some((one.task, one.place));
                }
            }
        }
        None
    }
}

// Of so many tasks each waits at times.
const TASKS: u32 = 40;

fn place(rt: &impl Abort, draw: u64) -> Place {
    match draw % 5 {
        0 => Place::Semaphore(1),
        1 => Place::Semaphore(2),
        2 => Place::Queue(1),
        3 => Place::Section(letter(rt, b's')),
        _ => Place::Clock,
    }
}

// No limit, or one below 20.
fn due(draw: u64) -> Option<u64> {
    if draw % 25 < 20 {
        Some(draw % 25)
    } else {
        None
    }
}

// Whether the call that these numbers draw answers alike.
fn call_both(
    rt: &impl Abort,
    crowd: &mut Crowd,
    plain: &mut PlainLines,
    call: u64,
    draw: u64,
) -> Result<bool, Fail> {
    let task = (draw / 625 % 40) as u32 + 1;
    let place = place(rt, draw / 125);
    Ok(match call % 8 {
        0 => crowd.leave(task) == plain.leave(task),
        1 => crowd.take_first(&place) == plain.take_first(&place),
        2 => crowd.take_due(draw % 20) == plain.take_due(draw % 20),
        _ => crowd.come(place.copy(), task, due(draw)) == plain.come(place, task, due(draw))?,
    })
}

#[test]
fn ten_thousand_calls_find_who_a_plain_list_finds(rt: HostRuntime) -> Result<(), Fail> {
    let mut crowd = Crowd::new(rt.alloc())?;
    let mut plain = PlainLines {
        standing: Vec::new(rt.alloc()),
    };
    let mut seed = 1;
    for turn in 0..10_000 {
        let call = drawn(seed);
        seed = drawn(call);
        let alike = call_both(&rt, &mut crowd, &mut plain, call / 65_536, seed / 256)?;
        assert!(rt; alike, "at {turn}");
    }
    Ok(())
}

// A place of a row.
#[derive(Clone, Copy)]
enum Spot {
    Clock,
    Queue(i32),
}

impl Spot {
    fn place(self) -> Place {
        match self {
            Spot::Clock => Place::Clock,
            Spot::Queue(number) => Place::Queue(number),
        }
    }
}

// The task comes to a place, and waited nowhere.
fn comes(rt: &impl Abort, crowd: &mut Crowd, spot: Spot, task: u32, due: Option<u64>) {
    let left = crowd.come(spot.place(), task, due);
    assert!(rt; left.is_none(), "task {task}");
}

// The first of those whose limit has come is this one, if any.
fn takes(rt: &impl Abort, crowd: &mut Crowd, now: u64, want: Option<(u32, Spot)>) {
    let due = match want {
        Some((task, spot)) => Some((task, spot.place())),
        None => None,
    };
    let taken = crowd.take_due(now);
    assert!(rt; taken == due, "at {now}");
}

static COMING: [(Spot, u32, Option<u64>); 8] = [
    (Spot::Clock, 5, Some(1_000)),
    (Spot::Clock, 3, Some(1_000)),
    (Spot::Clock, 64, Some(1_000)),
    (Spot::Clock, 1, Some(1_000)),
    (Spot::Clock, 4, Some(1_000)),
    (Spot::Clock, 2, Some(1_000)),
    (Spot::Queue(1), 7, Some(999)),
    (Spot::Queue(1), 6, None),
];

static DUE: [(u64, Option<(u32, Spot)>); 9] = [
    (998, None),
    (1_000, Some((7, Spot::Queue(1)))),
    (1_000, Some((1, Spot::Clock))),
    (1_000, Some((2, Spot::Clock))),
    (1_000, Some((3, Spot::Clock))),
    (1_000, Some((4, Spot::Clock))),
    (1_000, Some((5, Spot::Clock))),
    (1_000, Some((64, Spot::Clock))),
    (u64::MAX, None),
];

#[test]
fn of_equal_limits_the_least_task_comes_first(rt: HostRuntime) -> Result<(), Fail> {
    let mut crowd = Crowd::new(rt.alloc())?;
    for (spot, task, due) in COMING.iter() {
        comes(&rt, &mut crowd, *spot, *task, *due);
    }
    for (now, want) in DUE.iter() {
        takes(&rt, &mut crowd, *now, *want);
    }
    assert_eq!(rt; crowd.leave(1), None);
    assert_eq!(rt; crowd.take_first(&Place::Queue(1)), Some(6));
    Ok(())
}

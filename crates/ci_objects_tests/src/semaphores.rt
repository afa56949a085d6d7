//! What semaphores answer. Where nobody waits, a call gets lines of its own.
ghost use Rattle.std.specs.Prelude.{◌≤ℤ◌, pos};

use crate::crowd::{Crowd, nobody};
use crate::making::Opening;
use crate::told::{Given, Heard, Told, letter, text};
use ci_base::{Answer, Text, Woken};
use ci_sems::Sems;
use std::alloc::Global;
use std::marker::Model;
use std::process::Abort;
use std::test::Fail;

// Semaphores, and the next number, which is above theirs.
#[derive(Drop)]
struct Making {
    sems: Sems,
    next: i32,
}

impl Model for Making {
    ghost use Rattle.std.specs.Prelude.{List};
    ghost use Rattle.ci_shared.specs.declared.object.Semaphore.{Semaphore};
    ghost use Rattle.ci_objects_tests.specs.Opening.{IsBelow, semaphore_number};

    ghost Value = { List Semaphore };

    ghost view = { λ making. making.sems };

    ghost invariant = { λ making. IsBelow semaphore_number making.next making.sems };
}

impl Making {
    // No semaphore is there; the first gets this number.
    fn new(alloc: Global, next: i32) -> Result<Making, Fail>
        requires { pos 1 ≤ℤ next }
    {
        match Sems::room(alloc) {
            Ok(sems) => Ok(Making { sems, next }),
            Err(_) => Err(Fail::from("no memory")),
        }
    }

    fn open(&mut self, name: &Text, mode: i32) -> Answer {
        self.sems.name(name, mode, &mut self.next)
    }

    // Each opening gets what its row tells.
    fn follow(&mut self, rt: &impl Abort, rows: &[Opening]) {
        for (at, (name, mode, told)) in rows.iter().enumerate() {
            Heard::answer(self.open(&text(rt, name), *mode)).is_told(rt, at, *told, &[]);
        }
    }

    fn next(&self) -> i32 {
        self.next
    }

    fn made(self) -> Sems {
        let Making { sems, next: _ } = self;
        sems
    }
}

// A call.
#[derive(Clone, Copy)]
enum Call {
    // The task asks for a unit of the semaphore at the moment 0, with a limit.
    Wait(u32, i32, i32),
    Signal(i32),
    Close(i32),
}

// A call where nobody waits, and what it gets.
type Alone = (Call, Told);

// A call where others may wait, what it gets, and who is answered.
type Row = (Call, Told, &'static [Given]);

// A call is made.
fn play(crowd: &mut Crowd, sems: &mut Sems, call: Call) -> Heard {
    match call {
        Call::Wait(task, number, limit) => Heard::reply(crowd.wait(sems, task, number, limit)),
        Call::Signal(number) => Heard::both(crowd.signal(sems, number)),
        Call::Close(number) => Heard::both(crowd.end_semaphore(sems, number)),
    }
}

// Each call gets what its row tells, where nobody waits.
fn follow_alone(
    rt: &impl Abort,
    alloc: Global,
    sems: &mut Sems,
    rows: &[Alone],
) -> Result<(), Fail> {
    for (at, (call, told)) in rows.iter().enumerate() {
        let mut crowd = Crowd::new(alloc)?;
        play(&mut crowd, sems, *call).is_told(rt, at, *told, &[]);
    }
    Ok(())
}

// Each call gets what its row tells. First nobody waits.
fn follow(rt: &impl Abort, alloc: Global, sems: &mut Sems, rows: &[Row]) -> Result<(), Fail> {
    let mut crowd = Crowd::new(alloc)?;
    for (at, (call, told, given)) in rows.iter().enumerate() {
        play(&mut crowd, sems, *call).is_told(rt, at, *told, *given);
    }
    Ok(())
}

static OPENINGS: [Opening; 9] = [
    ("", 3, Told::Refused(10)),
    ("", 1, Told::Refused(10)),
    ("s", -1, Told::Refused(10)),
    ("s", 0, Told::Refused(5)),
    ("s", 1, Told::Numbered(1)),
    ("s", 3, Told::Refused(10)),
    ("s", 1, Told::Refused(4)),
    ("s", 0, Told::Numbered(1)),
    ("s", 2, Told::Numbered(1)),
];

static CALLS: [Alone; 12] = [
    (Call::Wait(1, 2, -2), Told::Coded(1)),
    (Call::Wait(1, 1, -2), Told::Coded(10)),
    (Call::Wait(1, 1, 0), Told::Coded(0)),
    (Call::Wait(1, 1, -2), Told::Coded(10)),
    (Call::Wait(1, 1, 0), Told::Coded(2)),
    (Call::Wait(1, 1, -1), Told::Waits),
    (Call::Wait(1, 1, 5), Told::Waits),
    (Call::Signal(2), Told::Coded(1)),
    (Call::Signal(1), Told::Coded(0)),
    (Call::Close(2), Told::Coded(1)),
    (Call::Close(1), Told::Coded(0)),
    (Call::Close(1), Told::Coded(1)),
];

#[test]
fn each_answer_comes_in_its_turn(rt: HostRuntime) -> Result<(), Fail> {
    let mut making = Making::new(rt.alloc(), 1)?;
    making.follow(&rt, &OPENINGS);
    follow_alone(&rt, rt.alloc(), &mut making.made(), &CALLS)
}

static ONE: [Opening; 1] = [("s", 2, Told::Numbered(1))];

static SERVED: [Row; 6] = [
    (Call::Wait(1, 1, -1), Told::Coded(0), &[]),
    (Call::Wait(2, 1, -1), Told::Waits, &[]),
    (Call::Wait(3, 1, -1), Told::Waits, &[]),
    (Call::Signal(1), Told::Coded(0), &[(2, Told::Coded(0))]),
    (Call::Wait(4, 1, 0), Told::Coded(2), &[]),
    (Call::Close(1), Told::Coded(0), &[(3, Told::Coded(1))]),
];

#[test]
fn a_semaphore_serves_who_came_first(rt: HostRuntime) -> Result<(), Fail> {
    let mut making = Making::new(rt.alloc(), 1)?;
    making.follow(&rt, &ONE);
    assert_eq!(rt; making.next(), 2);
    follow(&rt, rt.alloc(), &mut making.made(), &SERVED)
}

// Each byte is the name of a semaphore: the semaphores get the numbers from 1.
fn name_all(rt: &impl Abort, making: &mut Making) {
    for byte in 0..=255 {
        let told = Told::Numbered(i32::from(byte) + 1);
        Heard::answer(making.open(&letter(rt, byte), 2)).is_told(rt, usize::from(byte), told, &[]);
    }
}

static FULL: [Opening; 2] = [("ab", 2, Told::Refused(11)), ("ab", 0, Told::Refused(5))];

// A unit is given where nobody waits.
fn signal(alloc: Global, sems: &mut Sems, number: i32) -> Result<Answer, Fail> {
    let mut lines = nobody(alloc)?;
    let mut woken = Woken::empty();
    Ok(sems.signal(&mut lines, number, &mut woken))
}

// So many units are given to the semaphore, one after another.
fn signal_all(
    rt: &impl Abort,
    alloc: Global,
    sems: &mut Sems,
    number: i32,
    many: usize,
) -> Result<(), Fail> {
    for unit in 0..many {
        let answer = signal(alloc, sems, number)?;
        Heard::answer(answer).is_told(rt, unit, Told::Coded(0), &[]);
    }
    Ok(())
}

static MOST: [Alone; 3] = [
    (Call::Signal(256), Told::Coded(11)),
    (Call::Wait(1, 256, 0), Told::Coded(0)),
    (Call::Signal(256), Told::Coded(0)),
];

#[test]
fn each_limit_holds_and_one_more_is_refused(rt: HostRuntime) -> Result<(), Fail> {
    let mut making = Making::new(rt.alloc(), 1)?;
    name_all(&rt, &mut making);
    making.follow(&rt, &FULL);
    let mut sems = making.made();
    signal_all(&rt, rt.alloc(), &mut sems, 256, 65_534)?;
    follow_alone(&rt, rt.alloc(), &mut sems, &MOST)
}

static LAST: [Opening; 4] = [
    ("a", 1, Told::Numbered(2_147_483_646)),
    ("ab", 2, Told::Refused(11)),
    ("ab", 0, Told::Refused(5)),
    ("a", 2, Told::Numbered(2_147_483_646)),
];

#[test]
fn no_semaphore_gets_the_number_2147483647(rt: HostRuntime) -> Result<(), Fail> {
    let mut making = Making::new(rt.alloc(), 2_147_483_646)?;
    making.follow(&rt, &LAST);
    Ok(())
}

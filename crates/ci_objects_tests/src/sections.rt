//! What critical sections answer. Where nobody waits, a call gets lines of its own.
use crate::crowd::Crowd;
use crate::told::{Given, Got, Heard, Told, letter, text};
use ci_base::Text;
use ci_sections::Sections;
use std::alloc::Global;
use std::process::Abort;
use std::test::Fail;

// A call.
#[derive(Clone, Copy)]
enum Call {
    Enter(u32, &'static str),
    Depart(u32, &'static str),
    // The task leaves all its sections.
    DepartAll(u32),
    Owner(&'static str),
    // The task leaves the line in which it waits.
    Leave(u32),
}

// A call where nobody waits, and what it gets.
type Alone = (Call, Told);

// A call where others may wait, what it gets, and who is answered.
type Row = (Call, Told, &'static [Given]);

// No section is owned.
fn none(alloc: Global) -> Result<Sections, Fail> {
    match Sections::room(alloc) {
        Ok(sections) => Ok(sections),
        Err(_) => Err(Fail::from("no memory")),
    }
}

// A call is made.
fn play(rt: &impl Abort, crowd: &mut Crowd, sections: &mut Sections, call: Call) -> Heard {
    match call {
        Call::Enter(task, name) => Heard::reply(crowd.enter(sections, task, &text(rt, name))),
        Call::Depart(task, name) => Heard::both(crowd.depart(sections, task, &text(rt, name))),
        Call::DepartAll(task) => Heard::others(crowd.depart_all(sections, task)),
        Call::Owner(name) => Heard::only(Got::Owner(sections.owner(&text(rt, name)))),
        Call::Leave(task) => Heard::only(Got::Left(crowd.leave(task))),
    }
}

// Each call gets what its row tells, where nobody waits.
fn follow_alone(
    rt: &impl Abort,
    alloc: Global,
    sections: &mut Sections,
    rows: &[Alone],
) -> Result<(), Fail> {
    for (at, (call, told)) in rows.iter().enumerate() {
        let mut crowd = Crowd::new(alloc)?;
        play(rt, &mut crowd, sections, *call).is_told(rt, at, *told, &[]);
    }
    Ok(())
}

// Each call gets what its row tells. First nobody waits.
fn follow(
    rt: &impl Abort,
    alloc: Global,
    sections: &mut Sections,
    rows: &[Row],
) -> Result<(), Fail> {
    let mut crowd = Crowd::new(alloc)?;
    for (at, (call, told, given)) in rows.iter().enumerate() {
        play(rt, &mut crowd, sections, *call).is_told(rt, at, *told, *given);
    }
    Ok(())
}

static GIVEN_ON: [Row; 11] = [
    (Call::Owner("s"), Told::Nobody, &[]),
    (Call::Enter(1, "s"), Told::Coded(0), &[]),
    (Call::Enter(1, "s"), Told::Coded(0), &[]),
    (Call::Enter(2, "s"), Told::Waits, &[]),
    (Call::Enter(3, "s"), Told::Waits, &[]),
    (Call::Depart(2, "s"), Told::Coded(6), &[]),
    (Call::Depart(1, "s"), Told::Coded(0), &[]),
    (Call::Owner("s"), Told::Owner(1), &[]),
    (Call::Depart(1, "s"), Told::Coded(0), &[(2, Told::Coded(0))]),
    (Call::Owner("s"), Told::Owner(2), &[]),
    (Call::Leave(2), Told::Nowhere, &[]),
];

static LEFT: [Alone; 4] = [
    (Call::Depart(1, "s"), Told::Coded(6)),
    (Call::Depart(2, "s"), Told::Coded(0)),
    (Call::Owner("s"), Told::Nobody),
    (Call::Depart(2, "s"), Told::Coded(6)),
];

#[test]
fn the_last_leave_gives_a_section_to_the_first_in_line(rt: HostRuntime) -> Result<(), Fail> {
    let mut sections = none(rt.alloc())?;
    follow(&rt, rt.alloc(), &mut sections, &GIVEN_ON)?;
    follow_alone(&rt, rt.alloc(), &mut sections, &LEFT)
}

static BY_NAMES: [Row; 10] = [
    (Call::Enter(1, "ab"), Told::Coded(0), &[]),
    (Call::Enter(1, "a"), Told::Coded(0), &[]),
    (Call::Enter(9, "b"), Told::Coded(0), &[]),
    (Call::Enter(2, "ab"), Told::Waits, &[]),
    (Call::Enter(3, "a"), Told::Waits, &[]),
    (Call::Enter(4, "b"), Told::Waits, &[]),
    (
        Call::DepartAll(1),
        Told::Done,
        &[(3, Told::Coded(0)), (2, Told::Coded(0))],
    ),
    (Call::Owner("a"), Told::Owner(3), &[]),
    (Call::Owner("ab"), Told::Owner(2), &[]),
    (Call::Owner("b"), Told::Owner(9), &[]),
];

#[test]
fn all_sections_of_a_task_are_given_on_by_their_names(rt: HostRuntime) -> Result<(), Fail> {
    let mut sections = none(rt.alloc())?;
    follow(&rt, rt.alloc(), &mut sections, &BY_NAMES)
}

// Task 1 enters the section where nobody waits.
fn enters(
    rt: &impl Abort,
    alloc: Global,
    sections: &mut Sections,
    at: usize,
    name: &Text,
) -> Result<(), Fail> {
    let mut crowd = Crowd::new(alloc)?;
    let reply = crowd.enter(sections, 1, name);
    Heard::reply(reply).is_told(rt, at, Told::Coded(0), &[]);
    Ok(())
}

// Task 1 enters a section for each byte.
fn enter_all(rt: &impl Abort, alloc: Global, sections: &mut Sections) -> Result<(), Fail> {
    for byte in 0..=255 {
        enters(rt, alloc, sections, usize::from(byte), &letter(rt, byte))?;
    }
    Ok(())
}

static NO_NAME: [Alone; 1] = [(Call::Enter(1, ""), Told::Coded(10))];

static FULL: [Alone; 3] = [
    (Call::Enter(1, "\x07\x07"), Told::Coded(11)),
    (Call::Enter(2, "\x07"), Told::Waits),
    (Call::Enter(1, "\x07"), Told::Coded(0)),
];

#[test]
fn at_most_256_sections_are_owned(rt: HostRuntime) -> Result<(), Fail> {
    let mut sections = none(rt.alloc())?;
    follow_alone(&rt, rt.alloc(), &mut sections, &NO_NAME)?;
    enter_all(&rt, rt.alloc(), &mut sections)?;
    follow_alone(&rt, rt.alloc(), &mut sections, &FULL)
}

static ONCE_MORE: [Alone; 3] = [
    (Call::Enter(1, "s"), Told::Coded(11)),
    (Call::Depart(1, "s"), Told::Coded(0)),
    (Call::Enter(1, "s"), Told::Coded(0)),
];

#[test]
fn a_section_is_entered_at_most_65535_times(rt: HostRuntime) -> Result<(), Fail> {
    let mut sections = none(rt.alloc())?;
    let name = letter(&rt, b's');
    for time in 0..65_535 {
        enters(&rt, rt.alloc(), &mut sections, time, &name)?;
    }
    follow_alone(&rt, rt.alloc(), &mut sections, &ONCE_MORE)
}

//! What queues answer. Where nobody waits, a call gets lines of its own.
use crate::crowd::{Crowd, nobody};
use crate::making::{Making, Opening};
use crate::plain::{Plain, drawn};
use crate::told::{Given, Got, Heard, Told, letter, text};
use ci_base::{Answer, Reply, Text, Woken};
use ci_queues::Queues;
use std::alloc::Global;
use std::process::Abort;
use std::test::Fail;

// A call.
#[derive(Clone, Copy)]
enum Call {
    // An element is written into the queue.
    Write(i32, i32, &'static str),
    // The task reads from the queue, in a mode.
    Read(u32, i32, i32),
    Length(i32),
    Close(i32),
    // The task leaves the line in which it waits.
    Leave(u32),
}

// A call where nobody waits, and what it gets.
type Alone = (Call, Told);

// A call where others may wait, what it gets, and who is answered.
type Row = (Call, Told, &'static [Given]);

// A call is made.
fn play(rt: &impl Abort, crowd: &mut Crowd, queues: &mut Queues, call: Call) -> Heard {
    match call {
        Call::Write(number, sort, bytes) => {
            Heard::both(crowd.write(queues, number, sort, &text(rt, bytes)))
        }
        Call::Read(task, number, mode) => Heard::reply(crowd.read(queues, task, number, mode)),
        Call::Length(number) => Heard::answer(queues.length(number)),
        Call::Close(number) => Heard::both(crowd.end_queue(queues, number)),
        Call::Leave(task) => Heard::only(Got::Left(crowd.leave(task))),
    }
}

// Each call gets what its row tells, where nobody waits.
fn follow_alone(
    rt: &impl Abort,
    alloc: Global,
    queues: &mut Queues,
    rows: &[Alone],
) -> Result<(), Fail> {
    for (at, (call, told)) in rows.iter().enumerate() {
        let mut crowd = Crowd::new(alloc)?;
        play(rt, &mut crowd, queues, *call).is_told(rt, at, *told, &[]);
    }
    Ok(())
}

// Each call gets what its row tells. First nobody waits.
fn follow(rt: &impl Abort, alloc: Global, queues: &mut Queues, rows: &[Row]) -> Result<(), Fail> {
    let mut crowd = Crowd::new(alloc)?;
    for (at, (call, told, given)) in rows.iter().enumerate() {
        play(rt, &mut crowd, queues, *call).is_told(rt, at, *told, *given);
    }
    Ok(())
}

static ONE: [Opening; 1] = [("q", 2, Told::Numbered(1))];

static SERVED: [Row; 5] = [
    (Call::Read(1, 1, 1), Told::Waits, &[]),
    (Call::Read(2, 1, 1), Told::Waits, &[]),
    (Call::Read(3, 1, 1), Told::Waits, &[]),
    (
        Call::Write(1, -7, "q"),
        Told::Coded(0),
        &[(1, Told::Element(-7, "q"))],
    ),
    (Call::Length(1), Told::Numbered(0), &[]),
];

#[test]
fn readers_are_served_and_turned_away_in_their_order(rt: HostRuntime) -> Result<(), Fail> {
    let mut making = Making::new(rt.alloc(), 1)?;
    making.follow(&rt, &ONE);
    follow(&rt, rt.alloc(), &mut making.made(), &SERVED)
}

static CLOSING: [Row; 6] = [
    (Call::Read(1, 1, 1), Told::Waits, &[]),
    (Call::Read(2, 1, 1), Told::Waits, &[]),
    (
        Call::Close(1),
        Told::Coded(0),
        &[(1, Told::Coded(1)), (2, Told::Coded(1))],
    ),
    (Call::Length(1), Told::Refused(1), &[]),
    (Call::Leave(1), Told::Nowhere, &[]),
    (Call::Leave(2), Told::Nowhere, &[]),
];

#[test]
fn a_closing_answers_the_readers_in_their_order(rt: HostRuntime) -> Result<(), Fail> {
    let mut making = Making::new(rt.alloc(), 1)?;
    making.follow(&rt, &ONE);
    follow(&rt, rt.alloc(), &mut making.made(), &CLOSING)
}

static OPENINGS: [Opening; 9] = [
    ("", 3, Told::Refused(10)),
    ("", 1, Told::Refused(10)),
    ("q", 3, Told::Refused(10)),
    ("q", -1, Told::Refused(10)),
    ("q", 0, Told::Refused(5)),
    ("q", 1, Told::Numbered(1)),
    ("q", 1, Told::Refused(4)),
    ("q", 0, Told::Numbered(1)),
    ("q", 2, Told::Numbered(1)),
];

// No queue gets the number 2147483647.
static LAST: [Opening; 1] = [("q", 2, Told::Refused(11))];

static CALLS: [Alone; 15] = [
    (Call::Write(2, 5, "q"), Told::Coded(1)),
    (Call::Read(1, 2, 7), Told::Coded(1)),
    (Call::Read(1, 1, 2), Told::Coded(10)),
    (Call::Read(1, 1, 0), Told::Coded(3)),
    (Call::Read(1, 1, 1), Told::Waits),
    (Call::Write(1, 5, "q"), Told::Coded(0)),
    (Call::Write(1, 6, ""), Told::Coded(0)),
    (Call::Length(1), Told::Numbered(2)),
    (Call::Read(1, 1, 2), Told::Coded(10)),
    (Call::Read(1, 1, 0), Told::Element(5, "q")),
    (Call::Read(1, 1, 1), Told::Element(6, "")),
    (Call::Length(2), Told::Refused(1)),
    (Call::Close(2), Told::Coded(1)),
    (Call::Close(1), Told::Coded(0)),
    (Call::Close(1), Told::Coded(1)),
];

#[test]
fn each_answer_comes_in_its_turn(rt: HostRuntime) -> Result<(), Fail> {
    let mut others = Making::new(rt.alloc(), i32::MAX)?;
    others.follow(&rt, &LAST);
    let mut making = Making::new(rt.alloc(), 1)?;
    making.follow(&rt, &OPENINGS);
    assert_eq!(rt; making.next(), 2);
    follow_alone(&rt, rt.alloc(), &mut making.made(), &CALLS)
}

// Each byte is the name of a queue: the queues get the numbers from 1.
fn name_all(rt: &impl Abort, making: &mut Making) {
    for byte in 0..=255 {
        let told = Told::Numbered(i32::from(byte) + 1);
        Heard::answer(making.open(&letter(rt, byte), 1)).is_told(rt, usize::from(byte), told, &[]);
    }
}

static FULL: [Opening; 3] = [
    ("\x07\x07", 2, Told::Refused(11)),
    ("\x07\x07", 0, Told::Refused(5)),
    ("\x07", 2, Told::Numbered(8)),
];

#[test]
fn there_are_at_most_256_queues(rt: HostRuntime) -> Result<(), Fail> {
    let mut making = Making::new(rt.alloc(), 1)?;
    name_all(&rt, &mut making);
    making.follow(&rt, &FULL);
    assert_eq!(rt; making.next(), 257);
    Ok(())
}

static TWO: [Opening; 2] = [("1", 1, Told::Numbered(1)), ("2", 1, Told::Numbered(2))];

// So many elements are written, into the queues 1 and 2 in turn.
fn write_all(rt: &impl Abort, alloc: Global, queues: &mut Queues, many: u16) -> Result<(), Fail> {
    let one = letter(rt, b'1');
    for at in 0..many {
        let sort = i32::from(at);
        let answer = write(alloc, queues, 1 + sort % 2, sort, &one)?;
        Heard::answer(answer).is_told(rt, usize::from(at), Told::Coded(0), &[]);
    }
    Ok(())
}

static MANY: [Alone; 7] = [
    (Call::Write(1, 0, "1"), Told::Coded(11)),
    (Call::Write(3, 0, "1"), Told::Coded(1)),
    (Call::Length(1), Told::Numbered(2048)),
    (Call::Length(2), Told::Numbered(2048)),
    (Call::Close(1), Told::Coded(0)),
    (Call::Write(2, 0, "1"), Told::Coded(0)),
    (Call::Length(2), Told::Numbered(2049)),
];

#[test]
fn all_queues_have_at_most_4096_elements(rt: HostRuntime) -> Result<(), Fail> {
    let mut making = Making::new(rt.alloc(), 1)?;
    making.follow(&rt, &TWO);
    let mut queues = making.made();
    write_all(&rt, rt.alloc(), &mut queues, 4096)?;
    follow_alone(&rt, rt.alloc(), &mut queues, &MANY)
}

// An element is written where nobody waits.
fn write(
    alloc: Global,
    queues: &mut Queues,
    number: i32,
    sort: i32,
    text: &Text,
) -> Result<Answer, Fail> {
    let mut lines = nobody(alloc)?;
    let mut woken = Woken::empty();
    Ok(queues.write(&mut lines, number, sort, text, &mut woken))
}

// A task reads where nobody waits.
fn read(alloc: Global, queues: &mut Queues, number: i32, mode: i32) -> Result<Reply, Fail> {
    let mut lines = nobody(alloc)?;
    Ok(queues.read(&mut lines, 1, number, mode))
}

// A queue is closed where nobody waits.
fn shut(alloc: Global, queues: &mut Queues, number: i32) -> Result<Answer, Fail> {
    let mut lines = nobody(alloc)?;
    let mut woken = Woken::empty();
    Ok(queues.shut(&mut lines, number, &mut woken))
}

// 40 queues, with the numbers from 1.
fn forty(rt: &impl Abort, alloc: Global) -> Result<Queues, Fail> {
    let mut making = Making::new(alloc, 1)?;
    for byte in 1..=40 {
        let _answer = making.open(&letter(rt, byte), 1);
    }
    Ok(making.made())
}

// Whether an element is written alike.
fn write_both(
    rt: &impl Abort,
    alloc: Global,
    queues: &mut Queues,
    plain: &mut Plain,
    number: i32,
    turn: u32,
) -> Result<bool, Fail> {
    let text = letter(rt, (turn % 256) as u8);
    let sort = (turn % 10_000) as i32 - 5_000;
    let answer = write(alloc, queues, number, sort, &text)?;
    Ok(answer == plain.write(number, sort, text)?)
}

// Whether an element is read alike.
fn read_both(
    alloc: Global,
    queues: &mut Queues,
    plain: &mut Plain,
    number: i32,
    mode: i32,
) -> Result<bool, Fail> {
    let reply = read(alloc, queues, number, mode)?;
    Ok(reply == plain.read(number, mode))
}

// Whether a queue is closed alike.
fn shut_both(
    alloc: Global,
    queues: &mut Queues,
    plain: &mut Plain,
    number: i32,
) -> Result<bool, Fail> {
    let answer = shut(alloc, queues, number)?;
    Ok(answer == plain.shut(number)?)
}

// Whether the call that these numbers draw answers alike.
fn call_both(
    rt: &impl Abort,
    alloc: Global,
    queues: &mut Queues,
    plain: &mut Plain,
    seed: u64,
    turn: u32,
) -> Result<bool, Fail> {
    let number = (seed / 65_536 % 41) as i32 + 1;
    let call = drawn(seed) / 65_536 % 400;
    if call < 220 {
        write_both(rt, alloc, queues, plain, number, turn)
    } else if call < 320 {
        read_both(alloc, queues, plain, number, (call % 3) as i32)
    } else if call < 399 {
        Ok(queues.length(number) == plain.length(number))
    } else {
        shut_both(alloc, queues, plain, number)
    }
}

static FORTIETH: [Alone; 1] = [(Call::Length(40), Told::Numbered(0))];

#[test]
fn ten_thousand_calls_answer_as_a_plain_list_says(rt: HostRuntime) -> Result<(), Fail> {
    let mut queues = forty(&rt, rt.alloc())?;
    let mut plain = Plain::new(rt.alloc());
    plain.shut(41)?;
    follow_alone(&rt, rt.alloc(), &mut queues, &FORTIETH)?;
    let mut seed = 1;
    for turn in 0..10_000 {
        seed = drawn(drawn(seed));
        let alike = call_both(&rt, rt.alloc(), &mut queues, &mut plain, seed, turn)?;
        assert!(rt; alike, "at {turn}");
    }
    Ok(())
}

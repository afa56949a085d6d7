//! Programs of the greatest sizes: none is refused, and tree and code agree on their tasks.
use crate::arguments::Given;
use crate::programs::program_of;
use crate::shown::Shown;
use crate::sides::{MAIN, Start, asked};
use ci_base::{Bytes, OutOfMemory};
use ci_program::Program;
use itoa::Buffer;
use std::alloc::Global;
use std::process::Abort;
use std::test::Fail;

/// A part of a file.
#[derive(Clone, Copy)]
enum Part {
    /// The text.
    Text(&'static str),
    /// The text so many times.
    Times(u32, &'static str),
    /// So many times the number of the turn, from 0, between these texts.
    Counted(u32, &'static str, &'static str),
    /// The number of the file, from 0.
    File,
}

/// So many files of these parts, how a task starts, the number of functions with the room of the task's function, and the requests.
type Limit = (u32, &'static [Part], Start, &'static str, &'static str);

fn put(file: &mut Bytes, text: &str) -> Result<(), OutOfMemory> {
    file.append(text.as_bytes())
}

fn put_number(file: &mut Bytes, n: u32) -> Result<(), OutOfMemory> {
    let mut buffer = Buffer::new();
    put(file, buffer.format(n))
}

fn put_times(file: &mut Bytes, times: u32, text: &str) -> Result<(), OutOfMemory> {
    for _ in 0..times {
        put(file, text)?;
    }
    Ok(())
}

fn put_counted(file: &mut Bytes, times: u32, front: &str, back: &str) -> Result<(), OutOfMemory> {
    for n in 0..times {
        put(file, front)?;
        put_number(file, n)?;
        put(file, back)?;
    }
    Ok(())
}

fn put_part(file: &mut Bytes, part: Part, number: u32) -> Result<(), OutOfMemory> {
    match part {
        Part::Text(text) => put(file, text),
        Part::Times(times, text) => put_times(file, times, text),
        Part::Counted(times, front, back) => put_counted(file, times, front, back),
        Part::File => put_number(file, number),
    }
}

/// The file of these parts and this number.
fn file_of(alloc: Global, parts: &[Part], number: u32) -> Option<Bytes> {
    let mut file = Bytes::empty(alloc);
    for part in parts {
        if put_part(&mut file, *part, number).is_err() {
            return None;
        }
    }
    Some(file)
}

/// So many files of these parts.
fn files_of(alloc: Global, count: u32, parts: &[Part]) -> Option<Vec<Bytes>> {
    let mut files = Vec::new(alloc);
    for number in 0..count {
        let Some(file) = file_of(alloc, parts, number) else {
            return None;
        };
        if files.push(file).is_err() {
            return None;
        }
    }
    Some(files)
}

/// The program of so many files of these parts.
fn made(alloc: Global, count: u32, parts: &[Part]) -> Option<Program> {
    match files_of(alloc, count, parts) {
        Some(files) => program_of(alloc, &files),
        None => None,
    }
}

/// How many functions the program has, and the room of this one.
fn size_of(program: &Option<Program>, function: u32) -> Shown {
    match program {
        Some(program) => size(program, function),
        None => Shown::of("no program"),
    }
}

fn size(program: &Program, function: u32) -> Shown {
    let functions = program.code().parts().functions.members();
    let mut shown = Shown::new();
    shown.put("functions ");
    shown.length(functions.len());
    if let Some(found) = functions.get(function as usize) {
        shown.put(" room ");
        shown.count(i64::from(found.room));
    }
    shown
}

/// Asserts that a program is made, of this size, and that its tasks on the tree and in code make these requests.
fn reach(rt: &impl Abort, alloc: Global, limits: &[Limit]) -> Result<(), Fail> {
    for (count, parts, start, size, want) in limits {
        let program = made(alloc, *count, parts);
        let shown = asked(alloc, &program, &program, *start, &[]);
        assert_eq!(rt; size_of(&program, start.0).as_str(), *size, "of {want}");
        assert_eq!(rt; shown.as_str(), *want, "at {size}");
    }
    Ok(())
}

static NUMBERS: [Limit; 6] = [
    // Functions.
    (
        1,
        &[Part::Counted(1_000, "FUNCTION F", "() END ")],
        (999, &[]),
        "functions 1000 room 1",
        "1 end 0",
    ),
    // Files.
    (
        64,
        &[
            Part::Text("FUNCTION F"),
            Part::File,
            Part::Text("() TraceMsg(\"in "),
            Part::File,
            Part::Text("\"); END"),
        ],
        (63, &[]),
        "functions 64 room 1",
        "2 trace \"in 63\", 0 end 0",
    ),
    // Locals: 64 of them, and one operand.
    (
        1,
        &[
            Part::Text("FUNCTION Main() "),
            Part::Counted(64, "INT l", "; "),
            Part::Text("l63 = 5; TraceMsg(IntToStr(l63)); END"),
        ],
        MAIN,
        "functions 1 room 65",
        "3 trace \"5\", 0 end 0",
    ),
    // Parameters: 16 of them, and two operands.
    (
        1,
        &[
            Part::Text("FUNCTION F("),
            Part::Counted(15, "INT p", ", "),
            Part::Text("STRING s) TraceMsg(IntToStr(p14) + s); END"),
        ],
        (
            0,
            &[
                Given::Int(0),
                Given::Int(1),
                Given::Int(2),
                Given::Int(3),
                Given::Int(4),
                Given::Int(5),
                Given::Int(6),
                Given::Int(7),
                Given::Int(8),
                Given::Int(9),
                Given::Int(10),
                Given::Int(11),
                Given::Int(12),
                Given::Int(13),
                Given::Int(14),
                Given::Str("s"),
            ],
        ),
        "functions 1 room 18",
        "2 trace \"14s\", 0 end 0",
    ),
    // Cells.
    (
        1,
        &[Part::Text("INT a[100000]; FUNCTION Main() a[99999] = 1; END")],
        MAIN,
        "functions 1 room 2",
        "2 write 99999 1, 0 end 0",
    ),
    // Bytes of a text, and hashes.
    (
        1,
        &[
            Part::Text("FUNCTION Main() TraceMsg(IntToStr(StrLength(\""),
            Part::Times(255, "x"),
            Part::Text("\")) + IntToStr(StrLength(1:"),
            Part::Times(255, "#"),
            Part::Text("))); END"),
        ],
        MAIN,
        "functions 1 room 2",
        "2 trace \"255255\", 0 end 0",
    ),
];

#[test]
fn the_greatest_numbers_are_generated(rt: HostRuntime) -> Result<(), Fail> {
    reach(&rt, rt.alloc(), &NUMBERS)
}

static LEVELS: [Limit; 2] = [
    // Eight times four statements, of which each FOR keeps its bound: two locals, eight bounds, and the three that the innermost
    // SELECT takes besides.
    (
        1,
        &[
            Part::Text("FUNCTION Main() INT i; INT x; "),
            Part::Times(
                8,
                "IF 1 THEN WHILE x = 0 DO FOR i = 1 TO 1 DO SELECT CASE x CASE 0 ",
            ),
            Part::Text("x = 1; "),
            Part::Times(8, "END SELECT END END END "),
            Part::Text("TraceMsg(IntToStr(x + i)); END"),
        ],
        MAIN,
        "functions 1 room 13",
        "67 trace \"10\", 0 end 0",
    ),
    // A local, and the 33 numbers that are added from the right.
    (
        1,
        &[
            Part::Text("FUNCTION Main() INT x; x = 1"),
            Part::Times(32, " + (1"),
            Part::Times(32, ")"),
            Part::Text("; TraceMsg(IntToStr(x)); END"),
        ],
        MAIN,
        "functions 1 room 34",
        "3 trace \"33\", 0 end 0",
    ),
];

#[test]
fn thirty_two_levels_are_generated(rt: HostRuntime) -> Result<(), Fail> {
    reach(&rt, rt.alloc(), &LEVELS)
}

static ROOMS: [Limit; 1] = [
    // The widest room: 64 locals; an index; in each of 32 levels 15 arguments, and a left operand of each of 7 operators; and 8
    // operands in the innermost. Five such rooms fit, and six don't.
    (
        1,
        &[
            Part::Text("INT a[3]; FUNCTION Main() "),
            Part::Counted(64, "INT l", "; "),
            Part::Text("a[2] = "),
            Part::Times(
                32,
                "1 BITOR 1 OR 1 AND 1 = 1 < 1 + 1 * F(1, 1, 1, 1, 1, 1, 1, 1, 1, 1, 1, 1, 1, 1, 1, ",
            ),
            Part::Text("1 BITOR 1 OR 1 AND 1 = 1 < 1 + 1 * 1"),
            Part::Times(32, ")"),
            Part::Text("; Main(); END INT FUNCTION F("),
            Part::Counted(15, "INT p", ", "),
            Part::Text("INT p15) RETURN p15; END"),
        ],
        MAIN,
        "functions 2 room 777",
        "66 write 2 1, 67 write 2 1, 67 write 2 1, 67 write 2 1, 67 write 2 1, 1 end 12",
    ),
];

#[test]
fn the_widest_rooms_are_generated_and_pass_4096_together(rt: HostRuntime) -> Result<(), Fail> {
    reach(&rt, rt.alloc(), &ROOMS)
}

//! The rows.
use crate::rows::{Want, compare, refused};
use ci_script::ScriptFault;
use std::test::Fail;

/// Each form of a line, with letter case, blanks, numbers and texts.
#[test]
fn each_form_of_a_line(rt: HostRuntime) -> Result<(), Fail> {
    let alloc = rt.alloc();
    let rows: [(&str, Want); 22] = [
        ("run Main()", Want::Run("Main", "")),
        (
            " \tRUN\tMain \t (1, \"a)b\" ) \t",
            Want::Run("Main", "1, \"a)b\" "),
        ),
        ("run if(()", Want::Run("if", "(")),
        ("tick 0", Want::Tick(0)),
        ("Tick -0", Want::Tick(0)),
        ("tick 0x7fffFFFF", Want::Tick(2147483647)),
        ("kill -1", Want::Kill(-1)),
        ("kill 0xffffffff", Want::Kill(-1)),
        ("suspend 007", Want::Suspend(7)),
        ("resume -2147483648", Want::Resume(-2147483648)),
        ("set g=5", Want::SetInt("g", 5)),
        ("set g = 2147483647", Want::SetInt("g", 2147483647)),
        ("SET while\t= \"a = b\"", Want::SetText("while", "a = b")),
        ("set _9 =\"\"", Want::SetText("_9", "")),
        ("signal \"s\"", Want::Signal("s")),
        ("sIgNaL \"a b^n^^^\"^'^0x41\"", Want::Signal("a b\n^\"'A")),
        ("put \"q\" 1 \"x\"", Want::Put("q", 1, "x")),
        (
            "put  \"\"\t-3 \t\"! not a comment\"",
            Want::Put("", -3, "! not a comment"),
        ),
        ("run  A_1(\t)", Want::Run("A_1", "\t")),
        ("run SOON()", Want::Run("SOON", "")),
        ("tick 0x0", Want::Tick(0)),
        ("kill 4", Want::Kill(4)),
    ];
    for (line, want) in rows {
        compare(&rt, alloc, line.as_bytes(), false, &[want])?;
    }
    compare(&rt, alloc, b"SOON Kill -1", true, &[Want::Kill(-1)])
}

/// Blank lines, comments, CR before LF, and a last line with or without LF.
#[test]
fn lines_of_a_script(rt: HostRuntime) -> Result<(), Fail> {
    let alloc = rt.alloc();
    let rows: [(&str, usize); 9] = [
        ("", 0),
        ("\n\n", 0),
        ("  ! x", 0),
        (" \t\r\n!\r\n", 0),
        ("tick 5\n", 1),
        ("tick 5\r\ntick 5", 2),
        ("! tick 5\ntick 5\n  \ntick 5\n", 2),
        ("tick 5 \r\n\r\n\ttick 5", 2),
        ("tick 5\ntick 5\r\n!\r", 2),
    ];
    let ticks = [Want::Tick(5), Want::Tick(5)];
    for (source, count) in rows {
        compare(&rt, alloc, source.as_bytes(), false, &ticks[..count])?;
    }
    Ok(())
}

/// Lines without the word of an event, and the number of the first one.
#[test]
fn unknown_events(rt: HostRuntime) {
    let alloc = rt.alloc();
    let rows: [(&str, u32); 9] = [
        ("tock 5", 1),
        ("run Main()\ntock 5", 2),
        ("soon", 1),
        ("soon soon kill 1", 1),
        ("runMain()", 1),
        ("\n!\nkill1", 3),
        ("\r", 1),
        ("soon ! x", 1),
        ("signal\"s\"", 1),
    ];
    for (source, line) in rows {
        refused(
            &rt,
            alloc,
            source.as_bytes(),
            ScriptFault::UnknownEvent { line },
        );
    }
}

/// Parts that don't fit the word of their event; the first fault of a script is given.
#[test]
fn bad_arguments(rt: HostRuntime) {
    let alloc = rt.alloc();
    let rows = [
        "run F(",
        "run F",
        "run F)",
        "run (1)",
        "run 1F()",
        "run F G()",
        "run F() x",
        "run F()\r",
        "tick",
        "tick -1",
        "tick 5 5",
        "tick +1",
        "tick 0X10",
        "tick -0x1",
        "tick 2147483648",
        "tick 5\rkill 1",
        "kill",
        "kill 0x100000000",
        "kill 0x",
        "suspend a",
        "resume \"1\"",
        "set g",
        "set g 5",
        "set = 5",
        "set g =",
        "set g = 5 5",
        "set g = \"a\"b",
        "set 1 = 1",
        "signal",
        "signal s",
        "signal \"s\" x",
        "signal \"s",
        "signal \"^x\"",
        "put \"q\" 1",
        "put \"q\"1 \"x\"",
        "put \"q\" 1\"x\"",
        "put \"q\" \"x\"",
        "put q 1 \"x\"",
        "put \"q\" 1 \"x\" 2",
        "put \"q\" 1 x\ntock",
    ];
    for source in rows {
        refused(
            &rt,
            alloc,
            source.as_bytes(),
            ScriptFault::BadArgument { line: 1 },
        );
    }
}

/// A name, a list and a text at their greatest lengths, and one byte more.
#[test]
fn longest_parts(rt: HostRuntime) -> Result<(), Fail> {
    let alloc = rt.alloc();
    for (name, list, fits) in [(64, 255, true), (65, 255, false), (64, 256, false)] {
        let mut line: Vec<u8> = Vec::new(alloc);
        line.extend_from_slice(b"run ")?;
        fill(&mut line, b'n', name)?;
        line.push(b'(')?;
        fill(&mut line, b'l', list)?;
        line.push(b')')?;
        match ci_script::read_script(alloc, line.as_slice()) {
            Ok(script) => assert_eq!(rt; script.events().len() == 1, fits),
            Err(fault) => assert_eq!(rt; fault == ScriptFault::BadArgument { line: 1 }, !fits),
        }
    }
    Ok(())
}

/// 100,000 lines are read, blank ones among them. One more is refused, whatever it says, unless an earlier one is.
#[test]
fn most_lines(rt: HostRuntime) -> Result<(), Fail> {
    let alloc = rt.alloc();
    let mut source: Vec<u8> = Vec::new(alloc);
    fill(&mut source, b'\n', 99_999)?;
    source.extend_from_slice(b"tick 5")?;
    compare(&rt, alloc, source.as_slice(), false, &[Want::Tick(5)])?;
    source.push(b'\n')?;
    compare(&rt, alloc, source.as_slice(), false, &[Want::Tick(5)])?;
    source.push(b'!')?;
    refused(&rt, alloc, source.as_slice(), ScriptFault::TooManyLines);
    source[0] = b'x';
    refused(
        &rt,
        alloc,
        source.as_slice(),
        ScriptFault::UnknownEvent { line: 1 },
    );
    Ok(())
}

/// Adds the byte so many times.
fn fill(to: &mut Vec<u8>, byte: u8, count: usize) -> Result<(), Fail> {
    for _ in 0..count {
        to.push(byte)?;
    }
    Ok(())
}

//! What is kept of a run: its entries, its loose ticks and its ending; and what is put of it.
use crate::doing::{failing, order, shelf_of, words_of};
use crate::shown::Shown;
use ci_base::Ending;
use ci_outside::{MemSink, OpenGate, SureShelf, SureSink};
use ci_top::{Outcome, cicode};
use std::alloc::Global;
use std::process::Abort;
use std::str::from_utf8;
use std::test::Fail;

/// A source.
const HI: &str = "FUNCTION Main() TraceMsg(\"hi\"); END";

const HI_REPORT: &str = "1 hi\ntask 1 Main ended 0\nfinished entries 3 work 302 instructions 7\n";

const HI_KEPT: &str = "s run \"Main\" \"\" = 1 0; a 1 2 trace \"hi\" = 0 0; a 1 0 end 0 = ends";

const LOOP: &str = "FUNCTION Main() WHILE 1 DO END END";

const WRITERS: &str = "GLOBAL STRING g; FUNCTION W(STRING s) g = s; g = s; g = s; END";

const WRITERS_SCRIPT: &str = "run W(\"a\")\nsoon run W(\"b\")\n";

const WRITERS_REPORT: &str =
    "task 1 W ended 0\ntask 2 W ended 0\nfinished entries 10 work 1008 instructions 24\n";

const WAITERS: &str =
    "FUNCTION W() INT h; h = SemOpen(\"s\", 2); SemWait(h, -1); TraceMsg(\"in\"); END";

/// Words over the source `a.ci` and the script `s`, the two, what is put, the status, the entries and the loose ticks.
type Row<'a> = (&'a str, &'a str, &'a str, &'a str, u8, &'a str);

static ROWS: [Row<'static>; 8] = [
    ("run a.ci", HI, "", HI_REPORT, 0, HI_KEPT),
    // There is no function `Main`.
    (
        "run a.ci",
        "",
        "",
        "finished entries 1 work 100 instructions 0\n",
        0,
        "s run \"Main\" \"\" = -1 5",
    ),
    (
        "run a.ci --script s",
        "",
        "",
        "finished entries 0 work 0 instructions 0\n",
        0,
        "",
    ),
    // A loop uses all of the budget but the last 100, which an entry may need.
    (
        "run a.ci --budget 1000",
        LOOP,
        "",
        "task 1 Main ready\nspent entries 1 work 900 instructions 0\n",
        8,
        "s run \"Main\" \"\" = 1 0; l 1 800",
    ),
    // Both sides of AND are read.
    (
        "run a.ci",
        "INT g = 0; INT h; FUNCTION Main() INT x; x = g AND h; END",
        "",
        "task 1 Main ended 0\nfinished entries 4 work 402 instructions 8\n",
        0,
        "s run \"Main\" \"\" = 1 0; a 1 2 read 0 = 0 0; a 1 0 read 1 = 0 0; a 1 0 end 0 = ends",
    ),
    // There is no element 5 of five.
    (
        "run a.ci",
        "INT a[5]; FUNCTION Main() a[5] = 1; END",
        "",
        "task 1 Main faulted 7\nfinished entries 2 work 202 instructions 5\n",
        0,
        "s run \"Main\" \"\" = 1 0; a 1 2 end 7 = ends",
    ),
    // With turns of one tick two tasks write by turns, with long ones one after the other.
    (
        "run a.ci --script s --slice 1",
        WRITERS,
        WRITERS_SCRIPT,
        WRITERS_REPORT,
        0,
        "s run \"W\" \"^\"a^\"\" = 1 0; s soon run \"W\" \"^\"b^\"\" = 2 0; a 1 2 write 0 \"a\" = 0 0; a 2 2 write 0 \"b\" = 0 0; a 1 1 write 0 \"a\" = 0 0; a 2 1 write 0 \"b\" = 0 0; a 1 1 write 0 \"a\" = 0 0; a 2 1 write 0 \"b\" = 0 0; a 1 0 end 0 = ends; a 2 0 end 0 = ends",
    ),
    (
        "run a.ci --script s",
        WRITERS,
        WRITERS_SCRIPT,
        WRITERS_REPORT,
        0,
        "s run \"W\" \"^\"a^\"\" = 1 0; s soon run \"W\" \"^\"b^\"\" = 2 0; a 1 2 write 0 \"a\" = 0 0; a 1 1 write 0 \"a\" = 0 0; a 1 1 write 0 \"a\" = 0 0; a 1 0 end 0 = ends; a 2 2 write 0 \"b\" = 0 0; a 2 1 write 0 \"b\" = 0 0; a 2 1 write 0 \"b\" = 0 0; a 2 0 end 0 = ends",
    ),
];

/// The entries and the loose ticks.
fn kept(outcome: &Outcome) -> Shown {
    let mut shown = Shown::empty();
    for entry in outcome.history.entries() {
        shown.entry(entry);
    }
    for loose in outcome.loose.members() {
        shown.loose(*loose);
    }
    shown
}

/// How a run with this status ended.
fn ending_of(status: u8) -> Ending {
    match status {
        0 => Ending::Finished,
        7 => Ending::Resting,
        8 => Ending::Spent,
        _ => Ending::NotRun,
    }
}

/// Asserts what is put and kept of each run.
fn compare(rt: &impl Abort, alloc: Global, rows: &[Row]) -> Result<(), Fail> {
    for (line, source, script, put, status, entries) in rows.iter().copied() {
        let files = [("a.ci", source.as_bytes()), ("s", script.as_bytes())];
        let done = order(alloc, line, &files, 0, 4096, 0)?;
        assert_eq!(rt; done.put.bytes(), put.as_bytes(), "{line}");
        assert_eq!(rt; done.outcome.status, status, "{line}");
        assert_eq!(rt; done.outcome.ending, ending_of(status), "{line}");
        assert_eq!(rt; from_utf8(kept(&done.outcome).bytes())?, entries, "{line}");
    }
    Ok(())
}

#[test]
fn a_run_is_told_and_kept_entry_by_entry(rt: HostRuntime) -> Result<(), Fail> {
    compare(&rt, rt.alloc(), &ROWS)
}

/// What is told of runs whose entries are many.
static TOLD: [(&str, &str, &str, &str, u8); 3] = [
    (
        "run a.ci --script s",
        WAITERS,
        "run W()\nrun W()\nrun W()\nsignal \"s\"\n",
        "1 in\n2 in\ntask 1 W ended 0\ntask 2 W ended 0\ntask 3 W waits semaphore 1\nresting entries 14 work 1411 instructions 47\n",
        7,
    ),
    (
        "make 1",
        "",
        "",
        "made 1 bytes 168\nfinished entries 9 work 910 instructions 72\n",
        0,
    ),
    (
        "run a.ci --budget 200",
        HI,
        "",
        "task 1 Main ready\nspent entries 1 work 100 instructions 0\n",
        8,
    ),
];

#[test]
fn a_run_is_told(rt: HostRuntime) -> Result<(), Fail> {
    for (line, source, script, put, status) in TOLD.iter().copied() {
        let files = [("a.ci", source.as_bytes()), ("s", script.as_bytes())];
        let done = order(rt.alloc(), line, &files, 0, 4096, 0)?;
        assert_eq!(rt; done.put.bytes(), put.as_bytes(), "{line}");
        assert_eq!(rt; done.outcome.status, status, "{line}");
        assert_eq!(rt; done.outcome.ending, ending_of(status), "{line}");
    }
    Ok(())
}

/// A sink that takes a byte at once and fails at its fourth put gets a front of the report, and the run is whole.
#[test]
fn a_run_is_kept_whole_where_a_put_fails(rt: HostRuntime) -> Result<(), Fail> {
    let done = order(rt.alloc(), "run a.ci", &[("a.ci", HI.as_bytes())], 0, 1, 4)?;
    assert_eq!(rt; done.put.bytes(), b"1 h".as_slice());
    assert_eq!(rt; done.outcome.status, 5);
    assert_eq!(rt; done.outcome.ending, Ending::Finished);
    assert_eq!(rt; from_utf8(kept(&done.outcome).bytes())?, HI_KEPT);
    Ok(())
}

#[test]
fn the_gate_and_what_tells_nothing_change_nothing(rt: HostRuntime) -> Result<(), Fail> {
    let mut shelf = SureShelf::of(shelf_of(rt.alloc(), &[("a.ci", HI.as_bytes())])?);
    let words = words_of(rt.alloc(), "run a.ci")?;
    let mut put = MemSink::of(rt.alloc(), 7, failing(rt.alloc(), 0)?);
    let first = cicode(
        rt.alloc(),
        words.as_slice(),
        &mut shelf,
        &mut put,
        &OpenGate,
    );
    assert_eq!(rt; first.status, 0);
    assert_eq!(rt; put.bytes(), HI_REPORT.as_bytes());
    let mut nothing = SureSink::of();
    let second = cicode(
        rt.alloc(),
        words.as_slice(),
        &mut shelf,
        &mut nothing,
        &OpenGate,
    );
    assert_eq!(rt; second.status, 0);
    Ok(())
}

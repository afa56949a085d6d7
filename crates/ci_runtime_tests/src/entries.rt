//! Entries and loose ticks of runs, entry by entry.
use crate::running::{BUDGET, SLICE, journal};
use std::alloc::Global;
use std::process::Abort;
use std::str::from_utf8;
use std::test::Fail;

/// A source, a script, a slice, a budget, and the journal's lines behind its first.
type Row<'a> = (&'a str, &'a str, u32, u32, &'a str);

/// Asserts that each run has these entries, loose ticks and ending.
fn compare(rt: &impl Abort, alloc: Global, rows: &[Row]) -> Result<(), Fail> {
    for row in rows {
        let (source, script, slice, budget, want) = *row;
        let shown = journal(alloc, source, script, slice, budget);
        assert_eq!(rt; from_utf8(shown.bytes())?, want, "the run of {source}");
    }
    Ok(())
}

static ONE_TASK: [Row<'static>; 5] = [
    // There is no function `Main`.
    (
        "",
        "run Main()\n",
        SLICE,
        BUDGET,
        "s run \"Main\" \"\" = -1 5; end finished",
    ),
    ("", "", SLICE, BUDGET, "end finished"),
    // A loop uses all of the budget but the last 100, which an entry may need.
    (
        "FUNCTION Main() WHILE 1 DO END END",
        "run Main()\n",
        SLICE,
        1_000,
        "s run \"Main\" \"\" = 1 0; l 1 800; end spent",
    ),
    // Both sides of AND are read.
    (
        "INT g = 0; INT h; FUNCTION Main() INT x; x = g AND h; END",
        "run Main()\n",
        SLICE,
        BUDGET,
        "s run \"Main\" \"\" = 1 0; a 1 2 read 0 = 0 0; a 1 0 read 1 = 0 0; a 1 0 end 0 = ends; end finished",
    ),
    // There is no element 5 of five.
    (
        "INT a[5]; FUNCTION Main() a[5] = 1; END",
        "run Main()\n",
        SLICE,
        BUDGET,
        "s run \"Main\" \"\" = 1 0; a 1 2 end 7 = ends; end finished",
    ),
];

#[test]
fn a_task_is_told_entry_by_entry(rt: HostRuntime) -> Result<(), Fail> {
    compare(&rt, rt.alloc(), &ONE_TASK)
}

/// Three writes of a task's argument.
const WRITER: &str = "GLOBAL STRING g; FUNCTION W(STRING s) g = s; g = s; g = s; END";

static TWO_TASKS: [Row<'static>; 2] = [
    (
        WRITER,
        "run W(\"a\")\nsoon run W(\"b\")\n",
        1,
        BUDGET,
        "s run \"W\" \"^\"a^\"\" = 1 0; s soon run \"W\" \"^\"b^\"\" = 2 0; a 1 2 write 0 \"a\" = 0 0; a 2 2 write 0 \"b\" = 0 0; a 1 1 write 0 \"a\" = 0 0; a 2 1 write 0 \"b\" = 0 0; a 1 1 write 0 \"a\" = 0 0; a 2 1 write 0 \"b\" = 0 0; a 1 0 end 0 = ends; a 2 0 end 0 = ends; end finished",
    ),
    (
        WRITER,
        "run W(\"a\")\nsoon run W(\"b\")\n",
        SLICE,
        BUDGET,
        "s run \"W\" \"^\"a^\"\" = 1 0; s soon run \"W\" \"^\"b^\"\" = 2 0; a 1 2 write 0 \"a\" = 0 0; a 1 1 write 0 \"a\" = 0 0; a 1 1 write 0 \"a\" = 0 0; a 1 0 end 0 = ends; a 2 2 write 0 \"b\" = 0 0; a 2 1 write 0 \"b\" = 0 0; a 2 1 write 0 \"b\" = 0 0; a 2 0 end 0 = ends; end finished",
    ),
];

#[test]
fn turns_of_one_tick_take_entries_in_turn_and_long_ones_in_a_row(
    rt: HostRuntime,
) -> Result<(), Fail> {
    compare(&rt, rt.alloc(), &TWO_TASKS)
}

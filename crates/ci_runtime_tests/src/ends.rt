//! How tasks stand at the end of runs, and what runs count.
use crate::running::{BUDGET, SLICE, ended};
use crate::shown::Shown;
use ci_runtime::Ended;
use std::alloc::Global;
use std::process::Abort;
use std::str::from_utf8;
use std::test::Fail;

/// A source, a script, a budget, and what is told of the end.
type Row<'a> = (&'a str, &'a str, u32, &'a str);

/// How the tasks stand, and how the run ended.
fn standing(ended: &Ended) -> Shown {
    let mut shown = Shown::empty();
    for end in ended.end.tasks.members() {
        shown.task(end);
    }
    shown.ending(ended.end.ending);
    shown
}

/// The work of a run, and its instructions.
fn counts(ended: &Ended) -> Shown {
    let mut shown = Shown::empty();
    shown.line("work");
    shown.number(ended.end.work);
    shown.line("instructions");
    shown.number(ended.end.instructions);
    shown
}

fn standing_of(alloc: Global, source: &str, script: &str, budget: u32) -> Shown {
    match ended(alloc, source, script, SLICE, budget) {
        Some(ended) => standing(&ended),
        None => Shown::empty(),
    }
}

fn counts_of(alloc: Global, source: &str, script: &str, budget: u32) -> Shown {
    match ended(alloc, source, script, SLICE, budget) {
        Some(ended) => counts(&ended),
        None => Shown::empty(),
    }
}

/// Asserts that the tasks of each run stand so.
fn stand(rt: &impl Abort, alloc: Global, rows: &[Row]) -> Result<(), Fail> {
    for row in rows {
        let (source, script, budget, want) = *row;
        let shown = standing_of(alloc, source, script, budget);
        assert_eq!(rt; from_utf8(shown.bytes())?, want, "the tasks of {source}");
    }
    Ok(())
}

/// Asserts that each run counts so.
fn count(rt: &impl Abort, alloc: Global, rows: &[Row]) -> Result<(), Fail> {
    for row in rows {
        let (source, script, budget, want) = *row;
        let shown = counts_of(alloc, source, script, budget);
        assert_eq!(rt; from_utf8(shown.bytes())?, want, "the counts of {source}");
    }
    Ok(())
}

static DEAD: [Row<'static>; 5] = [
    // No task was started.
    ("", "run Main()\n", BUDGET, "end finished"),
    ("", "", BUDGET, "end finished"),
    // The name is told as it is declared.
    (
        "FUNCTION Main() TraceMsg(\"hi\"); END",
        "run MAIN()\n",
        BUDGET,
        "task \"Main\" ended 0; end finished",
    ),
    (
        "INT a[5]; FUNCTION Main() a[5] = 1; END",
        "run Main()\n",
        BUDGET,
        "task \"Main\" ended 7; end finished",
    ),
    (
        "FUNCTION F() EnterCriticalSection(\"c\"); EnterCriticalSection(\"c\"); LeaveCriticalSection(\"c\"); Sleep(100); END FUNCTION G() EnterCriticalSection(\"c\"); TraceMsg(\"got\"); END",
        "run F()\nrun G()\nkill 1\n",
        BUDGET,
        "task \"F\" killed; task \"G\" ended 0; end finished",
    ),
];

#[test]
fn tasks_that_ended_had_a_fault_or_were_killed(rt: HostRuntime) -> Result<(), Fail> {
    stand(&rt, rt.alloc(), &DEAD)
}

/// Tasks that enter one section and then sleep, or make an error in it.
const SECTION: &str =
    "INT a[5]; FUNCTION F() EnterCriticalSection(\"c\"); Sleep(100); END FUNCTION G() EnterCriticalSection(\"c\"); a[5] = 1; END";

static OWNED: [Row<'static>; 4] = [
    (
        SECTION,
        "run F()\nrun F()\nrun F()\n",
        BUDGET,
        "task \"F\" waits clock; task \"F\" waits section \"c\" of 1; task \"F\" waits section \"c\" of 1; end resting",
    ),
    (
        SECTION,
        "run F()\nrun F()\nsuspend 2\nsuspend 1\n",
        BUDGET,
        "task \"F\" waits clock suspended; task \"F\" waits section \"c\" of 1 suspended; end resting",
    ),
    // The section goes from a task that is killed to the next one, and from a task that ends by an error.
    (
        SECTION,
        "run F()\nrun F()\nrun F()\nkill 1\n",
        BUDGET,
        "task \"F\" killed; task \"F\" waits clock; task \"F\" waits section \"c\" of 2; end resting",
    ),
    (
        SECTION,
        "run G()\nrun F()\nrun G()\n",
        BUDGET,
        "task \"G\" ended 7; task \"F\" waits clock; task \"G\" waits section \"c\" of 2; end resting",
    ),
];

#[test]
fn a_task_that_waits_for_a_section_is_told_with_its_owner(rt: HostRuntime) -> Result<(), Fail> {
    stand(&rt, rt.alloc(), &OWNED)
}

/// A semaphore of one unit, which each task takes.
const TAKER: &str =
    "FUNCTION W() INT h; h = SemOpen(\"s\", 2); SemWait(h, -1); TraceMsg(\"in\"); END";

static LIVE: [Row<'static>; 5] = [
    (
        "FUNCTION Main() WHILE 1 DO END END",
        "run Main()\n",
        1_000,
        "task \"Main\" ready; end spent",
    ),
    (
        TAKER,
        "run W()\nrun W()\n",
        BUDGET,
        "task \"W\" ended 0; task \"W\" waits semaphore 1; end resting",
    ),
    (
        TAKER,
        "run W()\nrun W()\nsuspend 2\n",
        BUDGET,
        "task \"W\" ended 0; task \"W\" waits semaphore 1 suspended; end resting",
    ),
    // The unit comes to a task that may make no step.
    (
        TAKER,
        "run W()\nrun W()\nsuspend 2\nsignal \"s\"\n",
        BUDGET,
        "task \"W\" ended 0; task \"W\" ready suspended; end resting",
    ),
    (
        "FUNCTION R() INT n; STRING t; INT h = QueOpen(\"q\", 2); TraceMsg(IntToStr(QueRead(h, n, t, 1))); END",
        "run R()\n",
        BUDGET,
        "task \"R\" waits queue 1; end resting",
    ),
];

#[test]
fn live_tasks_are_told_with_their_places_and_marks(rt: HostRuntime) -> Result<(), Fail> {
    stand(&rt, rt.alloc(), &LIVE)
}

static COUNTED: [Row<'static>; 11] = [
    ("", "run Main()\n", BUDGET, "work 100; instructions 0"),
    ("", "", BUDGET, "work 0; instructions 0"),
    (
        "FUNCTION Main() TraceMsg(\"hi\"); END",
        "run Main()\n",
        200,
        "work 100; instructions 0",
    ),
    (
        "FUNCTION Main() TraceMsg(\"hi\"); END",
        "run Main()\n",
        302,
        "work 202; instructions 4",
    ),
    (
        "FUNCTION Main() TraceMsg(\"hi\"); END",
        "run Main()\n",
        303,
        "work 302; instructions 7",
    ),
    // The instructions since the last entry lead to none.
    (
        "FUNCTION Main() WHILE 1 DO END END",
        "run Main()\n",
        1_000,
        "work 900; instructions 0",
    ),
    (
        "INT g = 0; INT h; FUNCTION Main() INT x; x = g AND h; END",
        "run Main()\n",
        BUDGET,
        "work 402; instructions 8",
    ),
    (
        "INT a[5]; FUNCTION Main() a[5] = 1; END",
        "run Main()\n",
        BUDGET,
        "work 202; instructions 5",
    ),
    (
        "GLOBAL STRING g; FUNCTION W(STRING s) g = s; g = s; g = s; END",
        "run W(\"a\")\nsoon run W(\"b\")\n",
        BUDGET,
        "work 1008; instructions 24",
    ),
    (
        TAKER,
        "run W()\nrun W()\nsuspend 2\nsignal \"s\"\n",
        BUDGET,
        "work 1007; instructions 29",
    ),
    (
        "FUNCTION Main() Main(); END",
        "run Main()\n",
        BUDGET,
        "work 8392; instructions 12288",
    ),
];

#[test]
fn work_and_instructions_are_counted(rt: HostRuntime) -> Result<(), Fail> {
    count(&rt, rt.alloc(), &COUNTED)
}

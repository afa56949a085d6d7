//! The greatest numbers of tasks, elements and units.
use crate::play::{Row, follow};
use crate::steps::{Ask, Step, Tell};
use std::test::Fail;

static LIVE: [Row; 10] = [
    (Step::Starts(64), "64"),
    (Step::Script(Tell::Run("Main", "")), "-1 11"),
    (Step::By(64, Ask::TaskNew("Main", "", 0)), "-1 11"),
    (Step::Script(Tell::Run("Main", "1")), "-1 10"),
    (Step::Script(Tell::Run("Nobody", "")), "-1 5"),
    (Step::Follows(1, 4_033), "4032"),
    (Step::Script(Tell::Kill(4_096)), "0 0"),
    (Step::Script(Tell::Run("Main", "")), "-1 11"),
    (Step::By(4_095, Ask::TaskNew("Main", "", 0)), "-1 11"),
    (Step::By(4_095, Ask::TaskHnd("Main")), "4033 0"),
];

#[test]
fn at_most_64_tasks_are_live_and_4096_are_started(rt: HostRuntime) -> Result<(), Fail> {
    follow(&rt, rt.alloc(), 0, &LIVE)
}

static FULL: [Row; 13] = [
    (Step::Script(Tell::Run("Main", "")), "1 0; starts 1: 1()"),
    (Step::By(1, Ask::QueOpen("q", 2)), "1 0"),
    (Step::By(1, Ask::QueOpen("r", 2)), "2 0"),
    (Step::By(1, Ask::SemOpen("s", 2)), "3 0"),
    (Step::Again(4_095, Tell::Put("q", 1, "x")), "4095"),
    (Step::Script(Tell::Put("r", 1, "x")), "0 0"),
    (Step::Script(Tell::Put("q", 1, "x")), "11 11"),
    (Step::Script(Tell::Put("r", 1, "x")), "11 11"),
    (Step::By(1, Ask::QueWrite(1, 1, "x")), "11 11"),
    (Step::By(1, Ask::QueLength(1)), "4095 0"),
    (Step::Again(65_534, Tell::Signal("s")), "65534"),
    (Step::Script(Tell::Signal("s")), "11 11"),
    (Step::By(1, Ask::SemSignal(3)), "11 11"),
];

#[test]
fn events_meet_the_greatest_numbers_of_elements_and_units(rt: HostRuntime) -> Result<(), Fail> {
    follow(&rt, rt.alloc(), 0, &FULL)
}

//! Cells, and the events that name objects and cells.
use crate::play::{Row, follow};
use crate::steps::{Ask, Step, Tell};
use std::test::Fail;

static EVENTS: [Row; 59] = [
    (Step::By(1, Ask::ReadCount), "7 0"),
    (Step::By(1, Ask::ReadName), "\"\" 0"),
    (Step::By(1, Ask::WriteCount(-3)), "0 0"),
    (Step::By(2, Ask::ReadCount), "-3 0"),
    (Step::By(1, Ask::WriteName("hello")), "0 0"),
    (Step::By(1, Ask::WriteName("a")), "0 0"),
    (Step::By(2, Ask::ReadName), "\"a\" 0"),
    (Step::Script(Tell::SetInt("count", 9)), "0 0"),
    (Step::By(1, Ask::ReadCount), "9 0"),
    // Of two GLOBAL scalars of one name the one with the lesser cell counts.
    (Step::Script(Tell::SetInt("COUNT", 10)), "0 0"),
    (Step::By(1, Ask::ReadCount), "10 0"),
    (Step::Script(Tell::SetText("Count", "x")), "10 10"),
    (Step::Script(Tell::SetInt("name", 1)), "10 10"),
    (Step::Script(Tell::SetText("NAME", "z")), "0 0"),
    (Step::By(1, Ask::ReadName), "\"z\" 0"),
    (Step::Script(Tell::SetInt("nobody", 1)), "5 5"),
    (Step::Script(Tell::SetText("", "")), "5 5"),
    (Step::By(1, Ask::Trace("t")), "0 0"),
    (Step::Script(Tell::Put("s", 1, "x")), "5 5"),
    (Step::Script(Tell::Signal("s")), "5 5"),
    // A semaphore and a queue may have one name, and are numbered by one count.
    (Step::By(1, Ask::SemOpen("s", 1)), "1 0"),
    (Step::By(1, Ask::QueOpen("s", 1)), "2 0"),
    (Step::Script(Tell::Put("S", 1, "x")), "5 5"),
    (Step::Script(Tell::Signal("S")), "5 5"),
    (Step::Script(Tell::Put("s", 4, "x")), "0 0"),
    (Step::By(1, Ask::QueLength(2)), "1 0"),
    (Step::By(2, Ask::QueRead(2, 2)), "10 10"),
    (Step::By(2, Ask::QueRead(2, 1)), "0 0 4 \"x\""),
    (Step::By(2, Ask::QueRead(2, 0)), "3 3"),
    (Step::By(2, Ask::QueRead(2, 1)), "waits"),
    (Step::Tasks, "1 ready, 2 waits queue 2, live 1 2"),
    (
        Step::Script(Tell::Put("s", -1, "")),
        "0 0; 2 gets 0 0 -1 \"\"",
    ),
    (Step::By(1, Ask::QueLength(2)), "0 0"),
    (Step::By(2, Ask::QueRead(2, 1)), "waits"),
    (
        Step::By(1, Ask::QueWrite(2, 8, "w")),
        "0 0; 2 gets 0 0 8 \"w\"",
    ),
    (Step::Script(Tell::Signal("s")), "0 0"),
    (Step::By(1, Ask::SemWait(1, 0)), "0 0"),
    (Step::By(1, Ask::SemWait(1, 0)), "0 0"),
    (Step::By(1, Ask::SemWait(1, 0)), "2 2"),
    (Step::By(2, Ask::SemWait(1, -1)), "waits"),
    (Step::Script(Tell::Signal("s")), "0 0; 2 gets 0 0"),
    (Step::By(1, Ask::SemClose(1)), "0 0"),
    (Step::Script(Tell::Signal("s")), "5 5"),
    (Step::By(2, Ask::QueRead(2, 1)), "waits"),
    (Step::By(1, Ask::QueClose(2)), "0 0; 2 gets 1 1"),
    (Step::Script(Tell::Put("s", 1, "x")), "5 5"),
    (Step::By(1, Ask::SemSignal(1)), "1 1"),
    (Step::By(1, Ask::SemWait(1, 0)), "1 1"),
    (Step::By(1, Ask::SemClose(1)), "1 1"),
    (Step::By(1, Ask::QueWrite(2, 1, "x")), "1 1"),
    (Step::By(1, Ask::QueRead(2, 0)), "1 1"),
    (Step::By(1, Ask::QueLength(2)), "-1 1"),
    (Step::By(1, Ask::QueClose(2)), "1 1"),
    // A number is never used again.
    (Step::By(1, Ask::QueOpen("s", 2)), "3 0"),
    (Step::By(1, Ask::QueOpen("s", 1)), "-1 4"),
    (Step::By(1, Ask::SemOpen("s", 0)), "-1 5"),
    (Step::By(1, Ask::SemOpen("", 2)), "-1 10"),
    (Step::By(1, Ask::Enter("")), "10 10"),
    (Step::By(1, Ask::Leave("a")), "6 6"),
];

#[test]
fn each_answer_to_events_that_name_something(rt: HostRuntime) -> Result<(), Fail> {
    follow(&rt, rt.alloc(), 2, &EVENTS)
}

//! Kills of tasks, however they stand.
use crate::play::{Row, follow};
use crate::steps::{Ask, Step, Tell};
use std::test::Fail;

static KILLS: [Row; 62] = [
    (Step::By(1, Ask::SemOpen("s", 2)), "1 0"),
    (Step::By(1, Ask::QueOpen("q", 2)), "2 0"),
    (Step::By(1, Ask::SemWait(1, -1)), "0 0"),
    // One that waits for a semaphore, the first in its line.
    (Step::By(2, Ask::SemWait(1, -1)), "waits"),
    (Step::By(3, Ask::SemWait(1, 5)), "waits"),
    (Step::By(1, Ask::TaskKill(2)), "0 0"),
    (Step::By(1, Ask::SemSignal(1)), "0 0; 3 gets 0 0"),
    // One that waits for a queue, the first in its line.
    (Step::By(4, Ask::QueRead(2, 1)), "waits"),
    (Step::By(5, Ask::QueRead(2, 1)), "waits"),
    (Step::Script(Tell::Kill(4)), "0 0"),
    (
        Step::Script(Tell::Put("q", 1, "x")),
        "0 0; 5 gets 0 0 1 \"x\"",
    ),
    // One that sleeps.
    (Step::By(9, Ask::SleepMS(10)), "waits"),
    (Step::By(1, Ask::TaskKill(9)), "0 0"),
    (Step::Script(Tell::Tick(5000)), "0 0"),
    // One that waits for a section and owns another one.
    (Step::By(1, Ask::Enter("a")), "0 0"),
    (Step::By(6, Ask::Enter("b")), "0 0"),
    (Step::By(6, Ask::Enter("a")), "waits"),
    (Step::By(7, Ask::Enter("b")), "waits"),
    (Step::By(8, Ask::Enter("b")), "waits"),
    (
        Step::Tasks,
        "1 ready, 2 killed, 3 ready, 4 killed, 5 ready, 6 waits section \"a\", 7 waits section \"b\", 8 waits section \"b\", 9 killed, 10 ready, 11 ready, live 1 3 5 6 7 8 10 11",
    ),
    (Step::By(1, Ask::TaskKill(6)), "0 0; 7 gets 0 0"),
    (Step::Owner("b"), "7"),
    (Step::Owner("a"), "1"),
    (Step::By(1, Ask::Leave("a")), "0 0"),
    (Step::Owner("a"), "nobody"),
    // One that waits for a section, the last in its line.
    (Step::Script(Tell::Kill(8)), "0 0"),
    (Step::By(7, Ask::Leave("b")), "0 0"),
    (Step::Owner("b"), "nobody"),
    // One that owns two sections, one of them twice.
    (Step::By(10, Ask::Enter("z")), "0 0"),
    (Step::By(10, Ask::Enter("m")), "0 0"),
    (Step::By(10, Ask::Enter("m")), "0 0"),
    (Step::By(7, Ask::Enter("z")), "waits"),
    (Step::By(5, Ask::Enter("m")), "waits"),
    (Step::By(3, Ask::Enter("m")), "waits"),
    (
        Step::By(1, Ask::TaskKill(10)),
        "0 0; 5 gets 0 0; 7 gets 0 0",
    ),
    (Step::Owner("m"), "5"),
    (Step::Owner("z"), "7"),
    (Step::By(5, Ask::Leave("m")), "0 0; 3 gets 0 0"),
    (Step::By(3, Ask::Leave("m")), "0 0"),
    (Step::Owner("m"), "nobody"),
    // One that is suspended, and one that is suspended and waits.
    (Step::Script(Tell::Suspend(3)), "0 0"),
    (Step::By(1, Ask::TaskKill(3)), "0 0"),
    (Step::By(5, Ask::QueRead(2, 1)), "waits"),
    (Step::By(1, Ask::TaskSuspend(5)), "0 0"),
    (Step::Script(Tell::Kill(5)), "0 0"),
    (Step::Script(Tell::Put("q", 2, "y")), "0 0"),
    (Step::By(1, Ask::QueLength(2)), "1 0"),
    // One that has ended or was killed before, and numbers that no task has.
    (Step::By(11, Ask::Enter("z")), "waits"),
    (Step::By(7, Ask::End(0)), "ends; 11 gets 0 0"),
    (Step::Owner("z"), "11"),
    (Step::Script(Tell::Kill(7)), "1 1"),
    (Step::By(1, Ask::TaskKill(10)), "1 1"),
    (Step::Script(Tell::Kill(0)), "1 1"),
    (Step::Script(Tell::Kill(-1)), "1 1"),
    (Step::Script(Tell::Kill(12)), "1 1"),
    // The killer itself.
    (Step::By(1, Ask::Enter("k")), "0 0"),
    (Step::By(11, Ask::Enter("k")), "waits"),
    (Step::By(1, Ask::TaskKill(1)), "ends; 11 gets 0 0"),
    (Step::Owner("k"), "11"),
    (Step::Owner("z"), "11"),
    // The unit that the third task took stays taken.
    (Step::By(11, Ask::SemWait(1, 0)), "2 2"),
    (
        Step::Tasks,
        "1 killed, 2 killed, 3 killed suspended, 4 killed, 5 killed suspended, 6 killed, 7 ended 0, 8 killed, 9 killed, 10 killed, 11 ready, live 11",
    ),
];

#[test]
fn a_task_is_killed_however_it_stands(rt: HostRuntime) -> Result<(), Fail> {
    follow(&rt, rt.alloc(), 11, &KILLS)
}

//! What requests and events about tasks do.
use crate::play::{Row, follow};
use crate::steps::{Ask, Step, Tell};
use std::test::Fail;

static TASKS: [Row; 50] = [
    (
        Step::By(1, Ask::TaskNew("F", "3", 0)),
        "2 0; starts 2: 0(3, \"d\")",
    ),
    (
        Step::By(1, Ask::TaskNew("f", "4", 7)),
        "3 0; starts 3: 0(4, \"d\")",
    ),
    (Step::By(1, Ask::TaskHnd("")), "1 0"),
    (Step::By(3, Ask::TaskHnd("")), "3 0"),
    (Step::By(3, Ask::TaskHnd("F")), "2 0"),
    (Step::By(1, Ask::TaskHnd("f")), "2 0"),
    (Step::By(1, Ask::TaskHnd("Two")), "-1 5"),
    (Step::By(1, Ask::TaskHnd("Nobody")), "-1 5"),
    (Step::By(1, Ask::TaskKill(2)), "0 0"),
    (Step::By(2, Ask::SysTime), "can't ask"),
    (Step::By(1, Ask::TaskHnd("F")), "3 0"),
    (Step::By(1, Ask::TaskKill(2)), "1 1"),
    (Step::By(1, Ask::TaskKill(0)), "1 1"),
    (Step::By(1, Ask::TaskKill(-1)), "1 1"),
    (Step::By(1, Ask::TaskKill(4)), "1 1"),
    (Step::By(1, Ask::TaskSuspend(2)), "1 1"),
    (Step::By(1, Ask::TaskSuspend(0)), "1 1"),
    (Step::By(1, Ask::TaskSuspend(-3)), "1 1"),
    (Step::By(1, Ask::TaskResume(2)), "1 1"),
    (Step::By(1, Ask::TaskResume(4)), "1 1"),
    (Step::By(1, Ask::TaskSuspend(3)), "0 0"),
    (Step::By(1, Ask::TaskSuspend(3)), "0 0"),
    (
        Step::Tasks,
        "1 ready, 2 killed, 3 ready suspended, live 1 3",
    ),
    (Step::By(1, Ask::TaskHnd("F")), "3 0"),
    (Step::By(1, Ask::TaskResume(3)), "0 0"),
    (Step::By(1, Ask::TaskResume(3)), "0 0"),
    (Step::Tasks, "1 ready, 2 killed, 3 ready, live 1 3"),
    (Step::By(3, Ask::End(0)), "ends"),
    (Step::Tasks, "1 ready, 2 killed, 3 ended 0, live 1"),
    (Step::By(3, Ask::SysTime), "can't ask"),
    (Step::By(1, Ask::TaskHnd("F")), "-1 5"),
    (Step::By(1, Ask::TaskKill(3)), "1 1"),
    (Step::By(1, Ask::TaskSuspend(1)), "0 0"),
    (
        Step::Tasks,
        "1 ready suspended, 2 killed, 3 ended 0, live 1",
    ),
    (Step::Script(Tell::Suspend(3)), "1 1"),
    (Step::Script(Tell::Suspend(-1)), "1 1"),
    (Step::Script(Tell::Resume(2)), "1 1"),
    (Step::Script(Tell::Resume(0)), "1 1"),
    (Step::Script(Tell::Kill(3)), "1 1"),
    (Step::Script(Tell::Kill(2)), "1 1"),
    (Step::Script(Tell::Kill(-1)), "1 1"),
    (Step::Script(Tell::Resume(1)), "0 0"),
    (Step::Tasks, "1 ready, 2 killed, 3 ended 0, live 1"),
    (Step::Script(Tell::Suspend(1)), "0 0"),
    (Step::Script(Tell::Kill(1)), "0 0"),
    (Step::Tasks, "1 killed suspended, 2 killed, 3 ended 0, live"),
    (Step::Script(Tell::Resume(1)), "1 1"),
    (Step::Script(Tell::Run("Late", "")), "4 0; starts 4: 6()"),
    (Step::By(4, Ask::End(13)), "ends"),
    (
        Step::Tasks,
        "1 killed suspended, 2 killed, 3 ended 0, 4 ended 13, live",
    ),
];

#[test]
fn each_answer_about_a_task(rt: HostRuntime) -> Result<(), Fail> {
    follow(&rt, rt.alloc(), 1, &TASKS)
}

static SUSPENSIONS: [Row; 23] = [
    (Step::By(1, Ask::SemOpen("s", 2)), "1 0"),
    (Step::By(1, Ask::SemWait(1, -1)), "0 0"),
    (Step::By(2, Ask::SemWait(1, -1)), "waits"),
    (Step::By(3, Ask::SemWait(1, -1)), "waits"),
    (Step::Script(Tell::Suspend(2)), "0 0"),
    (
        Step::Tasks,
        "1 ready, 2 waits semaphore 1 suspended, 3 waits semaphore 1, live 1 2 3",
    ),
    (Step::By(2, Ask::SysTime), "can't ask"),
    (Step::By(1, Ask::SemSignal(1)), "0 0; 2 gets 0 0"),
    (
        Step::Tasks,
        "1 ready, 2 ready suspended, 3 waits semaphore 1, live 1 2 3",
    ),
    (Step::By(1, Ask::TaskResume(2)), "0 0"),
    (Step::By(2, Ask::SleepMS(5)), "waits"),
    (Step::By(1, Ask::TaskSuspend(2)), "0 0"),
    (Step::Script(Tell::Tick(5)), "0 0; 2 gets 0 0"),
    (
        Step::Tasks,
        "1 ready, 2 ready suspended, 3 waits semaphore 1, live 1 2 3",
    ),
    (Step::Script(Tell::Resume(2)), "0 0"),
    (Step::By(2, Ask::Enter("a")), "0 0"),
    (Step::By(1, Ask::TaskSuspend(2)), "0 0"),
    (Step::By(1, Ask::Enter("a")), "waits"),
    (Step::Owner("a"), "2"),
    (
        Step::Tasks,
        "1 waits section \"a\", 2 ready suspended, 3 waits semaphore 1, live 1 2 3",
    ),
    (Step::Script(Tell::Resume(2)), "0 0"),
    (Step::By(2, Ask::Leave("a")), "0 0; 1 gets 0 0"),
    (Step::Owner("a"), "1"),
];

#[test]
fn a_suspended_task_keeps_its_place_and_is_answered(rt: HostRuntime) -> Result<(), Fail> {
    follow(&rt, rt.alloc(), 3, &SUSPENSIONS)
}

//! The clock.
use crate::play::{Row, follow};
use crate::steps::{Ask, Step, Tell};
use std::test::Fail;

static TICKS: [Row; 38] = [
    (Step::By(1, Ask::SemOpen("s", 2)), "1 0"),
    (Step::By(1, Ask::SemWait(1, 0)), "0 0"),
    (Step::By(5, Ask::SleepMS(1000)), "waits"),
    (Step::By(2, Ask::SemWait(1, 1)), "waits"),
    (Step::By(3, Ask::Sleep(1)), "waits"),
    (Step::By(4, Ask::SemWait(1, -1)), "waits"),
    (Step::Script(Tell::Tick(999)), "0 0"),
    (Step::By(1, Ask::SysTime), "999 0"),
    (
        Step::Script(Tell::Tick(1)),
        "0 0; 2 gets 2 2; 3 gets 0 0; 5 gets 0 0",
    ),
    (
        Step::Tasks,
        "1 ready, 2 ready, 3 ready, 4 waits semaphore 1, 5 ready, live 1 2 3 4 5",
    ),
    // The lesser limit comes first, and of equal ones the lesser number.
    (Step::By(5, Ask::SleepMS(30)), "waits"),
    (Step::By(3, Ask::SleepMS(20)), "waits"),
    (Step::By(2, Ask::SleepMS(30)), "waits"),
    (Step::By(1, Ask::SleepMS(10)), "waits"),
    (
        Step::Tasks,
        "1 waits clock, 2 waits clock, 3 waits clock, 4 waits semaphore 1, 5 waits clock, live 1 2 3 4 5",
    ),
    (Step::Script(Tell::Tick(29)), "0 0; 1 gets 0 0; 3 gets 0 0"),
    (
        Step::Script(Tell::Tick(1000000)),
        "0 0; 2 gets 0 0; 5 gets 0 0",
    ),
    (Step::Script(Tell::Tick(0)), "0 0"),
    (Step::By(1, Ask::Sleep(-1)), "10 10"),
    (Step::By(1, Ask::SleepMS(-1)), "10 10"),
    (Step::By(1, Ask::Sleep(0)), "0 0"),
    (Step::By(1, Ask::SleepMS(0)), "0 0"),
    // Who is answered before the limit is not answered at it.
    (Step::By(2, Ask::SemWait(1, 1)), "waits"),
    (Step::By(1, Ask::SemSignal(1)), "0 0; 4 gets 0 0"),
    (Step::By(1, Ask::SemSignal(1)), "0 0; 2 gets 0 0"),
    (Step::Script(Tell::Tick(1000)), "0 0"),
    (Step::By(2, Ask::SemWait(1, 1)), "waits"),
    (Step::By(1, Ask::SemClose(1)), "0 0; 2 gets 1 1"),
    (Step::Script(Tell::Tick(1000)), "0 0"),
    (Step::By(3, Ask::Sleep(2147483647)), "waits"),
    // The clock is told modulo 2^32.
    (Step::By(1, Ask::SysTime), "1003029 0"),
    (Step::Script(Tell::Tick(2147483647)), "0 0"),
    (Step::By(1, Ask::SysTime), "-2146480620 0"),
    (Step::Script(Tell::Tick(2146480619)), "0 0"),
    (Step::By(1, Ask::SysTime), "-1 0"),
    (Step::Script(Tell::Tick(1)), "0 0"),
    (Step::By(1, Ask::SysTime), "0 0"),
    (
        Step::Tasks,
        "1 ready, 2 ready, 3 waits clock, 4 ready, 5 ready, live 1 2 3 4 5",
    ),
];

#[test]
fn a_tick_answers_those_whose_limit_has_come_in_their_order(rt: HostRuntime) -> Result<(), Fail> {
    follow(&rt, rt.alloc(), 5, &TICKS)
}

//! Whole tasks: of a single trace, of tasks that share objects, and of those that never end by themselves.
use crate::answers::Heard;
use crate::arguments::Given;
use crate::sides::{MAIN, Row, compare, first_in_code};
use std::test::Fail;

static ALONE: [Row; 7] = [
    (
        "FUNCTION Main() TraceMsg(\"hi\"); END",
        MAIN,
        &[],
        "2 trace \"hi\", 0 end 0",
    ),
    (
        "FUNCTION Main() INT i; FOR i = 2147483646 TO 2147483647 DO TraceMsg(IntToStr(i)); END TraceMsg(IntToStr(i)); END",
        MAIN,
        &[],
        "4 trace \"2147483646\", 2 trace \"2147483647\", 1 trace \"2147483647\", 0 end 0",
    ),
    (
        "INT g = 0; INT h; FUNCTION Main() INT x; x = g AND h; END",
        MAIN,
        &[Heard::Int(0), Heard::Int(0)],
        "2 read 0, 0 read 1, 0 end 0",
    ),
    (
        "FUNCTION Main() STRING s; s = StrFill(\"x\", 255) + \"y\"; TraceMsg(IntToStr(StrLength(s))); END",
        MAIN,
        &[],
        "2 end 9",
    ),
    (
        "FUNCTION Main() STRING s; ErrSet(1); s = StrFill(\"x\", 255) + \"y\"; TraceMsg(IntToStr(StrLength(s))); END",
        MAIN,
        &[],
        "4 trace \"0\", 0 end 0",
    ),
    (
        "INT a[5]; FUNCTION Main() a[5] = 1; END",
        MAIN,
        &[],
        "2 end 7",
    ),
    (
        "FUNCTION Main() TraceMsg(IntToStr(-7 / 2)); TraceMsg(IntToStr(-7 MOD 2)); TraceMsg(IntToStr(0x80000000 / -1)); END",
        MAIN,
        &[],
        "2 trace \"-3\", 1 trace \"-1\", 1 trace \"-2147483648\", 0 end 0",
    ),
];

#[test]
fn tree_and_code_agree_on_a_task_alone(rt: HostRuntime) -> Result<(), Fail> {
    compare(&rt, rt.alloc(), &ALONE)
}

static ENDLESS: [Row; 1] = [(
    "FUNCTION Main() WHILE 1 DO END END",
    MAIN,
    &[],
    "no request",
)];

#[test]
fn tree_and_code_both_go_on_for_ever(rt: HostRuntime) -> Result<(), Fail> {
    compare(&rt, rt.alloc(), &ENDLESS)
}

// Each call takes a room of 16, so that 256 fit.
static DEEP: [Row; 1] = [(
    "FUNCTION Main() INT a, b, c, d, e, f, g, h, i, j, k, l, m, n, o; Main(); END",
    MAIN,
    &[],
    "512 end 12",
)];

#[test]
fn tree_and_code_agree_on_calls_that_are_too_deep(rt: HostRuntime) -> Result<(), Fail> {
    compare(&rt, rt.alloc(), &DEEP)
}

#[test]
fn the_4096_calls_of_the_least_room_fit_in_code(rt: HostRuntime) {
    let shown = first_in_code(rt.alloc(), "FUNCTION Main() Main(); END");
    assert_eq!(rt; shown.as_str(), "8192 end 12");
}

const QUEUE: &str =
    "FUNCTION R() INT n; STRING t; INT h = QueOpen(\"q\", 2); TraceMsg(IntToStr(QueRead(h, n, t, 1))); END FUNCTION C() QueClose(QueOpen(\"q\", 0)); END";

const SECTION: &str =
    "FUNCTION F() EnterCriticalSection(\"c\"); EnterCriticalSection(\"c\"); LeaveCriticalSection(\"c\"); Sleep(100); END FUNCTION G() EnterCriticalSection(\"c\"); TraceMsg(\"got\"); END";

const STARTING: &str =
    "FUNCTION F(INT n, STRING s) TraceMsg(IntToStr(n) + s); END FUNCTION Main() TaskNew(\"F\", \"1,^\"a,b^\"\", 0); TraceMsg(IntToStr(TaskNew(\"F\", \"1,\", 0))); TraceMsg(IntToStr(IsError())); END";

static TOGETHER: [Row; 10] = [
    (
        "FUNCTION W() INT h; h = SemOpen(\"s\", 2); SemWait(h, -1); TraceMsg(\"in\"); END",
        MAIN,
        &[Heard::Int(1), Heard::Int(0)],
        "2 semopen \"s\" 2, 1 semwait 1 -1, 1 trace \"in\", 0 end 0",
    ),
    (
        "FUNCTION Main() INT h = SemOpen(\"s\", 1); SemWait(h, 0); TraceMsg(IntToStr(SemWait(h, 1))); END",
        MAIN,
        &[Heard::Int(1), Heard::Int(0), Heard::Coded(2, 2)],
        "2 semopen \"s\" 1, 1 semwait 1 0, 1 semwait 1 1, 0 trace \"2\", 0 end 0",
    ),
    (
        QUEUE,
        MAIN,
        &[Heard::Int(1), Heard::Coded(1, 1)],
        "2 queopen \"q\" 2, 1 queread 1 1, 0 trace \"1\", 0 end 0",
    ),
    (
        QUEUE,
        (1, &[]),
        &[Heard::Int(1)],
        "2 queopen \"q\" 0, 0 queclose 1, 0 end 0",
    ),
    (
        SECTION,
        MAIN,
        &[],
        "2 enter \"c\", 1 enter \"c\", 1 leave \"c\", 1 sleep 100, 0 end 0",
    ),
    (
        SECTION,
        (1, &[]),
        &[],
        "2 enter \"c\", 1 trace \"got\", 0 end 0",
    ),
    (
        "FUNCTION Main() TraceMsg(IntToStr(LeaveCriticalSection(\"c\"))); END",
        MAIN,
        &[Heard::Coded(6, 6)],
        "2 leave \"c\", 0 trace \"6\", 0 end 0",
    ),
    (
        STARTING,
        (1, &[]),
        &[Heard::Int(2), Heard::Coded(-1, 10)],
        "2 tasknew \"F\" \"1,\"a,b\"\" 0, 1 tasknew \"F\" \"1,\" 0, 0 trace \"-1\", 1 trace \"10\", 0 end 0",
    ),
    (
        STARTING,
        (0, &[Given::Int(1), Given::Str("a,b")]),
        &[],
        "2 trace \"1a,b\", 0 end 0",
    ),
    (
        "GLOBAL STRING g; FUNCTION W(STRING s) g = s; g = s; g = s; END",
        (0, &[Given::Str("a")]),
        &[],
        "2 write 0 \"a\", 1 write 0 \"a\", 1 write 0 \"a\", 0 end 0",
    ),
];

#[test]
fn tree_and_code_agree_on_tasks_that_share_objects(rt: HostRuntime) -> Result<(), Fail> {
    compare(&rt, rt.alloc(), &TOGETHER)
}

const LOGGER: &str =
    "GLOBAL INT hLog = -1; FUNCTION Main() hLog = QueOpen(\"alarms\", 2); TaskNew(\"Logger\", \"\", 0); TaskNew(\"Producer\", \"10\", 0); END FUNCTION Logger() INT nType; STRING sText; WHILE QueRead(hLog, nType, sText, 1) = 0 DO EnterCriticalSection(\"print\"); TraceMsg(\"alarm \" + nType:### + \" \" + sText); LeaveCriticalSection(\"print\"); END END FUNCTION Producer(INT nCount) INT i; FOR i = 1 TO nCount DO Sleep(1); QueWrite(hLog, i, \"level high\"); END END";

static LOGGING: [Row; 3] = [
    (
        LOGGER,
        MAIN,
        &[Heard::Int(1), Heard::Int(0), Heard::Int(2), Heard::Int(3)],
        "2 queopen \"alarms\" 2, 0 write 0 1, 1 tasknew \"Logger\" \"\" 0, 1 tasknew \"Producer\" \"10\" 0, 0 end 0",
    ),
    (
        LOGGER,
        (1, &[]),
        &[
            Heard::Int(1),
            Heard::Element(7, "level high"),
            Heard::Int(0),
            Heard::Int(0),
            Heard::Int(0),
            Heard::Int(1),
            Heard::Coded(1, 1),
        ],
        "3 read 0, 0 queread 1 1, 1 enter \"print\", 1 trace \"alarm   7 level high\", 1 leave \"print\", 1 read 0, 0 queread 1 1, 0 end 0",
    ),
    (
        LOGGER,
        (2, &[Given::Int(2)]),
        &[
            Heard::Int(0),
            Heard::Int(1),
            Heard::Int(0),
            Heard::Int(0),
            Heard::Int(1),
        ],
        "4 sleep 1, 1 read 0, 0 quewrite 1 1 \"level high\", 2 sleep 1, 1 read 0, 0 quewrite 1 2 \"level high\", 1 end 0",
    ),
];

#[test]
fn tree_and_code_agree_on_a_logger(rt: HostRuntime) -> Result<(), Fail> {
    compare(&rt, rt.alloc(), &LOGGING)
}

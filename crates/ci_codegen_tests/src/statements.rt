//! Each statement.
use crate::answers::Heard;
use crate::sides::{MAIN, Row, compare};
use std::test::Fail;

static BRANCHES: [Row; 4] = [
    (
        "INT g; FUNCTION Main() IF g THEN TraceMsg(\"yes\"); ELSE TraceMsg(\"no\"); END TraceMsg(\"behind\"); END",
        MAIN,
        &[Heard::Int(5)],
        "2 read 0, 1 trace \"yes\", 1 trace \"behind\", 0 end 0",
    ),
    (
        "INT g; FUNCTION Main() IF g THEN TraceMsg(\"yes\"); ELSE TraceMsg(\"no\"); END TraceMsg(\"behind\"); END",
        MAIN,
        &[Heard::Int(0)],
        "2 read 0, 1 trace \"no\", 1 trace \"behind\", 0 end 0",
    ),
    (
        "INT g; FUNCTION Main() IF g THEN TraceMsg(\"yes\"); END TraceMsg(\"behind\"); END",
        MAIN,
        &[Heard::Int(-1)],
        "2 read 0, 1 trace \"yes\", 1 trace \"behind\", 0 end 0",
    ),
    (
        "INT g; FUNCTION Main() IF g THEN TraceMsg(\"yes\"); END TraceMsg(\"behind\"); END",
        MAIN,
        &[Heard::Int(0)],
        "2 read 0, 1 trace \"behind\", 0 end 0",
    ),
];

#[test]
fn tree_and_code_agree_on_if(rt: HostRuntime) -> Result<(), Fail> {
    compare(&rt, rt.alloc(), &BRANCHES)
}

static LOOPS: [Row; 5] = [
    (
        "INT g; FUNCTION Main() WHILE g < 3 DO g = g + 1; END END",
        MAIN,
        &[
            Heard::Int(1),
            Heard::Int(1),
            Heard::Int(0),
            Heard::Int(2),
            Heard::Int(2),
            Heard::Int(0),
            Heard::Int(3),
        ],
        "3 read 0, 1 read 0, 0 write 0 2, 1 read 0, 1 read 0, 0 write 0 3, 1 read 0, 0 end 0",
    ),
    // The bound is read once.
    (
        "INT g; FUNCTION Main() INT i; FOR i = 1 TO g DO TraceMsg(IntToStr(i)); END END",
        MAIN,
        &[Heard::Int(2)],
        "2 read 0, 2 trace \"1\", 2 trace \"2\", 1 end 0",
    ),
    (
        "FUNCTION Main() INT i; FOR i = 3 TO 2 DO TraceMsg(\"no\"); END TraceMsg(IntToStr(i)); END",
        MAIN,
        &[],
        "4 trace \"3\", 0 end 0",
    ),
    (
        "FUNCTION Main() INT i; FOR i = 1 TO 4 DO i = i + 1; END TraceMsg(IntToStr(i)); END",
        MAIN,
        &[],
        "8 trace \"5\", 0 end 0",
    ),
    // Another task sets the counter to 7 in the second turn.
    (
        "INT g; INT h; FUNCTION Main() FOR g = g TO h DO h = 0; END END",
        MAIN,
        &[
            Heard::Int(1),
            Heard::Int(2),
            Heard::Int(0),
            Heard::Int(1),
            Heard::Int(0),
            Heard::Int(1),
            Heard::Int(0),
            Heard::Int(2),
            Heard::Int(0),
            Heard::Int(7),
            Heard::Int(0),
            Heard::Int(8),
        ],
        "2 read 0, 0 read 1, 0 write 0 1, 1 read 0, 1 write 1 0, 0 read 0, 0 write 0 2, 1 read 0, 1 write 1 0, 0 read 0, 0 write 0 8, 1 read 0, 0 end 0",
    ),
];

#[test]
fn tree_and_code_agree_on_loops(rt: HostRuntime) -> Result<(), Fail> {
    compare(&rt, rt.alloc(), &LOOPS)
}

const NUMBERS: &str =
    "INT g; FUNCTION Main() SELECT CASE g CASE 1, 3 TraceMsg(\"list\"); CASE 5 TO 7 TraceMsg(\"range\"); CASE IS >= 9, IS < 0 TraceMsg(\"is\"); CASE ELSE TraceMsg(\"else\"); END SELECT END";

const TEXTS: &str =
    "STRING s; FUNCTION Main() SELECT CASE s CASE \"b\" TO \"d\" TraceMsg(\"in\"); CASE IS <> \"\" TraceMsg(\"out\"); END SELECT END";

static CHOICES: [Row; 10] = [
    (
        NUMBERS,
        MAIN,
        &[Heard::Int(3)],
        "2 read 0, 1 trace \"list\", 0 end 0",
    ),
    (
        NUMBERS,
        MAIN,
        &[Heard::Int(6)],
        "2 read 0, 1 trace \"range\", 0 end 0",
    ),
    (
        NUMBERS,
        MAIN,
        &[Heard::Int(9)],
        "2 read 0, 1 trace \"is\", 0 end 0",
    ),
    (
        NUMBERS,
        MAIN,
        &[Heard::Int(-1)],
        "2 read 0, 1 trace \"is\", 0 end 0",
    ),
    (
        NUMBERS,
        MAIN,
        &[Heard::Int(8)],
        "2 read 0, 1 trace \"else\", 0 end 0",
    ),
    (
        "INT g; FUNCTION Main() SELECT CASE g CASE 1 TraceMsg(\"no\"); END SELECT TraceMsg(\"behind\"); END",
        MAIN,
        &[Heard::Int(2)],
        "2 read 0, 1 trace \"behind\", 0 end 0",
    ),
    // What is selected by is read once, each label where it is reached.
    (
        "INT g; INT h; FUNCTION Main() SELECT CASE g CASE 1, h TraceMsg(\"a\"); CASE g TO h, IS = h TraceMsg(\"b\"); END SELECT END",
        MAIN,
        &[
            Heard::Int(3),
            Heard::Int(2),
            Heard::Int(4),
            Heard::Int(5),
            Heard::Int(3),
        ],
        "2 read 0, 0 read 1, 0 read 0, 0 read 1, 0 read 1, 1 trace \"b\", 0 end 0",
    ),
    (
        TEXTS,
        MAIN,
        &[Heard::Str("c")],
        "2 read 0, 1 trace \"in\", 0 end 0",
    ),
    (
        TEXTS,
        MAIN,
        &[Heard::Str("e")],
        "2 read 0, 1 trace \"out\", 0 end 0",
    ),
    (TEXTS, MAIN, &[Heard::Str("")], "2 read 0, 0 end 0"),
];

#[test]
fn tree_and_code_agree_on_select(rt: HostRuntime) -> Result<(), Fail> {
    compare(&rt, rt.alloc(), &CHOICES)
}

static LEAVING: [Row; 6] = [
    (
        "FUNCTION Main() F(); TraceMsg(IntToStr(G(2))); END FUNCTION F() RETURN; TraceMsg(\"no\"); END INT FUNCTION G(INT n) RETURN n * 10; END",
        MAIN,
        &[],
        "7 trace \"20\", 0 end 0",
    ),
    (
        "FUNCTION Main() TraceMsg(IntToStr(F(2))); END INT FUNCTION F(INT n) INT i; FOR i = 1 TO 9 DO SELECT CASE i CASE n WHILE 1 DO IF 1 THEN RETURN i * 10; END END END SELECT END RETURN -1; END",
        MAIN,
        &[],
        "12 trace \"20\", 0 end 0",
    ),
    (
        "FUNCTION Main() TraceMsg(S() + IntToStr(N())); END STRING FUNCTION S() END INT FUNCTION N() END",
        MAIN,
        &[],
        "4 trace \"0\", 0 end 0",
    ),
    (
        "INT g; FUNCTION Main() TraceMsg(IntToStr(1 + Halt() + g)); TraceMsg(\"no\"); END",
        MAIN,
        &[],
        "2 end 0",
    ),
    (
        "FUNCTION Main() F(); TraceMsg(\"no\"); END INT FUNCTION F() WHILE 1 DO IF 1 THEN Halt(); END END END",
        MAIN,
        &[],
        "7 end 0",
    ),
    (
        "FUNCTION Main() INT a = 2, b, c = a + 5; TraceMsg(IntToStr(b + c)); END",
        MAIN,
        &[],
        "4 trace \"7\", 0 end 0",
    ),
];

#[test]
fn tree_and_code_agree_on_returns_and_declarations(rt: HostRuntime) -> Result<(), Fail> {
    compare(&rt, rt.alloc(), &LEAVING)
}

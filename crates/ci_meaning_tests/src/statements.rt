//! Loops, SELECT, and what leaves a body.
use crate::stepping::{Heard, Row, compare};
use std::test::Fail;

static COUNTERS: [Row<'static>; 3] = [
    (
        "FUNCTION Main() INT i; FOR i = 2147483646 TO 2147483647 DO TraceMsg(IntToStr(i)); END TraceMsg(IntToStr(i)); END",
        &[],
        "4 trace \"2147483646\", 2 trace \"2147483647\", 1 trace \"2147483647\", 0 end 0",
    ),
    (
        "FUNCTION Main() INT i; FOR i = 3 TO 2 DO TraceMsg(\"no\"); END TraceMsg(IntToStr(i)); END",
        &[],
        "4 trace \"3\", 0 end 0",
    ),
    (
        "FUNCTION Main() INT i; FOR i = 1 TO 4 DO i = i + 1; END TraceMsg(IntToStr(i)); END",
        &[],
        "8 trace \"5\", 0 end 0",
    ),
];

#[test]
fn a_counter_stops_behind_its_bound_or_at_the_largest_int(rt: HostRuntime) -> Result<(), Fail> {
    compare(&rt, rt.alloc(), &COUNTERS)
}

static SHARED_COUNTERS: [Row<'static>; 2] = [
    (
        "INT g; FUNCTION Main() FOR g = 2147483646 TO 2147483647 DO END END",
        &[
            Heard::Int(0),
            Heard::Int(2147483646),
            Heard::Int(2147483646),
            Heard::Int(0),
            Heard::Int(2147483647),
            Heard::Int(2147483647),
        ],
        "2 write 0 2147483646, 1 read 0, 0 read 0, 0 write 0 2147483647, 1 read 0, 0 read 0, 0 end 0",
    ),
    // Both bounds are read once, the counter at each test and behind each body; another task sets it to 7.
    (
        "INT g; INT h; FUNCTION Main() FOR g = g TO h DO h = 0; END END",
        &[
            Heard::Int(1),
            Heard::Int(2),
            Heard::Int(0),
            Heard::Int(1),
            Heard::Int(0),
            Heard::Int(1),
            Heard::Int(0),
            Heard::Int(2),
            Heard::Int(0),
            Heard::Int(7),
            Heard::Int(0),
            Heard::Int(8),
        ],
        "2 read 0, 0 read 1, 0 write 0 1, 1 read 0, 1 write 1 0, 0 read 0, 0 write 0 2, 1 read 0, 1 write 1 0, 0 read 0, 0 write 0 8, 1 read 0, 0 end 0",
    ),
];

#[test]
fn a_shared_counter_is_set_and_read_by_requests(rt: HostRuntime) -> Result<(), Fail> {
    compare(&rt, rt.alloc(), &SHARED_COUNTERS)
}

static CHOICES: [Row<'static>; 4] = [
    (
        "FUNCTION Main() S(1); S(3); S(4); S(5); S(7); S(8); S(9); S(-1); END FUNCTION S(INT n) SELECT CASE n CASE 1, 3 TraceMsg(\"one\"); CASE 5 TO 7 TraceMsg(\"range\"); CASE IS >= 9, IS < 0 TraceMsg(\"is\"); CASE ELSE TraceMsg(\"else\"); END SELECT END",
        &[],
        "5 trace \"one\", 4 trace \"one\", 4 trace \"else\", 4 trace \"range\", 4 trace \"range\", 4 trace \"else\", 4 trace \"is\", 4 trace \"is\", 0 end 0",
    ),
    (
        "FUNCTION Main() S(\"c\"); S(\"e\"); S(\"\"); END FUNCTION S(STRING s) SELECT CASE s CASE \"b\" TO \"d\" TraceMsg(\"in\"); CASE IS <> \"\" TraceMsg(\"out\"); END SELECT END",
        &[],
        "5 trace \"in\", 4 trace \"out\", 3 end 0",
    ),
    // Both ends of a range are read, also where the low one decides; labels behind the first that is met aren't.
    (
        "INT g; INT h; FUNCTION Main() SELECT CASE 5 CASE 9 TO g TraceMsg(\"no\"); CASE 5, h TraceMsg(\"yes\"); CASE h TraceMsg(\"no\"); END SELECT END",
        &[Heard::Int(9)],
        "2 read 0, 1 trace \"yes\", 0 end 0",
    ),
    // What is selected by is read once.
    (
        "INT g; INT h; FUNCTION Main() SELECT CASE g CASE 1, h TraceMsg(\"a\"); CASE g TO h, IS = h TraceMsg(\"b\"); END SELECT END",
        &[
            Heard::Int(3),
            Heard::Int(2),
            Heard::Int(4),
            Heard::Int(5),
            Heard::Int(3),
        ],
        "2 read 0, 0 read 1, 0 read 0, 0 read 1, 0 read 1, 1 trace \"b\", 0 end 0",
    ),
];

#[test]
fn labels_are_tried_in_order(rt: HostRuntime) -> Result<(), Fail> {
    compare(&rt, rt.alloc(), &CHOICES)
}

static LEAVING: [Row<'static>; 4] = [
    (
        "FUNCTION Main() TraceMsg(IntToStr(F(2))); END INT FUNCTION F(INT n) INT i; FOR i = 1 TO 9 DO SELECT CASE i CASE n WHILE 1 DO IF 1 THEN RETURN i * 10; END END END SELECT END RETURN -1; END",
        &[],
        "12 trace \"20\", 0 end 0",
    ),
    (
        "FUNCTION Main() WHILE 1 DO SELECT CASE 1 CASE ELSE RETURN; END SELECT END TraceMsg(\"no\"); END",
        &[],
        "5 end 0",
    ),
    (
        "INT g; FUNCTION Main() TraceMsg(IntToStr(1 + Halt() + g)); TraceMsg(\"no\"); END",
        &[],
        "2 end 0",
    ),
    (
        "FUNCTION Main() F(); TraceMsg(\"no\"); END INT FUNCTION F() WHILE 1 DO IF 1 THEN Halt(); END END END",
        &[],
        "7 end 0",
    ),
];

#[test]
fn return_leaves_its_function_and_halt_the_task(rt: HostRuntime) -> Result<(), Fail> {
    compare(&rt, rt.alloc(), &LEAVING)
}

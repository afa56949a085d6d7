//! Expressions: in which order their parts are evaluated, calls, and QueRead.
use crate::stepping::{Heard, Row, compare};
use std::test::Fail;

static ORDER: [Row<'static>; 3] = [
    (
        "INT g = 0; INT h; FUNCTION Main() INT x; x = g AND h; x = g OR h; TraceMsg(IntToStr(x)); END",
        &[Heard::Int(0), Heard::Int(5), Heard::Int(7), Heard::Int(0)],
        "2 read 0, 0 read 1, 1 read 0, 0 read 1, 1 trace \"1\", 0 end 0",
    ),
    (
        "INT g; INT a[3]; FUNCTION Main() a[g] = g + a[g] * g; END",
        &[
            Heard::Int(2),
            Heard::Int(10),
            Heard::Int(1),
            Heard::Int(3),
            Heard::Int(4),
        ],
        "2 read 0, 0 read 0, 0 read 0, 0 read 2, 0 read 0, 0 write 3 22, 0 end 0",
    ),
    (
        "STRING s; FUNCTION Main() TraceMsg(\"a\" + s + s); END",
        &[Heard::Str("b"), Heard::Str("c")],
        "2 read 0, 0 read 0, 0 trace \"abc\", 0 end 0",
    ),
];

#[test]
fn both_sides_are_evaluated_from_left_to_right(rt: HostRuntime) -> Result<(), Fail> {
    compare(&rt, rt.alloc(), &ORDER)
}

static CALLS: [Row<'static>; 3] = [
    (
        "INT g; FUNCTION Main() F(g); F(g, 2); F(g, g, \"z\"); TaskHnd(); END FUNCTION F(INT a, INT b = 7, STRING c = \"d\") TraceMsg(IntToStr(a) + IntToStr(b) + c); END",
        &[
            Heard::Int(1),
            Heard::Int(0),
            Heard::Int(3),
            Heard::Int(0),
            Heard::Int(4),
            Heard::Int(5),
        ],
        "2 read 0, 2 trace \"17d\", 1 read 0, 2 trace \"32d\", 1 read 0, 0 read 0, 2 trace \"45z\", 1 taskhnd \"\", 0 end 0",
    ),
    (
        "FUNCTION Main() TraceMsg(S() + IntToStr(N())); END STRING FUNCTION S() END INT FUNCTION N() END",
        &[],
        "4 trace \"0\", 0 end 0",
    ),
    (
        "FUNCTION Main() INT x = 1; F(x); TraceMsg(IntToStr(x)); END FUNCTION F(INT a) a = 9; END",
        &[],
        "6 trace \"1\", 0 end 0",
    ),
];

#[test]
fn calls_have_their_arguments_and_values(rt: HostRuntime) -> Result<(), Fail> {
    compare(&rt, rt.alloc(), &CALLS)
}

static QUEUES: [Row<'static>; 1] = [(
    "INT g; STRING s; FUNCTION Main() INT n = 9; STRING t = \"old\"; TraceMsg(IntToStr(QueRead(4, n, t, 0)) + IntToStr(n) + t); TraceMsg(IntToStr(QueRead(4, n, t, 1)) + IntToStr(n) + t); QueRead(g, g, s, 0); TraceMsg(IntToStr(IsError() * 10 + IsError())); END",
    &[
        Heard::Coded(3, 3),
        Heard::Int(0),
        Heard::Element(5, "x"),
        Heard::Int(0),
        Heard::Int(7),
        Heard::Element(6, "y"),
    ],
    "4 queread 4 0, 0 trace \"39old\", 1 queread 4 1, 0 trace \"05x\", 1 read 0, 0 queread 7 0, 0 write 0 6, 0 write 1 \"y\", 1 trace \"30\", 0 end 0",
)];

#[test]
fn que_read_sets_its_variables_where_an_element_came(rt: HostRuntime) -> Result<(), Fail> {
    compare(&rt, rt.alloc(), &QUEUES)
}

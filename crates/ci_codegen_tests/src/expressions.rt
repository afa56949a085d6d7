//! Each expression, and run errors.
use crate::answers::Heard;
use crate::sides::{MAIN, Row, compare};
use std::test::Fail;

static OPERATORS: [Row; 6] = [
    (
        "INT g; INT h; FUNCTION Main() INT x; x = g AND h; x = g OR h; TraceMsg(IntToStr(x)); END",
        MAIN,
        &[Heard::Int(0), Heard::Int(5), Heard::Int(7), Heard::Int(0)],
        "2 read 0, 0 read 1, 1 read 0, 0 read 1, 1 trace \"1\", 0 end 0",
    ),
    (
        "FUNCTION Main() TraceMsg(IntToStr(12 BITAND 10) + \" \" + IntToStr(12 BITOR 10) + \" \" + IntToStr(12 BITXOR 10)); TraceMsg(IntToStr(NOT 5) + IntToStr(NOT 0) + IntToStr(-(-3))); END",
        MAIN,
        &[],
        "2 trace \"8 14 6\", 1 trace \"013\", 0 end 0",
    ),
    (
        "FUNCTION Main() TraceMsg(IntToStr((2 < 3) + (3 <= 3) * 2 + (2 > 3) * 4 + (3 >= 3) * 8 + (2 = 3) * 16 + (2 <> 3) * 32)); TraceMsg(IntToStr(2147483647 + 1) + \" \" + IntToStr(65536 * 65537) + \" \" + IntToStr(3 - 5)); END",
        MAIN,
        &[],
        "2 trace \"43\", 1 trace \"-2147483648 65536 -2\", 0 end 0",
    ),
    (
        "STRING s; FUNCTION Main() TraceMsg(\"a\" + s + s); TraceMsg(IntToStr((\"a\" < s) + (s < \"b\") * 2)); END",
        MAIN,
        &[
            Heard::Str("b"),
            Heard::Str("c"),
            Heard::Int(0),
            Heard::Str("b"),
            Heard::Str("b"),
        ],
        "2 read 0, 0 read 0, 0 trace \"abc\", 1 read 0, 0 read 0, 0 trace \"1\", 0 end 0",
    ),
    (
        "FUNCTION Main() TraceMsg(7:### + \"|\" + 12345:## + \"|\" + -4:###); END",
        MAIN,
        &[],
        "2 trace \"  7|12345| -4\", 0 end 0",
    ),
    (
        "INT g; INT a[3]; FUNCTION Main() a[g] = g + a[g] * g; END",
        MAIN,
        &[
            Heard::Int(2),
            Heard::Int(10),
            Heard::Int(1),
            Heard::Int(3),
            Heard::Int(4),
        ],
        "2 read 0, 0 read 0, 0 read 0, 0 read 2, 0 read 0, 0 write 3 22, 0 end 0",
    ),
];

#[test]
fn tree_and_code_agree_on_operators_and_elements(rt: HostRuntime) -> Result<(), Fail> {
    compare(&rt, rt.alloc(), &OPERATORS)
}

static CALLS: [Row; 4] = [
    (
        "INT g; FUNCTION Main() F(g); F(g, 2); F(g, g, \"z\"); END FUNCTION F(INT a, INT b = 7, STRING c = \"d\") TraceMsg(IntToStr(a) + IntToStr(b) + c); END",
        MAIN,
        &[
            Heard::Int(1),
            Heard::Int(0),
            Heard::Int(3),
            Heard::Int(0),
            Heard::Int(4),
            Heard::Int(5),
        ],
        "2 read 0, 2 trace \"17d\", 1 read 0, 2 trace \"32d\", 1 read 0, 0 read 0, 2 trace \"45z\", 0 end 0",
    ),
    (
        "FUNCTION Main() TraceMsg(StrLeft(\"abcdef\", 2) + StrRight(\"abcdef\", 2) + StrMid(\"abc\", 1, 9) + StrUpper(\"x\") + StrLower(\"Y\") + StrTrim(\" z \") + CharToStr(65)); TraceMsg(IntToStr(StrSearch(0, \"abc\", \"c\")) + IntToStr(StrGetChar(\"A\", 0)) + IntToStr(StrToInt(\" -12 \")) + IntToStr(Max(1, 2)) + IntToStr(Min(1, 2)) + IntToStr(Abs(-3))); Assert(1); END",
        MAIN,
        &[],
        "2 trace \"abefbcXyzA\", 1 trace \"265-12213\", 1 end 0",
    ),
    (
        "FUNCTION Main() TaskHnd(); TaskKill(TaskHnd(\"F\")); TaskSuspend(3); TaskResume(3); SleepMS(5); SysTime(); SemSignal(1); SemClose(1); TraceMsg(IntToStr(QueLength(2))); END",
        MAIN,
        &[
            Heard::Int(0),
            Heard::Int(4),
            Heard::Int(0),
            Heard::Int(0),
            Heard::Int(0),
            Heard::Int(0),
            Heard::Int(0),
            Heard::Int(0),
            Heard::Int(0),
            Heard::Coded(-1, 1),
        ],
        "2 taskhnd \"\", 1 taskhnd \"F\", 0 taskkill 4, 1 tasksuspend 3, 1 taskresume 3, 1 sleepms 5, 1 systime, 1 semsignal 1, 1 semclose 1, 1 quelength 2, 0 trace \"-1\", 0 end 0",
    ),
    (
        "INT g; STRING s; FUNCTION Main() INT n = 9; STRING t = \"old\"; TraceMsg(IntToStr(QueRead(4, n, t, 0)) + IntToStr(n) + t); TraceMsg(IntToStr(QueRead(4, n, t, 1)) + IntToStr(n) + t); QueRead(g, g, s, 0); TraceMsg(IntToStr(IsError() * 10 + IsError())); END",
        MAIN,
        &[
            Heard::Coded(3, 3),
            Heard::Int(0),
            Heard::Element(5, "x"),
            Heard::Int(0),
            Heard::Int(7),
            Heard::Element(6, "y"),
        ],
        "4 queread 4 0, 0 trace \"39old\", 1 queread 4 1, 0 trace \"05x\", 1 read 0, 0 queread 7 0, 0 write 0 6, 0 write 1 \"y\", 1 trace \"30\", 0 end 0",
    ),
];

#[test]
fn tree_and_code_agree_on_calls(rt: HostRuntime) -> Result<(), Fail> {
    compare(&rt, rt.alloc(), &CALLS)
}

const DIVIDING: &str =
    "INT g; FUNCTION Main() ErrSet(g); TraceMsg(IntToStr(5 / 0)); TraceMsg(IntToStr(IsError())); ErrSet(0); TraceMsg(IntToStr(5 MOD 0)); END";

static ERRORS: [Row; 7] = [
    (
        DIVIDING,
        MAIN,
        &[Heard::Int(1)],
        "2 read 0, 1 trace \"0\", 1 trace \"8\", 2 end 8",
    ),
    (DIVIDING, MAIN, &[Heard::Int(0)], "2 read 0, 1 end 8"),
    (
        "INT a[2]; FUNCTION Main() ErrSet(1); a[2] = a[1]; TraceMsg(IntToStr(IsError())); TraceMsg(IntToStr(a[-1] + 6)); TraceMsg(IntToStr(IsError() + IsError())); END",
        MAIN,
        &[Heard::Int(9)],
        "3 read 1, 1 trace \"7\", 1 trace \"6\", 1 trace \"7\", 0 end 0",
    ),
    (
        "STRING t[1]; FUNCTION Main() ErrSet(1); TraceMsg(t[1] + \"x\"); t[0] = \"y\"; END",
        MAIN,
        &[],
        "3 trace \"x\", 1 write 0 \"y\", 0 end 0",
    ),
    ("FUNCTION Main() Assert(0); END", MAIN, &[], "2 end 14"),
    (
        "FUNCTION Main() TraceMsg(IntToStr(StrToInt(\"1x\"))); END",
        MAIN,
        &[],
        "2 end 13",
    ),
    // A code that isn't 0 is kept until it is asked for.
    (
        "FUNCTION Main() SemWait(1, 0); TraceMsg(IntToStr(IsError())); TraceMsg(IntToStr(IsError())); TraceMsg(IntToStr(Sleep(-1))); TraceMsg(IntToStr(IsError())); END",
        MAIN,
        &[
            Heard::Coded(2, 2),
            Heard::Int(0),
            Heard::Int(0),
            Heard::Coded(10, 10),
        ],
        "2 semwait 1 0, 1 trace \"2\", 1 trace \"0\", 1 sleep -1, 0 trace \"10\", 1 trace \"10\", 0 end 0",
    ),
];

#[test]
fn tree_and_code_agree_on_errors(rt: HostRuntime) -> Result<(), Fail> {
    compare(&rt, rt.alloc(), &ERRORS)
}

//! Run errors, and calls too deep.
use crate::stepping::{Row, asks, compare};
use std::test::Fail;

static ENDING: [Row<'static>; 10] = [
    (
        "INT a[2]; FUNCTION Main() INT x = 5; x = a[2]; END",
        &[],
        "3 end 7",
    ),
    (
        "INT a[2]; FUNCTION Main() INT x = 5; x = a[-1]; END",
        &[],
        "3 end 7",
    ),
    (
        "INT a[2]; FUNCTION Main() INT x = 5; a[2] = x; END",
        &[],
        "3 end 7",
    ),
    ("FUNCTION Main() INT x = 5; x = x / 0; END", &[], "3 end 8"),
    (
        "FUNCTION Main() INT x = 5; x = x MOD 0; END",
        &[],
        "3 end 8",
    ),
    (
        "FUNCTION Main() TraceMsg(StrFill(\"x\", 255) + \"y\"); END",
        &[],
        "2 end 9",
    ),
    (
        "FUNCTION Main() TraceMsg(StrFill(\"ab\", 256)); END",
        &[],
        "2 end 9",
    ),
    (
        "FUNCTION Main() TraceMsg(IntToStr(StrToInt(\"1x\"))); END",
        &[],
        "2 end 13",
    ),
    ("FUNCTION Main() Assert(0); END", &[], "2 end 14"),
    (
        "FUNCTION Main() INT x = 5; ErrSet(1); ErrSet(0); x = x / 0; END",
        &[],
        "5 end 8",
    ),
];

#[test]
fn a_run_error_ends_the_task(rt: HostRuntime) -> Result<(), Fail> {
    compare(&rt, rt.alloc(), &ENDING)
}

static GOING_ON: [Row<'static>; 3] = [
    // 0 or the empty text stands for what has an error, and the number of the error is kept until it is asked for.
    (
        "INT a[2]; STRING t[1]; FUNCTION Main() INT x; ErrSet(1); x = 6 + a[2]; Say(x); x = a[-1]; Say(x); x = 8 / 0 + 1; Say(x); x = 7 MOD 0; Say(x); x = StrLength(t[1]) + 5; Say(x); Say(x); END FUNCTION Say(INT x) TraceMsg(IntToStr(x) + \" \" + IntToStr(IsError())); END",
        &[],
        "6 trace \"6 7\", 4 trace \"0 7\", 4 trace \"1 8\", 4 trace \"0 8\", 4 trace \"5 7\", 3 trace \"5 0\", 0 end 0",
    ),
    (
        "FUNCTION Main() INT x; ErrSet(1); x = StrToInt(\"1x\") + 2; Say(x); x = Assert(0) + 3; Say(x); x = StrLength(StrFill(\"x\", 255) + \"y\"); Say(x); x = StrLength(StrFill(\"ab\", 256)) + 4; Say(x); END FUNCTION Say(INT x) TraceMsg(IntToStr(x) + \" \" + IntToStr(IsError())); END",
        &[],
        "6 trace \"2 13\", 4 trace \"3 14\", 4 trace \"0 9\", 4 trace \"4 9\", 0 end 0",
    ),
    // A value for an element that isn't there is evaluated, and dropped; an index with an error is 0.
    (
        "INT a[2]; FUNCTION Main() ErrSet(1); a[2] = a[1]; Say(); a[1 / 0] = 4; Say(); a[-1] = 1 / 0; Say(); END FUNCTION Say() TraceMsg(IntToStr(IsError())); END",
        &[],
        "3 read 1, 3 trace \"7\", 1 write 0 4, 3 trace \"8\", 4 trace \"7\", 0 end 0",
    ),
];

#[test]
fn a_task_that_goes_on_drops_what_it_would_store(rt: HostRuntime) -> Result<(), Fail> {
    compare(&rt, rt.alloc(), &GOING_ON)
}

/// So many locals that a function of one parameter has all that it may have.
const LOCALS: &str =
    "l1, l2, l3, l4, l5, l6, l7, l8, l9, l10, l11, l12, l13, l14, l15, l16, l17, l18, l19, l20, l21, l22, l23, l24, l25, l26, l27, l28, l29, l30, l31, l32, l33, l34, l35, l36, l37, l38, l39, l40, l41, l42, l43, l44, l45, l46, l47, l48, l49, l50, l51, l52, l53, l54, l55, l56, l57, l58, l59, l60, l61, l62, l63";

#[test]
fn a_call_that_is_too_deep_ends_the_task(rt: HostRuntime) -> Result<(), Fail> {
    let alloc = rt.alloc();
    // A function of 64 locals, of which 63 fit behind a room of 1, and 62 behind one of 2.
    let full = format!(in alloc;
        "FUNCTION Main() F(0); END FUNCTION F(INT n) INT {LOCALS}; F(n); END"
    )?;
    let nested = format!(in alloc;
        "FUNCTION Main() TraceMsg(IntToStr(Max(1, F(0)))); END INT FUNCTION F(INT n) INT {LOCALS}; RETURN F(n); END"
    )?;
    let going_on = format!(in alloc;
        "FUNCTION Main() ErrSet(1); TraceMsg(IntToStr(Max(1, F(0)))); END INT FUNCTION F(INT n) INT {LOCALS}; RETURN F(n); END"
    )?;
    // One that takes a room of 66. Its argument is read before the call is refused.
    let read = format!(in alloc;
        "INT g; FUNCTION Main() F(61); END FUNCTION F(INT n) INT {LOCALS}; IF n THEN F(n - 1); ELSE F(g); END END"
    )?;
    // A function that is left gives its room back.
    let twice = format!(in alloc;
        "FUNCTION Main() F(61); F(61); END FUNCTION F(INT n) INT {LOCALS}; IF n THEN F(n - 1); END END"
    )?;
    asks(&rt, alloc, full.as_str(), &[], "128 end 12")?;
    asks(&rt, alloc, nested.as_str(), &[], "126 end 12")?;
    asks(&rt, alloc, going_on.as_str(), &[], "127 end 12")?;
    asks(&rt, alloc, read.as_str(), &[], "188 read 0, 0 end 12")?;
    asks(&rt, alloc, twice.as_str(), &[], "373 end 0")
}

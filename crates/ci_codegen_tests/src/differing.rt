//! Where the code is that of another source, the comparison finds it, also behind the second answer.
use crate::answers::Heard;
use crate::programs::program;
use crate::shown::Shown;
use crate::sides::{MAIN, asked};
use std::alloc::Global;
use std::process::Abort;
use std::test::Fail;

/// The source of the tree, that of the code, what both hear, and their requests up to where they differ: there that of the tree
/// and that of the code.
type Differing = (&'static str, &'static str, &'static [Heard], &'static str);

/// What a task on the tree of the one source and a task in the code of the other ask for.
fn asked_of(alloc: Global, tree: &str, coded: &str, heard: &[Heard]) -> Shown {
    asked(
        alloc,
        &program(alloc, tree),
        &program(alloc, coded),
        MAIN,
        heard,
    )
}

/// Asserts that the tasks of each row differ there.
fn differ(rt: &impl Abort, alloc: Global, rows: &[Differing]) -> Result<(), Fail> {
    for (tree, coded, heard, want) in rows {
        let shown = asked_of(alloc, tree, coded, heard);
        assert_eq!(rt; shown.as_str(), *want, "tree of {tree}");
    }
    Ok(())
}

static ROWS: [Differing; 5] = [
    (
        "FUNCTION Main() TraceMsg(\"a\"); TraceMsg(\"b\"); TraceMsg(\"c\"); END",
        "FUNCTION Main() TraceMsg(\"a\"); TraceMsg(\"b\"); TraceMsg(\"d\"); END",
        &[],
        "2 trace \"a\", 1 trace \"b\", 1 trace \"c\" | 1 trace \"d\"",
    ),
    (
        "FUNCTION Main() INT x; TraceMsg(\"a\"); TraceMsg(\"b\"); TraceMsg(\"c\"); END",
        "FUNCTION Main() INT x; TraceMsg(\"a\"); TraceMsg(\"b\"); x = 1; TraceMsg(\"c\"); END",
        &[],
        "2 trace \"a\", 1 trace \"b\", 1 trace \"c\" | 2 trace \"c\"",
    ),
    (
        "FUNCTION Main() TraceMsg(\"a\"); TraceMsg(IntToStr(QueLength(1))); END",
        "FUNCTION Main() TraceMsg(\"a\"); TraceMsg(IntToStr(QueLength(1) + IsError())); END",
        &[Heard::Int(0), Heard::Coded(-1, 1)],
        "2 trace \"a\", 1 quelength 1, 0 trace \"-1\" | 0 trace \"0\"",
    ),
    (
        "INT g; FUNCTION Main() INT x; x = g; x = g; END",
        "INT g; FUNCTION Main() INT x; x = g; x = g; WHILE 1 DO END END",
        &[],
        "2 read 0, 1 read 0, 0 end 0 | no request",
    ),
    (
        "INT g; FUNCTION Main() INT x; x = g; x = g; WHILE 1 DO END END",
        "INT g; FUNCTION Main() INT x; x = g; x = g; END",
        &[],
        "2 read 0, 1 read 0, no request | 0 end 0",
    ),
];

#[test]
fn code_that_differs_behind_its_second_answer_is_found(rt: HostRuntime) -> Result<(), Fail> {
    differ(&rt, rt.alloc(), &ROWS)
}

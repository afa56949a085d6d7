//! Orders that are refused or approved keep nothing.
use crate::doing::{is_refusal, order};
use std::test::Fail;

/// A shelf with a source that compiles and one that doesn't, and a script whose second line is none.
const SHELF: [(&str, &[u8]); 3] = [
    ("a.ci", b"FUNCTION Main() TraceMsg(\"hi\"); END"),
    ("b.ci", b"FUNCTION F()\n  nosuch = 1;\nEND"),
    ("s", b"run Main()\ntock 5\n"),
];

/// The listing of the first source.
const LISTING: &str =
    "function 0 Main locals 0 room 1\n0 Tick\n1 Tick\n2 PushStr \"hi\"\n3 Ask Trace\n4 Drop\n5 PushInt 0\n6 Return\n";

/// Words, the number of the fetch that fails, how much is put at once, the number of the put that fails, what is put in the
/// end, and the status; 0 is no call.
static ROWS: [(&str, u64, usize, u64, &str, u8); 20] = [
    ("check a.ci", 0, 4096, 0, "ok\n", 0),
    ("check a.ci b.ci", 0, 4096, 0, "b.ci:2:3: name unknown\n", 1),
    ("run", 1, 4096, 0, "words 1: no file\n", 2),
    (
        "replay a.ci --from j",
        1,
        4096,
        0,
        "words 0: form not built\n",
        2,
    ),
    (
        "run a.ci --journal",
        1,
        4096,
        0,
        "words 0: form not built\n",
        2,
    ),
    ("make 0", 1, 4096, 0, "words 1: out of range\n", 2),
    (
        "run a.ci --script s",
        0,
        4096,
        0,
        "script line 2: unknown event\n",
        4,
    ),
    // Of two refusals that of the sources comes first.
    (
        "run b.ci --script s",
        0,
        4096,
        0,
        "b.ci:2:3: name unknown\n",
        1,
    ),
    (
        "run a.ci b.ci --script t",
        0,
        4096,
        0,
        "file 3 absent: t\n",
        3,
    ),
    (
        "run a.ci --script s",
        2,
        4096,
        0,
        "file 2 read fault: s\n",
        15,
    ),
    ("run a.ci --script s", 0, 1, 9, "script l", 5),
    ("list a.ci", 0, 4096, 0, LISTING, 0),
    ("list a.ci b.ci", 0, 4096, 0, "b.ci:2:3: name unknown\n", 1),
    (
        "run a.ci --workers 1",
        1,
        4096,
        0,
        "words 3: out of range\n",
        2,
    ),
    ("run x.ci", 0, 4096, 0, "file 1 absent: x.ci\n", 3),
    ("run a.ci", 1, 4096, 0, "file 1 read fault: a.ci\n", 15),
    (
        "check a.ci b.ci",
        2,
        4096,
        0,
        "file 2 read fault: b.ci\n",
        15,
    ),
    ("check a.ci", 0, 1, 2, "o", 5),
    ("run", 0, 1, 7, "words ", 5),
    ("check b.ci", 0, 1, 8, "b.ci:2:", 5),
];

#[test]
fn orders_without_a_run_keep_nothing(rt: HostRuntime) -> Result<(), Fail> {
    for (line, failing_fetch, most, failing_put, put, status) in ROWS.iter().copied() {
        assert!(rt; 0 < most);
        let done = order(rt.alloc(), line, &SHELF, failing_fetch, most, failing_put)?;
        assert_eq!(rt; done.put.bytes(), put.as_bytes(), "{line}");
        assert_eq!(rt; done.outcome.status, status, "{line}");
        assert!(rt; is_refusal(&done.outcome), "{line}");
    }
    Ok(())
}

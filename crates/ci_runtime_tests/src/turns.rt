//! Turns of all lengths, beside a run on a plain state.
use crate::plain::plain_run;
use crate::running::journal;
use std::alloc::Global;
use std::process::Abort;
use std::str::from_utf8;
use std::test::Fail;

const SOURCE: &str = "GLOBAL STRING g; FUNCTION W(STRING s) g = s; g = s; g = s; END";

const SCRIPT: &str = "run W(\"a\")\nsoon run W(\"b\")\n";

/// Slices of turns.
static SLICES: [u32; 4] = [1, 2, 3, 1_000];

/// Budgets that end the run before the second event, on the way to the first request, behind it, behind a later one, and before the
/// last request; and one that is just enough.
static BUDGETS: [u32; 6] = [200, 301, 402, 505, 1_008, 1_009];

/// Asserts that a run has the entries, the loose ticks and the ending of the run on the plain state.
fn compare(rt: &impl Abort, alloc: Global, slice: u32, budget: u32) -> Result<(), Fail> {
    let shown = journal(alloc, SOURCE, SCRIPT, slice, budget);
    let plain = plain_run(slice, budget);
    let want = from_utf8(plain.bytes())?;
    assert_eq!(rt;
        from_utf8(shown.bytes())?,
        want,
        "slice {slice} budget {budget}"
    );
    Ok(())
}

/// Asserts the same of each budget.
fn compare_all(rt: &impl Abort, alloc: Global, slice: u32) -> Result<(), Fail> {
    for budget in &BUDGETS {
        compare(rt, alloc, slice, *budget)?;
    }
    Ok(())
}

#[test]
fn turns_of_each_length_are_as_on_a_plain_state(rt: HostRuntime) -> Result<(), Fail> {
    for slice in &SLICES {
        compare_all(&rt, rt.alloc(), *slice)?;
    }
    Ok(())
}

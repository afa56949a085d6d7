//! What words ask for, which isn't seen from outside, and a fault of the words.
use ci_base::{Bytes, Limits};
use ci_words::{Command, Order, fault_text, read_words, words_have_one_answer};
use std::alloc::Global;
use std::process::Abort;
use std::test::Fail;

/// The words of a line, with one space between two of them.
fn words_of(alloc: Global, line: &str) -> Result<Vec<Bytes>, Fail> {
    let mut words = Vec::new(alloc);
    for word in line.split(' ') {
        words.push(Bytes::copy(alloc, word.as_bytes())?)?;
    }
    Ok(words)
}

/// The order of these words.
fn order_of(rt: &impl Abort, alloc: Global, line: &str) -> Result<Order, Fail> {
    let words = words_of(alloc, line)?;
    assert!(rt; words.len() < 1000);
    match read_words(words.as_slice()) {
        Ok(order) => Ok(order),
        Err(fault) => Err(Fail::from(fault_text(fault.number))),
    }
}

#[test]
fn an_order_has_its_options_and_defaults(rt: HostRuntime) -> Result<(), Fail> {
    words_have_one_answer();
    let line = "run --slice 1 a --budget 200 b --workers 0 --script s --journal c";
    let order = order_of(&rt, rt.alloc(), line)?;
    let limits = Limits {
        slice: 1,
        budget: 200,
        workers: 0,
    };
    assert_eq!(rt; order.command, Command::Run);
    assert_eq!(rt; order.limits, limits);
    assert_eq!(rt; order.slice_at, Some(2));
    assert_eq!(rt; order.budget_at, Some(5));
    assert_eq!(rt; order.workers_at, Some(8));
    assert_eq!(rt; order.script, Some(10));
    assert!(rt; order.as_journal);
    assert_eq!(rt; order.files.indexes(), [3, 6, 12].as_slice());
    Ok(())
}

/// What a line asks for: its command, its slice and budget, where its journal stands, its number, and its first file.
type Row = (
    &'static str,
    Command,
    u32,
    u32,
    Option<u32>,
    u32,
    Option<u32>,
);

#[test]
fn orders_have_their_defaults(rt: HostRuntime) -> Result<(), Fail> {
    let rows: [Row; 5] = [
        ("run  a", Command::Run, 1000, 10_000_000, None, 0, Some(1)),
        ("list a", Command::List, 1000, 10_000_000, None, 0, Some(1)),
        (
            "check a",
            Command::Check,
            1000,
            10_000_000,
            None,
            0,
            Some(1),
        ),
        (
            "replay --from j --budget 0200 a",
            Command::Replay,
            1000,
            200,
            Some(2),
            0,
            Some(5),
        ),
        (
            "make --workers 3 0900",
            Command::Make,
            1000,
            10_000_000,
            None,
            900,
            None,
        ),
    ];
    for (line, command, slice, budget, journal, number, file) in rows {
        let order = order_of(&rt, rt.alloc(), line)?;
        assert_eq!(rt; order.command, command, "{line}");
        assert_eq!(rt; order.limits.slice, slice, "{line}");
        assert_eq!(rt; order.limits.budget, budget, "{line}");
        assert_eq!(rt; order.journal, journal, "{line}");
        assert_eq!(rt; order.number, number, "{line}");
        assert_eq!(rt; order.files.indexes().first().copied(), file, "{line}");
    }
    Ok(())
}

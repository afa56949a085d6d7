//! How long serving takes.
use crate::play::Play;
use crate::steps::{Ask, Step, request};
use std::alloc::Global;
use std::test::Fail;
use std::time::{Clock, Instant};

/// So many traces, reads and writes of the task.
fn ask(play: &mut Play, task: u32, rounds: u32) {
    let trace = request(Ask::Trace("x"));
    let read = request(Ask::ReadCount);
    let write = request(Ask::WriteCount(5));
    for _ in 0..rounds {
        let _trace = play.serve(task, &trace);
        let _read = play.serve(task, &read);
        let _write = play.serve(task, &write);
    }
}

/// The microseconds that so many traces, reads and writes of the task take.
fn micros(clock: &impl Clock, play: &mut Play, task: u32, rounds: u32) -> Result<u64, Fail> {
    let start = Instant::now(clock)?;
    ask(play, task, rounds);
    let passed = start.elapsed(clock)?;
    Ok(passed.as_secs() % 1_000_000 * 1_000_000 + u64::from(passed.subsec_micros()))
}

/// The microseconds that 5,000 traces, reads and writes of the last task take beside so many cells besides three, where all
/// tasks before it have been killed.
fn micros_beside(clock: &impl Clock, alloc: Global, cells: usize, last: u16) -> Result<u64, Fail> {
    let mut play = Play::new(alloc, cells)?;
    let _first = play.told(Step::Starts(1));
    let _others = play.told(Step::Follows(1, i32::from(last)));
    micros(clock, &mut play, u32::from(last), 5_000)
}

/// A trace, a read and a write walk over no tasks that have ended, and over no other cells.
#[test]
fn serving_is_as_fast_beside_4000_ended_tasks_and_100000_cells(
    rt: HostRuntime,
) -> Result<(), Fail> {
    let alone = micros_beside(&rt, rt.alloc(), 0, 1)?;
    let beside = micros_beside(&rt, rt.alloc(), 99_997, 4_001)?;
    println!(rt;
        "15000 requests: {alone} microseconds alone, {beside} beside 4000 ended tasks and 100000 cells"
    )?;
    assert!(rt; beside / 20 <= alone);
    Ok(())
}

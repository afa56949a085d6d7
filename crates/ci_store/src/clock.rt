//! The clock, and those who wait for it.
ghost use Rattle.std.specs.Prelude.{◌≡◌, ◌≤◌, ◌<◌, ◌+◌, ◌^◌, ◌++◌, length};
ghost use Rattle.ci_base.specs.declared.bounds.TheConstants.{MOST_LIVE_TASKS};
ghost use Rattle.ci_shared.specs.Roster.{lines_after};
ghost use Rattle.ci_shared.specs.State.{attempted};
ghost use Rattle.ci_shared.specs.Steps.{due, late, sleep, tick};
ghost use Rattle.ci_shared.specs.Words.{whole};
ghost use Rattle.ci_store.specs.Done.{CanAsk, Does, IsClear, Serves};
ghost use Rattle.ci_store.specs.Stored.{shared_of};

use crate::parts::{Parts, free};
use ci_base::{Answer, Delivery, Place, Reply, Woken};
use ci_lines::Lines;
use ci_shared::answers::coded;
use ci_shared::words::whole;

/// The task sleeps so many units, each of so many milliseconds.
pub(crate) fn sleep(parts: &mut Parts, task: u32, n: i32, unit: u64) -> Reply
    requires clear { IsClear parts.old }
    requires asker { CanAsk parts.old task }
    requires unit { unit ≤ 1000 }
    ensures { Serves (attempted (shared_of parts.old) task (sleep parts.old.clock n unit)) result parts.old parts.new }
{
    if n < 0 {
        return Reply::Answer(coded(10));
    }
    if n == 0 {
        return Reply::Answer(coded(0));
    }
    let limit = parts.clock + n as u64 * unit;
    parts.lines.join(Place::Clock, task, Some(limit));
    parts.tasks.set_waits(task, true);
    Reply::Waits
}

/// The clock gains so many milliseconds, and all whose limit has come are answered.
pub(crate) fn tick(parts: &mut Parts, ms: i32) -> Answer
    requires clear { IsClear parts.old }
    requires early { parts.old.clock + whole ms < 2 ^ 62 }
    ensures { Does (tick (shared_of parts.old) (whole ms)) result parts.old parts.new }
{
    parts.clock += u64::from(whole(ms));
    answer_due(&mut parts.lines, parts.clock, &mut parts.woken);
    free(&mut parts.tasks, parts.woken.deliveries());
    coded(0)
}

// All whose limit has come leave their lines and are answered, by limit and then by task.
fn answer_due(lines: &mut Lines, now: u64, woken: &mut Woken)
    requires { length woken.old + length lines.old ≤ MOST_LIVE_TASKS }
    ensures lines { lines.new ≡ lines_after (due now lines.old) lines.old }
    ensures woken { woken.new ≡ woken.old ++ due now lines.old }
{
    while let Some((task, place)) = lines.take_due(now) {
        woken.add(Delivery {
            task,
            answer: late(&place),
        });
    }
}

// What a waiter at the place gets at its limit.
fn late(place: &Place) -> Answer
    ensures { result ≡ late place.now }
{
    match place {
        Place::Semaphore(_) => coded(2),
        Place::Queue(_) => coded(1),
        Place::Section(_) => coded(0),
        Place::Clock => coded(0),
    }
}

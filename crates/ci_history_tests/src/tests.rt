//! Reports of histories that are put together by hand.
use ci_base::{
    Answer, Ending, Entry, Event, EventKind, EventReply, Extra, Place, Reply, Request, Status,
    Text, Value,
};
use ci_history::{EndState, History, TaskEnd, TaskEndList};
use ci_outside::{MemSink, NumberList};
use std::test::Fail;

/// A short text.
fn text(bytes: &str) -> Result<Text, Fail> {
    Ok(Text::of(bytes.as_bytes()).ok_or("a long text")?)
}

/// The entry of a task's request that is answered 0.
fn ask(task: u32, ticks: u32, request: Request) -> Entry {
    Entry::Ask {
        task,
        ticks,
        request,
        reply: Reply::Answer(Answer {
            value: Value::Int(0),
            code: 0,
            extra: Extra::Nothing,
        }),
    }
}

/// A task whose function has this name, and that waits nowhere.
fn end(name: &str, status: Status, suspended: bool) -> Result<TaskEnd, Fail> {
    Ok(TaskEnd {
        name: text(name)?,
        status,
        suspended,
        place: None,
        owner: None,
    })
}

/// A task that waits there.
fn waiting(name: &str, suspended: bool, place: Place, owner: Option<u32>) -> Result<TaskEnd, Fail> {
    Ok(TaskEnd {
        name: text(name)?,
        status: Status::Waits,
        suspended,
        place: Some(place),
        owner,
    })
}

/// The report of the run of `FUNCTION Main() TraceMsg("hi"); END`, put one byte at a time.
#[test]
fn one_trace(rt: HostRuntime) -> Result<(), Fail> {
    let alloc = rt.alloc();
    let mut history = History::room(alloc, 3)?;
    history.add(Entry::Script {
        event: Event {
            soon: false,
            what: EventKind::Run {
                name: text("Main")?,
                list: text("")?,
            },
        },
        reply: EventReply { value: 1, code: 0 },
    });
    history.add(ask(1, 2, Request::Trace { text: text("hi")? }));
    history.add(Entry::Ask {
        task: 1,
        ticks: 0,
        request: Request::End { code: 0 },
        reply: Reply::Ends,
    });
    let mut tasks = TaskEndList::room(alloc)?;
    tasks.add(end("Main", Status::Ended(0), false)?);
    let state = EndState {
        tasks,
        work: 302,
        instructions: 7,
        ending: Ending::Finished,
    };
    let mut out = MemSink::of(alloc, 1, NumberList::empty(alloc));
    history.write_report(&state, &mut out)?;
    let want = b"1 hi\ntask 1 Main ended 0\nfinished entries 3 work 302 instructions 7\n";
    assert_eq!(rt; out.bytes(), want.as_slice());
    assert_eq!(rt; history.entries().len(), 3);
    Ok(())
}

/// How a task stands, in all ways; only a live one is told as suspended. A count above the greatest is told as that.
#[test]
fn each_standing(rt: HostRuntime) -> Result<(), Fail> {
    let alloc = rt.alloc();
    let mut tasks = TaskEndList::room(alloc)?;
    tasks.add(end("A", Status::Ready, false)?);
    tasks.add(end("B", Status::Ready, true)?);
    tasks.add(end("C", Status::Ended(12), true)?);
    tasks.add(end("D", Status::Killed, true)?);
    tasks.add(waiting("E", false, Place::Semaphore(1), None)?);
    tasks.add(waiting("F", true, Place::Queue(2147483647), None)?);
    tasks.add(waiting("G", false, Place::Section(text("a\"^\n\t~\x7f")?), Some(1))?);
    tasks.add(waiting("H", true, Place::Clock, None)?);
    let state = EndState {
        tasks,
        work: 100_000_000,
        instructions: u64::MAX,
        ending: Ending::Resting,
    };
    let mut out = MemSink::of(alloc, 7, NumberList::empty(alloc));
    History::empty(alloc).write_report(&state, &mut out)?;
    let want =
        b"task 1 A ready\ntask 2 B ready suspended\ntask 3 C faulted 12\ntask 4 D killed\ntask 5 E waits semaphore 1\ntask 6 F waits queue 2147483647 suspended\ntask 7 G waits section \"a^\"^^^n^t~^0x7f\"\ntask 8 H waits clock suspended\nresting entries 0 work 100000000 instructions 9223372036854775807\n";
    assert_eq!(rt; out.bytes(), want.as_slice());
    Ok(())
}

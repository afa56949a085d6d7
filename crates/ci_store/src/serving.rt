//! Each request and each event, by its row.
ghost use Rattle.std.specs.Prelude.{◌≡◌, ◌<◌, ◌+◌, ◌^◌, pos, nat_eq, if◌then◌else◌};
ghost use Rattle.ci_base.specs.declared.reply.Reply.TheVariants as replies;
ghost use Rattle.ci_base.specs.Numbers.{wrap};
ghost use Rattle.ci_shared.specs.Laws.{IsFormed, gained};
ghost use Rattle.ci_shared.specs.Roster.{Ended, Killed};
ghost use Rattle.ci_shared.specs.Rows.{number, plain};
ghost use Rattle.ci_shared.specs.Serving.{apply, script};
ghost use Rattle.ci_shared.specs.State.{as_reply};
ghost use Rattle.ci_shared.specs.Steps.{gone, kill};
ghost use Rattle.ci_shared.specs.Words.{whole};
ghost use Rattle.ci_store.specs.Done.{CanAsk, Does, Happens, IsClear, Serves};
ghost use Rattle.ci_store.specs.Stored.{basis_in, shared_of};

use crate::parts::{Parts, told};
use crate::{cells, clock, objects, tasks};
use ci_base::{Answer, EventKind, EventReply, Reply, Request};
use ci_shared::answers::{coded, numbered};
use ci_shared::words::whole;

/// A request of a task that is ready.
pub(crate) fn serve(parts: &mut Parts, task: u32, request: &Request) -> Reply
    requires clear { IsClear parts.old }
    requires asker { CanAsk parts.old task }
    requires formed { IsFormed (basis_in parts.old) request.now }
    ensures { Serves (apply (basis_in parts.old) (shared_of parts.old) task request.now) result parts.old parts.new }
{
    let answer = match request {
        Request::Read { cell } => cells::read(parts, *cell),
        Request::Write { cell, value } => cells::write(parts, *cell, value),
        Request::TaskNew {
            name,
            list,
            mode: _,
        } => tasks::start(parts, name, list),
        Request::TaskKill { n } => return kill(parts, task, *n),
        Request::TaskSuspend { n } => tasks::suspend(parts, *n),
        Request::TaskResume { n } => tasks::resume(parts, *n),
        Request::TaskHnd { name } => tasks::handle(parts, task, name),
        Request::Sleep { n } => return clock::sleep(parts, task, *n, 1000),
        Request::SleepMS { n } => return clock::sleep(parts, task, *n, 1),
        Request::SemOpen { name, mode } => objects::open_semaphore(parts, name, *mode),
        Request::SemWait { number, n } => return objects::wait(parts, task, *number, *n),
        Request::SemSignal { number } => objects::signal(parts, *number),
        Request::SemClose { number } => objects::close_semaphore(parts, *number),
        Request::QueOpen { name, mode } => objects::open_queue(parts, name, *mode),
        Request::QueWrite { number, sort, text } => objects::write(parts, *number, *sort, text),
        Request::QueRead { number, mode } => return objects::read(parts, task, *number, *mode),
        Request::QueLength { number } => parts.queues.length(*number),
        Request::QueClose { number } => objects::close_queue(parts, *number),
        Request::Enter { text } => return objects::enter(parts, task, text),
        Request::Leave { text } => objects::depart(parts, task, text),
        Request::Trace { text: _ } => coded(0),
        Request::SysTime => system_time(parts),
        Request::End { code } => return finish(parts, task, *code),
    };
    Reply::Answer(answer)
}

// The task ends by itself, with 0 or by an error.
fn finish(parts: &mut Parts, task: u32, code: u8) -> Reply
    requires clear { IsClear parts.old }
    requires asker { CanAsk parts.old task }
    ensures { Serves (gone (Ended code) task (shared_of parts.old) replies.Ends) result parts.old parts.new }
{
    tasks::end(parts, task, Some(code));
    Reply::Ends
}

// The task kills the one of the number, which may be itself.
fn kill(parts: &mut Parts, task: u32, number: i32) -> Reply
    requires clear { IsClear parts.old }
    requires asker { CanAsk parts.old task }
    ensures { Serves (if nat_eq (whole number) task then gone Killed task (shared_of parts.old) replies.Ends else as_reply (kill (shared_of parts.old) (whole number))) result parts.old parts.new }
{
    if whole(number) == task {
        tasks::end(parts, task, None);
        return Reply::Ends;
    }
    Reply::Answer(tasks::kill(parts, number))
}

// The clock's milliseconds, modulo 2^32.
fn system_time(parts: &Parts) -> Answer
    ensures { result ≡ plain (number (wrap (pos parts.now.clock))) }
{
    let low = (parts.clock % 4_294_967_296) as u32;
    numbered(low.cast_signed())
}

/// An event of the script.
pub(crate) fn happen(parts: &mut Parts, event: &EventKind) -> EventReply
    requires clear { IsClear parts.old }
    requires early { parts.old.clock + gained event.now < 2 ^ 62 }
    ensures { Happens (script (basis_in parts.old) (shared_of parts.old) event.now) result parts.old parts.new }
{
    told(&answer_event(parts, event))
}

// The same, as it would be answered to a task.
fn answer_event(parts: &mut Parts, event: &EventKind) -> Answer
    requires clear { IsClear parts.old }
    requires early { parts.old.clock + gained event.now < 2 ^ 62 }
    ensures { Does (script (basis_in parts.old) (shared_of parts.old) event.now) result parts.old parts.new }
{
    match event {
        EventKind::Run { name, list } => tasks::start(parts, name, list),
        EventKind::Tick { ms } => clock::tick(parts, *ms),
        EventKind::Kill { n } => tasks::kill(parts, *n),
        EventKind::Suspend { n } => tasks::suspend(parts, *n),
        EventKind::Resume { n } => tasks::resume(parts, *n),
        EventKind::Put { name, sort, text } => objects::put_named(parts, name, *sort, text),
        EventKind::Signal { name } => objects::signal_named(parts, name),
        EventKind::Set { name, value } => cells::set(parts, name, value),
    }
}

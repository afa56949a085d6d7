//! Semaphores, queues and sections, with the lines and the tasks.
ghost use Rattle.std.specs.Prelude.{◌≡◌};
ghost use Rattle.ci_shared.specs.Queues.{put_named, que_close, que_length, que_open, que_read, que_write, queue_named};
ghost use Rattle.ci_shared.specs.Sections.{depart, enter};
ghost use Rattle.ci_shared.specs.Semaphores.{sem_close, sem_open, sem_signal, sem_wait, semaphore_named, signal_named};
ghost use Rattle.ci_shared.specs.State.{only};
ghost use Rattle.ci_shared.specs.Steps.{by_queues, by_sections, by_semaphores, open_queue, open_semaphore, try_queues, try_sections, try_semaphores};
ghost use Rattle.ci_store.specs.Done.{CanAsk, Does, IsClear, Serves};
ghost use Rattle.ci_store.specs.Stored.{shared_of};

use crate::parts::{Parts, free, settle};
use ci_base::{Answer, Reply, Text};
use ci_shared::answers::coded;

pub(crate) fn open_semaphore(parts: &mut Parts, name: &Text, mode: i32) -> Answer
    requires { IsClear parts.old }
    ensures { Does (open_semaphore (shared_of parts.old) (sem_open name.now mode parts.old.next parts.old.sems)) result parts.old parts.new }
{
    parts.sems.name(name, mode, &mut parts.next)
}

pub(crate) fn wait(parts: &mut Parts, task: u32, number: i32, limit: i32) -> Reply
    requires clear { IsClear parts.old }
    requires asker { CanAsk parts.old task }
    ensures { Serves (try_semaphores (shared_of parts.old) task (sem_wait number limit parts.old.clock parts.old.sems)) result parts.old parts.new }
{
    let reply = parts
        .sems
        .wait(&mut parts.lines, task, number, limit, parts.clock);
    settle(&mut parts.tasks, task, &reply);
    reply
}

pub(crate) fn signal(parts: &mut Parts, number: i32) -> Answer
    requires { IsClear parts.old }
    ensures { Does (by_semaphores (shared_of parts.old) (sem_signal number parts.old.sems parts.old.lines)) result parts.old parts.new }
{
    let answer = parts
        .sems
        .signal(&mut parts.lines, number, &mut parts.woken);
    free(&mut parts.tasks, parts.woken.deliveries());
    answer
}

pub(crate) fn close_semaphore(parts: &mut Parts, number: i32) -> Answer
    requires { IsClear parts.old }
    ensures { Does (by_semaphores (shared_of parts.old) (sem_close number parts.old.sems parts.old.lines)) result parts.old parts.new }
{
    let answer = parts.sems.shut(&mut parts.lines, number, &mut parts.woken);
    free(&mut parts.tasks, parts.woken.deliveries());
    answer
}

pub(crate) fn signal_named(parts: &mut Parts, name: &Text) -> Answer
    requires { IsClear parts.old }
    ensures { Does (by_semaphores (shared_of parts.old) (signal_named parts.old.sems parts.old.lines (semaphore_named name.now parts.old.sems))) result parts.old parts.new }
{
    match parts.sems.named(name) {
        Some(number) => signal(parts, number),
        None => coded(5),
    }
}

pub(crate) fn open_queue(parts: &mut Parts, name: &Text, mode: i32) -> Answer
    requires { IsClear parts.old }
    ensures { Does (open_queue (shared_of parts.old) (que_open name.now mode parts.old.next parts.old.queues)) result parts.old parts.new }
{
    parts.queues.name(name, mode, &mut parts.next)
}

pub(crate) fn write(parts: &mut Parts, number: i32, sort: i32, text: &Text) -> Answer
    requires { IsClear parts.old }
    ensures { Does (by_queues (shared_of parts.old) (que_write number sort text.now parts.old.queues parts.old.lines)) result parts.old parts.new }
{
    let answer = parts
        .queues
        .write(&mut parts.lines, number, sort, text, &mut parts.woken);
    free(&mut parts.tasks, parts.woken.deliveries());
    answer
}

pub(crate) fn put_named(parts: &mut Parts, name: &Text, sort: i32, text: &Text) -> Answer
    requires { IsClear parts.old }
    ensures { Does (by_queues (shared_of parts.old) (put_named sort text.now parts.old.queues parts.old.lines (queue_named name.now parts.old.queues))) result parts.old parts.new }
{
    match parts.queues.named(name) {
        Some(number) => write(parts, number, sort, text),
        None => coded(5),
    }
}

pub(crate) fn read(parts: &mut Parts, task: u32, number: i32, mode: i32) -> Reply
    requires clear { IsClear parts.old }
    requires asker { CanAsk parts.old task }
    ensures { Serves (try_queues (shared_of parts.old) task (que_read number mode parts.old.queues)) result parts.old parts.new }
{
    let reply = parts.queues.read(&mut parts.lines, task, number, mode);
    settle(&mut parts.tasks, task, &reply);
    reply
}

pub(crate) fn close_queue(parts: &mut Parts, number: i32) -> Answer
    requires { IsClear parts.old }
    ensures { Does (by_queues (shared_of parts.old) (que_close number parts.old.queues parts.old.lines)) result parts.old parts.new }
{
    let answer = parts
        .queues
        .shut(&mut parts.lines, number, &mut parts.woken);
    free(&mut parts.tasks, parts.woken.deliveries());
    answer
}

pub(crate) fn enter(parts: &mut Parts, task: u32, name: &Text) -> Reply
    requires clear { IsClear parts.old }
    requires asker { CanAsk parts.old task }
    ensures { Serves (try_sections (shared_of parts.old) task (enter task name.now parts.old.sections)) result parts.old parts.new }
{
    let reply = parts.sections.enter(&mut parts.lines, task, name);
    settle(&mut parts.tasks, task, &reply);
    reply
}

pub(crate) fn depart(parts: &mut Parts, task: u32, name: &Text) -> Answer
    requires { IsClear parts.old }
    ensures { Does (by_sections (shared_of parts.old) (depart task name.now parts.old.sections parts.old.lines)) result parts.old parts.new }
{
    let answer = parts
        .sections
        .depart(&mut parts.lines, task, name, &mut parts.woken);
    free(&mut parts.tasks, parts.woken.deliveries());
    answer
}

//! Tasks: how they start, end and are marked.
ghost use Rattle.std.specs.Prelude.{◌≡◌, ◌≤◌, true, false};
ghost use Rattle.ci_base.specs.declared.bounds.TheConstants.{MOST_TASKS};
ghost use Rattle.ci_base.specs.declared.reply.Reply.TheVariants as replies;
ghost use Rattle.ci_shared.specs.Rows.{plain};
ghost use Rattle.ci_shared.specs.Started.{spawn, task_named};
ghost use Rattle.ci_shared.specs.Steps.{gone, kill, mark, start};
ghost use Rattle.ci_shared.specs.Words.{whole};
ghost use Rattle.ci_tasktab.specs.Slots.{is_live_at, set_status, tasks_in};
ghost use Rattle.ci_store.specs.Done.{Does, IsClear, Leaves, dead, ended};
ghost use Rattle.ci_store.specs.Stored.{shared_of};

use crate::parts::{Parts, free};
use ci_base::{Answer, Text};
use ci_shared::answers::{coded, numbered, refused};
use ci_shared::words::{is_empty, whole};
use ci_tasktab::TaskTable;

pub(crate) fn start(parts: &mut Parts, name: &Text, list: &Text) -> Answer
    requires { IsClear parts.old }
    ensures { Does (start (shared_of parts.old) (spawn parts.old.layout.functions (tasks_in parts.old.lines parts.old.tasks) name.now list.now)) result parts.old parts.new }
{
    match parts.tasks.spawn(&parts.layout, name, list) {
        Ok(birth) => {
            let number = birth.task as i32;
            parts.birth = Some(birth);
            numbered(number)
        }
        Err(code) => refused(code),
    }
}

/// The task ends: by itself, with 0 or the number of an error, or since it is killed. It leaves its line, and its sections
/// are given on.
pub(crate) fn end(parts: &mut Parts, task: u32, code: Option<u8>)
    requires clear { IsClear parts.old }
    requires live { is_live_at parts.old.tasks task ≡ true }
    ensures { Leaves (gone (ended code) task (shared_of parts.old) replies.Ends) parts.old parts.new }
{
    set_dead(&mut parts.tasks, task, code);
    let _place = parts.lines.leave(task);
    parts
        .sections
        .depart_all(&mut parts.lines, task, &mut parts.woken);
    free(&mut parts.tasks, parts.woken.deliveries());
}

fn set_dead(tasks: &mut TaskTable, task: u32, code: Option<u8>)
    requires { is_live_at tasks.old task ≡ true }
    ensures { tasks.new ≡ set_status (dead code) task tasks.old }
{
    match code {
        Some(code) => tasks.finish(task, code),
        None => tasks.kill(task),
    }
}

pub(crate) fn kill(parts: &mut Parts, number: i32) -> Answer
    requires { IsClear parts.old }
    ensures { Does (kill (shared_of parts.old) (whole number)) result parts.old parts.new }
{
    let task = whole(number);
    if !parts.tasks.is_live(task) {
        return coded(1);
    }
    end(parts, task, None);
    coded(0)
}

pub(crate) fn suspend(parts: &mut Parts, number: i32) -> Answer
    requires { IsClear parts.old }
    ensures { Does (mark true (shared_of parts.old) (whole number)) result parts.old parts.new }
{
    parts.tasks.suspend(number)
}

pub(crate) fn resume(parts: &mut Parts, number: i32) -> Answer
    requires { IsClear parts.old }
    ensures { Does (mark false (shared_of parts.old) (whole number)) result parts.old parts.new }
{
    parts.tasks.wake(number)
}

pub(crate) fn handle(parts: &Parts, task: u32, name: &Text) -> Answer
    requires { task ≤ MOST_TASKS }
    ensures { result ≡ plain (task_named parts.now.layout.functions task name.now (tasks_in parts.now.lines parts.now.tasks)) }
{
    if is_empty(name) {
        return numbered(task as i32);
    }
    match parts.tasks.find(&parts.layout, name) {
        Some(task) => numbered(task as i32),
        None => refused(5),
    }
}

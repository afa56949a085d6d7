//! Functions by their names, ignoring the case of letters.
ghost use Rattle.std.specs.Prelude.{◌≡◌, ◌&&◌, ◌<◌, length, find, IfSome, slice_get};
ghost use Rattle.std.specs.List.{position_from};
ghost use Rattle.std.specs.Str.{str_eq_ignore_ascii_case};
ghost use Rattle.ci_base.specs.declared.bounds.TheConstants.{MOST_FUNCTIONS};
ghost use Rattle.ci_shared.specs.Started.{has_name, public_from};
ghost use Rattle.ci_tasktab.specs.Slots.{runs};

use crate::slot::{Slot, slot_at};
use ci_base::{Head, Text};

/// The number of the first PUBLIC function of the name.
pub(crate) fn public_named(functions: &[Head], name: &Text) -> Option<usize>
    ensures first { result ≡ public_from 0 name.now functions.now }
    ensures within { IfSome result (λ at. at < length functions.now) }
{
    at_public(functions, name)
}

// Where it stands.
fn at_public(functions: &[Head], name: &Text) -> Option<usize>
    ensures first { result ≡ position_from (λ head. head.public && str_eq_ignore_ascii_case name.now head.name) 0 functions.now }
    ensures within { IfSome result (λ at. at < length functions.now) }
{
    functions.iter().position(|head| is_public(head, name))
}

// Whether the function is PUBLIC and has the name.
fn is_public(head: &Head, name: &Text) -> bool
    ensures { result ≡ (head.now.public && str_eq_ignore_ascii_case name.now head.now.name) }
{
    head.public && is_named(head, name)
}

// Whether the function has the name.
fn is_named(head: &Head, name: &Text) -> bool
    ensures { result ≡ str_eq_ignore_ascii_case name.now head.now.name }
{
    name.bytes().eq_ignore_ascii_case(head.name.bytes())
}

// Whether the function of a number has the name.
fn has_name(functions: &[Head], function: u32, name: &Text) -> bool
    ensures { result ≡ has_name name.now (slice_get functions.now function) }
{
    match functions.get(function as usize) {
        Some(head) => is_named(head, name),
        None => false,
    }
}

// Whether the task of a number is of a function with the name.
fn runs(functions: &[Head], name: &Text, slots: &[Slot], task: u32) -> bool
    ensures { result ≡ runs functions.now name.now slots.now task }
{
    match slot_at(slots, task) {
        Some(slot) => has_name(functions, slot.function, name),
        None => false,
    }
}

/// The first of these tasks that is of a function with the name.
pub(crate) fn first_running(
    functions: &[Head],
    name: &Text,
    slots: &[Slot],
    tasks: &[u32],
) -> Option<u32>
    ensures { result ≡ find (runs functions.now name.now slots.now) tasks.now }
{
    tasks
        .iter()
        .copied()
        .find(|task| runs(functions, name, slots, *task))
}

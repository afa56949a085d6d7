//! The two lists in which the queues are kept, and finding in them.
ghost use Rattle.std.specs.Prelude.{◌≡◌, ◌≤◌, ◌<◌, List, length, filter, not, IfSome};
ghost use Rattle.std.specs.List.{position_from};
ghost use Rattle.std.specs.Ordering.{int_eq};
ghost use Rattle.std.specs.Vec.{vec_capacity};
ghost use Rattle.std.specs.VecDeque.{deque_capacity};
ghost use Rattle.ci_shared.specs.Queues.{queue_named};
ghost use Rattle.ci_shared.specs.Words.{same_text};
ghost use Rattle.ci_queues.specs.declared.held.Element.{Element};
ghost use Rattle.ci_queues.specs.Held.{has_number, queues_of};

use ci_base::Text;
use ci_shared::Item;
use ci_shared::words::is_same;
use std::collections::VecDeque;

/// A queue without its elements.
#[derive(Debug, Drop)]
pub struct Head {
    pub number: i32,
    pub name: Text,
}

/// An element, and the number of its queue.
#[derive(Debug, Drop)]
pub struct Element {
    pub queue: i32,
    pub item: Item,
}

/// Whether a queue has the number.
pub fn has_number(heads: &[Head], number: i32) -> bool
    ensures { result ≡ has_number number heads.now }
{
    heads.iter().any(|head| head.number == number)
}

/// The number of the queue of this name.
pub fn number_named(heads: &[Head], text: &Text) -> Option<i32>
    ensures { (elements : List Element) → result ≡ queue_named text.now (queues_of heads.now elements) }
{
    match at_name(heads, text) {
        Some(at) => Some(number_of(&heads[at])),
        None => None,
    }
}

fn number_of(head: &Head) -> i32
    ensures { result ≡ head.now.number }
{
    head.number
}

fn at_name(heads: &[Head], text: &Text) -> Option<usize>
    ensures first { result ≡ position_from (λ head. same_text head.name text.now) 0 heads.now }
    ensures within { IfSome result (λ at. at < length heads.now) }
{
    heads.iter().position(|head| is_same(&head.name, text))
}

/// Where the front element of a queue stands among those of all.
pub fn at_front(elements: &VecDeque<Element>, number: i32) -> Option<usize>
    ensures first { result ≡ position_from (λ element. int_eq element.queue number) 0 elements.now.items }
    ensures within { IfSome result (λ at. at < length elements.now.items) }
{
    elements.iter().position(|element| element.queue == number)
}

/// How many elements a queue has.
pub fn count_of(elements: &VecDeque<Element>, number: i32) -> usize
    ensures exact { result ≡ length (filter (λ element. int_eq element.queue number) elements.now.items) }
    ensures within { result ≤ length elements.now.items }
{
    elements
        .iter()
        .filter(|element| element.queue == number)
        .count()
}

/// The queue of the number goes.
pub fn drop_head(heads: &mut Vec<Head>, number: i32)
    ensures items { heads.new.items ≡ filter (λ head. not (int_eq head.number number)) heads.old.items }
    ensures capacity { vec_capacity heads.new ≡ vec_capacity heads.old }
{
    heads.retain(|head| head.number != number);
}

/// The elements of the queue of the number go.
pub fn drop_elements(elements: &mut VecDeque<Element>, number: i32)
    ensures items { elements.new.items ≡ filter (λ element. not (int_eq element.queue number)) elements.old.items }
    ensures fewer { length elements.new.items ≤ length elements.old.items }
    ensures capacity { deque_capacity elements.new ≡ deque_capacity elements.old }
{
    elements.retain(|element| element.queue != number);
}

//! All queues, one list by their making; the elements of all, one list by their arrival.
ghost use Rattle.std.specs.Prelude.{◌≡◌, ◌≤◌, ◌<◌, ◌+◌, ◌++◌, ◌∷◌, true, pos, ◌≤ℤ◌, ◌<ℤ◌, [], length, All, IfOk, is_some, nat_le};
ghost use Rattle.ci_base.specs.declared.bounds.TheConstants.{MOST_ELEMENTS, MOST_LIVE_TASKS, MOST_OBJECTS, MOST_TASKS};
ghost use Rattle.ci_shared.specs.Queues.{count_items, no_queue, que_close, que_length, que_open, que_read, que_write, queue_named, queue_of, with_items};
ghost use Rattle.ci_shared.specs.Roster.{seats};
ghost use Rattle.ci_shared.specs.Rows.{Follows, FollowsAttempt, FollowsNaming, plain};
ghost use Rattle.ci_queues.specs.Fronts.{TakesFront, items_in};

use crate::held::{
    Element, Head, at_front, count_of, drop_elements, drop_head, has_number, number_named,
};
use ci_base::bounds::{MOST_ELEMENTS, MOST_OBJECTS};
use ci_base::{Answer, Delivery, OutOfMemory, Place, Reply, Text, Woken};
use ci_lines::Lines;
use ci_shared::Item;
use ci_shared::answers::{coded, numbered, refused, with_element};
use ci_shared::words::{is_empty, is_last, is_mode};
use std::alloc::Global;
use std::collections::VecDeque;
use std::marker::Model;

/// The queues, at most 256, with at most 4,096 elements in all. Contracts see the list of queues in the order in which
/// they were made, each with its elements in the order in which they were written.
#[derive(Debug, Drop)]
pub struct Queues {
    heads: Vec<Head>,
    elements: VecDeque<Element>,
}

impl Model for Queues {
    ghost use Rattle.std.specs.Prelude.{List, ◌≤◌};
    ghost use Rattle.std.specs.Vec.{vec_capacity};
    ghost use Rattle.std.specs.VecDeque.{deque_capacity};
    ghost use Rattle.ci_base.specs.declared.bounds.TheConstants.{MOST_ELEMENTS, MOST_OBJECTS};
    ghost use Rattle.ci_shared.specs.Queues.{Queue};
    ghost use Rattle.ci_queues.specs.Held.{IsSound, queues_of};

    ghost Value = { List Queue };

    ghost view = { λ queues. queues_of queues.heads.items queues.elements.items };

    ghost invariant = { λ queues. (MOST_OBJECTS ≤ vec_capacity queues.heads) × (MOST_ELEMENTS ≤ deque_capacity queues.elements) × IsSound queues.heads.items queues.elements.items };
}

impl Queues {
    /// No queue, with room for 256 queues and 4,096 elements.
    pub fn room(alloc: Global) -> Result<Queues, OutOfMemory>
        ensures { IfOk result (λ queues. queues ≡ []) }
    {
        let Ok(heads) = Vec::with_capacity(alloc, MOST_OBJECTS) else {
            return Err(OutOfMemory);
        };
        match VecDeque::with_capacity(alloc, MOST_ELEMENTS) {
            Ok(elements) => Ok(Queues { heads, elements }),
            Err(_) => Err(OutOfMemory),
        }
    }

    /// Finds the queue of this name in mode 0, makes it in mode 1, and finds or makes it in mode 2; `next` is the number of
    /// a new one. Takes no memory.
    pub fn name(&mut self, text: &Text, mode: i32, next: &mut i32) -> Answer
        requires least { pos 1 ≤ℤ next.old }
        requires above { All (λ queue. queue.number <ℤ next.old) self.old }
        ensures { FollowsNaming (que_open text.now mode next.old self.old) result self.new next.new }
    {
        if is_empty(text) || !is_mode(mode) {
            return refused(10);
        }
        if let Some(number) = self.named(text) {
            return if mode == 1 {
                refused(4)
            } else {
                numbered(number)
            };
        }
        if mode == 0 {
            return refused(5);
        }
        if self.is_full() {
            return refused(11);
        }
        if is_last(*next) {
            return refused(11);
        }
        let number = *next;
        self.make(number, text);
        *next = number + 1;
        numbered(number)
    }

    // A new queue, without elements.
    fn make(&mut self, number: i32, text: &Text)
        requires room { length self.old < MOST_OBJECTS }
        requires above { All (λ queue. queue.number <ℤ number) self.old }
        ensures { self.new ≡ self.old ++ record { number = number; name = text.now; items = [] } ∷ [] }
    {
        let head = Head {
            number,
            name: text.copy(),
        };
        self.heads.push_reserved(head);
    }

    /// Writes an element: it goes to the first reader in line, or to the end of the queue. Takes no memory.
    pub fn write(
        &mut self,
        lines: &mut Lines,
        number: i32,
        sort: i32,
        text: &Text,
        woken: &mut Woken,
    ) -> Answer
        requires { length woken.old + length lines.old ≤ MOST_LIVE_TASKS }
        ensures { Follows (que_write number sort text.now self.old lines.old) result self.new lines.old lines.new woken.old woken.new }
    {
        if !self.has(number) {
            return coded(1);
        }
        if let Some(task) = lines.take_first(&Place::Queue(number)) {
            woken.add(Delivery {
                task,
                answer: with_element(sort, text.copy()),
            });
            return coded(0);
        }
        if self.count() >= MOST_ELEMENTS {
            return coded(11);
        }
        let text = text.copy();
        self.put_last(number, Item { sort, text });
        coded(0)
    }

    /// The task reads the front element, or in mode 1 waits for one. Takes no memory.
    pub fn read(&mut self, lines: &mut Lines, task: u32, number: i32, mode: i32) -> Reply
        requires least { 1 ≤ task }
        requires most { task ≤ MOST_TASKS }
        requires nowhere { seats task lines.old ≡ [] }
        requires room { length lines.old < MOST_LIVE_TASKS }
        ensures { FollowsAttempt (que_read number mode self.old) task result self.new lines.old lines.new }
    {
        if !self.has(number) {
            return Reply::Answer(coded(1));
        }
        if mode != 0 && mode != 1 {
            return Reply::Answer(coded(10));
        }
        if let Some(item) = self.take_front(number) {
            return Reply::Answer(with_element(item.sort, item.text));
        }
        if mode == 0 {
            return Reply::Answer(coded(3));
        }
        lines.join(Place::Queue(number), task, None);
        Reply::Waits
    }

    /// How many elements the queue has. Takes no memory.
    pub fn length(&self, number: i32) -> Answer
        ensures { result ≡ plain (que_length number self.now) }
    {
        if !self.has(number) {
            return refused(1);
        }
        numbered(self.count_in(number))
    }

    /// Ends the queue: all who wait for an element are answered 1, and its elements are dropped. Takes no memory.
    pub fn shut(&mut self, lines: &mut Lines, number: i32, woken: &mut Woken) -> Answer
        requires { length woken.old + length lines.old ≤ MOST_LIVE_TASKS }
        ensures { Follows (que_close number self.old lines.old) result self.new lines.old lines.new woken.old woken.new }
    {
        if !self.has(number) {
            return coded(1);
        }
        lines.turn_away(&Place::Queue(number), woken);
        self.remove(number);
        coded(0)
    }

    // Whether there is a queue of this number.
    fn has(&self, number: i32) -> bool
        ensures { result ≡ is_some (queue_of number self.now) }
    {
        has_number(self.heads.as_slice(), number)
    }

    /// The number of the queue of this name. Takes no memory.
    pub fn named(&self, text: &Text) -> Option<i32>
        ensures { result ≡ queue_named text.now self.now }
    {
        number_named(self.heads.as_slice(), text)
    }

    // Whether there are as many queues as there may be.
    fn is_full(&self) -> bool
        ensures { result ≡ nat_le MOST_OBJECTS (length self.now) }
    {
        MOST_OBJECTS <= self.heads.len()
    }

    // How many elements there are in all.
    fn count(&self) -> usize
        ensures { result ≡ count_items self.now }
    {
        self.elements.len()
    }

    // How many elements the queue has, if there is one.
    fn count_in(&self, number: i32) -> i32
        ensures { result ≡ pos (length (items_in number self.now)) }
    {
        count_of(&self.elements, number) as i32
    }

    // The element comes last in its queue.
    fn put_last(&mut self, number: i32, item: Item)
        requires there { is_some (queue_of number self.old) ≡ true }
        requires room { count_items self.old < MOST_ELEMENTS }
        ensures { self.new ≡ with_items number (items_in number self.old ++ item ∷ []) self.old }
    {
        let element = Element {
            queue: number,
            item,
        };
        self.elements.push_back_reserved(element);
    }

    // The front element leaves its queue.
    fn take_front(&mut self, number: i32) -> Option<Item>
        ensures { TakesFront number (items_in number self.old) self.old result self.new }
    {
        let Some(at) = at_front(&self.elements, number) else {
            return None;
        };
        match self.elements.remove(at) {
            Some(element) => Some(element.item),
            None => None,
        }
    }

    // The queue goes, with its elements.
    fn remove(&mut self, number: i32)
        ensures { self.new ≡ no_queue number self.old }
    {
        drop_head(&mut self.heads, number);
        drop_elements(&mut self.elements, number);
    }
}

//! The owned sections, one list in the order of their names.
ghost use Rattle.std.specs.Prelude.{◌≡◌, ◌≤◌, ◌<◌, ◌+◌, ◌++◌, [], length, nat_le, IfOk};
ghost use Rattle.ci_base.specs.declared.bounds.TheConstants.{MOST_LIVE_TASKS, MOST_OBJECTS, MOST_TASKS};
ghost use Rattle.ci_shared.specs.Roster.{lines_after, seats};
ghost use Rattle.ci_shared.specs.Rows.{Follows, FollowsAttempt};
ghost use Rattle.ci_shared.specs.Sections.{depart, depart_all, enter, given_answers, given_sections, section_of, with_held, with_section};
ghost use Rattle.ci_sections.specs.Picked.{GivesAt, hold_of, owner_of, picks};

use crate::find::{Hold, at_name, hold_in, place_for};
use crate::giving::{Given, picks};
use ci_base::bounds::{MOST_COUNT, MOST_OBJECTS};
use ci_base::{Answer, Delivery, OutOfMemory, Place, Reply, Text, Woken};
use ci_lines::Lines;
use ci_shared::Section;
use ci_shared::answers::coded;
use ci_shared::words::is_empty;
use std::alloc::Global;
use std::marker::Model;

/// The critical sections that are owned, at most 256. Contracts see the list of them in the order of their names, by
/// bytes.
#[derive(Debug, Drop)]
pub struct Sections {
    kept: Vec<Section>,
}

impl Model for Sections {
    ghost use Rattle.std.specs.Prelude.{List, ◌≤◌};
    ghost use Rattle.std.specs.Vec.{vec_capacity};
    ghost use Rattle.ci_base.specs.declared.bounds.TheConstants.{MOST_OBJECTS};
    ghost use Rattle.ci_shared.specs.declared.object.Section.{Section};

    ghost Value = { List Section };

    ghost view = { λ sections. sections.kept.items };

    ghost invariant = { λ sections. MOST_OBJECTS ≤ vec_capacity sections.kept };
}

impl Sections {
    /// No section is owned; there is room for 256.
    pub fn room(alloc: Global) -> Result<Sections, OutOfMemory>
        ensures { IfOk result (λ sections. sections ≡ []) }
    {
        match Vec::with_capacity(alloc, MOST_OBJECTS) {
            Ok(kept) => Ok(Sections { kept }),
            Err(_) => Err(OutOfMemory),
        }
    }

    /// The task enters the section, once more where it owns it, or waits for it. Takes no memory.
    pub fn enter(&mut self, lines: &mut Lines, task: u32, text: &Text) -> Reply
        requires least { 1 ≤ task }
        requires most { task ≤ MOST_TASKS }
        requires nowhere { seats task lines.old ≡ [] }
        requires room { length lines.old < MOST_LIVE_TASKS }
        ensures { FollowsAttempt (enter task text.now self.old) task result self.new lines.old lines.new }
    {
        if is_empty(text) {
            return Reply::Answer(coded(10));
        }
        let Some(hold) = self.hold(text) else {
            if self.is_full() {
                return Reply::Answer(coded(11));
            }
            self.own(task, text);
            return Reply::Answer(coded(0));
        };
        if hold.owner != task {
            lines.join(Place::Section(text.copy()), task, None);
            return Reply::Waits;
        }
        if hold.count >= MOST_COUNT {
            return Reply::Answer(coded(11));
        }
        self.count(text, hold.count + 1);
        Reply::Answer(coded(0))
    }

    /// The task leaves the section. The last time it is given on to the first in its line. Takes no memory.
    pub fn depart(&mut self, lines: &mut Lines, task: u32, text: &Text, woken: &mut Woken) -> Answer
        requires { length woken.old + length lines.old ≤ MOST_LIVE_TASKS }
        ensures { Follows (depart task text.now self.old lines.old) result self.new lines.old lines.new woken.old woken.new }
    {
        let Some(hold) = self.hold(text) else {
            return coded(6);
        };
        if hold.owner != task {
            return coded(6);
        }
        if hold.count > 1 {
            self.count(text, hold.count - 1);
            return coded(0);
        }
        self.give(lines, &Given::Named(text), woken);
        coded(0)
    }

    /// All sections of the task are given on, in the order of their names, each to the first in its line. Takes no memory.
    pub fn depart_all(&mut self, lines: &mut Lines, task: u32, woken: &mut Woken)
        requires { length woken.old + length lines.old ≤ MOST_LIVE_TASKS }
        ensures sections { self.new ≡ (depart_all task self.old lines.old).objects }
        ensures lines { lines.new ≡ lines_after (depart_all task self.old lines.old).deliveries lines.old }
        ensures woken { woken.new ≡ woken.old ++ (depart_all task self.old lines.old).deliveries }
    {
        self.give(lines, &Given::OwnedBy(task), woken);
    }

    /// The task that owns the section, or none. Takes no memory.
    pub fn owner(&self, text: &Text) -> Option<u32>
        ensures { result ≡ owner_of (section_of text.now self.now) }
    {
        match self.hold(text) {
            Some(hold) => Some(hold.owner),
            None => None,
        }
    }

    // Who owns the section, and how often.
    fn hold(&self, text: &Text) -> Option<Hold>
        ensures { result ≡ hold_of (section_of text.now self.now) }
    {
        match at_name(self.kept.as_slice(), text) {
            Some(at) => Some(hold_in(&self.kept[at])),
            None => None,
        }
    }

    // Whether as many sections are owned as may be.
    fn is_full(&self) -> bool
        ensures { result ≡ nat_le MOST_OBJECTS (length self.now) }
    {
        MOST_OBJECTS <= self.kept.len()
    }

    // The task owns the section, which nobody owned.
    fn own(&mut self, task: u32, text: &Text)
        requires { length self.old < MOST_OBJECTS }
        ensures { self.new ≡ with_section (record { name = text.now; owner = task; count = 1 }) self.old }
    {
        let at = place_for(self.kept.as_slice(), text);
        let section = Section {
            name: text.copy(),
            owner: task,
            count: 1,
        };
        self.kept.insert(at, section).unwrap();
    }

    // The section is owned so often.
    fn count(&mut self, text: &Text, count: u32)
        ensures { self.new ≡ with_held text.now count self.old }
    {
        if let Some(at) = at_name(self.kept.as_slice(), text) {
            self.kept[at].count = count;
        }
    }

    // The sections are given on, one after another.
    fn give(&mut self, lines: &mut Lines, given: &Given, woken: &mut Woken)
        requires { length woken.old + length lines.old ≤ MOST_LIVE_TASKS }
        ensures sections { self.new ≡ given_sections (picks given.now) self.old lines.old }
        ensures lines { lines.new ≡ lines_after (given_answers (picks given.now) self.old lines.old) lines.old }
        ensures woken { woken.new ≡ woken.old ++ given_answers (picks given.now) self.old lines.old }
    {
        let mut at = 0;
        while at < self.kept.len() {
            if !picks(given, &self.kept[at]) {
                at += 1;
            } else if self.give_at(lines, at, woken) {
                at += 1;
            }
        }
    }

    // The section is given on to the first in its line, or to nobody; whether it is still owned.
    fn give_at(&mut self, lines: &mut Lines, at: usize, woken: &mut Woken) -> bool
        requires within { at < length self.old }
        requires room { length woken.old + length lines.old ≤ MOST_LIVE_TASKS }
        ensures { GivesAt at result self.old self.new lines.old lines.new woken.old woken.new }
    {
        let place = Place::Section(self.kept[at].name.copy());
        match lines.take_first(&place) {
            Some(task) => {
                let section = &mut self.kept[at];
                section.owner = task;
                section.count = 1;
                woken.add(Delivery {
                    task,
                    answer: coded(0),
                });
                true
            }
            None => {
                self.kept.remove(at);
                false
            }
        }
    }
}

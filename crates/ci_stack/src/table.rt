//! The places of a stack.
ghost use Rattle.std.specs.Prelude.{◌≡◌, ◌+◌, ◌<◌, ◌≤◌, ◌++◌, List, ℕ, ℤ, [], length, take, drop, slice_get, slice_index_or, slice_set, Some, IfOk};
ghost use Rattle.std.specs.Vec.{vec_capacity};
ghost use Rattle.ci_base.specs.declared.bounds.TheConstants.{MOST_ROOM, MOST_TEXT_BYTES};
ghost use Rattle.ci_base.specs.declared.value.Value.{Value};
ghost use Rattle.ci_base.specs.declared.value.Value.TheVariants.{Int, Str};
ghost use Rattle.ci_stack.specs.Places.{IsNumberAt, IsTextAt, JoinsNext, values};

use crate::letters::Letters;
use ci_base::bounds::MOST_ROOM;
use ci_base::{OutOfMemory, Text, Value};
use std::alloc::Global;
use std::marker::Model;

/// The word of a place that holds a text.
const TEXT: i64 = 4_294_967_296;

/// The 4,096 places, each with a value. Contracts see the list of the values.
///
/// Each place has a word: the INT that it holds, or the mark of a text, which then stands in the table of texts. A place of
/// that table is touched only once a text comes to it, or to one behind it.
#[derive(Debug, Drop)]
pub struct Table {
    words: Vec<i64>,
    texts: Vec<Letters>,
}

impl Model for Table {
    ghost use Rattle.std.specs.Prelude.{List};
    ghost use Rattle.std.specs.Vec.{vec_capacity};
    ghost use Rattle.ci_base.specs.declared.value.Value.{Value as Held};
    ghost use Rattle.ci_stack.specs.Places.{IsSound, values};

    ghost Value = { List Held };

    ghost view = { λ table. values table.words.items table.texts.items };

    ghost invariant = { λ table. IsSound table.words.items table.texts.items (vec_capacity table.texts) };
}

impl Table {
    /// A table, with the INT 0 everywhere.
    pub fn room(alloc: Global) -> Result<Table, OutOfMemory>
        ensures { IfOk result (λ table. length table ≡ MOST_ROOM) }
    {
        let mut words: Vec<i64> = Vec::new(alloc);
        match words.resize(MOST_ROOM, 0) {
            Ok(()) => {}
            Err(_) => return Err(OutOfMemory),
        }
        match Vec::with_capacity(alloc, MOST_ROOM) {
            Ok(texts) => Ok(Table { words, texts }),
            Err(_) => Err(OutOfMemory),
        }
    }

    /// The INT at a place.
    #[inline(always)]
    pub fn number(&self, place: usize) -> i32
        requires { IsNumberAt self.now place }
        ensures { slice_get self.now place ≡ Some (Int result) }
    {
        let _words = &self.words;
        self.words[place] as i32
    }

    /// The bytes of the text at a place.
    #[inline(always)]
    pub fn text(&self, place: usize) -> &[u8]
        requires { IsTextAt self.now place }
        ensures value { slice_get self.now place ≡ Some (Str result.now) }
        ensures within { length result.now ≤ MOST_TEXT_BYTES }
    {
        if place < self.texts.len() {
            self.texts[place].bytes()
        } else {
            &[]
        }
    }

    /// The INT comes to a place.
    #[inline(always)]
    pub fn put_number(&mut self, place: usize, n: i32)
        requires { place < length self.old }
        ensures { self.new ≡ slice_set self.old place (Int n) }
    {
        let _words = &self.words;
        self.words[place] = n as i64;
    }

    /// The text of these bytes comes to a place.
    pub fn put_text(&mut self, place: usize, bytes: &[u8])
        requires within { place < length self.old }
        requires short { length bytes.now ≤ MOST_TEXT_BYTES }
        ensures { self.new ≡ slice_set self.old place (Str bytes.now) }
    {
        let _words = &self.words;
        reach(&mut self.texts, place);
        self.words[place] = TEXT;
        self.texts[place].set(bytes);
    }

    /// Of the text at a place the bytes from an offset on stay, at most so many.
    pub fn keep_part(&mut self, place: usize, from: usize, count: usize)
        requires { IsTextAt self.old place }
        ensures kept { (s : List ℕ) → slice_get self.old place ≡ Some (Str s) → self.new ≡ slice_set self.old place (Str (take count (drop from s))) }
        ensures length { length self.new ≡ length self.old }
    {
        let _words = &self.words;
        if place < self.texts.len() {
            self.texts[place].keep_part(from, count);
        }
    }

    /// The text behind a place is joined onto the one there.
    pub fn join_next(&mut self, place: usize)
        requires { JoinsNext self.old place }
        ensures joined { (a b : List ℕ) → slice_get self.old place ≡ Some (Str a) → slice_get self.old (place + 1) ≡ Some (Str b) → self.new ≡ slice_set self.old place (Str (a ++ b)) }
        ensures length { length self.new ≡ length self.old }
    {
        let _words = &self.words;
        let behind = place + 1;
        if behind < self.texts.len() {
            join_next(self.texts.as_mut_slice(), place);
        }
    }

    /// The value at one place comes to another one too.
    #[inline(always)]
    pub fn copy(&mut self, from: usize, to: usize)
        requires from { from < length self.old }
        requires to { to < length self.old }
        ensures copied { (v : Value) → slice_get self.old from ≡ Some v → self.new ≡ slice_set self.old to v }
        ensures length { length self.new ≡ length self.old }
    {
        let word = self.words[from];
        if word == TEXT {
            self.copy_text(from, to);
        } else {
            self.words[to] = word;
        }
    }

    /// The text at one place comes to another one too.
    #[cold]
    #[inline(never)]
    fn copy_text(&mut self, from: usize, to: usize)
        requires from { IsTextAt self.old from }
        requires to { to < length self.old }
        ensures copied { (s : List ℕ) → slice_get self.old from ≡ Some (Str s) → self.new ≡ slice_set self.old to (Str s) }
        ensures length { length self.new ≡ length self.old }
    {
        let _words = &self.words;
        reach(&mut self.texts, from.max(to));
        self.words[to] = TEXT;
        copy_between(self.texts.as_mut_slice(), from, to);
    }

    /// The text at a place, as a value of its own.
    pub fn text_of(&self, place: usize) -> Text
        requires { IsTextAt self.now place }
        ensures { slice_get self.now place ≡ Some (Str result) }
    {
        match Text::of(self.text(place)) {
            Some(text) => text,
            None => unreachable!(),
        }
    }

    /// The value at a place.
    pub fn value(&self, place: usize) -> Value
        requires { place < length self.now }
        ensures { slice_get self.now place ≡ Some result }
    {
        if self.words[place] == TEXT {
            Value::Str(self.text_of(place))
        } else {
            Value::Int(self.number(place))
        }
    }

    /// The value comes to a place.
    pub fn put(&mut self, place: usize, value: &Value)
        requires { place < length self.old }
        ensures { self.new ≡ slice_set self.old place value.now }
    {
        match value {
            Value::Int(n) => self.put_number(place, *n),
            Value::Str(text) => self.put_text(place, text.bytes()),
        }
    }
}

/// The table has a text at that place, where need be an empty one.
fn reach(texts: &mut Vec<Letters>, place: usize)
    requires { place < vec_capacity texts.old }
    ensures same { (words : List ℤ) → values words texts.new.items ≡ values words texts.old.items }
    ensures within { place < length texts.new.items }
    ensures capacity { vec_capacity texts.old ≤ vec_capacity texts.new }
{
    'reach: while texts.len() <= place {
        match texts.push(Letters::none()) {
            Ok(()) => {}
            Err(_) => unreachable!(),
        }
    }
}

/// The text behind a place is joined onto the one there.
fn join_next(texts: &mut [Letters], place: usize)
    requires there { place + 1 < length texts.old }
    requires short { length (slice_index_or texts.old place []) + length (slice_index_or texts.old (place + 1) []) ≤ MOST_TEXT_BYTES }
    ensures { texts.new ≡ slice_set texts.old place (slice_index_or texts.old place [] ++ slice_index_or texts.old (place + 1) []) }
{
    let (low, high) = texts.split_at_mut(place + 1);
    low[place].join(high[0].bytes());
}

/// The text at one place comes to another one too.
fn copy_between(texts: &mut [Letters], from: usize, to: usize)
    requires from { from < length texts.old }
    requires to { to < length texts.old }
    ensures { texts.new ≡ slice_set texts.old to (slice_index_or texts.old from []) }
{
    if from < to {
        let (low, high) = texts.split_at_mut(to);
        high[0].set(low[from].bytes());
    } else if to < from {
        let (low, high) = texts.split_at_mut(from);
        low[to].set(high[0].bytes());
    }
}

//! The stack of a task.
ghost use Rattle.std.specs.Prelude.{◌≡◌, ◌+◌, ◌-◌, ◌<◌, ◌≤◌, ◌↔◌, List, ℕ, ℤ, [], ◌∷◌, ◌++◌, length, take, drop, slice_get, slice_set, Some, None, IfOk, IfErr, IsErr, OnOk, OnErr};
ghost use Rattle.ci_base.specs.declared.bounds.TheConstants.{MOST_ROOM, MOST_TEXT_BYTES};
ghost use Rattle.ci_base.specs.declared.value.Value.{Value};
ghost use Rattle.ci_base.specs.declared.value.Value.TheVariants.{Int, Str};
ghost use Rattle.ci_stack.specs.Places.{IsNumberAt, IsTextAt};
ghost use Rattle.ci_stack.specs.Tops.{EndsInNumber, EndsInShortTexts, SecondIsNumber, IsTextBelow, last_of, without_last};

use crate::table::Table;
use ci_base::bounds::MOST_ROOM;
use ci_base::{OutOfMemory, Value};
use std::alloc::Global;
use std::marker::Model;

/// The values that a task holds, at most 4,096, by their places from 0; the last one is on top. Contracts see the list.
#[derive(Debug, Drop)]
pub struct TaskStack {
    table: Table,
    count: usize,
}

impl Model for TaskStack {
    ghost use Rattle.std.specs.Prelude.{◌≡◌, ◌≤◌, List, length, take};
    ghost use Rattle.ci_base.specs.declared.bounds.TheConstants.{MOST_ROOM};
    ghost use Rattle.ci_base.specs.declared.value.Value.{Value as Held};

    ghost Value = { List Held };

    ghost view = { λ stack. take stack.count stack.table };

    ghost invariant = { λ stack. (stack.count ≤ MOST_ROOM) × (length stack.table ≡ MOST_ROOM) };
}

impl TaskStack {
    /// The empty stack, with room for 4,096 values.
    pub fn room(alloc: Global) -> Result<TaskStack, OutOfMemory>
        ensures { IfOk result (λ stack. stack ≡ []) }
    {
        match Table::room(alloc) {
            Ok(table) => Ok(TaskStack { table, count: 0 }),
            Err(refused) => Err(refused),
        }
    }

    /// The value goes on top; where 4,096 stand it comes back, and nothing changes. Takes no memory.
    pub fn push(&mut self, value: Value) -> Result<(), Value>
        ensures full { IsErr result ↔ (length self.old ≡ MOST_ROOM) }
        ensures pushed { OnOk result (self.new ≡ self.old ++ value ∷ []) }
        ensures same { OnErr result (self.new ≡ self.old) }
        ensures back { IfErr result (λ refused. refused ≡ value) }
    {
        if self.count == MOST_ROOM {
            return Err(value);
        }
        let place = self.count;
        self.table.put(place, &value);
        self.count = place + 1;
        Ok(())
    }

    /// The value on top is taken off; none where there is no value.
    pub fn pop(&mut self) -> Option<Value>
        ensures value { result ≡ last_of self.old }
        ensures rest { self.new ≡ without_last self.old }
    {
        if self.count == 0 {
            return None;
        }
        let last = self.count - 1;
        let value = self.table.value(last);
        self.count = last;
        Some(value)
    }

    /// The value at a place.
    pub fn copy_at(&self, place: u32) -> Value
        requires { place < length self.now }
        ensures { slice_get self.now place ≡ Some result }
    {
        let _count = self.count;
        self.table.value(place as usize)
    }

    /// The value takes a place.
    pub fn put_at(&mut self, place: u32, value: Value)
        requires { place < length self.old }
        ensures { self.new ≡ slice_set self.old place value }
    {
        let _count = self.count;
        self.table.put(place as usize, &value);
    }

    /// The first values stay, so many.
    pub fn cut(&mut self, kept: u32)
        requires { kept ≤ length self.old }
        ensures { self.new ≡ take kept self.old }
    {
        self.count = kept as usize;
    }
}

/// What a task machine does in place.
impl TaskStack {
    /// How many values there are.
    #[inline(always)]
    pub fn count(&self) -> usize
        ensures value { result ≡ length self.now }
        ensures within { result ≤ MOST_ROOM }
    {
        self.count
    }

    /// The INT at a place.
    #[inline(always)]
    pub fn number_at(&self, place: usize) -> i32
        requires { IsNumberAt self.now place }
        ensures { slice_get self.now place ≡ Some (Int result) }
    {
        let _count = self.count;
        self.table.number(place)
    }

    /// The bytes of the text at a place.
    #[inline(always)]
    pub fn text_at(&self, place: usize) -> &[u8]
        requires { IsTextAt self.now place }
        ensures value { slice_get self.now place ≡ Some (Str result.now) }
        ensures within { length result.now ≤ MOST_TEXT_BYTES }
    {
        let _count = self.count;
        self.table.text(place)
    }

    /// The INT on top.
    #[inline(always)]
    pub fn last_number(&self) -> i32
        requires { EndsInNumber self.now }
        ensures { (low : List Value) (n : ℤ) → self.now ≡ low ++ Int n ∷ [] → result ≡ n }
    {
        let last = self.count - 1;
        self.number_at(last)
    }

    /// The INT below the value on top.
    #[inline(always)]
    pub fn second_number(&self) -> i32
        requires { SecondIsNumber self.now }
        ensures { (low : List Value) (n : ℤ) (v : Value) → self.now ≡ low ++ Int n ∷ v ∷ [] → result ≡ n }
    {
        let second = self.count - 2;
        self.number_at(second)
    }

    /// The INT takes the place of so many values on top, or goes on top of all where there are none.
    #[inline(always)]
    pub fn replace_by_number(&mut self, taken: usize, n: i32)
        requires there { taken ≤ length self.old }
        requires room { length self.old - taken < MOST_ROOM }
        ensures { (low high : List Value) → self.old ≡ low ++ high → length high ≡ taken → self.new ≡ low ++ Int n ∷ [] }
    {
        let place = self.count - taken;
        self.table.put_number(place, n);
        self.count = place + 1;
    }

    /// The value takes the place of so many values on top, or goes on top of all where there are none.
    pub fn replace_by(&mut self, taken: usize, value: &Value)
        requires there { taken ≤ length self.old }
        requires room { length self.old - taken < MOST_ROOM }
        ensures { (low high : List Value) → self.old ≡ low ++ high → length high ≡ taken → self.new ≡ low ++ value.now ∷ [] }
    {
        let place = self.count - taken;
        self.table.put(place, value);
        self.count = place + 1;
    }

    /// The text of these bytes takes the place of so many values on top, or goes on top of all where there are none.
    pub fn replace_by_text(&mut self, taken: usize, bytes: &[u8])
        requires there { taken ≤ length self.old }
        requires room { length self.old - taken < MOST_ROOM }
        requires short { length bytes.now ≤ MOST_TEXT_BYTES }
        ensures { (low high : List Value) → self.old ≡ low ++ high → length high ≡ taken → self.new ≡ low ++ Str bytes.now ∷ [] }
    {
        let place = self.count - taken;
        self.table.put_text(place, bytes);
        self.count = place + 1;
    }

    /// So many values on top are taken off, and of the text below them the bytes from an offset on stay, at most so many.
    pub fn keep_part(&mut self, above: usize, from: usize, count: usize)
        requires { IsTextBelow self.old above }
        ensures { (low high : List Value) (s : List ℕ) → self.old ≡ low ++ Str s ∷ high → length high ≡ above → self.new ≡ low ++ Str (take count (drop from s)) ∷ [] }
    {
        let place = self.count - above - 1;
        self.table.keep_part(place, from, count);
        self.count = place + 1;
    }

    /// The text on top is taken off, and joined onto the one below.
    pub fn join_last(&mut self)
        requires { EndsInShortTexts self.old }
        ensures { (low : List Value) (a b : List ℕ) → self.old ≡ low ++ Str a ∷ Str b ∷ [] → self.new ≡ low ++ Str (a ++ b) ∷ [] }
    {
        let place = self.count - 2;
        self.table.join_next(place);
        self.count = place + 1;
    }

    /// So many values on top are taken off.
    #[inline(always)]
    pub fn take_off(&mut self, taken: usize)
        requires { taken ≤ length self.old }
        ensures { (low high : List Value) → self.old ≡ low ++ high → length high ≡ taken → self.new ≡ low }
    {
        let count = self.count;
        self.count = count - taken;
    }

    /// The value at a place goes on top too.
    #[inline(always)]
    pub fn push_copy(&mut self, place: usize)
        requires there { place < length self.old }
        requires room { length self.old < MOST_ROOM }
        ensures { (v : Value) → slice_get self.old place ≡ Some v → self.new ≡ self.old ++ v ∷ [] }
    {
        let count = self.count;
        self.table.copy(place, count);
        self.count = count + 1;
    }

    /// The value on top is taken off, and takes a place below.
    #[inline(always)]
    pub fn store_last(&mut self, place: usize)
        requires { place + 1 < length self.old }
        ensures { (low : List Value) (v : Value) → self.old ≡ low ++ v ∷ [] → self.new ≡ slice_set low place v }
    {
        let last = self.count - 1;
        self.table.copy(last, place);
        self.count = last;
    }

    /// The first values stay, so many, and the one on top.
    #[inline(always)]
    pub fn keep_last(&mut self, kept: usize)
        requires { kept < length self.old }
        ensures { (low : List Value) (v : Value) → self.old ≡ low ++ v ∷ [] → self.new ≡ take kept low ++ v ∷ [] }
    {
        let last = self.count - 1;
        self.table.copy(last, kept);
        self.count = kept + 1;
    }

    /// The two values on top change places.
    pub fn swap_last(&mut self)
        requires { 2 ≤ length self.old }
        ensures { (low : List Value) (u v : Value) → self.old ≡ low ++ u ∷ v ∷ [] → self.new ≡ low ++ v ∷ u ∷ [] }
    {
        let count = self.count;
        let last = self.table.value(count - 1);
        self.table.copy(count - 2, count - 1);
        self.table.put(count - 2, &last);
    }
}

//! Tables of lists, each once, in the order in which they came first.
ghost use Rattle.std.specs.Prelude.{◌≡◌, [], map, IfOk, OnOk};
ghost use Rattle.std.specs.List.{position_or_len};
ghost use Rattle.std.specs.Cmp.Lexicographic.{pointwise};
ghost use Rattle.indexmap.specs.IndexSet.{insert_key};

use ci_base::OutOfMemory;
use indexmap::IndexSet;
use std::alloc::Global;
use std::hash::Hash;
use std::marker::Model;

/// Lists, each once. Contracts see them in the order in which they came first.
#[derive(Drop)]
pub(crate) struct Table<T: Copy + Eq + Hash> {
    kept: IndexSet<Vec<T>>,
}

impl<T: Copy + Eq + Hash> Model for Table<T> {
    ghost use Rattle.std.specs.Prelude.{List, map};

    ghost Value = { List (List T) };

    ghost view = { λ table. map (λ list. list.items) table.kept.keys };
}

impl<T: Copy + Eq + Hash> Table<T> {
    /// No list. Takes no memory.
    pub(crate) fn empty(alloc: Global) -> Table<T>
        ensures { result ≡ [] }
    {
        Table {
            kept: IndexSet::new(alloc),
        }
    }

    /// The lists.
    pub(crate) fn lists(&self) -> &[Vec<T>]
        ensures { map (λ list. list.items) result.now ≡ self.now }
    {
        self.kept.as_slice()
    }

    /// The number of the list, which is noted where it isn't there.
    pub(crate) fn note(&mut self, alloc: Global, list: &[T]) -> Result<usize, OutOfMemory>
        ensures number { IfOk result (λ number. number ≡ position_or_len (pointwise T.eq list.now) self.old) }
        ensures noted { OnOk result (self.new ≡ insert_key (pointwise T.eq) self.old list.now) }
    {
        if let Some(number) = self.kept.get_index_of(list) {
            return Ok(number);
        }
        let copy = copy(alloc, list)?;
        let Ok((number, _)) = self.kept.insert_full(copy) else {
            return Err(OutOfMemory);
        };
        Ok(number)
    }
}

/// The same list again.
fn copy<T: Copy>(alloc: Global, list: &[T]) -> Result<Vec<T>, OutOfMemory>
    ensures { IfOk result (λ copy. copy.items ≡ list.now) }
{
    let mut copy = Vec::new(alloc);
    match copy.extend_from_slice(list) {
        Ok(()) => Ok(copy),
        Err(_) => Err(OutOfMemory),
    }
}

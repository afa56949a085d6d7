//! The history of a run.
ghost use Rattle.std.specs.Prelude.{◌≡◌, ◌<◌, [], ◌∷◌, ◌++◌, length, IfOk};

use ci_base::{Entry, OutOfMemory};
use std::alloc::Global;
use std::marker::Model;

/// The entries of a run, in order. Contracts see them with the room that was taken for them.
#[derive(Debug, Drop)]
pub struct History {
    kept: Vec<Entry>,
}

impl Model for History {
    ghost use Rattle.std.specs.Prelude.{◌≤◌, length, vec_capacity};
    ghost use Rattle.ci_history.specs.History.{RoomyHistory};

    ghost Value = { RoomyHistory };

    ghost view = { λ history. record { entries = history.kept.items; room = vec_capacity history.kept } };
}

impl History {
    /// The history without entries and without room for any. Takes no memory.
    pub fn empty(alloc: Global) -> History
        ensures { result.entries ≡ [] }
    {
        History {
            kept: Vec::new(alloc),
        }
    }

    /// A history without entries and with room for so many.
    pub fn room(alloc: Global, entries: u32) -> Result<History, OutOfMemory>
        ensures { IfOk result (λ history. (history.entries ≡ []) × (history.room ≡ entries)) }
    {
        match Vec::with_capacity(alloc, entries as usize) {
            Ok(kept) => Ok(History { kept }),
            Err(_) => Err(OutOfMemory),
        }
    }

    /// Adds the entry at the end. Takes no memory.
    pub fn add(&mut self, entry: Entry)
        requires { length self.old.entries < self.old.room }
        ensures { self.new ≡ record self.old { entries = self.old.entries ++ entry ∷ [] } }
    {
        self.kept.push_reserved(entry);
    }

    /// The entries, in order.
    pub fn entries(&self) -> &[Entry]
        ensures { result.now ≡ self.now.entries }
    {
        self.kept.as_slice()
    }
}

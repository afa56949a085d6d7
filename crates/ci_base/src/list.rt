//! The loose ticks of a run: those that tasks made after their last entries.
ghost use Rattle.std.specs.Prelude.{◌≡◌, ◌↔◌, [], IsTrue};

use std::alloc::Global;
use std::marker::Model;

/// The ticks that a task made since its last entry, or since its start.
#[derive(Clone, Copy, Debug, PartialEq, Eq)]
pub struct Loose {
    /// The number of the task, at least 1.
    pub task: u32,
    /// The number of its ticks, at least 1.
    pub ticks: u32,
}

impl Loose {
    /// The same again. Takes no memory.
    pub fn copy(&self) -> Loose
        ensures { result ≡ self.now }
    {
        *self
    }
}

/// The loose ticks of the tasks of a run. Contracts see the list.
#[derive(Debug, Drop)]
pub struct LooseList {
    kept: Vec<Loose>,
}

impl Model for LooseList {
    ghost use Rattle.std.specs.Prelude.{List};
    ghost use Rattle.ci_base.specs.declared.list.Loose.{Loose};

    ghost Value = { List Loose };

    ghost view = { λ list. list.kept.items };
}

impl LooseList {
    /// The empty list. Takes no memory.
    pub fn empty(alloc: Global) -> LooseList
        ensures { result ≡ [] }
    {
        LooseList {
            kept: Vec::new(alloc),
        }
    }

    /// The list with these members, by rising numbers of tasks. Takes no memory.
    pub fn of(members: Vec<Loose>) -> LooseList
        ensures { result ≡ members.items }
    {
        LooseList { kept: members }
    }

    /// Whether both are the same.
    pub fn is_same(&self, other: &LooseList) -> bool
        ensures { IsTrue result ↔ (self.now ≡ other.now) }
    {
        self.members() == other.members()
    }

    /// The members, by rising numbers of tasks.
    pub fn members(&self) -> &[Loose]
        ensures { result.now ≡ self.now }
    {
        self.kept.as_slice()
    }
}

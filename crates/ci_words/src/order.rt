//! What words without a fault ask for.
ghost use Rattle.std.specs.Prelude.{◌≡◌, ◌<◌, ◌≤◌, ◌+◌, ◌^◌, ◌++◌, [], ◌∷◌, length, true, IsSome};
ghost use Rattle.ci_base.specs.declared.bounds.TheConstants.{MOST_FILES};
ghost use Rattle.ci_words.specs.declared.command.Command.TheVariants as commands;
ghost use Rattle.ci_words.specs.declared.role.Role.TheVariants as roles;
ghost use Rattle.ci_words.specs.Command.{takes_files};
ghost use Rattle.ci_words.specs.Number.{bounds_of};
ghost use Rattle.ci_words.specs.Role.{indexes_before};
ghost use Rattle.ci_words.specs.Fault.{IsFree};
ghost use Rattle.ci_words.specs.Order.{value_index, number_at, files_of, size_of, limits_of, order_of};

use crate::command::{Command, OptionName};
use crate::number::value_of;
use crate::role::{Role, index_of, role_after, word_at};
use arrayvec::ArrayVec;
use ci_base::bounds::{GIVEN_BUDGET, GIVEN_SLICE, MOST_FILES};
use ci_base::{Bytes, Limits};
use std::marker::Model;

/// The indexes of at most 64 files. Contracts see the list.
#[derive(Debug, PartialEq, Eq, Drop)]
pub struct FileList {
    kept: ArrayVec<u32, MOST_FILES>,
}

impl Model for FileList {
    ghost use Rattle.ci_base.specs.declared.bounds.TheConstants.{MOST_FILES};
    ghost use Rattle.std.specs.Prelude.{List, ℕ, ◌≤◌, length};

    ghost Value = { List ℕ };

    ghost view = { λ list. list.kept.items };

    ghost invariant = { λ list. length list.kept.items ≤ MOST_FILES };

    ghost inverse = { λ indexes. record { kept = record { items = indexes } } };
}

impl FileList {
    /// The list without an index.
    pub fn empty() -> FileList
        ensures { result ≡ [] }
    {
        FileList {
            kept: ArrayVec::new(),
        }
    }

    /// Adds the index at the end, for which there is room.
    pub fn add(&mut self, index: u32)
        requires { length self.old < MOST_FILES }
        ensures { self.new ≡ self.old ++ index ∷ [] }
    {
        self.kept.push(index);
    }

    /// The indexes, in order.
    pub fn indexes(&self) -> &[u32]
        ensures value { result.now ≡ self.now }
        ensures within { length result.now ≤ MOST_FILES }
    {
        self.kept.as_slice()
    }
}

/// What the words ask for. It names words by their indexes, counted from 0.
#[derive(Debug, PartialEq, Eq, Drop)]
pub struct Order {
    /// The command that the first word spells.
    pub command: Command,
    /// The indexes of the files, in order.
    pub files: FileList,
    /// The index of the script's name, where one is given.
    pub script: Option<u32>,
    /// The index of the name of the journal that is to be checked, where one is given.
    pub journal: Option<u32>,
    /// The size of the project that `make` makes, 1 to 900; 0 for other commands.
    pub number: u32,
    /// The limits of the run: the slice is 1,000, the budget 10,000,000 and the workers are 0 where they aren't given.
    pub limits: Limits,
    /// The index of the number of ticks of a turn, where it is given.
    pub slice_at: Option<u32>,
    /// The index of the work that the run may take, where it is given.
    pub budget_at: Option<u32>,
    /// The index of the number of workers, where it is given.
    pub workers_at: Option<u32>,
    /// Whether a journal is to be written in place of the report.
    pub as_journal: bool,
}

/// What the words ask for, which have no fault.
pub(crate) fn order_of(command: Command, words: &[Bytes]) -> Order
    requires few { length words.now < 2 ^ 32 }
    requires free { IsFree command words.now }
    ensures { result ≡ order_of command words.now }
{
    Order {
        command,
        files: files_of(command, words),
        script: value_index(command, words, OptionName::Script),
        journal: value_index(command, words, OptionName::From),
        number: size_of(command, words),
        limits: limits_of(command, words),
        slice_at: value_index(command, words, OptionName::Slice),
        budget_at: value_index(command, words, OptionName::Budget),
        workers_at: value_index(command, words, OptionName::Workers),
        as_journal: index_of(command, words, Role::Known(OptionName::Journal)).is_some(),
    }
}

/// The index of the value of the option, where it is given.
fn value_index(command: Command, words: &[Bytes], name: OptionName) -> Option<u32>
    requires { length words.now < 2 ^ 32 }
    ensures { result ≡ value_index command words.now name }
{
    index_of(command, words, Role::Value(name))
}

/// The indexes of the files.
fn files_of(command: Command, words: &[Bytes]) -> FileList
    requires few { length words.now < 2 ^ 32 }
    requires free { IsFree command words.now }
    ensures { result ≡ files_of command words.now }
{
    if command.takes_files() {
        indexes_of_plain(command, words)
    } else {
        FileList::empty()
    }
}

/// The indexes of the plain words of a command that takes files.
fn indexes_of_plain(command: Command, words: &[Bytes]) -> FileList
    requires few { length words.now < 2 ^ 32 }
    requires files { takes_files command ≡ true }
    requires free { IsFree command words.now }
    ensures { result ≡ indexes_before command words.now roles.Plain (length words.now) }
{
    let mut files = FileList::empty();
    let mut role = Role::Command;
    for at in 0..words.len() {
        if role.is_same(Role::Plain) {
            files.add(at as u32);
        }
        role = role_after(command, role, word_at(words, at + 1));
    }
    files
}

/// The limits that the options give.
fn limits_of(command: Command, words: &[Bytes]) -> Limits
    requires few { length words.now < 2 ^ 32 }
    requires free { IsFree command words.now }
    ensures { result ≡ limits_of command words.now }
{
    Limits {
        slice: number_of_option(command, words, OptionName::Slice, GIVEN_SLICE),
        budget: number_of_option(command, words, OptionName::Budget, GIVEN_BUDGET),
        workers: number_of_option(command, words, OptionName::Workers, 0),
    }
}

/// The number that the option is given, or this one where it isn't given.
fn number_of_option(command: Command, words: &[Bytes], name: OptionName, default: u32) -> u32
    requires few { length words.now < 2 ^ 32 }
    requires free { IsFree command words.now }
    requires number { IsSome (bounds_of name) }
    ensures { result ≡ number_at words.now (value_index command words.now name) default }
{
    match value_index(command, words, name) {
        Some(at) => value_of(word_at(words, at as usize)),
        None => default,
    }
}

/// The number of `make`, and 0 for other commands.
fn size_of(command: Command, words: &[Bytes]) -> u32
    requires few { length words.now < 2 ^ 32 }
    requires free { IsFree command words.now }
    ensures { result ≡ size_of command words.now }
{
    match command {
        Command::Make => size_of_make(words),
        _ => 0,
    }
}

/// The number of `make`.
fn size_of_make(words: &[Bytes]) -> u32
    requires few { length words.now < 2 ^ 32 }
    requires free { IsFree commands.Make words.now }
    ensures { result ≡ size_of commands.Make words.now }
{
    match index_of(Command::Make, words, Role::Plain) {
        Some(at) => value_of(word_at(words, at as usize)),
        None => 0,
    }
}

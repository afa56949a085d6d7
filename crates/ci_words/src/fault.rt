//! The faults of the words, and which one is given.
ghost use Rattle.std.specs.Prelude.{◌≡◌, ◌<◌, ◌≤◌, length};
ghost use Rattle.ci_words.specs.declared.role.Role.TheVariants as roles;
ghost use Rattle.ci_words.specs.declared.command.Command.TheVariants as commands;
ghost use Rattle.ci_words.specs.Role.{role_at, count_before};
ghost use Rattle.ci_words.specs.Number.{bounds_of_plain};
ghost use Rattle.ci_words.specs.Fault.{number_of, text_of, IsToBe, IsGivenAt, IsFound};

use crate::command::{Command, OptionName};
use crate::number::{Bounds, TOO_LARGE, bounds_of, bounds_of_plain, is_number, value_of};
use crate::role::{Role, count_before, role_after, word_at};
use ci_base::Bytes;
use ci_base::bounds::MOST_FILES;

/// A fault of the words: its number, from 1 to 10, and the index of a word, counted from 0.
#[derive(Clone, Copy, Debug, PartialEq, Eq)]
pub struct WordFault {
    /// 1 no command, 2 unknown command, 3 unknown option for this command, 4 value missing, 5 not a number, 6 out of range,
    /// 7 option repeated, 8 no file, 9 the 65th file, 10 a word too many after the number of `make`.
    pub number: u8,
    /// Where it stands: at the option for 3, 4 and 7, at the value or number for 5 and 6, at the word for 9 and 10; at the
    /// number of words for 8, and for 4 where `make` has no number or `replay` no `--from`.
    pub index: u32,
}

/// The faults that words can have whose first one is a command.
#[derive(Clone, Copy, Debug, PartialEq, Eq)]
pub(crate) enum Fault {
    /// The command doesn't have this option.
    UnknownOption,
    /// The last word is an option that takes a value.
    ValueMissing,
    /// `make` has no number.
    NumberMissing,
    /// `replay` has no journal.
    FromMissing,
    /// The word isn't a number where one is to stand.
    NotANumber,
    /// The number isn't within its bounds.
    OutOfRange,
    /// The option was given before.
    Repeated,
    /// There is no file.
    NoFile,
    /// There are 64 files before this one.
    TooManyFiles,
    /// `make` has a number already.
    WordTooMany,
}

/// A fault, and the index at which it stands.
#[derive(Clone, Copy, Debug, PartialEq, Eq)]
pub(crate) struct Found {
    pub(crate) fault: Fault,
    pub(crate) at: usize,
}

impl Fault {
    /// The number of the fault.
    pub(crate) fn number(self) -> u8
        ensures { result ≡ number_of self }
    {
        match self {
            Fault::UnknownOption => 3,
            Fault::ValueMissing | Fault::NumberMissing | Fault::FromMissing => 4,
            Fault::NotANumber => 5,
            Fault::OutOfRange => 6,
            Fault::Repeated => 7,
            Fault::NoFile => 8,
            Fault::TooManyFiles => 9,
            Fault::WordTooMany => 10,
        }
    }
}

/// The words that say what a fault of this number is, which is from 1 to 10; no words for another number.
pub fn fault_text(number: u8) -> &'static str
    ensures value { result.now ≡ text_of number }
    ensures short { length result.now ≤ 15 }
{
    match number {
        1 => "no command",
        2 => "unknown command",
        3 => "unknown option",
        4 => "value missing",
        5 => "not a number",
        6 => "out of range",
        7 => "repeated",
        8 => "no file",
        9 => "too many files",
        10 => "word too many",
        _ => "",
    }
}

/// The fault that is given of all that the words have.
pub(crate) fn first_fault(command: Command, words: &[Bytes]) -> Option<Found>
    requires { 0 < length words.now }
    ensures { IsFound command words.now result }
{
    let mut role = Role::Command;
    for at in 0..words.len() {
        if let Some(fault) = fault_at(command, words, at, role) {
            return Some(Found { fault, at });
        }
        role = role_after(command, role, word_at(words, at + 1));
    }
    let at = words.len();
    match fault_at_end(command, words) {
        Some(fault) => Some(Found { fault, at }),
        None => None,
    }
}

/// The fault that is given of those at this index, the word there having this role.
fn fault_at(command: Command, words: &[Bytes], at: usize, role: Role) -> Option<Fault>
    requires within { at < length words.now }
    requires role { role_at command words.now at ≡ role }
    ensures { IsGivenAt command words.now at result }
{
    match role {
        Role::Command => None,
        Role::Known(name) => fault_of_option(command, words, at, name),
        Role::Unknown => Some(Fault::UnknownOption),
        Role::Value(name) => fault_of_value(command, words, at, name),
        Role::Plain => fault_of_plain(command, words, at),
    }
}

/// The fault that is given of those at an option of the command.
fn fault_of_option(command: Command, words: &[Bytes], at: usize, name: OptionName) -> Option<Fault>
    requires within { at < length words.now }
    requires role { role_at command words.now at ≡ roles.Known name }
    ensures { IsGivenAt command words.now at result }
{
    if name.takes_value() && at + 1 == words.len() {
        return Some(Fault::ValueMissing);
    }
    if count_before(command, words, Role::Known(name), at) > 0 {
        return Some(Fault::Repeated);
    }
    None
}

/// The fault that is given of those at the value of an option.
fn fault_of_value(command: Command, words: &[Bytes], at: usize, name: OptionName) -> Option<Fault>
    requires within { at < length words.now }
    requires role { role_at command words.now at ≡ roles.Value name }
    ensures { IsGivenAt command words.now at result }
{
    match bounds_of(name) {
        Some(bounds) => fault_of_number(command, words, at, bounds),
        None => None,
    }
}

/// The fault that is given of those at a plain word.
fn fault_of_plain(command: Command, words: &[Bytes], at: usize) -> Option<Fault>
    requires within { at < length words.now }
    requires role { role_at command words.now at ≡ roles.Plain }
    ensures { IsGivenAt command words.now at result }
{
    let before = count_before(command, words, Role::Plain, at);
    match bounds_of_plain(command, before) {
        Some(bounds) => fault_of_number(command, words, at, bounds),
        None => fault_of_count(command, words, at, before),
    }
}

/// The fault that is given of those at a word that is to be a number within these bounds.
fn fault_of_number(command: Command, words: &[Bytes], at: usize, bounds: Bounds) -> Option<Fault>
    requires to_be { IsToBe command words.now at bounds }
    requires high { bounds.high < TOO_LARGE }
    ensures { IsGivenAt command words.now at result }
{
    let word = word_at(words, at);
    if !is_number(word) {
        return Some(Fault::NotANumber);
    }
    let value = value_of(word);
    if value < bounds.low || value > bounds.high {
        return Some(Fault::OutOfRange);
    }
    None
}

/// The fault that is given of those at a plain word that needs to be no number, where so many plain words stand before it.
fn fault_of_count(command: Command, words: &[Bytes], at: usize, before: usize) -> Option<Fault>
    requires within { at < length words.now }
    requires role { role_at command words.now at ≡ roles.Plain }
    requires before { before ≡ count_before command words.now roles.Plain at }
    requires no_number { bounds_of_plain command before ≡ None }
    ensures { IsGivenAt command words.now at result }
{
    if !command.takes_files() {
        return Some(Fault::WordTooMany);
    }
    if before == MOST_FILES {
        return Some(Fault::TooManyFiles);
    }
    None
}

/// The fault that is given of those at the number of words.
fn fault_at_end(command: Command, words: &[Bytes]) -> Option<Fault>
    ensures { IsGivenAt command words.now (length words.now) result }
{
    let end = words.len();
    if count_before(command, words, Role::Plain, end) == 0 {
        return Some(if command.takes_files() {
            Fault::NoFile
        } else {
            Fault::NumberMissing
        });
    }
    match command {
        Command::Replay => fault_without_journal(words),
        _ => None,
    }
}

/// The fault that is given of those at the number of words of `replay` where it has files.
fn fault_without_journal(words: &[Bytes]) -> Option<Fault>
    requires { 0 < count_before commands.Replay words.now roles.Plain (length words.now) }
    ensures { IsGivenAt commands.Replay words.now (length words.now) result }
{
    if count_before(
        Command::Replay,
        words,
        Role::Known(OptionName::From),
        words.len(),
    ) == 0
    {
        return Some(Fault::FromMissing);
    }
    None
}

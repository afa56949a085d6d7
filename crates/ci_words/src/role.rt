//! What each word is: the command, an option, the value of an option, or a plain word.
ghost use Rattle.std.specs.Prelude.{◌≡◌, ◌<◌, ◌≤◌, ◌+◌, ◌^◌, length};
ghost use Rattle.ci_words.specs.Role.{
  word_at,
  role_of_option,
  role_by_spelling,
  role_after,
  role_at,
  same_role,
  count_before,
  index_before,
};

use crate::command::{Command, OptionName, option_named};
use ci_base::Bytes;

/// What a word is.
#[derive(Clone, Copy, Debug, PartialEq, Eq)]
pub(crate) enum Role {
    /// The first word.
    Command,
    /// An option of the command.
    Known(OptionName),
    /// An option that isn't one of the command.
    Unknown,
    /// The value of this option.
    Value(OptionName),
    /// A file, or the number of `make`.
    Plain,
}

impl Role {
    /// Whether two roles are the same.
    pub(crate) fn is_same(self, other: Role) -> bool
        ensures { result ≡ same_role self other }
    {
        self == other
    }
}

/// The word at this index, and the empty one past the end.
pub(crate) fn word_at(words: &[Bytes], at: usize) -> &[u8]
    ensures { result.now ≡ word_at words.now at }
{
    match words.get(at) {
        Some(word) => word.bytes(),
        None => b"",
    }
}

/// What a word is by its own spelling.
fn role_by_spelling(command: Command, word: &[u8]) -> Role
    ensures { result ≡ role_by_spelling command word.now }
{
    if !word.starts_with(b"--") {
        return Role::Plain;
    }
    match option_named(command, word) {
        Some(name) => Role::Known(name),
        None => Role::Unknown,
    }
}

/// What a word is after one of this role.
pub(crate) fn role_after(command: Command, before: Role, word: &[u8]) -> Role
    ensures { result ≡ role_after command before word.now }
{
    match before {
        Role::Known(name) if name.takes_value() => Role::Value(name),
        _ => role_by_spelling(command, word),
    }
}

/// The number of words before this index that have the role.
pub(crate) fn count_before(command: Command, words: &[Bytes], role: Role, end: usize) -> usize
    requires { end ≤ length words.now }
    ensures { result ≡ count_before command words.now role end }
{
    let mut count = 0;
    let mut current = Role::Command;
    for at in 0..end {
        if current.is_same(role) {
            count += 1;
        }
        current = role_after(command, current, word_at(words, at + 1));
    }
    count
}

/// The index of the word that has the role; the last one where there are several.
pub(crate) fn index_of(command: Command, words: &[Bytes], role: Role) -> Option<u32>
    requires { length words.now < 2 ^ 32 }
    ensures { result ≡ index_before command words.now role (length words.now) }
{
    let mut index = None;
    let mut current = Role::Command;
    for at in 0..words.len() {
        if current.is_same(role) {
            index = Some(at as u32);
        }
        current = role_after(command, current, word_at(words, at + 1));
    }
    index
}

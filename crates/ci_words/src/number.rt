//! Words that are numbers.
ghost use Rattle.std.specs.Prelude.{◌≡◌, ◌≤◌, min, length};
ghost use Rattle.std.specs.List.{list_all};
ghost use Rattle.std.specs.Char.{is_ascii_digit};
ghost use Rattle.ci_words.specs.Number.{is_number, value_of, bounds_of, bounds_of_plain};

use crate::command::{Command, OptionName};
use ci_base::bounds::{LEAST_BUDGET, LEAST_SLICE, MOST_BUDGET, MOST_SLICE, MOST_WORKERS};

/// The least and the largest number that a word may be.
#[derive(Clone, Copy, Debug, PartialEq, Eq)]
pub(crate) struct Bounds {
    pub(crate) low: u32,
    pub(crate) high: u32,
}

/// The largest number that `make` takes.
pub(crate) const MOST_SIZE: u32 = 900;

/// Above each number that a word may be.
pub(crate) const TOO_LARGE: u32 = 2 * MOST_BUDGET;

/// Whether the word is one or more decimal digits.
pub(crate) fn is_number(word: &[u8]) -> bool
    ensures { result ≡ is_number word.now }
{
    !word.is_empty() && has_digits_alone(word)
}

/// Whether each byte of the word is a decimal digit.
fn has_digits_alone(word: &[u8]) -> bool
    ensures { result ≡ list_all is_ascii_digit word.now }
{
    word.iter().all(|byte| byte.is_ascii_digit())
}

/// The number that the digits spell, or `TOO_LARGE` where it is larger.
pub(crate) fn value_of(word: &[u8]) -> u32
    ensures { result ≡ min (value_of word.now) TOO_LARGE }
{
    let mut value = 0;
    for byte in word {
        value = (value * 10 + u32::from(byte.saturating_sub(b'0'))).min(TOO_LARGE);
    }
    value
}

/// The bounds of the number that the option takes, if it takes one.
pub(crate) fn bounds_of(name: OptionName) -> Option<Bounds>
    ensures { result ≡ bounds_of name }
{
    match name {
        OptionName::Slice => Some(Bounds {
            low: LEAST_SLICE,
            high: MOST_SLICE,
        }),
        OptionName::Budget => Some(Bounds {
            low: LEAST_BUDGET,
            high: MOST_BUDGET,
        }),
        OptionName::Workers => Some(Bounds {
            low: 0,
            high: MOST_WORKERS,
        }),
        _ => None,
    }
}

/// The bounds of the number that a plain word is to be, where so many plain words stand before it.
pub(crate) fn bounds_of_plain(command: Command, before: usize) -> Option<Bounds>
    ensures { result ≡ bounds_of_plain command before }
{
    match (command, before) {
        (Command::Make, 0) => Some(Bounds {
            low: 1,
            high: MOST_SIZE,
        }),
        _ => None,
    }
}

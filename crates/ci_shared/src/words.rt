//! What is asked of names and modes.
ghost use Rattle.std.specs.Prelude.{◌≡◌};
ghost use Rattle.std.specs.Ordering.{int_eq};
ghost use Rattle.ci_shared.specs.Rows.{last_number};
ghost use Rattle.ci_shared.specs.Words.{is_empty, is_mode, same_text, whole};

use ci_base::Text;

/// Whether the text has no byte.
pub fn is_empty(text: &Text) -> bool
    ensures { result ≡ is_empty text.now }
{
    match text.bytes() {
        [] => true,
        _ => false,
    }
}

/// Whether it is a mode in which an object is opened.
pub fn is_mode(mode: i32) -> bool
    ensures { result ≡ is_mode mode }
{
    mode == 0 || mode == 1 || mode == 2
}

/// Whether it is the number that no object gets.
pub fn is_last(number: i32) -> bool
    ensures { result ≡ int_eq number last_number }
{
    number == i32::MAX
}

/// Whether both texts have the same bytes.
pub fn is_same(text: &Text, other: &Text) -> bool
    ensures { result ≡ same_text text.now other.now }
{
    *text == *other
}

/// The number of a task, as it counts: a negative one is 0, which no task has.
pub fn whole(number: i32) -> u32
    ensures { result ≡ whole number }
{
    if number < 0 { 0 } else { number as u32 }
}

//! What stands between the quotes of a text.
ghost use Rattle.std.specs.Prelude.{◌≡◌, ◌+◌, ◌*◌, ◌<◌, ◌==◌, [], true, false, length};
ghost use Rattle.std.specs.Char.{digit_value};
ghost use Rattle.ci_base.specs.Letters.{begins, is_hex_digit};
ghost use Rattle.ci_base.specs.Texts.{escape, is_plain};
ghost use Rattle.ci_literals.specs.Items.{hex_escape, ItemAt, EndsText};

use crate::digits::digit_value;
use crate::letters::is_hex_digit;
use arrayvec::ArrayVec;
use ci_base::bounds::MOST_TEXT_BYTES;

/// What stands at a place in a text.
enum Item<'s> {
    /// An item that stands for the byte, and what is left behind it.
    Byte { value: u8, rest: &'s [u8] },
    /// A caret that begins no item.
    BadEscape,
    /// The quote that closes the text, and what is left behind it.
    Close { rest: &'s [u8] },
    /// The end of the line or of the source.
    LineEnd,
}

/// How a text ends.
#[derive(Drop)]
pub enum TextEnd<'s> {
    /// With its closing quote, and what is left behind it.
    Closed { rest: &'s [u8] },
    /// With a caret that begins no item.
    BadEscape,
    /// With an item for a 256th byte.
    TooLong,
    /// With the end of the line, or of what is read.
    LineEnd,
}

/// The items of a text, from behind its opening quote up to what ends it; the bytes for which they stand are added to the value.
pub fn scan_items<'s>(body: &'s [u8], value: &mut ArrayVec<u8, MOST_TEXT_BYTES>) -> TextEnd<'s>
    requires { value.old.items ≡ [] }
    ensures { EndsText result body.now value.new.items }
{
    let mut left = body;
    'items: loop {
        match item_at(left) {
            Item::Byte { value: b, rest } => {
                let Ok(()) = value.try_push(b) else {
                    return TextEnd::TooLong;
                };
                left = rest;
            }
            Item::BadEscape => return TextEnd::BadEscape,
            Item::Close { rest } => return TextEnd::Closed { rest },
            Item::LineEnd => return TextEnd::LineEnd,
        }
    }
}

/// What stands at the front.
#[inline(always)]
fn item_at(left: &[u8]) -> Item<'_>
    ensures { ItemAt result left.now }
{
    if left.is_empty() {
        return Item::LineEnd;
    }
    let first = left[0];
    let rest = &left[1..];
    if is_plain(first) {
        Item::Byte { value: first, rest }
    } else if first == b'"' {
        Item::Close { rest }
    } else if first == b'^' {
        escape_at(left)
    } else {
        Item::LineEnd
    }
}

/// Whether the byte stands for itself in a text.
#[tactic(auto, unfolding(ci_base::specs::Texts::is_plain, ci_base::specs::Letters::is_line_end))]
fn is_plain(b: u8) -> bool
    ensures { result ≡ is_plain b }
{
    b != b'"' && b != b'^' && b != b'\n' && b != b'\r'
}

/// The escape that a caret begins.
fn escape_at(left: &[u8]) -> Item<'_>
    requires { begins (λ b. b == 94) left.now ≡ true }
    ensures { ItemAt result left.now }
{
    if begins_hexadecimal(left) {
        Item::Byte {
            value: hexadecimal_value(left[3], left[4]),
            rest: &left[5..],
        }
    } else if left.len() > 1 {
        short_escape_at(left)
    } else {
        Item::BadEscape
    }
}

/// The escape of one byte behind a caret, which begins no hexadecimal one.
fn short_escape_at(left: &[u8]) -> Item<'_>
    requires caret { begins (λ b. b == 94) left.now ≡ true }
    requires more { 1 < length left.now }
    requires short { hex_escape left.now ≡ false }
    ensures { ItemAt result left.now }
{
    match short_escape(left[1]) {
        Some(value) => Item::Byte {
            value,
            rest: &left[2..],
        },
        None => Item::BadEscape,
    }
}

/// Whether a caret, 0, x and two hexadecimal digits stand at the front.
fn begins_hexadecimal(left: &[u8]) -> bool
    ensures { result ≡ hex_escape left.now }
{
    left.len() > 4
        && left[0] == b'^'
        && left[1] == b'0'
        && left[2] == b'x'
        && is_hex_digit(left[3])
        && is_hex_digit(left[4])
}

/// The byte for which two hexadecimal digits stand.
fn hexadecimal_value(high: u8, low: u8) -> u8
    requires high { is_hex_digit high ≡ true }
    requires low { is_hex_digit low ≡ true }
    ensures { result ≡ 16 * digit_value high + digit_value low }
{
    16 * digit_value(high) + digit_value(low)
}

/// The byte for which a caret with this byte stands.
#[tactic(auto, unfolding(ci_base::specs::Texts::escape))]
fn short_escape(letter: u8) -> Option<u8>
    ensures { result ≡ escape letter }
{
    if letter == b'"' || letter == b'^' || letter == b'\'' {
        Some(letter)
    } else if letter == b'n' {
        Some(b'\n')
    } else if letter == b'r' {
        Some(b'\r')
    } else if letter == b't' {
        Some(b'\t')
    } else {
        None
    }
}

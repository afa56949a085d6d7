//! The text of a list of arguments.
ghost use Rattle.std.specs.Prelude.{◌≡◌, ◌≤◌, length};
ghost use Rattle.std.specs.List.{prefix_len};
ghost use Rattle.ci_base.specs.declared.bounds.TheConstants.{MOST_PARAMETERS};
ghost use Rattle.ci_base.specs.TextFunctions.{is_space};
ghost use Rattle.ci_literals.specs.Texts.{begins_quote};
ghost use Rattle.ci_shared.specs.Arguments.{behind_spaces, front, int_front, is_of_int, list_of, text_front, values_in};
ghost use Rattle.ci_tasktab.specs.Births.{IsFront};

use ci_base::bounds::MOST_PARAMETERS;
use ci_base::{Args, Text, Value};
use ci_literals::{read_int, read_text};

/// The values of a list, if it is one, of at most 16 values.
pub(crate) fn read_list(list: &Text) -> Option<Args>
    ensures { result ≡ list_of list.now }
{
    let list = behind_spaces(list.bytes());
    if list.is_empty() {
        return Some(Args::empty());
    }
    read_values(list)
}

// From one to 16 values.
fn read_values(list: &[u8]) -> Option<Args>
    ensures { result ≡ values_in MOST_PARAMETERS list.now }
{
    let mut args = Args::empty();
    let mut rest = list;
    let mut left = MOST_PARAMETERS;
    while left > 0 {
        left -= 1;
        let Some((value, behind)) = front(behind_spaces(rest)) else {
            return None;
        };
        args.add(value);
        let behind = behind_spaces(behind);
        if behind.is_empty() {
            return Some(args);
        }
        if behind[0] != b',' {
            return None;
        }
        rest = &behind[1..];
    }
    None
}

// The value at the front, and what stands behind it.
fn front(bytes: &[u8]) -> Option<(Value, &[u8])>
    ensures { IsFront (front bytes.now) result }
{
    if begins_quote(bytes) {
        text_front(bytes)
    } else {
        int_front(bytes)
    }
}

// Whether a quote stands at the front.
fn begins_quote(bytes: &[u8]) -> bool
    ensures { result ≡ begins_quote bytes.now }
{
    bytes.len() > 0 && bytes[0] == b'"'
}

// The same, of a text.
fn text_front(bytes: &[u8]) -> Option<(Value, &[u8])>
    ensures { IsFront (text_front bytes.now) result }
{
    match read_text(bytes) {
        Some((text, rest)) => Some((Value::Str(text), rest)),
        None => None,
    }
}

// The same, of an INT, which a comma or a space ends.
fn int_front(bytes: &[u8]) -> Option<(Value, &[u8])>
    ensures { IsFront (int_front bytes.now) result }
{
    let len = int_len(bytes);
    match read_int(&bytes[..len]) {
        Some(n) => Some((Value::Int(n), &bytes[len..])),
        None => None,
    }
}

// Without the spaces at the front.
fn behind_spaces(bytes: &[u8]) -> &[u8]
    ensures { result.now ≡ behind_spaces bytes.now }
{
    &bytes[leading_spaces(bytes)..]
}

// How many spaces stand at the front.
fn leading_spaces(bytes: &[u8]) -> usize
    ensures value { result ≡ prefix_len is_space bytes.now }
    ensures within { result ≤ length bytes.now }
{
    let mut count = 0;
    while count < bytes.len() && bytes[count] == b' ' {
        count += 1;
    }
    count
}

// How many bytes stand before the first comma or space.
fn int_len(bytes: &[u8]) -> usize
    ensures value { result ≡ prefix_len is_of_int bytes.now }
    ensures within { result ≤ length bytes.now }
{
    let mut count = 0;
    while count < bytes.len() && bytes[count] != b',' && bytes[count] != b' ' {
        count += 1;
    }
    count
}

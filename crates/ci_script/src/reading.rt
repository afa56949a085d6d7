//! What a line says.
ghost use Rattle.std.specs.Prelude.{◌≡◌, true};
ghost use Rattle.ci_script.specs.Events as events;
ghost use Rattle.ci_script.specs.Scripts.{is_forward_reading};

use crate::forms::kind_of;
use crate::parts::split_word;
use crate::words::word_named;
use ci_base::Event;
use ci_literals::Edge;

/// What a line says.
#[derive(Drop)]
pub(crate) enum Reading {
    /// It is blank or a comment.
    Nothing,
    Event(Event),
    /// It has no word of an event.
    UnknownEvent,
    /// What stands behind the word doesn't fit it.
    BadArgument,
}

/// What a line says.
pub(crate) fn read_line(line: &[u8]) -> Reading
    ensures value { result ≡ events.reading line.now }
    ensures forward { is_forward_reading result ≡ true }
{
    reading_of(Edge::Blanks.trimmed(line))
}

/// What a line says that has no blanks at its ends.
fn reading_of(line: &[u8]) -> Reading
    ensures value { result ≡ events.reading_of line.now }
    ensures forward { is_forward_reading result ≡ true }
{
    if line.is_empty() || line[0] == b'!' {
        return Reading::Nothing;
    }
    let (word, behind) = split_word(line);
    if b"soon".as_slice().eq_ignore_ascii_case(word) {
        event_in(true, behind)
    } else {
        event_in(false, line)
    }
}

/// An event's word, and then its parts.
fn event_in(soon: bool, bytes: &[u8]) -> Reading
    ensures value { result ≡ events.event_in soon bytes.now }
    ensures forward { is_forward_reading result ≡ true }
{
    let (word, parts) = split_word(bytes);
    match word_named(word) {
        None => Reading::UnknownEvent,
        Some(word) => match kind_of(word, parts) {
            Some(what) => Reading::Event(Event { soon, what }),
            None => Reading::BadArgument,
        },
    }
}

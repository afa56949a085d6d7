//! What happens by an event, by the parts behind its word.
ghost use Rattle.std.specs.Prelude.{◌≡◌, true, IfSome};
ghost use Rattle.ci_base.specs.Letters.{begins};
ghost use Rattle.ci_base.specs.TextFunctions.{is_blank};
ghost use Rattle.ci_script.specs.Forms as forms;
ghost use Rattle.ci_script.specs.Scripts.{is_forward_event};

use crate::parts::{Mark, closes, is_short_name, split_word};
use crate::words::Word;
use ci_base::{EventKind, Text, Value};
use ci_literals::{Edge, read_int, read_text};

/// What happens by the event of this word with these parts, if they fit it.
pub(crate) fn kind_of(word: Word, parts: &[u8]) -> Option<EventKind>
    ensures value { result ≡ forms.kind_of word parts.now }
    ensures forward { IfSome result (λ what. is_forward_event what ≡ true) }
{
    match word {
        Word::Run => run_of(parts),
        Word::Tick => tick_of(parts),
        Word::Kill => match read_int(parts) {
            Some(n) => Some(EventKind::Kill { n }),
            None => None,
        },
        Word::Suspend => match read_int(parts) {
            Some(n) => Some(EventKind::Suspend { n }),
            None => None,
        },
        Word::Resume => match read_int(parts) {
            Some(n) => Some(EventKind::Resume { n }),
            None => None,
        },
        Word::Set => set_of(parts),
        Word::Signal => match text_of(parts) {
            Some(name) => Some(EventKind::Signal { name }),
            None => None,
        },
        Word::Put => put_of(parts),
    }
}

/// NAME(LIST): the list reaches from the first `(` to the `)` at the end.
fn run_of(parts: &[u8]) -> Option<EventKind>
    ensures value { result ≡ forms.run_of parts.now }
    ensures forward { IfSome result (λ what. is_forward_event what ≡ true) }
{
    if closes(parts) {
        match Mark::Bracket.halves(&parts[..parts.len() - 1]) {
            Some((name, list)) => run_named(Edge::Blanks.trimmed(name), list),
            None => None,
        }
    } else {
        None
    }
}

/// The start of a task, where the name is one and the list is no longer than a text.
fn run_named(name: &[u8], list: &[u8]) -> Option<EventKind>
    ensures value { result ≡ forms.run_named name.now list.now }
    ensures forward { IfSome result (λ what. is_forward_event what ≡ true) }
{
    if !is_short_name(name) {
        return None;
    }
    match (Text::of(name), Text::of(list)) {
        (Some(name), Some(list)) => Some(EventKind::Run { name, list }),
        _ => None,
    }
}

/// N, which isn't negative.
fn tick_of(parts: &[u8]) -> Option<EventKind>
    ensures value { result ≡ forms.kind_of Word.Tick parts.now }
    ensures forward { IfSome result (λ what. is_forward_event what ≡ true) }
{
    match read_int(parts) {
        Some(ms) if ms >= 0 => Some(EventKind::Tick { ms }),
        _ => None,
    }
}

/// NAME = V.
fn set_of(parts: &[u8]) -> Option<EventKind>
    ensures value { result ≡ forms.kind_of Word.Set parts.now }
    ensures forward { IfSome result (λ what. is_forward_event what ≡ true) }
{
    match Mark::Equals.halves(parts) {
        Some((name, value)) => set_named(
            Edge::Blanks.trimmed(name),
            value_of(Edge::Blanks.trimmed(value)),
        ),
        None => None,
    }
}

/// The writing of a value, where there is one and the name is one.
fn set_named(name: &[u8], value: Option<Value>) -> Option<EventKind>
    ensures value { result ≡ forms.set_named name.now value }
    ensures forward { IfSome result (λ what. is_forward_event what ≡ true) }
{
    if !is_short_name(name) {
        return None;
    }
    match (Text::of(name), value) {
        (Some(name), Some(value)) => Some(EventKind::Set { name, value }),
        _ => None,
    }
}

/// An INT or a text.
fn value_of(bytes: &[u8]) -> Option<Value>
    ensures { result ≡ forms.value_of bytes.now }
{
    if bytes.len() > 0 && bytes[0] == b'"' {
        match text_of(bytes) {
            Some(text) => Some(Value::Str(text)),
            None => None,
        }
    } else {
        match read_int(bytes) {
            Some(n) => Some(Value::Int(n)),
            None => None,
        }
    }
}

/// A text, and nothing behind it.
fn text_of(bytes: &[u8]) -> Option<Text>
    ensures { result ≡ forms.text_of bytes.now }
{
    match read_text(bytes) {
        Some((text, rest)) if rest.is_empty() => Some(text),
        _ => None,
    }
}

/// TEXT N TEXT.
fn put_of(parts: &[u8]) -> Option<EventKind>
    ensures value { result ≡ forms.kind_of Word.Put parts.now }
    ensures forward { IfSome result (λ what. is_forward_event what ≡ true) }
{
    match read_text(parts) {
        Some((name, rest)) if begins_blank(rest) => {
            let (sort, text) = split_word(Edge::Blanks.trimmed(rest));
            put_element(name, read_int(sort), text_of(text))
        }
        _ => None,
    }
}

/// The putting of an element, where it is whole.
fn put_element(name: Text, sort: Option<i32>, text: Option<Text>) -> Option<EventKind>
    ensures value { result ≡ forms.put_element name sort text }
    ensures forward { IfSome result (λ what. is_forward_event what ≡ true) }
{
    match (sort, text) {
        (Some(sort), Some(text)) => Some(EventKind::Put { name, sort, text }),
        _ => None,
    }
}

/// Whether a space or a tab stands at the front.
fn begins_blank(bytes: &[u8]) -> bool
    ensures { result ≡ begins is_blank bytes.now }
{
    bytes.len() > 0 && Edge::Blanks.leaves_out(bytes[0])
}

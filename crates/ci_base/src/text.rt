//! The STRING of the language.
ghost use Rattle.std.specs.Prelude.{◌≡◌, ◌+◌, ◌<◌, ◌≤◌, ◌↔◌, [], ◌++◌, length, IsNone, IfSome};
ghost use Rattle.ci_base.specs.declared.bounds.TheConstants.{MOST_TEXT_BYTES};

use crate::bounds::MOST_TEXT_BYTES;
use arrayvec::ArrayVec;
use std::marker::Model;

/// A text of at most 255 bytes, which need not be UTF-8. Contracts see the list of its bytes.
#[derive(Debug, PartialEq, Eq, Drop)]
pub struct Text {
    kept: ArrayVec<u8, MOST_TEXT_BYTES>,
}

impl Model for Text {
    ghost use Rattle.ci_base.specs.declared.bounds.TheConstants.{MOST_TEXT_BYTES};
    ghost use Rattle.std.specs.Prelude.{List, ℕ, ◌≤◌, length};

    ghost Value = { List ℕ };

    ghost view = { λ text. text.kept.items };

    ghost invariant = { λ text. length text.kept.items ≤ MOST_TEXT_BYTES };

    ghost inverse = { λ bytes. record { kept = record { items = bytes } } };
}

impl Default for Text {
    ghost is_default = { λ text. text ≡ [] };

    fn default() -> Text {
        Text::empty()
    }
}

impl Text {
    /// The text without bytes.
    pub fn empty() -> Text
        ensures { result ≡ [] }
    {
        Text {
            kept: ArrayVec::new(),
        }
    }

    /// The text with these bytes, or none where there are more than 255.
    pub fn of(bytes: &[u8]) -> Option<Text>
        ensures none { IsNone result ↔ (MOST_TEXT_BYTES < length bytes.now) }
        ensures some { IfSome result (λ text. text ≡ bytes.now) }
        ensures within { IfSome result (λ text. length text ≤ MOST_TEXT_BYTES) }
    {
        let mut kept = ArrayVec::new();
        match kept.try_extend_from_slice(bytes) {
            Ok(()) => Some(Text { kept }),
            Err(_) => None,
        }
    }

    /// The text with these bytes, of which there are at most 255.
    pub fn of_few(bytes: &[u8]) -> Text
        requires { length bytes.now ≤ MOST_TEXT_BYTES }
        ensures { result ≡ bytes.now }
    {
        let mut kept = ArrayVec::new();
        let _fits = kept.try_extend_from_slice(bytes);
        Text { kept }
    }

    /// The bytes of the text.
    pub fn bytes(&self) -> &[u8]
        ensures value { result.now ≡ self.now }
        ensures within { length result.now ≤ MOST_TEXT_BYTES }
    {
        self.kept.as_slice()
    }

    /// This text followed by the other one, or none where they have more than 255 bytes together.
    pub fn try_join(&self, other: &Text) -> Option<Text>
        ensures none { IsNone result ↔ (MOST_TEXT_BYTES < length self.now + length other.now) }
        ensures some { IfSome result (λ text. text ≡ self.now ++ other.now) }
        ensures within { IfSome result (λ text. length text ≤ MOST_TEXT_BYTES) }
    {
        let mut joined = self.copy();
        match joined.kept.try_extend_from_slice(other.kept.as_slice()) {
            Ok(()) => Some(joined),
            Err(_) => None,
        }
    }

    /// The same text again. Takes no memory.
    pub fn copy(&self) -> Text
        ensures value { result ≡ self.now }
        ensures within { length result ≤ MOST_TEXT_BYTES }
    {
        Text::of_few(self.bytes())
    }
}

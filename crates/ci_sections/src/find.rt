//! Finding a section in the list, and its place there.
ghost use Rattle.std.specs.Prelude.{◌≡◌, ◌≤◌, ◌<◌, length, IfSome};
ghost use Rattle.std.specs.List.{insert, position_from};
ghost use Rattle.ci_shared.specs.declared.object.Section.{Section};
ghost use Rattle.ci_shared.specs.Sections.{with_section};
ghost use Rattle.ci_shared.specs.Words.{comes_first, same_text};

use ci_base::Text;
use ci_shared::Section;
use ci_shared::words::is_same;

/// Where the section of this name stands.
pub(crate) fn at_name(kept: &[Section], text: &Text) -> Option<usize>
    ensures first { result ≡ position_from (λ section. same_text section.name text.now) 0 kept.now }
    ensures within { IfSome result (λ at. at < length kept.now) }
{
    kept.iter().position(|section| is_same(&section.name, text))
}

/// Where a new section of this name comes in.
pub(crate) fn place_for(kept: &[Section], text: &Text) -> usize
    ensures place { (section : Section) → section.name ≡ text.now → insert kept.now result section ≡ with_section section kept.now }
    ensures within { result ≤ length kept.now }
{
    match at_later(kept, text) {
        Some(at) => at,
        None => kept.len(),
    }
}

// Where the first section stands whose name comes after this one, in the order of bytes.
fn at_later(kept: &[Section], text: &Text) -> Option<usize>
    ensures first { result ≡ position_from (λ section. comes_first text.now section.name) 0 kept.now }
    ensures within { IfSome result (λ at. at < length kept.now) }
{
    kept.iter()
        .position(|section| comes_first(text, &section.name))
}

// Whether a text comes before another one, in the order of bytes.
fn comes_first(text: &Text, other: &Text) -> bool
    ensures { result ≡ comes_first text.now other.now }
{
    text.bytes() < other.bytes()
}

/// Who owns a section, and how often.
#[derive(Clone, Copy)]
pub struct Hold {
    pub owner: u32,
    pub count: u32,
}

/// What a section says of that.
pub(crate) fn hold_in(section: &Section) -> Hold
    ensures { result ≡ record { owner = section.now.owner; count = section.now.count } }
{
    Hold {
        owner: section.owner,
        count: section.count,
    }
}

//! Which sections are given on.
ghost use Rattle.std.specs.Prelude.{◌≡◌};
ghost use Rattle.ci_sections.specs.Picked.{picks};

use ci_base::Text;
use ci_shared::Section;
use ci_shared::words::is_same;

/// Those that are given on: the one of a name, or all that a task owns.
#[derive(Drop)]
pub enum Given<'a> {
    Named(&'a Text),
    OwnedBy(u32),
}

/// Whether the section is one of them.
pub(crate) fn picks(given: &Given, section: &Section) -> bool
    ensures { result ≡ picks given.now section.now }
{
    match given {
        Given::Named(text) => is_same(&section.name, text),
        Given::OwnedBy(task) => section.owner == *task,
    }
}

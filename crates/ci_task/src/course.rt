//! Where a run goes on.
ghost use Rattle.std.specs.Prelude.{◌≡◌};
ghost use Rattle.ci_task.specs.declared.active.Active.{Active as Held};
ghost use Rattle.ci_task.specs.Going.{after};
ghost use Rattle.ci_task.specs.Courses.{went_by, led_to};

use crate::active::Active;
use crate::went::Went;

/// Where a run goes on behind an instruction, if it does.
#[derive(Clone, Copy, Debug)]
pub enum Course {
    /// At the next place.
    Next,
    /// At this place of the function that it is in.
    Jump(u32),
    /// In the function that runs now.
    To(Active),
    /// A tick comes next.
    Tick,
    /// The task ends with this code.
    Ends(u8),
    /// It makes a request.
    Asks,
}

impl Course {
    /// The course behind an instruction that doesn't jump.
    #[inline(always)]
    pub fn behind(went: Went) -> Course
        ensures went { went_by result ≡ went }
        ensures place { (a : Held) → led_to a result ≡ after went a }
    {
        match went {
            Went::On => Course::Next,
            Went::Tick => Course::Tick,
            Went::Ends(code) => Course::Ends(code),
            Went::Asks => Course::Asks,
        }
    }
}

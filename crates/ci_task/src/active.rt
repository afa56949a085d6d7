//! The active functions of a task.
ghost use Rattle.std.specs.Prelude.{◌≡◌, ◌+◌, ◌<◌, ◌^◌};
ghost use Rattle.ci_task.specs.Courses.{at_place};
ghost use Rattle.ci_task.specs.Going.{next_place};

/// A function that runs, or waits for the one above it.
#[derive(Clone, Copy, Debug)]
pub struct Active {
    /// Its number.
    pub function: u32,
    /// The place where it goes on.
    pub place: u32,
    /// Where its locals begin on the stack; its operands lie behind them.
    pub base: u32,
    /// The rooms of it and of those below it, together.
    pub rooms: u32,
}

impl Active {
    /// The same at the next place.
    #[inline(always)]
    pub fn next(self) -> Active
        requires { self.place + 1 < 2 ^ 32 }
        ensures { result ≡ next_place self }
    {
        Active {
            function: self.function,
            place: self.place + 1,
            base: self.base,
            rooms: self.rooms,
        }
    }

    /// The same at another place.
    #[inline(always)]
    pub fn at_place(self, place: u32) -> Active
        ensures { result ≡ at_place place self }
    {
        Active {
            function: self.function,
            place,
            base: self.base,
            rooms: self.rooms,
        }
    }
}

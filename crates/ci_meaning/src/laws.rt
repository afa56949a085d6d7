//! What holds of a task on the tree, whatever its project and its answers.
ghost use Rattle.ci_meaning.specs.Laws.{AlwaysMoves, RoomsStaySmall, SoonTicksOrAsks};

/// Each configuration has exactly one of three: a private step that is a tick, one that is none, and a request.
pub fn always_moves()
    ensures { AlwaysMoves }
{}

/// From each configuration finitely many private steps lead to a tick or a request.
pub fn soon_ticks_or_asks()
    ensures { SoonTicksOrAsks }
{}

/// The rooms of the active functions of a task are together at most 4,096, all the time.
pub fn rooms_stay_small()
    ensures { RoomsStaySmall }
{}

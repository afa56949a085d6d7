//! What holds of how long the code of a project is.
ghost use Rattle.ci_emit.specs.Laws.{CodeIsShort};

/// The code of a bound project has fewer than 2^32 places.
pub fn code_is_short()
    ensures { CodeIsShort }
{}

//! Laws of the definitions.
ghost use Rattle.ci_builtin.specs.Laws.{GivesItsKind, SearchesLeast};

/// What a private function gives is of its kind, whatever it is given.
pub fn gives_its_kind()
    ensures { GivesItsKind }
{}

/// A search gives the least offset at or after the one that it begins at, or -1 where the pattern stands at none.
pub fn searches_least()
    ensures { SearchesLeast }
{}

//! Laws over the definitions.
ghost use Rattle.ci_names.specs.Laws.{BoundIsProject, BoundIsSound, FaultsAreInOrder, FaultsNameTokens, FirstIsLeast, FirstIsNoted, KindMeansNoFault, NestingIsSmall, NoKindMeansFault, NodesAreFew, RoomsAreSmall};

/// An expression has a kind exactly where no fault lies in it.
pub fn kind_or_fault()
    ensures kind { KindMeansNoFault }
    ensures no_kind { NoKindMeansFault }
{}

/// The list of all faults is in order, each once, and its first fault comes before every other that a rule finds.
pub fn faults_in_order()
    ensures order { FaultsAreInOrder }
    ensures first { FirstIsLeast }
{}

/// The first fault is the one that a single pass over what the rules find keeps, if it keeps the first so far.
pub fn first_is_noted()
    ensures { FirstIsNoted }
{}

/// Each fault of files that tokens spell stands in one of them, and at one of its tokens.
pub fn faults_name_tokens()
    ensures { FaultsNameTokens }
{}

/// A bound project keeps the limits, each number in it names something, and all kinds and numbers of arguments are right.
pub fn bound_is_sound()
    ensures { BoundIsSound }
{}

/// No function of a project that is bound from derived trees has a room above 4,096.
pub fn rooms_are_small()
    ensures { RoomsAreSmall }
{}

/// No function of a project that is bound from derived trees has more than 32 levels open at once.
pub fn nesting_is_small()
    ensures { NestingIsSmall }
{}

/// A bound project has at most as many nodes as its trees together.
pub fn nodes_are_few()
    ensures { NodesAreFew }
{}

/// What at most 64 trees of files bind to is a project within its limits.
pub fn bound_is_project()
    ensures { BoundIsProject }
{}

//! What holds of the definitions alone.
ghost use Rattle.ci_literals.specs.Laws.{TextIsSpelled};

/// The text that is found at the front is the one that is spelled there, and one is found wherever one is spelled. This function
/// does nothing: its contract is the law.
pub fn text_is_spelled()
    ensures { TextIsSpelled }
{}

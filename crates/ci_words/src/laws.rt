//! Laws over the definitions.
ghost use Rattle.ci_words.specs.Laws.{OneAnswer};

/// Each list of words comes to one order or one fault, and to nothing else.
pub fn words_have_one_answer()
    ensures { OneAnswer }
{}

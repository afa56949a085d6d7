//! What holds of the definitions alone.
ghost use Rattle.ci_lexer.specs.Laws.{HasReading, HasOneList, HasOneFault, NeverBoth};

/// Each source has exactly one list of tokens or exactly one fault, and never both. This function does nothing: its
/// contract is the law.
pub fn one_reading()
    ensures some { HasReading }
    ensures one_list { HasOneList }
    ensures one_fault { HasOneFault }
    ensures not_both { NeverBoth }
{}

//! What the first refused token means, whatever the tokens. A law that rests on another calls it.
ghost use Rattle.ci_grammar.specs.Faults.{FaultsAreExplained};
ghost use Rattle.ci_grammar.specs.FirstWrong.{CompletionIsSpelled, EndIsCutShort, TooDeepWantsLevel, UnexpectedIsWrong};

use ci_parser::tree_or_refused;

/// A token is refused as unexpected exactly where it is the first that is wrong, however many levels may be open: the tokens
/// before it begin a text of the grammar, and with it they begin none.
pub fn unexpected_is_wrong()
    ensures { UnexpectedIsWrong }
{
    tree_or_refused();
}

/// A token is refused as too deep exactly where it is the first that is wrong, and one level more would make it right: the tokens
/// before it begin a text of the grammar, and with it they begin none with 32 levels, and one with 33.
pub fn too_deep_wants_level()
    ensures { TooDeepWantsLevel }
{
    tree_or_refused();
}

/// The end of the tokens is refused exactly where they begin a text of the grammar and are none.
pub fn end_is_cut_short()
    ensures { EndIsCutShort }
{
    tree_or_refused();
}

/// Tokens that begin a text of the grammar are completed by tokens that a source can have: names that are no keywords, numbers of 32
/// bits, and so on.
pub fn completion_is_spelled()
    ensures { CompletionIsSpelled }
{
    tree_or_refused();
}

/// So each fault of `ci_parser::parse` but want of memory says what is wrong with the tokens: which of them is the first that is
/// wrong, whether at any depth or for want of a level, or that they are cut short.
pub fn faults_are_explained()
    ensures { FaultsAreExplained }
{
    unexpected_is_wrong();
    too_deep_wants_level();
    end_is_cut_short();
}

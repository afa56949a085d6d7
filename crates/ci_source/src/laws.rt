//! Laws of what sources mean.
ghost use Rattle.ci_source.specs.Laws.{HaveOneFirstFault, NeverBothMeanings, HaveOneProject, HaveOneTrees, HaveMeanings};

use ci_lexer::one_reading;
use ci_names::first_is_noted;
use ci_parser::{one_tree, tree_or_refused};

/// Sources have at most one list of trees, one project and one first fault, and no first fault where they have a project. This
/// rests on the laws of the lexer and of the grammar, which it calls.
pub fn one_meaning()
    ensures one_fault { HaveOneFirstFault }
    ensures never_both { NeverBothMeanings }
    ensures one_project { HaveOneProject }
    ensures one_trees { HaveOneTrees }
{
    one_reading();
    tree_or_refused();
    one_tree();
}

/// Sources have a project or a first fault, however many there are and however long. With `one_meaning`, they have exactly one
/// of the two. This rests on the laws of the lexer, the grammar and the names, which it calls.
pub fn some_meaning()
    ensures { HaveMeanings }
{
    one_reading();
    tree_or_refused();
    first_is_noted();
}

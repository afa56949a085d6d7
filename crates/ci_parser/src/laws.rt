//! What holds of the grammar and of the first refused token, whatever the tokens.
ghost use Rattle.ci_parser.specs.OfGrammar.{TreeOrRefused, OneTree, TokenForEachNode};

/// Tokens have a tree exactly where none of them is refused.
pub fn tree_or_refused()
    ensures { TreeOrRefused }
{}

/// Tokens have at most one tree.
pub fn one_tree()
    ensures { OneTree }
{}

/// Each node of a tree has a token of its own: a tree has at most as many nodes as there are tokens that spell it.
pub fn token_for_each_node()
    ensures { TokenForEachNode }
{}

//! From the tokens of a source to its tree.
ghost use Rattle.std.specs.Prelude.{IfOk, IfErr};
ghost use Rattle.ci_tree.specs.Grammar.{derives};
ghost use Rattle.ci_tree.specs.Seen.{items_of};
ghost use Rattle.ci_expressions.specs.Gives.{kinds};
ghost use Rattle.ci_parser.specs.Refusals.{IsRefusal};

use crate::items::items;
use ci_expressions::ParseFault;
use ci_tree::{FileTree, TokenList};
use std::alloc::Global;

/// The tree that the tokens spell, or the first of them that is refused.
pub fn parse(alloc: Global, tokens: &TokenList) -> Result<FileTree, ParseFault>
    ensures ok { IfOk result (λ tree. derives (kinds tokens.now) (items_of tree)) }
    ensures err { IfErr result (λ fault. IsRefusal (kinds tokens.now) fault) }
{
    let found = items(alloc, tokens.tokens())?;
    Ok(FileTree::of(found))
}

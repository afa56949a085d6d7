//! Reading sources: their trees and their project, or why there is none.
ghost use Rattle.std.specs.Prelude.{◌<◌, ◌≤◌, All, List, [], length, map, take, slice_index_or, IfOk, IfErr};
ghost use Rattle.ci_base.specs.declared.bounds.TheConstants.{MOST_FILES, MOST_SOURCE_BYTES};
ghost use Rattle.ci_binder.specs.Refusals.{IsRefusal as IsBindRefusal};
ghost use Rattle.ci_source.specs.Compiling.{parse_to, compiles, HasTokens, HasTree};
ghost use Rattle.ci_source.specs.Sources.{Parses, HasLexicalFault, HasGrammarFault};
ghost use Rattle.ci_source.specs.Telling.{ReadsTo, IsRefusedAs, IsToldOf};
ghost use Rattle.ci_tree.specs.Seen.{items_of};
ghost use Rattle.ci_tree.specs.SeenBound.{project_of};
ghost use Rattle.ci_tree.specs.Tokens.{tokens};
ghost use Rattle.ci_tree.specs.Tree.{Item};

use crate::compiled::Compiled;
use crate::telling::{SourceFault, grammar_fault, lexical_fault, named_fault};
use ci_base::Bytes;
use ci_binder::{BindFault, bind};
use ci_lexer::lex;
use ci_parser::parse;
use ci_tree::{FileTree, FileTrees, TokenList};
use std::alloc::Global;

/// The trees and the project of at most 64 sources of at most 262,144 bytes each, or their first fault. `Memory` may come for all
/// sources. Sources have one project or one first fault and never both (`one_meaning`), so each answer but `Memory` comes exactly
/// where its clause says.
pub fn read_sources(alloc: Global, sources: &[Bytes]) -> Result<Compiled, SourceFault>
    requires few { length sources.now ≤ MOST_FILES }
    requires within { All (λ source. length source ≤ MOST_SOURCE_BYTES) sources.now }
    ensures ok { IfOk result (λ compiled. ReadsTo sources.now compiled) }
    ensures compiles { IfOk result (λ compiled. compiles sources.now (project_of compiled.project)) }
    ensures err { IfErr result (λ fault. IsRefusedAs sources.now fault) }
{
    let trees = parse_sources(alloc, sources)?;
    match bind(alloc, &trees) {
        Ok(project) => Ok(Compiled { project, trees }),
        Err(fault) => Err(names_fault(alloc, sources, fault)),
    }
}

/// The tree of each source, or the first fault of their tokens or else of their grammar. The tokens of a source are let go of as soon
/// as its tree is made, so that those of one source at a time take memory.
fn parse_sources(alloc: Global, sources: &[Bytes]) -> Result<FileTrees, SourceFault>
    requires few { length sources.now ≤ MOST_FILES }
    requires within { All (λ source. length source ≤ MOST_SOURCE_BYTES) sources.now }
    ensures ok { IfOk result (λ trees. parse_to sources.now (map items_of trees)) }
    ensures err { IfErr result (λ fault. IsRefusedAs sources.now fault) }
{
    let mut trees = FileTrees::empty(alloc);
    for (file, source) in sources.iter().enumerate() {
        let list = lex_file(alloc, file as u32, source.bytes())?;
        match parse_file(alloc, file as u32, source.bytes(), &list) {
            Ok(tree) => {
                let Ok(()) = trees.add(tree) else {
                    return Err(SourceFault::Memory);
                };
            }
            Err(fault) => return Err(grammar_or_later_fault(alloc, sources, file, fault)),
        }
    }
    Ok(trees)
}

/// The tokens of the source of this number, or its lexical fault.
fn lex_file(alloc: Global, file: u32, source: &[u8]) -> Result<TokenList, SourceFault>
    requires { length source.now ≤ MOST_SOURCE_BYTES }
    ensures ok { IfOk result (λ list. tokens source.now list) }
    ensures err { IfErr result (λ fault. IsToldOf HasLexicalFault file source.now fault) }
{
    match lex(alloc, source) {
        Ok(list) => Ok(list),
        Err(fault) => Err(lexical_fault(file, fault)),
    }
}

/// The tree of the source of this number, which has these tokens, or its fault of grammar.
fn parse_file(
    alloc: Global,
    file: u32,
    source: &[u8],
    list: &TokenList,
) -> Result<FileTree, SourceFault>
    requires within { length source.now ≤ MOST_SOURCE_BYTES }
    requires lexed { tokens source.now list.now }
    ensures ok { IfOk result (λ tree. Parses source.now (items_of tree)) }
    ensures err { IfErr result (λ fault. IsToldOf HasGrammarFault file source.now fault) }
{
    match parse(alloc, list) {
        Ok(tree) => Ok(tree),
        Err(fault) => Err(grammar_fault(file, source, list.tokens(), &fault)),
    }
}

/// The first fault of the sources, of which the one of this number has this fault of grammar and each before it has a tree: a
/// lexical fault of a later one, or else this one.
fn grammar_or_later_fault(
    alloc: Global,
    sources: &[Bytes],
    file: usize,
    fault: SourceFault,
) -> SourceFault
    requires few { length sources.now ≤ MOST_FILES }
    requires number { file < length sources.now }
    requires within { All (λ source. length source ≤ MOST_SOURCE_BYTES) sources.now }
    requires before { All HasTree (take file sources.now) }
    requires own { HasTokens (slice_index_or sources.now file []) }
    requires told { IsToldOf HasGrammarFault file (slice_index_or sources.now file []) fault }
    ensures { IsRefusedAs sources.now result }
{
    for later in file + 1..sources.len() {
        if let Err(lexical) = lex_file(alloc, later as u32, sources[later].bytes()) {
            return lexical;
        }
    }
    fault
}

/// What is told of a fault of the names and kinds of sources that have trees. Since their tokens are gone, those of the source with
/// the fault are read once more for its offset.
fn names_fault(alloc: Global, sources: &[Bytes], fault: BindFault) -> SourceFault
    requires few { length sources.now ≤ MOST_FILES }
    requires within { All (λ source. length source ≤ MOST_SOURCE_BYTES) sources.now }
    requires bound { (trees : List (List Item)) × parse_to sources.now trees × IsBindRefusal trees fault }
    ensures { IsRefusedAs sources.now result }
{
    match fault {
        BindFault::Memory => SourceFault::Memory,
        BindFault::Fault { file, token, kind } => {
            let source = sources[file as usize].bytes();
            match lex_file(alloc, file, source) {
                Ok(list) => named_fault(file, source, list.tokens(), token, kind),
                Err(fault) => fault,
            }
        }
    }
}

//! What is told of refused sources: the fault, the number of its file, and the offset at which it is told.
ghost use Rattle.std.specs.Prelude.{◌≡◌, ◌≤◌, length};
ghost use Rattle.ci_base.specs.declared.bounds.TheConstants.{MOST_SOURCE_BYTES};
ghost use Rattle.ci_source.specs.Compiling.{token_offset as offset_of_token};
ghost use Rattle.ci_source.specs.Faults.{name_fault as fault_of_names};
ghost use Rattle.ci_source.specs.Telling.{LexTold, ParseTold, NamesToken};

use crate::fault::{Fault, name_fault};
use ci_lexer::LexFault;
use ci_names::BindKind;
use ci_parser::ParseFault;
use ci_tree::Token;

/// Why sources give no project.
#[derive(Clone, Copy, Debug, PartialEq, Eq)]
pub enum SourceFault {
    /// Their first fault: the number of its file, counted from 0, and the offset in it at which the fault is told.
    Refused {
        file: u32,
        fault: Fault,
        offset: u32,
    },
    /// There was no memory for their tokens, their trees or their project.
    Memory,
}

/// What is told of a lexical fault of the file.
pub(crate) fn lexical_fault(file: u32, fault: LexFault) -> SourceFault
    ensures { LexTold file fault result }
{
    match fault {
        LexFault::StrayByte { at } => refused(file, Fault::StrayByte, at),
        LexFault::OpenString { at } => refused(file, Fault::OpenString, at),
        LexFault::OpenComment { at } => refused(file, Fault::OpenComment, at),
        LexFault::BadEscape { at } => refused(file, Fault::BadEscape, at),
        LexFault::NumberTooLarge { at } => refused(file, Fault::NumberTooLarge, at),
        LexFault::TextTooLong { at } => refused(file, Fault::TextTooLong, at),
        LexFault::NameTooLong { at } => refused(file, Fault::NameTooLong, at),
        LexFault::Memory => SourceFault::Memory,
    }
}

/// What is told of a refused token of the file.
pub(crate) fn grammar_fault(
    file: u32,
    source: &[u8],
    tokens: &[Token],
    fault: &ParseFault,
) -> SourceFault
    requires within { length source.now ≤ MOST_SOURCE_BYTES }
    requires named { NamesToken fault.now tokens.now }
    ensures { ParseTold file source.now tokens.now fault.now result }
{
    match fault {
        ParseFault::Unexpected { at } => refused(
            file,
            Fault::UnexpectedToken,
            tokens[*at as usize].place,
        ),
        ParseFault::UnexpectedEnd => refused(file, Fault::UnexpectedEnd, source.len() as u32),
        ParseFault::TooDeep { at } => refused(
            file,
            Fault::NestingTooDeep,
            tokens[*at as usize].place,
        ),
        ParseFault::Memory => SourceFault::Memory,
    }
}

/// What is told of a fault of names or kinds at the token of this index.
pub(crate) fn named_fault(
    file: u32,
    source: &[u8],
    tokens: &[Token],
    token: u32,
    kind: BindKind,
) -> SourceFault
    requires { length source.now ≤ MOST_SOURCE_BYTES }
    ensures { result ≡ SourceFault.Refused file (fault_of_names kind) (offset_of_token source.now tokens.now token) }
{
    refused(file, name_fault(kind), token_offset(source, tokens, token))
}

/// Where the token of this index stands in the source; its end, where there is none.
fn token_offset(source: &[u8], tokens: &[Token], index: u32) -> u32
    requires { length source.now ≤ MOST_SOURCE_BYTES }
    ensures { result ≡ offset_of_token source.now tokens.now index }
{
    match tokens.get(index as usize) {
        Some(token) => token.place,
        None => source.len() as u32,
    }
}

/// The file is refused with this fault, told at this offset.
fn refused(file: u32, fault: Fault, offset: u32) -> SourceFault
    ensures { result ≡ SourceFault.Refused file fault offset }
{
    SourceFault::Refused {
        file,
        fault,
        offset,
    }
}

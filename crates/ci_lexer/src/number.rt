//! Numbers.
ghost use Rattle.std.specs.Prelude.{◌≡◌, ◌+◌, ◌^◌, ◌<◌, ◌≤◌, false, IfOk, IfErr, length, true, MatchOption, ◌++◌};
ghost use Rattle.ci_lexer.specs.Faults.{FaultAt};
ghost use Rattle.ci_lexer.specs.Fronts.{FrontAt};
ghost use Rattle.ci_lexer.specs.Leads.{Leads};
ghost use Rattle.ci_base.specs.declared.bounds.TheConstants.{MOST_SOURCE_BYTES};
ghost use Rattle.ci_base.specs.Letters.{begins, is_letter};
ghost use Rattle.ci_base.specs.Numbers.{is_number, number_limit, number_value};
ghost use Rattle.ci_tree.specs.Shapes.{IsWhole};
ghost use Rattle.ci_lexer.specs.Numbers.{hex_start};

use crate::fault::LexFault;
use crate::lead::Lead;
use crate::run::{Class, split_run};
use crate::step::{Front, Step};
use ci_literals::{is_hex_digit, is_letter, value_of};
use ci_tree::TokenKind;

/// A number, behind which no letter and no `_` may stand. Takes no memory.
pub fn scan_number(rest: &[u8], at: u32) -> Result<Step<'_>, LexFault>
    requires lead { Leads Lead.Digit rest.now }
    requires short { at + length rest.now ≤ MOST_SOURCE_BYTES }
    ensures ok { IfOk result (λ step. FrontAt step.front rest.now step.rest.now) }
    ensures err { IfErr result (λ fault. FaultAt (at + length rest.now) rest.now fault) }
{
    if begins_hexadecimal(rest) {
        scan_hexadecimal(rest, at)
    } else {
        scan_decimal(rest, at)
    }
}

/// Whether 0, x and a hexadecimal digit stand at the front.
fn begins_hexadecimal(rest: &[u8]) -> bool
    ensures { result ≡ hex_start rest.now }
{
    rest.len() > 2
        && rest[0] == b'0'
        && (rest[1] == b'x' || rest[1] == b'X')
        && is_hex_digit(rest[2])
}

fn scan_hexadecimal(rest: &[u8], at: u32) -> Result<Step<'_>, LexFault>
    requires start { hex_start rest.now ≡ true }
    requires short { at + length rest.now ≤ MOST_SOURCE_BYTES }
    ensures ok { IfOk result (λ step. FrontAt step.front rest.now step.rest.now) }
    ensures err { IfErr result (λ fault. FaultAt (at + length rest.now) rest.now fault) }
{
    let (digits, behind) = split_run(&rest[2..], Class::HexDigit);
    let value = value_of(digits, 16, u32::MAX);
    number(rest, &rest[..2 + digits.len()], behind, value, at)
}

fn scan_decimal(rest: &[u8], at: u32) -> Result<Step<'_>, LexFault>
    requires lead { Leads Lead.Digit rest.now }
    requires no_start { hex_start rest.now ≡ false }
    requires short { at + length rest.now ≤ MOST_SOURCE_BYTES }
    ensures ok { IfOk result (λ step. FrontAt step.front rest.now step.rest.now) }
    ensures err { IfErr result (λ fault. FaultAt (at + length rest.now) rest.now fault) }
{
    let (digits, behind) = split_run(rest, Class::Digit);
    let value = value_of(digits, 10, 2_147_483_648);
    number(rest, digits, behind, value, at)
}

/// The token of a number that is spelled so, unless a letter or `_` stands behind it. Its value is none where it is above
/// the limit.
fn number<'s>(
    rest: &'s [u8],
    spelled: &[u8],
    behind: &'s [u8],
    value: Option<u32>,
    at: u32,
) -> Result<Step<'s>, LexFault>
    requires whole { rest.now ≡ spelled.now ++ behind.now }
    requires number { is_number spelled.now ≡ true }
    requires longest { IsWhole spelled.now behind.now }
    requires value { MatchOption value (number_limit spelled.now < number_value spelled.now) (λ n. (n ≡ number_value spelled.now) × (n ≤ number_limit spelled.now)) }
    requires short { at + length rest.now ≤ MOST_SOURCE_BYTES }
    ensures ok { IfOk result (λ step. FrontAt step.front rest.now step.rest.now) }
    ensures err { IfErr result (λ fault. FaultAt (at + length rest.now) rest.now fault) }
{
    match value {
        None => Err(LexFault::NumberTooLarge { at }),
        Some(_) if begins_letter(behind) => Err(LexFault::StrayByte {
            at: at + spelled.len() as u32,
        }),
        Some(value) => Ok(Step {
            front: Front::Token(TokenKind::Number(value.cast_signed())),
            rest: behind,
        }),
    }
}

/// Whether a letter or `_` stands at the front.
fn begins_letter(bytes: &[u8]) -> bool
    ensures { result ≡ begins is_letter bytes.now }
{
    bytes.len() > 0 && is_letter(bytes[0])
}

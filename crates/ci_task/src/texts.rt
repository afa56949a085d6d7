//! The instructions on texts that are met most: they read the texts where they stand.
ghost use Rattle.std.specs.Prelude.{◌≡◌, List, ℕ, take, drop};
ghost use Rattle.ci_base.specs.TextFunctions as functions;
ghost use Rattle.ci_base.specs.declared.function.PrivateName.TheVariants as names;
ghost use Rattle.ci_code.specs.declared.instruction.Instruction.TheVariants as does;
ghost use Rattle.ci_task.specs.declared.went.Went.TheVariants.{On};
ghost use Rattle.ci_task.specs.Going.{CanHeard, DoesHeard};

use crate::active::Active;
use crate::heard::Heard;
use crate::outcomes::fail;
use crate::went::Went;
use ci_base::bounds::MOST_TEXT_BYTES;
use ci_base::errors::TEXT_TOO_LONG;
use ci_base::{Kind, Relation};
use ci_builtin::{relates, truth};
use ci_code::RawParts;
use ci_stack::TaskStack;

/// Two texts give place to what a relation says of them.
pub fn compare(
    code: &RawParts,
    relation: Relation,
    at: Active,
    stack: &mut TaskStack,
    heard: &Heard,
)
    requires can { CanHeard code.now (does.CmpStr relation) at stack.old heard.now }
    ensures { DoesHeard code.now (does.CmpStr relation) at stack.old heard.now On stack.new heard.now }
{
    let count = stack.count();
    let low = count - 2;
    let high = count - 1;
    let first = stack.text_at(low);
    let second = stack.text_at(high);
    let order = first.cmp(&second);
    let answer = truth(relates(relation, order));
    stack.replace_by_number(2, answer);
}

/// Two texts give place to both, one behind the other; a run error where that is too long.
pub fn join(code: &RawParts, at: Active, stack: &mut TaskStack, heard: &mut Heard) -> Went
    requires can { CanHeard code.now does.Cat at stack.old heard.old }
    ensures { DoesHeard code.now does.Cat at stack.old heard.old result stack.new heard.new }
{
    let count = stack.count();
    let low = count - 2;
    let high = count - 1;
    let first = stack.text_at(low);
    let second = stack.text_at(high);
    if first.len() + second.len() > MOST_TEXT_BYTES {
        return fail(2, Kind::Str, TEXT_TOO_LONG, stack, heard);
    }
    stack.join_last();
    Went::On
}

/// A text and two INTs give place to a part of the text.
pub fn take_part(code: &RawParts, at: Active, stack: &mut TaskStack, heard: &Heard)
    requires can { CanHeard code.now (does.Private names.StrMid) at stack.old heard.now }
    ensures { DoesHeard code.now (does.Private names.StrMid) at stack.old heard.now On stack.new heard.now }
{
    let count = stack.count();
    let last = count - 1;
    let second = count - 2;
    let most = stack.number_at(last);
    let from = stack.number_at(second);
    let start = count_of(from);
    let many = part_of(from, most);
    stack.keep_part(2, start, many);
}

/// How many bytes a part asks for: none where its offset is negative.
fn part_of(from: i32, most: i32) -> usize
    ensures { (s : List ℕ) → take result (drop (functions.count_of from) s) ≡ functions.mid s from most }
{
    if from < 0 { 0 } else { count_of(most) }
}

/// How many bytes an INT asks for: none where it is negative.
fn count_of(n: i32) -> usize
    ensures { result ≡ functions.count_of n }
{
    if n < 0 { 0 } else { n as usize }
}

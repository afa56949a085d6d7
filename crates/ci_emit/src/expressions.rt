//! Expressions: the code of each is put down, and the kind of what it leaves is given.
ghost use Rattle.std.specs.Prelude.{◌≡◌, ◌+◌, [], ◌∷◌, ◌++◌, IfOk, OnOk};
ghost use Rattle.ci_base.specs.declared.value.Kind.TheVariants.{Int, Str};
ghost use Rattle.ci_code.specs.declared.instruction.Instruction.TheVariants as does;
ghost use Rattle.ci_translation.specs.Drafts as code;
ghost use Rattle.ci_translation.specs.Drafts.{expr_code, call_code, links_code, args_code, que_code, links_leave, kind_in, step};
ghost use Rattle.ci_translation.specs.Instructions as stands;
ghost use Rattle.ci_translation.specs.Instructions.{left_kind};
ghost use Rattle.ci_emit.specs.Contexts.{context, heads};
ghost use Rattle.ci_emit.specs.Writing.{Writes, Argues};
ghost use Rattle.ci_tree.specs.Bound as tree;
ghost use Rattle.ci_tree.specs.LeftOut.{call_given};
ghost use Rattle.ci_tree.specs.SeenBound.{scalar_of, callee_of, expr_of, exprs_of, call_of, link_of, links_of};
ghost use Rattle.ci_tree.specs.Sound.{Context, call_kind};

use crate::arguments::left_out;
use crate::instructions::{calling, operated, operating, reading, turning, writing};
use crate::kinds::{array_kind, gives, scalar_kind};
use crate::word::word;
use crate::writer::Writer;
use ci_base::{Bytes, Kind, OutOfMemory, SharedName};
use ci_code::Instruction;
use ci_tree::Operator;
use ci_tree::bound::{Call, Callee, Expr, Function, Link, ProjectParts, Scalar};

/// A text.
fn literal(writer: &mut Writer, text: &Bytes) -> Result<Kind, OutOfMemory>
    ensures code { (c : Context) → OnOk result (Writes writer.old writer.new (λ below p. expr_code c below p (tree.literal text.now))) }
    ensures kind { IfOk result (λ kind. kind ≡ Str) }
{
    writer.put_text(text.bytes())?;
    Ok(Kind::Str)
}

/// A variable is read.
fn scalar(
    parts: &ProjectParts,
    function: &Function,
    writer: &mut Writer,
    of: Scalar,
) -> Result<Kind, OutOfMemory>
    ensures code { OnOk result (Writes writer.old writer.new (λ below p. expr_code (context parts.now function.now) below p (tree.scalar (scalar_of of)))) }
    ensures kind { IfOk result (λ kind. kind ≡ kind_in (context parts.now function.now) (tree.scalar (scalar_of of))) }
{
    writer.put(reading(of))?;
    Ok(scalar_kind(parts, function, of))
}

/// An expression.
#[cycle(expressions)]
pub(crate) fn expression(
    parts: &ProjectParts,
    function: &Function,
    writer: &mut Writer,
    expr: &Expr,
) -> Result<Kind, OutOfMemory>
    ensures code { OnOk result (Writes writer.old writer.new (λ below p. expr_code (context parts.now function.now) below p (expr_of (heads parts.now) expr.now))) }
    ensures kind { IfOk result (λ kind. kind ≡ kind_in (context parts.now function.now) (expr_of (heads parts.now) expr.now)) }
{
    match expr {
        Expr::Number { value } => {
            writer.put(Instruction::PushInt(*value))?;
            Ok(Kind::Int)
        }
        Expr::Literal { text } => literal(writer, text),
        Expr::Scalar { of } => scalar(parts, function, writer, *of),
        Expr::Element { array, index } => element(parts, function, writer, *array, index.get()),
        Expr::Called { call: what } => call(parts, function, writer, what),
        Expr::Unary { minus, operand } => unary(parts, function, writer, *minus, operand.get()),
        Expr::Chain { first, rest } => {
            let kind = expression(parts, function, writer, first.get())?;
            links(parts, function, writer, kind, rest.as_slice())
        }
    }
}

/// An expression whose code stands over these operands too.
#[cycle(expressions)]
pub(crate) fn expression_over(
    parts: &ProjectParts,
    function: &Function,
    writer: &mut Writer,
    kinds: &[Kind],
    expr: &Expr,
) -> Result<Kind, OutOfMemory>
    ensures code { OnOk result (Writes writer.old writer.new (λ below p. expr_code (context parts.now function.now) (below ++ kinds.now) p (expr_of (heads parts.now) expr.now))) }
    ensures kind { IfOk result (λ kind. kind ≡ kind_in (context parts.now function.now) (expr_of (heads parts.now) expr.now)) }
{
    let depth = writer.depth();
    writer.over(kinds)?;
    let kind = expression(parts, function, writer, expr)?;
    writer.back_to(depth);
    Ok(kind)
}

/// An element is read.
#[cycle(expressions)]
fn element(
    parts: &ProjectParts,
    function: &Function,
    writer: &mut Writer,
    array: usize,
    index: &Expr,
) -> Result<Kind, OutOfMemory>
    ensures code { OnOk result (Writes writer.old writer.new (λ below p. expr_code (context parts.now function.now) below p (tree.element array (expr_of (heads parts.now) index.now)))) }
    ensures kind { IfOk result (λ kind. kind ≡ kind_in (context parts.now function.now) (tree.element array (expr_of (heads parts.now) index.now))) }
{
    expression(parts, function, writer, index)?;
    writer.put_over(&[Kind::Int], Instruction::ReadAt(word(array)))?;
    Ok(array_kind(parts, function, array))
}

/// `-` or NOT of an operand.
#[cycle(expressions)]
fn unary(
    parts: &ProjectParts,
    function: &Function,
    writer: &mut Writer,
    minus: bool,
    operand: &Expr,
) -> Result<Kind, OutOfMemory>
    ensures code { OnOk result (Writes writer.old writer.new (λ below p. expr_code (context parts.now function.now) below p (tree.unary minus (expr_of (heads parts.now) operand.now)))) }
    ensures kind { IfOk result (λ kind. kind ≡ Int) }
{
    expression(parts, function, writer, operand)?;
    writer.put_over(&[Kind::Int], turning(minus))?;
    Ok(Kind::Int)
}

/// The members of a chain behind those that leave this kind.
#[cycle(expressions)]
fn links(
    parts: &ProjectParts,
    function: &Function,
    writer: &mut Writer,
    left: Kind,
    rest: &[Link],
) -> Result<Kind, OutOfMemory>
    ensures code { OnOk result (Writes writer.old writer.new (λ below p. links_code (context parts.now function.now) below left p (links_of (heads parts.now) rest.now))) }
    ensures kind { IfOk result (λ kind. kind ≡ links_leave left (links_of (heads parts.now) rest.now)) }
{
    let mut kind = left;
    for member in rest {
        let behind = link(parts, function, writer, kind, member)?;
        kind = behind;
    }
    Ok(kind)
}

/// One member of a chain behind those that leave this kind.
#[cycle(expressions)]
fn link(
    parts: &ProjectParts,
    function: &Function,
    writer: &mut Writer,
    left: Kind,
    member: &Link,
) -> Result<Kind, OutOfMemory>
    ensures code { OnOk result (Writes writer.old writer.new (λ below p. links_code (context parts.now function.now) below left p (tree.links_from (link_of (heads parts.now) member.now ∷ [])))) }
    ensures kind { IfOk result (λ kind. kind ≡ links_leave left (tree.links_from (link_of (heads parts.now) member.now ∷ []))) }
{
    match member {
        Link::Operand {
            operator,
            operand: right,
        } => operand(parts, function, writer, left, *operator, right),
        Link::Hashes { count } => hashes(writer, *count),
    }
}

/// `:` and its hashes.
fn hashes(writer: &mut Writer, count: u32) -> Result<Kind, OutOfMemory>
    ensures code { (c : Context) (left : Kind) → OnOk result (Writes writer.old writer.new (λ below p. links_code c below left p (tree.hashes count tree.no_link))) }
    ensures kind { IfOk result (λ kind. kind ≡ Str) }
{
    writer.put_over(&[Kind::Int], Instruction::Form(count))?;
    Ok(Kind::Str)
}

/// The right operand of an operator, and the operator.
#[cycle(expressions)]
fn operand(
    parts: &ProjectParts,
    function: &Function,
    writer: &mut Writer,
    left: Kind,
    operator: Operator,
    right: &Expr,
) -> Result<Kind, OutOfMemory>
    ensures code { OnOk result (Writes writer.old writer.new (λ below p. links_code (context parts.now function.now) below left p (tree.operand operator (expr_of (heads parts.now) right.now) tree.no_link))) }
    ensures kind { IfOk result (λ kind. kind ≡ left_kind (stands.operated operator left)) }
{
    expression_over(parts, function, writer, &[left], right)?;
    writer.put_over(&[left, left], operating(operator, left))?;
    Ok(operated(operator, left))
}

/// A call, and the kind of what it leaves.
#[cycle(expressions)]
pub(crate) fn call(
    parts: &ProjectParts,
    function: &Function,
    writer: &mut Writer,
    what: &Call,
) -> Result<Kind, OutOfMemory>
    ensures code { OnOk result (Writes writer.old writer.new (λ below p. call_code (context parts.now function.now) below p (call_of (heads parts.now) what.now))) }
    ensures kind { IfOk result (λ kind. kind ≡ left_kind (call_kind (context parts.now function.now) (call_of (heads parts.now) what.now))) }
{
    match what {
        Call::Plain { callee, args } => {
            plain_call(parts, function, writer, *callee, args.as_slice())
        }
        Call::QueRead {
            queue,
            sort,
            text,
            mode,
        } => {
            let targets = Targets {
                sort: *sort,
                text: *text,
            };
            expression(parts, function, writer, queue.get())?;
            expression_over(parts, function, writer, &[Kind::Int], mode.get())?;
            take_element(writer, targets)?;
            Ok(Kind::Int)
        }
    }
}

/// A call with these arguments in the source.
#[cycle(expressions)]
fn plain_call(
    parts: &ProjectParts,
    function: &Function,
    writer: &mut Writer,
    callee: Callee,
    args: &[Expr],
) -> Result<Kind, OutOfMemory>
    ensures code { OnOk result (Writes writer.old writer.new (λ below p. call_code (context parts.now function.now) below p (call_given (heads parts.now) (callee_of callee) (exprs_of (heads parts.now) args.now)))) }
    ensures kind { IfOk result (λ kind. kind ≡ left_kind (call_kind (context parts.now function.now) (call_given (heads parts.now) (callee_of callee) (exprs_of (heads parts.now) args.now)))) }
{
    let depth = writer.depth();
    arguments(parts, function, writer, args)?;
    left_out(parts, writer, callee, args.len())?;
    writer.put(calling(callee))?;
    writer.back_to(depth);
    Ok(gives(parts, function, callee))
}

/// The arguments that stand in the source.
#[cycle(expressions)]
fn arguments(
    parts: &ProjectParts,
    function: &Function,
    writer: &mut Writer,
    args: &[Expr],
) -> Result<(), OutOfMemory>
    ensures { OnOk result (Argues (context parts.now function.now) writer.old writer.new (exprs_of (heads parts.now) args.now)) }
{
    for arg in args {
        let kind = expression(parts, function, writer, arg)?;
        writer.over(&[kind])?;
    }
    Ok(())
}

/// The variables that QueRead sets.
#[derive(Clone, Copy)]
struct Targets {
    sort: Scalar,
    text: Scalar,
}

/// The request of QueRead over its two operands; where its answer is 0, the element is assigned.
fn take_element(writer: &mut Writer, targets: Targets) -> Result<(), OutOfMemory>
    ensures { OnOk result (Writes writer.old writer.new (λ below p. que_code below p (scalar_of targets.sort) (scalar_of targets.text))) }
{
    writer.put_over(
        &[Kind::Int, Kind::Int],
        Instruction::Ask(SharedName::QueRead),
    )?;
    writer.put_over(&[Kind::Int], Instruction::Dup)?;
    writer.jump_if_zero(&[Kind::Int, Kind::Int], 2, 0)?;
    writer.jump(&[Kind::Int], 5, 0)?;
    set_targets(writer, targets)?;
    Ok(())
}

/// The element is assigned.
fn set_targets(writer: &mut Writer, targets: Targets) -> Result<(), OutOfMemory>
    ensures { OnOk result (Writes writer.old writer.new (λ below p. step (below ++ Int ∷ []) does.TakeSort
        ∷ step (below ++ Int ∷ Int ∷ []) (stands.writing (scalar_of targets.sort))
        ∷ step (below ++ Int ∷ []) does.TakeText
        ∷ step (below ++ Int ∷ Str ∷ []) (stands.writing (scalar_of targets.text))
        ∷ [])) }
{
    writer.put_over(&[Kind::Int], Instruction::TakeSort)?;
    writer.put_over(&[Kind::Int, Kind::Int], writing(targets.sort))?;
    writer.put_over(&[Kind::Int], Instruction::TakeText)?;
    writer.put_over(&[Kind::Int, Kind::Str], writing(targets.text))?;
    Ok(())
}

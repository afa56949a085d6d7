//! Statements without statements in them: the code of each is put down.
ghost use Rattle.std.specs.Prelude.{◌≡◌, ℕ, OnOk};
ghost use Rattle.ci_translation.specs.Drafts.{stmt_code};
ghost use Rattle.ci_emit.specs.Contexts.{context, heads};
ghost use Rattle.ci_emit.specs.Writing.{Writes};
ghost use Rattle.ci_tree.specs.Bound as tree;
ghost use Rattle.ci_tree.specs.SeenBound.{scalar_of, expr_of, call_of};

use crate::expressions::{call, expression, expression_over};
use crate::instructions::writing;
use crate::kinds::kind_or_int;
use crate::word::word;
use crate::writer::Writer;
use ci_base::{Kind, OutOfMemory};
use ci_code::Instruction;
use ci_tree::bound::{Call, Expr, Function, ProjectParts, Scalar};

/// A variable is assigned.
pub(crate) fn assign(
    parts: &ProjectParts,
    function: &Function,
    writer: &mut Writer,
    to: Scalar,
    value: &Expr,
) -> Result<(), OutOfMemory>
    ensures { (at : ℕ) → OnOk result (Writes writer.old writer.new (λ below p. stmt_code (context parts.now function.now) below p (tree.assign at (scalar_of to) (expr_of (heads parts.now) value.now)))) }
{
    writer.put(Instruction::Tick)?;
    let kind = expression(parts, function, writer, value)?;
    writer.put_over(&[kind], writing(to))?;
    Ok(())
}

/// An element is assigned.
pub(crate) fn assign_element(
    parts: &ProjectParts,
    function: &Function,
    writer: &mut Writer,
    array: usize,
    index: &Expr,
    value: &Expr,
) -> Result<(), OutOfMemory>
    ensures { (at : ℕ) → OnOk result (Writes writer.old writer.new (λ below p. stmt_code (context parts.now function.now) below p (tree.assign_element at array (expr_of (heads parts.now) index.now) (expr_of (heads parts.now) value.now)))) }
{
    writer.put(Instruction::Tick)?;
    expression(parts, function, writer, index)?;
    let kind = expression_over(parts, function, writer, &[Kind::Int], value)?;
    writer.put_over(&[Kind::Int, kind], Instruction::WriteAt(word(array)))?;
    Ok(())
}

/// A call stands alone: what it leaves is dropped.
pub(crate) fn call_alone(
    parts: &ProjectParts,
    function: &Function,
    writer: &mut Writer,
    what: &Call,
) -> Result<(), OutOfMemory>
    ensures { (at : ℕ) → OnOk result (Writes writer.old writer.new (λ below p. stmt_code (context parts.now function.now) below p (tree.call_of at (call_of (heads parts.now) what.now)))) }
{
    writer.put(Instruction::Tick)?;
    let kind = call(parts, function, writer, what)?;
    writer.put_over(&[kind], Instruction::Drop)?;
    Ok(())
}

/// RETURN with its value.
pub(crate) fn give_back(
    parts: &ProjectParts,
    function: &Function,
    writer: &mut Writer,
    value: &Expr,
) -> Result<(), OutOfMemory>
    ensures { (at : ℕ) → OnOk result (Writes writer.old writer.new (λ below p. stmt_code (context parts.now function.now) below p (tree.return at (expr_of (heads parts.now) value.now)))) }
{
    writer.put(Instruction::Tick)?;
    expression(parts, function, writer, value)?;
    writer.put_over(&[kind_or_int(function.gives)], Instruction::Return)?;
    Ok(())
}

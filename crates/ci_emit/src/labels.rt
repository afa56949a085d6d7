//! The labels of a clause of SELECT, each of which is tried over the subject.
ghost use Rattle.std.specs.Prelude.{◌≡◌, ℕ, ◌+◌, [], ◌∷◌, ◌++◌, map, OnOk};
ghost use Rattle.ci_translation.specs.Drafts.{pick_code, match_code, label_code, labels_code};
ghost use Rattle.ci_emit.specs.Contexts.{context, heads};
ghost use Rattle.ci_emit.specs.Pads.{word};
ghost use Rattle.ci_emit.specs.Writing.{Writes};
ghost use Rattle.ci_tree.specs.Bound as tree;
ghost use Rattle.ci_tree.specs.SeenBound.{expr_of, label_of};

use crate::expressions::expression_over;
use crate::instructions::{comparing, within};
use crate::writer::Writer;
use ci_base::{Kind, OutOfMemory, Relation};
use ci_code::Instruction;
use ci_tree::bound::{Expr, Function, Label, ProjectParts};

/// Behind a label's test over a subject of this kind: on to the body where it holds, else to the next label.
fn pick(writer: &mut Writer, subject: Kind, body: u32) -> Result<(), OutOfMemory>
    ensures { (to : ℕ) → body ≡ word to → OnOk result (Writes writer.old writer.new (λ below p. pick_code (below ++ subject ∷ []) to p)) }
{
    writer.jump_if_zero(&[subject, Kind::Int], 2, 0)?;
    writer.put_over(&[subject], Instruction::Jump(body))?;
    Ok(())
}

/// A label of one value, which the subject is to stand to so.
fn match_label(
    parts: &ProjectParts,
    function: &Function,
    writer: &mut Writer,
    subject: Kind,
    body: u32,
    relation: Relation,
    value: &Expr,
) -> Result<(), OutOfMemory>
    ensures { (to : ℕ) → body ≡ word to → OnOk result (Writes writer.old writer.new (λ below p. match_code (context parts.now function.now) below subject relation to p (expr_of (heads parts.now) value.now))) }
{
    writer.put_over(&[subject], Instruction::Dup)?;
    expression_over(parts, function, writer, &[subject, subject], value)?;
    writer.put_over(&[subject, subject, subject], comparing(relation, subject))?;
    pick(writer, subject, body)?;
    Ok(())
}

/// A label of all values from one to another.
fn range_label(
    parts: &ProjectParts,
    function: &Function,
    writer: &mut Writer,
    subject: Kind,
    body: u32,
    low: &Expr,
    high: &Expr,
) -> Result<(), OutOfMemory>
    ensures { (to : ℕ) → body ≡ word to → OnOk result (Writes writer.old writer.new (λ below p. label_code (context parts.now function.now) below subject to p (tree.range (expr_of (heads parts.now) low.now) (expr_of (heads parts.now) high.now)))) }
{
    writer.put_over(&[subject], Instruction::Dup)?;
    expression_over(parts, function, writer, &[subject, subject], low)?;
    expression_over(parts, function, writer, &[subject, subject, subject], high)?;
    writer.put_over(&[subject, subject, subject, subject], within(subject))?;
    pick(writer, subject, body)?;
    Ok(())
}

/// A label.
fn label(
    parts: &ProjectParts,
    function: &Function,
    writer: &mut Writer,
    subject: Kind,
    body: u32,
    label: &Label,
) -> Result<(), OutOfMemory>
    ensures { (to : ℕ) → body ≡ word to → OnOk result (Writes writer.old writer.new (λ below p. label_code (context parts.now function.now) below subject to p (label_of (heads parts.now) label.now))) }
{
    match label {
        Label::One { value } => {
            match_label(
                parts,
                function,
                writer,
                subject,
                body,
                Relation::Equal,
                value,
            )
        }
        Label::Range { low, high } => {
            range_label(parts, function, writer, subject, body, low, high)
        }
        Label::Is { relation, value } => {
            match_label(parts, function, writer, subject, body, *relation, value)
        }
    }
}

/// The labels of a clause whose body begins at this place.
pub(crate) fn labels(
    parts: &ProjectParts,
    function: &Function,
    writer: &mut Writer,
    subject: Kind,
    body: u32,
    labels: &[Label],
) -> Result<(), OutOfMemory>
    ensures { (to : ℕ) → body ≡ word to → OnOk result (Writes writer.old writer.new (λ below p. labels_code (context parts.now function.now) below subject to p (map (label_of (heads parts.now)) labels.now))) }
{
    for one in labels {
        label(parts, function, writer, subject, body, one)?;
    }
    Ok(())
}

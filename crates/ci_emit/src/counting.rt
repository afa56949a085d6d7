//! The counting of FOR. Its last value stands below all of it.
ghost use Rattle.std.specs.Prelude.{◌≡◌, ℕ, ◌+◌, [], ◌∷◌, ◌++◌, pos, OnOk};
ghost use Rattle.ci_base.specs.declared.relation.Relation.TheVariants as relation;
ghost use Rattle.ci_base.specs.declared.value.Kind.TheVariants.{Int};
ghost use Rattle.ci_code.specs.declared.instruction.Instruction.TheVariants as does;
ghost use Rattle.ci_translation.specs.Drafts.{count_code, raise_code, step};
ghost use Rattle.ci_translation.specs.Instructions.{past};
ghost use Rattle.ci_translation.specs.Instructions as stands;
ghost use Rattle.ci_emit.specs.Pads.{word};
ghost use Rattle.ci_emit.specs.Writing.{Writes};
ghost use Rattle.ci_tree.specs.SeenBound.{scalar_of};

use crate::instructions::{reading, writing};
use crate::writer::Writer;
use ci_base::{Kind, OutOfMemory, Relation};
use ci_code::Instruction;
use ci_tree::bound::Scalar;

/// The test of FOR over a body of so many places: where the counter is above the last value, on to what stands behind FOR.
pub(crate) fn count(writer: &mut Writer, counter: Scalar, body: usize) -> Result<(), OutOfMemory>
    ensures { (size : ℕ) → body ≡ word size → OnOk result (Writes writer.old writer.new (λ below p. count_code below (scalar_of counter) (past 10 (past 5 p + size)))) }
{
    writer.put_over(&[Kind::Int], Instruction::Tick)?;
    writer.put_over(&[Kind::Int], Instruction::Dup)?;
    writer.put_over(&[Kind::Int, Kind::Int], reading(counter))?;
    let compare = Instruction::CmpInt(Relation::AtLeast);
    writer.put_over(&[Kind::Int, Kind::Int, Kind::Int], compare)?;
    writer.jump_if_zero(&[Kind::Int, Kind::Int], 11, body)?;
    Ok(())
}

/// Behind the body of FOR: the counter goes up, and the test at this place is next; at the largest INT, FOR ends.
pub(crate) fn raise(writer: &mut Writer, counter: Scalar, test: u32) -> Result<(), OutOfMemory>
    ensures { (to : ℕ) → test ≡ word to → OnOk result (Writes writer.old writer.new (λ below p. raise_code below (scalar_of counter) p to)) }
{
    writer.put_over(&[Kind::Int], reading(counter))?;
    writer.put_over(&[Kind::Int, Kind::Int], Instruction::Dup)?;
    writer.put_over(
        &[Kind::Int, Kind::Int, Kind::Int],
        Instruction::PushInt(i32::MAX),
    )?;
    let compare = Instruction::CmpInt(Relation::Unequal);
    writer.put_over(&[Kind::Int, Kind::Int, Kind::Int, Kind::Int], compare)?;
    writer.jump_if_zero(&[Kind::Int, Kind::Int, Kind::Int], 5, 0)?;
    go_on(writer, counter, test)?;
    Ok(())
}

/// The counter goes up by 1 and FOR goes on; or FOR ends.
fn go_on(writer: &mut Writer, counter: Scalar, test: u32) -> Result<(), OutOfMemory>
    ensures { (to : ℕ) → test ≡ word to → OnOk result (Writes writer.old writer.new (λ below p. step (below ++ Int ∷ Int ∷ []) (does.PushInt (pos 1))
        ∷ step (below ++ Int ∷ Int ∷ Int ∷ []) does.Add
        ∷ step (below ++ Int ∷ Int ∷ []) (stands.writing (scalar_of counter))
        ∷ step (below ++ Int ∷ []) (does.Jump to)
        ∷ step (below ++ Int ∷ Int ∷ []) does.Drop
        ∷ step (below ++ Int ∷ []) does.Drop
        ∷ [])) }
{
    writer.put_over(&[Kind::Int, Kind::Int], Instruction::PushInt(1))?;
    writer.put_over(&[Kind::Int, Kind::Int, Kind::Int], Instruction::Add)?;
    writer.put_over(&[Kind::Int, Kind::Int], writing(counter))?;
    writer.put_over(&[Kind::Int], Instruction::Jump(test))?;
    writer.put_over(&[Kind::Int, Kind::Int], Instruction::Drop)?;
    writer.put_over(&[Kind::Int], Instruction::Drop)?;
    Ok(())
}

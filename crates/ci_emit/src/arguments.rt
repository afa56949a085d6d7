//! Arguments that the source leaves out: the values that stand for them are put down.
ghost use Rattle.std.specs.Prelude.{◌≡◌, [], ◌∷◌, drop, map, OnOk};
ghost use Rattle.ci_emit.specs.Contexts.{heads};
ghost use Rattle.ci_emit.specs.Writing.{Argues};
ghost use Rattle.ci_tree.specs.Bound as tree;
ghost use Rattle.ci_tree.specs.Bound.{Param as Parameter};
ghost use Rattle.ci_tree.specs.LeftOut as out;
ghost use Rattle.ci_tree.specs.LeftOut.{constant, constants};
ghost use Rattle.ci_tree.specs.SeenBound.{callee_of, param_of};
ghost use Rattle.ci_tree.specs.Sound.{Context};

use crate::writer::Writer;
use ci_base::{Kind, OutOfMemory, SharedName, Value};
use ci_code::Instruction;
use ci_tree::bound::{Callee, Param, ProjectParts};

/// A value, as an argument.
fn constant_argument(writer: &mut Writer, value: &Value) -> Result<(), OutOfMemory>
    ensures { (c : Context) → OnOk result (Argues c writer.old writer.new (tree.more (constant value.now) tree.no_expr)) }
{
    match value {
        Value::Int(n) => {
            writer.put(Instruction::PushInt(*n))?;
            writer.over(&[Kind::Int])?;
            Ok(())
        }
        Value::Str(text) => {
            writer.put_text(text.bytes())?;
            writer.over(&[Kind::Str])?;
            Ok(())
        }
    }
}

/// The values for these parameters, where they have one.
fn defaults(writer: &mut Writer, params: &[Param]) -> Result<(), OutOfMemory>
    ensures { (c : Context) → OnOk result (Argues c writer.old writer.new (constants (map (λ (p : Parameter). p.first) (map param_of params.now)))) }
{
    for param in params {
        default_argument(writer, param)?;
    }
    Ok(())
}

/// The value for this parameter, where it has one.
fn default_argument(writer: &mut Writer, param: &Param) -> Result<(), OutOfMemory>
    ensures { (c : Context) → OnOk result (Argues c writer.old writer.new (constants (param.now.first ∷ []))) }
{
    match &param.first {
        Some(value) => constant_argument(writer, value),
        None => Ok(()),
    }
}

/// The values for the parameters behind so many.
fn defaults_behind(writer: &mut Writer, params: &[Param], given: usize) -> Result<(), OutOfMemory>
    ensures { (c : Context) → OnOk result (Argues c writer.old writer.new (constants (drop given (map (λ (p : Parameter). p.first) (map param_of params.now))))) }
{
    if given < params.len() {
        defaults(writer, &params[given..])?;
        Ok(())
    } else {
        Ok(())
    }
}

/// The values for the arguments that a call leaves out, of which so many stand in the source.
pub(crate) fn left_out(
    parts: &ProjectParts,
    writer: &mut Writer,
    callee: Callee,
    given: usize,
) -> Result<(), OutOfMemory>
    ensures { (c : Context) → OnOk result (Argues c writer.old writer.new (out.left_out (heads parts.now) (callee_of callee) given)) }
{
    match callee {
        Callee::Function(f) => match parts.functions.get(f) {
            Some(function) => defaults_behind(writer, function.params.as_slice(), given),
            None => Ok(()),
        },
        Callee::Private(_) => Ok(()),
        Callee::Shared(name) => shared_left_out(writer, name, given),
    }
}

/// The same of a call of a shared function.
fn shared_left_out(writer: &mut Writer, name: SharedName, given: usize) -> Result<(), OutOfMemory>
    ensures { (c : Context) → OnOk result (Argues c writer.old writer.new (constants (drop given (out.shared_firsts name)))) }
{
    match name {
        SharedName::TaskHnd => {
            if given == 0 {
                writer.put_text(&[])?;
                writer.over(&[Kind::Str])?;
                Ok(())
            } else {
                Ok(())
            }
        }
        _ => Ok(()),
    }
}

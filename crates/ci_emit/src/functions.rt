//! Functions, one after another.
ghost use Rattle.std.specs.Prelude.{◌≡◌, ◌+◌, [], ◌∷◌, ◌++◌, map, IfOk, OnOk};
ghost use Rattle.ci_code.specs.declared.instruction.Instruction.TheVariants as does;
ghost use Rattle.ci_translation.specs.Drafts as code;
ghost use Rattle.ci_translation.specs.Drafts.{block_code, first_step, step};
ghost use Rattle.ci_translation.specs.Instructions.{left_kind};
ghost use Rattle.ci_translation.specs.Translation.{shapes, texts, translation};
ghost use Rattle.ci_emit.specs.Contexts.{context, heads};
ghost use Rattle.ci_emit.specs.Raw.{made_function, without_steps};
ghost use Rattle.ci_emit.specs.Pads.{wrote};
ghost use Rattle.ci_emit.specs.Writing.{Writes};
ghost use Rattle.ci_tree.specs.Rooms.{room as room_of};
ghost use Rattle.ci_tree.specs.SeenBound.{block_of, function_of, project_of};

use crate::kinds::kind_or_int;
use crate::laws::code_is_short;
use crate::statements::block;
use crate::writer::Writer;
use ci_base::{Kind, KindList, OutOfMemory};
use ci_code::{FunctionList, Instruction, RawFunction};
use ci_rules::laws::{translation_fits, translation_keeps_rules};
use ci_tree::Project;
use ci_tree::bound::{Function, Param, ProjectParts};
use std::alloc::Global;

/// 0 or the empty text is left.
fn first_value(writer: &mut Writer, kind: Kind) -> Result<(), OutOfMemory>
    ensures { OnOk result (Writes writer.old writer.new (λ below p. first_step below kind ∷ [])) }
{
    match kind {
        Kind::Int => {
            writer.put(Instruction::PushInt(0))?;
            Ok(())
        }
        Kind::Str => {
            writer.put_text(&[])?;
            Ok(())
        }
    }
}

/// A function's entry, its body, and its END, which gives 0 or the empty text.
fn function_code(
    parts: &ProjectParts,
    function: &Function,
    writer: &mut Writer,
) -> Result<(), OutOfMemory>
    ensures { let kind = left_kind function.now.gives in OnOk result (Writes writer.old writer.new (λ below p. step below does.Tick
        ∷ (block_code (context parts.now function.now) below (p + 1) (block_of (heads parts.now) function.now.body)
        ++ first_step below kind
        ∷ step (below ++ kind ∷ []) does.Return
        ∷ []))) }
{
    let kind = kind_or_int(function.gives);
    writer.put(Instruction::Tick)?;
    block(parts, function, writer, function.body.as_slice())?;
    first_value(writer, kind)?;
    writer.put_over(&[kind], Instruction::Return)?;
    Ok(())
}

/// The kinds of parameters.
fn param_kinds(alloc: Global, params: &[Param]) -> Result<Vec<Kind>, OutOfMemory>
    ensures { IfOk result (λ kinds. kinds.items ≡ map (λ p. p.kind) params.now) }
{
    let mut kinds = Vec::new(alloc);
    for param in params {
        let Ok(()) = kinds.push(param.kind) else {
            return Err(OutOfMemory);
        };
    }
    Ok(kinds)
}

/// The kinds of a function's locals, its parameters first.
fn locals(alloc: Global, function: &Function) -> Result<KindList, OutOfMemory>
    ensures { IfOk result (λ kinds. kinds ≡ map (λ p. p.kind) function.now.params ++ function.now.others) }
{
    let mut kinds = param_kinds(alloc, function.params.as_slice())?;
    match kinds.extend_from_slice(function.others.as_slice()) {
        Ok(()) => Ok(KindList::of(kinds)),
        Err(_) => Err(OutOfMemory),
    }
}

/// The code of a function of the project, which takes this room.
fn raw_function(
    alloc: Global,
    project: &Project,
    writer: &mut Writer,
    function: &Function,
    room: u32,
) -> Result<RawFunction, OutOfMemory>
    requires room { room ≡ room_of (function_of (heads project.now) function.now) }
    requires steps { writer.old.pad.steps ≡ [] }
    requires below { writer.old.below ≡ [] }
    ensures made { IfOk result (λ raw. raw ≡ made_function writer.old.pad (project_of project.now) (function_of (heads project.now) function.now)) }
    ensures pad { OnOk result (writer.new.pad ≡ without_steps (wrote writer.old.pad (code.function_code (project_of project.now) (function_of (heads project.now) function.now)))) }
    ensures below { OnOk result (writer.new.below ≡ []) }
{
    let locals = locals(alloc, function)?;
    function_code(project.parts(), function, writer)?;
    Ok(RawFunction {
        gives: function.gives,
        room,
        locals,
        steps: writer.take_steps(),
    })
}

/// The code of all functions of the project, which take these rooms. The tables are filled by the way.
pub(crate) fn functions(
    alloc: Global,
    project: &Project,
    rooms: &[u32],
    writer: &mut Writer,
) -> Result<FunctionList, OutOfMemory>
    requires rooms { rooms.now ≡ map room_of (project_of project.now).functions }
    requires nothing { writer.old ≡ record { pad = record { texts = []; shapes = []; steps = [] }; below = [] } }
    ensures functions { IfOk result (λ functions. functions ≡ (translation (project_of project.now)).functions) }
    ensures texts { OnOk result (writer.new.pad.texts ≡ texts (project_of project.now)) }
    ensures shapes { OnOk result (writer.new.pad.shapes ≡ shapes (project_of project.now)) }
{
    code_is_short();
    translation_fits();
    translation_keeps_rules();
    let mut made = Vec::new(alloc);
    let all = project.parts().functions.as_slice();
    for (number, function) in all.iter().enumerate() {
        let one = raw_function(alloc, project, writer, function, rooms[number])?;
        let Ok(()) = made.push(one) else {
            return Err(OutOfMemory);
        };
    }
    Ok(FunctionList::of(made))
}

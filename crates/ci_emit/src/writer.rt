//! The code that is put down, with the operands that stand where it ends.
ghost use Rattle.std.specs.Prelude.{◌≡◌, ℕ, ◌+◌, [], ◌∷◌, ◌++◌, length, map, take, OnOk};
ghost use Rattle.ci_code.specs.declared.instruction.Instruction.{Instruction as Does};
ghost use Rattle.ci_code.specs.declared.instruction.Instruction.TheVariants as does;
ghost use Rattle.ci_translation.specs.Drafts.{step, text_step};
ghost use Rattle.ci_emit.specs.Raw.{without_steps};
ghost use Rattle.ci_emit.specs.Pads.{word, in_word};
ghost use Rattle.ci_emit.specs.Writing.{Writes};

use crate::pad::Pad;
use crate::word::word_behind;
use ci_base::{Kind, OutOfMemory};
use ci_code::{Instruction, StepList};
use std::alloc::Global;
use std::marker::Model;

/// What has been put down, and the kinds of the operands that stand below what comes next. Contracts see both.
#[derive(Drop)]
pub(crate) struct Writer {
    pad: Pad,
    below: Vec<Kind>,
}

impl Model for Writer {
    ghost use Rattle.ci_emit.specs.Writing.{Writing};

    ghost Value = { Writing };

    ghost view = { λ writer. record { pad = writer.pad; below = writer.below.items } };
}

impl Writer {
    /// Nothing put down. Takes no memory.
    pub(crate) fn empty(alloc: Global) -> Writer
        ensures { result ≡ record { pad = record { texts = []; shapes = []; steps = [] }; below = [] } }
    {
        Writer {
            pad: Pad::empty(alloc),
            below: Vec::new(alloc),
        }
    }

    /// The texts of the tables.
    pub(crate) fn texts(&self) -> &[Vec<u8>]
        ensures { map (λ text. text.items) result.now ≡ self.now.pad.texts }
    {
        self.pad.texts()
    }

    /// The shapes of the tables.
    pub(crate) fn shapes(&self) -> &[Vec<Kind>]
        ensures { map (λ shape. shape.items) result.now ≡ self.now.pad.shapes }
    {
        self.pad.shapes()
    }

    /// The steps, and none are left.
    pub(crate) fn take_steps(&mut self) -> StepList
        ensures steps { result ≡ self.old.pad.steps }
        ensures pad { self.new.pad ≡ without_steps self.old.pad }
        ensures below { self.new.below ≡ self.old.below }
    {
        self.pad.take_steps()
    }

    /// The place of what comes next.
    pub(crate) fn place(&self) -> usize
        ensures { result ≡ length self.now.pad.steps }
    {
        self.pad.place()
    }

    /// How many operands stand below what comes next.
    pub(crate) fn depth(&self) -> usize
        ensures { result ≡ length self.now.below }
    {
        self.below.len()
    }

    /// These operands stand there too.
    pub(crate) fn over(&mut self, kinds: &[Kind]) -> Result<(), OutOfMemory>
        ensures pad { OnOk result (self.new.pad ≡ self.old.pad) }
        ensures below { OnOk result (self.new.below ≡ self.old.below ++ kinds.now) }
    {
        match self.below.extend_from_slice(kinds) {
            Ok(()) => Ok(()),
            Err(_) => Err(OutOfMemory),
        }
    }

    /// No more than so many operands stand there.
    pub(crate) fn back_to(&mut self, depth: usize)
        ensures pad { self.new.pad ≡ self.old.pad }
        ensures below { self.new.below ≡ take depth self.old.below }
    {
        self.below.truncate(depth);
    }

    /// Puts down an instruction.
    pub(crate) fn put(&mut self, what: Instruction) -> Result<(), OutOfMemory>
        ensures { (code : Does) → what ≡ in_word code → OnOk result (Writes self.old self.new (λ below p. step below code ∷ [])) }
    {
        self.pad.put(self.below.as_slice(), what)
    }

    /// Puts down an instruction, over these operands and those below.
    pub(crate) fn put_over(&mut self, kinds: &[Kind], what: Instruction) -> Result<(), OutOfMemory>
        ensures { (code : Does) → what ≡ in_word code → OnOk result (Writes self.old self.new (λ below p. step (below ++ kinds.now) code ∷ [])) }
    {
        let depth = self.below.len();
        let Ok(()) = self.below.extend_from_slice(kinds) else {
            return Err(OutOfMemory);
        };
        self.pad.put(self.below.as_slice(), what)?;
        self.below.truncate(depth);
        Ok(())
    }

    /// Puts down a jump, over these operands and those below, to the place that lies so many places behind its own.
    pub(crate) fn jump(
        &mut self,
        kinds: &[Kind],
        more: usize,
        size: usize,
    ) -> Result<(), OutOfMemory>
        ensures { (to : ℕ) → word to ≡ word (length self.old.pad.steps + (more + size)) → OnOk result (Writes self.old self.new (λ below p. step (below ++ kinds.now) (does.Jump to) ∷ [])) }
    {
        let to = word_behind(self.place(), more, size);
        self.put_over(kinds, Instruction::Jump(to))
    }

    /// The same of a jump where the latest operand is 0.
    pub(crate) fn jump_if_zero(
        &mut self,
        kinds: &[Kind],
        more: usize,
        size: usize,
    ) -> Result<(), OutOfMemory>
        ensures { (to : ℕ) → word to ≡ word (length self.old.pad.steps + (more + size)) → OnOk result (Writes self.old self.new (λ below p. step (below ++ kinds.now) (does.JumpIfZero to) ∷ [])) }
    {
        let to = word_behind(self.place(), more, size);
        self.put_over(kinds, Instruction::JumpIfZero(to))
    }

    /// Puts down that a text is left.
    pub(crate) fn put_text(&mut self, text: &[u8]) -> Result<(), OutOfMemory>
        ensures { OnOk result (Writes self.old self.new (λ below p. text_step below text.now ∷ [])) }
    {
        self.pad.put_text(self.below.as_slice(), text)
    }
}

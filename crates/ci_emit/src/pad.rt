//! The tables and steps that are put down.
ghost use Rattle.std.specs.Prelude.{◌≡◌, [], length, map, OnOk};
ghost use Rattle.ci_emit.specs.Raw.{without_steps};
ghost use Rattle.ci_emit.specs.Pads.{with_step, with_text};

use crate::table::Table;
use crate::word::word;
use ci_base::{Kind, OutOfMemory};
use ci_code::{Instruction, Step, StepList};
use std::alloc::Global;
use std::marker::Model;
use std::mem::replace;

/// The tables of a project's code, and the steps of the function at hand. Contracts see the three lists.
#[derive(Drop)]
pub(crate) struct Pad {
    alloc: Global,
    texts: Table<u8>,
    shapes: Table<Kind>,
    steps: Vec<Step>,
}

impl Model for Pad {
    ghost use Rattle.ci_emit.specs.Pads.{Pad as Seen};

    ghost Value = { Seen };

    ghost view = { λ pad. record { texts = pad.texts; shapes = pad.shapes; steps = pad.steps.items } };
}

impl Pad {
    /// Nothing put down. Takes no memory.
    pub(crate) fn empty(alloc: Global) -> Pad
        ensures { result ≡ record { texts = []; shapes = []; steps = [] } }
    {
        Pad {
            alloc,
            texts: Table::empty(alloc),
            shapes: Table::empty(alloc),
            steps: Vec::new(alloc),
        }
    }

    /// The texts of the tables.
    pub(crate) fn texts(&self) -> &[Vec<u8>]
        ensures { map (λ text. text.items) result.now ≡ self.now.texts }
    {
        self.texts.lists()
    }

    /// The shapes of the tables.
    pub(crate) fn shapes(&self) -> &[Vec<Kind>]
        ensures { map (λ shape. shape.items) result.now ≡ self.now.shapes }
    {
        self.shapes.lists()
    }

    /// The steps, and none are left.
    pub(crate) fn take_steps(&mut self) -> StepList
        ensures steps { result ≡ self.old.steps }
        ensures left { self.new ≡ without_steps self.old }
    {
        StepList::of(replace(&mut self.steps, Vec::new(self.alloc)))
    }

    /// The place of what comes next.
    pub(crate) fn place(&self) -> usize
        ensures { result ≡ length self.now.steps }
    {
        self.steps.len()
    }

    /// Puts down an instruction, over operands of these kinds.
    #[tactic(auto, unfolding(crate::specs::Pads::with_step))]
    pub(crate) fn put(&mut self, before: &[Kind], what: Instruction) -> Result<(), OutOfMemory>
        ensures { OnOk result (self.new ≡ with_step self.old before.now what) }
    {
        let shape = self.shapes.note(self.alloc, before)?;
        match self.steps.push(Step {
            shape: word(shape),
            what,
        }) {
            Ok(()) => Ok(()),
            Err(_) => Err(OutOfMemory),
        }
    }

    /// Puts down that a text is left, over operands of these kinds.
    #[tactic(auto, unfolding(crate::specs::Pads::with_step, crate::specs::Pads::with_text))]
    pub(crate) fn put_text(&mut self, before: &[Kind], text: &[u8]) -> Result<(), OutOfMemory>
        ensures { OnOk result (self.new ≡ with_text self.old before.now text.now) }
    {
        let text = self.texts.note(self.alloc, text)?;
        self.put(before, Instruction::PushStr(word(text)))
    }
}

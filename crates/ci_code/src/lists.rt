//! The lists of code. Each is made from a `Vec` without memory, and contracts see the list.
ghost use Rattle.std.specs.Prelude.{◌≡◌};

use crate::instruction::Step;
use crate::raw::{Cells, RawFunction};
use ci_base::{KindList, Text};
use std::marker::Model;

/// Texts, by their numbers from 0. Contracts see the list.
#[derive(Debug, Drop)]
pub struct TextList {
    kept: Vec<Text>,
}

impl Model for TextList {
    ghost use Rattle.std.specs.Prelude.{List, ℕ};

    ghost Value = { List (List ℕ) };

    ghost view = { λ list. list.kept.items };
}

impl TextList {
    /// The list of these. Takes no memory.
    pub fn of(members: Vec<Text>) -> TextList
        ensures { result ≡ members.items }
    {
        TextList { kept: members }
    }

    /// The members, in order.
    pub fn members(&self) -> &[Text]
        ensures { result.now ≡ self.now }
    {
        self.kept.as_slice()
    }
}

/// Shapes, by their numbers from 0: the kinds of operands that stand at once, the latest last. Contracts see the list.
#[derive(Debug, Drop)]
pub struct ShapeList {
    kept: Vec<KindList>,
}

impl Model for ShapeList {
    ghost use Rattle.std.specs.Prelude.{List};
    ghost use Rattle.ci_base.specs.declared.value.Kind.{Kind};

    ghost Value = { List (List Kind) };

    ghost view = { λ list. list.kept.items };
}

impl ShapeList {
    /// The list of these. Takes no memory.
    pub fn of(members: Vec<KindList>) -> ShapeList
        ensures { result ≡ members.items }
    {
        ShapeList { kept: members }
    }

    /// The members, in order.
    pub fn members(&self) -> &[KindList]
        ensures { result.now ≡ self.now }
    {
        self.kept.as_slice()
    }
}

/// The steps of a function, by their places from 0. Contracts see the list.
#[derive(Debug, Drop)]
pub struct StepList {
    kept: Vec<Step>,
}

impl Model for StepList {
    ghost use Rattle.std.specs.Prelude.{List};
    ghost use Rattle.ci_code.specs.declared.instruction.Step.{Step as Member};

    ghost Value = { List Member };

    ghost view = { λ list. list.kept.items };
}

impl StepList {
    /// The list of these. Takes no memory.
    pub fn of(members: Vec<Step>) -> StepList
        ensures { result ≡ members.items }
    {
        StepList { kept: members }
    }

    /// The members, in order.
    pub fn members(&self) -> &[Step]
        ensures { result.now ≡ self.now }
    {
        self.kept.as_slice()
    }
}

/// Arrays, by their numbers from 0. Contracts see the list.
#[derive(Debug, Drop)]
pub struct ArrayList {
    kept: Vec<Cells>,
}

impl Model for ArrayList {
    ghost use Rattle.std.specs.Prelude.{List};
    ghost use Rattle.ci_code.specs.declared.raw.Cells.{Cells as Member};

    ghost Value = { List Member };

    ghost view = { λ list. list.kept.items };
}

impl ArrayList {
    /// The list of these. Takes no memory.
    pub fn of(members: Vec<Cells>) -> ArrayList
        ensures { result ≡ members.items }
    {
        ArrayList { kept: members }
    }

    /// The members, in order.
    pub fn members(&self) -> &[Cells]
        ensures { result.now ≡ self.now }
    {
        self.kept.as_slice()
    }
}

/// Functions, by their numbers from 0. Contracts see the list.
#[derive(Debug, Drop)]
pub struct FunctionList {
    kept: Vec<RawFunction>,
}

impl Model for FunctionList {
    ghost use Rattle.std.specs.Prelude.{List};
    ghost use Rattle.ci_code.specs.declared.raw.RawFunction.{RawFunction as Member};

    ghost Value = { List Member };

    ghost view = { λ list. list.kept.items };
}

impl FunctionList {
    /// The list of these. Takes no memory.
    pub fn of(members: Vec<RawFunction>) -> FunctionList
        ensures { result ≡ members.items }
    {
        FunctionList { kept: members }
    }

    /// The members, in order.
    pub fn members(&self) -> &[RawFunction]
        ensures { result.now ≡ self.now }
    {
        self.kept.as_slice()
    }
}

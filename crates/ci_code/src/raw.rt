//! Code of which nothing is known but that its lists fit one another.
ghost use Rattle.std.specs.Prelude.{◌≡◌};
ghost use Rattle.ci_code.specs.Code.{IsCode};

use crate::lists::{ArrayList, FunctionList, ShapeList, StepList, TextList};
use ci_base::{Kind, KindList, Layout};
use std::marker::Model;

/// An array: its cells follow one another.
#[derive(Clone, Copy, Debug)]
pub struct Cells {
    /// The number of its first cell.
    pub first: u32,
    /// The kind of each of its cells.
    pub kind: Kind,
    /// How many cells it has.
    pub length: u32,
}

/// The code of a function.
#[derive(Debug, Drop)]
pub struct RawFunction {
    /// The kind of its value. One without a kind gives an INT that nobody reads.
    pub gives: Option<Kind>,
    /// How many values it may hold at once, its locals among them.
    pub room: u32,
    /// The kinds of its locals, its parameters first.
    pub locals: KindList,
    /// Its instructions, by their places from 0.
    pub steps: StepList,
}

/// The parts of code.
#[derive(Debug, Drop)]
pub struct RawParts {
    /// What the shared state knows of it: its functions with what they take, its cells, and its GLOBAL scalars.
    pub layout: Layout,
    pub texts: TextList,
    pub arrays: ArrayList,
    pub shapes: ShapeList,
    /// The code of the layout's functions, one for each.
    pub functions: FunctionList,
}

/// Code whose lists fit one another: each function of the layout has its code, whose first locals are of its parameters' kinds;
/// its defaults are of its last parameters' kinds; names are names of the language; each cell's first value is of the cell's
/// kind; the cells of the GLOBAL scalars rise; and each list has fewer than 2^32 members. Contracts see its parts.
#[derive(Debug, Drop)]
pub struct RawCode {
    kept: RawParts,
}

impl Model for RawCode {
    ghost use Rattle.ci_code.specs.declared.raw.RawParts.{RawParts};
    ghost use Rattle.ci_code.specs.Code.{IsCode};

    ghost Value = { RawParts };

    ghost view = { λ code. code.kept };

    ghost invariant = { λ code. IsCode code.kept };
}

impl RawCode {
    /// The code of these parts. Takes no memory.
    pub fn of(parts: RawParts) -> RawCode
        requires { IsCode parts }
        ensures { result ≡ parts }
    {
        RawCode { kept: parts }
    }

    /// Its layout, tables and functions.
    pub fn parts(&self) -> &RawParts
        ensures value { result.now ≡ self.now }
        ensures kept { IsCode result.now }
    {
        &self.kept
    }
}

//! Code as the tests write it.
use ci_assembly::assemble;
use ci_base::{
    CellHead, CellHeadList, GlobalList, Head, HeadList, Kind, KindList, Layout, Text, Value,
    ValueList,
};
use ci_code::{
    ArrayList, Cells, FunctionList, Instruction, RawFunction, RawParts, ShapeList, Step, StepList,
    TextList,
};
use ci_verify::{Verified, verify};
use std::alloc::Global;
use std::test::Fail;

/// An instruction, with the number of the shape before it.
pub type Between = (u32, Instruction);

/// A function as a test writes it.
#[derive(Clone, Copy)]
pub struct Plan {
    /// The kinds of its parameters.
    pub takes: &'static [Kind],
    /// The kinds of its other locals.
    pub others: &'static [Kind],
    pub gives: Option<Kind>,
    pub room: u32,
    /// Its first instructions.
    pub before: &'static [Between],
    /// Those behind them.
    pub body: &'static [Between],
    /// Its last ones.
    pub behind: &'static [Between],
}

/// No kinds.
pub static NO_KINDS: [Kind; 0] = [];

/// No instructions.
pub static NO_STEPS: [Between; 0] = [];

/// A function that takes nothing and gives no value.
pub fn first(room: u32, body: &'static [Between]) -> Plan {
    Plan {
        takes: &NO_KINDS,
        others: &NO_KINDS,
        gives: None,
        room,
        before: &NO_STEPS,
        body,
        behind: &NO_STEPS,
    }
}

/// The numbers of the shapes: the kinds of the operands, the latest last.
pub const NONE: u32 = 0;

pub const I: u32 = 1;

pub const S: u32 = 2;

pub const II: u32 = 3;

pub const IS: u32 = 4;

pub const SI: u32 = 5;

pub const SS: u32 = 6;

pub const III: u32 = 7;

pub const IIS: u32 = 8;

pub const ISI: u32 = 9;

pub const ISS: u32 = 10;

pub const SII: u32 = 11;

pub const SIS: u32 = 12;

pub const SSI: u32 = 13;

pub const SSS: u32 = 14;

/// The shapes, by their numbers.
static SHAPES: [&[Kind]; 15] = [
    &[],
    &[Kind::Int],
    &[Kind::Str],
    &[Kind::Int, Kind::Int],
    &[Kind::Int, Kind::Str],
    &[Kind::Str, Kind::Int],
    &[Kind::Str, Kind::Str],
    &[Kind::Int, Kind::Int, Kind::Int],
    &[Kind::Int, Kind::Int, Kind::Str],
    &[Kind::Int, Kind::Str, Kind::Int],
    &[Kind::Int, Kind::Str, Kind::Str],
    &[Kind::Str, Kind::Int, Kind::Int],
    &[Kind::Str, Kind::Int, Kind::Str],
    &[Kind::Str, Kind::Str, Kind::Int],
    &[Kind::Str, Kind::Str, Kind::Str],
];

/// The texts, by their numbers.
static TEXTS: [&[u8]; 2] = [b"hi", b"x"];

/// The kinds of the cells: an INT, a STRING, and an array of two INT.
static CELLS: [Kind; 4] = [Kind::Int, Kind::Str, Kind::Int, Kind::Int];

/// A list of these kinds, the first ones before the others.
fn kinds(alloc: Global, first: &[Kind], others: &[Kind]) -> Result<KindList, Fail> {
    let mut list = Vec::new(alloc);
    for kind in first {
        list.push(*kind)?;
    }
    for kind in others {
        list.push(*kind)?;
    }
    Ok(KindList::of(list))
}

/// These steps come behind those that are there.
fn add_steps(list: &mut Vec<Step>, steps: &[Between]) -> Result<(), Fail> {
    for (shape, what) in steps {
        list.push(Step {
            shape: *shape,
            what: *what,
        })?;
    }
    Ok(())
}

/// The steps of a plan.
fn steps(alloc: Global, plan: &Plan) -> Result<StepList, Fail> {
    let mut list = Vec::new(alloc);
    add_steps(&mut list, plan.before)?;
    add_steps(&mut list, plan.body)?;
    add_steps(&mut list, plan.behind)?;
    Ok(StepList::of(list))
}

/// The shapes.
fn shapes(alloc: Global) -> Result<ShapeList, Fail> {
    let mut list = Vec::new(alloc);
    for shape in SHAPES.iter() {
        list.push(kinds(alloc, shape, &[])?)?;
    }
    Ok(ShapeList::of(list))
}

/// The texts.
fn texts(alloc: Global) -> Result<TextList, Fail> {
    let mut list = Vec::new(alloc);
    for bytes in TEXTS.iter() {
        list.push(text(bytes))?;
    }
    Ok(TextList::of(list))
}

/// The cells.
fn cells(alloc: Global) -> Result<CellHeadList, Fail> {
    let mut list = Vec::new(alloc);
    for kind in CELLS.iter() {
        list.push(cell(*kind))?;
    }
    Ok(CellHeadList::of(list))
}

/// A cell of this kind.
fn cell(kind: Kind) -> CellHead {
    let first = match kind {
        Kind::Int => Value::Int(0),
        Kind::Str => Value::Str(Text::empty()),
    };
    CellHead { kind, first }
}

/// The text of these bytes, of which there are at most 255.
pub fn text(bytes: &[u8]) -> Text {
    match Text::of(bytes) {
        Some(text) => text,
        None => Text::empty(),
    }
}

/// What the layout says of a plan.
fn head(alloc: Global, plan: &Plan) -> Result<Head, Fail> {
    Ok(Head {
        name: text(b"Main"),
        public: true,
        kinds: kinds(alloc, plan.takes, &[])?,
        defaults: ValueList::of(Vec::new(alloc)),
    })
}

/// The function of a plan.
fn function(alloc: Global, plan: &Plan) -> Result<RawFunction, Fail> {
    Ok(RawFunction {
        gives: plan.gives,
        room: plan.room,
        locals: kinds(alloc, plan.takes, plan.others)?,
        steps: steps(alloc, plan)?,
    })
}

/// The arrays.
fn arrays(alloc: Global) -> Result<ArrayList, Fail> {
    let mut list = Vec::new(alloc);
    list.push(Cells {
        first: 2,
        kind: Kind::Int,
        length: 2,
    })?;
    Ok(ArrayList::of(list))
}

/// The parts of code with these functions.
fn parts(alloc: Global, plans: &[Plan]) -> Result<RawParts, Fail> {
    let mut heads = Vec::new(alloc);
    let mut functions = Vec::new(alloc);
    for plan in plans {
        heads.push(head(alloc, plan)?)?;
        functions.push(function(alloc, plan)?)?;
    }
    Ok(RawParts {
        layout: Layout {
            functions: HeadList::of(heads),
            cells: cells(alloc)?,
            globals: GlobalList::of(Vec::new(alloc)),
        },
        texts: texts(alloc)?,
        arrays: arrays(alloc)?,
        shapes: shapes(alloc)?,
        functions: FunctionList::of(functions),
    })
}

/// The code of these functions, which has to break no rule.
pub fn verified(alloc: Global, plans: &[Plan]) -> Result<Verified, Fail> {
    let Some(raw) = assemble(parts(alloc, plans)?) else {
        return Err(Fail::from("the parts don't fit one another"));
    };
    match verify(raw) {
        Ok(code) => Ok(code),
        Err(_) => Err(Fail::from("a rule is broken")),
    }
}

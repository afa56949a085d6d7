//! Code as tests write it.
use ci_assembly::assemble;
use ci_base::{
    CellHead, CellHeadList, Global as Scalar, GlobalList, Head, HeadList, Kind, KindList, Layout,
    Text, Value, ValueList,
};
use ci_code::{
    ArrayList, Cells, FunctionList, Instruction, RawCode, RawFunction, RawParts, ShapeList, Step,
    StepList, TextList,
};
use ci_verify::verify;
use std::alloc::Global;
use std::test::Fail;

/// A function as a test writes it.
#[derive(Clone, Copy)]
pub struct Plan<'a> {
    /// The kinds of its parameters.
    pub takes: &'a [Kind],
    /// The kinds of its other locals.
    pub others: &'a [Kind],
    pub gives: Option<Kind>,
    pub room: u32,
    /// Its instructions, each with the number of the shape before it.
    pub steps: &'a [(u32, Instruction)],
}

/// A function without a value, which has an INT and a STRING as locals.
pub fn with_two_locals(room: u32, steps: &[(u32, Instruction)]) -> Plan<'_> {
    Plan {
        takes: &[],
        others: &[Kind::Int, Kind::Str],
        gives: None,
        room,
        steps,
    }
}

/// A function that takes an INT and gives a STRING.
pub fn called() -> Plan<'static> {
    Plan {
        takes: &[Kind::Int],
        others: &[],
        gives: Some(Kind::Str),
        room: 2,
        steps: &[
            (EMPTY, Instruction::Tick),
            (EMPTY, Instruction::PushStr(0)),
            (STR, Instruction::Return),
        ],
    }
}

/// The numbers of the shapes.
pub const EMPTY: u32 = 0;

pub const INT: u32 = 1;

pub const STR: u32 = 2;

pub const INT_INT: u32 = 3;

pub const INT_STR: u32 = 4;

pub const STR_INT: u32 = 5;

pub const STR_STR: u32 = 6;

pub const INT_INT_INT: u32 = 7;

pub const INT_STR_STR: u32 = 8;

pub const STR_STR_STR: u32 = 9;

/// No shape has this number, and no text, cell, array or function.
pub const ABSENT: u32 = 10;

/// The shapes, by their numbers.
static SHAPES: [&[Kind]; 10] = [
    &[],
    &[Kind::Int],
    &[Kind::Str],
    &[Kind::Int, Kind::Int],
    &[Kind::Int, Kind::Str],
    &[Kind::Str, Kind::Int],
    &[Kind::Str, Kind::Str],
    &[Kind::Int, Kind::Int, Kind::Int],
    &[Kind::Int, Kind::Str, Kind::Str],
    &[Kind::Str, Kind::Str, Kind::Str],
];

/// The kinds of the shape of this number.
pub fn kinds_of(shape: u32) -> &'static [Kind] {
    match SHAPES.get(shape as usize) {
        Some(kinds) => kinds,
        None => &[],
    }
}

/// The number of the shape of these kinds.
pub fn number_of(kinds: &[Kind]) -> u32 {
    for number in 0..ABSENT {
        if kinds_of(number) == kinds {
            return number;
        }
    }
    ABSENT
}

/// The kinds of the cells: a GLOBAL INT, a STRING, and an array of two INT.
static CELLS: [Kind; 4] = [Kind::Int, Kind::Str, Kind::Int, Kind::Int];

/// A list of these kinds, the first ones before the others.
fn kinds(alloc: Global, first: &[Kind], others: &[Kind]) -> Result<KindList, Fail> {
    let mut list = Vec::new(alloc);
    for kind in first {
        list.push(*kind)?;
    }
    for kind in others {
        list.push(*kind)?;
    }
    Ok(KindList::of(list))
}

/// The steps of a plan.
fn steps(alloc: Global, plan: &Plan) -> Result<StepList, Fail> {
    let mut list = Vec::new(alloc);
    for (shape, what) in plan.steps {
        list.push(Step {
            shape: *shape,
            what: *what,
        })?;
    }
    Ok(StepList::of(list))
}

/// The shapes.
fn shapes(alloc: Global) -> Result<ShapeList, Fail> {
    let mut list = Vec::new(alloc);
    for shape in SHAPES.iter() {
        list.push(kinds(alloc, shape, &[])?)?;
    }
    Ok(ShapeList::of(list))
}

/// The cells.
fn cells(alloc: Global) -> Result<CellHeadList, Fail> {
    let mut list = Vec::new(alloc);
    for kind in CELLS.iter() {
        list.push(cell(*kind))?;
    }
    Ok(CellHeadList::of(list))
}

/// A cell of this kind.
pub fn cell(kind: Kind) -> CellHead {
    let first = match kind {
        Kind::Int => Value::Int(0),
        Kind::Str => Value::Str(Text::empty()),
    };
    CellHead { kind, first }
}

/// The text of these bytes.
pub fn text(bytes: &[u8]) -> Result<Text, Fail> {
    match Text::of(bytes) {
        Some(text) => Ok(text),
        None => Err(Fail::from("a long text")),
    }
}

/// A function of the layout that takes these.
pub fn head(alloc: Global, name: &[u8], takes: &[Kind]) -> Result<Head, Fail> {
    Ok(Head {
        name: text(name)?,
        public: true,
        kinds: kinds(alloc, takes, &[])?,
        defaults: ValueList::of(Vec::new(alloc)),
    })
}

/// The parts of code with these functions.
pub fn parts(alloc: Global, plans: &[Plan]) -> Result<RawParts, Fail> {
    let mut heads = Vec::new(alloc);
    let mut functions = Vec::new(alloc);
    for plan in plans {
        heads.push(head(alloc, b"Main", plan.takes)?)?;
        functions.push(RawFunction {
            gives: plan.gives,
            room: plan.room,
            locals: kinds(alloc, plan.takes, plan.others)?,
            steps: steps(alloc, plan)?,
        })?;
    }
    let mut globals = Vec::new(alloc);
    globals.push(Scalar {
        name: text(b"total")?,
        cell: 0,
    })?;
    let mut texts = Vec::new(alloc);
    texts.push(text(b"hi")?)?;
    texts.push(text(b"a\"b^c\n\r\t\x00\x1f ~\x7f\xff")?)?;
    let mut arrays = Vec::new(alloc);
    arrays.push(Cells {
        first: 2,
        kind: Kind::Int,
        length: 2,
    })?;
    Ok(RawParts {
        layout: Layout {
            functions: HeadList::of(heads),
            cells: cells(alloc)?,
            globals: GlobalList::of(globals),
        },
        texts: TextList::of(texts),
        arrays: ArrayList::of(arrays),
        shapes: shapes(alloc)?,
        functions: FunctionList::of(functions),
    })
}

/// The code of these parts.
pub fn code(parts: RawParts) -> Result<RawCode, Fail> {
    match assemble(parts) {
        Some(code) => Ok(code),
        None => Err(Fail::from("the parts don't fit")),
    }
}

/// What is told of the code of these functions: the rule, the function and the place, or zeros where no rule is broken.
pub fn told(alloc: Global, plans: &[Plan]) -> Result<(u8, u32, u32), Fail> {
    Ok(told_of(code(parts(alloc, plans)?)?))
}

/// What is told of code.
pub fn told_of(code: RawCode) -> (u8, u32, u32) {
    match verify(code) {
        Ok(_) => (0, 0, 0),
        Err((_, broken)) => (broken.rule, broken.function, broken.at),
    }
}

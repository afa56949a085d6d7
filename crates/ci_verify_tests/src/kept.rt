//! Code that breaks a rule of the tables, or none.
ghost use Rattle.std.specs.Prelude.{◌<◌};

use crate::plans::{
    EMPTY, INT, INT_INT, Plan, STR, called, cell, code, head, parts, told, told_of, with_two_locals,
};
use ci_base::{CellHeadList, HeadList, Kind, KindList, SharedName};
use ci_code::{
    ArrayList, Cells, FunctionList, Instruction, RawFunction, RawParts, ShapeList, Step, StepList,
};
use ci_verify::verify;
use std::alloc::Global;
use std::test::Fail;

/// The steps of a function that only ticks.
static TICKING: [(u32, Instruction); 2] = [
    (EMPTY, Instruction::Tick),
    (EMPTY, Instruction::Jump(0)),
];

/// The steps of a function that breaks rule 2 at its place 0.
static STUCK: [(u32, Instruction); 1] = [(EMPTY, Instruction::Jump(0))];

/// Many of one kind.
fn many(alloc: Global, count: usize) -> Result<Vec<Kind>, Fail> {
    let mut kinds = Vec::new(alloc);
    for _ in 0..count {
        kinds.push(Kind::Int)?;
    }
    Ok(kinds)
}

/// The parts of a function that breaks rule 2, and these arrays.
fn with_array(alloc: Global, array: Cells) -> Result<RawParts, Fail> {
    let mut parts = parts(alloc, &[with_two_locals(6, &STUCK)])?;
    let mut arrays = Vec::new(alloc);
    arrays.push(array)?;
    parts.arrays = ArrayList::of(arrays);
    Ok(parts)
}

/// Arrays over the cells INT, STRING, INT, INT, and whether they are refused.
static ARRAYS: [(Cells, bool); 7] = [
    (
        Cells {
            first: 2,
            kind: Kind::Int,
            length: 2,
        },
        false,
    ),
    (
        Cells {
            first: 1,
            kind: Kind::Str,
            length: 1,
        },
        false,
    ),
    (
        Cells {
            first: 9,
            kind: Kind::Str,
            length: 0,
        },
        false,
    ),
    (
        Cells {
            first: 2,
            kind: Kind::Int,
            length: 3,
        },
        true,
    ),
    (
        Cells {
            first: 4,
            kind: Kind::Int,
            length: 1,
        },
        true,
    ),
    (
        Cells {
            first: 1,
            kind: Kind::Int,
            length: 3,
        },
        true,
    ),
    (
        Cells {
            first: 2,
            kind: Kind::Str,
            length: 2,
        },
        true,
    ),
];

#[test]
fn arrays_are_told_before_functions(rt: HostRuntime) -> Result<(), Fail> {
    for (array, refused) in ARRAYS.iter().copied() {
        let wanted = if refused { (1, 0, 0) } else { (2, 0, 0) };
        let told = told_of(code(with_array(rt.alloc(), array)?)?);
        assert_eq!(rt; told, wanted, "{array:?}");
    }
    Ok(())
}

/// A function of the layout that breaks rule 2 beside so many others, so many cells, and a GLOBAL scalar with the first of four
/// cells.
fn with_counts(alloc: Global, functions: usize, cells: usize) -> Result<RawParts, Fail> {
    let mut parts = parts(alloc, &[])?;
    let mut heads = Vec::new(alloc);
    let mut codes = Vec::new(alloc);
    for _ in 0..functions {
        heads.push(head(alloc, b"F", &[])?)?;
        codes.push(empty_function(alloc))?;
    }
    let mut all = Vec::new(alloc);
    for _ in 0..cells {
        all.push(cell(Kind::Int))?;
    }
    parts.layout.functions = HeadList::of(heads);
    parts.functions = FunctionList::of(codes);
    parts.layout.cells = CellHeadList::of(all);
    parts.arrays = ArrayList::of(Vec::new(alloc));
    Ok(parts)
}

/// A function without an instruction.
fn empty_function(alloc: Global) -> RawFunction {
    RawFunction {
        gives: None,
        room: 1,
        locals: KindList::of(Vec::new(alloc)),
        steps: StepList::of(Vec::new(alloc)),
    }
}

#[test]
fn tables_are_told_before_functions(rt: HostRuntime) -> Result<(), Fail> {
    let rows = [
        (1000, 100_000, (2, 0, 0)),
        (1001, 4, (1, 0, 0)),
        (1, 100_001, (1, 0, 0)),
        (1, 1, (2, 0, 0)),
        (1, 0, (1, 0, 0)),
    ];
    for (functions, cells, wanted) in rows {
        let told = told_of(code(with_counts(rt.alloc(), functions, cells)?)?);
        assert_eq!(rt; told, wanted, "{functions} functions, {cells} cells");
    }
    Ok(())
}

/// A function with so many parameters and other locals.
fn with_locals<'a>(takes: &'a [Kind], others: &'a [Kind]) -> Plan<'a> {
    Plan {
        takes,
        others,
        gives: None,
        room: 4096,
        steps: &TICKING,
    }
}

#[test]
fn parameters_and_locals_have_their_limits(rt: HostRuntime) -> Result<(), Fail> {
    let rows = [
        (16, 48, (0, 0, 0)),
        (17, 0, (1, 1, 0)),
        (16, 49, (1, 1, 0)),
        (0, 65, (1, 1, 0)),
    ];
    for (takes, others, wanted) in rows {
        let takes = many(rt.alloc(), takes)?;
        let others = many(rt.alloc(), others)?;
        let plans = [called(), with_locals(takes.as_slice(), others.as_slice())];
        assert_eq!(rt; told(rt.alloc(), &plans)?, wanted);
    }
    Ok(())
}

/// The steps of a function that jumps to itself.
static JUMPING: [(u32, Instruction); 2] = [
    (EMPTY, Instruction::Tick),
    (EMPTY, Instruction::Jump(1)),
];

#[test]
fn the_first_function_is_told(rt: HostRuntime) -> Result<(), Fail> {
    let ticking = TICKING.as_slice();
    let stuck = STUCK.as_slice();
    let jumping = JUMPING.as_slice();
    let rows = [
        (ticking, stuck, (2, 1, 0)),
        (stuck, jumping, (2, 0, 0)),
        (jumping, stuck, (6, 0, 1)),
        (ticking, jumping, (6, 1, 1)),
    ];
    for (first, second, wanted) in rows {
        let plans = [with_two_locals(6, first), with_two_locals(6, second)];
        assert_eq!(rt; told(rt.alloc(), &plans)?, wanted);
    }
    Ok(())
}

/// Code that no project is compiled to, and that breaks no rule: operands are left at the end, a place is never reached, and a
/// function without a value gives another INT than 0.
static FOREIGN: [&[(u32, Instruction)]; 4] = [
    &[
        (EMPTY, Instruction::Tick),
        (EMPTY, Instruction::PushInt(1)),
        (INT, Instruction::PushInt(2)),
        (INT_INT, Instruction::Return),
    ],
    &[
        (EMPTY, Instruction::Tick),
        (EMPTY, Instruction::Jump(0)),
        (STR, Instruction::Drop),
        (EMPTY, Instruction::Jump(0)),
    ],
    &[
        (EMPTY, Instruction::Tick),
        (EMPTY, Instruction::Jump(3)),
        (EMPTY, Instruction::Tick),
        (EMPTY, Instruction::Jump(2)),
    ],
    &[
        (EMPTY, Instruction::Tick),
        (EMPTY, Instruction::PushInt(1)),
        (INT, Instruction::Tick),
        (INT, Instruction::Jump(2)),
    ],
];

#[test]
fn foreign_code_is_kept(rt: HostRuntime) -> Result<(), Fail> {
    for steps in FOREIGN.iter() {
        let plans = [with_two_locals(4096, steps), called()];
        assert_eq!(rt; told(rt.alloc(), &plans)?, (0, 0, 0));
    }
    Ok(())
}

/// A function with 64 locals that pushes so many INT, and loops.
fn pushing(alloc: Global, count: u32) -> Result<RawFunction, Fail>
    requires { count < 10000 }
{
    let mut steps = Vec::new(alloc);
    steps.push(Step {
        shape: 0,
        what: Instruction::Tick,
    })?;
    for shape in 0..count {
        steps.push(Step {
            shape,
            what: Instruction::PushInt(1),
        })?;
    }
    steps.push(Step {
        shape: count,
        what: Instruction::Tick,
    })?;
    steps.push(Step {
        shape: count,
        what: Instruction::Jump(count + 1),
    })?;
    Ok(RawFunction {
        gives: None,
        room: 4096,
        locals: KindList::of(many(alloc, 64)?),
        steps: StepList::of(steps),
    })
}

/// The shapes of no INT to 4,032 of them.
fn rising_shapes(alloc: Global) -> Result<ShapeList, Fail> {
    let mut shapes = Vec::new(alloc);
    for count in 0..4033 {
        shapes.push(KindList::of(many(alloc, count)?))?;
    }
    Ok(ShapeList::of(shapes))
}

#[test]
fn the_largest_code_is_kept(rt: HostRuntime) -> Result<(), Fail> {
    let alloc = rt.alloc();
    let mut parts = with_counts(alloc, 0, 100_000)?;
    let takes = many(alloc, 16)?;
    let mut heads = Vec::new(alloc);
    let mut functions = Vec::new(alloc);
    for number in 0..1000 {
        heads.push(head(alloc, b"F", takes.as_slice())?)?;
        let count = if number == 999 { 4032 } else { 1 };
        functions.push(pushing(alloc, count)?)?;
    }
    let mut arrays = Vec::new(alloc);
    arrays.push(Cells {
        first: 0,
        kind: Kind::Int,
        length: 100_000,
    })?;
    parts.layout.functions = HeadList::of(heads);
    parts.functions = FunctionList::of(functions);
    parts.arrays = ArrayList::of(arrays);
    parts.shapes = rising_shapes(alloc)?;
    assert_eq!(rt; told_of(code(parts)?), (0, 0, 0));
    Ok(())
}

/// The steps that trace a text, with a jump to itself at place 1.
static TRACING: [(u32, Instruction); 7] = [
    (EMPTY, Instruction::Tick),
    (EMPTY, Instruction::Jump(1)),
    (EMPTY, Instruction::PushStr(0)),
    (STR, Instruction::Ask(SharedName::Trace)),
    (INT, Instruction::Drop),
    (EMPTY, Instruction::PushInt(0)),
    (INT, Instruction::Return),
];

#[test]
fn refused_code_comes_back(rt: HostRuntime) -> Result<(), Fail> {
    let plan = Plan {
        takes: &[],
        others: &[],
        gives: None,
        room: 1,
        steps: &TRACING,
    };
    let Err((back, broken)) = verify(code(parts(rt.alloc(), &[plan])?)?) else {
        return Err(Fail::from("a jump to itself is kept"));
    };
    assert_eq!(rt; (broken.rule, broken.function, broken.at), (6, 0, 1));
    let functions = back.parts().functions.members();
    assert_eq!(rt; functions.len(), 1);
    assert_eq!(rt; functions[0].steps.members().len(), 7);
    assert!(rt; matches!(functions[0].steps.members()[1].what, Instruction::Jump(1)));
    Ok(())
}

//! The project of the tests.
ghost use Rattle.std.specs.Prelude.{◌≡◌, ◌≤◌, ◌<◌, length, map, All, IfOk};
ghost use Rattle.ci_base.specs.declared.bounds.TheConstants.{MOST_FUNCTIONS, MOST_PARAMETERS};
ghost use Rattle.ci_store.specs.Stored.{IsUsable};
ghost use Rattle.ci_store_tests.specs.Cells.{HasCells, IsOwn};
ghost use Rattle.ci_tasktab.specs.Births.{IsWithin};

use crate::steps::text;
use ci_base::bounds::{MOST_FUNCTIONS, MOST_PARAMETERS};
use ci_base::{
    CellHead, CellHeadList, Global as Scalar, GlobalList, Head, HeadList, Kind, KindList, Layout,
    Text, Value, ValueList,
};
use std::alloc::Global;
use std::test::Fail;

/// A default.
#[derive(Clone, Copy)]
enum Preset {
    Int(i32),
    Str(&'static str),
}

/// A function: its name, whether it is PUBLIC, the kinds of its parameters, and the defaults of the last of them.
type Plan = (&'static str, bool, &'static [Kind], &'static [Preset]);

/// The functions, by their numbers from 0. No bound project has two PUBLIC ones of one name.
static FUNCTIONS: [Plan; 7] = [
    ("F", true, &[Kind::Int, Kind::Str], &[Preset::Str("d")]),
    ("Main", true, &[], &[]),
    ("Two", true, &[Kind::Int, Kind::Int], &[]),
    ("Hidden", false, &[], &[]),
    ("main", true, &[Kind::Int], &[]),
    (
        "All",
        true,
        &[Kind::Int, Kind::Str],
        &[Preset::Int(1), Preset::Str("x")],
    ),
    ("Late", true, &[], &[]),
];

/// A layout with so many cells besides its first three. No bound project has two GLOBAL scalars of one name.
pub fn project(alloc: Global, others: usize) -> Result<Layout, Fail>
    ensures usable { IfOk result (λ layout. IsUsable layout) }
    ensures cells { IfOk result (λ layout. HasCells (map (λ cell. cell.kind) layout.cells)) }
{
    let functions = functions(alloc)?;
    let mut rest = numbers(alloc, others)?;
    let mut cells = vec![in alloc; of_number(), of_text(), of_text()]?;
    cells.append(&mut rest)?;
    let globals = vec![in alloc; global("count", 0), global("name", 1), global("Count", 2)]?;
    Ok(Layout {
        functions: HeadList::of(functions),
        cells: CellHeadList::of(cells),
        globals: GlobalList::of(globals),
    })
}

/// All functions.
fn functions(alloc: Global) -> Result<Vec<Head>, Fail>
    ensures { IfOk result (λ heads. IsWithin heads.items) }
{
    let mut heads = Vec::new(alloc);
    'plans: for plan in FUNCTIONS.iter() {
        put(&mut heads, head(alloc, plan)?)?;
    }
    Ok(heads)
}

/// The function comes behind the others, if there are fewer than there may be.
fn put(heads: &mut Vec<Head>, head: Head) -> Result<(), Fail>
    requires within { IsWithin heads.old.items }
    requires short { length head.kinds ≤ MOST_PARAMETERS }
    ensures { IsWithin heads.new.items }
{
    if heads.as_slice().len() >= MOST_FUNCTIONS {
        return Err(Fail::from("too many functions"));
    }
    add(heads, head)
}

/// The function comes behind the others.
fn add(heads: &mut Vec<Head>, head: Head) -> Result<(), Fail>
    requires within { IsWithin heads.old.items }
    requires few { length heads.old.items < MOST_FUNCTIONS }
    requires short { length head.kinds ≤ MOST_PARAMETERS }
    ensures { IsWithin heads.new.items }
{
    match heads.push(head) {
        Ok(()) => Ok(()),
        Err(_) => Err(Fail::from("no memory")),
    }
}

/// The function of a plan.
fn head(alloc: Global, plan: &Plan) -> Result<Head, Fail>
    ensures { IfOk result (λ head. length head.kinds ≤ MOST_PARAMETERS) }
{
    if plan.2.len() > MOST_PARAMETERS {
        return Err(Fail::from("too many parameters"));
    }
    let kinds = Vec::from_slice(alloc, plan.2)?;
    let defaults = values(alloc, plan.3)?;
    Ok(Head {
        name: text(plan.0),
        public: plan.1,
        kinds: KindList::of(kinds),
        defaults: ValueList::of(defaults),
    })
}

/// The values of defaults.
fn values(alloc: Global, presets: &[Preset]) -> Result<Vec<Value>, Fail> {
    let mut values = Vec::new(alloc);
    for preset in presets {
        values.push(value(*preset))?;
    }
    Ok(values)
}

fn value(preset: Preset) -> Value {
    match preset {
        Preset::Int(n) => Value::Int(n),
        Preset::Str(bytes) => Value::Str(text(bytes)),
    }
}

/// So many cells of numbers.
fn numbers(alloc: Global, count: usize) -> Result<Vec<CellHead>, Fail>
    ensures { IfOk result (λ cells. All IsOwn cells.items) }
{
    let mut cells = Vec::new(alloc);
    'cells: for _ in 0..count {
        put_cell(&mut cells, of_number())?;
    }
    Ok(cells)
}

/// The cell comes behind the others.
fn put_cell(cells: &mut Vec<CellHead>, cell: CellHead) -> Result<(), Fail>
    requires all { All IsOwn cells.old.items }
    requires own { IsOwn cell }
    ensures { All IsOwn cells.new.items }
{
    match cells.push(cell) {
        Ok(()) => Ok(()),
        Err(_) => Err(Fail::from("no memory")),
    }
}

/// A cell with the number 7.
fn of_number() -> CellHead
    ensures kind { result.kind ≡ Kind.Int }
    ensures own { IsOwn result }
{
    CellHead {
        kind: Kind::Int,
        first: Value::Int(7),
    }
}

/// A cell with the empty text.
fn of_text() -> CellHead
    ensures kind { result.kind ≡ Kind.Str }
    ensures own { IsOwn result }
{
    CellHead {
        kind: Kind::Str,
        first: Value::Str(Text::empty()),
    }
}

fn global(name: &str, cell: u32) -> Scalar
    ensures { result.cell ≡ cell }
{
    Scalar {
        name: text(name),
        cell,
    }
}

//! What cells hold.
ghost use Rattle.std.specs.Prelude.{◌≡◌, ◌∷◌, [], IfOk, pos};
ghost use Rattle.ci_base.specs.declared.value.Kind.TheVariants as kinds;
ghost use Rattle.ci_base.specs.declared.value.Value.TheVariants as values;

use crate::told::letter;
use ci_base::{CellHead, CellHeadList, GlobalList, HeadList, Kind, Layout, Text, Value};
use ci_vars::Vars;
use std::alloc::Global;
use std::test::Fail;

// A cell with the empty text, and one with 7.
fn heads(alloc: Global) -> Result<Vec<CellHead>, Fail>
    ensures { IfOk result (λ heads. heads.items ≡ record { kind = kinds.Str; first = values.Str [] } ∷ record { kind = kinds.Int; first = values.Int (pos 7) } ∷ []) }
{
    let text = CellHead {
        kind: Kind::Str,
        first: Value::Str(Text::empty()),
    };
    let number = CellHead {
        kind: Kind::Int,
        first: Value::Int(7),
    };
    Ok(vec![in alloc; text, number]?)
}

// These cells.
fn cells(alloc: Global) -> Result<Vars, Fail>
    ensures { IfOk result (λ vars. vars ≡ values.Str [] ∷ values.Int (pos 7) ∷ []) }
{
    let members = heads(alloc)?;
    let layout = Layout {
        functions: HeadList::of(Vec::new(alloc)),
        cells: CellHeadList::of(members),
        globals: GlobalList::of(Vec::new(alloc)),
    };
    match Vars::start(alloc, &layout) {
        Ok(vars) => Ok(vars),
        Err(_) => Err(Fail::from("no memory")),
    }
}

// The text of 255 letters.
fn long(alloc: Global) -> Result<Text, Fail> {
    let bytes = vec![in alloc; b'x'; 255]?;
    Ok(Text::of(bytes.as_slice()).ok_or("255 bytes")?)
}

#[test]
fn a_cell_holds_what_was_written_last_and_a_shorter_text_is_whole(
    rt: HostRuntime,
) -> Result<(), Fail> {
    let mut vars = cells(rt.alloc())?;
    vars.write(0, Value::Str(long(rt.alloc())?));
    vars.write(0, Value::Str(letter(&rt, b'a')));
    assert_eq!(rt; vars.read(1), Value::Int(7));
    vars.write(1, Value::Int(-5));
    assert_eq!(rt; vars.read(0), Value::Str(letter(&rt, b'a')));
    assert_eq!(rt; vars.read(1), Value::Int(-5));
    Ok(())
}

//! The shared cells.
ghost use Rattle.std.specs.Prelude.{◌≡◌, ◌<◌, length, IfSome, Some, slice_get, map};
ghost use Rattle.std.specs.List.{position_from};
ghost use Rattle.std.specs.Str.{str_eq_ignore_ascii_case};
ghost use Rattle.ci_base.specs.declared.layout.Global.{Global};
ghost use Rattle.ci_base.specs.Values.{kind_of};
ghost use Rattle.ci_shared.specs.Rows.{Answers, coded};
ghost use Rattle.ci_shared.specs.State.{attempted, only};
ghost use Rattle.ci_shared.specs.Steps.{cell_named, read, set_cell, written};
ghost use Rattle.ci_shared.specs.Words.{same_kind};
ghost use Rattle.ci_store.specs.Done.{Does, IsClear, Serves};
ghost use Rattle.ci_store.specs.Stored.{basis_in, shared_of};

use crate::parts::Parts;
use ci_base::{Answer, Extra, Global, Text, Value};
use ci_shared::answers::coded;

/// The value of the cell.
pub(crate) fn read(parts: &Parts, cell: u32) -> Answer
    requires { cell < length parts.now.vars }
    ensures { Answers result ≡ read (slice_get parts.now.vars cell) }
{
    Answer {
        value: parts.vars.read(cell),
        code: 0,
        extra: Extra::Nothing,
    }
}

/// Puts the value into the cell, whose kind it has.
pub(crate) fn write(parts: &mut Parts, cell: u32, value: &Value) -> Answer
    requires clear { IsClear parts.old }
    requires kind { slice_get (map kind_of parts.old.vars) cell ≡ Some (kind_of value.now) }
    ensures { Does (only (written (shared_of parts.old) cell value.now) (coded 0)) result parts.old parts.new }
{
    parts.vars.write(cell, value.copy());
    coded(0)
}

/// Puts the value into the GLOBAL scalar of the name, where it is of its kind.
pub(crate) fn set(parts: &mut Parts, name: &Text, value: &Value) -> Answer
    requires { IsClear parts.old }
    ensures { Does (set_cell (basis_in parts.old) (shared_of parts.old) value.now (cell_named name.now parts.old.layout.globals)) result parts.old parts.new }
{
    let globals = parts.layout.globals.members();
    let Some(at) = at_name(globals, name) else {
        return coded(5);
    };
    let cell = globals[at].cell;
    if !is_same_kind(&parts.vars.read(cell), value) {
        return coded(10);
    }
    parts.vars.write(cell, value.copy());
    coded(0)
}

// Where the first GLOBAL scalar of the name stands, ignoring the case of letters.
fn at_name(globals: &[Global], name: &Text) -> Option<usize>
    ensures first { result ≡ position_from (λ global. str_eq_ignore_ascii_case name.now global.name) 0 globals.now }
    ensures within { IfSome result (λ at. at < length globals.now) }
{
    globals.iter().position(|global| is_named(global, name))
}

fn is_named(global: &Global, name: &Text) -> bool
    ensures { result ≡ str_eq_ignore_ascii_case name.now global.now.name }
{
    name.bytes().eq_ignore_ascii_case(global.name.bytes())
}

fn is_same_kind(one: &Value, other: &Value) -> bool
    ensures { result ≡ same_kind (kind_of one.now) (kind_of other.now) }
{
    match one {
        Value::Int(_) => match other {
            Value::Int(_) => true,
            Value::Str(_) => false,
        },
        Value::Str(_) => match other {
            Value::Int(_) => false,
            Value::Str(_) => true,
        },
    }
}

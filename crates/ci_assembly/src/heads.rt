//! The functions of a layout, each by itself.
ghost use Rattle.std.specs.Prelude.{◌≡◌, ◌↔◌, IsTrue, All, map};
ghost use Rattle.ci_base.specs.Values.{kind_of};
ghost use Rattle.ci_code.specs.Code.{HasDefaults};
ghost use Rattle.ci_assembly.specs.Parts.{IsHead};

use crate::assembly::is_few;
use ci_base::{Head, Kind, Value};
use ci_lexer::is_name;

/// Whether each function has a name, and defaults of its last parameters' kinds.
pub fn are_heads(heads: &[Head]) -> bool
    ensures { IsTrue result ↔ All IsHead heads.now }
{
    for head in heads {
        if !is_head(head) {
            return false;
        }
    }
    true
}

/// Whether the function has a name, and defaults of its last parameters' kinds.
fn is_head(head: &Head) -> bool
    ensures { IsTrue result ↔ IsHead head.now }
{
    is_few(head.kinds.members().len())
        && is_few(head.defaults.members().len())
        && has_defaults(head)
        && is_name(head.name.bytes())
}

/// Whether there are no more defaults than parameters, and each is of its parameter's kind.
fn has_defaults(head: &Head) -> bool
    ensures { IsTrue result ↔ HasDefaults head.now }
{
    let kinds = head.kinds.members();
    let defaults = head.defaults.members();
    if defaults.len() > kinds.len() {
        return false;
    }
    are_of_kinds(defaults, &kinds[kinds.len() - defaults.len()..])
}

/// Whether the values are of these kinds, one by one.
fn are_of_kinds(values: &[Value], kinds: &[Kind]) -> bool
    ensures { IsTrue result ↔ (map kind_of values.now ≡ kinds.now) }
{
    if values.len() != kinds.len() {
        return false;
    }
    for place in 0..values.len() {
        if !is_of_kind(&values[place], kinds[place]) {
            return false;
        }
    }
    true
}

/// Whether the value is of that kind.
pub fn is_of_kind(value: &Value, kind: Kind) -> bool
    ensures { IsTrue result ↔ (kind_of value.now ≡ kind) }
{
    match (value, kind) {
        (Value::Int(_), Kind::Int) | (Value::Str(_), Kind::Str) => true,
        _ => false,
    }
}

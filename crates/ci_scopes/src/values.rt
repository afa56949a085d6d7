//! What types, constants and headings of declarations say.
ghost use Rattle.std.specs.Prelude.{◌≡◌, map, IfOk, All};
ghost use Rattle.ci_names.specs.Declarations.{kind_of_type, const_value, taken, given_kind};
ghost use Rattle.ci_tree.specs.Written.{IsShort, IsShortParam};
ghost use Rattle.ci_scopes.specs.Values.{taken_of, heading_of};

use crate::called::{Heading, Taken};
use crate::memory::push;
use ci_base::{Kind, OutOfMemory, Text, Value};
use ci_tree::{Const, Param, TypeAt, TypeName};
use sqlite_items::Items;
use std::alloc::Global;

/// The kind of a type; one that is out of scope counts as INT.
pub fn kind_of_type(name: TypeName) -> Kind
    ensures { result ≡ kind_of_type name }
{
    match name {
        TypeName::String => Kind::Str,
        TypeName::Int
        | TypeName::Real
        | TypeName::Object
        | TypeName::Quality
        | TypeName::Timestamp => Kind::Int,
    }
}

/// The kind that a function with this type gives, if any.
pub fn given_kind(gives: &Option<TypeAt>) -> Option<Kind>
    ensures { result ≡ given_kind gives.now }
{
    match gives {
        None => None,
        Some(kind) => Some(kind_of_type(kind.name)),
    }
}

/// The value of a constant.
pub fn value_of(first: &Const) -> Value
    requires { IsShort first.now }
    ensures { result ≡ const_value first.now }
{
    match first {
        Const::Number { value, .. } => Value::Int(*value),
        Const::Literal { text, .. } => Value::Str(Text::of_few(text.bytes())),
    }
}

/// What a parameter takes.
fn taken_by(param: &Param) -> Taken
    requires { IsShortParam param.now }
    ensures { taken_of result ≡ taken (kind_of_type param.now.kind.name) param.now.first }
{
    let kind = kind_of_type(param.kind.name);
    match &param.first {
        None => Taken::ByValue { kind },
        Some(first) => Taken::WithDefault {
            kind,
            default: value_of(first),
        },
    }
}

/// What parameters take.
fn all_taken(alloc: Global, params: &[Param]) -> Result<Items<Taken>, OutOfMemory>
    requires { All IsShortParam params.now }
    ensures { IfOk result (λ takes. map taken_of takes ≡ map (λ p. taken (kind_of_type p.kind.name) p.first) params.now) }
{
    let mut takes = Items::new(alloc);
    for param in params {
        push(&mut takes, taken_by(param))?;
    }
    Ok(takes)
}

/// What a declared function takes and gives.
pub(crate) fn heading(
    alloc: Global,
    params: &[Param],
    gives: &Option<TypeAt>,
) -> Result<Heading, OutOfMemory>
    requires { All IsShortParam params.now }
    ensures { IfOk result (λ h. heading_of h ≡ record { takes = map (λ p. taken (kind_of_type p.kind.name) p.first) params.now; gives = given_kind gives.now }) }
{
    let takes = all_taken(alloc, params)?;
    let gives = given_kind(gives);
    Ok(Heading { takes, gives })
}

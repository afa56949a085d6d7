//! The kinds of what a tree names; INT where there is none.
ghost use Rattle.std.specs.Prelude.{◌≡◌, ◌++◌, map, slice_get};
ghost use Rattle.ci_base.specs.Functions.{private_gives};
ghost use Rattle.ci_translation.specs.Instructions.{left_kind};
ghost use Rattle.ci_emit.specs.Contexts.{context};
ghost use Rattle.ci_tree.specs.SeenBound.{scalar_of, callee_of};
ghost use Rattle.ci_tree.specs.Sound as sound;
ghost use Rattle.ci_tree.specs.Sound.{signature, gives_of};
ghost use Rattle.ci_tree.specs.declared.bound.Param.{Param as Parameter};

use ci_base::{Kind, PrivateName};
use ci_tree::bound::{Callee, Function, Param, ProjectParts, Scalar};

/// The kind of the local of this number.
#[tactic(auto, using(crate::proofs::Emitting::get_both, crate::proofs::Emitting::get_front, ci_translation::proofs::Lists::get_map, ci_translation::proofs::Lists::length_mapped))]
fn local_kind(params: &[Param], others: &[Kind], i: usize) -> Kind
    ensures { result ≡ left_kind (slice_get (map (λ (p : Parameter). p.kind) params.now ++ others.now) i) }
{
    if i < params.len() {
        return params[i].kind;
    }
    match others.get(i - params.len()) {
        Some(kind) => *kind,
        None => Kind::Int,
    }
}

/// The kind of a variable without an index.
#[tactic(auto, using(ci_translation::proofs::Lists::get_map), unfolding(crate::specs::Contexts::context))]
pub(crate) fn scalar_kind(parts: &ProjectParts, function: &Function, of: Scalar) -> Kind
    ensures { result ≡ left_kind (sound.scalar_kind (context parts.now function.now) (scalar_of of)) }
{
    match of {
        Scalar::Local(i) => local_kind(function.params.as_slice(), function.others.as_slice(), i),
        Scalar::Cell(c) => match parts.cells.get(c) {
            Some(cell) => cell.kind,
            None => Kind::Int,
        },
    }
}

/// The kind of the elements of the array of this number.
#[tactic(auto, using(ci_translation::proofs::Lists::get_map), unfolding(crate::specs::Contexts::context))]
pub(crate) fn array_kind(parts: &ProjectParts, function: &Function, array: usize) -> Kind
    ensures { result ≡ left_kind (sound.array_kind (context parts.now function.now) array) }
{
    match parts.arrays.get(array) {
        Some(array) => array.kind,
        None => Kind::Int,
    }
}

/// The kind of what a private function gives.
fn private_gives(name: PrivateName) -> Kind
    ensures { result ≡ private_gives name }
{
    match name {
        PrivateName::StrLeft
        | PrivateName::StrRight
        | PrivateName::StrMid
        | PrivateName::StrUpper
        | PrivateName::StrLower
        | PrivateName::StrTrim
        | PrivateName::StrFill
        | PrivateName::IntToStr
        | PrivateName::CharToStr => Kind::Str,
        _ => Kind::Int,
    }
}

/// A kind, and INT where there is none.
pub(crate) fn kind_or_int(gives: Option<Kind>) -> Kind
    ensures { result ≡ left_kind gives }
{
    match gives {
        Some(kind) => kind,
        None => Kind::Int,
    }
}

/// The kind of what is left by a call of this.
#[tactic(auto, using(ci_translation::proofs::Lists::get_map), unfolding(crate::specs::Contexts::context))]
pub(crate) fn gives(parts: &ProjectParts, function: &Function, callee: Callee) -> Kind
    ensures { result ≡ left_kind (gives_of (signature (context parts.now function.now) (callee_of callee))) }
{
    match callee {
        Callee::Function(f) => match parts.functions.get(f) {
            Some(called) => kind_or_int(called.gives),
            None => Kind::Int,
        },
        Callee::Private(name) => private_gives(name),
        Callee::Shared(_) => Kind::Int,
    }
}

//! The counter and the bounds of FOR.
ghost use Rattle.std.specs.Prelude.{◌≡◌, ◌++◌, None, IfOk, OnOk};
ghost use Rattle.ci_base.specs.declared.value.Kind.TheVariants.{Int};
ghost use Rattle.ci_tree.specs.Seen.{expr_of};
ghost use Rattle.ci_tree.specs.SeenBound as bound;
ghost use Rattle.ci_names.specs.Scopes.{meaning};
ghost use Rattle.ci_names.specs.Statements.{target, part_faults};
ghost use Rattle.ci_names.specs.Binding.{scalar_of};
ghost use Rattle.ci_scopes.specs.Seen.{scope_of};
ghost use Rattle.ci_bodies.specs.Parts.{Notes, IsBoundExpr};

use crate::expressions::part;
use crate::faults::note_if;
use crate::kinds::differs;
use crate::names::{note_plain, plain_kind, scalar_of};
use ci_base::{Bytes, Kind, OutOfMemory};
use ci_names::{BindKind, Fault};
use ci_scopes::{Scope, boxed};
use ci_tree::Expr;
use ci_tree::bound::{self, Scalar};
use sqlite_items::Boxed;
use std::alloc::Global;

/// What stands between FOR and DO: the name of the counter with its token, and the bounds.
#[derive(Clone, Copy)]
pub struct Counting<'a> {
    pub at: u32,
    pub name: &'a Bytes,
    pub from: &'a Expr,
    pub to: &'a Expr,
}

/// The counter and the bounds of FOR, with names replaced.
#[derive(Debug, Drop)]
pub struct Count {
    pub counter: Scalar,
    pub from: Boxed<bound::Expr>,
    pub to: Boxed<bound::Expr>,
}

/// The counter of FOR, which is an INT without an index.
fn counter(scope: &Scope, found: &mut Option<Fault>, at: u32, name: &Bytes) -> Scalar
    ensures counter { bound.scalar_of result ≡ scalar_of (meaning (scope_of scope.now) name.now) }
    ensures found { Notes (part_faults (scope_of scope.now) Int (target at name.now None)) found.old found.new }
{
    let meaning = scope.meaning(name);
    note_if(
        found,
        differs(Kind::Int, plain_kind(meaning)),
        scope,
        at,
        BindKind::KindsDiffer,
    );
    note_plain(found, scope, at, meaning);
    scalar_of(meaning)
}

/// The counter and the bounds of FOR.
pub fn head(
    alloc: Global,
    scope: &Scope,
    found: &mut Option<Fault>,
    counting: Counting,
) -> Result<Count, OutOfMemory>
    ensures counter { IfOk result (λ x. bound.scalar_of x.counter ≡ scalar_of (meaning (scope_of scope.now) counting.entry.name.now)) }
    ensures from { IfOk result (λ x. IsBoundExpr (scope_of scope.now) (expr_of counting.entry.from.now) x.from) }
    ensures to { IfOk result (λ x. IsBoundExpr (scope_of scope.now) (expr_of counting.entry.to.now) x.to) }
    ensures found { OnOk result (Notes (part_faults (scope_of scope.now) Int (target counting.entry.at counting.entry.name.now None)
        ++ part_faults (scope_of scope.now) Int (expr_of counting.entry.from.now) ++ part_faults (scope_of scope.now) Int (expr_of counting.entry.to.now)) found.old found.new) }
{
    let counter = counter(scope, found, counting.at, counting.name);
    let (from, _) = part(alloc, scope, found, Kind::Int, counting.from)?;
    let (to, _) = part(alloc, scope, found, Kind::Int, counting.to)?;
    Ok(Count {
        counter,
        from: boxed(alloc, from)?,
        to: boxed(alloc, to)?,
    })
}

//! Calls with their arguments. QueRead is apart, since its second and third argument are set.
ghost use Rattle.std.specs.Prelude.{◌≡◌, length, option_map, IfOk};
ghost use Rattle.ci_base.specs.declared.function.SharedName.TheVariants as requests;
ghost use Rattle.ci_tree.specs.Bound as to;
ghost use Rattle.ci_tree.specs.LeftOut.{Heads};
ghost use Rattle.ci_tree.specs.SeenBound.{scalar_of, callee_of, call_of, expr_of, exprs_of};
ghost use Rattle.ci_names.specs.Binding.{called_with};
ghost use Rattle.ci_bodies.specs.QueRead.{as_scalar, both, set_scalars};

use ci_base::{OutOfMemory, SharedName};
use ci_scopes::boxed;
use ci_tree::bound::{Call, Callee, Expr, Scalar};
use sqlite_items::Items;
use std::alloc::Global;

/// A call with these arguments.
pub fn called_with(alloc: Global, callee: Callee, args: Items<Expr>) -> Result<Call, OutOfMemory>
    ensures { IfOk result (λ call. (heads : Heads) → call_of heads call ≡ called_with heads (callee_of callee) (exprs_of heads args)) }
{
    match callee {
        Callee::Shared(SharedName::QueRead) => que_read(alloc, args),
        _ => Ok(Call::plain(callee, args)),
    }
}

/// A call of QueRead with these arguments.
fn que_read(alloc: Global, args: Items<Expr>) -> Result<Call, OutOfMemory>
    ensures { IfOk result (λ call. (heads : Heads) → call_of heads call ≡ called_with heads (to.shared requests.QueRead) (exprs_of heads args)) }
{
    match set_scalars(args.as_slice()) {
        None => Ok(Call::plain(Callee::Shared(SharedName::QueRead), args)),
        Some((sort, text)) => setting(alloc, args, sort, text),
    }
}

/// The scalar that an expression is, if it is one.
fn as_scalar(e: &Expr) -> Option<Scalar>
    ensures { (heads : Heads) → option_map scalar_of result ≡ as_scalar (expr_of heads e.now) }
{
    match e {
        Expr::Scalar { of } => Some(*of),
        _ => None,
    }
}

/// Both scalars, if both are there.
fn both(sort: Option<Scalar>, text: Option<Scalar>) -> Option<(Scalar, Scalar)>
    ensures { option_map (λ set. (scalar_of set.0, scalar_of set.1)) result ≡ both (option_map scalar_of sort) (option_map scalar_of text) }
{
    match (sort, text) {
        (Some(sort), Some(text)) => Some((sort, text)),
        _ => None,
    }
}

/// The second and the third of four arguments, if both are scalars.
fn set_scalars(args: &[Expr]) -> Option<(Scalar, Scalar)>
    ensures { (heads : Heads) → option_map (λ set. (scalar_of set.0, scalar_of set.1)) result ≡ set_scalars (exprs_of heads args.now) }
{
    match args {
        [_, sort, text, _] => both(as_scalar(sort), as_scalar(text)),
        _ => None,
    }
}

/// A call of QueRead with these four arguments, which sets these scalars.
fn setting(
    alloc: Global,
    args: Items<Expr>,
    sort: Scalar,
    text: Scalar,
) -> Result<Call, OutOfMemory>
    requires { length args ≡ 4 }
    ensures { IfOk result (λ call. (heads : Heads) (queue second third mode : to.Expr)
        → exprs_of heads args ≡ to.more queue (to.more second (to.more third (to.more mode to.no_expr)))
        → call_of heads call ≡ to.que_read queue (scalar_of sort) (scalar_of text) mode) }
{
    let mut args = args;
    let mode = boxed(alloc, args.remove(3))?;
    let queue = boxed(alloc, args.remove(0))?;
    Ok(Call::que_read(queue, sort, text, mode))
}

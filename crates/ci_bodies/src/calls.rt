//! What calls need: the called function, and the number of arguments.
ghost use Rattle.std.specs.Prelude.{◌≡◌, ◌++◌, map, option_map};
ghost use Rattle.ci_tree.specs.Tree.{no_expr};
ghost use Rattle.ci_tree.specs.Seen.{expr_of, exprs_of};
ghost use Rattle.ci_tree.specs.SeenBound as bound;
ghost use Rattle.ci_names.specs.Fault.{noted};
ghost use Rattle.ci_names.specs.Scopes.{meaning};
ghost use Rattle.ci_names.specs.Kinds.{takes_of, gives_of, may_be_left_out, is_count, is_name_alone};
ghost use Rattle.ci_names.specs.Expressions.{start_of, called_name, argument_count, call_value};
ghost use Rattle.ci_names.specs.Binding.{callee_of};
ghost use Rattle.ci_scopes.specs.Seen.{scope_of, taken_of, called_of};

use crate::faults::note_if;
use crate::names::is_variable;
use ci_base::{Bytes, Kind};
use ci_names::{BindKind, Fault};
use ci_scopes::{Called, Scope, Taken};
use ci_tree::bound::Callee;
use ci_tree::{Expr, ExprKind};

/// What the called function takes.
pub fn takes_of<'a>(called: Option<Called<'a>>) -> &'a [Taken]
    ensures { map taken_of result.now ≡ takes_of (option_map called_of called.entry) }
{
    match called {
        None => &[],
        Some(called) => called.heading.takes.as_slice(),
    }
}

/// The kind that the called function gives, if any.
pub fn gives_of(called: Option<Called>) -> Option<Kind>
    ensures { result ≡ gives_of (option_map called_of called.entry) }
{
    match called {
        None => None,
        Some(called) => called.heading.gives,
    }
}

/// The called function; any function where there is none.
pub fn callee_of(called: Option<Called>) -> Callee
    ensures { bound.callee_of result ≡ callee_of (option_map called_of called.entry) }
{
    match called {
        None => Callee::Function(0),
        Some(called) => called.callee,
    }
}

/// Whether an argument may be left out.
fn may_be_left_out(taken: &Taken) -> bool
    ensures { result ≡ may_be_left_out (taken_of taken.now) }
{
    match taken {
        Taken::WithDefault { .. } => true,
        Taken::ByValue { .. } | Taken::ToBeSet { .. } => false,
    }
}

/// Whether these arguments may be left out.
fn may_all_be_left_out(takes: &[Taken]) -> bool
    ensures { result ≡ is_count (map taken_of takes.now) no_expr }
{
    for taken in takes {
        if !may_be_left_out(taken) {
            return false;
        }
    }
    true
}

/// Whether there are as many arguments as can be: none too many, and those that are left out may be.
pub fn is_count(takes: &[Taken], args: &[Expr]) -> bool
    ensures { result ≡ is_count (map taken_of takes.now) (exprs_of args.now) }
{
    let mut left = takes;
    for _arg in args {
        let [_, behind @ ..] = left else {
            return false;
        };
        left = behind;
    }
    may_all_be_left_out(left)
}

/// Whether the expression is a name alone, not in parentheses.
pub fn is_name_alone(e: &Expr) -> bool
    ensures { result ≡ is_name_alone (expr_of e.now) }
{
    match &e.what {
        ExprKind::Name { .. } => e.start == e.at,
        _ => false,
    }
}

/// The first token of an expression.
pub fn start_of(e: &Expr) -> u32
    ensures { result ≡ start_of (expr_of e.now) }
{
    e.start
}

/// Notes the fault of a call that is used for its value where it gives none.
pub fn note_value(found: &mut Option<Fault>, scope: &Scope, at: u32, called: Option<Called>)
    ensures { found.new ≡ noted found.old (call_value (scope_of scope.now) at (option_map called_of called.entry)) }
{
    if let Some(called) = called {
        note_if(
            found,
            called.heading.gives.is_none(),
            scope,
            at,
            BindKind::KindsDiffer,
        );
    }
}

/// Notes the faults of a call's name and of the number of its arguments.
pub fn note_call(
    found: &mut Option<Fault>,
    scope: &Scope,
    at: u32,
    name: &Bytes,
    called: Option<Called>,
    args: &[Expr],
)
    ensures { found.new ≡ noted found.old (called_name (scope_of scope.now) at (option_map called_of called.entry) (meaning (scope_of scope.now) name.now)
        ++ argument_count (scope_of scope.now) at (option_map called_of called.entry) (exprs_of args.now)) }
{
    match called {
        None => {
            if is_variable(scope.meaning(name)) {
                note_if(found, true, scope, at, BindKind::NotAFunction);
            } else {
                note_if(found, true, scope, at, BindKind::NameUnknown);
            }
        }
        Some(called) => {
            let fits = is_count(called.heading.takes.as_slice(), args);
            note_if(found, !fits, scope, at, BindKind::ArgumentCount);
        }
    }
}

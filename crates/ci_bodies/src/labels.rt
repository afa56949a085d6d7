//! The labels of SELECT.
ghost use Rattle.std.specs.Prelude.{map, IfOk, OnOk};
ghost use Rattle.ci_tree.specs.Seen.{expr_of, label_of};
ghost use Rattle.ci_names.specs.Statements.{compared, label_faults, labels_faults};
ghost use Rattle.ci_scopes.specs.Seen.{scope_of};
ghost use Rattle.ci_bodies.specs.Parts.{Notes, IsBoundExpr, IsBoundLabel, AreBoundLabels};

use crate::calls::start_of;
use crate::simple::alike;
use ci_base::{Kind, OutOfMemory};
use ci_names::Fault;
use ci_scopes::{Scope, push};
use ci_tree::{Expr, Label, bound, list_with_room};
use sqlite_items::Items;
use std::alloc::Global;

/// A value that is compared with the subject, which has this kind.
fn compared(
    alloc: Global,
    scope: &Scope,
    found: &mut Option<Fault>,
    subject: Option<Kind>,
    value: &Expr,
) -> Result<bound::Expr, OutOfMemory>
    ensures tree { IfOk result (λ x. IsBoundExpr (scope_of scope.now) (expr_of value.now) x) }
    ensures found { OnOk result (Notes (compared (scope_of scope.now) subject (expr_of value.now)) found.old found.new) }
{
    alike(alloc, scope, found, start_of(value), subject, value)
}

/// A label, where the subject has this kind.
fn label(
    alloc: Global,
    scope: &Scope,
    found: &mut Option<Fault>,
    subject: Option<Kind>,
    label: &Label,
) -> Result<bound::Label, OutOfMemory>
    ensures tree { IfOk result (λ x. IsBoundLabel (scope_of scope.now) (label_of label.now) x) }
    ensures found { OnOk result (Notes (label_faults (scope_of scope.now) subject (label_of label.now)) found.old found.new) }
{
    match label {
        Label::One { value } => {
            let value = compared(alloc, scope, found, subject, value)?;
            Ok(bound::Label::One { value })
        }
        Label::Range { low, high } => {
            let low = compared(alloc, scope, found, subject, low)?;
            let high = compared(alloc, scope, found, subject, high)?;
            Ok(bound::Label::Range { low, high })
        }
        Label::Is {
            relation,
            value,
            ..
        } => {
            let value = compared(alloc, scope, found, subject, value)?;
            Ok(bound::Label::Is {
                relation: *relation,
                value,
            })
        }
    }
}

/// The labels of a clause, where the subject has this kind.
pub fn labels(
    alloc: Global,
    scope: &Scope,
    found: &mut Option<Fault>,
    subject: Option<Kind>,
    labels: &[Label],
) -> Result<Items<bound::Label>, OutOfMemory>
    ensures tree { IfOk result (λ x. AreBoundLabels (scope_of scope.now) (map label_of labels.now) x) }
    ensures found { OnOk result (Notes (labels_faults (scope_of scope.now) subject (map label_of labels.now)) found.old found.new) }
{
    let mut made = list_with_room(alloc, labels.len())?;
    for one in labels {
        let bound = label(alloc, scope, found, subject, one)?;
        push(&mut made, bound)?;
    }
    Ok(made)
}

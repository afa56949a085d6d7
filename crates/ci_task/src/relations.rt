//! Comparisons of INTs, without a jump.
ghost use Rattle.std.specs.Prelude.{◌≡◌};
ghost use Rattle.std.specs.Ordering.{int_cmp};
ghost use Rattle.ci_base.specs.Comparisons as comparisons;
ghost use Rattle.ci_base.specs.Values as values;
ghost use Rattle.ci_base.specs.declared.value.Value.TheVariants.{Int};
ghost use Rattle.ci_task.specs.Orders as relations;

use ci_base::Relation;

/// The orders for which the relation holds, as bits.
#[inline(always)]
fn orders_of(relation: Relation) -> u32
    ensures { result ≡ relations.orders_of relation }
{
    match relation {
        Relation::Less => 1,
        Relation::Equal => 2,
        Relation::AtMost => 3,
        Relation::Greater => 4,
        Relation::Unequal => 5,
        Relation::AtLeast => 6,
    }
}

/// The bit of the order in which two INTs stand.
#[inline(always)]
fn bit_between(a: i32, b: i32) -> u32
    ensures { result ≡ relations.bit_of (int_cmp a b) }
{
    if a < b {
        1
    } else if b < a {
        4
    } else {
        2
    }
}

/// 1 where the relation holds of two INTs, else 0. A match on the relation would be one more jump by a table, where this looks
/// into one.
#[inline(always)]
pub fn compared(relation: Relation, a: i32, b: i32) -> i32
    ensures { result ≡ values.truth (comparisons.holds relation (Int a) (Int b)) }
{
    let common = orders_of(relation) & bit_between(a, b);
    if common == 0 { 0 } else { 1 }
}

//! Lists and boxes whose making answers want of memory alone.
ghost use Rattle.std.specs.Prelude.{◌≡◌, [], ◌∷◌, ◌++◌, IfOk, OnOk};

use ci_base::OutOfMemory;
use sqlite_items::{Boxed, Items};
use std::alloc::Global;

/// Adds the item at the end.
pub fn push<T: Drop>(items: &mut Items<T>, item: T) -> Result<(), OutOfMemory>
    ensures { OnOk result (items.new ≡ items.old ++ item ∷ []) }
{
    match items.push(item) {
        Ok(()) => Ok(()),
        Err(_) => Err(OutOfMemory),
    }
}

/// Adds the member at the end.
pub(crate) fn add<T: Drop>(all: &mut Vec<T>, member: T) -> Result<(), OutOfMemory>
    ensures { OnOk result (all.new.items ≡ all.old.items ++ member ∷ []) }
{
    match all.push(member) {
        Ok(()) => Ok(()),
        Err(_) => Err(OutOfMemory),
    }
}

/// A box of this value.
pub fn boxed<T: Drop>(alloc: Global, value: T) -> Result<Boxed<T>, OutOfMemory>
    ensures { IfOk result (λ kept. kept ≡ value) }
{
    match Boxed::new(alloc, value) {
        Ok(kept) => Ok(kept),
        Err(_) => Err(OutOfMemory),
    }
}

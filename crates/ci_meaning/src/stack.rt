//! Stacks: lists with the top at the end.
ghost use Rattle.std.specs.Prelude.{◌≡◌, ◌≢◌, [], ◌∷◌, reverse, length, MatchOption, OnOk, OnErr};
ghost use Rattle.ci_meaning.specs.Held.{below};

use ci_base::OutOfMemory;
use sqlite_items::Items;
use std::alloc::Global;

/// The top, where there is one.
#[tactic(auto, using(crate::proofs::Stacks::top_below))]
pub fn top<T>(stack: &Items<T>) -> Option<&T>
    ensures { MatchOption result (reverse stack.now ≡ []) (λ x. reverse stack.now ≡ x.now ∷ below stack.now) }
{
    match stack.as_slice().split_last() {
        Some((top, _)) => Some(top),
        None => None,
    }
}

/// The top is dropped, where there is one.
#[tactic(auto, using(crate::proofs::Stacks::under_top, crate::proofs::Stacks::under_none))]
pub fn drop_top<T: Drop>(stack: &mut Items<T>)
    ensures { reverse stack.new ≡ below stack.old }
{
    let _ = stack.pop();
}

/// This takes the place of the top.
#[tactic(auto, using(crate::proofs::Stacks::set_below))]
pub fn set_top<T: Drop>(stack: &mut Items<T>, top: T)
    requires { reverse stack.old ≢ [] }
    ensures { reverse stack.new ≡ top ∷ below stack.old }
{
    let last = stack.len() - 1;
    stack.set(last, top);
}

/// This is put onto the stack.
pub fn push<T: Drop>(stack: &mut Items<T>, top: T) -> Result<(), OutOfMemory>
    ensures ok { OnOk result (reverse stack.new ≡ top ∷ reverse stack.old) }
    ensures err { OnErr result (stack.new ≡ stack.old) }
{
    match stack.push(top) {
        Ok(()) => Ok(()),
        Err(_) => Err(OutOfMemory),
    }
}

/// The same, where another is to take its place.
#[tactic(auto, using(crate::proofs::Stacks::under_top))]
pub fn push_spare<T: Drop>(stack: &mut Items<T>, spare: T) -> Result<(), OutOfMemory>
    ensures some { OnOk result (reverse stack.new ≢ []) }
    ensures ok { OnOk result (below stack.new ≡ reverse stack.old) }
    ensures err { OnErr result (stack.new ≡ stack.old) }
{
    match stack.push(spare) {
        Ok(()) => Ok(()),
        Err(_) => Err(OutOfMemory),
    }
}

/// Two are put onto the stack.
#[tactic(auto, using(crate::proofs::Stacks::taken_off))]
pub fn push_two<T: Drop>(stack: &mut Items<T>, lower: T, top: T) -> Result<(), OutOfMemory>
    ensures ok { OnOk result (reverse stack.new ≡ top ∷ lower ∷ reverse stack.old) }
    ensures err { OnErr result (stack.new ≡ stack.old) }
{
    match stack.push(lower) {
        Ok(()) => (),
        Err(_) => return Err(OutOfMemory),
    }
    match stack.push(top) {
        Ok(()) => Ok(()),
        Err(_) => {
            let _ = stack.pop();
            Err(OutOfMemory)
        }
    }
}

/// One takes the place of the top, and another is put onto it.
#[tactic(auto, using(crate::proofs::Stacks::set_under))]
pub fn set_under<T: Drop>(stack: &mut Items<T>, lower: T, top: T) -> Result<(), OutOfMemory>
    requires { reverse stack.old ≢ [] }
    ensures ok { OnOk result (reverse stack.new ≡ top ∷ lower ∷ below stack.old) }
    ensures err { OnErr result (stack.new ≡ stack.old) }
{
    match stack.push(top) {
        Ok(()) => {
            let under = stack.len() - 2;
            stack.set(under, lower);
            Ok(())
        }
        Err(_) => Err(OutOfMemory),
    }
}

/// Nothing is left on the stack.
pub fn clear<T: Drop>(alloc: Global, stack: &mut Items<T>)
    ensures { reverse stack.new ≡ [] }
{
    *stack = Items::new(alloc);
}

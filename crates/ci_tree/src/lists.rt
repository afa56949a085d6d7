//! The lists that trees are made of.
ghost use Rattle.std.specs.Prelude.{◌≡◌, [], ◌∷◌, ◌++◌, IfOk, OnOk};

use ci_base::OutOfMemory;
use sqlite_items::Items;
use std::alloc::Global;

/// The list without members, with room for so many. It takes memory where that is not 0, and more members may be added than there is
/// room for. Most lists of a tree have one member, and a list that is told so wastes none.
pub fn list_with_room<T>(alloc: Global, room: usize) -> Result<Items<T>, OutOfMemory>
    ensures { IfOk result (λ list. list ≡ []) }
{
    Ok(Items::from_vec(room_for(alloc, room)?))
}

/// The same as a plain list.
pub(crate) fn room_for<T>(alloc: Global, room: usize) -> Result<Vec<T>, OutOfMemory>
    ensures { IfOk result (λ list. list.items ≡ []) }
{
    match Vec::with_capacity(alloc, room) {
        Ok(list) => Ok(list),
        Err(_) => Err(OutOfMemory),
    }
}

/// Adds the member at the end.
pub(crate) fn push<T: Drop>(list: &mut Vec<T>, member: T) -> Result<(), OutOfMemory>
    ensures { OnOk result (list.new.items ≡ list.old.items ++ member ∷ []) }
{
    match list.push(member) {
        Ok(()) => Ok(()),
        Err(_) => Err(OutOfMemory),
    }
}

//! What the store keeps of a layout.
ghost use Rattle.std.specs.Prelude.{◌≡◌, [], IfOk};

use ci_base::{
    CellHeadList, Global, GlobalList, Head, HeadList, Kind, KindList, Layout, OutOfMemory, Value,
    ValueList,
};
use std::alloc::Global as Allocator;

/// The layout without its cells.
pub(crate) fn without_cells(alloc: Allocator, layout: &Layout) -> Result<Layout, OutOfMemory>
    ensures { IfOk result (λ kept. kept ≡ record { functions = layout.now.functions; cells = []; globals = layout.now.globals }) }
{
    let Ok(functions) = heads(alloc, layout.functions.members()) else {
        return Err(OutOfMemory);
    };
    let Ok(globals) = globals(alloc, layout.globals.members()) else {
        return Err(OutOfMemory);
    };
    Ok(Layout {
        functions,
        cells: CellHeadList::of(Vec::new(alloc)),
        globals,
    })
}

fn heads(alloc: Allocator, members: &[Head]) -> Result<HeadList, OutOfMemory>
    ensures { IfOk result (λ list. list ≡ members.now) }
{
    let Ok(mut kept) = Vec::with_capacity(alloc, members.len()) else {
        return Err(OutOfMemory);
    };
    for member in members {
        let Ok(copy) = head(alloc, member) else {
            return Err(OutOfMemory);
        };
        match kept.push(copy) {
            Ok(()) => {}
            Err(_) => return Err(OutOfMemory),
        }
    }
    Ok(HeadList::of(kept))
}

fn head(alloc: Allocator, member: &Head) -> Result<Head, OutOfMemory>
    ensures { IfOk result (λ head. head ≡ member.now) }
{
    let Ok(kinds) = kinds(alloc, member.kinds.members()) else {
        return Err(OutOfMemory);
    };
    let Ok(defaults) = values(alloc, member.defaults.members()) else {
        return Err(OutOfMemory);
    };
    Ok(Head {
        name: member.name.copy(),
        public: member.public,
        kinds,
        defaults,
    })
}

fn kinds(alloc: Allocator, members: &[Kind]) -> Result<KindList, OutOfMemory>
    ensures { IfOk result (λ list. list ≡ members.now) }
{
    let Ok(mut kept) = Vec::with_capacity(alloc, members.len()) else {
        return Err(OutOfMemory);
    };
    for member in members {
        match kept.push(*member) {
            Ok(()) => {}
            Err(_) => return Err(OutOfMemory),
        }
    }
    Ok(KindList::of(kept))
}

fn values(alloc: Allocator, members: &[Value]) -> Result<ValueList, OutOfMemory>
    ensures { IfOk result (λ list. list ≡ members.now) }
{
    let Ok(mut kept) = Vec::with_capacity(alloc, members.len()) else {
        return Err(OutOfMemory);
    };
    for member in members {
        match kept.push(member.copy()) {
            Ok(()) => {}
            Err(_) => return Err(OutOfMemory),
        }
    }
    Ok(ValueList::of(kept))
}

fn globals(alloc: Allocator, members: &[Global]) -> Result<GlobalList, OutOfMemory>
    ensures { IfOk result (λ list. list ≡ members.now) }
{
    let Ok(mut kept) = Vec::with_capacity(alloc, members.len()) else {
        return Err(OutOfMemory);
    };
    for member in members {
        let copy = Global {
            name: member.name.copy(),
            cell: member.cell,
        };
        match kept.push(copy) {
            Ok(()) => {}
            Err(_) => return Err(OutOfMemory),
        }
    }
    Ok(GlobalList::of(kept))
}

//! What one task does, on the tree of its project: the definitions that a run is measured by, and their laws.
#![tactic(auto)]

mod aims;
mod calling;
mod elements;
mod entering;
mod evaluating;
mod going;
mod laws;
mod limits;
mod operators;
mod parts;
mod reaching;
mod selecting;
mod sizes;
mod stack;
mod stepping;
mod storing;
mod tree_task;
mod using;

pub use laws::{always_moves, rooms_stay_small, soon_ticks_or_asks};
pub use sizes::room;
pub use tree_task::{TreeMove, TreeTask};

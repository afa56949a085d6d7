//! The values that all crates share: texts, byte strings, the requests of tasks and their answers, the events of a
//! script, and the entries of a history.
#![tactic(auto)]

pub mod bounds;
mod bytes;
mod caret;
mod entry;
pub mod errors;
mod event;
mod function;
mod layout;
mod limits;
mod line;
mod list;
mod memory;
mod place;
mod position;
mod relation;
mod reply;
mod request;
mod task;
mod text;
mod value;

pub use bytes::Bytes;
pub use caret::put_caret;
pub use entry::Entry;
pub use event::{Event, EventKind, EventReply};
pub use function::{PrivateName, SharedName};
pub use layout::{
    CellHead, CellHeadList, Global, GlobalList, Head, HeadList, KindList, Layout, ValueList,
};
pub use limits::{Ending, Limits, Turn};
pub use line::{Line, put_number, put_u32, put_u64};
pub use list::{Loose, LooseList};
pub use memory::OutOfMemory;
pub use place::{Place, Status};
pub use position::{Position, place_of};
pub use relation::Relation;
pub use reply::{Answer, Extra, Reply};
pub use request::Request;
pub use task::{Args, Birth, Delivery, Grant, Trail, Woken};
pub use text::Text;
pub use value::{Kind, Value};

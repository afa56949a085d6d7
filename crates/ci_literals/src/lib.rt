//! What sources, scripts and lists of arguments are written of: names, digits, INTs and texts, and the blanks round them.
#![tactic(auto)]

mod digits;
mod edge;
mod int;
mod items;
mod laws;
mod letters;
mod text;

pub use digits::{digit_value, natural, value_of};
pub use edge::Edge;
pub use int::read_int;
pub use items::{TextEnd, scan_items};
pub use laws::text_is_spelled;
pub use letters::{is_digit, is_hex_digit, is_letter, is_word};
pub use text::read_text;

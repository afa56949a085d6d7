//! The operators on values and the functions that every project has, as functions on values. They take no memory.
#![tactic(auto)]

mod arithmetic;
mod comparisons;
mod conditions;
mod joining;
mod laws;
mod letters;
mod numbers;
mod parts;
mod private;
mod requests;
mod search;

pub use arithmetic::{abs, difference, max, min, negation, product, quotient, remainder, sum};
pub use comparisons::{holds, relates, same, within};
pub use conditions::{
    assert_that, common_bits, conjunction, differing_bits, disjunction, inversion, is_set, is_zero,
    joint_bits, truth,
};
pub use joining::{joined, str_fill};
pub use laws::{gives_its_kind, searches_least};
pub use letters::{str_lower, str_trim, str_upper};
pub use numbers::{char_to_str, formatted, int_to_str, str_to_int};
pub use parts::{str_get_char, str_left, str_length, str_mid, str_right};
pub use private::{err_set, error_after, goes_on_after, is_error, private_value};
pub use requests::request_of;
pub use search::str_search;

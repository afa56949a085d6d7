//! What a task remembers besides its values.
use ci_base::Text;

/// The last error of a task, the last element that it read, and whether it goes on after run errors.
#[derive(Debug, Drop)]
pub struct Heard {
    /// The number of the last error, 0 where there is none.
    pub error: u8,
    /// The sort of the last element read.
    pub sort: i32,
    /// Its text.
    pub text: Text,
    /// Whether the task goes on after run errors.
    pub goes_on: bool,
}

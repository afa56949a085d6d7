//! The numbers of the errors of the language. Code and definitions cite these.

/// No live task, and no object, has this number.
pub const BAD_NUMBER: u8 = 1;

/// The limit of a wait has passed.
pub const TIMED_OUT: u8 = 2;

/// The queue has no element.
pub const QUEUE_EMPTY: u8 = 3;

/// An object of this name exists.
pub const NAME_EXISTS: u8 = 4;

/// Nothing has this name.
pub const NAME_UNKNOWN: u8 = 5;

/// The section isn't the task's own.
pub const NOT_OWNER: u8 = 6;

/// An index below 0, or not below the array's length. A run error.
pub const BAD_INDEX: u8 = 7;

/// A division by 0. A run error.
pub const DIVIDE_BY_ZERO: u8 = 8;

/// A text of more than 255 bytes. A run error.
pub const TEXT_TOO_LONG: u8 = 9;

/// An argument that the function doesn't take.
pub const BAD_ARGUMENT: u8 = 10;

/// There are as many as there may be.
pub const TABLE_FULL: u8 = 11;

/// The room of the active functions is used up. It ends the task.
pub const CALL_DEPTH: u8 = 12;

/// A text that spells no INT. A run error.
pub const NOT_A_NUMBER: u8 = 13;

/// An assertion that doesn't hold. A run error.
pub const ASSERTION: u8 = 14;

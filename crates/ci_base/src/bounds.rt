//! How much there may be of everything. Code and definitions cite these; a limit stands nowhere else as a number.

/// Files of an order.
pub const MOST_FILES: usize = 64;

/// Bytes of a source.
pub const MOST_SOURCE_BYTES: u32 = 262_144;

/// Bytes of a script.
pub const MOST_SCRIPT_BYTES: u32 = 8_388_608;

/// Bytes of a journal.
pub const MOST_JOURNAL_BYTES: u32 = 268_435_456;

/// Lines of a script, and so its events.
pub const MOST_SCRIPT_LINES: usize = 100_000;

/// Bytes of a name.
pub const MOST_NAME_BYTES: usize = 64;

/// Bytes of a text.
pub const MOST_TEXT_BYTES: usize = 255;

/// The number that a token of hashes has, and so the width of a format.
pub const MOST_HASHES: usize = 255;

/// Tokens of a file, and nodes of its tree: a token has at least one byte, and a node a token of its own.
pub const MOST_TOKENS: usize = 262_144;

/// Levels that are open at a place of a file.
pub const MOST_LEVELS: usize = 32;

/// Nodes of a bound project: those of the trees of all files.
pub const MOST_NODES: usize = 16_777_216;

/// Functions of a project.
pub const MOST_FUNCTIONS: usize = 1_000;

/// Parameters of a function, and arguments of a call.
pub const MOST_PARAMETERS: usize = 16;

/// Locals of a function, its parameters among them.
pub const MOST_LOCALS: usize = 64;

/// Shared cells of a project, and cells of an array.
pub const MOST_CELLS: usize = 100_000;

/// Values that a task holds at once: the rooms of its active functions together, and so the room of each.
pub const MOST_ROOM: usize = 4_096;

/// Live tasks of a run.
pub const MOST_LIVE_TASKS: usize = 64;

/// Tasks that are started in a run.
pub const MOST_TASKS: usize = 4_096;

/// Semaphores, queues, and owned sections, each.
pub const MOST_OBJECTS: usize = 256;

/// Elements in all queues together.
pub const MOST_ELEMENTS: usize = 4_096;

/// What a semaphore or a section counts to.
pub const MOST_COUNT: u32 = 65_535;

/// Bytes of a line of output.
pub const MOST_LINE_BYTES: usize = 4_096;

/// Ticks of a turn: at least, at most, and where the words don't say.
pub const LEAST_SLICE: u32 = 1;

pub const MOST_SLICE: u32 = 1_000_000;

pub const GIVEN_SLICE: u32 = 1_000;

/// The work of a run: at least, at most, and where the words don't say.
pub const LEAST_BUDGET: u32 = 200;

pub const MOST_BUDGET: u32 = 100_000_000;

pub const GIVEN_BUDGET: u32 = 10_000_000;

/// Worker threads of a run; where the words don't say there is none.
pub const MOST_WORKERS: u32 = 16;

/// The greatest count of instructions; from there on they aren't counted.
pub const MOST_INSTRUCTIONS: u64 = 9_223_372_036_854_775_807;

//! The functions that every project has, and what the shared ones are called.
ghost use Rattle.std.specs.Prelude.{◌≡◌};
ghost use Rattle.ci_scopes.specs.Spelling.{shared_spelling};

use ci_base::{PrivateName, SharedName};

/// Those whose call touches the task alone.
pub(crate) const PRIVATE_NAMES: [PrivateName; 19] = [
    PrivateName::StrLength,
    PrivateName::StrLeft,
    PrivateName::StrRight,
    PrivateName::StrMid,
    PrivateName::StrSearch,
    PrivateName::StrUpper,
    PrivateName::StrLower,
    PrivateName::StrTrim,
    PrivateName::StrFill,
    PrivateName::StrToInt,
    PrivateName::IntToStr,
    PrivateName::StrGetChar,
    PrivateName::CharToStr,
    PrivateName::Abs,
    PrivateName::Max,
    PrivateName::Min,
    PrivateName::Assert,
    PrivateName::ErrSet,
    PrivateName::IsError,
];

/// Those whose call is a shared request.
pub(crate) const SHARED_NAMES: [SharedName; 21] = [
    SharedName::TaskNew,
    SharedName::TaskKill,
    SharedName::TaskSuspend,
    SharedName::TaskResume,
    SharedName::TaskHnd,
    SharedName::Sleep,
    SharedName::SleepMS,
    SharedName::SemOpen,
    SharedName::SemWait,
    SharedName::SemSignal,
    SharedName::SemClose,
    SharedName::QueOpen,
    SharedName::QueWrite,
    SharedName::QueRead,
    SharedName::QueLength,
    SharedName::QueClose,
    SharedName::Enter,
    SharedName::Leave,
    SharedName::Trace,
    SharedName::SysTime,
    SharedName::End,
];

/// How a shared function is spelled.
pub(crate) fn shared_spelling(name: SharedName) -> &'static [u8]
    ensures { result.now ≡ shared_spelling name }
{
    match name {
        SharedName::TaskNew => b"TaskNew",
        SharedName::TaskKill => b"TaskKill",
        SharedName::TaskSuspend => b"TaskSuspend",
        SharedName::TaskResume => b"TaskResume",
        SharedName::TaskHnd => b"TaskHnd",
        SharedName::Sleep => b"Sleep",
        SharedName::SleepMS => b"SleepMS",
        SharedName::SemOpen => b"SemOpen",
        SharedName::SemWait => b"SemWait",
        SharedName::SemSignal => b"SemSignal",
        SharedName::SemClose => b"SemClose",
        SharedName::QueOpen => b"QueOpen",
        SharedName::QueWrite => b"QueWrite",
        SharedName::QueRead => b"QueRead",
        SharedName::QueLength => b"QueLength",
        SharedName::QueClose => b"QueClose",
        SharedName::Enter => b"EnterCriticalSection",
        SharedName::Leave => b"LeaveCriticalSection",
        SharedName::Trace => b"TraceMsg",
        SharedName::SysTime => b"SysTime",
        SharedName::End => b"Halt",
    }
}

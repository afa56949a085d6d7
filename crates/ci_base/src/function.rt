//! The functions that every project has.
ghost use Rattle.std.specs.Prelude.{◌≡◌, ◌≤◌, length};
ghost use Rattle.ci_base.specs.FunctionNames.{private_spelling};
ghost use Rattle.ci_base.specs.Functions.{private_takes, private_gives, shared_takes};

use crate::value::Kind;

/// A private function: its call touches the task alone, and makes no shared request.
#[derive(Clone, Copy, Debug, PartialEq, Eq)]
pub enum PrivateName {
    StrLength,
    StrLeft,
    StrRight,
    StrMid,
    StrSearch,
    StrUpper,
    StrLower,
    StrTrim,
    StrFill,
    StrToInt,
    IntToStr,
    StrGetChar,
    CharToStr,
    Abs,
    Max,
    Min,
    Assert,
    ErrSet,
    IsError,
}

impl PrivateName {
    /// The same function again. Takes no memory.
    pub fn copy(&self) -> PrivateName
        ensures { result ≡ self.now }
    {
        *self
    }

    /// Its name, as the language spells it.
    pub fn spelling(self) -> &'static [u8]
        ensures value { result.now ≡ private_spelling self }
        ensures short { length result.now ≤ 10 }
    {
        match self {
            PrivateName::StrLength => b"StrLength",
            PrivateName::StrLeft => b"StrLeft",
            PrivateName::StrRight => b"StrRight",
            PrivateName::StrMid => b"StrMid",
            PrivateName::StrSearch => b"StrSearch",
            PrivateName::StrUpper => b"StrUpper",
            PrivateName::StrLower => b"StrLower",
            PrivateName::StrTrim => b"StrTrim",
            PrivateName::StrFill => b"StrFill",
            PrivateName::StrToInt => b"StrToInt",
            PrivateName::IntToStr => b"IntToStr",
            PrivateName::StrGetChar => b"StrGetChar",
            PrivateName::CharToStr => b"CharToStr",
            PrivateName::Abs => b"Abs",
            PrivateName::Max => b"Max",
            PrivateName::Min => b"Min",
            PrivateName::Assert => b"Assert",
            PrivateName::ErrSet => b"ErrSet",
            PrivateName::IsError => b"IsError",
        }
    }

    /// The kinds of what it takes.
    pub fn takes(self) -> &'static [Kind]
        ensures { result.now ≡ private_takes self }
    {
        match self {
            PrivateName::StrLength
            | PrivateName::StrUpper
            | PrivateName::StrLower
            | PrivateName::StrTrim
            | PrivateName::StrToInt => &[Kind::Str],
            PrivateName::StrLeft
            | PrivateName::StrRight
            | PrivateName::StrFill
            | PrivateName::StrGetChar => &[Kind::Str, Kind::Int],
            PrivateName::StrMid => &[Kind::Str, Kind::Int, Kind::Int],
            PrivateName::StrSearch => &[Kind::Int, Kind::Str, Kind::Str],
            PrivateName::IntToStr
            | PrivateName::CharToStr
            | PrivateName::Abs
            | PrivateName::Assert
            | PrivateName::ErrSet => &[Kind::Int],
            PrivateName::Max | PrivateName::Min => &[Kind::Int, Kind::Int],
            PrivateName::IsError => &[],
        }
    }

    /// The kind of its value.
    pub fn gives(self) -> Kind
        ensures { result ≡ private_gives self }
    {
        match self {
            PrivateName::StrLeft
            | PrivateName::StrRight
            | PrivateName::StrMid
            | PrivateName::StrUpper
            | PrivateName::StrLower
            | PrivateName::StrTrim
            | PrivateName::StrFill
            | PrivateName::IntToStr
            | PrivateName::CharToStr => Kind::Str,
            PrivateName::StrLength
            | PrivateName::StrSearch
            | PrivateName::StrToInt
            | PrivateName::StrGetChar
            | PrivateName::Abs
            | PrivateName::Max
            | PrivateName::Min
            | PrivateName::Assert
            | PrivateName::ErrSet
            | PrivateName::IsError => Kind::Int,
        }
    }
}

/// A shared function: its call is a shared request. Each is named as the variant of `Request` that it makes, so
/// `EnterCriticalSection` is `Enter`, `LeaveCriticalSection` is `Leave`, `TraceMsg` is `Trace` and `Halt` is `End`. Reads and
/// writes of variables have no function.
#[derive(Clone, Copy, Debug, PartialEq, Eq)]
pub enum SharedName {
    TaskNew,
    TaskKill,
    TaskSuspend,
    TaskResume,
    TaskHnd,
    Sleep,
    SleepMS,
    SemOpen,
    SemWait,
    SemSignal,
    SemClose,
    QueOpen,
    QueWrite,
    QueRead,
    QueLength,
    QueClose,
    Enter,
    Leave,
    Trace,
    SysTime,
    End,
}

impl SharedName {
    /// The same function again. Takes no memory.
    pub fn copy(&self) -> SharedName
        ensures { result ≡ self.now }
    {
        *self
    }

    /// The kinds of what its request has, in the request's order.
    pub fn takes(self) -> &'static [Kind]
        ensures { result.now ≡ shared_takes self }
    {
        match self {
            SharedName::TaskNew => &[Kind::Str, Kind::Str, Kind::Int],
            SharedName::TaskKill
            | SharedName::TaskSuspend
            | SharedName::TaskResume
            | SharedName::Sleep
            | SharedName::SleepMS
            | SharedName::SemSignal
            | SharedName::SemClose
            | SharedName::QueLength
            | SharedName::QueClose => &[Kind::Int],
            SharedName::TaskHnd | SharedName::Enter | SharedName::Leave | SharedName::Trace => &[
                Kind::Str,
            ],
            SharedName::SemOpen | SharedName::QueOpen => &[Kind::Str, Kind::Int],
            SharedName::SemWait | SharedName::QueRead => &[Kind::Int, Kind::Int],
            SharedName::QueWrite => &[Kind::Int, Kind::Int, Kind::Str],
            SharedName::SysTime | SharedName::End => &[],
        }
    }
}

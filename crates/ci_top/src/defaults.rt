//! What holds for a run where the words don't say otherwise.
ghost use Rattle.std.specs.Prelude.{◌≡◌, IfOk};
ghost use Rattle.ci_top.specs.Asked.{as_list};
ghost use Rattle.ci_top.specs.Defaults.{script_of as script_given};

use ci_base::{Bytes, OutOfMemory};
use std::alloc::Global;

/// The script where none is named.
const DEFAULT_SCRIPT: &[u8] = b"run Main()";

/// The script that is given, or the default.
pub(crate) fn script_of(alloc: Global, given: Option<Bytes>) -> Result<Bytes, OutOfMemory>
    ensures { IfOk result (λ script. script ≡ script_given (as_list given)) }
{
    match given {
        Some(script) => Ok(script),
        None => Bytes::copy(alloc, DEFAULT_SCRIPT),
    }
}

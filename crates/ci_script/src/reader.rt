//! The reading of a script, line by line.
ghost use Rattle.std.specs.Prelude.{◌≡◌, ◌≢◌, IfOk, IfErr};
ghost use Rattle.ci_script.specs.declared.fault.ScriptFault.TheVariants as faults;
ghost use Rattle.ci_script.specs.Scripts.{events, script_fault};

use crate::fault::ScriptFault;
use crate::lines::split_line;
use crate::reading::{Reading, read_line};
use crate::script::Script;
use ci_base::bounds::MOST_SCRIPT_LINES;
use std::alloc::Global;

/// The events of a script, or its first fault with the number of its line. A script has exactly one of both, so each answer but
/// `Memory` comes exactly where its clause says; `Memory` may come for every script. Takes time by the script's length, and memory
/// for the events.
pub fn read_script(alloc: Global, source: &[u8]) -> Result<Script, ScriptFault>
    ensures ok { IfOk result (λ script. events source.now script) }
    ensures err { IfErr result (λ fault. fault ≢ faults.Memory → script_fault source.now fault) }
{
    let mut kept = Vec::new(alloc);
    let mut rest = source;
    let mut number: u32 = 0;
    while !rest.is_empty() {
        let (line, behind) = split_line(rest);
        if number as usize == MOST_SCRIPT_LINES {
            return Err(ScriptFault::TooManyLines);
        }
        number += 1;
        match read_line(line) {
            Reading::Nothing => {}
            Reading::Event(event) => match kept.push(event) {
                Ok(()) => {}
                Err(_) => return Err(ScriptFault::Memory),
            },
            Reading::UnknownEvent => return Err(ScriptFault::UnknownEvent { line: number }),
            Reading::BadArgument => return Err(ScriptFault::BadArgument { line: number }),
        }
        rest = behind;
    }
    Ok(Script::of(kept))
}

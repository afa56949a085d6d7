//! The script of a workload.
ghost use Rattle.std.specs.Prelude.{◌≡◌, ◌+◌, ◌*◌, ◌≤◌, ◌++◌, length, IfOk, OnOk};
ghost use Rattle.std.specs.List.{flat_map};
ghost use Rattle.ci_base.specs.declared.bounds.TheConstants.{MOST_SCRIPT_BYTES};
ghost use Rattle.ci_workload.specs.Workload.{numbers, tick_line, script_text};
ghost use Rattle.ci_workload.specs.declared.source.TheConstants.{MOST_WORKLOAD};

use crate::source::{MOST_WORKLOAD, sleeps};
use ci_base::{Bytes, OutOfMemory};
use std::alloc::Global;

/// The script of the workload with `n` functions: Main is run, and then comes one millisecond for each of its sleeps.
#[tactic(auto, unfolding(crate::specs::Workload::script_text))]
pub fn workload_script(alloc: Global, n: u32) -> Result<Bytes, OutOfMemory>
    requires some { 1 ≤ n }
    requires few { n ≤ MOST_WORKLOAD }
    ensures value { IfOk result (λ text. text ≡ script_text n) }
    ensures within { IfOk result (λ text. length text ≤ MOST_SCRIPT_BYTES) }
{
    let mut text = Bytes::copy(alloc, b"run Main()\n")?;
    add_ticks(n, &mut text)?;
    Ok(text)
}

/// Adds a tick for each sleep.
fn add_ticks(n: u32, text: &mut Bytes) -> Result<(), OutOfMemory>
    requires { n ≤ MOST_WORKLOAD }
    ensures value { OnOk result (text.new ≡ text.old ++ flat_map tick_line (numbers n)) }
    ensures short { OnOk result (length text.new ≤ length text.old + 7 * n) }
{
    for earlier in 0..n {
        text.append(tick_line(earlier + 1))?;
    }
    Ok(())
}

/// The line that ends the sleep behind the start of the function with this number, if there is one.
fn tick_line(number: u32) -> &'static [u8]
    ensures value { result.now ≡ tick_line number }
    ensures short { length result.now ≤ 7 }
{
    if sleeps(number) { b"tick 1\n" } else { b"" }
}

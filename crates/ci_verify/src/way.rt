//! Where a function goes on behind an instruction.
ghost use Rattle.std.specs.Prelude.{◌≡◌};
ghost use Rattle.ci_verify.specs.Ways.{way_of};

use ci_code::Instruction;

/// The places that can be next.
#[derive(Clone, Copy, Debug)]
pub enum Way {
    /// The place behind it.
    Next,
    /// This place alone.
    To(u32),
    /// This place, or the one behind.
    Branch(u32),
    /// None: the function ends.
    Ends,
}

/// Where a function goes on behind this instruction.
pub fn way_behind(what: Instruction) -> Way
    ensures { result ≡ way_of what }
{
    match what {
        Instruction::Jump(to) => Way::To(to),
        Instruction::JumpIfZero(to) => Way::Branch(to),
        Instruction::Return => Way::Ends,
        _ => Way::Next,
    }
}

//! What an answer replaces.
ghost use Rattle.std.specs.Prelude.{◌≡◌};
ghost use Rattle.ci_task.specs.Moved as moved;

use ci_code::Instruction;

/// What the answer to a request replaces.
#[derive(Clone, Copy, Debug)]
pub struct Behind {
    /// How many operands it takes off.
    pub taken: u32,
    /// Whether its value goes on top.
    pub gives: bool,
}

/// What an answer replaces behind an instruction.
pub fn behind_of(what: Instruction) -> Behind
    ensures { result ≡ moved.behind what }
{
    match what {
        Instruction::ReadCell(_) => Behind {
            taken: 0,
            gives: true,
        },
        Instruction::WriteCell(_) => Behind {
            taken: 1,
            gives: false,
        },
        Instruction::ReadAt(_) => Behind {
            taken: 1,
            gives: true,
        },
        Instruction::WriteAt(_) => Behind {
            taken: 2,
            gives: false,
        },
        Instruction::Ask(name) => Behind {
            taken: name.takes().len() as u32,
            gives: true,
        },
        _ => Behind {
            taken: 0,
            gives: false,
        },
    }
}

//! From sources to a program.
ghost use Rattle.std.specs.Prelude.{◌≡◌, ◌<◌, ◌≤◌, length, All, IfOk, IfErr};
ghost use Rattle.ci_source.specs.Compiling.{compiles};
ghost use Rattle.ci_source.specs.Telling.{IsRefusedAs};
ghost use Rattle.ci_top.specs.Compile.{AreSources, IsFaultOf};
ghost use Rattle.ci_tree.specs.SeenBound.{project_of};

use ci_base::{Bytes, place_of};
use ci_codegen::generate;
use ci_program::Program;
use ci_source::{Compiled, Fault, SourceFault, read_sources};
use std::alloc::Global;
use std::marker::Model;

/// At most 64 sources of at most 262,144 bytes each, in the order of their files. Contracts see the bytes of each.
#[derive(Debug, Drop)]
pub struct Sources {
    kept: Vec<Bytes>,
}

impl Model for Sources {
    ghost use Rattle.ci_top.specs.Compile.{AreSources};
    ghost use Rattle.std.specs.Prelude.{ℕ, List};

    ghost Value = { List (List ℕ) };

    ghost view = { λ sources. sources.kept.items };

    ghost invariant = { λ sources. AreSources sources.kept.items };
}

impl Sources {
    /// These sources. Takes no memory.
    pub fn of(sources: Vec<Bytes>) -> Sources
        requires { AreSources sources.items }
        ensures { result ≡ sources.items }
    {
        Sources { kept: sources }
    }

    /// The bytes of each.
    pub fn members(&self) -> &[Bytes]
        ensures value { result.now ≡ self.now }
        ensures kept { AreSources result.now }
    {
        self.kept.as_slice()
    }
}

/// Why sources give no program.
#[derive(Clone, Copy, Debug, PartialEq, Eq)]
pub enum CompileFault {
    /// Their first fault. Files are counted from 0, lines and columns from 1.
    Fault {
        file: u32,
        line: u32,
        column: u32,
        fault: Fault,
    },
    /// There was no memory for their tokens, their trees, their project or its code.
    Memory,
}

/// The program of sources, whose project is the one that they mean, or their first fault and its place. `Memory` may come for all
/// sources. Sources have one project or one first fault and never both (`ci_source::one_meaning`), so each other answer comes exactly
/// where its clause says.
pub fn compile(alloc: Global, files: &Sources) -> Result<Program, CompileFault>
    ensures ok { IfOk result (λ program. compiles files.now (project_of program)) }
    ensures err { IfErr result (λ fault. IsFaultOf files.now fault) }
{
    let sources = files.members();
    match read_sources(alloc, sources) {
        Ok(Compiled { project, trees: _ }) => match generate(alloc, project) {
            Ok(program) => Ok(program),
            Err(_) => Err(CompileFault::Memory),
        },
        Err(
            SourceFault::Refused {
                file,
                fault,
                offset,
            },
        ) => Err(fault_at(sources, file, fault, offset)),
        Err(SourceFault::Memory) => Err(CompileFault::Memory),
    }
}

/// The fault at this offset of the source of this number, by its line and column.
fn fault_at(sources: &[Bytes], file: u32, fault: Fault, offset: u32) -> CompileFault
    requires sources { AreSources sources.now }
    requires refused { IsRefusedAs sources.now (SourceFault.Refused file fault offset) }
    ensures { IsFaultOf sources.now result }
{
    let place = place_of(sources[file as usize].bytes(), offset);
    CompileFault::Fault {
        file,
        line: place.line,
        column: place.column,
        fault,
    }
}

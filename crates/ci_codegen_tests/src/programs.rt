//! Programs of sources.
ghost use Rattle.std.specs.Prelude.{◌≤◌, All, IsTrue, length};
ghost use Rattle.ci_base.specs.declared.bounds.TheConstants.{MOST_SOURCE_BYTES};

use ci_base::Bytes;
use ci_base::bounds::{MOST_FILES, MOST_SOURCE_BYTES};
use ci_codegen::generate;
use ci_program::Program;
use ci_source::{Compiled, read_sources};
use std::alloc::Global;

/// The program of one file, if it compiles and there is memory.
pub fn program(alloc: Global, source: &str) -> Option<Program> {
    match Bytes::copy(alloc, source.as_bytes()) {
        Ok(file) => {
            let files = [file];
            program_of(alloc, &files)
        }
        Err(_) => None,
    }
}

/// The program of these files, if they compile and there is memory.
pub fn program_of(alloc: Global, files: &[Bytes]) -> Option<Program> {
    if files.len() > MOST_FILES || !are_short(files) {
        return None;
    }
    match read_sources(alloc, files) {
        Ok(Compiled { project, trees: _ }) => generate(alloc, project).ok(),
        Err(_) => None,
    }
}

/// Whether each file is short enough to be read.
fn are_short(files: &[Bytes]) -> bool
    ensures { IsTrue result → All (λ file. length file ≤ MOST_SOURCE_BYTES) files.now }
{
    files
        .iter()
        .all(|file| file.bytes().len() <= MOST_SOURCE_BYTES as usize)
}

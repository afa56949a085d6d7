//! The program `cicode`: hands its words, the files of the machine and standard output to the top call.
#![tactic(auto)]

use ci_base::Bytes;
use ci_outside::{DirShelf, OpenGate, OutSink, put_all};
use ci_top::cicode;
use std::alloc::Global;
use std::process::ExitCode;
use std::{env, io, rt};

fn main(rt: HostRuntime) -> ExitCode {
    let mut out = OutSink::new(&rt);
    let status = match words(&rt, rt.alloc()) {
        Ok(words) => {
            let mut shelf = DirShelf::new(&rt);
            cicode(
                rt.alloc(),
                words.as_slice(),
                &mut shelf,
                &mut out,
                &OpenGate,
            )
            .status
        }
        Err(NoWords::Memory) => tell(&mut out, b"out of memory\n", 6),
        Err(NoWords::NotText) => tell(&mut out, b"words 0: unknown command\n", 2),
    };
    ExitCode::from(status)
}

/// Why the words can't be had.
#[derive(Clone, Copy, Debug, PartialEq, Eq)]
enum NoWords {
    Memory,
    /// A word isn't UTF-8; the machine's call doesn't say which.
    NotText,
}

/// The words after the program's name.
fn words<R: rt::Env + AllocGlobal>(rt: &R, alloc: Global) -> Result<Vec<Bytes>, NoWords> {
    let args = match env::args(rt) {
        Ok(args) => args,
        Err(error) if error.kind() == io::ErrorKind::OutOfMemory => return Err(NoWords::Memory),
        Err(_) => return Err(NoWords::NotText),
    };
    let mut words = Vec::new(alloc);
    for arg in args.skip(1) {
        let Ok(word) = Bytes::copy(alloc, arg.as_bytes()) else {
            return Err(NoWords::Memory);
        };
        if words.push(word).is_err() {
            return Err(NoWords::Memory);
        }
    }
    Ok(words)
}

/// Puts the text, and gives the status that goes with it, or 5 where a put failed.
fn tell(out: &mut OutSink<'_, HostRuntime>, text: &[u8], status: u8) -> u8 {
    match put_all(out, text) {
        Ok(()) => status,
        Err(_) => 5,
    }
}

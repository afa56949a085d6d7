//! Doing an order in memory.
ghost use Rattle.std.specs.Prelude.{◌<◌};

use ci_base::{Bytes, Ending, OutOfMemory};
use ci_outside::{MemShelf, MemSink, NamedFile, NamedFiles, NumberList};
use ci_top::{Outcome, cicode_alone};
use std::alloc::Global;

/// A shelf with these files: names and contents.
pub(crate) fn shelf_of(alloc: Global, rows: &[(&str, &[u8])]) -> Result<NamedFiles, OutOfMemory> {
    let mut files = NamedFiles::empty(alloc);
    for (name, content) in rows {
        files.add(NamedFile {
            name: Bytes::copy(alloc, name.as_bytes())?,
            content: Bytes::copy(alloc, content)?,
        })?;
    }
    Ok(files)
}

/// The numbers of the calls that fail: this one, or none where it is 0.
pub(crate) fn failing(alloc: Global, number: u64) -> Result<NumberList, OutOfMemory> {
    let mut list = NumberList::empty(alloc);
    if number > 0 {
        list.add(number)?;
    }
    Ok(list)
}

/// The words of a line, with one space between two of them.
pub(crate) fn words_of(alloc: Global, line: &str) -> Result<Vec<Bytes>, OutOfMemory> {
    let mut words = Vec::new(alloc);
    if line.is_empty() {
        return Ok(words);
    }
    for word in line.split(' ') {
        if words.push(Bytes::copy(alloc, word.as_bytes())?).is_err() {
            return Err(OutOfMemory);
        }
    }
    Ok(words)
}

/// What an order leaves behind: its outcome, and the bytes that were put.
#[derive(Drop)]
pub(crate) struct Done {
    pub(crate) outcome: Outcome,
    pub(crate) put: MemSink,
}

/// Does the order of a line over these files. The fetch of this number fails, and so does the put of this number, into a sink
/// that takes at most so many bytes at once; 0 is no call.
pub(crate) fn order(
    alloc: Global,
    line: &str,
    rows: &[(&str, &[u8])],
    failing_fetch: u64,
    most: usize,
    failing_put: u64,
) -> Result<Done, OutOfMemory>
    requires { 0 < most }
{
    let mut shelf = MemShelf::of(shelf_of(alloc, rows)?, failing(alloc, failing_fetch)?);
    let mut put = MemSink::of(alloc, most, failing(alloc, failing_put)?);
    let words = words_of(alloc, line)?;
    let outcome = cicode_alone(alloc, words.as_slice(), &mut shelf, &mut put);
    Ok(Done { outcome, put })
}

/// Whether nothing is kept.
pub(crate) fn is_refusal(outcome: &Outcome) -> bool {
    outcome.history.entries().is_empty()
        && outcome.loose.members().is_empty()
        && outcome.ending == Ending::NotRun
}

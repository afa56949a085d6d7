//! Fetching the files of an order.
ghost use Rattle.std.specs.Prelude.{◌≡◌, ◌<◌, ◌≤◌, ◌+◌, length, slice_get, All, IfOk, IfErr, IfSome, Some};
ghost use Rattle.ci_base.specs.declared.bounds.TheConstants.{MOST_FILES, MOST_SCRIPT_BYTES};
ghost use Rattle.ci_outside.specs.Shelf.{HasFile};
ghost use Rattle.ci_words.specs.Role.{word_at};
ghost use Rattle.ci_top.specs.Asked.{as_list, words_at};
ghost use Rattle.ci_top.specs.Decisions.{StopsAt, StopsFetching, StopsScript, decision_of_fetch};
ghost use Rattle.ci_top.specs.Fetching.{Fetched, each_within};

use crate::decision::{Decision, FileFault};
use ci_base::Bytes;
use ci_base::bounds::MOST_SCRIPT_BYTES;
use ci_outside::{Fetch, Shelf};
use std::alloc::Global;

/// The contents of the files whose names are the words at these indexes, each of at most `limit` bytes, fetched in order; or what
/// becomes of the order, where one isn't fetched.
pub(crate) fn fetch_all<'w, S: Shelf>(
    alloc: Global,
    words: &'w [Bytes],
    indexes: &[u32],
    limit: u32,
    shelf: &mut S,
) -> Result<Vec<Bytes>, Decision<'w>>
    requires indexes { All (λ at. at < length words.now) indexes.now }
    requires few { length indexes.now ≤ MOST_FILES }
    ensures fetched { IfOk result (λ contents. Fetched (S.files shelf.old) (each_within limit (words_at words.now indexes.now)) contents.items) }
    ensures stopped { IfErr result (λ decision. StopsFetching (S.files shelf.old) (S.faults shelf.old) (S.faults shelf.new) (each_within limit (words_at words.now indexes.now)) decision) }
    ensures kept { S.files shelf.new ≡ S.files shelf.old }
    ensures later { S.faults shelf.old ≤ S.faults shelf.new }
{
    let mut contents = Vec::new(alloc);
    for file in 0..indexes.len() {
        let name = name_of(words, indexes, file);
        let content = fetch_one(alloc, name, limit, file as u32 + 1, shelf)?;
        let Ok(()) = contents.push(content) else {
            return Err(Decision::NoMemory);
        };
    }
    Ok(contents)
}

/// The content of the script whose name is the word at this index, if there is one; or what becomes of the order, where it isn't
/// fetched. It has this number.
pub(crate) fn fetch_script<'w, S: Shelf>(
    alloc: Global,
    words: &'w [Bytes],
    index: Option<u32>,
    number: u32,
    shelf: &mut S,
) -> Result<Option<Bytes>, Decision<'w>>
    requires { IfSome index (λ at. at < length words.now) }
    ensures fetched { IfOk result (λ content. Fetched (S.files shelf.old) (each_within MOST_SCRIPT_BYTES (words_at words.now (as_list index))) (as_list content)) }
    ensures stopped { IfErr result (λ decision. StopsScript (S.files shelf.old) (S.faults shelf.old) (S.faults shelf.new) number words.now index decision) }
    ensures kept { S.files shelf.new ≡ S.files shelf.old }
    ensures later { S.faults shelf.old ≤ S.faults shelf.new }
{
    let Some(at) = index else {
        return Ok(None);
    };
    let content = fetch_one(alloc, word(words, at), MOST_SCRIPT_BYTES, number, shelf)?;
    Ok(Some(content))
}

/// The name of the file of this number, counted from 0: the word at its index.
fn name_of<'w>(words: &'w [Bytes], indexes: &[u32], file: usize) -> &'w Bytes
    requires indexes { All (λ at. at < length words.now) indexes.now }
    requires file { file < length indexes.now }
    ensures { slice_get (words_at words.now indexes.now) file ≡ Some result.now }
{
    &words[indexes[file] as usize]
}

/// The word at this index.
fn word(words: &[Bytes], at: u32) -> &Bytes
    requires { at < length words.now }
    ensures { result.now ≡ word_at words.now at }
{
    &words[at as usize]
}

/// The content of the file of this number and this name, of at most `limit` bytes; or what becomes of the order, where it isn't
/// fetched.
fn fetch_one<'w, S: Shelf>(
    alloc: Global,
    name: &'w Bytes,
    limit: u32,
    number: u32,
    shelf: &mut S,
) -> Result<Bytes, Decision<'w>>
    ensures has { IfOk result (λ content. HasFile (S.files shelf.old) name.now content) }
    ensures within { IfOk result (λ content. length content ≤ limit) }
    ensures stopped { IfErr result (λ decision. StopsAt (S.files shelf.old) (S.faults shelf.old) (S.faults shelf.new) number (record { name = name.now; limit = limit }) decision) }
    ensures kept { S.files shelf.new ≡ S.files shelf.old }
    ensures later { S.faults shelf.old ≤ S.faults shelf.new }
{
    match shelf.fetch(alloc, name, limit) {
        Ok(content) => Ok(content),
        Err(fetch) => Err(not_fetched(fetch, number, name)),
    }
}

/// What becomes of an order whose file of this number, counted from 1, and this name isn't fetched.
fn not_fetched(fetch: Fetch, number: u32, name: &Bytes) -> Decision<'_>
    ensures { result ≡ decision_of_fetch fetch number name.entry }
{
    let fault = match fetch {
        Fetch::Absent => FileFault::Absent,
        Fetch::Failed => FileFault::ReadFault,
        Fetch::TooLong => FileFault::TooLong,
        Fetch::Memory => return Decision::NoMemory,
    };
    Decision::NotFetched {
        fault,
        number,
        name,
    }
}

//! What an order works on: its sources and the text of its script, fetched or made.
ghost use Rattle.std.specs.Prelude.{◌≡◌, ◌≤◌, All, length, IfOk, IfErr};
ghost use Rattle.ci_base.specs.declared.bounds.TheConstants.{MOST_FILES, MOST_SOURCE_BYTES};
ghost use Rattle.ci_workload.specs.declared.source.TheConstants.{MOST_WORKLOAD};
ghost use Rattle.ci_words.specs.Bounds.{IsInBounds};
ghost use Rattle.ci_words.specs.declared.command.Command.TheVariants as commands;
ghost use Rattle.ci_top.specs.Asked.{wanted_of};
ghost use Rattle.ci_top.specs.Decisions.{IsFetched, IsReadBy, StopsFetching};
ghost use Rattle.ci_top.specs.Reading.{made_texts};

use crate::decision::Decision;
use crate::defaults::script_of;
use crate::fetch::{fetch_all, fetch_script};
use ci_base::bounds::MOST_SOURCE_BYTES;
use ci_base::{Bytes, OutOfMemory};
use ci_outside::Shelf;
use ci_words::{Command, Order};
use ci_workload::{workload, workload_script};
use std::alloc::Global;
use std::marker::Model;

/// Sources, and the text of a script.
#[derive(Debug, Drop)]
pub(crate) struct Texts {
    sources: Vec<Bytes>,
    script: Bytes,
}

impl Model for Texts {
    ghost use Rattle.ci_top.specs.Compile.{AreSources};
    ghost use Rattle.ci_top.specs.Reading.{Texts};

    ghost Value = { Texts };

    ghost view = { λ texts. record { sources = texts.sources.items; script = texts.script } };

    ghost invariant = { λ texts. AreSources texts.sources.items };
}

impl Texts {
    /// The bytes of each source.
    pub(crate) fn sources(&self) -> &[Bytes]
        ensures value { result.now ≡ self.now.sources }
        ensures few { length result.now ≤ MOST_FILES }
        ensures within { All (λ source. length source ≤ MOST_SOURCE_BYTES) result.now }
    {
        self.sources.as_slice()
    }

    /// The bytes of the script.
    pub(crate) fn script(&self) -> &[u8]
        ensures { result.now ≡ self.now.script }
    {
        self.script.bytes()
    }
}

/// What the order works on: `make` makes it, and each other command fetches it; or what becomes of the order, where that can't be.
pub(crate) fn read_texts<'w, S: Shelf>(
    alloc: Global,
    words: &'w [Bytes],
    order: &Order,
    shelf: &mut S,
) -> Result<Texts, Decision<'w>>
    requires { IsInBounds words.now order.now }
    ensures read { IfOk result (λ texts. IsReadBy order.now.command words.now (S.files shelf.old) order.now texts) }
    ensures stopped { IfErr result (λ decision. StopsFetching (S.files shelf.old) (S.faults shelf.old) (S.faults shelf.new) (wanted_of words.now order.now) decision) }
    ensures kept { S.files shelf.new ≡ S.files shelf.old }
    ensures untouched { order.now.command ≡ commands.Make → shelf.new ≡ shelf.old }
{
    match order.command {
        Command::Make => match made(alloc, order.number) {
            Ok(texts) => Ok(texts),
            Err(_) => Err(Decision::NoMemory),
        },
        Command::Run | Command::Check | Command::List | Command::Replay => {
            fetched(alloc, words, order, shelf)
        }
    }
}

/// A workload of this size.
fn made(alloc: Global, size: u32) -> Result<Texts, OutOfMemory>
    requires some { 1 ≤ size }
    requires few { size ≤ MOST_WORKLOAD }
    ensures { IfOk result (λ texts. texts ≡ made_texts size) }
{
    let source = workload(alloc, size)?;
    let script = workload_script(alloc, size)?;
    let mut sources = Vec::new(alloc);
    let Ok(()) = sources.push(source) else {
        return Err(OutOfMemory);
    };
    Ok(Texts { sources, script })
}

/// What the files of the order have: its sources, and its script, if it names one.
fn fetched<'w, S: Shelf>(
    alloc: Global,
    words: &'w [Bytes],
    order: &Order,
    shelf: &mut S,
) -> Result<Texts, Decision<'w>>
    requires { IsInBounds words.now order.now }
    ensures fetched { IfOk result (λ texts. IsFetched words.now (S.files shelf.old) order.now texts) }
    ensures stopped { IfErr result (λ decision. StopsFetching (S.files shelf.old) (S.faults shelf.old) (S.faults shelf.new) (wanted_of words.now order.now) decision) }
    ensures kept { S.files shelf.new ≡ S.files shelf.old }
{
    let indexes = order.files.indexes();
    let sources = fetch_all(alloc, words, indexes, MOST_SOURCE_BYTES, shelf)?;
    let number = indexes.len() as u32 + 1;
    let given = fetch_script(alloc, words, order.script, number, shelf)?;
    match script_of(alloc, given) {
        Ok(script) => Ok(Texts { sources, script }),
        Err(_) => Err(Decision::NoMemory),
    }
}

//! The top call.
ghost use Rattle.std.specs.Prelude.{◌≡◌, ◌⊎◌, Some};
ghost use Rattle.ci_words.specs.declared.command.Command.TheVariants as commands;
ghost use Rattle.ci_top.specs.Answers.{Answers, kept_of};
ghost use Rattle.ci_top.specs.Asked.{AreRefused, command_of};
ghost use Rattle.ci_top.specs.Decisions.{decision_kept};
ghost use Rattle.ci_top.specs.Doing.{DoesOrder};

use crate::decide::decide;
use crate::decision::Decision;
use crate::outcome::Outcome;
use crate::tell::deliver;
use ci_base::{Bytes, Ending, LooseList};
use ci_history::History;
use ci_outside::{Gate, Shelf, Sink};
use ci_source::one_meaning;
use std::alloc::Global;

/// Does the order that the words give, without worker threads: fetches its files from the shelf, puts its text into the
/// sink, and gives its exit status and what it kept of a run. What it promises, clause by clause, is the record `DoesOrder`.
///
/// The words are those after the program's name. Want of memory (status 6) may come in any order whose words are accepted.
pub fn cicode_alone<S: Shelf, K: Sink>(
    alloc: Global,
    words: &[Bytes],
    shelf: &mut S,
    out: &mut K,
) -> Outcome
    ensures { DoesOrder S.files S.faults K.bytes K.faults words.now shelf.old shelf.new out.old out.new result }
{
    // the laws on which the answers of orders that can be done rest
    one_meaning();
    answer(alloc, words, shelf, out)
}

/// Does the order that the words give, and promises the same as `cicode_alone`. The gate is for orders with worker threads, which
/// can't be done yet.
pub fn cicode<S: Shelf, K: Sink, G: Gate + Sync>(
    alloc: Global,
    words: &[Bytes],
    shelf: &mut S,
    out: &mut K,
    _gate: &G,
) -> Outcome
    ensures { DoesOrder S.files S.faults K.bytes K.faults words.now shelf.old shelf.new out.old out.new result }
{
    cicode_alone(alloc, words, shelf, out)
}

/// Decides the order, tells what became of it, and keeps its run.
fn answer<S: Shelf, K: Sink>(alloc: Global, words: &[Bytes], shelf: &mut S, out: &mut K) -> Outcome
    ensures answer { Answers S.files S.faults K.bytes K.faults words.now shelf.old shelf.new out.old out.new result }
    ensures contents { S.files shelf.new ≡ S.files shelf.old }
    ensures unfetched { AreRefused words.now ⊎ (command_of words.now ≡ Some commands.Make) → shelf.new ≡ shelf.old }
{
    let decision = decide(alloc, words, shelf);
    let status = deliver(&decision, out);
    keep(alloc, decision, status)
}

/// What is kept of an order.
fn keep(alloc: Global, decision: Decision, status: u8) -> Outcome
    ensures status { result.status ≡ status }
    ensures kept { kept_of result ≡ decision_kept decision.entry }
{
    match decision {
        Decision::Ran { ended, .. } => Outcome {
            status,
            ending: ended.end.ending,
            history: ended.history,
            loose: ended.loose,
        },
        _ => Outcome {
            status,
            history: History::empty(alloc),
            loose: LooseList::empty(alloc),
            ending: Ending::NotRun,
        },
    }
}

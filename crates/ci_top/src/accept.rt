//! Which orders are accepted.
ghost use Rattle.std.specs.Prelude.{◌≡◌, ◌<◌, true, false, Some, IfOk, IfErr, IfSome, IsNone, IsSome};
ghost use Rattle.ci_words.specs.Bounds.{IsInBounds};
ghost use Rattle.ci_top.specs.Asked.{AskFor, AsksJob, is_built};
ghost use Rattle.ci_top.specs.Decisions.{RefusesWords};

use crate::decision::Decision;
use ci_base::Bytes;
use ci_words::{Command, Order, WordFault, read_words};

/// The number of the fault of words whose number is out of its range.
const OUT_OF_RANGE: u8 = 6;

/// What can be done.
#[derive(Clone, Copy, Debug, PartialEq, Eq)]
pub(crate) enum Job {
    /// A run of files, or of a workload of this size.
    Run(Option<u32>),
    Check,
    List,
}

/// An order that can be done, and what is to be done for it.
#[derive(Debug, Drop)]
pub(crate) struct Accepted {
    pub(crate) order: Order,
    pub(crate) job: Job,
}

/// The order that the words ask for, where it is built and has no worker threads; otherwise what becomes of it.
pub(crate) fn accept(words: &[Bytes]) -> Result<Accepted, Decision<'_>>
    ensures asked { IfOk result (λ accepted. AskFor words.now accepted.order) }
    ensures within { IfOk result (λ accepted. IsInBounds words.now accepted.order) }
    ensures job { IfOk result (λ accepted. AsksJob accepted.order accepted.job) }
    ensures refused { IfErr result (λ decision. RefusesWords words.now decision) }
{
    let order = match read_words(words) {
        Ok(order) => order,
        Err(fault) => return Err(Decision::WordsRefused(fault)),
    };
    if let Some(index) = workers_index(&order) {
        let number = OUT_OF_RANGE;
        return Err(Decision::WordsRefused(WordFault { number, index }));
    }
    match job_of(&order) {
        Some(job) => Ok(Accepted { order, job }),
        None => Err(Decision::OrderNotBuilt),
    }
}

/// The index of the number of worker threads, where there are to be some.
fn workers_index(order: &Order) -> Option<u32>
    requires { 0 < order.now.limits.workers → IsSome order.now.workers_at }
    ensures some { IfSome result (λ index. 0 < order.now.limits.workers) }
    ensures index { IfSome result (λ index. order.now.workers_at ≡ Some index) }
    ensures none { IsNone result → order.now.limits.workers ≡ 0 }
{
    if order.limits.workers == 0 {
        return None;
    }
    order.workers_at
}

/// What is to be done for the order, where that is built: all but `replay`, and a run whose journal is to be written.
fn job_of(order: &Order) -> Option<Job>
    ensures built { IfSome result (λ job. is_built order.now ≡ true) }
    ensures job { IfSome result (λ job. AsksJob order.now job) }
    ensures unbuilt { IsNone result → is_built order.now ≡ false }
{
    match order.command {
        Command::Run if !order.as_journal => Some(Job::Run(None)),
        Command::Make => Some(Job::Run(Some(order.number))),
        Command::Check => Some(Job::Check),
        Command::List => Some(Job::List),
        Command::Run | Command::Replay => None,
    }
}

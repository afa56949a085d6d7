//! What holds of verified code, and of the first rule that is broken.
ghost use Rattle.ci_verify.specs.Between.{FewBetweenTicks};
ghost use Rattle.ci_verify.specs.Safe.{AnswersKeep, NeverFull, NeverStuck};
ghost use Rattle.ci_verify.specs.Laws.{OneFirst, VerifiedIsSound};

/// At most one broken rule is the first.
pub fn one_first()
    ensures { OneFirst }
{}

/// Each instruction of verified code finds its operands, of the kinds that it takes, and a next place; there is always room for
/// what it leaves; and a function begins with a tick.
pub fn verified_is_sound()
    ensures { VerifiedIsSound }
{}

/// From wherever a machine of verified code stands, it comes without a tick to a tick, a request, or where it can do nothing; and
/// it runs at most one instruction more on the way than the functions that run or wait have left.
pub fn few_between_ticks()
    ensures { FewBetweenTicks }
{}

/// A task on verified code begins safe: its operands are of the kinds of the shape that stands at its place. From a safe machine
/// each move can be made, and leads to a safe one: an operand, its kind or a next place is never missing.
pub fn never_stuck()
    ensures { NeverStuck }
{}

/// A safe machine of verified code holds at most as many values as its active functions have room, which is at most 4,096.
pub fn never_full()
    ensures { NeverFull }
{}

/// An answer that a request may get leaves a safe machine safe.
pub fn answers_keep()
    ensures { AnswersKeep }
{}

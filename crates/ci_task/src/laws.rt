//! A law of the machine, for those who use the definitions without looking into them. The function does nothing: what it
//! ensures is the law.
ghost use Rattle.ci_task.specs.Laws.{AnswersAgain};

/// A machine that stands at a request answers it again with 0 ticks, and stays where it is.
pub fn answers_again()
    ensures { AnswersAgain }
{}

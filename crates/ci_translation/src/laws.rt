//! What holds of the code of a project.
ghost use Rattle.ci_translation.specs.Laws.{CodeSimulates, StillFollows, TranslationIsCode, TranslationSimulates, TreeAsksToo, TreeTicksToo};

use ci_meaning::soon_ticks_or_asks;

/// Code that is that of a right project, place by place, makes the same requests after the same ticks, whatever the task and its
/// answers.
pub fn code_simulates()
    ensures { CodeSimulates }
{
    soon_ticks_or_asks();
}

/// The translation of a right project is its code, place by place.
pub fn translation_is_code()
    ensures { TranslationIsCode }
{}

/// The translation of a right project simulates it.
pub fn translation_simulates()
    ensures { TranslationSimulates }
{
    soon_ticks_or_asks();
}

/// What a task on such code asks, the task on the tree asks too, after as many ticks; and so on behind each answer.
pub fn tree_asks_too()
    ensures { TreeAsksToo }
{}

/// How many ticks a task on such code reaches, the task on the tree reaches too.
pub fn tree_ticks_too()
    ensures { TreeTicksToo }
{}

/// Whatever answers both have got, a task on such code does what the task on the tree does.
pub fn still_follows()
    ensures { StillFollows }
{}

//! Which rules the code of a project keeps.
ghost use Rattle.ci_rules.specs.Laws.{CodeKeepsRules, TranslationFits, TranslationKeepsRules};

use ci_translation::laws::translation_is_code;

/// Code that is that of a bound project, place by place, breaks no rule.
pub fn code_keeps_rules()
    ensures { CodeKeepsRules }
{}

/// The translation of a bound project breaks no rule.
pub fn translation_keeps_rules()
    ensures { TranslationKeepsRules }
{
    translation_is_code();
}

/// The lists of a bound project's translation fit one another, where it has fewer than 2^32 places.
pub fn translation_fits()
    ensures { TranslationFits }
{
    translation_is_code();
}

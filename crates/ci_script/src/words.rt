//! The words of events.
ghost use Rattle.std.specs.Prelude.{◌≡◌};
ghost use Rattle.ci_script.specs.Events.{all_words, spelling, word_named};

/// The word of an event.
#[derive(Clone, Copy, Debug, PartialEq, Eq)]
pub(crate) enum Word {
    Run,
    Tick,
    Kill,
    Suspend,
    Resume,
    Set,
    Signal,
    Put,
}

impl Word {
    /// How it is spelled, in small letters.
    fn spelling(self) -> &'static [u8]
        ensures { result.now ≡ spelling self }
    {
        match self {
            Word::Run => b"run",
            Word::Tick => b"tick",
            Word::Kill => b"kill",
            Word::Suspend => b"suspend",
            Word::Resume => b"resume",
            Word::Set => b"set",
            Word::Signal => b"signal",
            Word::Put => b"put",
        }
    }
}

/// All words.
fn all_words() -> &'static [Word]
    ensures { result.now ≡ all_words }
{
    &[
        Word::Run,
        Word::Tick,
        Word::Kill,
        Word::Suspend,
        Word::Resume,
        Word::Set,
        Word::Signal,
        Word::Put,
    ]
}

/// The word that is spelled so, in any letter case.
pub(crate) fn word_named(bytes: &[u8]) -> Option<Word>
    ensures { result ≡ word_named bytes.now }
{
    all_words()
        .iter()
        .copied()
        .find(|word| word.spelling().eq_ignore_ascii_case(bytes))
}

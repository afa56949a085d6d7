//! The commands and their options.
ghost use Rattle.std.specs.Prelude.{◌≡◌};
ghost use Rattle.ci_words.specs.Command.{
  command_spelling,
  all_commands,
  command_named,
  takes_files,
  option_spelling,
  takes_value,
  options_of,
  option_named,
};

/// What is asked for.
#[derive(Clone, Copy, Debug, PartialEq, Eq)]
pub enum Command {
    /// Run the project of the files.
    Run,
    /// Say whether the files compile.
    Check,
    /// Write the code of the files.
    List,
    /// Check a journal of a run against the files.
    Replay,
    /// Make a project of a given size, and run it.
    Make,
}

/// The options of all commands.
#[derive(Clone, Copy, Debug, PartialEq, Eq)]
pub(crate) enum OptionName {
    /// The file with the events of the run.
    Script,
    /// The ticks of a turn.
    Slice,
    /// The work that a run may take.
    Budget,
    /// The number of worker threads.
    Workers,
    /// A journal is written in place of the report.
    Journal,
    /// The file with the journal that is checked.
    From,
}

/// All commands.
fn all_commands() -> &'static [Command]
    ensures { result.now ≡ all_commands }
{
    &[
        Command::Run,
        Command::Check,
        Command::List,
        Command::Replay,
        Command::Make,
    ]
}

/// The command that is spelled so, exactly.
pub(crate) fn command_named(word: &[u8]) -> Option<Command>
    ensures { result ≡ command_named word.now }
{
    all_commands()
        .iter()
        .copied()
        .find(|command| command.spelling() == word)
}

/// The option of the command that is spelled so, exactly.
pub(crate) fn option_named(command: Command, word: &[u8]) -> Option<OptionName>
    ensures { result ≡ option_named command word.now }
{
    command
        .options()
        .iter()
        .copied()
        .find(|name| name.spelling() == word)
}

impl Command {
    /// How it is spelled.
    fn spelling(self) -> &'static [u8]
        ensures { result.now ≡ command_spelling self }
    {
        match self {
            Command::Run => b"run",
            Command::Check => b"check",
            Command::List => b"list",
            Command::Replay => b"replay",
            Command::Make => b"make",
        }
    }

    /// Its options.
    fn options(self) -> &'static [OptionName]
        ensures { result.now ≡ options_of self }
    {
        match self {
            Command::Run => &[
                OptionName::Script,
                OptionName::Slice,
                OptionName::Budget,
                OptionName::Workers,
                OptionName::Journal,
            ],
            Command::Check | Command::List => &[],
            Command::Replay => &[OptionName::Script, OptionName::Budget, OptionName::From],
            Command::Make => &[OptionName::Workers],
        }
    }

    /// Whether it takes files; `make` takes a number instead.
    pub(crate) fn takes_files(self) -> bool
        ensures { result ≡ takes_files self }
    {
        !matches!(self, Command::Make)
    }
}

impl OptionName {
    /// How it is spelled.
    fn spelling(self) -> &'static [u8]
        ensures { result.now ≡ option_spelling self }
    {
        match self {
            OptionName::Script => b"--script",
            OptionName::Slice => b"--slice",
            OptionName::Budget => b"--budget",
            OptionName::Workers => b"--workers",
            OptionName::Journal => b"--journal",
            OptionName::From => b"--from",
        }
    }

    /// Whether the word after it is its value.
    pub(crate) fn takes_value(self) -> bool
        ensures { result ≡ takes_value self }
    {
        !matches!(self, OptionName::Journal)
    }
}

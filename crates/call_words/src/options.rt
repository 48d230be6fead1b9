//! The table of options.
ghost use Rattle.std.specs.Prelude.{◌≡◌, ◌&&◌, Some, IfSome};
ghost use Rattle.std.specs.List.{list_any};
ghost use Rattle.std.specs.Option.{option_copied};
ghost use Rattle.std.specs.Str.{bytes_eq};
ghost use Rattle.call_words.specs.Options.{defaults, row, options};
ghost use Rattle.call_words.specs.Words.{has_name, is_flag, value_by, verb_of};
ghost use Rattle.call_words.specs.Reading.{choice_of, Lies};

use crate::numbers::value_in;

/// What a call is asked to do: its first word.
#[derive(Clone, Copy, Debug, PartialEq, Eq)]
pub enum Verb {
    /// To run a text.
    Run,
    /// To run the text of the heat solver.
    Heat,
}

/// An option.
#[derive(Clone, Copy, Debug, PartialEq, Eq)]
pub enum OptionName {
    /// The number of ranks.
    Ranks,
    /// The eager limit, in cells.
    Eager,
    /// That the report has a trace.
    Trace,
    /// The seed of the heat text.
    Seed,
    /// How many blocks a rank has in the heat text.
    Blocks,
    /// How many cells a block has in the heat text.
    Cells,
    /// How many steps the heat text makes.
    Steps,
}

// The options, in the order of the table.
const OPTIONS: [OptionName; 7] = [
    OptionName::Ranks,
    OptionName::Eager,
    OptionName::Trace,
    OptionName::Seed,
    OptionName::Blocks,
    OptionName::Cells,
    OptionName::Steps,
];

/// What stands behind the name of an option.
#[derive(Clone, Copy, Debug, PartialEq, Eq)]
pub enum Takes {
    /// A number of this range.
    Number { least: u32, most: u32 },
    /// Nothing: the name alone is the option.
    Flag,
}

/// A row of the table: the name of an option, what it takes, and for each command its value where it is not given.
/// A command without a default does not have the option.
#[derive(Clone, Copy)]
pub struct Choice {
    name: &'static str,
    takes: Takes,
    in_run: Option<u32>,
    in_heat: Option<u32>,
}

// The row of a number of this range, with its defaults in `run` and in `heat`.
fn number(
    name: &'static str,
    least: u32,
    most: u32,
    in_run: Option<u32>,
    in_heat: Option<u32>,
) -> Choice
    ensures { choice_of result ≡ record { name = name.now; takes = Takes.Number least most; default = defaults in_run in_heat } }
{
    Choice {
        name,
        takes: Takes::Number { least, most },
        in_run,
        in_heat,
    }
}

// The row of a flag that is off where it is not given.
fn flag(name: &'static str) -> Choice
    ensures { choice_of result ≡ record { name = name.now; takes = Takes.Flag; default = defaults (Some 0) (Some 0) } }
{
    Choice {
        name,
        takes: Takes::Flag,
        in_run: Some(0),
        in_heat: Some(0),
    }
}

impl OptionName {
    /// The row of the option.
    pub fn row(self) -> Choice
        ensures { choice_of result ≡ row self }
    {
        match self {
            OptionName::Ranks => number("--ranks", 1, 64, Some(1), Some(2)),
            OptionName::Eager => number("--eager", 0, 16_777_216, Some(64), Some(64)),
            OptionName::Trace => flag("--trace"),
            OptionName::Seed => number("--seed", 0, 4_294_967_295, None, Some(1)),
            OptionName::Blocks => number("--blocks", 1, 1_024, None, Some(4)),
            OptionName::Cells => number("--cells", 1, 65_536, None, Some(1_024)),
            OptionName::Steps => number("--steps", 0, 10_000, None, Some(10)),
        }
    }
}

/// The bytes are this word.
pub fn is_word(bytes: &[u8], word: &str) -> bool
    ensures { result ≡ bytes_eq bytes.now word.now }
{
    bytes == word.as_bytes()
}

impl Takes {
    // The option is its name alone.
    fn is_flag(self) -> bool
        ensures { result ≡ is_flag self }
    {
        match self {
            Takes::Number { .. } => false,
            Takes::Flag => true,
        }
    }

    /// The value that an item with this text gives: a number of the range, or 1 to a flag, which has no text.
    pub fn value_by(self, text: Option<&[u8]>) -> Option<u32>
        ensures value { result ≡ value_by self (option_copied text.entry) }
        ensures range { IfSome result (Lies self) }
    {
        match (self, text) {
            (Takes::Number { least, most }, Some(text)) => value_in(least, most, text),
            (Takes::Flag, None) => Some(1),
            (_, _) => None,
        }
    }
}

impl Choice {
    /// What stands behind the name.
    pub fn takes(self) -> Takes
        ensures { result ≡ (choice_of self).takes }
    {
        self.takes
    }

    /// The value in a command where the option is not given. None where the command does not have the option.
    pub fn default_in(self, verb: Verb) -> Option<u32>
        ensures { result ≡ (choice_of self).default verb }
    {
        match verb {
            Verb::Run => self.in_run,
            Verb::Heat => self.in_heat,
        }
    }

    /// This is the name of the option.
    pub fn is_called(self, name: &[u8]) -> bool
        ensures { result ≡ bytes_eq name.now (choice_of self).name }
    {
        is_word(name, self.name)
    }

    // This is the name of the option, and the command has it.
    fn has_name(self, verb: Verb, name: &[u8]) -> bool
        ensures { result ≡ has_name verb name.now (choice_of self) }
    {
        self.default_in(verb).is_some() && self.is_called(name)
    }

    // The word is the option, which is a flag of the command.
    fn is_flag_word(self, verb: Verb, word: &[u8]) -> bool
        ensures { result ≡ has_name verb word.now (choice_of self) && is_flag (choice_of self).takes }
    {
        self.has_name(verb, word) && self.takes.is_flag()
    }
}

/// An option of the command has this name.
pub fn is_known(verb: Verb, name: &[u8]) -> bool
    ensures { result ≡ list_any (λ option. has_name verb name.now (row option)) options }
{
    OPTIONS
        .iter()
        .any(|option| option.row().has_name(verb, name))
}

/// The word is a flag of the command.
pub fn is_flag_word(verb: Verb, word: &[u8]) -> bool
    ensures { result ≡ list_any (λ option. has_name verb word.now (row option) && is_flag (row option).takes) options }
{
    OPTIONS
        .iter()
        .any(|option| option.row().is_flag_word(verb, word))
}

/// The command that a word names.
pub fn verb_of(word: &[u8]) -> Option<Verb>
    ensures { result ≡ verb_of word.now }
{
    if is_word(word, "run") {
        Some(Verb::Run)
    } else if is_word(word, "heat") {
        Some(Verb::Heat)
    } else {
        None
    }
}

//! The command that words give.
ghost use Rattle.std.specs.Prelude.{◌≡◌, ◌∷◌, ℕ, List, Option, IfOk, IfSome, MatchOption, Some, None, map};
ghost use Rattle.std.specs.List.{list_all};
ghost use Rattle.std.specs.Option.{option_copied};
ghost use Rattle.call_words.specs.Options.{row};
ghost use Rattle.call_words.specs.Words.{is_known, setting, run_options_with, run_options, heat_options_with, heat_options};
ghost use Rattle.call_words.specs.Words.{command_with, command_of_items, command, needs_run, IsRunInRange, IsHeatInRange, IsInRange};
ghost use Rattle.call_words.specs.Reading.{item_of, choice_of, given_behind, Lies};

use crate::items::{Part, items_of};
use crate::options::{Choice, OptionName, Takes, Verb, is_known, is_word, verb_of};
use std::alloc::{AllocError, Global};

/// The options of a run: the number of ranks, the eager limit in cells, and whether the report has a trace.
#[derive(Clone, Copy, Debug, PartialEq, Eq)]
pub struct RunOptions {
    pub ranks: u16,
    pub eager: u32,
    pub trace: bool,
}

/// The sizes of the heat text: blocks of a rank, cells of a block, steps, and the seed.
#[derive(Clone, Copy, Debug, PartialEq, Eq)]
pub struct HeatOptions {
    pub blocks: u32,
    pub cells: u32,
    pub steps: u32,
    pub seed: u32,
}

/// What the words ask for.
#[derive(Clone, Copy, Debug, PartialEq, Eq)]
pub enum Command {
    /// To read a text and run it.
    Run(RunOptions),
    /// To run the heat text of these sizes.
    Heat(RunOptions, HeatOptions),
}

// Each item names an option of the command.
fn are_known(verb: Verb, items: &[Part<'_>]) -> bool
    ensures { result ≡ list_all (is_known verb) (map item_of items.now) }
{
    for item in items {
        if !is_known(verb, item.name) {
            return false;
        }
    }
    true
}

// The value that an item with this text gives to an option that was not given before.
fn given_once(takes: Takes, before: Option<u32>, text: Option<&[u8]>) -> Option<u32>
    ensures value { MatchOption result
        ((default : Option ℕ) (values : List (Option (List ℕ))) → given_behind takes default before (option_copied text.entry ∷ values) ≡ None)
        (λ value. (default : Option ℕ) (values : List (Option (List ℕ))) → given_behind takes default (Some value) values
        ≡ given_behind takes default before (option_copied text.entry ∷ values)) }
    ensures range { IfSome result (Lies takes) }
{
    match before {
        None => takes.value_by(text),
        Some(_) => None,
    }
}

// The value of an option: what its item gives, which stands once at most, or the default of the command.
fn setting(verb: Verb, choice: Choice, items: &[Part<'_>]) -> Option<u32>
    requires default { IfSome ((choice_of choice).default verb) (Lies (choice_of choice).takes) }
    ensures value { result ≡ setting verb (choice_of choice) (map item_of items.now) }
    ensures range { IfSome result (Lies (choice_of choice).takes) }
{
    let mut value = None;
    for item in items {
        if choice.is_called(item.name) {
            value = Some(given_once(choice.takes(), value, item.value)?);
        }
    }
    match value {
        None => choice.default_in(verb),
        Some(_) => value,
    }
}

// The value of an option of the table.
fn value_of(verb: Verb, option: OptionName, items: &[Part<'_>]) -> Option<u32>
    ensures value { result ≡ setting verb (row option) (map item_of items.now) }
    ensures range { IfSome result (Lies (row option).takes) }
{
    setting(verb, option.row(), items)
}

// The options of a run with these values, if they all have one.
fn run_options_with(
    ranks: Option<u32>,
    eager: Option<u32>,
    trace: Option<u32>,
) -> Option<RunOptions>
    requires ranks { IfSome ranks (Lies (row OptionName.Ranks).takes) }
    requires eager { IfSome eager (Lies (row OptionName.Eager).takes) }
    ensures value { result ≡ run_options_with ranks eager trace }
    ensures range { IfSome result IsRunInRange }
{
    match (ranks, eager, trace) {
        (Some(ranks), Some(eager), Some(trace)) => Some(RunOptions {
            ranks: ranks as u16,
            eager,
            trace: trace == 1,
        }),
        (_, _, _) => None,
    }
}

// The options of a run that items give.
fn run_options(verb: Verb, items: &[Part<'_>]) -> Option<RunOptions>
    ensures value { result ≡ run_options verb (map item_of items.now) }
    ensures range { IfSome result IsRunInRange }
{
    let ranks = value_of(verb, OptionName::Ranks, items);
    let eager = value_of(verb, OptionName::Eager, items);
    let trace = value_of(verb, OptionName::Trace, items);
    run_options_with(ranks, eager, trace)
}

// The sizes of the heat text with these values, if they all have one.
fn heat_options_with(
    blocks: Option<u32>,
    cells: Option<u32>,
    steps: Option<u32>,
    seed: Option<u32>,
) -> Option<HeatOptions>
    requires blocks { IfSome blocks (Lies (row OptionName.Blocks).takes) }
    requires cells { IfSome cells (Lies (row OptionName.Cells).takes) }
    requires steps { IfSome steps (Lies (row OptionName.Steps).takes) }
    ensures value { result ≡ heat_options_with blocks cells steps seed }
    ensures range { IfSome result IsHeatInRange }
{
    match (blocks, cells, steps, seed) {
        (Some(blocks), Some(cells), Some(steps), Some(seed)) => Some(HeatOptions {
            blocks,
            cells,
            steps,
            seed,
        }),
        (_, _, _, _) => None,
    }
}

// The sizes of the heat text that items give.
fn heat_options(verb: Verb, items: &[Part<'_>]) -> Option<HeatOptions>
    ensures value { result ≡ heat_options verb (map item_of items.now) }
    ensures range { IfSome result IsHeatInRange }
{
    let blocks = value_of(verb, OptionName::Blocks, items);
    let cells = value_of(verb, OptionName::Cells, items);
    let steps = value_of(verb, OptionName::Steps, items);
    let seed = value_of(verb, OptionName::Seed, items);
    heat_options_with(blocks, cells, steps, seed)
}

// The command with these options, if it has those that it needs.
fn command_with(verb: Verb, runs: Option<RunOptions>, sizes: Option<HeatOptions>) -> Option<Command>
    requires runs { IfSome runs IsRunInRange }
    requires sizes { IfSome sizes IsHeatInRange }
    ensures value { result ≡ command_with verb runs sizes }
    ensures range { IfSome result IsInRange }
{
    let one = runs?;
    match verb {
        Verb::Run => Some(Command::Run(one)),
        Verb::Heat => Some(Command::Heat(one, sizes?)),
    }
}

// The command that items give.
fn command_of_items(verb: Verb, items: &[Part<'_>]) -> Option<Command>
    ensures value { result ≡ command_of_items verb (map item_of items.now) }
    ensures range { IfSome result IsInRange }
{
    if !are_known(verb, items) {
        return None;
    }
    let runs = run_options(verb, items);
    let sizes = heat_options(verb, items);
    command_with(verb, runs, sizes)
}

/// The command that the words give: its name, and its options, each at most once, in any order.
#[tactic(auto, unfolding(crate::specs::Words::command))]
pub fn command_of(alloc: Global, words: &[String]) -> Result<Option<Command>, AllocError>
    ensures value { IfOk result (λ asked. asked ≡ command words.now) }
    ensures range { IfOk result (λ asked. IfSome asked IsInRange) }
{
    let Some((first, rest)) = words.split_first() else {
        return Ok(None);
    };
    let Some(verb) = verb_of(first.as_bytes()) else {
        return Ok(None);
    };
    match items_of(alloc, verb, rest)? {
        Some(items) => Ok(command_of_items(verb, items.as_slice())),
        None => Ok(None),
    }
}

/// Whether the words ask for a run: the first of them is `run` or `heat`, whatever stands behind it.
#[tactic(auto, unfolding(crate::specs::Words::needs_run))]
pub fn needs_run(words: &[String]) -> bool
    ensures { result ≡ needs_run words.now }
{
    match words.first() {
        Some(first) => is_word(first.as_bytes(), "run") || is_word(first.as_bytes(), "heat"),
        None => false,
    }
}

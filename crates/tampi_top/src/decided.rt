//! What a call owes, before anything is written.
ghost use Rattle.std.specs.Prelude.{◌≤◌, length};
ghost use Rattle.call_words.specs.Words.{IsRunInRange};
ghost use Rattle.heat_text.specs.Heat.{heat_text};
ghost use Rattle.tampi_top.specs.Decided.{IsOfText, IsDecided};

use crate::accepted::{Unaccepted, program_of};
use crate::reading::{Taken, read_text};
use call_ends::{Refusal, Run, run_of};
use call_words::{Command, HeatOptions, RunOptions, command_of};
use heat_text::heat_text;
use rt_base::ByteSource;
use std::alloc::Global;

/// What a call owes.
#[derive(Debug, Drop)]
pub enum Due {
    Refused(Refusal),
    Ran(Run),
    Memory,
}

// What the call owes that runs this text.
fn due_of_text(alloc: Global, text: &[u8], asked: RunOptions) -> Due
    requires range { IsRunInRange asked }
    requires short { length text.now ≤ 1048576 }
    ensures { IsOfText asked text.now result }
{
    match program_of(alloc, text, asked) {
        Ok(program) => match run_of(alloc, program, asked.trace) {
            Ok(run) => Due::Ran(run),
            Err(_) => Due::Memory,
        },
        Err(Unaccepted::Fault { line, kind }) => Due::Refused(Refusal::Fault { line, kind }),
        Err(Unaccepted::Limit { which }) => Due::Refused(Refusal::Limit { which }),
        Err(Unaccepted::Memory) => Due::Memory,
    }
}

// What the call owes that runs the heat text of these sizes.
fn due_of_heat(alloc: Global, asked: RunOptions, sizes: HeatOptions) -> Due
    requires range { IsRunInRange asked }
    ensures { IsOfText asked (heat_text sizes.blocks sizes.cells sizes.steps sizes.seed) result }
{
    match heat_text(alloc, sizes.blocks, sizes.cells, sizes.steps, sizes.seed) {
        Ok(text) => due_of_text(alloc, text.as_slice(), asked),
        Err(_) => Due::Memory,
    }
}

/// What a call with these words owes. Reads the input to its end where the words give `run`, and else not at all.
pub fn due_of<S: ByteSource>(alloc: Global, words: &[String], input: &mut S) -> Due
    ensures { IsDecided (record {
      words = words.now;
      given = S.rest input.old;
      left = S.rest input.new;
      before = S.faults input.old;
      now = S.faults input.new;
    }) result }
{
    match command_of(alloc, words) {
        Ok(None) => Due::Refused(Refusal::Words),
        Ok(Some(Command::Run(asked))) => match read_text(alloc, input) {
            Taken::Whole(text) => due_of_text(alloc, text.as_slice(), asked),
            Taken::TooLong => Due::Refused(Refusal::TooLong),
            Taken::Fault => Due::Refused(Refusal::ReadFault),
            Taken::Memory => Due::Memory,
        },
        Ok(Some(Command::Heat(asked, sizes))) => due_of_heat(alloc, asked, sizes),
        Err(_) => Due::Memory,
    }
}

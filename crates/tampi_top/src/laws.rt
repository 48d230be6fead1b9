//! Laws on what a call owes.
ghost use Rattle.tampi_top.specs.Laws.{ProgramsAreRun, TextsAreRefused};

use task_parse::one_outcome_a_text;
use task_tree::one_text_in_blocks;

/// A text that says a program is run, where memory is there and no fault occurs: no refusal is due of it.
pub fn programs_are_run()
    ensures { ProgramsAreRun }
{
    one_outcome_a_text();
    one_text_in_blocks();
}

/// A text with a fault or a limit is refused with the one that it meets first, where memory is there and no read fails.
pub fn texts_are_refused()
    ensures { TextsAreRefused }
{
    one_outcome_a_text();
    one_text_in_blocks();
}

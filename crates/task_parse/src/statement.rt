//! From the tokens of a line to its statement.

ghost use Rattle.std.specs.Prelude.{◌≡◌};
ghost use Rattle.task_tree.specs.Reading.{Gives};
ghost use Rattle.task_parse.specs.ReadingsOfParts.{left};
ghost use Rattle.task_parse.specs.Readings.{operation, line, statement};

use crate::line::{
    array_line, comm_line, for_line, if_line, kernel_line, let_line, posting_line, show_line,
    touch_line, wait_line, waitall_line, whole,
};
use crate::part::Rest;
use rt_base::{FaultKind, How, Kernel, Mode};
use std::alloc::Global;
use task_tree::{Key, LineRefusal, Token, What};

// What the word of an operation begins.
#[tactic(auto, unfolding(crate::specs::Readings::operation))]
fn operation(alloc: Global, word: Key, rest: Rest) -> Result<(What, u32), LineRefusal>
    ensures { Gives (λ x. x) result (operation word (left rest.entry)) }
{
    match word {
        Key::Fill => kernel_line(alloc, Kernel::Fill, rest),
        Key::Ramp => kernel_line(alloc, Kernel::Ramp, rest),
        Key::Copy => kernel_line(alloc, Kernel::Copy, rest),
        Key::Add => kernel_line(alloc, Kernel::Add, rest),
        Key::Sub => kernel_line(alloc, Kernel::Sub, rest),
        Key::Scale => kernel_line(alloc, Kernel::Scale, rest),
        Key::Shift => kernel_line(alloc, Kernel::Shift, rest),
        Key::Jacobi2 => kernel_line(alloc, Kernel::Jacobi2, rest),
        Key::Sum => kernel_line(alloc, Kernel::Sum, rest),
        Key::Least => kernel_line(alloc, Kernel::Least, rest),
        Key::Greatest => kernel_line(alloc, Kernel::Greatest, rest),
        Key::Send => posting_line(alloc, How::Send, rest),
        Key::Ssend => posting_line(alloc, How::Ssend, rest),
        Key::Recv => posting_line(alloc, How::Recv, rest),
        Key::Isend => posting_line(alloc, How::Isend, rest),
        Key::Issend => posting_line(alloc, How::Issend, rest),
        Key::Irecv => posting_line(alloc, How::Irecv, rest),
        Key::Wait => wait_line(alloc, false, rest),
        Key::Iwait => wait_line(alloc, true, rest),
        Key::Waitall => waitall_line(alloc, false, rest),
        Key::Iwaitall => waitall_line(alloc, true, rest),
        _ => Err(LineRefusal::Fault(FaultKind::Shape)),
    }
}

// What the word at the front of a line begins.
#[tactic(auto, unfolding(crate::specs::Readings::line))]
fn line(alloc: Global, word: Key, rest: Rest) -> Result<(What, u32), LineRefusal>
    ensures { Gives (λ x. x) result (line word (left rest.entry)) }
{
    match word {
        Key::Array => array_line(alloc, rest),
        Key::Show => show_line(alloc, rest),
        Key::Comm => comm_line(alloc, rest),
        Key::Let => let_line(alloc, rest),
        Key::For => for_line(alloc, rest),
        Key::If => if_line(alloc, rest),
        Key::Else => whole(What::Else, rest),
        Key::End => whole(What::End, rest),
        Key::Taskwait => whole(What::Taskwait, rest),
        Key::Task => whole(What::Task, rest),
        Key::Do => whole(What::Do, rest),
        Key::In => touch_line(alloc, Mode::In, rest),
        Key::Out => touch_line(alloc, Mode::Out, rest),
        Key::Inout => touch_line(alloc, Mode::Inout, rest),
        _ => operation(alloc, word, rest),
    }
}

/// The statement that the tokens of a line are, with its depth (65 stands for every depth above 64).
/// A word that begins none, and whatever doesn't go on as its word asks, is the fault `Shape`.
#[tactic(auto, unfolding(crate::specs::Readings::statement))]
pub fn statement(alloc: Global, tokens: &[Token]) -> Result<(What, u32), LineRefusal>
    ensures { Gives (λ x. x) result (statement tokens.now) }
{
    match tokens {
        [Token::Key(word), tokens @ ..] => line(alloc, *word, Rest { tokens, depth: 0 }),
        _ => Err(LineRefusal::Fault(FaultKind::Shape)),
    }
}

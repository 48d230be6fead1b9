//! The forms of statement, each behind its word.

ghost use Rattle.std.specs.Prelude.{◌≡◌};
ghost use Rattle.task_tree.specs.Reading.{Gives};
ghost use Rattle.task_parse.specs.ReadingsOfParts.{left};
ghost use Rattle.task_parse.specs.ReadingsOfLines.{whole, array_line, show_line, comm_line, let_line, for_line, if_line, touch_line, kernel_line, posting_line, wait_line, waitall_line};

use crate::operand::{
    handle_at, names_at, on_at, own_status_at, peer_at, spans_behind, status_at, tag_at,
    values_behind,
};
use crate::part::{Rest, comma_at, dots_at, name_at, set_at, span_at, value_at};
use rt_base::{FaultKind, How, Kernel, Mode};
use std::alloc::Global;
use task_tree::{Exprs, LineRefusal, NameList, SpanTexts, What};

/// The greatest number of names in one wait.
pub const MAX_NAMES: usize = 64;

/// The statement, where no token is left.
pub fn whole(what: What, rest: Rest) -> Result<(What, u32), LineRefusal>
    ensures { Gives (λ x. x) result (whole what (left rest.entry)) }
{
    match rest.tokens {
        [] => Ok((what, rest.depth)),
        [_, ..] => Err(LineRefusal::Fault(FaultKind::Shape)),
    }
}

/// `NAME , expr`
#[tactic(auto, unfolding(crate::specs::ReadingsOfLines::array_line))]
pub fn array_line(alloc: Global, rest: Rest) -> Result<(What, u32), LineRefusal>
    ensures { Gives (λ x. x) result (array_line (left rest.entry)) }
{
    let (name, rest) = name_at(alloc, rest)?;
    let rest = comma_at(rest)?;
    let (len, rest) = value_at(alloc, rest)?;
    whole(What::Array { name, len }, rest)
}

/// `NAME`
#[tactic(auto, unfolding(crate::specs::ReadingsOfLines::show_line))]
pub fn show_line(alloc: Global, rest: Rest) -> Result<(What, u32), LineRefusal>
    ensures { Gives (λ x. x) result (show_line (left rest.entry)) }
{
    let (name, rest) = name_at(alloc, rest)?;
    whole(What::Show { name }, rest)
}

/// `NAME`
#[tactic(auto, unfolding(crate::specs::ReadingsOfLines::comm_line))]
pub fn comm_line(alloc: Global, rest: Rest) -> Result<(What, u32), LineRefusal>
    ensures { Gives (λ x. x) result (comm_line (left rest.entry)) }
{
    let (name, rest) = name_at(alloc, rest)?;
    whole(What::Comm { name }, rest)
}

/// `NAME = expr`
#[tactic(auto, unfolding(crate::specs::ReadingsOfLines::let_line))]
pub fn let_line(alloc: Global, rest: Rest) -> Result<(What, u32), LineRefusal>
    ensures { Gives (λ x. x) result (let_line (left rest.entry)) }
{
    let (name, rest) = name_at(alloc, rest)?;
    let rest = set_at(rest)?;
    let (value, rest) = value_at(alloc, rest)?;
    whole(What::Let { name, value }, rest)
}

/// `NAME = expr .. expr`
#[tactic(auto, unfolding(crate::specs::ReadingsOfLines::for_line))]
pub fn for_line(alloc: Global, rest: Rest) -> Result<(What, u32), LineRefusal>
    ensures { Gives (λ x. x) result (for_line (left rest.entry)) }
{
    let (name, rest) = name_at(alloc, rest)?;
    let rest = set_at(rest)?;
    let (from, rest) = value_at(alloc, rest)?;
    let rest = dots_at(rest)?;
    let (to, rest) = value_at(alloc, rest)?;
    whole(What::For { name, from, to }, rest)
}

/// `expr`
#[tactic(auto, unfolding(crate::specs::ReadingsOfLines::if_line))]
pub fn if_line(alloc: Global, rest: Rest) -> Result<(What, u32), LineRefusal>
    ensures { Gives (λ x. x) result (if_line (left rest.entry)) }
{
    let (test, rest) = value_at(alloc, rest)?;
    whole(What::If { test }, rest)
}

/// `SPAN`
#[tactic(auto, unfolding(crate::specs::ReadingsOfLines::touch_line))]
pub fn touch_line(alloc: Global, mode: Mode, rest: Rest) -> Result<(What, u32), LineRefusal>
    ensures { Gives (λ x. x) result (touch_line mode (left rest.entry)) }
{
    let (span, rest) = span_at(alloc, rest)?;
    whole(What::Touch { mode, span }, rest)
}

/// The destination, as many sources as the kernel takes, and as many numbers, with commas between.
#[tactic(auto, unfolding(crate::specs::ReadingsOfLines::kernel_line))]
pub fn kernel_line(alloc: Global, kernel: Kernel, rest: Rest) -> Result<(What, u32), LineRefusal>
    ensures { Gives (λ x. x) result (kernel_line kernel (left rest.entry)) }
{
    let (first, rest) = span_at(alloc, rest)?;
    let mut spans = Vec::new(alloc);
    spans.push(first)?;
    let (spans, rest) = spans_behind(alloc, spans, kernel.sources(), rest)?;
    let (values, rest) = values_behind(alloc, Vec::new(alloc), kernel.numbers(), rest)?;
    let spans = SpanTexts::from_vec(spans);
    let values = Exprs::from_vec(values);
    whole(
        What::Kern {
            kernel,
            spans,
            values,
        },
        rest,
    )
}

/// `SPAN , peer , tag`, behind a handle where the call does not block, and before `on NAME` and, in `recv`, `status SPAN`.
#[tactic(auto, unfolding(crate::specs::ReadingsOfLines::posting_line))]
pub fn posting_line(alloc: Global, how: How, rest: Rest) -> Result<(What, u32), LineRefusal>
    ensures { Gives (λ x. x) result (posting_line how (left rest.entry)) }
{
    let (handle, rest) = handle_at(alloc, how, rest)?;
    let (span, rest) = span_at(alloc, rest)?;
    let rest = comma_at(rest)?;
    let (peer, rest) = peer_at(alloc, how, rest)?;
    let rest = comma_at(rest)?;
    let (tag, rest) = tag_at(alloc, how, rest)?;
    let (comm, rest) = on_at(alloc, rest)?;
    let (status, rest) = own_status_at(alloc, how, rest)?;
    let what = What::Posting {
        how,
        handle,
        span,
        peer,
        tag,
        comm,
        status,
    };
    whole(what, rest)
}

/// `NAME`, and perhaps `status SPAN`.
#[tactic(auto, unfolding(crate::specs::ReadingsOfLines::wait_line))]
pub fn wait_line(alloc: Global, later: bool, rest: Rest) -> Result<(What, u32), LineRefusal>
    ensures { Gives (λ x. x) result (wait_line later (left rest.entry)) }
{
    let (name, rest) = name_at(alloc, rest)?;
    let (status, rest) = status_at(alloc, rest)?;
    let mut names = Vec::new(alloc);
    names.push(name)?;
    let handles = NameList::from_vec(names);
    whole(
        What::Waiting {
            later,
            handles,
            status,
        },
        rest,
    )
}

/// 1 to 64 names with commas between, and perhaps `status SPAN`.
#[tactic(auto, unfolding(crate::specs::ReadingsOfLines::waitall_line))]
pub fn waitall_line(alloc: Global, later: bool, rest: Rest) -> Result<(What, u32), LineRefusal>
    ensures { Gives (λ x. x) result (waitall_line later (left rest.entry)) }
{
    let (names, rest) = names_at(alloc, rest)?;
    if names.len() > MAX_NAMES {
        return Err(LineRefusal::Fault(FaultKind::Shape));
    }
    let (status, rest) = status_at(alloc, rest)?;
    let handles = NameList::from_vec(names);
    whole(
        What::Waiting {
            later,
            handles,
            status,
        },
        rest,
    )
}

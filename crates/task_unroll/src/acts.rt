//! What each statement does to the state.

ghost use Rattle.std.specs.Prelude.{◌≡◌, ◌+◌, ◌≤◌, Ok, OnOk};
ghost use Rattle.rt_base.specs.Operations.{postings};
ghost use Rattle.rt_base.specs.InUse.{posts, left_after};
ghost use Rattle.task_unroll.specs.Unrolling.{Gives, at};
ghost use Rattle.task_unroll.specs.Counting.{stepped};
ghost use Rattle.task_unroll.specs.Checks.{check};
ghost use Rattle.task_unroll.specs.Acts.{sized, array_made, shown, comm_made, with_variable, variable_set, taskwait_met, task_begun, access_made, op_done, kernel_done, handle_free, with_handle, call_done, with_idle, wait_done, none_left, task_ended};
ghost use Rattle.task_unroll.specs.Blocks.{bounds, holds};

use crate::checks::{HandleCheck, call_is_formed, cells_sent, no_handle, stands_twice};
use crate::counting::kept;
use crate::kernel_calls::kernel_call;
use crate::operands::{peer_of, tag_of};
use crate::refusal::{ExpandRefusal, at_line};
use crate::state::State;
use rt_base::{
    Access, Accesses, Body, FaultKind, Handles, How, Kernel, LimitName, Mode, Name, Op, TaskDef,
};
use std::alloc::{AllocError, Global};
use task_names::{Meaning, Scope};
use task_tree::{Expr, PeerText, SpanText, TagText};

// The length of an array, which isn't negative.
fn sized(len: i64) -> Result<u64, FaultKind>
    ensures { result ≡ sized len }
{
    if len < 0 {
        return Err(FaultKind::BadSize);
    }
    Ok(len as u64)
}

// Handles that a wait names are null from now on (MPI 4.0, 3.7.3).
fn set_idle(alloc: Global, scope: &mut Scope, handles: &[Name]) -> Result<(), AllocError>
    ensures names { OnOk result (scope.new.names ≡ with_idle handles.now scope.old.names) }
    ensures before { scope.new.before ≡ scope.old.before }
{
    let mut rest = handles;
    while let [name, behind @ ..] = rest {
        scope.set(alloc, name, Meaning::Idle)?;
        rest = behind;
    }
    Ok(())
}

impl State {
    /// One more statement is executed, or one more turn of a `for` begins.
    #[tactic(auto, unfolding(crate::specs::Counting::stepped, crate::specs::Counting::kept))]
    pub fn stepped(&mut self, _alloc: Global) -> Result<(), ExpandRefusal>
        ensures { Gives (λ _. self.new) result (stepped self.old) }
    {
        self.counts.steps = kept(LimitName::Steps, self.counts.steps as u64 + 1)?;
        Ok(())
    }

    /// `array NAME , expr`
    #[tactic(auto, unfolding(crate::specs::Acts::array_made, crate::specs::Counting::kept), using(crate::proofs::Results::sum_push))]
    pub fn array_made(
        &mut self,
        alloc: Global,
        line: u32,
        name: &Name,
        len: &Expr,
    ) -> Result<(), ExpandRefusal>
        ensures { Gives (λ _. self.new) result (array_made line name.now len.now self.old) }
    {
        self.stepped(alloc)?;
        at_line(line, self.scope.may_be_made(name))?;
        let number = self.value(alloc, line, len)?;
        let size = at_line(line, sized(number))?;
        let arrays = kept(LimitName::Arrays, self.arrays.len() as u64 + 1)?;
        self.counts.cells = kept(LimitName::Cells, self.counts.cells as u64 + size)?;
        let array = (arrays - 1) as u16;
        self.scope.set(alloc, name, Meaning::Array(array))?;
        self.arrays.push(name.copy(alloc)?)?;
        self.lens.push(size as u32)?;
        Ok(())
    }

    /// `show NAME`
    #[tactic(auto, unfolding(crate::specs::Acts::shown))]
    pub fn shown(&mut self, alloc: Global, line: u32, name: &Name) -> Result<(), ExpandRefusal>
        ensures { Gives (λ _. self.new) result (shown line name.now self.old) }
    {
        self.stepped(alloc)?;
        let array = at_line(line, self.scope.array(name))?;
        at_line(line, self.is_shown_first(array))?;
        self.shows.push(array)?;
        Ok(())
    }

    /// `comm NAME`: the next communicator (MPI 4.0, 7.2).
    #[tactic(auto, unfolding(crate::specs::Acts::comm_made, crate::specs::Counting::kept))]
    pub fn comm_made(&mut self, alloc: Global, line: u32, name: &Name) -> Result<(), ExpandRefusal>
        ensures { Gives (λ _. self.new) result (comm_made line name.now self.old) }
    {
        self.stepped(alloc)?;
        at_line(line, self.scope.may_be_made(name))?;
        let comms = kept(LimitName::Comms, self.comms as u64 + 1)?;
        self.scope
            .set(alloc, name, Meaning::Communicator(self.comms))?;
        self.comms = comms as u16;
        Ok(())
    }

    /// The variable has this value from now on.
    pub fn set_variable(
        &mut self,
        alloc: Global,
        name: &Name,
        value: i64,
    ) -> Result<(), ExpandRefusal>
        ensures { Gives (λ _. self.new) result (Ok (with_variable name.now value self.old)) }
    {
        self.scope.set(alloc, name, Meaning::Variable(value))?;
        Ok(())
    }

    /// `let NAME = expr`
    #[tactic(auto, unfolding(crate::specs::Acts::variable_set))]
    pub fn variable_set(
        &mut self,
        alloc: Global,
        line: u32,
        name: &Name,
        value: &Expr,
    ) -> Result<(), ExpandRefusal>
        ensures { Gives (λ _. self.new) result (variable_set line name.now value.now self.old) }
    {
        self.stepped(alloc)?;
        at_line(line, self.scope.may_be_set(name))?;
        let x = self.value(alloc, line, value)?;
        self.set_variable(alloc, name, x)
    }

    /// `taskwait`: the tasks of the rank after it are of the next epoch (OmpSs-2, taskwait).
    #[tactic(auto, unfolding(crate::specs::Acts::taskwait_met, crate::specs::Counting::stepped, crate::specs::Counting::kept))]
    pub fn taskwait_met(&mut self, _alloc: Global) -> Result<(), ExpandRefusal>
        ensures { Gives (λ _. self.new) result (taskwait_met self.old) }
    {
        self.counts.steps = kept(LimitName::Steps, self.counts.steps as u64 + 1)?;
        self.epoch += 1;
        Ok(())
    }

    /// `task`: no task is open yet, as in each text that was read.
    #[tactic(auto, unfolding(crate::specs::Acts::task_begun, crate::specs::Counting::kept))]
    pub fn task_begun(&mut self, alloc: Global, line: u32) -> Result<(), ExpandRefusal>
        ensures { Gives (λ _. self.new) result (task_begun line self.old) }
    {
        self.stepped(alloc)?;
        kept(LimitName::Tasks, self.tasks.len() as u64 + 1)?;
        if self.in_task {
            return Err(ExpandRefusal::Fault {
                line,
                kind: FaultKind::Place,
            });
        }
        self.in_task = true;
        self.scope.begin();
        Ok(())
    }

    /// `in SPAN`, `out SPAN`, `inout SPAN` (OmpSs-2, data accesses)
    #[tactic(auto, unfolding(crate::specs::Acts::access_made, crate::specs::Counting::kept), using(crate::proofs::Results::at_ok))]
    pub fn access_made(
        &mut self,
        alloc: Global,
        line: u32,
        mode: Mode,
        span: &SpanText,
    ) -> Result<(), ExpandRefusal>
        ensures { Gives (λ _. self.new) result (access_made line mode span.now self.old) }
    {
        self.stepped(alloc)?;
        let span = self.span_of(alloc, line, span)?;
        at_line(line, self.is_apart(span))?;
        let accesses = kept(LimitName::Accesses, self.counts.accesses as u64 + 1)?;
        let cells = kept(
            LimitName::AccessCells,
            self.counts.access_cells as u64 + span.len() as u64,
        )?;
        self.counts.accesses = accesses;
        self.counts.access_cells = cells;
        self.accesses.push(Access { mode, span })?;
        Ok(())
    }

    // An operation that has its operands is tested, and becomes the last of its body.
    #[tactic(auto, unfolding(crate::specs::Acts::op_done, crate::specs::Counting::kept))]
    fn op_done(
        &mut self,
        line: u32,
        handles: HandleCheck,
        operation: Op,
    ) -> Result<(), ExpandRefusal>
        requires { postings self.old.body + posts operation ≤ self.old.counts.requests }
        ensures { Gives (λ _. self.new) result (op_done line (check handles.kind handles.finds) operation self.old) }
    {
        at_line(line, self.tested(handles, &operation))?;
        self.counts.message_cells = kept(
            LimitName::MessageCells,
            self.counts.message_cells as u64 + cells_sent(&operation) as u64,
        )?;
        self.body.push(operation)?;
        Ok(())
    }

    /// A kernel is run.
    #[tactic(auto, unfolding(crate::specs::Acts::kernel_done), using(crate::proofs::Posting::kernel_posts_none))]
    pub fn kernel_done(
        &mut self,
        alloc: Global,
        line: u32,
        kernel: Kernel,
        spans: &[SpanText],
        values: &[Expr],
    ) -> Result<(), ExpandRefusal>
        ensures { Gives (λ _. self.new) result (kernel_done line kernel spans.now values.now self.old) }
    {
        self.operated(alloc, 0, 0)?;
        let spans = self.spans_of(alloc, line, spans)?;
        let numbers = self.values_of(alloc, line, values)?;
        let operation = at_line(
            line,
            kernel_call(kernel, spans.as_slice(), numbers.as_slice()),
        )?;
        self.op_done(line, no_handle(), operation)
    }

    // Whether a call's handle has a name that may become one.
    fn handle_free(&self, handle: &Option<Name>) -> Result<(), FaultKind>
        ensures { result ≡ handle_free self.now handle.now }
    {
        match handle {
            None => Ok(()),
            Some(name) => self.scope.may_be_posted(name),
        }
    }

    // The handle names the nth request of the body from now on.
    fn set_handle(
        &mut self,
        alloc: Global,
        handle: &Option<Name>,
        nth: u32,
    ) -> Result<(), AllocError>
        ensures { OnOk result (self.new ≡ record self.old { names = with_handle handle.now nth self.old.names }) }
    {
        match handle {
            None => Ok(()),
            Some(name) => self.scope.set(alloc, name, Meaning::Posted(nth)),
        }
    }

    /// A message is sent or received.
    #[tactic(auto, unfolding(crate::specs::Acts::call_done))]
    pub fn call_done(
        &mut self,
        alloc: Global,
        line: u32,
        how: How,
        handle: &Option<Name>,
        span: &SpanText,
        peer: &PeerText,
        tag: &TagText,
        comm: &Option<Name>,
        status: &Option<SpanText>,
    ) -> Result<(), ExpandRefusal>
        ensures { Gives (λ _. self.new) result (call_done line how handle.now span.now peer.now tag.now comm.now status.now self.old) }
    {
        at_line(line, call_is_formed(how, handle, peer, tag, status))?;
        self.operated(alloc, 1, 0)?;
        at_line(line, self.handle_free(handle))?;
        let span = self.span_of(alloc, line, span)?;
        let whom = self.peer_value(alloc, line, peer)?;
        let chosen = self.tag_value(alloc, line, tag)?;
        let comm = at_line(line, self.communicator_of(comm))?;
        let status = self.span_or_none(alloc, line, status)?;
        let peer = at_line(line, peer_of(self.size, whom))?;
        let tag = at_line(line, tag_of(chosen))?;
        let nth = self.body.requests() as u32;
        let operation = Op::Post {
            how,
            span,
            peer,
            tag,
            comm,
            status,
        };
        let check = self.handle_check(handle);
        self.op_done(line, check, operation)?;
        self.set_handle(alloc, handle, nth)?;
        self.lines.push(line)?;
        Ok(())
    }

    /// Requests are waited for, or bound to the task (MPI 4.0, 3.7.3 and 3.7.5; TAMPI, TAMPI_Iwait).
    #[tactic(auto, unfolding(crate::specs::Acts::wait_done))]
    pub fn wait_done(
        &mut self,
        alloc: Global,
        line: u32,
        later: bool,
        handles: &[Name],
        status: &Option<SpanText>,
    ) -> Result<(), ExpandRefusal>
        ensures { Gives (λ _. self.new) result (wait_done line later handles.now status.now self.old) }
    {
        self.operated(alloc, 0, handles.len())?;
        let requests = self.handles_of(alloc, line, handles)?;
        let status = self.span_or_none(alloc, line, status)?;
        let check = HandleCheck {
            kind: FaultKind::RequestTwice,
            finds: stands_twice(handles),
        };
        let operation = Op::Await {
            later,
            handles: Handles::from_vec(requests),
            status,
        };
        self.op_done(line, check, operation)?;
        set_idle(alloc, &mut self.scope, handles)?;
        Ok(())
    }

    // Each request of the open task was named by a wait, or was waited for in its posting.
    #[tactic(auto, using(crate::proofs::Leaving::none_is_left, crate::proofs::Leaving::one_is_left))]
    fn none_left(&self) -> Result<(), ExpandRefusal>
        ensures { result ≡ none_left self.now.lines (left_after 0 self.now.body) }
    {
        match self.body.left() {
            None => Ok(()),
            Some(nth) => Err(ExpandRefusal::Fault {
                line: self.lines.get(nth).copied().unwrap_or(0),
                kind: FaultKind::RequestLeft,
            }),
        }
    }

    /// `end` of a task: a request that no wait named is the fault of its posting. Names mean again what they meant before the task.
    #[tactic(auto, unfolding(crate::specs::Acts::task_ended))]
    pub fn task_ended(&mut self, alloc: Global, line: u32) -> Result<(), ExpandRefusal>
        ensures { Gives (λ _. self.new) result (task_ended line self.old) }
    {
        self.none_left()?;
        let task = TaskDef {
            rank: self.rank,
            line,
            epoch: self.epoch,
            accesses: Accesses::from_vec(self.accesses.take(alloc).into_vec()),
            body: Body::from_vec(self.body.take(alloc).into_vec()),
        };
        self.tasks.push(task)?;
        self.scope.undo();
        self.in_task = false;
        self.lines.clear();
        Ok(())
    }

    /// Both bounds of a `for`, evaluated once.
    #[tactic(auto, unfolding(crate::specs::Blocks::bounds))]
    pub fn bounds(
        &mut self,
        alloc: Global,
        line: u32,
        name: &Name,
        from: &Expr,
        to: &Expr,
    ) -> Result<(i64, i64), ExpandRefusal>
        ensures { Gives (λ x. (self.new, (x.0, x.1))) result (bounds line name.now from.now to.now self.old) }
    {
        self.stepped(alloc)?;
        at_line(line, self.scope.may_be_set(name))?;
        let x = self.value(alloc, line, from)?;
        let y = self.value(alloc, line, to)?;
        Ok((x, y))
    }

    /// Whether the value of an `if` isn't 0.
    #[tactic(auto, unfolding(crate::specs::Blocks::holds))]
    pub fn holds(&mut self, alloc: Global, line: u32, test: &Expr) -> Result<bool, ExpandRefusal>
        ensures { Gives (λ x. (self.new, x)) result (holds line test.now self.old) }
    {
        self.stepped(alloc)?;
        let x = self.value(alloc, line, test)?;
        Ok(x != 0)
    }
}

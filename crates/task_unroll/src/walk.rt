//! Unrolling a text for one rank: a walk over its statements.

ghost use Rattle.std.specs.Prelude.{◌≡◌, ◌<◌, ◌+◌, ◌^◌, length, ◌≤◌, true, Some, slice_get, option_copied, OnSome, OnOk};
ghost use Rattle.task_tree.specs.declared.tree.Stmt.{Stmt};
ghost use Rattle.task_tree.specs.Blocks.{Block, written};
ghost use Rattle.task_unroll.specs.Unrolling.{Gives};
ghost use Rattle.task_unroll.specs.States.{State};
ghost use Rattle.task_unroll.specs.Blocks.{act, unrolled};
ghost use Rattle.task_unroll.specs.Ends.{may_jump, close_of, AreEnds};
ghost use Rattle.task_unroll.specs.Steps.{spot, turn, loop_met, test_met, branch, branch_left, parts, is_else, variable_of, variable_in, turn_ended, block_ended, task_met, access_met, line_met, step};

use crate::ends::Ends;
use crate::levels::{Level, Levels, Turns};
use crate::refusal::ExpandRefusal;
use crate::state::State;
use rt_base::{Mode, Name};
use std::alloc::{AllocError, Global};
use task_tree::{Expr, SpanText, Stmt, What};

// What a statement does that is a line by itself.
fn act(alloc: Global, line: u32, what: &What, state: &mut State) -> Result<(), ExpandRefusal>
    ensures { Gives (λ _. state.new) result (act line what.now state.old) }
{
    match what {
        What::Array { name, len } => state.array_made(alloc, line, name, len),
        What::Show { name } => state.shown(alloc, line, name),
        What::Comm { name } => state.comm_made(alloc, line, name),
        What::Let { name, value } => state.variable_set(alloc, line, name, value),
        What::Taskwait => state.taskwait_met(alloc),
        What::Kern {
            kernel,
            spans,
            values,
        } => state.kernel_done(alloc, line, *kernel, spans.as_slice(), values.as_slice()),
        What::Posting {
            how,
            handle,
            span,
            peer,
            tag,
            comm,
            status,
        } => state.call_done(alloc, line, *how, handle, span, peer, tag, comm, status),
        What::Waiting {
            later,
            handles,
            status,
        } => state.wait_done(alloc, line, *later, handles.as_slice(), status),
        _ => Ok(()),
    }
}

// Where the walk stands on the statements: the place of the next one, and the blocks that are open there.
#[derive(Drop)]
struct Walk {
    place: usize,
    levels: Levels,
}

impl Walk {
    // A turn of a `for` where it has one more, and else on to the place behind it.
    #[tactic(auto, unfolding(crate::specs::Steps::turn))]
    fn turn(
        &mut self,
        alloc: Global,
        name: &Name,
        turns: Turns,
        behind: usize,
        state: &mut State,
    ) -> Result<(), ExpandRefusal>
        requires { turns.at < 2 ^ 63 }
        ensures { Gives (λ _. spot state.new self.new.place self.new.levels) result (turn name.now turns behind
            (spot state.old self.old.place self.old.levels)) }
    {
        if turns.next < turns.to {
            state.stepped(alloc)?;
            state.set_variable(alloc, name, turns.next)?;
            self.levels.push(Level::Turns(Turns {
                next: turns.next + 1,
                ..turns
            }))?;
            self.place = turns.at + 1;
        } else {
            self.place = behind;
        }
        Ok(())
    }

    // `for`: both bounds are evaluated here, and never again.
    #[tactic(auto, unfolding(crate::specs::Steps::loop_met))]
    fn loop_met(
        &mut self,
        alloc: Global,
        line: u32,
        name: &Name,
        from: &Expr,
        to: &Expr,
        end: usize,
        state: &mut State,
    ) -> Result<(), ExpandRefusal>
        requires at { self.old.place < 2 ^ 63 }
        requires end { end < 2 ^ 63 }
        ensures { Gives (λ _. spot state.new self.new.place self.new.levels) result (loop_met end line name.now from.now to.now
            (spot state.old self.old.place self.old.levels)) }
    {
        let (next, to) = state.bounds(alloc, line, name, from, to)?;
        let turns = Turns {
            at: self.place,
            next,
            to,
        };
        self.turn(alloc, name, turns, end + 1, state)
    }

    // Into the branch behind an `if`, or to what stands behind that branch: an `else` begins another.
    #[tactic(auto, unfolding(crate::specs::Steps::branch))]
    fn branch(&mut self, stmts: &[Stmt], end: usize, holds: bool) -> Result<(), AllocError>
        requires at { self.old.place < 2 ^ 63 }
        requires end { end < 2 ^ 63 }
        ensures { (s : State) → OnOk result (spot s self.new.place self.new.levels ≡ branch stmts.now end holds (spot s self.old.place self.old.levels)) }
    {
        if holds {
            self.levels.push(Level::Branch)?;
            self.place += 1;
        } else {
            if parts(stmts, end) {
                self.levels.push(Level::Branch)?;
            }
            self.place = end + 1;
        }
        Ok(())
    }

    // `if`
    #[tactic(auto, unfolding(crate::specs::Steps::test_met))]
    fn test_met(
        &mut self,
        alloc: Global,
        stmts: &[Stmt],
        line: u32,
        test: &Expr,
        end: usize,
        state: &mut State,
    ) -> Result<(), ExpandRefusal>
        requires at { self.old.place < 2 ^ 63 }
        requires end { end < 2 ^ 63 }
        ensures { Gives (λ _. spot state.new self.new.place self.new.levels) result (test_met stmts.now line test.now end
            (spot state.old self.old.place self.old.levels)) }
    {
        let holds = state.holds(alloc, line, test)?;
        self.branch(stmts, end, holds)?;
        Ok(())
    }

    // `else`: the branch before it was taken, so the one behind it is not.
    #[tactic(auto, unfolding(crate::specs::Steps::branch_left))]
    fn branch_left(&mut self, end: usize)
        requires { end < 2 ^ 63 }
        ensures { (s : State) → spot s self.new.place self.new.levels ≡ branch_left end (spot s self.old.place self.old.levels) }
    {
        let _branch = self.levels.pop();
        self.place = end + 1;
    }

    // The end of a turn of a `for`.
    #[tactic(auto, unfolding(crate::specs::Steps::turn_ended))]
    fn turn_ended(
        &mut self,
        alloc: Global,
        stmts: &[Stmt],
        turns: Turns,
        state: &mut State,
    ) -> Result<(), ExpandRefusal>
        requires { self.old.place < 2 ^ 63 }
        ensures { Gives (λ _. spot state.new self.new.place self.new.levels) result (turn_ended stmts.now turns
            (spot state.old self.old.place self.old.levels)) }
    {
        let behind = self.place + 1;
        match variable_of(stmts, turns.at) {
            Some(name) => self.turn(alloc, name, turns, behind, state),
            None => {
                self.place = behind;
                Ok(())
            }
        }
    }

    // `end` of the innermost block.
    #[tactic(auto, unfolding(crate::specs::Steps::block_ended))]
    fn block_ended(
        &mut self,
        alloc: Global,
        stmts: &[Stmt],
        state: &mut State,
    ) -> Result<(), ExpandRefusal>
        requires { self.old.place < 2 ^ 63 }
        ensures { Gives (λ _. spot state.new self.new.place self.new.levels) result (block_ended stmts.now (spot state.old self.old.place self.old.levels)) }
    {
        match self.levels.pop() {
            Some(Level::Turns(turns)) => return self.turn_ended(alloc, stmts, turns, state),
            Some(Level::Task(line)) => state.task_ended(alloc, line)?,
            Some(Level::Branch) => {}
            None => {}
        }
        self.place += 1;
        Ok(())
    }

    // `task`
    #[tactic(auto, unfolding(crate::specs::Steps::task_met))]
    fn task_met(&mut self, alloc: Global, line: u32, state: &mut State) -> Result<(), ExpandRefusal>
        requires { self.old.place < 2 ^ 63 }
        ensures { Gives (λ _. spot state.new self.new.place self.new.levels) result (task_met line (spot state.old self.old.place self.old.levels)) }
    {
        state.task_begun(alloc, line)?;
        self.levels.push(Level::Task(line))?;
        self.place += 1;
        Ok(())
    }

    // An access line.
    #[tactic(auto, unfolding(crate::specs::Steps::access_met))]
    fn access_met(
        &mut self,
        alloc: Global,
        line: u32,
        mode: Mode,
        span: &SpanText,
        state: &mut State,
    ) -> Result<(), ExpandRefusal>
        requires { self.old.place < 2 ^ 63 }
        ensures { Gives (λ _. spot state.new self.new.place self.new.levels) result (access_met line mode span.now
            (spot state.old self.old.place self.old.levels)) }
    {
        state.access_made(alloc, line, mode, span)?;
        self.place += 1;
        Ok(())
    }

    // A statement that is a line by itself, or `do`.
    #[tactic(auto, unfolding(crate::specs::Steps::line_met))]
    fn line_met(
        &mut self,
        alloc: Global,
        line: u32,
        what: &What,
        state: &mut State,
    ) -> Result<(), ExpandRefusal>
        requires { self.old.place < 2 ^ 63 }
        ensures { Gives (λ _. spot state.new self.new.place self.new.levels) result (line_met line what.now (spot state.old self.old.place self.old.levels)) }
    {
        act(alloc, line, what, state)?;
        self.place += 1;
        Ok(())
    }

    // One statement, which stands at the walk's place.
    #[tactic(auto, unfolding(crate::specs::Steps::step, crate::specs::Steps::step_to))]
    fn step(
        &mut self,
        alloc: Global,
        stmts: &[Stmt],
        ends: &Ends,
        stmt: &Stmt,
        state: &mut State,
    ) -> Result<(), ExpandRefusal>
        requires table { AreEnds stmts.now ends.now }
        requires here { slice_get stmts.now self.old.place ≡ Some stmt.now }
        ensures { Gives (λ _. spot state.new self.new.place self.new.levels) result (step stmts.now stmt.now.line stmt.now.what
            (spot state.old self.old.place self.old.levels)) }
    {
        let end = end_behind(stmts, ends, self.place, &stmt.what);
        let line = stmt.line;
        match &stmt.what {
            What::For { name, from, to } => self.loop_met(alloc, line, name, from, to, end, state),
            What::If { test } => self.test_met(alloc, stmts, line, test, end, state),
            What::Else => {
                self.branch_left(end);
                Ok(())
            }
            What::End => self.block_ended(alloc, stmts, state),
            What::Task => self.task_met(alloc, line, state),
            What::Touch { mode, span } => self.access_met(alloc, line, *mode, span, state),
            _ => self.line_met(alloc, line, &stmt.what, state),
        }
    }
}

// Where the block behind a statement is closed or parted.
#[tactic(auto, using(crate::proofs::EndLemmas::end_within))]
fn end_behind(stmts: &[Stmt], ends: &Ends, place: usize, what: &What) -> usize
    requires table { AreEnds stmts.now ends.now }
    requires here { (s : Stmt) × (slice_get stmts.now place ≡ Some s) × (s.what ≡ what.now) }
    ensures end { may_jump what.now ≡ true → result ≡ close_of stmts.now (place + 1) }
    ensures within { may_jump what.now ≡ true → result ≤ length stmts.now }
{
    ends.at(place)
}

/// What a text does to a rank: the state goes on from statement to statement. The table is the text's own.
pub fn unroll(
    alloc: Global,
    stmts: &[Stmt],
    ends: &Ends,
    state: &mut State,
) -> Result<(), ExpandRefusal>
    requires { AreEnds stmts.now ends.now }
    ensures { (whole : Block) → written whole ≡ stmts.now → Gives (λ _. state.new) result (unrolled whole state.old) }
{
    let mut walk = Walk {
        place: 0,
        levels: Levels::none(alloc),
    };
    while let Some(stmt) = stmts.get(walk.place) {
        match walk.step(alloc, stmts, ends, stmt, state) {
            Ok(()) => {}
            Err(refusal) => return Err(refusal),
        }
    }
    Ok(())
}

// Whether an `else` stands at this place.
fn parts(stmts: &[Stmt], place: usize) -> bool
    ensures { result ≡ parts (slice_get stmts.now place) }
{
    match stmts.get(place) {
        Some(stmt) => is_else(&stmt.what),
        None => false,
    }
}

fn is_else(what: &What) -> bool
    ensures { result ≡ is_else what.now }
{
    match what {
        What::Else => true,
        _ => false,
    }
}

// The variable of the `for` that stands at this place.
fn variable_of(stmts: &[Stmt], place: usize) -> Option<&Name>
    ensures name { option_copied result ≡ variable_of (slice_get stmts.now place) }
    ensures at { OnSome result (place < length stmts.now) }
{
    match stmts.get(place) {
        Some(stmt) => variable_in(&stmt.what),
        None => None,
    }
}

fn variable_in(what: &What) -> Option<&Name>
    ensures { option_copied result ≡ variable_in what.now }
{
    match what {
        What::For {
            name,
            from: _,
            to: _,
        } => Some(name),
        _ => None,
    }
}

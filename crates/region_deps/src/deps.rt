//! The dependency graph of a program.

ghost use Rattle.std.specs.Prelude.{◌≡◌, ◌==◌, ◌<◌, ◌≤◌, ◌+◌, ◌-◌, ◌↔◌, ℕ, IsTrue, length, true, false, All, IfOk, IfSome, IfNone, OnOk, slice_get, slice_index, slice_set, Some};
ghost use Rattle.rt_base.specs.Precedes.{MayStart, GoneMore};
ghost use Rattle.rt_base.specs.WellFormed.{WellFormed};
ghost use Rattle.region_deps.specs.Readiness.{Readiness, IsWhole, IsStartable, none_handed_out};
ghost use Rattle.region_deps.specs.Holding.{IsOrderly, IsGone, IsGoneIf, IsLinkedUp, region_count};
ghost use Rattle.region_deps.specs.Epochs.{IsGrouped};
ghost use Rattle.region_deps.specs.Clashes.{IsFull, IsSound};
ghost use Rattle.region_deps.specs.Chains.{IsLinkedAll};
ghost use Rattle.region_deps.specs.Lines.{IsSmallTask};

#[cfg(test)]
mod tests;

use crate::bounds::{all_laid, bounds};
use crate::epochs::{add_barriers, group_sizes, heads};
use crate::graph::{Graph, Link};
use crate::order::none_yet;
use crate::regions::{firsts, regions};
use crate::segments::{Region, linked};
use rt_base::{Program, TaskDef, TaskNo};
use std::alloc::{AllocError, Global};
use std::marker::Model;
use std::snapshot::Snapshot;

/// Hands out the tasks of a program in an order that its regions and taskwaits allow (OmpSs-2, task dependences and taskwait).
#[derive(Drop)]
pub struct Deps {
    program: Snapshot<Program>,
    // A source for each access, by number, and behind them one for each group of tasks, by its first task.
    graph: Graph,
    // The number of each task's first access, and behind them the number of all accesses.
    first: Vec<usize>,
    // The first task of each task's group: the tasks of one rank between two taskwaits.
    heads: Vec<u32>,
    // How many tasks of each group are not released, at the place of its first task.
    waiting: Vec<usize>,
    released: Vec<bool>,
}

impl Model for Deps {
    ghost use Rattle.region_deps.specs.Readiness.{Readiness};
    ghost use Rattle.region_deps.specs.Holding.{IsUpToDate};

    ghost Value = { Readiness };

    ghost view = { λ d. record { program = d.program.value; handed = d.graph.handed; gone = record { released = d.released.items } } };

    ghost invariant = { λ d. IsUpToDate d.program.value.tasks.items d.graph d.first.items d.heads.items d.waiting.items d.released.items };
}

impl Deps {
    /// The dependencies of a program of which no task was handed out. Takes time in the tasks, the accesses and the segments
    /// that these cover, times a logarithm.
    pub fn build(alloc: Global, prog: &Program) -> Result<Deps, AllocError>
        requires { WellFormed prog.now }
        ensures none_handed_out { IfOk result (λ deps. deps ≡ none_handed_out prog.now) }
        ensures places { IfOk result (λ deps. IsWhole deps) }
    {
        Deps::of_tasks(alloc, prog)
    }

    // The same for any program whose tasks are in order and whose accesses do not overlap within a task.
    fn of_tasks(alloc: Global, prog: &Program) -> Result<Deps, AllocError>
        requires { IsOrderly prog.now.tasks.items }
        ensures none_handed_out { IfOk result (λ deps. deps ≡ none_handed_out prog.now) }
        ensures places { IfOk result (λ deps. IsWhole deps) }
    {
        let tasks = prog.tasks.as_slice();
        let first = firsts(alloc, tasks)?;
        let heads = heads(alloc, tasks)?;
        let waiting = group_sizes(alloc, &heads)?;
        let accesses = first[tasks.len()];
        let links = links(alloc, tasks, &heads, accesses)?;
        Ok(Deps {
            program: Snapshot::of(prog),
            graph: Graph::build(alloc, links, accesses + tasks.len(), tasks.len())?,
            first,
            heads,
            waiting,
            released: none_yet(alloc, tasks.len())?,
        })
    }

    /// Hands out a task that may start and was not handed out. None exactly where there is no such task.
    /// Takes no memory, and looks at no other task.
    pub fn next_startable(&mut self) -> Option<TaskNo>
        ensures program { self.new.program ≡ self.old.program }
        ensures gone { self.new.gone ≡ self.old.gone }
        ensures startable { IfSome result (λ task. IsStartable self.old task.0) }
        ensures handed { IfSome result (λ task. self.new.handed ≡ slice_set self.old.handed task.0 true) }
        ensures none { IfNone result ((t : ℕ) → ¬ IsStartable self.old t) }
        ensures unchanged { IfNone result (self.new ≡ self.old) }
        ensures places { IsWhole self.new }
    {
        let task = self.graph.next()?;
        Some(TaskNo(task))
    }

    /// Whether no task is left that may start and was not handed out. Takes constant time.
    pub fn none_startable(&self) -> bool
        ensures { IsTrue result ↔ ((t : ℕ) → ¬ IsStartable self.now t) }
    {
        self.graph.none_open()
    }

    /// Whether the task may start, also where it was handed out. Looks at its count alone.
    pub fn may_start(&self, task: TaskNo) -> bool
        requires known { task.0 < length self.now.program.tasks.items }
        ensures { IsTrue result ↔ MayStart self.now.program self.now.gone task.0 }
    {
        self.graph.is_let_in(task.0)
    }

    /// Notes that the task has let go of its accesses. Takes no memory, and looks at the links of its accesses alone, and at
    /// those of its group where it was the last task of that.
    pub fn release(&mut self, task: TaskNo)
        requires handed { slice_get self.old.handed task.0 ≡ Some true }
        requires held { slice_get self.old.gone.released task.0 ≡ Some false }
        ensures program { self.new.program ≡ self.old.program }
        ensures handed { self.new.handed ≡ self.old.handed }
        ensures released { self.new.gone.released ≡ slice_set self.old.gone.released task.0 true }
        ensures more { GoneMore self.old.gone self.new.gone }
        ensures places { IsWhole self.new }
    {
        let task = task.0 as usize;
        let from = self.first[task];
        let to = self.first[task + 1];
        all_go(&mut self.graph, from, to);
        let accesses = self.first[self.heads.len()];
        one_less(
            &mut self.graph,
            &mut self.waiting,
            accesses,
            self.heads[task],
        );
        self.released[task] = true;
    }
}

// The links that the accesses and the taskwaits of the tasks ask for.
fn links(
    alloc: Global,
    tasks: &[TaskDef],
    heads: &[u32],
    accesses: usize,
) -> Result<Vec<Link>, AllocError>
    requires orderly { IsOrderly tasks.now }
    requires grouped { IsGrouped tasks.now heads.now }
    requires accesses { accesses ≡ region_count tasks.now }
    ensures links { IfOk result (λ links. IsLinkedUp tasks.now links.items heads.now) }
    ensures small { OnOk result (All IsSmallTask tasks.now) }
{
    let regions = regions(alloc, tasks)?;
    let mut links = linked_on_line(alloc, &regions)?;
    drop(regions);
    add_barriers(&mut links, tasks, heads, accesses)?;
    Ok(links)
}

// The links that an order of these regions asks for.
fn linked_on_line(alloc: Global, regions: &[Region]) -> Result<Vec<Link>, AllocError>
    requires { length regions.now < 4294967296 }
    ensures linked { IfOk result (λ links. IsLinkedAll regions.now links.items) }
    ensures full { IfOk result (λ links. IsFull regions.now links.items) }
    ensures sound { IfOk result (λ links. IsSound regions.now links.items) }
{
    let bounds = bounds(alloc, regions)?;
    let laid = all_laid(alloc, &bounds, regions)?;
    let links = linked(alloc, &laid, bounds.len())?;
    Ok(links)
}

// The sources of a range go.
fn all_go(graph: &mut Graph, from: usize, to: usize)
    requires order { from ≤ to }
    requires within { to ≤ length graph.old.gone }
    requires numbered { length graph.old.gone < 4294967296 }
    ensures { IsGone graph.old graph.new from to }
{
    for source in from..to {
        graph.let_go(source as u32);
    }
}

// One task less of the group is held. Where that was the last one, the group's source goes.
fn one_less(graph: &mut Graph, waiting: &mut Vec<usize>, accesses: usize, head: u32)
    requires known { head < length waiting.old.items }
    requires held { 0 < slice_index waiting.old.items head }
    requires within { accesses + head < length graph.old.gone }
    requires numbered { length graph.old.gone < 4294967296 }
    ensures waiting { waiting.new.items ≡ slice_set waiting.old.items head (slice_index waiting.old.items head - 1) }
    ensures gone { IsGoneIf graph.old graph.new (accesses + head) (slice_index waiting.old.items head - 1 == 0) }
{
    waiting[head as usize] -= 1;
    if waiting[head as usize] == 0 {
        graph.let_go(accesses as u32 + head);
    }
}

//! Sources, tasks, and the links between them: a task is startable once every source that is linked to it is gone.

ghost use Rattle.std.specs.Prelude.{◌≡◌, ℕ, ◌+◌, ◌-◌, ◌<◌, ◌≤◌, ◌↔◌, List, Bool, All, IsTrue, IfOk, IfSome, IfNone, Contains, length, count_by, true, false, replicate, slice_get, Some, slice_index_or, slice_set, vec_capacity};
ghost use Rattle.region_deps.specs.Links.{Waiting, IsOpen, IsLetIn, IsWithin, is_gone, is_to};
ghost use Rattle.region_deps.specs.Queues.{IsQueued, HasRoom};

use crate::order::{arrange, counts, idle, none_yet, places};
use std::alloc::{AllocError, Global};
use std::marker::Model;

/// The task waits until the source is gone.
#[derive(Clone, Copy, Debug, PartialEq, Eq)]
pub struct Link {
    pub source: u32,
    pub task: u32,
}

/// Hands out tasks once every source that is linked to them is gone.
#[derive(Drop)]
pub struct Graph {
    // By source; those of one source stand together, from its place in `first` up to that of the next one.
    links: Vec<Link>,
    first: Vec<usize>,
    gone: Vec<bool>,
    handed: Vec<bool>,
    // How many links to the task come from sources that aren't gone.
    left: Vec<usize>,
    startable: Vec<u32>,
}

impl Model for Graph {
    ghost use Rattle.std.specs.Prelude.{vec_capacity};
    ghost use Rattle.region_deps.specs.Links.{Waiting};
    ghost use Rattle.region_deps.specs.Queues.{IsGraph};

    ghost Value = { Waiting };

    ghost view = { λ g. record { links = g.links.items; gone = g.gone.items; handed = g.handed.items } };

    ghost invariant = { λ g. IsGraph g.links.items g.first.items g.gone.items g.handed.items g.left.items g.startable.items (vec_capacity g.startable) };
}

impl Graph {
    /// The graph of these links, with all sources there and no task handed out.
    pub fn build(
        alloc: Global,
        links: Vec<Link>,
        sources: usize,
        tasks: usize,
    ) -> Result<Graph, AllocError>
        requires tasks { tasks < 4294967296 }
        requires sources { sources < 4294967296 }
        requires ends { All (IsWithin sources tasks) links.items }
        ensures links { IfOk result (λ graph. (l : Link) → Contains graph.links l ↔ Contains links.items l) }
        ensures gone { IfOk result (λ graph. graph.gone ≡ replicate sources false) }
        ensures handed { IfOk result (λ graph. graph.handed ≡ replicate tasks false) }
    {
        let mut links = links;
        arrange(&mut links);
        let first = places(alloc, &links, sources)?;
        let left = counts(alloc, &links, tasks)?;
        let startable = idle(alloc, &left)?;
        Ok(Graph {
            links,
            first,
            gone: none_yet(alloc, sources)?,
            handed: none_yet(alloc, tasks)?,
            left,
            startable,
        })
    }

    /// Hands out a task that is let in and was not handed out. None exactly where there is none.
    pub fn next(&mut self) -> Option<u32>
        ensures links { self.new.links ≡ self.old.links }
        ensures gone { self.new.gone ≡ self.old.gone }
        ensures open { IfSome result (λ task. IsOpen self.old task) }
        ensures handed { IfSome result (λ task. self.new.handed ≡ slice_set self.old.handed task true) }
        ensures none { IfNone result ((task : ℕ) → ¬ IsOpen self.old task) }
        ensures unchanged { IfNone result (self.new ≡ self.old) }
    {
        let task = self.startable.pop()?;
        self.handed[task as usize] = true;
        Some(task)
    }

    /// Whether every task that is let in was handed out.
    pub fn none_open(&self) -> bool
        ensures { IsTrue result ↔ ((task : ℕ) → ¬ IsOpen self.now task) }
    {
        self.startable.is_empty()
    }

    /// Whether every source that is linked to the task is gone.
    pub fn is_let_in(&self, task: u32) -> bool
        requires known { task < length self.now.handed }
        ensures { IsTrue result ↔ IsLetIn self.now.links (is_gone self.now.gone) task }
    {
        self.left[task as usize] == 0
    }

    /// Whether there is such a task and it was handed out.
    #[cfg(test)]
    pub fn was_handed(&self, task: usize) -> bool
        ensures { IsTrue result → slice_get self.now.handed task ≡ Some true }
    {
        task < self.handed.len() && self.handed[task]
    }

    /// The source goes, if it isn't gone. Looks at its links alone.
    pub fn let_go(&mut self, source: u32)
        requires known { source < length self.old.gone }
        ensures links { self.new.links ≡ self.old.links }
        ensures handed { self.new.handed ≡ self.old.handed }
        ensures gone { self.new.gone ≡ slice_set self.old.gone source true }
    {
        let source = source as usize;
        if self.gone[source] {
            return;
        }
        let from = self.first[source];
        let to = self.first[source + 1];
        count_down(&self.links[from..to], &mut self.left, &mut self.startable);
        self.gone[source] = true;
    }
}

// One source less holds the task, which is startable where that was the last one.
fn one_less(left: &mut Vec<usize>, startable: &mut Vec<u32>, task: u32)
    requires within { task < length left.old.items }
    requires waits { 0 < slice_index_or left.old.items task 1 }
    requires room { HasRoom left.old.items startable.old.items (vec_capacity startable.old) }
    ensures left { left.new.items ≡ slice_set left.old.items task (slice_index_or left.old.items task 1 - 1) }
    ensures queued { (handed : List Bool) → IsQueued left.old.items handed startable.old.items → IsQueued left.new.items handed startable.new.items }
    ensures room { HasRoom left.new.items startable.new.items (vec_capacity startable.new) }
{
    left[task as usize] -= 1;
    if left[task as usize] == 0 {
        match startable.push(task) {
            Ok(()) => {}
            Err(_) => unreachable!(),
        }
    }
}

// The tasks of these links each have one source less for each of them.
fn count_down(links: &[Link], left: &mut Vec<usize>, startable: &mut Vec<u32>)
    requires within { All (λ (l : Link). l.task < length left.old.items) links.now }
    requires enough { (task : ℕ) → task < length left.old.items → count_by (is_to task) links.now ≤ slice_index_or left.old.items task 1 }
    requires room { HasRoom left.old.items startable.old.items (vec_capacity startable.old) }
    ensures long { length left.new.items ≡ length left.old.items }
    ensures left { (task : ℕ) → task < length left.old.items
        → slice_index_or left.new.items task 1 + count_by (is_to task) links.now ≡ slice_index_or left.old.items task 1 }
    ensures queued { (handed : List Bool) → IsQueued left.old.items handed startable.old.items → IsQueued left.new.items handed startable.new.items }
    ensures room { HasRoom left.new.items startable.new.items (vec_capacity startable.new) }
{
    for link in links {
        one_less(left, startable, link.task);
    }
}

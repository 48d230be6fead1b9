//! Small programs, and which of their tasks may start when: two worked ones, and random ones against the look at all tasks.

mod orderly;
mod random;

ghost use Rattle.std.specs.Prelude.{◌≡◌, ◌<◌, ℕ, true, false, IsTrue, IfSome, slice_get, Some, length};
ghost use Rattle.region_deps.specs.Holding.{IsOrderly};

use self::orderly::is_orderly;
use self::random::Random;
use super::Deps;
use crate::scan;
use rt_base::{
    Access, Accesses, Body, Lens, Mode, Names, Program, Shows, Span, Starts, TaskDef, TaskNo, Tasks,
};
use std::alloc::{AllocError, Global};
use std::test::Fail;

impl Deps {
    // Whether the task was handed out and is not released.
    fn is_under_way(&self, task: usize) -> bool
        ensures handed { IsTrue result → slice_get self.now.handed task ≡ Some true }
        ensures held { IsTrue result → slice_get self.now.gone.released task ≡ Some false }
        ensures numbered { IsTrue result → task < 4294967296 }
    {
        if task >= self.released.len() || task >= 4_294_967_296 {
            return false;
        }
        self.graph.was_handed(task) && !self.released[task]
    }

    // Whether there is such a task and it may start.
    fn starts(&self, task: usize) -> bool {
        task < self.released.len() && task < 4_294_967_296 && self.may_start(TaskNo(task as u32))
    }
}

// A task with accesses to array 0.
fn task(
    alloc: Global,
    rank: u16,
    epoch: u32,
    regions: &[(Mode, u32, u32)],
) -> Result<TaskDef, AllocError> {
    let mut accesses = Vec::with_capacity(alloc, regions.len())?;
    for (mode, from, to) in regions {
        let span = Span {
            array: 0,
            from: *from,
            to: *to,
        };
        accesses.push(Access { mode: *mode, span })?;
    }
    Ok(TaskDef {
        rank,
        line: 1,
        epoch,
        accesses: Accesses::from_vec(accesses),
        body: Body::empty(alloc),
    })
}

// The program of these tasks, of which only the order is looked at.
fn program(alloc: Global, tasks: Vec<TaskDef>) -> Program
    ensures { result.tasks.items ≡ tasks.items }
{
    Program {
        ranks: 3,
        eager: 0,
        comms: 1,
        names: Names::empty(alloc),
        lens: Lens::empty(alloc),
        starts: Starts::empty(alloc),
        shows: Shows::empty(alloc),
        tasks: Tasks::from_vec(tasks),
    }
}

// The same where the tasks are in order and the accesses of each share no cell.
fn orderly_program(alloc: Global, tasks: Vec<TaskDef>) -> Option<Program>
    ensures { IfSome result (λ program. IsOrderly program.tasks.items) }
{
    if !is_orderly(&tasks) {
        return None;
    }
    Some(program(alloc, tasks))
}

// Whether just these tasks may start now, of those that were not handed out.
fn hands_out(deps: &mut Deps, startable: &[u32]) -> bool {
    for _ in 0..startable.len() {
        match deps.next_startable() {
            Some(task) if startable.contains(&task.0) => {}
            _ => return false,
        }
    }
    deps.next_startable().is_none()
}

// The first row after whose release other tasks may start than it names.
fn first_wrong(deps: &mut Deps, rows: &[(Option<u32>, &[u32])]) -> Option<usize> {
    for row in 0..rows.len() {
        let (gone, startable) = rows[row];
        if let Some(task) = gone {
            if !deps.is_under_way(task as usize) {
                return Some(row);
            }
            deps.release(TaskNo(task));
        }
        if !hands_out(deps, startable) {
            return Some(row);
        }
    }
    None
}

#[test]
fn a_task_starts_once_all_that_precede_it_are_released(rt: HostRuntime) -> Result<(), Fail> {
    let alloc = rt.alloc();
    let mut tasks = Vec::new(alloc);
    tasks.push(task(alloc, 0, 0, &[(Mode::Out, 0, 4)])?)?;
    tasks.push(task(alloc, 0, 0, &[(Mode::In, 0, 3), (Mode::Out, 8, 9)])?)?;
    tasks.push(task(alloc, 0, 0, &[(Mode::In, 2, 4)])?)?;
    tasks.push(task(alloc, 0, 0, &[(Mode::Inout, 3, 4)])?)?;
    tasks.push(task(alloc, 0, 0, &[(Mode::Out, 1, 1), (Mode::In, 4, 8)])?)?;
    tasks.push(task(alloc, 0, 2, &[])?)?;
    tasks.push(task(alloc, 1, 0, &[(Mode::Out, 0, 4)])?)?;
    let Some(program) = orderly_program(alloc, tasks) else {
        assert!(rt; false, "in order");
        return Ok(());
    };
    let mut deps = Deps::of_tasks(alloc, &program)?;

    // What is released, and what may start then.
    let rows: [(Option<u32>, &[u32]); 8] = [
        (None, &[0, 4, 6]),
        (Some(6), &[]),
        (Some(0), &[1, 2]),
        (Some(1), &[]),
        (Some(2), &[3]),
        (Some(4), &[]),
        (Some(3), &[5]),
        (Some(5), &[]),
    ];
    assert_eq!(rt; first_wrong(&mut deps, &rows), None);
    Ok(())
}

#[test]
fn regions_that_cross_or_nest_and_empty_epochs(rt: HostRuntime) -> Result<(), Fail> {
    let alloc = rt.alloc();
    let mut tasks = Vec::new(alloc);

    // Each of the first three crosses the next, and 2 also crosses 4. 3 nests in 2, and 5 touches 4.
    tasks.push(task(alloc, 0, 0, &[(Mode::Out, 0, 3)])?)?;
    tasks.push(task(alloc, 0, 0, &[(Mode::In, 2, 5)])?)?;
    tasks.push(task(alloc, 0, 0, &[(Mode::Out, 4, 8)])?)?;
    tasks.push(task(alloc, 0, 0, &[(Mode::Inout, 5, 6)])?)?;
    tasks.push(task(alloc, 0, 0, &[(Mode::In, 6, 10)])?)?;
    tasks.push(task(alloc, 0, 0, &[(Mode::Out, 10, 12)])?)?;

    // Two taskwaits in a row, then three; and two before a rank's first task.
    tasks.push(task(alloc, 0, 2, &[(Mode::Out, 20, 21)])?)?;
    tasks.push(task(alloc, 0, 5, &[(Mode::In, 30, 31)])?)?;
    tasks.push(task(alloc, 1, 2, &[(Mode::Out, 0, 3)])?)?;
    let Some(program) = orderly_program(alloc, tasks) else {
        assert!(rt; false, "in order");
        return Ok(());
    };
    let mut deps = Deps::of_tasks(alloc, &program)?;
    let rows: [(Option<u32>, &[u32]); 10] = [
        (None, &[0, 5, 8]),
        (Some(5), &[]),
        (Some(0), &[1]),
        (Some(8), &[]),
        (Some(1), &[2]),
        (Some(2), &[3, 4]),
        (Some(4), &[]),
        (Some(3), &[6]),
        (Some(6), &[7]),
        (Some(7), &[]),
    ];
    assert_eq!(rt; first_wrong(&mut deps, &rows), None);
    Ok(())
}

// What was handed out and what is released, as the test saw it.
#[derive(Drop)]
struct Seen {
    handed: Vec<bool>,
    released: Vec<bool>,
}

impl Seen {
    // Whether the task was handed out.
    fn was_handed(&self, task: usize) -> bool {
        task < self.handed.len() && self.handed[task]
    }

    // Whether the tasks that may start by the look at all tasks are those that may start by the counts.
    fn agrees(&self, deps: &Deps, tasks: &[TaskDef]) -> bool {
        for task in 0..tasks.len() {
            if scan::may_start(tasks, &self.released, task) != deps.starts(task) {
                return false;
            }
        }
        true
    }

    // Hands out all tasks that may start. Whether each of them was one to hand out, and none was left.
    fn hand_out(&mut self, deps: &mut Deps, tasks: &[TaskDef]) -> bool {
        for _ in 0..tasks.len() {
            let Some(next) = deps.next_startable() else {
                break;
            };
            let task = next.0 as usize;
            if self.was_handed(task) || !scan::may_start(tasks, &self.released, task) {
                return false;
            }
            if task < self.handed.len() {
                self.handed[task] = true;
            }
        }
        deps.next_startable().is_none() && self.is_all_handed(tasks)
    }

    // Whether no task is left that may start.
    fn is_all_handed(&self, tasks: &[TaskDef]) -> bool {
        for task in 0..tasks.len() {
            if !self.was_handed(task) && scan::may_start(tasks, &self.released, task) {
                return false;
            }
        }
        true
    }

    // Releases the first task that is held, from this one on. Whether there was one.
    fn release(&mut self, deps: &mut Deps, from: usize) -> bool {
        let many = self.released.len();
        for step in 0..many {
            let task = (from % many + step) % many;
            if deps.is_under_way(task) {
                deps.release(TaskNo(task as u32));
                self.released[task] = true;
                return true;
            }
        }
        false
    }
}

#[test]
fn counts_and_the_look_at_all_tasks_offer_the_same(rt: HostRuntime) -> Result<(), Fail> {
    let alloc = rt.alloc();
    let mut random = Random::from_seed(20_260_101);
    for round in 0..400u32 {
        let tasks = random.tasks(alloc)?;
        let Some(program) = orderly_program(alloc, tasks) else {
            assert!(rt; false, "in order, round {round}");
            return Ok(());
        };
        let mut deps = Deps::of_tasks(alloc, &program)?;
        let tasks = program.tasks.as_slice();
        let mut seen = Seen {
            handed: vec![in alloc; false; tasks.len()]?,
            released: vec![in alloc; false; tasks.len()]?,
        };
        for step in 0..tasks.len() {
            assert!(rt; seen.agrees(&deps, tasks), "round {round}, step {step}");
            assert!(rt;
                seen.hand_out(&mut deps, tasks),
                "handed out in round {round}, step {step}"
            );
            let from = random.below(16) as usize;
            assert!(rt;
                seen.release(&mut deps, from),
                "released in round {round}, step {step}"
            );
        }
        assert!(rt;
            seen.released.iter().all(|gone| *gone),
            "all released in round {round}"
        );
    }
    Ok(())
}

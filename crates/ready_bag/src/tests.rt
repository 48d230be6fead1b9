//! A bag as callers use it: one slot, the greatest size, passes in another order, and threads that put and take at once.

ghost use Rattle.std.specs.Prelude.{◌≡◌, ◌<◌, ◌≤◌, ◌^◌, All, IfOk, length};
ghost use Rattle.ready_bag.specs.Passes.{IsPassOfBag};

use super::*;
use std::alloc::{AllocError, Global};
use std::process::Abort;
use std::sync::Wait;
use std::test::Fail;
use std::thread;
use std::thread::Threads;

const WORKERS: u64 = 4;

// A worker's pass, and which of the four it is.
#[derive(Drop)]
struct Job {
    pass: QueuePass<u64>,
    worker: u64,
}

// Its pass back, the sums of what it put and took, and whether what it took of each worker came in that worker's order.
#[derive(Drop)]
struct Done {
    pass: QueuePass<u64>,
    put: u64,
    taken: u64,
    in_order: bool,
}

// All passes, in the other order, and all sums.
#[derive(Drop)]
struct Gathered {
    passes: Vec<QueuePass<u64>>,
    put: u64,
    taken: u64,
    in_order: bool,
}

// A bag with one pass.
fn bag_of_one(alloc: Global, capacity: usize) -> Result<(QueueBag<u64>, QueuePass<u64>), AllocError>
    requires { (0 < capacity) × (capacity ≤ 65536) }
    ensures { IfOk result (λ made. IsPassOfBag made.1 made.0 × (made.0.workers ≡ 1)) }
{
    let (bag, mut passes) = QueueBag::build(alloc, capacity, 1)?;
    let Some(pass) = passes.pop() else {
        unreachable!();
    };
    Ok((bag, pass))
}

// A bag with two passes.
fn bag_of_two(
    alloc: Global,
    capacity: usize,
) -> Result<(QueueBag<u64>, QueuePass<u64>, QueuePass<u64>), AllocError>
    requires { (0 < capacity) × (capacity ≤ 65536) }
    ensures { IfOk result (λ made. IsPassOfBag made.1 made.0 × IsPassOfBag made.2 made.0 × (made.0.workers ≡ 2)) }
{
    let (bag, mut passes) = QueueBag::build(alloc, capacity, 2)?;
    let Some(second) = passes.pop() else {
        unreachable!();
    };
    let Some(first) = passes.pop() else {
        unreachable!();
    };
    Ok((bag, first, second))
}

// Stops where a pass has put many items.
fn stop_at_many<R: Abort>(rt: &R, passes: &[QueuePass<u64>])
    ensures { All (λ pass. length pass.account.put < 4294967296) passes.now }
{
    for pass in passes {
        let counts = pass.counts();
        assert!(rt; counts.puts < 4_294_967_296);
    }
}

// Closes a bag whose passes have put few items.
fn close<R: Wait + Abort>(rt: &R, bag: QueueBag<u64>, passes: Vec<QueuePass<u64>>) -> Tally
    requires home { All (λ pass. IsPassOfBag pass bag) passes.items }
    requires all { length passes.items ≡ bag.workers }
    requires workers { bag.workers ≤ 64 }
{
    stop_at_many(rt, passes.as_slice());
    bag.close(rt, passes)
}

// Puts so many numbers from 0 on into any bag, and says whether each was let in.
fn put_all<B: ReadyBag<u64>, R: Wait>(rt: &R, bag: &B, pass: &mut B::Pass, numbers: u64) -> bool
    requires { B.IsOf pass.old bag.now }
    ensures { B.IsOf pass.new bag.now }
{
    let mut each = true;
    for number in 0..numbers {
        each = bag.put(rt, pass, number).is_ok() && each;
    }
    each
}

// Takes so many items out of any bag, and says whether they were the numbers from 0 on.
fn take_all<B: ReadyBag<u64>, R: Wait>(rt: &R, bag: &B, pass: &mut B::Pass, numbers: u64) -> bool
    requires { B.IsOf pass.old bag.now }
    ensures { B.IsOf pass.new bag.now }
{
    let mut each = true;
    for number in 0..numbers {
        each = bag.take(rt, pass) == Some(number) && each;
    }
    each
}

// Puts and takes in turn.
fn work<R: Wait>(rt: &R, bag: &QueueBag<u64>, job: Job, rounds: u64) -> Done
    requires { IsPassOfBag job.pass bag.now }
    ensures { IsPassOfBag result.pass bag.now }
{
    let Job { mut pass, worker } = job;
    let (mut put, mut taken, mut in_order) = (0u64, 0u64, true);
    let mut least = [0u64; 4];
    for number in 0..rounds {
        let item = number.wrapping_mul(WORKERS).wrapping_add(worker);
        if bag.put(rt, &mut pass, item).is_ok() {
            put = put.wrapping_add(item);
        }
        if let Some(found) = bag.take(rt, &mut pass) {
            let owner = (found % WORKERS) as usize;
            taken = taken.wrapping_add(found);
            in_order = in_order && least[owner] <= found;
            least[owner] = found.wrapping_add(1);
        }
    }
    Done {
        pass,
        put,
        taken,
        in_order,
    }
}

// All four workers at once.
fn work_at_once<R: Threads + Wait + Sync>(
    rt: &R,
    bag: &QueueBag<u64>,
    jobs: Vec<Job>,
    rounds: u64,
) -> Result<Vec<Done>, AllocError>
    requires { All (λ job. IsPassOfBag job.pass bag.now) jobs.items }
    ensures home { IfOk result (λ done. All (λ one. IsPassOfBag one.pass bag.now) done.items) }
    ensures count { IfOk result (λ done. length done.items ≡ length jobs.items) }
{
    thread::map_vec(
        rt,
        jobs,
        &|job: Job| -> Done
            requires { IsPassOfBag job.pass bag.now }
            ensures { IsPassOfBag result.pass bag.entry.now }
        { work(rt, bag, job, rounds) },
    )
}

// Numbers the passes.
fn jobs_of(
    alloc: Global,
    bag: &QueueBag<u64>,
    mut passes: Vec<QueuePass<u64>>,
) -> Result<Vec<Job>, AllocError>
    requires { All (λ pass. IsPassOfBag pass bag.now) passes.items }
    ensures home { IfOk result (λ jobs. All (λ job. IsPassOfBag job.pass bag.now) jobs.items) }
    ensures count { IfOk result (λ jobs. length jobs.items ≡ length passes.items) }
{
    let mut jobs = Vec::with_capacity(alloc, passes.len())?;
    while let Some(pass) = passes.pop() {
        let worker = passes.len() as u64;
        jobs.push(Job { pass, worker })?;
    }
    Ok(jobs)
}

// The passes, last first, with the sums.
fn gather(alloc: Global, bag: &QueueBag<u64>, mut done: Vec<Done>) -> Result<Gathered, AllocError>
    requires { All (λ one. IsPassOfBag one.pass bag.now) done.items }
    ensures home { IfOk result (λ all. All (λ pass. IsPassOfBag pass bag.now) all.passes.items) }
    ensures count { IfOk result (λ all. length all.passes.items ≡ length done.items) }
{
    let mut passes = Vec::with_capacity(alloc, done.len())?;
    let (mut put, mut taken, mut in_order) = (0u64, 0u64, true);
    while let Some(one) = done.pop() {
        put = put.wrapping_add(one.put);
        taken = taken.wrapping_add(one.taken);
        in_order = in_order && one.in_order;
        passes.push(one.pass)?;
    }
    Ok(Gathered {
        passes,
        put,
        taken,
        in_order,
    })
}

#[test]
fn one_slot_is_full_and_empty_in_turn(rt: HostRuntime) -> Result<(), Fail> {
    let (bag, mut pass) = bag_of_one(rt.alloc(), 1)?;
    assert_eq!(rt; bag.put(&rt, &mut pass, 10), Ok(()));
    assert_eq!(rt; bag.put(&rt, &mut pass, 11), Err(11));
    assert_eq!(rt; bag.take(&rt, &mut pass), Some(10));
    assert_eq!(rt; bag.take(&rt, &mut pass), None);
    let counts = pass.counts();
    assert_eq!(rt;
        (counts.puts, counts.fulls, counts.takes, counts.empties),
        (1, 1, 1, 1)
    );
    let passes = vec![in rt.alloc(); pass]?;
    let tally = close(&rt, bag, passes);
    assert_eq!(rt; (tally.put, tally.taken, tally.left), (1, 1, 0));
    Ok(())
}

#[test]
fn passes_are_closed_in_another_order(rt: HostRuntime) -> Result<(), Fail> {
    let (bag, mut first, mut second) = bag_of_two(rt.alloc(), 8)?;
    assert!(rt; put_all(&rt, &bag, &mut first, 5));
    // The second pass has put nothing yet, so all that it takes it learns from the queue.
    assert!(rt; take_all(&rt, &bag, &mut second, 2));
    assert!(rt; put_all(&rt, &bag, &mut second, 1));
    let passes = vec![in rt.alloc(); second, first]?;
    let tally = close(&rt, bag, passes);
    assert_eq!(rt; (tally.put, tally.taken, tally.left), (6, 2, 4));
    Ok(())
}

#[test]
fn the_greatest_bag_gives_its_items_in_order(rt: HostRuntime) -> Result<(), Fail> {
    let (bag, mut pass) = bag_of_one(rt.alloc(), 65_536)?;
    assert!(rt; put_all(&rt, &bag, &mut pass, 65_536));
    assert_eq!(rt; bag.put(&rt, &mut pass, 7), Err(7));
    assert!(rt; take_all(&rt, &bag, &mut pass, 65_536));
    assert_eq!(rt; bag.take(&rt, &mut pass), None);
    let passes = vec![in rt.alloc(); pass]?;
    let tally = close(&rt, bag, passes);
    assert_eq!(rt; (tally.put, tally.taken, tally.left), (65_536, 65_536, 0));
    Ok(())
}

#[test]
fn what_threads_put_is_taken_once_and_in_order(rt: HostRuntime) -> Result<(), Fail> {
    for capacity in [1, 3, 64] {
        let (bag, passes) = QueueBag::build(rt.alloc(), capacity, 4)?;
        let jobs = jobs_of(rt.alloc(), &bag, passes)?;
        let done = work_at_once(&rt, &bag, jobs, 20_000)?;
        let all = gather(rt.alloc(), &bag, done)?;
        assert_eq!(rt; all.put, all.taken, "capacity {capacity}");
        assert!(rt; all.in_order, "capacity {capacity}");
        let tally = close(&rt, bag, all.passes);
        assert_eq!(rt; tally.put, tally.taken);
        assert_eq!(rt; tally.left, 0);
    }
    Ok(())
}

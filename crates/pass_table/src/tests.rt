//! Threads that append, note and meet side by side, whose sums must hold, and each call once.
ghost use Rattle.std.specs.Prelude.{◌≡◌, All, length};

use crate::desk::{Desk, Naming, Shelf};
use crate::{Pass, PassTable, Pen};
use std::alloc::AllocError;
use std::marker::Brand;
use std::process::Abort;
use std::sync::{Mutex, Wait};
use std::test::Fail;
use std::thread;
use std::thread::Threads;

const ROUNDS: u32 = 2000;

// Each round appends a step, leaves a note of what was seen, and meets the note that another thread left.
fn work<J: Naming, R: Wait>(
    rt: &R,
    table: &PassTable,
    desk: &Mutex<Desk<J>>,
    shelf: &Mutex<Shelf<J>>,
    mut pass: Pass,
) -> u32
    requires table { table.now ≡ J.table }
    requires pass { pass.table ≡ J.table }
    ensures { result ≡ pass.caller }
{
    for _ in 0..ROUNDS {
        let stepped = desk.lock(rt).append(table, pass);
        let (mine, note) = table.note(stepped);
        let other = shelf.lock(rt).exchange(note);
        pass = match other {
            Some(note) => table.meet(mine, note),
            None => mine,
        };
    }
    pass.caller()
}

// The callers of the passes, once all threads are done.
fn work_side_by_side<J: Naming + Send + Sync, R: Threads + Wait + Sync>(
    rt: &R,
    table: &PassTable,
    pen: Pen,
    passes: Vec<Pass>,
) -> Result<Vec<u32>, AllocError>
    requires table { table.now ≡ J.table }
    requires pen { (pen.table ≡ J.table) × (length pen.seen ≡ 0) }
    requires passes { All (λ pass. pass.table ≡ J.table) passes.items }
{
    let desk = Mutex::new(Desk::<J>::new(pen));
    let shelf = Mutex::new(Shelf::<J>::new());
    thread::map_vec(
        rt,
        passes,
        &|pass| -> u32
            requires { (table.now ≡ J.table) × (pass.table ≡ J.table) }
        { work(rt, table, &desk, &shelf, pass) },
    )
}

#[test]
fn the_list_grows_by_one_for_each_step_of_each_thread(rt: HostRuntime) -> Result<(), Fail> {
    let (table, pen, passes) = PassTable::build(rt.alloc(), 4)?;
    let callers = work_side_by_side::<Brand, _>(&rt, &table, pen, passes)?;
    assert!(rt; callers.as_slice() == [0u32, 1, 2, 3].as_slice());
    assert_eq!(rt; table.table.shared.peek(0), 4 * ROUNDS as u64);
    Ok(())
}

#[test]
fn each_call_keeps_the_caller(rt: HostRuntime) -> Result<(), Fail> {
    let (table, pen, mut passes) = PassTable::build(rt.alloc(), 2)?;
    let second = passes.pop().ok_or("a second pass")?;
    let first = passes.pop().ok_or("a first pass")?;
    let (pen, first) = table.append(pen, first, 5);
    let (first, note) = table.note(first);
    let second = table.meet(second, note);
    let (pen, second) = table.append(pen, second, 0);
    let (pen, first) = table.catch_up(pen, first);
    let (first, note) = table.note(first);
    let _pen = table.settle(pen, note);
    assert_eq!(rt; (first.caller(), second.caller()), (0, 1));
    assert_eq!(rt; table.table.shared.peek(0), 2);
    Ok(())
}

#[test]
fn a_table_has_a_pass_for_each_caller(rt: HostRuntime) -> Result<(), Fail> {
    for callers in [1u32, 65_536] {
        let (_table, _pen, passes) = PassTable::build(rt.alloc(), callers)?;
        assert_eq!(rt; passes.len(), callers as usize);
        for (place, pass) in passes.iter().enumerate() {
            assert_eq!(rt; pass.caller() as usize, place, "of {callers}");
        }
    }
    Ok(())
}

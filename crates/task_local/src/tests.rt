//! Kernels on parts of a copy, and tasks over one array: two that run one after the other, and one that sends.

ghost use Rattle.std.specs.Prelude.{◌≡◌, ◌+◌, ◌<◌, ◌≤◌, length, All, IfOk, [], ◌∷◌, pos, Some, None};
ghost use Rattle.rt_base.specs.declared.data.Mode.TheVariants as mode;
ghost use Rattle.rt_base.specs.declared.data.Kernel.TheVariants as kernel;
ghost use Rattle.rt_base.specs.declared.data.How.TheVariants as how;
ghost use Rattle.rt_base.specs.declared.data.Peer.TheVariants as peer;
ghost use Rattle.rt_base.specs.declared.data.TagSel.TheVariants as tag;
ghost use Rattle.rt_base.specs.declared.data.Op.TheVariants as op;
ghost use Rattle.rt_base.specs.declared.data.Phase.TheVariants as phase;
ghost use Rattle.rt_base.specs.declared.data.TaskDef.{TaskDef};
ghost use Rattle.rt_base.specs.Layout.{array_count, memory_len, starts_from};
ghost use Rattle.rt_base.specs.WellFormed.{WellFormed, IsDeclared};
ghost use Rattle.task_local.specs.Standing.{def_of, IsAtCall};
ghost use Rattle.task_local.specs.Kept.{TakesCells};

use crate::compute::{Placed, run_placed};
use crate::parts::Part;
use crate::{At, TaskRec};
use rt_base::{
    Access, Accesses, Body, How, Kernel, Lens, Mode, Name, Names, Op, Peer, Phase, Program, Shows,
    Span, TagSel, TaskDef, TaskNo, Tasks, starts_of,
};
use std::alloc::Global;
use std::process::Abort;
use std::test::Fail;

// A span over both regions, which are declared in the other order; a copy onto cells that it shares; and no cell of an
// array that the rank lacks.
#[test]
fn bodies_work_on_their_copies(rt: HostRuntime) -> Result<(), Fail> {
    let alloc = rt.alloc();
    let program = sample(alloc)?;
    let mut memory = [0; 4];
    run(&rt, alloc, &program, TaskNo(0), &mut memory)?;
    assert_eq!(rt; memory, [0, 5, 6, 0]);
    run(&rt, alloc, &program, TaskNo(1), &mut memory)?;
    assert_eq!(rt; memory, [0, 0, 5, 0]);
    Ok(())
}

// A send takes the cells of its span, which lies over both regions, in their order.
#[test]
fn a_send_takes_its_cells_in_order(rt: HostRuntime) -> Result<(), Fail> {
    let alloc = rt.alloc();
    let program = sample(alloc)?;
    let mut held = TaskRec::make(alloc, &program, TaskNo(2))?;
    held.load(&program, &[3, 5, 7, 9]);
    held.go(&program, Phase::At(0));
    assert_eq!(rt; held.at(&program), At::Call(0));
    assert_eq!(rt; held.pack(alloc, &program)?.as_slice(), [5, 7].as_slice());
    Ok(())
}

// Received cells, fewer than their span has, are stored at its front, and lie over both regions.
#[test]
fn received_cells_are_stored_in_front(rt: HostRuntime) -> Result<(), Fail> {
    let alloc = rt.alloc();
    let program = sample(alloc)?;
    let mut memory = [3, 5, 7, 9];
    let mut held = TaskRec::make(alloc, &program, TaskNo(2))?;
    held.load(&program, &memory);
    held.store(&program, cells_of_a(1, 4), &[-1, -2]);
    held.save(&program, &mut memory);
    assert_eq!(rt; memory, [3, -1, -2, 9]);
    Ok(())
}

// The kernels that work cell by cell, over 1, -2, 4, -8 and 16, where the destination shares some with its sources.
#[test]
fn sources_are_read_before_a_cell_is_written(rt: HostRuntime) {
    let all = Part { at: 0, count: 5 };
    let front = Part { at: 0, count: 3 };
    let middle = Part { at: 1, count: 3 };
    let back = Part { at: 2, count: 3 };
    let none = Part { at: 0, count: 0 };
    let rows = [
        (
            left_by(Kernel::Add, middle, front, back, 0),
            [1, 5, -10, 20, 16],
        ),
        (
            left_by(Kernel::Sub, middle, front, back, 0),
            [1, -3, 6, -12, 16],
        ),
        (
            left_by(Kernel::Scale, middle, front, none, 3),
            [1, 3, -6, 12, 16],
        ),
        (
            left_by(Kernel::Shift, middle, front, none, 1),
            [1, 0, -1, 2, 16],
        ),
        (
            left_by(Kernel::Jacobi2, middle, all, none, 0),
            [1, 0, -1, 1, 16],
        ),
    ];
    for (found, want) in rows {
        assert_eq!(rt; found, want);
    }
}

// The same where the destination is a source, or both; and where one cell more or less is shared.
#[test]
fn a_destination_may_be_a_source(rt: HostRuntime) {
    let all = Part { at: 0, count: 5 };
    let front = Part { at: 0, count: 2 };
    let middle = Part { at: 1, count: 3 };
    let later = Part { at: 2, count: 3 };
    let back = Part { at: 3, count: 2 };
    let none = Part { at: 0, count: 0 };
    let rows = [
        (
            left_by(Kernel::Add, front, front, back, 0),
            [-7, 14, 4, -8, 16],
        ),
        (
            left_by(Kernel::Add, front, back, front, 0),
            [-7, 14, 4, -8, 16],
        ),
        (
            left_by(Kernel::Sub, front, front, back, 0),
            [9, -18, 4, -8, 16],
        ),
        (
            left_by(Kernel::Sub, front, back, front, 0),
            [-9, 18, 4, -8, 16],
        ),
        (left_by(Kernel::Add, all, all, all, 0), [2, -4, 8, -16, 32]),
        (left_by(Kernel::Sub, all, all, all, 0), [0, 0, 0, 0, 0]),
        (
            left_by(Kernel::Scale, middle, middle, none, 3),
            [1, -6, 12, -24, 16],
        ),
        (
            left_by(Kernel::Shift, middle, middle, none, 1),
            [1, -1, 2, -4, 16],
        ),
        (
            left_by(Kernel::Add, middle, middle, later, 0),
            [1, 2, -4, 8, 16],
        ),
        (
            left_by(Kernel::Sub, later, middle, later, 0),
            [1, -2, -6, 12, -24],
        ),
    ];
    for (found, want) in rows {
        assert_eq!(rt; found, want);
    }
}

// A copy within the five cells, by one cell and by two, in both directions, and onto itself.
#[test]
fn cells_are_copied_along(rt: HostRuntime) {
    let none = Part { at: 0, count: 0 };
    let rows = [
        (1, 0, 4, [1, 1, -2, 4, -8]),
        (0, 1, 4, [-2, 4, -8, 16, 16]),
        (2, 0, 3, [1, -2, 1, -2, 4]),
        (0, 2, 3, [4, -8, 16, -8, 16]),
        (1, 1, 3, [1, -2, 4, -8, 16]),
    ];
    for (to, from, count, want) in rows {
        let dst = Part { at: to, count };
        let left = Part { at: from, count };
        if to + count <= 5 && from + count <= 5 {
            assert_eq!(rt;
                left_by(Kernel::Copy, dst, left, none, 0),
                want,
                "{from} to {to}"
            );
        }
    }
}

// The same where the destination lies before its sources, behind them or between them.
#[test]
fn sources_may_lie_on_either_side(rt: HostRuntime) {
    let first = Part { at: 0, count: 1 };
    let last = Part { at: 4, count: 1 };
    let third = Part { at: 2, count: 1 };
    let front = Part { at: 0, count: 2 };
    let back = Part { at: 3, count: 2 };
    let middle = Part { at: 1, count: 3 };
    let none = Part { at: 2, count: 0 };
    let rows = [
        (
            left_by(Kernel::Copy, front, back, none, 0),
            [-8, 16, 4, -8, 16],
        ),
        (
            left_by(Kernel::Add, third, first, last, 0),
            [1, -2, 17, -8, 16],
        ),
        (
            left_by(Kernel::Sub, third, first, last, 0),
            [1, -2, -15, -8, 16],
        ),
        (
            left_by(Kernel::Scale, back, front, none, 2),
            [1, -2, 4, 2, -4],
        ),
        (
            left_by(Kernel::Shift, front, back, none, 2),
            [-2, 4, 4, -8, 16],
        ),
        (
            left_by(Kernel::Jacobi2, last, middle, none, 0),
            [1, -2, 4, -8, -1],
        ),
    ];
    for (found, want) in rows {
        assert_eq!(rt; found, want);
    }
}

// The kernels that make one number of all cells: the destination is one of these cells, or another one.
#[test]
fn one_number_is_made_of_all_cells(rt: HostRuntime) {
    let all = Part { at: 0, count: 5 };
    let first = Part { at: 0, count: 1 };
    let last = Part { at: 4, count: 1 };
    let second = Part { at: 1, count: 1 };
    let front = Part { at: 0, count: 4 };
    let back = Part { at: 1, count: 4 };
    let none = Part { at: 2, count: 0 };
    let rows = [
        (
            left_by(Kernel::Sum, second, all, none, 0),
            [1, 11, 4, -8, 16],
        ),
        (
            left_by(Kernel::Sum, first, back, none, 0),
            [10, -2, 4, -8, 16],
        ),
        (
            left_by(Kernel::Least, second, all, none, 0),
            [1, -8, 4, -8, 16],
        ),
        (
            left_by(Kernel::Least, last, front, none, 0),
            [1, -2, 4, -8, -8],
        ),
        (
            left_by(Kernel::Greatest, second, all, none, 0),
            [1, 16, 4, -8, 16],
        ),
        (
            left_by(Kernel::Greatest, last, front, none, 0),
            [1, -2, 4, -8, 4],
        ),
    ];
    for (found, want) in rows {
        assert_eq!(rt; found, want);
    }
}

// The kernels without a source, copies onto cells that they share, and no cell at all.
#[test]
fn cells_are_filled_and_copied(rt: HostRuntime) {
    let front = Part { at: 0, count: 3 };
    let middle = Part { at: 1, count: 3 };
    let back = Part { at: 2, count: 3 };
    let first = Part { at: 0, count: 1 };
    let none = Part { at: 2, count: 0 };
    let rows = [
        (
            left_by(Kernel::Fill, middle, none, none, 7),
            [1, 7, 7, 7, 16],
        ),
        (
            left_by(Kernel::Ramp, middle, none, none, 10),
            [1, 10, 20, 30, 16],
        ),
        (
            left_by(Kernel::Copy, middle, front, none, 0),
            [1, 1, -2, 4, 16],
        ),
        (
            left_by(Kernel::Copy, middle, back, none, 0),
            [1, 4, -8, 16, 16],
        ),
        (
            left_by(Kernel::Copy, none, none, none, 0),
            [1, -2, 4, -8, 16],
        ),
        (
            left_by(Kernel::Sum, first, none, none, 0),
            [0, -2, 4, -8, 16],
        ),
    ];
    for (found, want) in rows {
        assert_eq!(rt; found, want);
    }
}

// Sums, differences and products that wrap, of cells that the destination shares: the greatest number, the least, 1, 1 and
// the greatest.
#[test]
fn shared_cells_wrap(rt: HostRuntime) {
    let all = Part { at: 0, count: 5 };
    let front = Part { at: 0, count: 3 };
    let middle = Part { at: 1, count: 3 };
    let back = Part { at: 2, count: 3 };
    let none = Part { at: 0, count: 0 };
    let rows = [
        (
            wrapped_by(Kernel::Add, middle, front, back, 0),
            [MAX, MIN, MIN + 1, MIN, MAX],
        ),
        (
            wrapped_by(Kernel::Sub, middle, front, back, 0),
            [MAX, MAX - 1, MAX, MIN + 2, MAX],
        ),
        (
            wrapped_by(Kernel::Scale, middle, front, none, 2),
            [MAX, -2, 0, 2, MAX],
        ),
        (
            wrapped_by(Kernel::Shift, middle, front, none, 63),
            [MAX, 0, -1, 0, MAX],
        ),
        (
            wrapped_by(Kernel::Jacobi2, middle, all, none, 0),
            [MAX, QUARTER, QUARTER, QUARTER, MAX],
        ),
    ];
    for (found, want) in rows {
        assert_eq!(rt; found, want);
    }
}

// The same cells made one number, and the steps of a ramp from the greatest number by the greatest.
#[test]
fn numbers_at_the_ends_of_the_range(rt: HostRuntime) {
    let all = Part { at: 0, count: 5 };
    let middle = Part { at: 1, count: 3 };
    let third = Part { at: 2, count: 1 };
    let none = Part { at: 0, count: 0 };
    let rows = [
        (
            wrapped_by(Kernel::Sum, third, all, none, 0),
            [MAX, MIN, MIN, 1, MAX],
        ),
        (
            wrapped_by(Kernel::Least, third, all, none, 0),
            [MAX, MIN, MIN, 1, MAX],
        ),
        (
            wrapped_by(Kernel::Greatest, third, all, none, 0),
            [MAX, MIN, MAX, 1, MAX],
        ),
        (
            wrapped_by(Kernel::Ramp, middle, none, none, MAX),
            [MAX, MAX, -2, MAX - 2, MAX],
        ),
    ];
    for (found, want) in rows {
        assert_eq!(rt; found, want);
    }
}

const MAX: i64 = i64::MAX;

const MIN: i64 = i64::MIN;

// A quarter of the least number.
const QUARTER: i64 = -(1 << 61);

// What a kernel on these parts of five small cells makes of them. A ramp goes up by what it begins with.
fn left_by(kernel: Kernel, dst: Part, left: Part, right: Part, number: i64) -> [i64; 5]
    requires dst { dst.at + dst.count ≤ 5 }
    requires left { left.at + left.count ≤ 5 }
    requires right { right.at + right.count ≤ 5 }
    requires takes { TakesCells kernel dst.count left.count right.count number }
{
    run_on([1, -2, 4, -8, 16], kernel, dst, left, right, number)
}

// What it makes of cells at the ends of the range.
fn wrapped_by(kernel: Kernel, dst: Part, left: Part, right: Part, number: i64) -> [i64; 5]
    requires dst { dst.at + dst.count ≤ 5 }
    requires left { left.at + left.count ≤ 5 }
    requires right { right.at + right.count ≤ 5 }
    requires takes { TakesCells kernel dst.count left.count right.count number }
{
    run_on([MAX, MIN, 1, 1, MAX], kernel, dst, left, right, number)
}

// The cells after a kernel has run on parts of them.
fn run_on(
    cells: [i64; 5],
    kernel: Kernel,
    dst: Part,
    left: Part,
    right: Part,
    number: i64,
) -> [i64; 5]
    requires dst { dst.at + dst.count ≤ 5 }
    requires left { left.at + left.count ≤ 5 }
    requires right { right.at + right.count ≤ 5 }
    requires takes { TakesCells kernel dst.count left.count right.count number }
{
    let mut copy = cells;
    let mut scratch = [0; 5];
    let placed = Placed {
        kernel,
        dst,
        left,
        right,
        value: number,
        step: number,
    };
    run_placed(&mut copy, &mut scratch, &placed);
    copy
}

// Runs a task with local operations alone.
fn run(
    rt: &impl Abort,
    alloc: Global,
    program: &Program,
    task: TaskNo,
    memory: &mut [i64],
) -> Result<(), Fail>
    requires well_formed { WellFormed program.now }
    requires task { task.0 < length program.now.tasks.items }
    requires bodies { All (λ (def : TaskDef). 0 < length def.body.items) program.now.tasks.items }
    requires memory { length memory.old ≡ memory_len program.now }
{
    let mut held = TaskRec::make(alloc, program, task)?;
    held.load(program, memory);
    held.go(program, Phase::At(0));
    assert_eq!(rt; held.at(program), At::Local);
    held.run_local(program);
    assert_eq!(rt; held.at(program), At::Ended);
    held.save(program, memory);
    Ok(())
}

// One rank with one array of four cells, and three tasks.
fn sample(alloc: Global) -> Result<Program, Fail>
    ensures well_formed { IfOk result (λ program. WellFormed program) }
    ensures tasks { IfOk result (λ program. length program.tasks.items ≡ 3) }
    ensures cells { IfOk result (λ program. memory_len program ≡ 4) }
    ensures bodies { IfOk result (λ program. All (λ (def : TaskDef). 0 < length def.body.items) program.tasks.items) }
    ensures sends { IfOk result (λ program. IsAtCall (def_of program 2) (phase.At 0)) }
    ensures declared { IfOk result (λ program. IsDeclared (def_of program 2).accesses.items (record { array = 0; from = 1; to = 4 })) }
{
    let first = task_of(alloc, vec![in alloc; ramp()]?)?;
    let second = task_of(alloc, vec![in alloc; shared_copy(), fill_of_no_cell()]?)?;
    let third = task_of(alloc, vec![in alloc; send()]?)?;
    let program = program_of(alloc, vec![in alloc; first, second, third]?)?;
    Ok(program)
}

// The program of these tasks, over one rank with one array of four cells.
fn program_of(alloc: Global, tasks: Vec<TaskDef>) -> Result<Program, Fail>
    ensures ranks { IfOk result (λ program. program.ranks ≡ 1) }
    ensures eager { IfOk result (λ program. program.eager ≡ 0) }
    ensures comms { IfOk result (λ program. program.comms ≡ 1) }
    ensures names { IfOk result (λ program. array_count program ≡ 1) }
    ensures lens { IfOk result (λ program. program.lens.items ≡ 4 ∷ []) }
    ensures starts { IfOk result (λ program. program.starts.items ≡ starts_from 0 program.lens.items) }
    ensures shows { IfOk result (λ program. program.shows.items ≡ []) }
    ensures tasks { IfOk result (λ program. program.tasks.items ≡ tasks.items) }
{
    let lens = Lens::from_vec(vec![in alloc; 4_u32]?);
    let starts = starts_of(alloc, lens.as_slice())?;
    Ok(Program {
        ranks: 1,
        eager: 0,
        comms: 1,
        names: Names::from_vec(vec![in alloc; Name::from_slice(alloc, b"a")?]?),
        lens,
        starts,
        shows: Shows::empty(alloc),
        tasks: Tasks::from_vec(tasks),
    })
}

// A ramp over both regions.
fn ramp() -> Op
    ensures { result ≡ op.Compute kernel.Ramp (record { array = 0; from = 1; to = 3 }) None None (pos 5) (pos 1) }
{
    Op::Compute {
        kernel: Kernel::Ramp,
        dst: cells_of_a(1, 3),
        left: None,
        right: None,
        value: 5,
        step: 1,
    }
}

// A copy onto cells that it shares.
fn shared_copy() -> Op
    ensures { result ≡ op.Compute kernel.Copy (record { array = 0; from = 1; to = 3 }) (Some (record { array = 0; from = 0; to = 2 })) None (pos 0) (pos 0) }
{
    Op::Compute {
        kernel: Kernel::Copy,
        dst: cells_of_a(1, 3),
        left: Some(cells_of_a(0, 2)),
        right: None,
        value: 0,
        step: 0,
    }
}

// No cell of an array that the rank lacks.
fn fill_of_no_cell() -> Op
    ensures { result ≡ op.Compute kernel.Fill (record { array = 9; from = 3; to = 3 }) None None (pos 7) (pos 0) }
{
    Op::Compute {
        kernel: Kernel::Fill,
        dst: Span {
            array: 9,
            from: 3,
            to: 3,
        },
        left: None,
        right: None,
        value: 7,
        step: 0,
    }
}

// A send of cells of both regions, to nobody.
fn send() -> Op
    ensures { result ≡ op.Post how.Send (record { array = 0; from = 1; to = 3 }) peer.Null (tag.Tag 0) 0 None }
{
    Op::Post {
        how: How::Send,
        span: cells_of_a(1, 3),
        peer: Peer::Null,
        tag: TagSel::Tag(0),
        comm: 0,
        status: None,
    }
}

// Cells of the one array.
fn cells_of_a(from: u32, to: u32) -> Span
    ensures { result ≡ record { array = 0; from = from; to = to } }
{
    Span { array: 0, from, to }
}

// A task of rank 0 that declares the halves of the array, the second one first.
fn task_of(alloc: Global, body: Vec<Op>) -> Result<TaskDef, Fail>
    ensures rank { IfOk result (λ def. def.rank ≡ 0) }
    ensures epoch { IfOk result (λ def. def.epoch ≡ 0) }
    ensures accesses { IfOk result (λ def. def.accesses.items
        ≡ record { mode = mode.Out; span = record { array = 0; from = 2; to = 4 } }
        ∷ record { mode = mode.Out; span = record { array = 0; from = 0; to = 2 } } ∷ []) }
    ensures body { IfOk result (λ def. def.body.items ≡ body.items) }
{
    let second = Access {
        mode: Mode::Out,
        span: cells_of_a(2, 4),
    };
    let first = Access {
        mode: Mode::Out,
        span: cells_of_a(0, 2),
    };
    Ok(TaskDef {
        rank: 0,
        line: 0,
        epoch: 0,
        accesses: Accesses::from_vec(vec![in alloc; second, first]?),
        body: Body::from_vec(body),
    })
}

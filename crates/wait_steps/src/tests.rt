//! One rank, one array of ten cells, and a task that declares them: what waits on null handles tell and store, and where statuses lie.

ghost use Rattle.std.specs.Prelude.{◌≡◌, [], ◌∷◌, length, IfOk};
ghost use Rattle.rt_base.specs.declared.data.Mode.TheVariants as mode;
ghost use Rattle.rt_base.specs.Layout.{array_count, memory_len, starts_from};
ghost use Rattle.rt_base.specs.WellFormed.{WellFormed, IsDeclared};
ghost use Rattle.task_local.specs.Standing.{def_of};

use crate::{open_among, store_statuses, take_each, tell_each};
use match_engine::Engine;
use rt_base::{
    Access, Accesses, Body, Handle, Lens, Mode, Name, Names, Program, Shows, Span, Status, TaskDef,
    TaskNo, Tasks, starts_of,
};
use std::alloc::Global;
use std::test::Fail;
use task_local::TaskRec;

// Two statuses in a row: source, tag, count and error of the one, and behind them those of the other.
#[test]
fn statuses_lie_one_behind_another(rt: HostRuntime) -> Result<(), Fail> {
    let alloc = rt.alloc();
    let program = sample(alloc)?;
    let mut memory = [9; 10];
    let mut held = TaskRec::make(alloc, &program, TaskNo(0))?;
    held.load(&program, &memory);
    let statuses = [status(3, 5, 2, 1), status(-2, -1, 0, 0)];
    store_statuses(&mut held, &program, Some(inner()), &statuses);
    held.save(&program, &mut memory);
    assert_eq!(rt; memory, [9, 3, 5, 2, 1, -2, -1, 0, 0, 9]);
    Ok(())
}

// A wait on two null handles waits for nothing and tells two empty statuses (MPI 4.0, 3.7.3).
#[test]
fn null_handles_tell_empty_statuses(rt: HostRuntime) -> Result<(), Fail> {
    let alloc = rt.alloc();
    let program = sample(alloc)?;
    let engine = Engine::build(alloc, &program)?;
    let handles = [Handle::Null, Handle::Null];
    let mut told = Vec::with_capacity(alloc, 2)?;
    assert_eq!(rt; open_among(&engine, TaskNo(0), &handles), 0);
    tell_each(&mut told, &engine, &program, TaskNo(0), &handles);
    assert_eq!(rt;
        told.as_slice(),
        [status(-1, -1, 0, 0), status(-1, -1, 0, 0)].as_slice()
    );
    Ok(())
}

// A release stores the statuses of two null handles, each at its own place.
#[test]
fn a_release_stores_the_statuses_of_null_handles(rt: HostRuntime) -> Result<(), Fail> {
    let alloc = rt.alloc();
    let program = sample(alloc)?;
    let engine = Engine::build(alloc, &program)?;
    let mut memory = [9; 10];
    let mut held = TaskRec::make(alloc, &program, TaskNo(0))?;
    held.load(&program, &memory);
    take_each(
        &mut held,
        &program,
        &engine,
        Some(inner()),
        &[Handle::Null, Handle::Null],
    );
    held.save(&program, &mut memory);
    assert_eq!(rt; memory, [9, -1, -1, 0, 0, -1, -1, 0, 0, 9]);
    Ok(())
}

// A status with these parts.
fn status(source: i32, tag: i32, count: u32, error: u8) -> Status {
    Status {
        source,
        tag,
        count,
        error,
    }
}

// All cells but the first and the last.
fn inner() -> Span
    ensures { result ≡ record { array = 0; from = 1; to = 9 } }
{
    Span {
        array: 0,
        from: 1,
        to: 9,
    }
}

// One rank with one array of ten cells, and a task without an operation that declares them all.
fn sample(alloc: Global) -> Result<Program, Fail>
    ensures well_formed { IfOk result (λ program. WellFormed program) }
    ensures tasks { IfOk result (λ program. length program.tasks.items ≡ 1) }
    ensures cells { IfOk result (λ program. memory_len program ≡ 10) }
    ensures declared { IfOk result (λ program. IsDeclared (def_of program 0).accesses.items (record { array = 0; from = 1; to = 9 })) }
{
    let task = whole_task(alloc)?;
    let program = program_of(alloc, task)?;
    Ok(program)
}

// The program of this task, over one rank with one array of ten cells.
fn program_of(alloc: Global, task: TaskDef) -> Result<Program, Fail>
    ensures ranks { IfOk result (λ program. program.ranks ≡ 1) }
    ensures eager { IfOk result (λ program. program.eager ≡ 0) }
    ensures comms { IfOk result (λ program. program.comms ≡ 1) }
    ensures names { IfOk result (λ program. array_count program ≡ 1) }
    ensures lens { IfOk result (λ program. program.lens.items ≡ 10 ∷ []) }
    ensures starts { IfOk result (λ program. program.starts.items ≡ starts_from 0 program.lens.items) }
    ensures shows { IfOk result (λ program. program.shows.items ≡ []) }
    ensures tasks { IfOk result (λ program. program.tasks.items ≡ task ∷ []) }
{
    let lens = Lens::from_vec(vec![in alloc; 10_u32]?);
    let starts = starts_of(alloc, lens.as_slice())?;
    Ok(Program {
        ranks: 1,
        eager: 0,
        comms: 1,
        names: Names::from_vec(vec![in alloc; Name::from_slice(alloc, b"a")?]?),
        lens,
        starts,
        shows: Shows::empty(alloc),
        tasks: Tasks::from_vec(vec![in alloc; task]?),
    })
}

// The task of rank 0 that declares the array.
fn whole_task(alloc: Global) -> Result<TaskDef, Fail>
    ensures rank { IfOk result (λ def. def.rank ≡ 0) }
    ensures accesses { IfOk result (λ def. def.accesses.items ≡ record { mode = mode.Inout; span = record { array = 0; from = 0; to = 10 } } ∷ []) }
    ensures body { IfOk result (λ def. def.body.items ≡ []) }
{
    let all = Access {
        mode: Mode::Inout,
        span: Span {
            array: 0,
            from: 0,
            to: 10,
        },
    };
    Ok(TaskDef {
        rank: 0,
        line: 0,
        epoch: 0,
        accesses: Accesses::from_vec(vec![in alloc; all]?),
        body: Body::empty(alloc),
    })
}

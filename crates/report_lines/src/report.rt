//! The report of a run.
ghost use Rattle.std.specs.Prelude.{◌≡◌, ◌++◌, [], ◌<◌, ◌≤◌, length, take, drop, codes, if◌then◌else◌};
ghost use Rattle.std.specs.Fmt.{decimal};
ghost use Rattle.rt_base.specs.Layout.{array_count};
ghost use Rattle.rt_base.specs.State.{is_released};
ghost use Rattle.rt_base.specs.WellFormed.{WellFormed};
ghost use Rattle.rt_base.specs.Outside.{Writes, HasWriteCause};
ghost use Rattle.task_machine.specs.Legal.{final, phases_of};
ghost use Rattle.report_lines.specs.Lines.{line, numbers_text, trace_text};
ghost use Rattle.report_lines.specs.Report.{shown_line, rank_lines, shown_lines, place_text, task_line, task_lines, is_finished, end_text, report};
ghost use Rattle.report_lines.specs.Writing.{output, Puts};

use crate::buffer::{Buffer, put, put_bytes, put_decimal, put_numbers};
use crate::trace::put_trace;
use rt_base::{ByteSink, History, Phase, Program, Put, TaskDef};

// Puts the line of one array of a rank.
fn put_array<K: ByteSink>(out: &mut K, buffer: &mut Buffer, rank: u16, name: &[u8], cells: &[i64])
    ensures { Puts (output (K.written out.old) (K.faults out.old) buffer.old) (output (K.written out.new) (K.faults out.new) buffer.new)
        (line (decimal rank ++ codes " " ++ name.now ++ numbers_text cells.now)) }
{
    put_decimal(out, buffer, u32::from(rank));
    put(out, buffer, " ");
    put_bytes(out, buffer, name);
    put_numbers(out, buffer, cells);
    buffer.put_byte(out, b'\n');
}

// Puts where the task stands.
fn put_place<K: ByteSink>(out: &mut K, buffer: &mut Buffer, at: Phase)
    ensures { Puts (output (K.written out.old) (K.faults out.old) buffer.old) (output (K.written out.new) (K.faults out.new) buffer.new)
        (place_text at) }
{
    match at {
        Phase::Waiting => put(out, buffer, "waiting"),
        Phase::At(op) => {
            put(out, buffer, "at ");
            put_decimal(out, buffer, op)
        }
        Phase::In(op) => {
            put(out, buffer, "in ");
            put_decimal(out, buffer, op)
        }
        Phase::Ended => put(out, buffer, "ended"),
        Phase::Returned => put(out, buffer, "returned"),
        Phase::Released => put(out, buffer, "released"),
    }
}

// Whether the task has let go of its accesses.
fn is_released(at: Phase) -> bool
    ensures { result ≡ is_released at }
{
    match at {
        Phase::Waiting => false,
        Phase::At(_) => false,
        Phase::In(_) => false,
        Phase::Ended => false,
        Phase::Returned => false,
        Phase::Released => true,
    }
}

// Puts the number of a task, its rank, its line, and the blank behind them.
fn put_task_head<K: ByteSink>(out: &mut K, buffer: &mut Buffer, number: u32, task: &TaskDef)
    ensures { Puts (output (K.written out.old) (K.faults out.old) buffer.old) (output (K.written out.new) (K.faults out.new) buffer.new)
        (codes "task " ++ decimal number ++ codes " rank " ++ decimal task.now.rank ++ codes " line " ++ decimal task.now.line ++ codes " ") }
{
    put(out, buffer, "task ");
    put_decimal(out, buffer, number);
    put(out, buffer, " rank ");
    put_decimal(out, buffer, u32::from(task.rank));
    put(out, buffer, " line ");
    put_decimal(out, buffer, task.line);
    put(out, buffer, " ");
}

// Puts the line of a task, where it is not released.
fn put_task<K: ByteSink>(out: &mut K, buffer: &mut Buffer, number: u32, task: &TaskDef, at: Phase)
    ensures { Puts (output (K.written out.old) (K.faults out.old) buffer.old) (output (K.written out.new) (K.faults out.new) buffer.new)
        (task_line number task.now at) }
{
    if is_released(at) {
        return;
    }
    put_task_head(out, buffer, number, task);
    put_place(out, buffer, at);
    buffer.put_byte(out, b'\n');
}

// Puts the lines of all tasks that are not released.
fn put_tasks<K: ByteSink>(out: &mut K, buffer: &mut Buffer, tasks: &[TaskDef], phases: &[Phase])
    requires { length tasks.now ≤ 65536 }
    ensures { Puts (output (K.written out.old) (K.faults out.old) buffer.old) (output (K.written out.new) (K.faults out.new) buffer.new)
        (task_lines 0 tasks.now phases.now) }
{
    for (number, task) in tasks.iter().enumerate() {
        match phases.get(number) {
            Some(at) => put_task(out, buffer, number as u32, task, *at),
            None => return,
        }
    }
}

/// Whether all tasks are released.
pub fn all_released(phases: &[Phase]) -> bool
    ensures { result ≡ is_finished phases.now }
{
    phases.iter().all(|at| is_released(*at))
}

// So many cells from this place on, as far as there are any.
fn cells_from(memory: &[i64], from: usize, len: usize) -> &[i64]
    ensures { result.now ≡ take len (drop from memory.now) }
{
    let from = from.min(memory.len());
    let len = len.min(memory.len() - from);
    &memory[from..from + len]
}

// Puts the line of one shown array of a rank.
fn put_shown<K: ByteSink>(
    out: &mut K,
    buffer: &mut Buffer,
    program: &Program,
    memory: &[i64],
    rank: u16,
    array: u16,
)
    requires program { WellFormed program.now }
    requires rank { rank < program.now.ranks }
    requires array { array < array_count program.now }
    ensures { Puts (output (K.written out.old) (K.faults out.old) buffer.old) (output (K.written out.new) (K.faults out.new) buffer.new)
        (shown_line program.now memory.now rank array) }
{
    let place = usize::from(rank) * program.names.len() + usize::from(array);
    let len = program.lens.as_slice()[place];
    let from = program.start_of(rank, array);
    let cells = cells_from(memory, from as usize, len as usize);
    let name = program.names.as_slice()[usize::from(array)].as_slice();
    put_array(out, buffer, rank, name, cells);
}

// Puts the lines of all shown arrays of a rank.
fn put_rank<K: ByteSink>(
    out: &mut K,
    buffer: &mut Buffer,
    program: &Program,
    memory: &[i64],
    rank: u16,
)
    requires program { WellFormed program.now }
    requires rank { rank < program.now.ranks }
    ensures { Puts (output (K.written out.old) (K.faults out.old) buffer.old) (output (K.written out.new) (K.faults out.new) buffer.new)
        (rank_lines program.now memory.now rank) }
{
    for array in program.shows.as_slice() {
        put_shown(out, buffer, program, memory, rank, *array);
    }
}

// Puts the lines of all ranks.
fn put_ranks<K: ByteSink>(out: &mut K, buffer: &mut Buffer, program: &Program, memory: &[i64])
    requires { WellFormed program.now }
    ensures { Puts (output (K.written out.old) (K.faults out.old) buffer.old) (output (K.written out.new) (K.faults out.new) buffer.new)
        (shown_lines program.now memory.now) }
{
    for rank in 0..program.ranks {
        put_rank(out, buffer, program, memory, rank);
    }
}

// Puts the report without a trace.
fn put_end<K: ByteSink>(
    out: &mut K,
    buffer: &mut Buffer,
    program: &Program,
    memory: &[i64],
    phases: &[Phase],
)
    requires { WellFormed program.now }
    ensures { Puts (output (K.written out.old) (K.faults out.old) buffer.old) (output (K.written out.new) (K.faults out.new) buffer.new)
        (end_text program.now memory.now phases.now) }
{
    if all_released(phases) {
        put(out, buffer, "finished\n");
        put_ranks(out, buffer, program, memory);
    } else {
        put(out, buffer, "stuck\n");
        put_ranks(out, buffer, program, memory);
        put_tasks(out, buffer, program.tasks.as_slice(), phases);
    }
}

// Puts the trace where it is asked for.
fn put_asked<K: ByteSink>(
    out: &mut K,
    buffer: &mut Buffer,
    program: &Program,
    workers: u16,
    history: &History,
    trace: bool,
)
    ensures { Puts (output (K.written out.old) (K.faults out.old) buffer.old) (output (K.written out.new) (K.faults out.new) buffer.new)
        (if trace then trace_text program.now workers history.now.entries.items history.now.statuses.items else []) }
{
    if !trace {
        return;
    }
    put_trace(out, buffer, program, workers, history);
}

/// Writes the report of the history, with its trace where `trace` asks for it, in pieces of 8,192 bytes, of which the last may be shorter. The cells
/// and the phases are those of the state after the history. Takes no memory. `Failed` where a write failed: then nothing more is written, and what
/// was written is a front of the report.
pub fn write_report<K: ByteSink>(
    program: &Program,
    workers: u16,
    history: &History,
    cells: &[i64],
    phases: &[Phase],
    trace: bool,
    out: &mut K,
) -> Put
    requires well_formed { WellFormed program.now }
    requires cells { cells.now ≡ (final program.now history.now.entries.items).memory }
    requires phases { phases.now ≡ phases_of (final program.now history.now.entries.items).tasks }

    // The whole report, or a front of it.
    ensures bytes { Writes (K.written out.old) (K.written out.new) result
        (report program.now workers history.now.entries.items history.now.statuses.items trace) }

    // The sink's count of faults never falls, and rose where a write failed.
    ensures cause { HasWriteCause (K.faults out.old) (K.faults out.new) result }
{
    let mut buffer = Buffer::new();
    put_end(out, &mut buffer, program, cells, phases);
    put_asked(out, &mut buffer, program, workers, history, trace);
    buffer.finish(out)
}

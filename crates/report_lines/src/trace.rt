//! The trace of a history: a header, and a line for each entry.
ghost use Rattle.std.specs.Prelude.{◌≡◌, ◌++◌, [], ◌∷◌, pos, take, drop, length};
ghost use Rattle.std.specs.List.{flat_map};
ghost use Rattle.report_lines.specs.Lines.{line, numbers_text, status_numbers, entry_text, told_by, entry_lines, header_text, trace_text};
ghost use Rattle.report_lines.specs.Writing.{output, Puts};

use crate::buffer::{Buffer, put, put_numbers};
use rt_base::{ByteSink, Entry, History, Program, Status};

// The version of the format.
const VERSION: i64 = 1;

// So many statuses from this place on, as far as there are any.
fn part(statuses: &[Status], from: u32, count: u32) -> &[Status]
    ensures { result.now ≡ take count (drop from statuses.now) }
{
    let from = statuses.len().min(from as usize);
    let count = (statuses.len() - from).min(count as usize);
    &statuses[from..from + count]
}

// The statuses that the entry tells.
fn told_by(statuses: &[Status], step: Entry) -> &[Status]
    ensures { result.now ≡ told_by statuses.now step }
{
    match step {
        Entry::Leave { from, count, .. } => part(statuses, from, count),
        Entry::Release { from, count, .. } => part(statuses, from, count),
        Entry::Start { .. } => &statuses[..0],
        Entry::Call { .. } => &statuses[..0],
        Entry::Return { .. } => &statuses[..0],
        Entry::Poll { .. } => &statuses[..0],
    }
}

// Puts the four numbers of a status.
fn put_status<K: ByteSink>(out: &mut K, buffer: &mut Buffer, status: Status)
    ensures { Puts (output (K.written out.old) (K.faults out.old) buffer.old) (output (K.written out.new) (K.faults out.new) buffer.new)
        (numbers_text (status_numbers status)) }
{
    let count = i64::from(status.count);
    let error = i64::from(status.error);
    put_numbers(
        out,
        buffer,
        &[
            i64::from(status.source),
            i64::from(status.tag),
            count,
            error,
        ],
    );
}

// Puts the numbers of all these statuses.
fn put_statuses<K: ByteSink>(out: &mut K, buffer: &mut Buffer, statuses: &[Status])
    ensures { Puts (output (K.written out.old) (K.faults out.old) buffer.old) (output (K.written out.new) (K.faults out.new) buffer.new)
        (numbers_text (flat_map status_numbers statuses.now)) }
{
    for status in statuses {
        put_status(out, buffer, *status);
    }
}

// Puts a word, numbers, and the numbers of statuses.
fn put_words<K: ByteSink>(
    out: &mut K,
    buffer: &mut Buffer,
    word: &str,
    numbers: &[i64],
    statuses: &[Status],
)
    ensures { Puts (output (K.written out.old) (K.faults out.old) buffer.old) (output (K.written out.new) (K.faults out.new) buffer.new)
        (word.now ++ numbers_text (numbers.now ++ flat_map status_numbers statuses.now)) }
{
    put(out, buffer, word);
    put_numbers(out, buffer, numbers);
    put_statuses(out, buffer, statuses);
}

// Puts the text of an entry that tells these statuses.
fn put_entry<K: ByteSink>(out: &mut K, buffer: &mut Buffer, step: Entry, told: &[Status])
    ensures { Puts (output (K.written out.old) (K.faults out.old) buffer.old) (output (K.written out.new) (K.faults out.new) buffer.new)
        (entry_text step told.now) }
{
    let none = &told[..0];
    match step {
        Entry::Start { task } => put_words(out, buffer, "start", &[i64::from(task.0)], none),
        Entry::Call { task, op, pending } => {
            let numbers = [i64::from(task.0), i64::from(op), i64::from(pending)];
            put_words(out, buffer, "call", &numbers, none)
        }
        Entry::Leave { task, op, .. } => {
            put_words(
                out,
                buffer,
                "leave",
                &[i64::from(task.0), i64::from(op)],
                told,
            )
        }
        Entry::Return { task } => put_words(out, buffer, "return", &[i64::from(task.0)], none),
        Entry::Release { task, .. } => {
            put_words(out, buffer, "release", &[i64::from(task.0)], told)
        }
        Entry::Poll { poller, req } => {
            let numbers = [i64::from(poller), i64::from(req.task.0), i64::from(req.nth)];
            put_words(out, buffer, "poll", &numbers, none)
        }
    }
}

// Puts the line of an entry of a history with these statuses.
fn put_line<K: ByteSink>(out: &mut K, buffer: &mut Buffer, step: Entry, statuses: &[Status])
    ensures { Puts (output (K.written out.old) (K.faults out.old) buffer.old) (output (K.written out.new) (K.faults out.new) buffer.new)
        (line (entry_text step (told_by statuses.now step))) }
{
    put_entry(out, buffer, step, told_by(statuses, step));
    buffer.put_byte(out, b'\n');
}

// Puts the lines of all these entries.
fn put_lines<K: ByteSink>(out: &mut K, buffer: &mut Buffer, entries: &[Entry], statuses: &[Status])
    ensures { Puts (output (K.written out.old) (K.faults out.old) buffer.old) (output (K.written out.new) (K.faults out.new) buffer.new)
        (flat_map line (entry_lines entries.now statuses.now)) }
{
    for step in entries {
        put_line(out, buffer, *step, statuses);
    }
}

// Puts the numbers of the header.
fn put_header_numbers<K: ByteSink>(
    out: &mut K,
    buffer: &mut Buffer,
    ranks: u16,
    workers: u16,
    eager: u32,
)
    ensures { Puts (output (K.written out.old) (K.faults out.old) buffer.old) (output (K.written out.new) (K.faults out.new) buffer.new)
        (numbers_text (pos 1 ∷ pos ranks ∷ pos workers ∷ pos eager ∷ [])) }
{
    let numbers = [
        VERSION,
        i64::from(ranks),
        i64::from(workers),
        i64::from(eager),
    ];
    put_numbers(out, buffer, &numbers);
}

// Puts the header's line.
fn put_header<K: ByteSink>(out: &mut K, buffer: &mut Buffer, ranks: u16, workers: u16, eager: u32)
    ensures { Puts (output (K.written out.old) (K.faults out.old) buffer.old) (output (K.written out.new) (K.faults out.new) buffer.new)
        (line (header_text 1 ranks workers eager)) }
{
    put(out, buffer, "%trace");
    put_header_numbers(out, buffer, ranks, workers, eager);
    buffer.put_byte(out, b'\n');
}

/// Puts the trace of the history.
pub fn put_trace<K: ByteSink>(
    out: &mut K,
    buffer: &mut Buffer,
    program: &Program,
    workers: u16,
    history: &History,
)
    ensures { Puts (output (K.written out.old) (K.faults out.old) buffer.old) (output (K.written out.new) (K.faults out.new) buffer.new)
        (trace_text program.now workers history.now.entries.items history.now.statuses.items) }
{
    put_header(out, buffer, program.ranks, workers, program.eager);
    put_lines(
        out,
        buffer,
        history.entries.as_slice(),
        history.statuses.as_slice(),
    );
}

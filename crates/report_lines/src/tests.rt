//! Worked lines, and pieces that are cut or fail.
use crate::buffer::{Buffer, put_bytes, put_number};
use crate::trace::put_trace;
use rt_base::{
    ByteSink, Entries, Entry, FakeSink, History, Lens, MemSink, Names, Program, Put, ReqNo, Shows,
    Starts, Status, Statuses, TaskNo, Tasks,
};
use std::alloc::{AllocError, Global};
use std::test::Fail;

// A program without a task.
fn bare(alloc: Global, ranks: u16, eager: u32) -> Program {
    Program {
        ranks,
        eager,
        comms: 1,
        names: Names::empty(alloc),
        lens: Lens::empty(alloc),
        starts: Starts::empty(alloc),
        shows: Shows::empty(alloc),
        tasks: Tasks::empty(alloc),
    }
}

fn history_of(
    alloc: Global,
    entries: &[Entry],
    statuses: &[Status],
) -> Result<History, AllocError> {
    Ok(History {
        entries: Entries::from_vec(entries.to_vec(alloc)?),
        statuses: Statuses::from_vec(statuses.to_vec(alloc)?),
    })
}

fn status(source: i32, tag: i32, count: u32) -> Status {
    Status {
        source,
        tag,
        count,
        error: 0,
    }
}

// Puts the trace of the history for one worker, and nothing else.
fn trace_to<K: ByteSink>(out: &mut K, program: &Program, history: &History) -> Put {
    let mut buffer = Buffer::new();
    put_trace(out, &mut buffer, program, 1, history);
    buffer.finish(out)
}

// A send of three cells to a receive that stands before it.
#[test]
fn each_entry_has_a_line(rt: HostRuntime) -> Result<(), Fail> {
    let alloc = rt.alloc();
    let (first, second) = (TaskNo(1), TaskNo(2));
    let entries = [
        Entry::Start { task: second },
        Entry::Call {
            task: second,
            op: 0,
            pending: 1,
        },
        Entry::Start { task: first },
        Entry::Leave {
            task: first,
            op: 0,
            from: 0,
            count: 0,
        },
        Entry::Poll {
            poller: 0,
            req: ReqNo {
                task: second,
                nth: 0,
            },
        },
        Entry::Leave {
            task: second,
            op: 0,
            from: 0,
            count: 1,
        },
        Entry::Return { task: second },
        Entry::Release {
            task: second,
            from: 1,
            count: 0,
        },
    ];
    let history = history_of(alloc, &entries, &[status(0, 9, 3)])?;
    let mut out = MemSink::new(alloc, 200)?;
    let put = trace_to(&mut out, &bare(alloc, 2, 0), &history);
    assert_eq!(rt; put, Put::All);
    assert_eq!(rt;
        out.bytes(),
        b"%trace 1 2 1 0\nstart 2\ncall 2 0 1\nstart 1\nleave 1 0\npoll 0 2 0\nleave 2 0 0 9 3 0\nreturn 2\nrelease 2\n".as_slice()
    );
    Ok(())
}

// The first status is one of an entry before. Numbers below zero have a minus sign.
#[test]
fn a_release_tells_its_own_statuses(rt: HostRuntime) -> Result<(), Fail> {
    let alloc = rt.alloc();
    let entries = [Entry::Release {
        task: TaskNo(0),
        from: 1,
        count: 3,
    }];
    let statuses = [
        status(7, 7, 7),
        status(0, 1, 1),
        status(0, 2, 1),
        status(-1, -1, 0),
    ];
    let history = history_of(alloc, &entries, &statuses)?;
    let mut out = MemSink::new(alloc, 200)?;
    let put = trace_to(&mut out, &bare(alloc, 1, 64), &history);
    assert_eq!(rt; put, Put::All);
    assert_eq!(rt;
        out.bytes(),
        b"%trace 1 1 1 64\nrelease 0 0 1 1 0 0 2 1 0 -1 -1 0 0\n".as_slice()
    );
    Ok(())
}

// How many bytes a text has, which write fails, what the call answers, and how many bytes were written. A failed write takes five.
#[test]
fn a_text_goes_out_in_pieces(rt: HostRuntime) -> Result<(), Fail> {
    let alloc = rt.alloc();
    let rows: [(usize, u32, Put, usize); 9] = [
        (0, 0, Put::All, 0),
        (8_191, 0, Put::Failed, 5),
        (8_191, 1, Put::All, 8_191),
        (8_192, 0, Put::Failed, 5),
        (8_192, 1, Put::All, 8_192),
        (8_198, 1, Put::Failed, 8_197),
        (8_198, 2, Put::All, 8_198),
        (30_000, 0, Put::Failed, 5),
        (30_000, 2, Put::Failed, 16_389),
    ];
    for (len, call, answer, written) in rows {
        let text = vec![in alloc; b'x'; len]?;
        let mut out = FakeSink::new(alloc, 40_000, 5, [call].to_vec(alloc)?)?;
        let mut buffer = Buffer::new();
        put_bytes(&mut out, &mut buffer, &text);
        assert_eq!(rt; buffer.finish(&mut out), answer);
        assert_eq!(rt; out.bytes().len(), written);
    }
    Ok(())
}

// The least number has 20 digits and signs, of which six are in the first piece.
#[test]
fn a_number_is_cut_by_the_end_of_a_piece(rt: HostRuntime) -> Result<(), Fail> {
    let alloc = rt.alloc();
    let blanks = vec![in alloc; b' '; 8_185]?;
    let mut out = FakeSink::new(alloc, 9_000, 0, [1].to_vec(alloc)?)?;
    let mut buffer = Buffer::new();
    put_bytes(&mut out, &mut buffer, &blanks);
    put_number(&mut out, &mut buffer, i64::MIN);
    assert_eq!(rt; buffer.finish(&mut out), Put::Failed);
    assert_eq!(rt; out.bytes().len(), 8_192);
    assert_eq!(rt; out.bytes().get(8_185..), Some(b" -92233".as_slice()));
    Ok(())
}

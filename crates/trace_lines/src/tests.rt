//! Worked lines, readable and unreadable.
use crate::{Header, ToldEntry, header_of, told_of, without_return};
use rt_base::{Entry, ReqNo, Status, TaskNo};
use std::alloc::{AllocError, Global};
use std::test::Fail;

// Whether the line tells this and nothing else, behind so many statuses.
fn tells(
    alloc: Global,
    line: &[u8],
    before: u32,
    step: Entry,
    statuses: &[Status],
) -> Result<bool, AllocError> {
    let told = told_of(alloc, line, before)?;
    match told {
        Some(
            ToldEntry {
                step: found,
                statuses: read,
            },
        ) => Ok(found == step && read.as_slice() == statuses),
        None => Ok(false),
    }
}

fn is_unreadable(alloc: Global, line: &[u8]) -> Result<bool, AllocError> {
    let told = told_of(alloc, line, 0)?;
    Ok(told.is_none())
}

#[test]
fn each_kind_of_line_is_read(rt: HostRuntime) -> Result<(), Fail> {
    let alloc = rt.alloc();
    let task = TaskNo(2);
    let call = Entry::Call {
        task,
        op: 0,
        pending: 1,
    };
    let poll = Entry::Poll {
        poller: 65_535,
        req: ReqNo { task, nth: 7 },
    };
    let start = tells(alloc, b"start 2", 3, Entry::Start { task }, &[])?;
    assert!(rt; start);
    let return_ = tells(alloc, b"return 2", 3, Entry::Return { task }, &[])?;
    assert!(rt; return_);
    let call = tells(alloc, b"call 2 0 1", 3, call, &[])?;
    assert!(rt; call);
    let poll = tells(alloc, b"poll 65535 2 7", 3, poll, &[])?;
    assert!(rt; poll);
    Ok(())
}

#[test]
fn statuses_are_read_in_order(rt: HostRuntime) -> Result<(), Fail> {
    let alloc = rt.alloc();
    let task = TaskNo(4_294_967_295);
    let first = Status {
        source: -2,
        tag: -1,
        count: 0,
        error: 0,
    };
    let second = Status {
        source: 1,
        tag: 9,
        count: 3,
        error: 255,
    };
    let leave = Entry::Leave {
        task,
        op: 5,
        from: 3,
        count: 2,
    };
    let release = Entry::Release {
        task,
        from: 3,
        count: 0,
    };
    let statuses = [first, second];
    let leave = tells(
        alloc,
        b"leave 4294967295 5 -2 -1 0 0 1 9 3 255",
        3,
        leave,
        &statuses,
    )?;
    assert!(rt; leave);
    let release = tells(alloc, b"release 4294967295", 3, release, &[])?;
    assert!(rt; release);
    Ok(())
}

#[test]
fn unreadable_lines_tell_nothing(rt: HostRuntime) -> Result<(), Fail> {
    let alloc = rt.alloc();
    let lines: [&[u8]; 18] = [
        b"",
        b"start",
        b"start ",
        b"start 00",
        b"start -0",
        b"start +1",
        b"start -1",
        b"start 4294967296",
        b"start 0 ",
        b" start 0",
        b"start  0",
        b"start\t0",
        b"start 0\r",
        b"start 0 0",
        b"started 0",
        b"poll 65536 0 0",
        b"leave 0 0 1 0 1",
        b"release 0 1 0 1 256",
    ];
    for line in lines {
        let unreadable = is_unreadable(alloc, line)?;
        assert!(rt; unreadable);
    }
    Ok(())
}

#[test]
fn one_return_is_taken_off(rt: HostRuntime) -> Result<(), Fail> {
    assert!(rt; without_return(b"start 0\r") == b"start 0".as_slice());
    assert!(rt; without_return(b"start 0\r\r") == b"start 0\r".as_slice());
    assert!(rt; without_return(b"\rstart 0") == b"\rstart 0".as_slice());
    assert!(rt; without_return(b"").is_empty());
    Ok(())
}

#[test]
fn a_header_has_its_ranges(rt: HostRuntime) -> Result<(), Fail> {
    let header = Header {
        version: 1,
        ranks: 64,
        workers: 1,
        eager: 16_777_216,
    };
    assert!(rt; header_of(b"%trace 1 64 1 16777216") == Some(header));
    let lines: [&[u8]; 9] = [
        b"%trace",
        b"%tracer 1 1 1 64",
        b"%trace 01 1 1 64",
        b"%trace 3 1 1 64",
        b"%trace 1 0 1 64",
        b"%trace 1 65 1 64",
        b"%trace 1 1 65 64",
        b"%trace 1 1 1 16777217",
        b"%trace 1 1 1 64 ",
    ];
    for line in lines {
        assert!(rt; header_of(line).is_none());
    }
    Ok(())
}

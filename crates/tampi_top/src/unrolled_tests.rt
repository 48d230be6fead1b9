//! What unrolling finds, through the top call: values, ranks, and the first fault or limit with its line.
use crate::tampi;
use crate::tests::is_told;
use rt_base::{MemSink, MemSource, OpenGate};
use std::alloc::{AllocError, Global};
use std::sync::Wait;
use std::test::Fail;
use std::thread::Threads;

// Whether a text that is run on so many ranks comes to this report.
fn is_reported<R: Threads + Wait + Sync>(
    rt: &R,
    alloc: Global,
    ranks: &str,
    text: &[u8],
    told: &[u8],
) -> Result<bool, AllocError> {
    let mut words = Vec::new(alloc);
    words.push(String::from_str(alloc, "run")?)?;
    words.push(String::from_str(alloc, "--ranks")?)?;
    words.push(String::from_str(alloc, ranks)?)?;
    let mut input = MemSource::new(text.to_vec(alloc)?);
    let mut out = MemSink::new(alloc, 200)?;
    let outcome = tampi(rt, alloc, words.as_slice(), &mut input, &mut out, &OpenGate);
    Ok(outcome.status == 0 && out.bytes() == told)
}

// Values at the ends of the range, turns of a `for`, names as before a task, and what differs from rank to rank.
#[test]
fn programs_are_unrolled(rt: HostRuntime) -> Result<(), Fail> {
    let alloc = rt.alloc();
    let rows: [(&str, &[u8], &[u8]); 8] = [
        (
            "1",
            b"let m = -9223372036854775807 - 1\narray u, m % -1 + -7 / 2 + 4 + -7 % 2\nshow u\n",
            b"finished\n0 u\n",
        ),
        (
            "1",
            b"let n = 3\nfor i = 0 .. n\nlet n = 9\nlet i = 7\nend\narray u, i - 4\nshow u\n",
            b"finished\n0 u 0 0 0\n",
        ),
        (
            "1",
            b"let i = 2\nfor i = 5 .. 5\nend\narray u, i\nshow u\n",
            b"finished\n0 u 0 0\n",
        ),
        (
            "1",
            b"let i = 1\ntask\ndo\nlet i = 5\nlet j = 2\nend\narray j, i\nshow j\n",
            b"finished\n0 j 0\n",
        ),
        (
            "2",
            b"array u, 1 + rank\nshow u\nif rank == 1\ntask\nout u[0..1]\ndo\nfill u[0..1], size\nend\nend\n",
            b"finished\n0 u 0\n1 u 2 0\n",
        ),
        (
            "1",
            b"array u, 4\nshow u\nfor i = 0 .. 4\ntask\nout u[i..i+1]\ndo\nfill u[i..i+1], i * i\nend\nend\n",
            b"finished\n0 u 0 1 4 9\n",
        ),
        (
            "2",
            b"comm c\narray u, 2\nshow u\ntask\ninout u[0..2]\ndo\nfill u[0..1], 4 + rank\nssend u[0..1], null, 0\nsend u[0..1], 1 - rank, 5 on c\nrecv u[1..2], any, any on c\nend\n",
            b"finished\n0 u 4 5\n1 u 5 4\n",
        ),
        (
            "1",
            b"array u, 3\nshow u\ntask\nout u[0..3]\ndo\nend\ntaskwait\ntaskwait\ntask\ninout u[0..3]\ndo\nramp u[0..3], 5, -2\nend\n",
            b"finished\n0 u 5 3 1\n",
        ),
    ];
    for (ranks, text, told) in rows {
        assert!(rt; is_reported(&rt, alloc, ranks, text, told)?, "{told:?}");
    }
    Ok(())
}

// Each kind at its line, and which of two comes first.
#[test]
fn the_first_fault_is_told(rt: HostRuntime) -> Result<(), Fail> {
    let alloc = rt.alloc();
    let rows: [(&[u8], &[u8]); 41] = [
        (b"show u\n", b"refused 1 UnknownName\n"),
        (b"array u, 1\nlet u = z\n", b"refused 2 NameTaken\n"),
        (b"let v = z\n", b"refused 1 UnknownName\n"),
        (
            b"array u, 1\nfor u = z .. 1\nend\n",
            b"refused 2 NameTaken\n",
        ),
        (b"array u, 1\nshow u\nshow u\n", b"refused 3 NameTaken\n"),
        (b"array u, 1 / 0\n", b"refused 1 DivisionByZero\n"),
        (b"let x = 1 / 0 + y\n", b"refused 1 DivisionByZero\n"),
        (b"let x = y + 1 / 0\n", b"refused 1 UnknownName\n"),
        (
            b"let x = 9223372036854775807 + 1\n",
            b"refused 1 Overflow\n",
        ),
        (
            b"let x = (-9223372036854775807 - 1) / -1\n",
            b"refused 1 Overflow\n",
        ),
        (b"array u, -1\n", b"refused 1 BadSize\n"),
        (
            b"array u, 2\ntask\nin u[2..1]\ndo\nend\n",
            b"refused 3 BadSpan\n",
        ),
        (
            b"array u, 2\ntask\nin u[0..1]\ndo\nsend u[0..1], 1, 40000\nend\n",
            b"refused 5 BadRank\n",
        ),
        (
            b"array u, 2\ntask\nin u[0..1]\ndo\nsend u[1..2], 0, -1\nend\n",
            b"refused 5 BadTag\n",
        ),
        (
            b"array u, 2\ntask\nin u[0..1]\nout u[0..2]\ndo\nend\n",
            b"refused 4 AccessOverlap\n",
        ),
        (
            b"array u, 2\ntask\nin u[0..1]\ndo\ncopy u[0..1], u[1..2]\nend\n",
            b"refused 5 NotDeclared\n",
        ),
        (
            b"array u, 3\ntask\nin u[0..3]\ndo\ncopy u[0..1], u[1..3]\nend\n",
            b"refused 5 NotWritable\n",
        ),
        (
            b"array u, 3\ntask\nout u[0..3]\ndo\ncopy u[0..1], u[1..3]\nend\n",
            b"refused 5 LengthMismatch\n",
        ),
        (
            b"array u, 3\ntask\nout u[0..3]\ndo\nshift u[0..1], u[1..3], 64\nend\n",
            b"refused 5 LengthMismatch\n",
        ),
        (
            b"array u, 3\ntask\nout u[0..3]\ndo\nshift u[0..1], u[1..2], 64\nend\n",
            b"refused 5 BadShift\n",
        ),
        (
            b"array u, 3\ntask\nout u[0..3]\ndo\ngreatest u[0..1], u[1..1]\nend\n",
            b"refused 5 EmptySource\n",
        ),
        (
            b"array u, 3\ntask\nout u[0..3]\ndo\nleast u[0..2], u[1..1]\nend\n",
            b"refused 5 LengthMismatch\n",
        ),
        (
            b"array u, 5\ntask\nout u[0..5]\ndo\nrecv u[0..1], 0, 0 status u[1..4]\nend\n",
            b"refused 5 StatusLength\n",
        ),
        (
            b"array u, 5\ntask\nout u[0..5]\ndo\nrecv u[0..1], 0, 0 status u[0..4]\nend\n",
            b"refused 5 InUse\n",
        ),
        (
            b"array u, 1\ntask\nout u[0..1]\ndo\nirecv q, u[0..1], 0, 0\nwaitall q, q\nend\n",
            b"refused 6 RequestTwice\n",
        ),
        (
            b"array u, 1\ntask\nout u[0..1]\ndo\nirecv q, u[0..1], 0, 0\nisend q, u[0..1], 0, 0\nend\n",
            b"refused 6 RequestBusy\n",
        ),
        (
            b"array u, 1\ntask\nout u[0..1]\ndo\nisend q, u[0..1], 0, 0\nfill u[0..1], 1\nend\n",
            b"refused 6 InUse\n",
        ),
        (
            b"array a, 1\narray b, 1\ntask\ninout a[0..1]\nout b[0..1]\ndo\nirecv q, a[0..1], 0, 0\niwait q\ncopy b[0..1], a[0..1]\nend\n",
            b"refused 9 InUse\n",
        ),
        (
            b"array u, 1\ntask\nin u[0..1]\ndo\nisend q, u[0..1], 0, 0\nif 0\nwait q\nend\nend\n",
            b"refused 5 RequestLeft\n",
        ),
        (
            b"array u, 1\ntask\nin u[0..1]\ndo\nif 0\nisend q, u[0..1], 0, 0\nend\nwait q\nend\n",
            b"refused 8 UnknownName\n",
        ),
        (
            b"if rank == 1\nlet x = 1 / 0\nelse\nlet x = 1\nend\nlet y = x + z\n",
            b"refused 6 UnknownName\n",
        ),
        (
            b"for i = 0 .. 3\nlet x = 1 / (2 - i)\nend\n",
            b"refused 2 DivisionByZero\n",
        ),
        (
            b"array a, 8\ntask\ninout a[0..8]\ndo\nirecv q, a[0..1], 0, 0\nwait q status a[0..4]\nend\n",
            b"refused 6 InUse\n",
        ),
        (
            b"array a, 8\ntask\ninout a[0..8]\ndo\nirecv q, a[0..1], 0, 0\nirecv r, a[1..2], 0, 0\niwaitall q, r status a[0..8]\nend\n",
            b"refused 7 InUse\n",
        ),
        (
            b"array a, 8\ntask\ninout a[0..8]\ndo\nisend q, a[0..1], 0, 0\niwait q status a[4..8]\nwait q\nisend q, a[0..1], 0, 0\nwait q\nfill a[0..1], 1\nend\n",
            b"refused 10 InUse\n",
        ),
        (
            b"array a, 8\ntask\ninout a[0..8]\ndo\nirecv q, a[0..1], null, 0\nwait q\nwaitall q, q\nend\n",
            b"refused 7 RequestTwice\n",
        ),
        (
            b"array a, 8\ntask\ninout a[0..8]\ndo\nisend q, a[0..1], 0, 0\nisend r, a[0..1], 0, 0\nwait r\nend\n",
            b"refused 5 RequestLeft\n",
        ),
        (
            b"array a, 9\ntask\ninout a[0..9]\ndo\nirecv r, a[0..0], any, any\niwaitall r status a[0..4]\niwait r status a[3..7]\nend\n",
            b"refused 7 InUse\n",
        ),
        (
            b"array a, 2\ncomm c\ntask\ninout a[0..2]\ndo\nisend q, a[0..3], 7, 40000 on z\nend\n",
            b"refused 6 BadSpan\n",
        ),
        (
            b"array a, 2\ncomm c\ntask\ninout a[0..2]\ndo\nrecv a[0..1], 7, 40000 on z status a[0..9]\nend\n",
            b"refused 6 UnknownName\n",
        ),
        (
            b"let q = 1\narray a, 1\ntask\ninout a[0..1]\ndo\nisend r, a[0..1], 0, 0\nlet r = 1 / 0\nwait r\nend\n",
            b"refused 7 NameTaken\n",
        ),
    ];
    for (text, told) in rows {
        assert!(rt; is_told(&rt, alloc, text, 3, told)?, "{told:?}");
    }
    Ok(())
}

#[test]
fn a_limit_is_told(rt: HostRuntime) -> Result<(), Fail> {
    let alloc = rt.alloc();
    let limit = b"array u, 16777217\n";
    assert!(rt;
        is_told(&rt, alloc, limit, 8, b"limit cells 16777216\n")?,
        "a limit"
    );
    Ok(())
}

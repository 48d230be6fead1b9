//! Each limit at its number and one past it, as `expand` answers.
ghost use Rattle.std.specs.Prelude.{◌≤◌};

use rt_base::{FaultKind, LimitName};
use std::alloc::{AllocError, Global};
use std::test::Fail;
use task_expand::{ExpandRefusal, expand};
use task_parse::parse;

// What `expand` says of a text.
#[derive(Clone, Copy, Debug, PartialEq, Eq)]
enum Said {
    Program,
    Fault(u32, FaultKind),
    Limit(LimitName),
    Nothing,
}

fn said_of(alloc: Global, text: &[u8]) -> Said {
    said_on(alloc, text, 1)
}

fn said_on(alloc: Global, text: &[u8], ranks: u16) -> Said
    requires some_rank { 1 ≤ ranks }
    requires ranks { ranks ≤ 64 }
{
    if text.len() > 1_048_576 {
        return Said::Nothing;
    }
    match parse(alloc, text) {
        Ok(tree) => match expand(alloc, &tree, ranks, 0) {
            Ok(_) => Said::Program,
            Err(ExpandRefusal::Fault { line, kind }) => Said::Fault(line, kind),
            Err(ExpandRefusal::Limit { which }) => Said::Limit(which),
            Err(ExpandRefusal::Memory) => Said::Nothing,
        },
        Err(_) => Said::Nothing,
    }
}

// A front, a line so many times, and an end.
fn text_of(
    alloc: Global,
    front: &[u8],
    line: &[u8],
    times: usize,
    end: &[u8],
) -> Result<Vec<u8>, AllocError> {
    let mut text = front.to_vec(alloc)?;
    for _ in 0..times {
        text.extend_from_slice(line)?;
    }
    text.extend_from_slice(end)?;
    Ok(text)
}

// So many lines with names of their own, and an end.
fn named_lines(
    alloc: Global,
    front: &str,
    times: u32,
    back: &str,
    end: &[u8],
) -> Result<Vec<u8>, AllocError> {
    let mut text = Vec::new(alloc);
    for n in 0..times {
        text.extend_from_slice(front.as_bytes())?;
        text.extend_from_slice(n.to_string(alloc)?.as_bytes())?;
        text.extend_from_slice(back.as_bytes())?;
    }
    text.extend_from_slice(end)?;
    Ok(text)
}

// The texts that count by turns of a `for`: at the number, and with one more.
#[test]
fn counts_of_turns_have_limits(rt: HostRuntime) -> Result<(), Fail> {
    let alloc = rt.alloc();
    let rows: [(&[u8], &[u8], &[u8], LimitName); 9] = [
        (
            b"array u, 16777216\n",
            b"",
            b"array v, 1\n",
            LimitName::Cells,
        ),
        (
            b"for i = 0 .. 65536\ntask\ndo\nend\nend\n",
            b"",
            b"task\ndo\nend\n",
            LimitName::Tasks,
        ),
        (
            b"array u, 16777216\nfor i = 0 .. 8\ntask\nin u[0..16777216]\ndo\nend\nend\n",
            b"",
            b"task\nin u[0..1]\ndo\nend\n",
            LimitName::AccessCells,
        ),
        (
            b"array u, 1\ntask\ndo\nfor i = 0 .. 1048576\nfill u[0..0], 0\nend\n",
            b"end\n",
            b"fill u[0..0], 0\nend\n",
            LimitName::Operations,
        ),
        (
            b"array u, 1\ntask\ndo\nfor i = 0 .. 262144\nsend u[0..0], null, 0\nend\n",
            b"end\n",
            b"send u[0..0], null, 0\nend\n",
            LimitName::Requests,
        ),
        (
            b"array u, 1\ntask\ndo\nisend p, u[0..0], null, 0\nisend q, u[0..0], null, 0\nfor i = 0 .. 524288\nwaitall p, q\nend\n",
            b"end\n",
            b"wait p\nend\n",
            LimitName::Names,
        ),
        (
            b"array u, 16777216\ntask\nin u[0..16777216]\ndo\nfor i = 0 .. 4\nsend u[0..16777216], null, 0\nend\n",
            b"end\n",
            b"send u[0..1], null, 0\nend\n",
            LimitName::MessageCells,
        ),
        (
            b"for i = 0 .. 16777215\nend\n",
            b"",
            b"let x = 1\n",
            LimitName::Steps,
        ),
        (
            b"array u, 4096\nfor i = 0 .. 4096\ntask\nin u[i..i+1]\ndo\nend\nend\nfor i = 0 .. 4095\ntask\nin u[0..4096]\ndo\nend\nend\n",
            b"",
            b"task\nin u[0..1]\ndo\nend\n",
            LimitName::Pieces,
        ),
    ];
    for (front, end, more, which) in rows {
        let at = text_of(alloc, front, b"", 0, end)?;
        assert_eq!(rt; said_of(alloc, &at), Said::Program, "{which:?}");
        let past = text_of(alloc, front, b"", 0, more)?;
        assert_eq!(rt; said_of(alloc, &past), Said::Limit(which));
    }
    Ok(())
}

// The texts that count by lines: at the number, with one more, and with a fault in the line that would pass it.
#[test]
fn counts_of_lines_have_limits(rt: HostRuntime) -> Result<(), Fail> {
    let alloc = rt.alloc();
    let arrays = named_lines(alloc, "array a", 1_024, ", 0\n", b"")?;
    assert_eq!(rt; said_of(alloc, &arrays), Said::Program);
    let arrays = named_lines(alloc, "array a", 1_025, ", 0\n", b"")?;
    assert_eq!(rt; said_of(alloc, &arrays), Said::Limit(LimitName::Arrays));
    let arrays = named_lines(alloc, "array a", 1_024, ", 0\n", b"array b, -1\n")?;
    assert_eq!(rt;
        said_of(alloc, &arrays),
        Said::Fault(1_025, FaultKind::BadSize)
    );
    let comms = named_lines(alloc, "comm c", 255, "\n", b"")?;
    assert_eq!(rt; said_of(alloc, &comms), Said::Program);
    let comms = named_lines(alloc, "comm c", 256, "\n", b"")?;
    assert_eq!(rt; said_of(alloc, &comms), Said::Limit(LimitName::Comms));
    let front = b"array u, 1\nfor i = 0 .. 4096\ntask\n";
    let accesses = text_of(alloc, front, b"in u[0..0]\n", 1_024, b"do\nend\nend\n")?;
    assert_eq!(rt; said_of(alloc, &accesses), Said::Program);
    let more = b"do\nend\nend\ntask\nin u[0..0]\ndo\nend\n";
    let accesses = text_of(alloc, front, b"in u[0..0]\n", 1_024, more)?;
    assert_eq!(rt; said_of(alloc, &accesses), Said::Limit(LimitName::Accesses));
    Ok(())
}

// Where one statement meets two of them: what is counted before its faults, the fault, and what is counted behind them.
#[test]
fn limits_and_faults_have_an_order(rt: HostRuntime) -> Result<(), Fail> {
    let alloc = rt.alloc();
    let rows: [(&[u8], Said); 7] = [
        (
            b"for i = 0 .. 16777215\nend\nshow z\n",
            Said::Limit(LimitName::Steps),
        ),
        (
            b"array u, 1\ntask\ndo\nfor i = 0 .. 1048576\nfill u[0..0], 0\nend\nfill z[0..0], 0\nend\n",
            Said::Limit(LimitName::Operations),
        ),
        (
            b"array u, 16777216\narray u, 1\n",
            Said::Fault(2, FaultKind::NameTaken),
        ),
        (
            b"array u, 16777216\nfor i = 0 .. 8\ntask\nin u[0..16777216]\ndo\nend\nend\ntask\nin u[0..16777217]\ndo\nend\n",
            Said::Fault(9, FaultKind::BadSpan),
        ),
        (
            b"array u, 1\ntask\ndo\nfor i = 0 .. 262144\nsend u[0..0], null, 0\nend\nisend u, u[0..0], null, 0\nend\n",
            Said::Limit(LimitName::Requests),
        ),
        (
            b"array u, 1\ntask\ndo\nisend p, u[0..0], null, 0\nisend q, u[0..0], null, 0\nfor i = 0 .. 524288\nwaitall p, q\nend\nwait z\nend\n",
            Said::Limit(LimitName::Names),
        ),
        (
            b"array u, 16777216\ntask\ninout u[0..16777216]\ndo\nirecv q, u[0..1], null, 0\nfor i = 0 .. 4\nsend u[1..16777216], null, 0\nend\nsend u[0..16777216], null, 0\nwait q\nend\n",
            Said::Fault(9, FaultKind::InUse),
        ),
    ];
    for (text, said) in rows {
        assert_eq!(rt; said_of(alloc, text), said);
    }
    Ok(())
}

// Arrays are counted for each rank, and their cells over all of them.
#[test]
fn some_counts_are_of_one_rank(rt: HostRuntime) -> Result<(), Fail> {
    let alloc = rt.alloc();
    let arrays = named_lines(alloc, "array a", 1_024, ", 0\n", b"")?;
    assert_eq!(rt; said_on(alloc, &arrays, 2), Said::Program);
    assert_eq!(rt; said_on(alloc, b"array u, 8388608\n", 2), Said::Program);
    assert_eq!(rt;
        said_on(alloc, b"array u, 8388609\n", 2),
        Said::Limit(LimitName::Cells)
    );
    Ok(())
}

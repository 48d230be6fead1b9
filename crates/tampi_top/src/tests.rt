//! Worked texts, from the words and the bytes that come in to the bytes that go out.
use crate::{Outcome, tampi};
use rt_base::{FakeSink, FakeSource, MemSink, MemSource, OpenGate};
use std::alloc::{AllocError, Global};
use std::sync::Wait;
use std::test::Fail;
use std::thread::Threads;

const TWO_CELLS: &[u8] = b"array u, 2\nshow u\ntask\nout u[0..2]\ndo\nfill u[0..2], 7\nend\n";

const RECEIVE_FIRST: &[u8] =
    b"array a, 1\ntask\ninout a[0..1]\ndo\nrecv a[0..1], 1 - rank, 0\nsend a[0..1], 1 - rank, 0\nend\n";

const TO_ITSELF: &[u8] =
    b"array a, 6\ntask\ninout a[0..6]\ndo\nsend a[0..3], 0, 0\nrecv a[3..6], 0, 0\nend\n";

const FILLED_AND_SENT: &[u8] =
    b"array a, 2\nshow a\ntask\ninout a[0..2]\ndo\nfill a[0..1], 4\nsend a[0..1], 0, 3\nrecv a[1..2], 0, 3\nend\n";

const NO_CELL: &[u8] = b"array a, 1\ntask\nin a[0..1]\ndo\nsend a[0..0], 0, 0\nend\n";

// The words that a text separates by blanks.
pub(crate) fn words_of(alloc: Global, text: &str) -> Result<Vec<String>, AllocError> {
    let mut words = Vec::new(alloc);
    for word in text.split_whitespace() {
        words.push(String::from_str(alloc, word)?)?;
    }
    Ok(words)
}

// What a call in memory comes to.
pub(crate) fn outcome_of<R: Threads + Wait + Sync>(
    rt: &R,
    alloc: Global,
    words: &str,
    input: &mut MemSource,
    out: &mut MemSink,
) -> Result<Outcome, AllocError> {
    let words = words_of(alloc, words)?;
    Ok(tampi(rt, alloc, words.as_slice(), input, out, &OpenGate))
}

#[test]
fn a_text_is_run_and_reported(rt: HostRuntime) -> Result<(), Fail> {
    let alloc = rt.alloc();
    let rows: [(&str, &[u8], u8, &[u8], usize); 12] = [
        ("run", b"", 0, b"finished\n", 0),
        ("run --ranks=02", b"", 0, b"finished\n", 0),
        ("run", TWO_CELLS, 0, b"finished\n0 u 7 7\n", 3),
        (
            "run --ranks 2",
            TWO_CELLS,
            0,
            b"finished\n0 u 7 7\n1 u 7 7\n",
            6,
        ),
        (
            "run --ranks 2",
            RECEIVE_FIRST,
            1,
            b"stuck\ntask 0 rank 0 line 2 in 0\ntask 1 rank 1 line 2 in 0\n",
            4,
        ),
        ("run", RECEIVE_FIRST, 3, b"refused 5 BadRank\n", 0),
        ("run --eager 3", TO_ITSELF, 0, b"finished\n", 7),
        (
            "run --eager=2",
            TO_ITSELF,
            1,
            b"stuck\ntask 0 rank 0 line 2 in 0\n",
            2,
        ),
        ("run", FILLED_AND_SENT, 0, b"finished\n0 a 4 4\n", 7),
        ("run --eager 0", NO_CELL, 0, b"finished\n", 5),
        ("run", b"array w, 0\nshow w\n", 0, b"finished\n0 w\n", 0),
        (
            "run --trace --eager 3",
            FILLED_AND_SENT,
            0,
            b"finished\n0 a 4 4\n%trace 1 1 1 3\nstart 0\ncall 0 1 0\nleave 0 1\ncall 0 2 0\nleave 0 2 0 3 1 0\nreturn 0\nrelease 0\n",
            7,
        ),
    ];
    for (words, text, status, told, entries) in rows {
        let mut input = MemSource::new(text.to_vec(alloc)?);
        let mut out = MemSink::new(alloc, 200)?;
        let outcome = outcome_of(&rt, alloc, words, &mut input, &mut out)?;
        assert_eq!(rt; outcome.status, status);
        assert_eq!(rt; out.bytes(), told);
        assert_eq!(rt; outcome.history.entries.len(), entries);
        assert_eq!(rt; input.rest().len(), 0);
    }
    Ok(())
}

#[test]
fn the_heat_solver_is_run_and_nothing_is_read(rt: HostRuntime) -> Result<(), Fail> {
    let alloc = rt.alloc();
    let rows: [(&str, u8, &[u8]); 5] = [
        (
            "heat --ranks 1 --blocks 1 --cells 2 --steps 1",
            0,
            b"finished\n0 s 3 1 2\n",
        ),
        (
            "heat --blocks 1 --cells 2 --steps 1",
            0,
            b"finished\n0 s 254 1 253\n1 s 1505 752 753\n",
        ),
        (
            "heat --ranks 2 --blocks 1 --cells 2 --steps 1 --eager 0",
            0,
            b"finished\n0 s 254 1 253\n1 s 1505 752 753\n",
        ),
        (
            "heat --blocks 1024 --cells 65536",
            8,
            b"limit cells 16777216\n",
        ),
        (
            "heat --steps 2000 --blocks 8 --cells 1",
            8,
            b"limit tasks 65536\n",
        ),
    ];
    for (words, status, told) in rows {
        let mut input = MemSource::new(TWO_CELLS.to_vec(alloc)?);
        let mut out = MemSink::new(alloc, 100)?;
        let outcome = outcome_of(&rt, alloc, words, &mut input, &mut out)?;
        assert_eq!(rt; outcome.status, status);
        assert_eq!(rt; out.bytes(), told);
        assert_eq!(rt; input.rest(), TWO_CELLS);
    }
    Ok(())
}

#[test]
fn words_that_give_no_command_read_nothing(rt: HostRuntime) -> Result<(), Fail> {
    let alloc = rt.alloc();
    let rows: [&str; 12] = [
        "run --rank 2",
        "run --ranks 0",
        "run --ranks 65",
        "run --ranks 2 --ranks 2",
        "run --ranks 2 --ranks=2",
        "run --ranks",
        "run --ranks 00000000002",
        "run --eager 16777217",
        "run --trace 1",
        "run --",
        "fly",
        "",
    ];
    for words in rows {
        let mut input = MemSource::new(TWO_CELLS.to_vec(alloc)?);
        let mut out = MemSink::new(alloc, 100)?;
        let outcome = outcome_of(&rt, alloc, words, &mut input, &mut out)?;
        assert_eq!(rt; outcome.status, 2);
        assert_eq!(rt; out.bytes(), b"words refused\n".as_slice());
        assert_eq!(rt; outcome.history.entries.len(), 0);
        assert_eq!(rt; input.rest(), TWO_CELLS);
    }
    Ok(())
}

#[test]
fn a_text_of_one_byte_too_many_is_too_long(rt: HostRuntime) -> Result<(), Fail> {
    let alloc = rt.alloc();
    let rows: [(usize, u8, &[u8], usize); 3] = [
        (1_048_576, 0, b"finished\n", 0),
        (1_048_577, 7, b"too long\n", 0),
        (1_048_600, 7, b"too long\n", 23),
    ];
    for (len, status, told, left) in rows {
        let mut input = MemSource::new(vec![in alloc; b' '; len]?);
        let mut out = MemSink::new(alloc, 100)?;
        let outcome = outcome_of(&rt, alloc, "run", &mut input, &mut out)?;
        assert_eq!(rt; outcome.status, status);
        assert_eq!(rt; out.bytes(), told);
        assert_eq!(rt; input.rest().len(), left);
    }
    Ok(())
}

// Whether a run of the text ends with this status and report.
pub(crate) fn ends<R: Threads + Wait + Sync>(
    rt: &R,
    alloc: Global,
    words: &str,
    text: &[u8],
    status: u8,
    told: &[u8],
) -> Result<bool, AllocError> {
    let mut input = MemSource::new(text.to_vec(alloc)?);
    let mut out = MemSink::new(alloc, 200)?;
    let outcome = outcome_of(rt, alloc, words, &mut input, &mut out)?;
    Ok(outcome.status == status && out.bytes() == told)
}

// Whether a text comes to this, read to its end and without a move: its status, and what was written.
pub(crate) fn is_told<R: Threads + Wait + Sync>(
    rt: &R,
    alloc: Global,
    text: &[u8],
    status: u8,
    told: &[u8],
) -> Result<bool, AllocError> {
    let mut input = MemSource::new(text.to_vec(alloc)?);
    let mut out = MemSink::new(alloc, 100)?;
    let outcome = outcome_of(rt, alloc, "run", &mut input, &mut out)?;
    let whole = input.rest().is_empty() && outcome.history.entries.is_empty();
    Ok(whole && outcome.status == status && out.bytes() == told)
}

#[test]
fn a_text_with_a_fault_is_refused_at_its_first(rt: HostRuntime) -> Result<(), Fail> {
    let alloc = rt.alloc();
    let rows: [(&[u8], &[u8]); 9] = [
        (b"show $\nshow 1.\n", b"refused 1 Byte\n"),
        (b"\n# $\nshow !\n", b"refused 3 Byte\n"),
        (b"array u, 9223372036854775808\n", b"refused 1 Number\n"),
        (
            b"show a23456789012345678901234567890123\n",
            b"refused 1 Name\n",
        ),
        (b"show rank\n", b"refused 1 Shape\n"),
        (b"release u[0..1]\n", b"refused 1 Shape\n"),
        (b"end\nend\n", b"refused 1 Place\n"),
        (b"if 1\nelse\nelse\nend\n", b"refused 3 Place\n"),
        (b"task\ndo", b"refused 3 Open\n"),
    ];
    for (text, told) in rows {
        assert!(rt; is_told(&rt, alloc, text, 3, told)?, "{told:?}");
    }
    Ok(())
}

// `let x = `, a part so many times, a last part so many times, and the end of the line.
fn long_line(
    alloc: Global,
    part: &[u8],
    times: usize,
    middle: &[u8],
    last: &[u8],
    closed: usize,
) -> Result<Vec<u8>, AllocError> {
    let mut text = b"let x = ".to_vec(alloc)?;
    for _ in 0..times {
        text.extend_from_slice(part)?;
    }
    text.extend_from_slice(middle)?;
    for _ in 0..closed {
        text.extend_from_slice(last)?;
    }
    text.extend_from_slice(b"\n")?;
    Ok(text)
}

// No line runs out of stack, however deep its tree would be.
#[test]
fn long_lines_come_to_an_end(rt: HostRuntime) -> Result<(), Fail> {
    let alloc = rt.alloc();
    let sum = long_line(alloc, b"1+", 500_000, b"1", b"", 0)?;
    assert!(rt; is_told(&rt, alloc, &sum, 0, b"finished\n")?, "a sum");
    let product = long_line(alloc, b"1*", 500_000, b"1", b"", 0)?;
    assert!(rt;
        is_told(&rt, alloc, &product, 0, b"finished\n")?,
        "a product"
    );
    let half = long_line(alloc, b"1+", 500_000, b"", b"", 0)?;
    assert!(rt;
        is_told(&rt, alloc, &half, 3, b"refused 1 Shape\n")?,
        "a sum without its end"
    );
    let open = long_line(alloc, b"(", 1_000_000, b"", b"", 0)?;
    assert!(rt;
        is_told(&rt, alloc, &open, 3, b"refused 1 Shape\n")?,
        "brackets"
    );
    let minus = long_line(alloc, b"-", 1_000_000, b"1", b"", 0)?;
    assert!(rt;
        is_told(&rt, alloc, &minus, 3, b"refused 1 Depth\n")?,
        "minus signs"
    );
    let right = long_line(alloc, b"(1+", 250_000, b"1", b")", 250_000)?;
    assert!(rt;
        is_told(&rt, alloc, &right, 3, b"refused 1 Depth\n")?,
        "brackets to the right"
    );
    Ok(())
}

// Read number 6 finds the end, after six pieces.
#[test]
fn a_failed_read_is_told(rt: HostRuntime) -> Result<(), Fail> {
    let alloc = rt.alloc();
    let rows: [(u32, u8, &[u8]); 4] = [
        (0, 4, b"read fault\n"),
        (1, 4, b"read fault\n"),
        (6, 4, b"read fault\n"),
        (7, 0, b"finished\n0 u 7 7\n"),
    ];
    let words = words_of(alloc, "run")?;
    for (call, status, told) in rows {
        let mut input = FakeSource::new(TWO_CELLS.to_vec(alloc)?, 10, [call].to_vec(alloc)?);
        let mut out = MemSink::new(alloc, 100)?;
        let outcome = tampi(
            &rt,
            alloc,
            words.as_slice(),
            &mut input,
            &mut out,
            &OpenGate,
        );
        assert_eq!(rt; outcome.status, status);
        assert_eq!(rt; out.bytes(), told);
    }
    Ok(())
}

// A text of 5,000 blanks is read in two pieces of at most 4,096 bytes; read number 2 finds the end, and none follows it.
#[test]
fn reads_are_of_4096_bytes(rt: HostRuntime) -> Result<(), Fail> {
    let alloc = rt.alloc();
    let rows: [(u32, u8, &[u8]); 3] = [
        (1, 4, b"read fault\n"),
        (2, 4, b"read fault\n"),
        (3, 0, b"finished\n"),
    ];
    let words = words_of(alloc, "run")?;
    for (call, status, told) in rows {
        let blanks = vec![in alloc; b' '; 5_000]?;
        let mut input = FakeSource::new(blanks, 10_000, [call].to_vec(alloc)?);
        let mut out = MemSink::new(alloc, 100)?;
        let outcome = tampi(
            &rt,
            alloc,
            words.as_slice(),
            &mut input,
            &mut out,
            &OpenGate,
        );
        assert_eq!(rt; outcome.status, status);
        assert_eq!(rt; out.bytes(), told);
    }
    Ok(())
}

#[test]
fn a_failed_write_leaves_a_front(rt: HostRuntime) -> Result<(), Fail> {
    let alloc = rt.alloc();
    let rows: [(&str, &[u8], usize); 2] = [("run", b"fini", 3), ("fly", b"word", 0)];
    for (words, told, entries) in rows {
        let words = words_of(alloc, words)?;
        let mut input = MemSource::new(TWO_CELLS.to_vec(alloc)?);
        let mut out = FakeSink::new(alloc, 100, 4, [0].to_vec(alloc)?)?;
        let outcome = tampi(
            &rt,
            alloc,
            words.as_slice(),
            &mut input,
            &mut out,
            &OpenGate,
        );
        assert_eq!(rt; outcome.status, 5);
        assert_eq!(rt; out.bytes(), told);
        assert_eq!(rt; outcome.history.entries.len(), entries);
    }
    Ok(())
}

// A report of 8,192 bytes is one piece, and one of a byte more has a second one, which fails here.
#[test]
fn a_report_is_written_in_pieces(rt: HostRuntime) -> Result<(), Fail> {
    let alloc = rt.alloc();
    let rows: [(&[u8], u8); 2] = [
        (b"array uv, 4089\nshow uv\n", 0),
        (b"array uvw, 4089\nshow uvw\n", 5),
    ];
    let words = words_of(alloc, "run")?;
    for (text, status) in rows {
        let mut input = MemSource::new(text.to_vec(alloc)?);
        let mut out = FakeSink::new(alloc, 9_000, 0, [1].to_vec(alloc)?)?;
        let outcome = tampi(
            &rt,
            alloc,
            words.as_slice(),
            &mut input,
            &mut out,
            &OpenGate,
        );
        assert_eq!(rt; outcome.status, status);
        assert_eq!(rt; out.bytes().len(), 8_192);
    }
    Ok(())
}

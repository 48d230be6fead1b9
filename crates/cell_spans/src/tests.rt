use super::*;
use crate::span_bag::SpanBag;
use rt_base::{Access, Accesses, Body, How, Mode, Op, Peer, Span, TagSel, TaskDef};
use std::alloc::Global;
use std::process::Abort;
use std::test::Fail;

fn span(from: u32, to: u32) -> Span {
    Span { array: 1, from, to }
}

// What is done to a bag of spans before it is asked.
#[derive(Clone, Copy)]
enum Change {
    Add,
    Remove,
    Nothing,
}

// Whether the span shares a cell with one of the bag once it was added, or removed.
fn meets_then(bag: &mut SpanBag, change: Change, span: Span) -> Result<bool, Fail> {
    match change {
        Change::Add => bag.add(span)?,
        Change::Remove => bag.remove(span),
        Change::Nothing => {}
    }
    Ok(bag.meets(span))
}

#[test]
fn spans_come_and_go_in_any_order(rt: HostRuntime) -> Result<(), Fail> {
    let mut bag = SpanBag::empty(rt.alloc());
    let rows = [
        (Change::Add, 9, 12, true),
        (Change::Add, 5, 7, true),
        (Change::Add, 1, 3, true),
        (Change::Nothing, 6, 10, true),
        (Change::Nothing, 3, 5, false),
        (Change::Nothing, 6, 6, false),
        (Change::Add, 4, 8, true),
        (Change::Add, 1, 3, true),
        (Change::Remove, 5, 7, true),
        (Change::Remove, 1, 3, true),
        (Change::Remove, 4, 8, false),
        (Change::Remove, 1, 3, false),
        (Change::Nothing, 0, 20, true),
        (Change::Remove, 9, 12, false),
        (Change::Nothing, 0, 20, false),
    ];
    for (change, from, to, meets) in rows {
        let found = meets_then(&mut bag, change, span(from, to))?;
        assert_eq!(rt; found, meets, "{from}..{to}");
    }
    Ok(())
}

// The nth of spans with a cell between two of them, and that cell.
fn nth(n: u16) -> Span {
    let from = 3 * n as u32;
    span(from, from + 2)
}

fn behind(n: u16) -> Span {
    let from = 3 * n as u32 + 2;
    span(from, from + 1)
}

fn count_met(bag: &SpanBag, most: u16) -> u32 {
    let mut met = 0u32;
    for n in 0..most {
        if bag.meets(nth(n)) && !bag.meets(behind(n)) {
            met = met.saturating_add(1);
        }
    }
    met
}

// More than a short list holds, so lists are merged on the way.
#[test]
fn many_spans_come_in_falling_order(rt: HostRuntime) -> Result<(), Fail> {
    let mut bag = SpanBag::empty(rt.alloc());
    for n in (0..3000).rev() {
        bag.add(nth(n))?;
    }
    assert_eq!(rt; count_met(&bag, 4000), 3000);
    for n in 0..1200 {
        bag.remove(nth(2 * n));
    }
    assert_eq!(rt; count_met(&bag, 4000), 1800);
    Ok(())
}

fn declare(declared: &mut Declared, mode: Mode, from: u32, to: u32) -> Result<(), Fail> {
    let span = span(from, to);
    if !declared.overlaps(span) {
        declared.push(Access { mode, span })?;
    }
    Ok(())
}

#[test]
fn accesses_that_touch_are_one_interval(rt: HostRuntime) -> Result<(), Fail> {
    let mut declared = Declared::empty(rt.alloc());
    for (mode, from, to) in [(Mode::Out, 8, 10), (Mode::In, 4, 6), (Mode::Inout, 0, 4)] {
        declare(&mut declared, mode, from, to)?;
    }

    // From, to, and whether it overlaps an access, is declared and is writable.
    let rows = [
        (1, 3, (true, true, true)),
        (0, 6, (true, true, false)),
        (5, 9, (true, false, false)),
        (6, 8, (false, false, false)),
        (8, 10, (true, true, true)),
        (7, 7, (false, true, true)),
    ];
    for (from, to, want) in rows {
        let span = span(from, to);
        let found = (
            declared.overlaps(span),
            declared.is_declared(span),
            declared.is_writable(span),
        );
        assert!(rt; found == want, "{from}..{to}");
    }
    Ok(())
}

fn task(alloc: Global, rank: u16, span: Span) -> Result<TaskDef, Fail> {
    let mode = Mode::In;
    let mut accesses = Vec::new(alloc);
    accesses.push(Access { mode, span })?;
    Ok(TaskDef {
        rank,
        line: 1,
        epoch: 0,
        accesses: Accesses::from_vec(accesses),
        body: Body::empty(alloc),
    })
}

// 0..4 is cut at 2, and 2..6 at 4 and at 5, where an empty access stands. 1..4 is of another rank, and cuts neither.
#[test]
fn accesses_cut_one_another(rt: HostRuntime) -> Result<(), Fail> {
    let alloc = rt.alloc();
    let mut tasks = Vec::new(alloc);
    for (rank, from, to) in [(0, 0, 4), (0, 2, 6), (0, 5, 5), (1, 1, 4)] {
        tasks.push(task(alloc, rank, span(from, to))?)?;
    }
    for (most, want) in [(5, false), (6, true)] {
        let found = pieces_within(alloc, tasks.as_slice(), most)?;
        assert_eq!(rt; found, want, "{most}");
    }
    Ok(())
}

fn posting(how: How) -> Op {
    Op::Post {
        how,
        span: span(0, 4),
        peer: Peer::Rank(0),
        tag: TagSel::Tag(0),
        comm: 0,
        status: None,
    }
}

// The request that is left once these postings are made.
fn left_of(alloc: Global, hows: &[How]) -> Result<Option<usize>, Fail> {
    let mut body = OpenBody::empty(alloc);
    for how in hows {
        body.push(posting(*how))?;
    }
    Ok(body.left())
}

#[test]
fn the_first_request_that_is_not_waited_for_is_left(rt: HostRuntime) -> Result<(), Fail> {
    let alloc = rt.alloc();
    let none = left_of(alloc, &[How::Send, How::Recv])?;
    assert_eq!(rt; none, None);
    let second = left_of(alloc, &[How::Send, How::Irecv, How::Isend])?;
    assert_eq!(rt; second, Some(1));
    Ok(())
}

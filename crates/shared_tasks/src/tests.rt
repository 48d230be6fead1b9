//! Tickets that are issued and taken by hand, and the places of two tasks.
ghost use Rattle.std.specs.Prelude.{◌≡◌, ◌+◌, ◌<◌, ◌^◌, [], ◌∷◌, None, IfOk};
ghost use Rattle.rt_base.specs.declared.data.How.TheVariants as how;
ghost use Rattle.rt_base.specs.declared.data.Peer.TheVariants as peer;
ghost use Rattle.rt_base.specs.declared.data.TagSel.TheVariants as tag;
ghost use Rattle.rt_base.specs.declared.data.Op.TheVariants as op;
ghost use Rattle.meet_hall.specs.Holders.{desk};
ghost use Rattle.meet_hall.specs.Views.{first_desk};
ghost use Rattle.shared_tasks.specs.Owing.{no_tickets};

use crate::{Tickets, request_count};
use meet_hall::{Guest, Hall, Holder};
use rt_base::{
    Accesses, Body, How, Lens, Name, Names, Op, Peer, Program, ReqNo, Shows, Span, TagSel, TaskDef,
    TaskNo, Tasks, starts_of,
};
use std::alloc::{AllocError, Global};
use std::test::Fail;

// A number, which fits anywhere.
#[derive(Clone, Copy, Debug, PartialEq, Eq)]
struct Number(u32);

impl Guest for Number {
    ghost fits = { λ _ _ _ _. Unit {0} };
}

// A hall of one meeting with two places, and its holder.
fn lone(alloc: Global) -> Result<(Hall<Number, Number>, Holder), AllocError>
    ensures { IfOk result (λ t. desk t.1 ≡ first_desk t.0 0 0 2) }
{
    let (hall, mut holders) = Hall::build(alloc, &[2])?;
    let Some(holder) = holders.pop() else {
        return Err(AllocError);
    };
    Ok((hall, holder))
}

// A receive of no cell, from nobody.
fn receive() -> Op
    ensures { result ≡ op.Post how.Irecv (record { array = 0; from = 0; to = 0 }) peer.Null tag.Any 0 None }
{
    Op::Post {
        how: How::Irecv,
        span: Span {
            array: 0,
            from: 0,
            to: 0,
        },
        peer: Peer::Null,
        tag: TagSel::Any,
        comm: 0,
        status: None,
    }
}

// A task that posts two requests.
fn two_receives(alloc: Global) -> Result<Program, Fail>
    ensures { IfOk result (λ program. no_tickets program ≡ (None ∷ None ∷ []) ∷ []) }
{
    let lens = Lens::from_vec(vec![in alloc; 4_u32]?);
    let starts = starts_of(alloc, lens.as_slice())?;
    let task = TaskDef {
        rank: 0,
        line: 0,
        epoch: 0,
        accesses: Accesses::empty(alloc),
        body: Body::from_vec(vec![in alloc; receive(), receive()]?),
    };
    Ok(Program {
        ranks: 1,
        eager: 0,
        comms: 1,
        names: Names::from_vec(vec![in alloc; Name::from_slice(alloc, b"a")?]?),
        lens,
        starts,
        shows: Shows::empty(alloc),
        tasks: Tasks::from_vec(vec![in alloc; task]?),
    })
}

#[test]
#[tactic(auto, using(crate::proofs::Lying::places_stay))]
fn a_ticket_lies_until_it_is_taken(rt: HostRuntime) -> Result<(), Fail> {
    let alloc = rt.alloc();
    let program = two_receives(alloc)?;
    let (hall, mut holder) = lone(alloc)?;
    let mut tickets = Tickets::build(alloc, &program)?;
    let first = ReqNo {
        task: TaskNo(0),
        nth: 0,
    };
    let second = ReqNo {
        task: TaskNo(0),
        nth: 1,
    };
    tickets.open(&hall, &mut holder, second);
    assert!(rt; tickets.take(first).is_none());
    let ticket = tickets.take(second).ok_or("the ticket lies there")?;
    assert_eq!(rt;
        (ticket.meeting(), ticket.round(), ticket.place()),
        (0, 0, 1)
    );
    assert!(rt; tickets.take(second).is_none());
    Ok(())
}

#[test]
fn a_task_has_a_place_for_each_posting(rt: HostRuntime) -> Result<(), Fail> {
    let program = two_receives(rt.alloc())?;
    for task in program.tasks.as_slice() {
        assert_eq!(rt; request_count(task), 2);
    }
    Ok(())
}

//! Rounds as sequences of calls.
ghost use Rattle.std.specs.Prelude.{◌≡◌, ◌+◌, ◌<◌, ◌^◌, [], IfOk};
ghost use Rattle.meet_hall.specs.Holders.{desk};
ghost use Rattle.meet_hall.specs.Views.{first_desk};

use crate::hall::opening_word;
use crate::{Guest, Hall, Holder, Met};
use std::alloc::{AllocError, Global};
use std::test::Fail;

// A number, which fits anywhere.
#[derive(Clone, Copy, Debug, PartialEq, Eq)]
struct Number(u32);

impl Guest for Number {
    ghost fits = { λ _ _ _ _. Unit {0} };
}

// A hall of one meeting with so many places, and its holder.
fn lone(alloc: Global, places: u32) -> Result<(Hall<Number, Number>, Holder), AllocError>
    requires { places + 1 < 2 ^ 32 }
    ensures { IfOk result (λ t. desk t.1 ≡ first_desk t.0 0 0 places) }
{
    let (hall, mut holders) = Hall::build(alloc, &[places])?;
    let Some(holder) = holders.pop() else {
        return Err(AllocError);
    };
    Ok((hall, holder))
}

#[tactic(auto, using(crate::proofs::PlaceLemmas::issued_there, crate::proofs::PlaceLemmas::issued_none, crate::proofs::PlaceLemmas::without_shorter))]
// Takes the notes that are left, first to last, and adds them up.
fn take_all(hall: &Hall<Number, Number>, holder: &mut Holder) -> u32
    requires { holder.old.hall ≡ hall.now }
    ensures { holder.new ≡ record holder.old { left = [] } }
{
    let mut sum = 0u32;
    while let Some(place) = holder.issued(0) {
        sum = sum.wrapping_add(hall.take_note(holder, place).0);
    }
    sum
}

#[test]
fn a_ticket_that_comes_after_its_holder_is_last(rt: HostRuntime) -> Result<(), Fail> {
    let (hall, mut holder) = lone(rt.alloc(), 1)?;
    let ticket = hall.issue(&mut holder, 0);
    assert_eq!(rt;
        (ticket.meeting(), ticket.round(), ticket.place()),
        (0, 0, 0)
    );
    let Met::Waiting(stub) = hall.park(holder, Number(7)) else {
        return Err("the ticket had not come".into());
    };
    assert_eq!(rt; (stub.meeting, stub.round, stub.left), (0, 0, 1));
    let Met::Last(mut next, given) = hall.arrive(ticket, Number(8)) else {
        return Err("all had come".into());
    };
    assert_eq!(rt; (next.meeting(), next.round(), given.0), (0, 1, 7));
    assert_eq!(rt; (next.issued(0), next.issued(1)), (Some(0), None));
    assert_eq!(rt; take_all(&hall, &mut next), 8);
    assert_eq!(rt; next.issued(0), None);
    Ok(())
}

#[test]
fn a_holder_that_comes_after_its_ticket_is_last(rt: HostRuntime) -> Result<(), Fail> {
    let (hall, mut holder) = lone(rt.alloc(), 1)?;
    let ticket = hall.issue(&mut holder, 0);
    let Met::Waiting(stub) = hall.arrive(ticket, Number(8)) else {
        return Err("the holder had not come".into());
    };
    assert_eq!(rt; (stub.meeting, stub.round, stub.left), (0, 0, 1));
    let Met::Last(mut next, given) = hall.park(holder, Number(7)) else {
        return Err("all had come".into());
    };
    assert_eq!(rt; (next.round(), given.0, next.issued(0)), (1, 7, Some(0)));
    assert_eq!(rt; take_all(&hall, &mut next), 8);
    Ok(())
}

#[test]
fn a_holder_without_tickets_is_last(rt: HostRuntime) -> Result<(), Fail> {
    let (hall, holder) = lone(rt.alloc(), 1)?;
    let Met::Last(next, given) = hall.park(holder, Number(7)) else {
        return Err("there is no other party".into());
    };
    assert_eq!(rt; (next.round(), given.0, next.issued(0)), (1, 7, None));
    let (hall, holder) = lone(rt.alloc(), 0)?;
    assert!(rt; matches!(hall.park(holder, Number(7)), Met::Last(_, Number(7))));
    Ok(())
}

#[test]
fn after_the_last_round_comes_round_0(rt: HostRuntime) -> Result<(), Fail> {
    let cases = [
        (0u32, 1u64),
        (1, (1 << 32) + 1),
        (u32::MAX, u64::MAX - (1 << 32) + 2),
        (u32::MAX.wrapping_add(1), 1),
    ];
    for (round, want) in cases {
        assert_eq!(rt; opening_word(round), want, "round {round}");
    }
    Ok(())
}

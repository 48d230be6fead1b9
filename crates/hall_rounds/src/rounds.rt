//! Whole rounds.

ghost use Rattle.std.specs.Prelude.{◌≡◌, IfOk, IfSome};
ghost use denote.Param.Send.{IsSync};
ghost use Rattle.hall_rounds.specs.Rounds.{AtRest, Begins, MayPark, MayArrive, EndsAt};

use crate::party::{Number, arrive, park};
use meet_hall::{Hall, Holder, Met, Ticket};
use std::alloc::{AllocError, Global};
use std::thread::{Threads, join};

/// A hall of one meeting with three places, and its holder.
pub fn lone(alloc: Global) -> Result<(Hall<Number, Number>, Holder), AllocError>
    ensures { IfOk result (λ made. AtRest made.0 made.1) }
{
    let (hall, mut holders) = Hall::build(alloc, &[3])?;
    let Some(holder) = holders.pop() else {
        return Err(AllocError);
    };
    Ok((hall, holder))
}

// Takes the notes that are left, and adds them up.
#[tactic(auto, using(meet_hall::proofs::PlaceLemmas::issued_there, meet_hall::proofs::PlaceLemmas::issued_none, meet_hall::proofs::PlaceLemmas::without_shorter))]
fn take_all(hall: &Hall<Number, Number>, holder: &mut Holder) -> u32
    requires { Begins hall.now holder.old }
    ensures { AtRest hall.now holder.new }
{
    let mut sum = 0u32;
    while let Some(place) = holder.issued(0) {
        sum = sum.wrapping_add(hall.take_note(holder, place).0);
    }
    sum
}

// How many parties were last so far, and the holder and record of the latest of them.
#[derive(Drop)]
struct Ended {
    lasts: u32,
    last: Option<(Holder, u32)>,
}

// The same with one party more.
fn with(hall: &Hall<Number, Number>, ended: Ended, met: Met<Number>) -> Ended
    requires before { IfSome ended.last (λ r. Begins hall.now r.0) }
    requires ends { EndsAt hall.now met }
    ensures { IfSome result.last (λ r. Begins hall.now r.0) }
{
    let _ = hall;
    match met {
        Met::Waiting(_) => ended,
        Met::Last(next, given) => Ended {
            lasts: ended.lasts.wrapping_add(1),
            last: Some((next, given.0)),
        },
    }
}

// Where exactly one party was last: the holder of the next round, and the sum of the record and all notes.
fn close(hall: &Hall<Number, Number>, ended: Ended) -> Option<(Holder, u32)>
    requires { IfSome ended.last (λ r. Begins hall.now r.0) }
    ensures { IfSome result (λ r. AtRest hall.now r.0) }
{
    if ended.lasts != 1 {
        return None;
    }
    let (mut holder, given) = ended.last?;
    let sum = take_all(hall, &mut holder);
    Some((holder, given.wrapping_add(sum)))
}

/// A round of a holder and one ticket on this thread: the holder of the next round with the sum of what was left, or None where
/// not exactly one party was last.
pub fn one_comes(hall: &Hall<Number, Number>, holder: Holder) -> Option<(Holder, u32)>
    requires { AtRest hall.now holder }
    ensures { IfSome result (λ r. AtRest hall.now r.0) }
{
    let mut holder = holder;
    let ticket = hall.issue(&mut holder, 0);
    let one = park(hall, holder, 0);
    let other = arrive(hall, ticket, 0);
    let nobody = Ended {
        lasts: 0,
        last: None,
    };
    close(hall, with(hall, with(hall, nobody, one), other))
}

/// A round of a holder and one ticket, each on a thread of its own: the holder of the next round with the sum of what was left,
/// or None where not exactly one party was last.
pub fn two_come<R: Threads>(
    rt: &R,
    hall: &Hall<Number, Number>,
    holder: Holder,
    turns: u32,
) -> Option<(Holder, u32)>
    requires { AtRest hall.now holder }
    ensures { IfSome result (λ r. AtRest hall.now r.0) }
{
    let mut holder = holder;
    let ticket = hall.issue(&mut holder, 0);
    let (one, other) = holder_and_ticket(rt, hall, holder, ticket, turns);
    let nobody = Ended {
        lasts: 0,
        last: None,
    };
    close(hall, with(hall, with(hall, nobody, one), other))
}

/// The same with three tickets, on four threads.
pub fn four_come<R: Threads + Sync>(
    rt: &R,
    hall: &Hall<Number, Number>,
    holder: Holder,
    turns: u32,
) -> Option<(Holder, u32)>
    requires { AtRest hall.now holder }
    ensures { IfSome result (λ r. AtRest hall.now r.0) }
{
    let mut holder = holder;
    let first = hall.issue(&mut holder, 0);
    let second = hall.issue(&mut holder, 1);
    let third = hall.issue(&mut holder, 2);
    let (pair, others) = join(
        rt,
        || -> (Met<Number>, Met<Number>)
            requires { IsSync R.row × MayPark hall.now holder × MayArrive hall.now first }
            ensures { EndsAt hall.entry.now result.0 × EndsAt hall.entry.now result.1 }
        { holder_and_ticket(rt, hall, holder, first, turns) },
        || -> (Met<Number>, Met<Number>)
            requires { IsSync R.row × MayArrive hall.now second × MayArrive hall.now third }
            ensures { EndsAt hall.entry.now result.0 × EndsAt hall.entry.now result.1 }
        { two_tickets(rt, hall, second, third, turns / 7) },
    );
    let nobody = Ended {
        lasts: 0,
        last: None,
    };
    let ended = with(hall, with(hall, nobody, pair.0), pair.1);
    close(hall, with(hall, with(hall, ended, others.0), others.1))
}

fn holder_and_ticket<R: Threads>(
    rt: &R,
    hall: &Hall<Number, Number>,
    holder: Holder,
    ticket: Ticket,
    turns: u32,
) -> (Met<Number>, Met<Number>)
    requires holder { MayPark hall.now holder }
    requires ticket { MayArrive hall.now ticket }
    ensures { EndsAt hall.now result.0 × EndsAt hall.now result.1 }
{
    join(
        rt,
        || -> Met<Number>
            requires { MayPark hall.now holder }
            ensures { EndsAt hall.entry.now result }
        { park(hall, holder, turns % 3) },
        || -> Met<Number>
            requires { MayArrive hall.now ticket }
            ensures { EndsAt hall.entry.now result }
        { arrive(hall, ticket, turns % 4) },
    )
}

fn two_tickets<R: Threads>(
    rt: &R,
    hall: &Hall<Number, Number>,
    one: Ticket,
    other: Ticket,
    turns: u32,
) -> (Met<Number>, Met<Number>)
    requires one { MayArrive hall.now one }
    requires other { MayArrive hall.now other }
    ensures { EndsAt hall.now result.0 × EndsAt hall.now result.1 }
{
    join(
        rt,
        || -> Met<Number>
            requires { MayArrive hall.now one }
            ensures { EndsAt hall.entry.now result }
        { arrive(hall, one, turns % 3) },
        || -> Met<Number>
            requires { MayArrive hall.now other }
            ensures { EndsAt hall.entry.now result }
        { arrive(hall, other, turns % 4) },
    )
}

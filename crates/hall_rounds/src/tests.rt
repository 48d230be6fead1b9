//! Many rounds on two and four threads: each has exactly one last, which gets the record and all notes.
ghost use Rattle.hall_rounds.specs.Rounds.{AtRest};

use crate::{Number, four_come, lone, one_comes, two_come};
use meet_hall::{Hall, Holder};
use std::test::Fail;
use std::thread::Threads;

const ROUNDS: u32 = 300;

// The next of a row of numbers that look random.
fn shuffled(turns: u32) -> u32 {
    turns.wrapping_mul(1_664_525).wrapping_add(1_013_904_223) / 3
}

// How many rounds on two threads go by with all that was left, one after the other.
fn good_pairs<R: Threads>(rt: &R, hall: &Hall<Number, Number>, holder: Holder) -> u32
    requires { AtRest hall.now holder }
{
    let mut holder = holder;
    let mut turns = 1;
    for round in 0..ROUNDS {
        if holder.round() != round {
            return round;
        }
        match two_come(rt, hall, holder, turns) {
            Some((next, 1001)) => holder = next,
            _ => return round,
        }
        turns = shuffled(turns);
    }
    ROUNDS
}

// The same on four threads.
fn good_fours<R: Threads + Sync>(rt: &R, hall: &Hall<Number, Number>, holder: Holder) -> u32
    requires { AtRest hall.now holder }
{
    let mut holder = holder;
    let mut turns = 1;
    for round in 0..ROUNDS {
        if holder.round() != round {
            return round;
        }
        match four_come(rt, hall, holder, turns) {
            Some((next, 1006)) => holder = next,
            _ => return round,
        }
        turns = shuffled(turns);
    }
    ROUNDS
}

#[test]
fn of_two_threads_one_is_last_in_each_round(rt: HostRuntime) -> Result<(), Fail> {
    let (hall, holder) = lone(rt.alloc())?;
    assert_eq!(rt; good_pairs(&rt, &hall, holder), ROUNDS);
    Ok(())
}

#[test]
fn of_four_threads_one_is_last_in_each_round(rt: HostRuntime) -> Result<(), Fail> {
    let (hall, holder) = lone(rt.alloc())?;
    assert_eq!(rt; good_fours(&rt, &hall, holder), ROUNDS);
    Ok(())
}

#[test]
fn on_one_thread_the_ticket_is_last(rt: HostRuntime) -> Result<(), Fail> {
    let (hall, holder) = lone(rt.alloc())?;
    let Some((next, sum)) = one_comes(&hall, holder) else {
        return Err("not exactly one was last".into());
    };
    assert_eq!(rt; (next.round(), sum), (1, 1001));
    Ok(())
}

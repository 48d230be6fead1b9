//! The acts on the ready queue.

ghost use Rattle.std.specs.Prelude.{◌≡◌, Some};
ghost use Rattle.turn_table.specs.declared.turns.Act.TheVariants as act;
ghost use Rattle.turn_table.specs.declared.turns.Answer.TheVariants as answer;
ghost use Rattle.turn_table.specs.declared.hands.Look.TheVariants as look;
ghost use Rattle.turn_table.specs.declared.hands.Shape.TheVariants as shape;
ghost use Rattle.turn_table.specs.Turns.{act_of, shape_after};
ghost use Rattle.tampi_calls.specs.Keeping.{shape_of, HeldKeeps};
ghost use Rattle.worker_acts.specs.Acts.{PopShows, PushShows};
ghost use Rattle.worker_acts.specs.Queued.{taken_out, gave, item_in, left_in, took_it};

use ready_bag::ReadyBag;
use std::sync::Wait;
use tampi_calls::{Able, Answer, Hand, Held, Item, Look, Run, Site};

/// Takes a task out of the ready queue.
pub fn pop<K: Run, H: Site, B: ReadyBag<Item<K, H>>, R: Wait>(
    rt: &R,
    bag: &B,
    hand: Hand<K, H, B::Pass>,
) -> (Hand<K, H, B::Pass>, Answer)
    requires planned { act_of (shape_of hand.held) ≡ act.Pop }
    requires home { B.IsOf hand.bag bag.now }
    ensures next { shape_of result.0.held ≡ shape_after (shape_of hand.held) result.1 }
    ensures shows { PopShows (B.counts hand.bag) (B.counts result.0.bag) result.1 }
    ensures empty { result.1 ≡ answer.None → B.WasEmpty bag.now hand.bag }
    ensures home { B.IsOf result.0.bag bag.now }
    ensures others { result.0 ≡ record hand { held = result.0.held; bag = result.0.bag } }
{
    let Hand {
        worker,
        pass,
        bag: mut own,
        held: _,
        last,
        gone,
    } = hand;
    let (held, answer) = popped(bag.take(rt, &mut own));
    let hand = Hand {
        worker,
        pass,
        bag: own,
        held,
        last,
        gone,
    };
    (hand, answer)
}

// What the hand holds after the queue gave this, and the answer.
fn popped<K: Run, H: Site>(item: Option<Item<K, H>>) -> (Held<K, H>, Answer)
    ensures held { result.0 ≡ taken_out item }
    ensures answer { result.1 ≡ gave item }
    ensures keeps { HeldKeeps K.program result.0 }
{
    match item {
        None => (Held::Nothing(Look::Offer), Answer::None),
        Some(Item::Fresh(fresh)) => (Held::Fresh(fresh), Answer::TookFresh),
        Some(Item::Live(able)) => (Held::Ready(able.into_live()), Answer::TookLive),
    }
}

/// Puts the task that the hand holds into the ready queue. Where the queue is full, the hand keeps the task, which is then to be started or to go on.
pub fn push<K: Run, H: Site, B: ReadyBag<Item<K, H>>, R: Wait>(
    rt: &R,
    bag: &B,
    hand: Hand<K, H, B::Pass>,
) -> (Hand<K, H, B::Pass>, Answer)
    requires planned { act_of (shape_of hand.held) ≡ act.Push }
    requires home { B.IsOf hand.bag bag.now }
    ensures next { shape_of result.0.held ≡ shape_after (shape_of hand.held) result.1 }
    ensures shows { PushShows (B.counts hand.bag) (B.counts result.0.bag) hand.held result.0.held result.1 }
    ensures full { result.1 ≡ answer.Full → B.WasFull bag.now hand.bag }
    ensures home { B.IsOf result.0.bag bag.now }
    ensures others { result.0 ≡ record hand { held = result.0.held; bag = result.0.bag } }
{
    let Hand {
        worker,
        pass,
        bag: mut own,
        held,
        last,
        gone,
    } = hand;
    let (held, answer) = pushed(bag.put(rt, &mut own, item_of(held)));
    let hand = Hand {
        worker,
        pass,
        bag: own,
        held,
        last,
        gone,
    };
    (hand, answer)
}

// The task that is held, as it lies in the queue.
fn item_of<K: Run, H: Site>(held: Held<K, H>) -> Item<K, H>
    requires planned { act_of (shape_of held) ≡ act.Push }
    requires keeps { HeldKeeps K.program held }
    ensures { item_in held ≡ Some result }
{
    match held {
        Held::Offered(fresh) => Item::Fresh(fresh),
        Held::Resumed(live) => Item::Live(Able::new(live)),
        _ => unreachable!(),
    }
}

// What the hand holds after the queue took the task or gave it back, and the answer.
fn pushed<K: Run, H: Site>(put: Result<(), Item<K, H>>) -> (Held<K, H>, Answer)
    ensures held { result.0 ≡ left_in put }
    ensures answer { result.1 ≡ took_it put }
    ensures keeps { HeldKeeps K.program result.0 }
{
    match put {
        Ok(()) => (Held::Nothing(Look::Poll), Answer::Put),
        Err(Item::Fresh(fresh)) => (Held::Fresh(fresh), Answer::Full),
        Err(Item::Live(able)) => (Held::Ready(able.into_live()), Answer::Full),
    }
}

//! A task parks at its meeting.

ghost use Rattle.std.specs.Prelude.{◌≡◌};
ghost use Rattle.turn_table.specs.declared.turns.Act.TheVariants as act;
ghost use Rattle.turn_table.specs.Turns.{act_of, shape_after};
ghost use Rattle.tampi_calls.specs.Keeping.{shape_of};
ghost use Rattle.worker_acts.specs.Acts.{ParkShows};

use meet_hall::Hall;
use pass_table::PassTable;
use rt_base::{Gate, Point};
use shared_tasks::{Arrival, Rest};
use tampi_calls::{Answer, Hand, Held, Look, Parked, Run, Site};

/// Parks the task that the hand holds at its meeting. Where it is the last to come, it is ready again. The worker passes the gate before.
pub fn park<K: Run, H: Site, P: Drop, G: Gate>(
    table: &PassTable,
    hall: &Hall<Parked<K>, Arrival<K>>,
    gate: &G,
    hand: Hand<K, H, P>,
) -> (Hand<K, H, P>, Answer)
    requires table { table.now ≡ K.passes }
    requires hall { hall.now ≡ H.hall }
    requires planned { act_of (shape_of hand.held) ≡ act.Park }
    ensures next { shape_of result.0.held ≡ shape_after (shape_of hand.held) result.1 }
    ensures shows { ParkShows hand result.0 result.1 }
    ensures others { result.0 ≡ record hand { held = result.0.held; last = result.0.last } }
{
    let Hand {
        worker,
        pass,
        bag,
        held,
        last,
        gone,
    } = hand;
    let Held::Pending(live, door) = held else {
        unreachable!();
    };
    gate.pass(worker, Point::Park);
    match shared_tasks::park(table, hall, live, door) {
        Rest::Waiting(stub) => {
            let held = Held::Nothing(Look::Poll);
            let hand = Hand {
                worker,
                pass,
                bag,
                held,
                last: Some(stub),
                gone,
            };
            (hand, Answer::Waiting)
        }
        Rest::Back(live) => {
            let held = Held::Ready(live);
            let hand = Hand {
                worker,
                pass,
                bag,
                held,
                last,
                gone,
            };
            (hand, Answer::Last)
        }
    }
}

//! How a task is parted from the holder of the meeting at which it pauses, and joined to it again.

ghost use Rattle.std.specs.Prelude.{◌≡◌};
ghost use Rattle.shared_tasks.specs.Values.{held_at, parked_at, joined};
ghost use Rattle.shared_tasks.specs.Places.{IsHolder, meeting_of};
ghost use Rattle.shared_tasks.specs.Keeping.{IsLive, MayPark, FitsParked};

use crate::live::Live;
use crate::names::{Run, Site};
use crate::parked::Parked;
use meet_hall::Holder;
use std::marker::PhantomData;
use turn_table::Door;

/// The holder of the meeting at which the task pauses, and the paused task.
pub fn pause<K: Run, H: Site>(live: Live<K, H>, door: Door) -> (Holder, Parked<K>)
    requires may { MayPark K.program door live }
    ensures holder { result.0 ≡ held_at door live }
    ensures parked { result.1 ≡ parked_at door live }
    ensures same { joined door result.0 result.1 ≡ live }
    ensures of_hall { IsHolder K.program H.hall live.rec.task (meeting_of door live.rec.task) result.0 }
    ensures fits { FitsParked K.program K.workers K.passes H.hall result.1 result.0.meeting result.0.issued }
{
    let (rec, pass, pause, events) = live.into_parts();
    match door {
        Door::Pause => (
            pause,
            Parked {
                rec,
                pass,
                other: events,
                door,
                of: PhantomData,
            },
        ),
        Door::Events => (
            events,
            Parked {
                rec,
                pass,
                other: pause,
                door,
                of: PhantomData,
            },
        ),
    }
}

/// The task that was paused, with the holder of the meeting at which it was.
pub fn resume<K: Run, H: Site>(holder: Holder, parked: Parked<K>) -> Live<K, H>
    requires { IsLive K.program K.workers K.passes H.hall (joined parked.door holder parked) }
    ensures live { result ≡ joined parked.door holder parked }
    ensures holder { held_at parked.door result ≡ holder }
    ensures parked { parked_at parked.door result ≡ parked }
{
    let Parked {
        rec,
        pass,
        other,
        door,
        of: _,
    } = parked;
    match door {
        Door::Pause => Live::new(rec, pass, holder, other),
        Door::Events => Live::new(rec, pass, other, holder),
    }
}

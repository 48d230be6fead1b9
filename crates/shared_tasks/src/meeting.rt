//! Tasks and completions come to their meetings, and the last takes the task up again.

ghost use Rattle.std.specs.Prelude.{◌≡◌, [], ◌∷◌};
ghost use Rattle.meet_hall.specs.Answers.{ParkWaits, ArriveWaits};
ghost use Rattle.shared_tasks.specs.Values.{held_at};
ghost use Rattle.shared_tasks.specs.Keeping.{MayPark, FitsParked, IsAble, IsOfMeeting};
ghost use Rattle.shared_tasks.specs.Pausing.{IsNext, SawMore, IfWaiting, IfBack};

use crate::arrival::Arrival;
use crate::live::Live;
use crate::names::{Run, Site};
use crate::notice::Notice;
use crate::parked::Parked;
use crate::pausing::{pause, resume};
use crate::rest::Rest;
use meet_hall::{Hall, Holder, Met};
use pass_table::PassTable;
use std::marker::PhantomData;
use turn_table::Door;

/// The last of a round takes the task up again, whose pass meets the notes of all that came. After that the task may make its next move.
pub fn take_up<K: Run, H: Site>(
    table: &PassTable,
    hall: &Hall<Parked<K>, Arrival<K>>,
    holder: Holder,
    parked: Parked<K>,
) -> Live<K, H>
    requires table { table.now ≡ K.passes }
    requires hall { hall.now ≡ H.hall }
    requires holder { IsNext K.program H.hall parked.rec.task holder }
    requires fits { FitsParked K.program K.workers K.passes H.hall parked holder.meeting holder.left }
    ensures rec { result.rec ≡ parked.rec }
    ensures pass { SawMore parked.pass result.pass }
    ensures able { IsAble K.program result }
{
    let mut holder = holder;
    let Parked {
        rec,
        mut pass,
        other,
        door,
        of: _,
    } = parked;
    while let Some(place) = holder.issued(0) {
        let Arrival {
            req: _,
            note,
            of: _,
        } = hall.take_note(&mut holder, place);
        pass = table.meet(pass, note);
    }
    resume(
        holder,
        Parked {
            rec,
            pass,
            other,
            door,
            of: PhantomData,
        },
    )
}

/// The task parks at one of its meetings. Where it is the last to come, it goes on.
pub fn park<K: Run, H: Site>(
    table: &PassTable,
    hall: &Hall<Parked<K>, Arrival<K>>,
    live: Live<K, H>,
    door: Door,
) -> Rest<K, H>
    requires table { table.now ≡ K.passes }
    requires hall { hall.now ≡ H.hall }
    requires may { MayPark K.program door live }
    ensures waiting { IfWaiting result (ParkWaits (held_at door live)) }
    ensures back { IfBack result (λ back. (back.rec ≡ live.rec) × SawMore live.pass back.pass × IsAble K.program back) }
{
    let (holder, parked) = pause(live, door);
    match hall.park(holder, parked) {
        Met::Waiting(stub) => Rest::Waiting(stub),
        Met::Last(next, parked) => Rest::Back(take_up(table, hall, next, parked)),
    }
}

/// The completion comes to its meeting. Where it is the last to come, the task that is parked there goes on: the meeting is one at which it stands.
pub fn arrive<K: Run, H: Site>(
    table: &PassTable,
    hall: &Hall<Parked<K>, Arrival<K>>,
    notice: Notice<K, H>,
) -> Rest<K, H>
    requires table { table.now ≡ K.passes }
    requires hall { hall.now ≡ H.hall }
    ensures waiting { IfWaiting result (ArriveWaits notice.ticket) }
    ensures back { IfBack result (λ back. (back.rec.task ≡ notice.req.task.0) × IsAble K.program back) }
    ensures meeting { IfBack result (IsOfMeeting notice.ticket.meeting) }
{
    let (req, ticket, note) = notice.into_parts();
    let arrival = Arrival {
        req,
        note,
        of: PhantomData,
    };
    match hall.arrive(ticket, arrival) {
        Met::Waiting(stub) => Rest::Waiting(stub),
        Met::Last(next, parked) => Rest::Back(take_up(table, hall, next, parked)),
    }
}

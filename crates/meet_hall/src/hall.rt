//! The hall and its calls. None of them takes memory or waits.

ghost use Rattle.std.specs.Prelude.{◌≡◌, ◌+◌, ◌*◌, ◌%◌, ◌^◌, ◌<◌, suc, [], ◌∷◌};
ghost use Rattle.meetings.specs.Meetings.{times};
ghost use Rattle.meet_hall.specs.declared.slot.Slot.TheVariants.{Record};
ghost use Rattle.meet_hall.specs.declared.view.View.TheVariants.{Ends};
ghost use Rattle.meet_hall.specs.Answers.{IfWaiting, IfLast, ParkWaits, ParkEnds, ArriveWaits, ArriveEnds};
ghost use Rattle.meet_hall.specs.Holders.{holder_at, issuing_one, ticket_from, noted};
ghost use Rattle.meet_hall.specs.Rule.{lists_of};
ghost use Rattle.meet_hall.specs.Views.{desk_of, next_desk};

use crate::guest::Guest;
use crate::party::{Holder, Met, Stub, Ticket};
use crate::plays::{
    Arrives, Brings, Choice, Issues, MakesTicket, Opens, Parks, Rearms, Returns, TakesNote,
    TakesRecord,
};
use crate::rule::Rule;
use crate::slot::Slot;
use crate::view::View;
use atomic_table::{Badge, Seat, Table};
use std::alloc::Global;
use std::marker::{Brand, Model};
use std::mem;

// A word has its round in the high half and its count in the low half.
const ONE_ROUND: u64 = 1 << 32;

/// Meetings of holders with their tickets, each with one atomic word and a slot for every record and note.
#[derive(Drop)]
pub struct Hall<R: Guest, N: Guest> {
    pub(crate) table: Table<Slot<R, N>, View, Vec<u32>, Rule, Global>,
}

impl<R: Guest, N: Guest> Model for Hall<R, N> {
    ghost use Rattle.std.specs.Prelude.{◌≡◌, length};
    ghost use Rattle.atomic_table.specs.Seated.{TableId};
    ghost use Rattle.meet_hall.specs.Plan.{IsNarrow};

    ghost Value = { TableId };

    ghost view = { λ h. h.table.shared.table_id };

    ghost invariant = { λ h. (h.table.shared.table_id.words ≡ length h.table.shared.key.items) × IsNarrow h.table.shared.key.items };
}

impl<R: Guest, N: Guest> Hall<R, N> {
    /// One party more in the holder's round: the ticket of a place.
    pub fn issue(&self, holder: &mut Holder, place: u32) -> Ticket
        requires hall { holder.old.hall ≡ self.now }
        requires within { place < holder.old.places }
        requires new { times place holder.old.issued ≡ 0 }

        // No note of an earlier round is left at the place.
        requires clear { times place holder.old.left ≡ 0 }
        ensures holder { holder.new ≡ issuing_one holder.old place }
        ensures ticket { result ≡ ticket_from holder.old place result.seat }
    {
        self.issue_as::<Brand>(holder, place)
    }

    fn issue_as<P: Choice>(&self, holder: &mut Holder, place: u32) -> Ticket
        requires hall { holder.old.hall ≡ self.now }
        requires within { place < holder.old.places }
        requires new { times place holder.old.issued ≡ 0 }
        requires clear { times place holder.old.left ≡ 0 }
        requires choice { place ≡ P.place }
        ensures holder { holder.new ≡ issuing_one holder.old place }
        ensures ticket { result ≡ ticket_from holder.old place result.seat }
    {
        let badge = mem::replace(&mut holder.badge, Badge::blank());
        let mut seat = badge.into_seat::<Slot<R, N>>();
        let word = holder.meeting as usize;
        self.table.shared.fetch_add::<Issues<P>>(&mut seat, word, 1);
        let ticket = self.table.shared.split_seat::<MakesTicket>(&mut seat);
        holder.badge = seat.into_badge();
        holder.lists.add(place);
        Ticket {
            badge: ticket.into_badge(),
            meeting: holder.meeting,
            round: holder.round,
            base: holder.base,
            places: holder.lists.places(),
            place,
        }
    }

    /// The holder comes, and leaves a record.
    pub fn park(&self, holder: Holder, guest: R) -> Met<R>
        requires hall { holder.hall ≡ self.now }

        // No note of the round before is left: `holder.issued(0)` is None.
        requires clear { holder.left ≡ [] }
        requires fits { R.fits guest self.now holder.meeting holder.issued }
        ensures waiting { IfWaiting result (ParkWaits holder) }
        ensures last { IfLast result (λ next given. ParkEnds holder next × (given ≡ guest)) }
    {
        let Holder {
            badge,
            meeting,
            round,
            base,
            lists,
        } = holder;
        let word = meeting as usize;
        let mut seat = badge.into_seat::<Slot<R, N>>();
        self.table.shared.load::<Opens>(&mut seat, word);
        let empty = self
            .table
            .shared
            .exchange(&mut seat, base, Slot::Record(guest, lists));
        empty.vanish();
        let found = self.table.shared.fetch_sub::<Parks>(&mut seat, word, 1);
        let count = found % ONE_ROUND;
        if count == 1 {
            let (next, given) = self.end_round(seat, meeting, round, base);
            return Met::Last(next, given);
        }
        Met::Waiting(Stub {
            meeting,
            round,
            left: (count - 1) as u32,
            badge: seat.into_badge(),
        })
    }

    /// The ticket comes, and leaves a note.
    pub fn arrive(&self, ticket: Ticket, note: N) -> Met<R>
        requires hall { ticket.hall ≡ self.now }
        requires fits { N.fits note self.now ticket.meeting (ticket.place ∷ []) }
        ensures waiting { IfWaiting result (ArriveWaits ticket) }
        ensures last { IfLast result (λ next given. ArriveEnds ticket next × R.fits given self.now ticket.meeting next.left) }
    {
        let Ticket {
            badge,
            meeting,
            round,
            base,
            places: _,
            place,
        } = ticket;
        let word = meeting as usize;
        let mut seat = badge.into_seat::<Slot<R, N>>();
        self.table.shared.load::<Brings>(&mut seat, word);
        let empty = self
            .table
            .shared
            .exchange(&mut seat, note_slot(base, place), Slot::Note(note));
        empty.vanish();
        let found = self.table.shared.fetch_sub::<Arrives>(&mut seat, word, 1);
        let parties = found % ONE_ROUND;
        if parties == 1 {
            self.table.shared.load::<TakesRecord>(&mut seat, word);
            let (next, given) = self.end_round(seat, meeting, round, base);
            return Met::Last(next, given);
        }
        Met::Waiting(Stub {
            meeting,
            round,
            left: (parties - 1) as u32,
            badge: seat.into_badge(),
        })
    }

    // The last party, with which the record's slot is out, takes the record and begins the next round.
    fn end_round(
        &self,
        seat: Seat<Slot<R, N>, View>,
        meeting: u32,
        round: u32,
        base: usize,
    ) -> (Holder, R)
        requires hall { (seat.table_id ≡ self.now) × ((desk_of seat.me.0).hall ≡ self.now) }
        requires ends { (guest : R)
            × (seat.me ≡ (Ends (desk_of seat.me.0), (base, Record guest (lists_of (desk_of seat.me.0).issued (desk_of seat.me.0).places)) ∷ [])) }
        requires meeting { ((desk_of seat.me.0).meeting ≡ meeting) × (meeting < self.now.words) }
        requires round { (desk_of seat.me.0).round % 2 ^ 32 ≡ round }
        requires base { ((desk_of seat.me.0).base ≡ base) × (base + (desk_of seat.me.0).places < 2 ^ 63) }
        ensures holder { result.0 ≡ holder_at seat.id (next_desk (desk_of seat.me.0)) }
        ensures record_ { seat.me.1 ≡ (base, Record result.1 (lists_of (desk_of seat.me.0).issued (desk_of seat.me.0).places)) ∷ [] }
    {
        let mut seat = seat;
        let full = self.table.shared.exchange(&mut seat, base, Slot::Empty);
        let (given, mut lists) = full.into_record();
        let next = round.wrapping_add(1);
        self.table
            .shared
            .store::<Rearms>(&mut seat, meeting as usize, opening_word(next));
        lists.turn();
        let holder = Holder {
            badge: seat.into_badge(),
            meeting,
            round: next,
            base,
            lists,
        };
        (holder, given)
    }

    /// Takes the note of a place of the round that ended last.
    pub fn take_note(&self, holder: &mut Holder, place: u32) -> N
        requires hall { holder.old.hall ≡ self.now }
        requires there { 0 < times place holder.old.left }
        ensures holder { holder.new ≡ noted holder.old place }
        ensures fits { N.fits result self.now holder.old.meeting (place ∷ []) }
    {
        self.take_note_as::<Brand>(holder, place)
    }

    fn take_note_as<P: Choice>(&self, holder: &mut Holder, place: u32) -> N
        requires hall { holder.old.hall ≡ self.now }
        requires there { 0 < times place holder.old.left }
        requires choice { place ≡ P.place }
        ensures holder { holder.new ≡ noted holder.old place }
        ensures fits { N.fits result self.now holder.old.meeting (place ∷ []) }
    {
        let badge = mem::replace(&mut holder.badge, Badge::blank());
        let mut seat = badge.into_seat::<Slot<R, N>>();
        let word = holder.meeting as usize;
        self.table.shared.load::<TakesNote<P>>(&mut seat, word);
        let full = self
            .table
            .shared
            .exchange(&mut seat, note_slot(holder.base, place), Slot::Empty);
        let note = full.into_note();
        self.table.shared.load::<Returns>(&mut seat, word);
        holder.badge = seat.into_badge();
        holder.lists.take(place);
        note
    }
}

// The slot of a place's note.
fn note_slot(base: usize, place: u32) -> usize
    requires { base < 2 ^ 63 }
    ensures { result ≡ base + suc place }
{
    base + 1 + place as usize
}

// The word of a round in which only the holder is a party.
pub(crate) fn opening_word(round: u32) -> u64
    ensures { result ≡ round * 2 ^ 32 + 1 }
{
    u64::from(round) * ONE_ROUND + 1
}

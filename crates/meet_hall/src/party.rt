//! Holders, tickets, and what a party that comes is answered.

ghost use Rattle.std.specs.Prelude.{◌≡◌, ◌%◌, ◌^◌, slice_get};

use crate::lists::Lists;
use crate::view::View;
use atomic_table::Badge;
use std::marker::Model;

/// A task's own hold on a meeting, in one round. It issues tickets, comes by `park`, and takes the notes of the round before.
#[derive(Drop)]
pub struct Holder {
    pub(crate) badge: Badge<View>,
    pub(crate) meeting: u32,
    pub(crate) round: u32,
    pub(crate) base: usize,
    pub(crate) lists: Lists,
}

impl Model for Holder {
    ghost use Rattle.meet_hall.specs.Holders.{HolderIs, holder_is, HolderStands};

    ghost Value = { HolderIs };

    ghost view = { λ h. holder_is h.badge.id h.badge.table_id h.meeting h.base h.lists h.badge.views };

    ghost invariant = { λ h. HolderStands (holder_is h.badge.id h.badge.table_id h.meeting h.base h.lists h.badge.views) h.badge.views h.round };
}

impl Holder {
    /// The number of its meeting.
    pub fn meeting(&self) -> u32
        ensures { result ≡ self.now.meeting }
    {
        self.meeting
    }

    /// Its round, as the word has it: after 4,294,967,295 comes 0.
    pub fn round(&self) -> u32
        ensures { result ≡ self.now.round % 2 ^ 32 }
    {
        self.round
    }

    /// The ith place of the round that ended last whose note was not taken.
    pub fn issued(&self, i: usize) -> Option<u32>
        ensures { result ≡ slice_get self.now.left i }
    {
        self.lists.nth_left(i)
    }
}

/// One pending completion of a meeting: a party that comes by `arrive`, with a note for its place.
#[derive(Drop)]
pub struct Ticket {
    pub(crate) badge: Badge<View>,
    pub(crate) meeting: u32,
    pub(crate) round: u32,
    pub(crate) base: usize,
    pub(crate) places: u32,
    pub(crate) place: u32,
}

impl Model for Ticket {
    ghost use Rattle.meet_hall.specs.Holders.{TicketIs, ticket_is, TicketStands};

    ghost Value = { TicketIs };

    ghost view = { λ t. ticket_is t.badge.id t.badge.table_id t.meeting t.base t.places t.place t.badge.views };

    ghost invariant = { λ t. TicketStands (ticket_is t.badge.id t.badge.table_id t.meeting t.base t.places t.place t.badge.views) t.badge.views t.round };
}

impl Ticket {
    /// The number of its meeting.
    pub fn meeting(&self) -> u32
        ensures { result ≡ self.now.meeting }
    {
        self.meeting
    }

    /// Its round, as the word has it: after 4,294,967,295 comes 0.
    pub fn round(&self) -> u32
        ensures { result ≡ self.now.round % 2 ^ 32 }
    {
        self.round
    }

    /// Its place.
    pub fn place(&self) -> u32
        ensures { result ≡ self.now.place }
    {
        self.place
    }
}

/// The word after a party's own step: its meeting, the round, and how many parties of it had not come.
#[derive(Drop)]
pub struct Stub {
    pub meeting: u32,
    pub round: u32,
    pub left: u32,
    pub(crate) badge: Badge<View>,
}

impl Model for Stub {
    ghost use Rattle.meet_hall.specs.Holders.{StubIs, stub_is, StubStands};

    ghost Value = { StubIs };

    ghost view = { λ s. stub_is s.badge.id s.badge.table_id s.meeting s.left s.badge.views };

    ghost invariant = { λ s. StubStands (stub_is s.badge.id s.badge.table_id s.meeting s.left s.badge.views) s.badge.views s.round };
}

/// The answer to a party that comes.
#[derive(Drop)]
pub enum Met<R> {
    /// Others have not come.
    Waiting(Stub),
    /// It is the last: the holder of the next round, and the record of the round that ended.
    Last(Holder, R),
}

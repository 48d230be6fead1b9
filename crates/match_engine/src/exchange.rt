//! The exchange: the queues of all ranks, what was posted and what was matched.

ghost use Rattle.std.specs.Prelude.{◌≡◌, ℕ, ◌+◌, ◌≤◌, ◌<◌, ◌^◌, List, [], ◌∷◌, ◌++◌, length, map, replicate, sum_by, option_copied, Some, None, IfOk};
ghost use Rattle.std.specs.List.{range_with_len};
ghost use Rattle.rt_base.specs.Exchange.{exchange_after, partner_of, Sent, Asked, Nowhere, sent_by, asked_by, silent, no_mail};
ghost use Rattle.match_lanes.specs.Shelves.{Shelf};
ghost use Rattle.match_engine.specs.Queues.{exchange_of, keys_of, HasRoomFor, IsPlaced, HasSpent, room_in, room_at};
ghost use Rattle.match_engine.specs.declared.slots.Side.{Side};
ghost use Rattle.match_engine.specs.Routes.{Serves};
ghost use Rattle.match_engine.specs.Slots.{slots_that, is_open, is_due, match_of};

use crate::routes::Way;
use crate::slots::{Call, Progress, Side, Slots};
use match_lanes::{Keys, Match, Message, Queues, Receive};
use rt_base::{Cells, Listed, Peer, ReqNo, TagSel};
use std::alloc::{AllocError, Global};
use std::marker::Model;

/// What is under way between the ranks.
#[derive(Drop)]
pub struct Exchange {
    queues: Vec<Queues>,
    posted: Listed<ReqNo>,
    matches: Listed<Match>,
}

impl Model for Exchange {
    ghost use Rattle.match_engine.specs.Queues.{Traffic};

    ghost Value = { Traffic };

    ghost view = { λ e. record { shelves = e.queues.items; posted = e.posted; matches = e.matches } };
}

impl Exchange {
    /// Nothing is posted, and there is memory for all requests that aren't. These selectors are known at each rank.
    /// Looks at all requests once for each rank.
    pub fn build(
        alloc: Global,
        slots: &Slots,
        keys: &[Keys],
        ranks: u16,
    ) -> Result<Self, AllocError>
        requires slots { sum_by length slots.now < 2 ^ 63 }
        requires ranks { length keys.now ≡ ranks }
        ensures exchange { IfOk result (λ e. exchange_of e ≡ silent ranks) }
        ensures posted { IfOk result (λ e. e.posted.room ≡ slots_that is_open slots.now) }
        ensures matches { IfOk result (λ e. e.matches.room ≡ slots_that is_open slots.now) }
        ensures queues { IfOk result (λ e. (side : Side) (rank : ℕ) → rank < ranks → room_at e side rank ≡ slots_that (is_due side rank) slots.now) }
        ensures keys { IfOk result (λ e. keys_of e ≡ keys.now) }
    {
        let open = slots.open();
        Ok(Exchange {
            queues: queues_of(alloc, slots, keys, ranks)?,
            posted: Listed::with_room(alloc, open)?,
            matches: Listed::with_room(alloc, open)?,
        })
    }

    /// How many matches there are.
    pub fn matched(&self) -> usize
        ensures { result ≡ length self.now.matches.items }
    {
        self.matches.len()
    }

    /// The match of a request that got so far.
    pub fn match_of(&self, progress: Progress) -> Option<&Match>
        ensures { option_copied result ≡ match_of self.now.matches.items progress }
    {
        match progress {
            Progress::Unposted => None,
            Progress::Waits => None,
            Progress::Matched(place) => self.matches.get(place),
        }
    }

    /// Posts a send, and answers the request of the receive that took its message.
    /// In constant time over all postings.
    pub fn post_send(&mut self, req: ReqNo, call: Call, cells: Cells, way: Way) -> Option<ReqNo>
        requires rank { IsPlaced (length self.old.shelves) (sent_by req call.rank call.peer call.tag call.comm cells.items) }
        requires room { HasRoomFor self.old (sent_by req call.rank call.peer call.tag call.comm cells.items) }
        requires way { Serves (keys_of self.old) way (sent_by req call.rank call.peer call.tag call.comm cells.items) }
        ensures exchange { exchange_of self.new
            ≡ exchange_after (exchange_of self.old) req (sent_by req call.rank call.peer call.tag call.comm cells.items) }
        ensures partner { result ≡ partner_of (exchange_of self.old) (sent_by req call.rank call.peer call.tag call.comm cells.items) }
        ensures room { HasSpent self.old self.new (sent_by req call.rank call.peer call.tag call.comm cells.items) }
    {
        match (call.peer, call.tag) {
            (Peer::Rank(to), TagSel::Tag(tag)) => self.send(
                to,
                Message {
                    request: req,
                    comm: call.comm,
                    source: call.rank,
                    tag,
                    cells,
                },
                way,
            ),
            (Peer::Rank(_), TagSel::Any) => self.pass(req),
            (Peer::Any, _) => self.pass(req),
            (Peer::Null, _) => self.pass(req),
        }
    }

    /// Posts a receive, and answers the request of the message that it took. In constant time over all postings.
    pub fn post_receive(&mut self, req: ReqNo, call: Call, way: Way) -> Option<ReqNo>
        requires rank { IsPlaced (length self.old.shelves) (asked_by req call.rank call.peer call.tag call.comm) }
        requires room { HasRoomFor self.old (asked_by req call.rank call.peer call.tag call.comm) }
        requires way { Serves (keys_of self.old) way (asked_by req call.rank call.peer call.tag call.comm) }
        ensures exchange { exchange_of self.new ≡ exchange_after (exchange_of self.old) req (asked_by req call.rank call.peer call.tag call.comm) }
        ensures partner { result ≡ partner_of (exchange_of self.old) (asked_by req call.rank call.peer call.tag call.comm) }
        ensures room { HasSpent self.old self.new (asked_by req call.rank call.peer call.tag call.comm) }
    {
        let wish = Receive {
            request: req,
            comm: call.comm,
            source: call.peer,
            tag: call.tag,
        };
        match call.peer {
            Peer::Rank(_) => self.receive(call.rank, wish, way),
            Peer::Any => self.receive(call.rank, wish, way),
            Peer::Null => self.pass(req),
        }
    }

    // Posts a message to a rank, and answers the request of the receive that took it.
    fn send(&mut self, to: u16, message: Message, way: Way) -> Option<ReqNo>
        requires rank { to < length self.old.shelves }
        requires room { HasRoomFor self.old (Sent to message) }
        requires way { Serves (keys_of self.old) way (Sent to message) }
        ensures exchange { exchange_of self.new ≡ exchange_after (exchange_of self.old) message.request (Sent to message) }
        ensures partner { result ≡ partner_of (exchange_of self.old) (Sent to message) }
        ensures room { HasSpent self.old self.new (Sent to message) }
    {
        note(&mut self.posted, message.request);
        let made = self.queues[to as usize].send(message, way.doors())?;
        let partner = made.receive.request;
        note(&mut self.matches, made);
        Some(partner)
    }

    // Posts a receive at a rank, and answers the request of the message that it took.
    fn receive(&mut self, at: u16, wish: Receive, way: Way) -> Option<ReqNo>
        requires rank { at < length self.old.shelves }
        requires room { HasRoomFor self.old (Asked at wish) }
        requires way { Serves (keys_of self.old) way (Asked at wish) }
        ensures exchange { exchange_of self.new ≡ exchange_after (exchange_of self.old) wish.request (Asked at wish) }
        ensures partner { result ≡ partner_of (exchange_of self.old) (Asked at wish) }
        ensures room { HasSpent self.old self.new (Asked at wish) }
    {
        note(&mut self.posted, wish.request);
        let made = self.queues[at as usize].receive(wish, way.lane())?;
        let partner = made.message.request;
        note(&mut self.matches, made);
        Some(partner)
    }

    // Posts a request to or from the null process (MPI 4.0, 3.11). It has no partner.
    fn pass(&mut self, req: ReqNo) -> Option<ReqNo>
        requires room { HasRoomFor self.old Nowhere }
        ensures exchange { exchange_of self.new ≡ exchange_after (exchange_of self.old) req Nowhere }
        ensures partner { result ≡ None }
        ensures room { HasSpent self.old self.new Nowhere }
    {
        note(&mut self.posted, req);
        None
    }
}

// The empty queues of all ranks, with memory for the requests that aren't posted.
fn queues_of(
    alloc: Global,
    slots: &Slots,
    keys: &[Keys],
    ranks: u16,
) -> Result<Vec<Queues>, AllocError>
    requires slots { sum_by length slots.now < 2 ^ 63 }
    requires ranks { length keys.now ≡ ranks }
    ensures mailboxes { IfOk result (λ queues. map (λ (shelf : Shelf). shelf.mailbox) queues.items ≡ replicate ranks no_mail) }
    ensures room { IfOk result (λ queues. (side : Side) → map (room_in side) queues.items
        ≡ map (λ rank. slots_that (is_due side rank) slots.now) (range_with_len 0 ranks)) }
    ensures keys { IfOk result (λ queues. map (λ (shelf : Shelf). shelf.keys) queues.items ≡ keys.now) }
{
    let mut queues = Vec::with_capacity(alloc, ranks as usize)?;
    for rank in 0..ranks {
        let messages = slots.due(Side::Messages, rank);
        let receives = slots.due(Side::Receives, rank);
        queues.push(Queues::with_room(alloc, &keys[rank as usize], messages, receives)?)?;
    }
    Ok(queues)
}

// Adds an item to a list with a place left.
fn note<T>(list: &mut Listed<T>, item: T)
    requires { 0 < list.old.room }
    ensures items { list.new.items ≡ list.old.items ++ item ∷ [] }
    ensures room { list.new.room + 1 ≡ list.old.room }
{
    match list.push(item) {
        Ok(()) => {}
        Err(_) => unreachable!(),
    }
}

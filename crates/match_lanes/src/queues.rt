//! The two queues of a rank: unmatched messages and unmatched receives.

ghost use Rattle.std.specs.Prelude.{◌≡◌, ◌+◌, ◌≤◌, ◌<◌, ◌^◌, option_map, Some, None, IfOk};
ghost use Rattle.rt_base.specs.Exchange.{no_mail, send, receive, element, place_of_receive, place_of_message};
ghost use Rattle.match_lanes.specs.Selectors.{doors_of, IsItsLane};

use crate::doors::Doors;
use crate::keys::Keys;
use crate::mail::{Match, Message, Receive};
use crate::mails::Mails;
use crate::wishes::Wishes;
use std::alloc::{AllocError, Global};
use std::marker::Model;

// The most messages of a rank, and the most receives, so that the four hooks of each message have numbers of 32 bits.
const MOST: usize = 1_073_741_824;

/// The unexpected message queue and the posted receive queue of a rank, both in the order of posting (MPI 4.0, 3.5).
#[derive(Drop)]
pub struct Queues {
    mails: Mails,
    wishes: Wishes,
    message_room: usize,
    receive_room: usize,
}

impl Model for Queues {
    ghost use Rattle.std.specs.Prelude.{◌≡◌, ◌≤◌};
    ghost use Rattle.match_lanes.specs.Shelves.{Shelf, box};

    ghost Value = { Shelf };

    ghost view = { λ q. record {
      mailbox = box q.mails.items q.wishes.items;
      keys = q.mails.keys;
      message_room = q.message_room;
      receive_room = q.receive_room;
    } };

    ghost invariant = { λ q. (q.mails.keys ≡ q.wishes.keys) × (q.message_room ≤ q.mails.room) × (q.receive_room ≤ q.wishes.room) };
}

impl Queues {
    /// Empty queues with memory for so many messages, and for so many receives that have these selectors.
    /// More than 2^30 of either count as want of memory.
    pub fn with_room(
        alloc: Global,
        keys: &Keys,
        messages: usize,
        receives: usize,
    ) -> Result<Self, AllocError>
        ensures empty { IfOk result (λ q. q.mailbox ≡ no_mail) }
        ensures keys { IfOk result (λ q. q.keys ≡ keys.now) }
        ensures messages { IfOk result (λ q. q.message_room ≡ messages) }
        ensures receives { IfOk result (λ q. q.receive_room ≡ receives) }
    {
        if messages > MOST || receives > MOST {
            return Err(AllocError);
        }
        Ok(Queues {
            mails: Mails::with_room(alloc, keys, messages)?,
            wishes: Wishes::with_room(alloc, keys, receives)?,
            message_room: messages,
            receive_room: receives,
        })
    }

    /// A message arrives: the oldest receive that accepts it takes it, and else it waits. Looks at four lanes, in constant time over all calls.
    pub fn send(&mut self, message: Message, doors: Doors) -> Option<Match>
        requires room { 0 < self.old.message_room }
        requires doors { doors ≡ doors_of self.old.keys message }
        ensures lists { self.new.mailbox ≡ send self.old.mailbox message }
        ensures made { result ≡ option_map (λ found. record { message = message; receive = found })
            (element self.old.mailbox.receives (place_of_receive self.old.mailbox message)) }
        ensures keys { self.new.keys ≡ self.old.keys }
        ensures room { self.new.message_room + 1 ≡ self.old.message_room }
        ensures others { self.new.receive_room ≡ self.old.receive_room }
    {
        self.message_room -= 1;
        match self.wishes.first(&message, doors) {
            Some(place) => Some(Match {
                message,
                receive: self.wishes.take(place),
            }),
            None => {
                self.mails.push(message, doors);
                None
            }
        }
    }

    /// A receive is posted: it takes the oldest message that it accepts, and else it waits. Looks at one lane, in constant time over all calls.
    pub fn receive(&mut self, wish: Receive, lane: u32) -> Option<Match>
        requires room { 0 < self.old.receive_room }
        requires lane { IsItsLane self.old.keys wish lane }
        ensures lists { self.new.mailbox ≡ receive self.old.mailbox wish }
        ensures made { result ≡ option_map (λ found. record { message = found; receive = wish })
            (element self.old.mailbox.messages (place_of_message self.old.mailbox wish)) }
        ensures keys { self.new.keys ≡ self.old.keys }
        ensures room { self.new.receive_room + 1 ≡ self.old.receive_room }
        ensures others { self.new.message_room ≡ self.old.message_room }
    {
        self.receive_room -= 1;
        match self.mails.first(&wish, lane) {
            Some(place) => Some(Match {
                message: self.mails.take(place),
                receive: wish,
            }),
            None => {
                self.wishes.push(wish, lane);
                None
            }
        }
    }
}

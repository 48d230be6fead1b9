//! The queues of a rank as two plain lists, searched from the front: the yardstick for the lanes.

use crate::mail::{Match, Message, Receive};
use rt_base::{Peer, TagSel};
use std::alloc::{AllocError, Global};

/// The messages and the receives that wait, in the order of posting.
#[derive(Drop)]
pub struct Plain {
    messages: Vec<Message>,
    receives: Vec<Receive>,
}

impl Plain {
    /// Nothing waits.
    pub fn empty(alloc: Global) -> Plain {
        Plain {
            messages: Vec::new(alloc),
            receives: Vec::new(alloc),
        }
    }

    /// A message arrives: the oldest receive that accepts it takes it, and else it waits.
    pub fn send(&mut self, message: Message) -> Result<Option<Match>, AllocError> {
        let place = self
            .receives
            .iter()
            .position(|wish| accepts(wish, &message));
        match place {
            Some(place) => Ok(Some(Match {
                message,
                receive: self.receives.remove(place),
            })),
            None => {
                self.messages.push(message)?;
                Ok(None)
            }
        }
    }

    /// A receive is posted: it takes the oldest message that it accepts, and else it waits.
    pub fn receive(&mut self, wish: Receive) -> Result<Option<Match>, AllocError> {
        let place = self
            .messages
            .iter()
            .position(|message| accepts(&wish, message));
        match place {
            Some(place) => Ok(Some(Match {
                message: self.messages.remove(place),
                receive: wish,
            })),
            None => {
                self.receives.push(wish)?;
                Ok(None)
            }
        }
    }
}

// Whether the receive accepts the message (MPI 4.0, 3.2.4).
fn accepts(wish: &Receive, message: &Message) -> bool {
    let source = match wish.source {
        Peer::Rank(rank) => rank == message.source,
        Peer::Any => true,
        Peer::Null => false,
    };
    let tag = match wish.tag {
        TagSel::Tag(tag) => tag == message.tag,
        TagSel::Any => true,
    };
    wish.comm == message.comm && source && tag
}

//! What a mailbox holds: messages and receives, and the matches that come of them.

use rt_base::{Cells, Peer, ReqNo, TagSel};
use std::marker::Model;

/// A message: its envelope, its request and its cells (MPI 4.0, 3.2.3).
#[derive(Drop)]
pub struct Message {
    pub request: ReqNo,
    pub comm: u16,
    pub source: u16,
    pub tag: u16,
    pub cells: Cells,
}

impl Model for Message {
    ghost use Rattle.rt_base.specs.Matching as matching;

    ghost Value = { matching.Message };

    ghost view = { λ m. record { request = m.request; comm = m.comm; source = m.source; tag = m.tag; cells = m.cells.items } };
}

/// A posted receive: its request, and the messages that it accepts (MPI 4.0, 3.2.4).
#[derive(Drop)]
pub struct Receive {
    pub request: ReqNo,
    pub comm: u16,
    pub source: Peer,
    pub tag: TagSel,
}

impl Model for Receive {
    ghost use Rattle.rt_base.specs.Matching as matching;

    ghost Value = { matching.Receive };

    ghost view = { λ r. record { request = r.request; comm = r.comm; source = r.source; tag = r.tag } };
}

/// A message and the receive that was matched with it.
#[derive(Drop)]
pub struct Match {
    pub message: Message,
    pub receive: Receive,
}

impl Model for Match {
    ghost use Rattle.rt_base.specs.Exchange as exchange;

    ghost Value = { exchange.Match };

    ghost view = { λ m. record { message = m.message; receive = m.receive } };
}

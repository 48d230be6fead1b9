//! The matching engine of a program.

ghost use Rattle.std.specs.Prelude.{◌≡◌, true, false, length, IfOk, IfSome, []};
ghost use Rattle.rt_base.specs.Operations.{posting_of};
ghost use Rattle.rt_base.specs.Exchange.{silent, post, partner};
ghost use Rattle.rt_base.specs.Completion.{is_posted, is_complete, completes_alone, request_status, request_cells};
ghost use Rattle.rt_base.specs.WellFormed.{WellFormed};
ghost use Rattle.match_engine.specs.Requests.{IsSend, IsReceive, HasSpan};

use crate::completion::{cells, completes_at_once, is_complete, status};
use crate::exchange::Exchange;
use crate::heard::heard_by_rank;
use crate::routes::Routes;
use crate::slots::Slots;
use rt_base::{Cells, Program, ReqNo, Span, Status};
use std::alloc::{AllocError, Global};
use std::marker::Model;
use std::snapshot::Snapshot;

/// The matching engine: the unexpected message queue and the posted receive queue of each rank, and what became of each request.
/// Contracts see its program and the exchange. Memory is taken as it is built, and by no other call.
#[derive(Drop)]
pub struct Engine {
    program: Snapshot<Program>,
    eager: u32,
    exchange: Exchange,
    slots: Slots,
    routes: Routes,
}

impl Model for Engine {
    ghost use Rattle.match_engine.specs.Switch.{Switch};
    ghost use Rattle.match_engine.specs.Queues.{exchange_of, keys_of};
    ghost use Rattle.match_engine.specs.Kept.{KeepsExchange};
    ghost use Rattle.match_engine.specs.Routes.{AreRouted};

    ghost Value = { Switch };

    ghost view = { λ e. record { program = e.program.value; exchange = exchange_of e.exchange } };

    ghost invariant = { λ e. KeepsExchange e.program.value e.eager e.exchange e.slots × AreRouted e.program.value (keys_of e.exchange) e.routes };
}

impl Engine {
    /// The engine of a program of which nothing is posted. Looks at each request three times for each rank, and once more at its selector.
    pub fn build(alloc: Global, prog: &Program) -> Result<Self, AllocError>
        requires { WellFormed prog.now }
        ensures program { IfOk result (λ engine. engine.program ≡ prog.now) }
        ensures exchange { IfOk result (λ engine. engine.exchange ≡ silent prog.now.ranks) }
    {
        let slots = Slots::build(alloc, prog)?;
        let keys = heard_by_rank(alloc, &slots, prog.ranks)?;
        let routes = Routes::build(alloc, &slots, &keys)?;
        Ok(Engine {
            program: Snapshot::of(prog),
            eager: prog.eager,
            exchange: Exchange::build(alloc, &slots, &keys, prog.ranks)?,
            slots,
            routes,
        })
    }

    /// Posts a send with the cells that it takes now, and answers the receive that took its message (MPI 4.0, 3.5, order).
    /// In constant time over all postings: one call may step over all that was taken from the lanes of its message and not stepped over before.
    pub fn post_send(&mut self, prog: &Program, req: ReqNo, cells: Cells) -> Option<ReqNo>
        requires program { prog.now ≡ self.old.program }
        requires send { IsSend self.old.program req (length cells.items) }
        requires new { is_posted self.old.exchange req ≡ false }
        ensures program { self.new.program ≡ self.old.program }
        ensures exchange { self.new.exchange ≡ post self.old.program self.old.exchange req cells.items }
        ensures partner { result ≡ partner self.old.program self.old.exchange req cells.items }

        // A partner was complete before only where it completes by itself, and is complete now.
        ensures before { IfSome result (λ other. is_complete self.old.program self.old.exchange other
            ≡ completes_alone self.old.program.eager (posting_of self.old.program other)) }
        ensures completed { IfSome result (λ other. is_complete self.new.program self.new.exchange other ≡ true) }
    {
        let _ = prog;
        let slot = self.slots.get(req);
        let way = self.routes.get(req);
        let place = self.exchange.matched();
        let partner = self.exchange.post_send(req, slot.call, cells, way);
        self.slots.settle(req, partner, place);
        partner
    }

    /// Posts a receive, and answers the send whose message it took (MPI 4.0, 3.5, order).
    /// In constant time over all postings: one call may step over all that was taken from the lane of its selector and not stepped over before.
    pub fn post_recv(&mut self, prog: &Program, req: ReqNo) -> Option<ReqNo>
        requires program { prog.now ≡ self.old.program }
        requires receive { IsReceive self.old.program req }
        requires new { is_posted self.old.exchange req ≡ false }
        ensures program { self.new.program ≡ self.old.program }
        ensures exchange { self.new.exchange ≡ post self.old.program self.old.exchange req [] }
        ensures partner { result ≡ partner self.old.program self.old.exchange req [] }

        // A partner was complete before only where it completes by itself, and is complete now.
        ensures before { IfSome result (λ other. is_complete self.old.program self.old.exchange other
            ≡ completes_alone self.old.program.eager (posting_of self.old.program other)) }
        ensures completed { IfSome result (λ other. is_complete self.new.program self.new.exchange other ≡ true) }
    {
        let _ = prog;
        let slot = self.slots.get(req);
        let way = self.routes.get(req);
        let place = self.exchange.matched();
        let partner = self.exchange.post_receive(req, slot.call, way);
        self.slots.settle(req, partner, place);
        partner
    }

    /// Whether the request is complete (MPI 4.0, 3.4 and 3.7.3), in constant time.
    pub fn complete(&self, req: ReqNo) -> bool
        ensures { result ≡ is_complete self.now.program self.now.exchange req }
    {
        match self.slots.at(req) {
            Some(slot) => is_complete(self.eager, slot.call, slot.progress),
            None => false,
        }
    }

    /// Whether a complete request was complete as it was posted, whatever met it (MPI 4.0, 3.4 and 3.11), in constant time.
    pub fn completes_alone(&self, req: ReqNo) -> bool
        requires { is_complete self.now.program self.now.exchange req ≡ true }
        ensures { result ≡ completes_alone self.now.program.eager (posting_of self.now.program req) }
    {
        let slot = self.slots.get(req);
        completes_at_once(self.eager, slot.call)
    }

    /// The span of a complete request: the cells that a send took, and those into which a receive stores (MPI 4.0, 3.2.1 and 3.2.4). In constant time.
    pub fn span(&self, req: ReqNo) -> Span
        requires { is_complete self.now.program self.now.exchange req ≡ true }
        ensures { HasSpan (posting_of self.now.program req) result }
    {
        let slot = self.slots.get(req);
        slot.call.span
    }

    /// The status of a complete request (MPI 4.0, 3.2.5, 3.7.3 and 3.11), in constant time.
    pub fn status(&self, prog: &Program, req: ReqNo) -> Status
        requires program { prog.now ≡ self.now.program }
        requires complete { is_complete self.now.program self.now.exchange req ≡ true }
        ensures { result ≡ request_status self.now.program self.now.exchange req }
    {
        let _ = prog;
        let slot = self.slots.get(req);
        status(slot.call, self.exchange.match_of(slot.progress))
    }

    /// The cells that a complete request stores: those of a matched receive, and none of any other (MPI 4.0, 3.2.4). In constant time.
    pub fn cells(&self, req: ReqNo) -> &[i64]
        requires { is_complete self.now.program self.now.exchange req ≡ true }
        ensures { result.now ≡ request_cells self.now.program self.now.exchange req }
    {
        let slot = self.slots.get(req);
        cells(slot.call, self.exchange.match_of(slot.progress))
    }
}

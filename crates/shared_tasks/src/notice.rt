//! A completion that a poller took.

ghost use Rattle.std.specs.Prelude.{◌≡◌};
ghost use Rattle.shared_tasks.specs.Keeping.{IsNotice};

use crate::names::{Run, Site};
use meet_hall::Ticket;
use pass_table::Note;
use rt_base::ReqNo;
use std::marker::{Model, PhantomData};

/// A completion that a poller took: its request, the request's ticket, and a note of a list after which it is complete.
#[derive(Drop)]
pub struct Notice<K: Run, H: Site> {
    req: ReqNo,
    ticket: Ticket,
    note: Note,
    of: PhantomData<(K, H)>,
}

impl<K: Run, H: Site> Model for Notice<K, H> {
    ghost use Rattle.shared_tasks.specs.Values.{NoticeIs};
    ghost use Rattle.shared_tasks.specs.Keeping.{IsNotice};

    ghost Value = { NoticeIs };

    ghost view = { λ n. record { req = n.req; ticket = n.ticket; note = n.note } };

    ghost invariant = { λ n. IsNotice K.program K.workers K.passes H.hall (record { req = n.req; ticket = n.ticket; note = n.note }) };
}

impl<K: Run, H: Site> Notice<K, H> {
    /// The completion of a request, with its ticket and a note.
    pub fn new(req: ReqNo, ticket: Ticket, note: Note) -> Self
        requires { IsNotice K.program K.workers K.passes H.hall (record { req = req; ticket = ticket; note = note }) }
        ensures { result ≡ record { req = req; ticket = ticket; note = note } }
    {
        Notice {
            req,
            ticket,
            note,
            of: PhantomData,
        }
    }

    /// The request.
    pub fn req(&self) -> ReqNo
        ensures req { result ≡ self.now.req }
        ensures keeps { IsNotice K.program K.workers K.passes H.hall self.now }
    {
        self.req
    }

    /// The request, its ticket, and the note.
    pub fn into_parts(self) -> (ReqNo, Ticket, Note)
        ensures parts { record { req = result.0; ticket = result.1; note = result.2 } ≡ self }
        ensures keeps { IsNotice K.program K.workers K.passes H.hall self }
    {
        let Notice {
            req,
            ticket,
            note,
            of: _,
        } = self;
        (req, ticket, note)
    }
}

//! What follows from the definitions alone.

ghost use Rattle.shared_tasks.specs.Laws.{NoneOwedAtFirst, MovesKeepTickets, NoticesHaveTickets, PollsKeepTickets};

/// At first no ticket need lie. A move whose task's holder issued the places of what the move opens keeps them: each request of which a task is still to
/// be told has its ticket (TAMPI, completion by polling).
pub fn moves_keep_tickets()
    ensures first { NoneOwedAtFirst }
    ensures moves { MovesKeepTickets }
{}

/// The request of the first notice has its ticket, and the poll that takes the notice may take the ticket, where the request is not owed once more.
pub fn polls_take_tickets()
    ensures notices { NoticesHaveTickets }
    ensures polls { PollsKeepTickets }
{}

//! What follows from the definitions of a meeting alone.

ghost use Rattle.meetings.specs.Laws.{IssuesAddOne, ArrivalsTakeOne, NothingAfterTheLast, AllCameAtTheLast, RoundsBeginWithOne};

/// A ticket that is handed out is one party more.
pub fn issues_add_one()
    ensures { IssuesAddOne }
{}

/// Each party that comes takes one from the count.
pub fn arrivals_take_one()
    ensures { ArrivalsTakeOne }
{}

/// Once the count is 0 no move of the round may come: exactly one party is last.
pub fn nothing_comes_after_the_last()
    ensures { NothingAfterTheLast }
{}

/// Where the count is 0, the holder came, and of each place that was issued the ticket.
pub fn all_came_at_the_last()
    ensures { AllCameAtTheLast }
{}

/// The next round begins with one party, its holder, which is the last of the round before.
pub fn rounds_begin_with_one()
    ensures { RoundsBeginWithOne }
{}

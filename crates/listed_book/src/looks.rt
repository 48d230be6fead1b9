//! Looks, polls and stops of pollers.

ghost use Rattle.std.specs.Prelude.{◌≡◌, ◌+◌, ◌-◌, ◌<◌, ◌≤◌, ◌^◌, [], length, IfSome, IfNone};
ghost use Rattle.pass_table.specs.Passes.{HasItsSteps};
ghost use Rattle.shared_lists.specs.Deeds.{state_seen};
ghost use Rattle.shared_lists.specs.Sound.{IsPoller};
ghost use Rattle.listed_book.specs.Listed.{LooksAt, StopsAt, state_in};
ghost use Rattle.listed_book.specs.Replies.{TakesFirst, IsIdle};

use crate::listed::ListedBook;
use crate::replies::{Idle, Told};
use pass_table::{Pass, PassTable};
use rt_base::Program;

// As many looks as a list may have.
const MOST_LOOKS: u64 = 1 << 63;

// The number so many places behind that of the last offer, where there are so many passes.
fn number_behind(passes: &[Option<Pass>], places: u32) -> u32
    requires passes { length passes.now ≤ 65536 }
    requires places { places ≤ 2 }
    ensures { result ≡ length passes.now + places }
{
    passes.len() as u32 + places
}

// The number of the pass's poller among the workers.
fn poller_of(passes: &[Option<Pass>], pass: &Pass) -> u16
    requires poller { length passes.now ≤ pass.now.caller }
    requires few { pass.now.caller < length passes.now + 2 ^ 16 }
    ensures { result ≡ pass.now.caller - length passes.now }
{
    (pass.caller() as usize - passes.len()) as u16
}

impl ListedBook {
    // A look, which is left out where the list has as many as it may have.
    pub(crate) fn look(&mut self, table: &PassTable, pass: Pass) -> Pass
        requires table { table.now ≡ self.old.table }
        requires pass { pass.table ≡ self.old.table }
        requires poller { IsPoller self.old.program self.old.workers pass.caller }
        ensures { LooksAt self.old self.new pass result }
    {
        if self.looked < MOST_LOOKS {
            self.looked += 1;
            let number = number_behind(&self.passes, 1);
            self.pen.append(table, pass, number)
        } else {
            self.pen.catch_up(table, pass)
        }
    }

    // The first notice is taken.
    fn take_first(&mut self, table: &PassTable, pass: Pass) -> (Pass, Told)
        requires table { table.now ≡ self.old.table }
        requires pass { pass.table ≡ self.old.table }
        requires poller { IsPoller self.old.program self.old.workers pass.caller }
        requires notice { 0 < length (state_in self.old).notices }
        ensures { TakesFirst self.old self.new pass result.0 result.1 }
    {
        let poller = poller_of(&self.passes, &pass);
        let req = self.book.poll(poller);
        let pass = self.pen.append(table, pass, 0);
        let (pass, note) = table.note(pass);
        (pass, Told { req, note })
    }

    /// A poller takes the first notice of a completion. None exactly where no notice stood: the call is then a look. Takes no memory, and constant time
    /// (TAMPI, completion by polling).
    pub fn poll(&mut self, table: &PassTable, pass: Pass) -> (Pass, Option<Told>)
        requires table { table.now ≡ self.old.table }
        requires pass { pass.table ≡ self.old.table }
        requires poller { IsPoller self.old.program self.old.workers pass.caller }
        ensures takes { IfSome result.1 (λ told. TakesFirst self.old self.new pass result.0 told) }
        ensures looks { IfNone result.1 (LooksAt self.old self.new pass result.0) }
        ensures none { IfNone result.1 ((state_seen self.old.program result.0.seen).notices ≡ []) }
    {
        if self.book.has_notice() {
            let (pass, told) = self.take_first(table, pass);
            (pass, Some(told))
        } else {
            (self.look(table, pass), None)
        }
    }

    /// What a worker without work is told: that a stop stands, or else that no task may move, or else that some task may. It is a look in every case.
    /// Takes no memory, and constant time.
    pub fn idle(&mut self, table: &PassTable, prog: &Program, pass: Pass) -> (Pass, Idle)
        requires same { prog.now ≡ self.old.program }
        requires table { table.now ≡ self.old.table }
        requires pass { pass.table ≡ self.old.table }
        requires poller { IsPoller self.old.program self.old.workers pass.caller }
        ensures looks { LooksAt self.old self.new pass result.0 }
        ensures idle { IsIdle self.old.program result.0 result.1 }
    {
        let pass = self.look(table, pass);
        if self.stopped {
            let (pass, note) = table.note(pass);
            return (pass, Idle::Stopped(note));
        }
        if self.book.quiet(prog) {
            let (pass, note) = table.note(pass);
            return (pass, Idle::Quiet(note));
        }
        (pass, Idle::Work)
    }

    /// A stop stands in the list: this one, where none stood there. Takes no memory, and constant time.
    pub fn stop(&mut self, table: &PassTable, pass: Pass) -> Pass
        requires table { table.now ≡ self.old.table }
        requires pass { pass.table ≡ self.old.table }
        requires poller { IsPoller self.old.program self.old.workers pass.caller }
        ensures { StopsAt self.old self.new pass result }
    {
        if self.stopped {
            self.pen.catch_up(table, pass)
        } else {
            self.stopped = true;
            let number = number_behind(&self.passes, 2);
            self.pen.append(table, pass, number)
        }
    }
}

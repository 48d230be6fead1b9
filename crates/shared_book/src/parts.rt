//! What a run is built of.

ghost use Rattle.std.specs.Prelude.{◌≡◌, ◌^◌, ◌<◌, ◌≤◌, All, length, IfOk};
ghost use Rattle.rt_base.specs.declared.data.TaskDef.{TaskDef};
ghost use Rattle.rt_base.specs.Operations.{postings};
ghost use Rattle.rt_base.specs.WellFormed.{WellFormed};
ghost use Rattle.meet_hall.specs.Plan.{IsNarrow};
ghost use Rattle.shared_book.specs.Parts.{meeting_places};

use crate::pairs::Pair;
use listed_book::ListedBook;
use pass_table::{Pass, PassTable};
use rt_base::{Program, TaskDef};
use shared_tasks::{Tickets, request_count};
use std::alloc::{AllocError, Global};
use std::marker::Model;

/// The opening book of a program with its table and its passes, and room for all that the shared book keeps. Contracts see the program, the number of
/// workers, and the table.
#[derive(Drop)]
pub struct Parts {
    pub(crate) table: PassTable,
    pub(crate) book: ListedBook,
    pub(crate) tickets: Tickets,
    pub(crate) pollers: Vec<Pass>,
    pub(crate) room: Vec<Option<Pair>>,
    pub(crate) places: Vec<u32>,
}

impl Model for Parts {
    ghost use Rattle.std.specs.Prelude.{vec_capacity};
    ghost use Rattle.shared_book.specs.Parts.{PartsAre, KeepsParts};

    ghost Value = { PartsAre };

    ghost view = { λ p. record { program = p.book.program; workers = p.book.workers; table = p.table } };

    ghost invariant = { λ p. KeepsParts p.table p.book p.tickets p.pollers.items p.room.items (vec_capacity p.room) p.places.items };
}

impl Parts {
    /// The parts of a program for so many workers. Takes all memory that the shared book's calls need.
    pub fn build(alloc: Global, prog: &Program, workers: u16) -> Result<Parts, AllocError>
        requires well_formed { WellFormed prog.now }
        requires workers { 1 ≤ workers }
        ensures program { IfOk result (λ parts. parts.program ≡ prog.now) }
        ensures workers { IfOk result (λ parts. parts.workers ≡ workers) }
    {
        let places = places_of(alloc, prog.tasks.as_slice())?;
        let tickets = Tickets::build(alloc, prog)?;
        let room = Vec::with_capacity(alloc, prog.tasks.len())?;
        let (table, book, pollers) = ListedBook::build(alloc, prog, workers)?;
        Ok(Parts {
            table,
            book,
            tickets,
            pollers,
            room,
            places,
        })
    }

    /// How many places each meeting has: of each task its pause meeting and its event meeting, with a place for each of its requests, and behind them one
    /// meeting without a place, so that there is one.
    pub fn places(&self) -> &[u32]
        ensures places { result.now ≡ meeting_places self.now.program.tasks.items }
        ensures some { 0 < length result.now }
        ensures few { length result.now < 2 ^ 31 }
        ensures narrow { IsNarrow result.now }
    {
        self.places.as_slice()
    }
}

// The places of the meetings of these tasks, and of the one that is no task's.
fn places_of(alloc: Global, tasks: &[TaskDef]) -> Result<Vec<u32>, AllocError>
    requires few { All (λ (task : TaskDef). postings task.body.items < 2 ^ 32) tasks.now }
    ensures { IfOk result (λ places. places.items ≡ meeting_places tasks.now) }
{
    let mut places = Vec::new(alloc);
    for task in tasks {
        let count = request_count(task) as u32;
        places.push(count)?;
        places.push(count)?;
    }
    places.push(0)?;
    Ok(places)
}

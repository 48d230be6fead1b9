//! Where the blocks of a text end: a table that is made once and serves each rank.

ghost use Rattle.std.specs.Prelude.{◌≡◌, ◌<◌, ◌≤◌, length, ◌+◌, ◌^◌, slice_index, slice_get, true, Some, IfOk};
ghost use Rattle.task_tree.specs.declared.tree.Stmt.{Stmt};
ghost use Rattle.task_unroll.specs.Ends.{mark, deeper, may_jump, close_of, AreEnds};

use std::alloc::{AllocError, Global};
use std::marker::Model;
use task_tree::{Stmt, What};

/// For each `for`, `if` and `else` of a text the place of the statement that closes or parts the block behind it. Contracts see the places.
#[derive(Debug, Drop)]
pub struct Ends {
    places: Vec<usize>,
}

impl Model for Ends {
    ghost use Rattle.std.specs.Prelude.{ℕ, List};

    ghost Value = { List ℕ };

    ghost view = { λ e. e.places.items };
}

impl Ends {
    // The place that stands in the table at this place.
    pub(crate) fn at(&self, place: usize) -> usize
        requires { place < length self.now }
        ensures { result ≡ slice_index self.now place }
    {
        self.places[place]
    }
}

// How many more blocks are open behind a statement.
fn deeper(what: &What, depth: usize) -> Option<usize>
    requires { depth < 2 ^ 63 }
    ensures { result ≡ deeper (mark what.now) depth }
{
    match what {
        What::For {
            name: _,
            from: _,
            to: _,
        } => Some(depth + 1),
        What::If { test: _ } => Some(depth + 1),
        What::Task => Some(depth + 1),
        What::Else if depth == 0 => None,
        What::End => depth.checked_sub(1),
        _ => Some(depth),
    }
}

// The place of the statement that closes or parts the block that is open at this place.
#[tactic(auto, unfolding(crate::specs::Ends::close_of))]
fn close_of(stmts: &[Stmt], from: usize) -> usize
    requires { from ≤ length stmts.now }
    ensures { result ≡ close_of stmts.now from }
{
    let mut place = from;
    let mut depth = 0;
    while place < stmts.len() {
        match deeper(&stmts[place].what, depth) {
            Some(next) => depth = next,
            None => return place,
        }
        place += 1;
    }
    place
}

// Whether the block behind a statement may be left at once.
fn may_jump(what: &What) -> bool
    ensures { result ≡ may_jump what.now }
{
    match what {
        What::For {
            name: _,
            from: _,
            to: _,
        } => true,
        What::If { test: _ } => true,
        What::Else => true,
        _ => false,
    }
}

// What the table has for this place. Most statements need no place, and none is looked for.
fn end_for(stmts: &[Stmt], place: usize) -> usize
    requires { place < length stmts.now }
    ensures { (s : Stmt) → slice_get stmts.now place ≡ Some s → may_jump s.what ≡ true → result ≡ close_of stmts.now (place + 1) }
{
    if may_jump(&stmts[place].what) {
        close_of(stmts, place + 1)
    } else {
        place
    }
}

/// The table of a text. It is made once, and each statement is passed at most once for each block that it stands in.
pub fn ends_of(alloc: Global, stmts: &[Stmt]) -> Result<Ends, AllocError>
    ensures { IfOk result (λ ends. AreEnds stmts.now ends) }
{
    let mut places = Vec::with_capacity(alloc, stmts.len())?;
    for place in 0..stmts.len() {
        places.push(end_for(stmts, place))?;
    }
    Ok(Ends { places })
}

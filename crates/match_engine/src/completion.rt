//! When a request is complete, what it stores, and its status.

ghost use Rattle.std.specs.Prelude.{◌≡◌, ℕ, ◌+◌, ◌-◌, ◌≤◌, length, option_copied};
ghost use Rattle.rt_base.specs.Completion.{is_null, completes_at_once, stored_cells, empty_status, null_status, message_status, receive_status};
ghost use Rattle.match_engine.specs.Slots.{complete_by, call_status, call_cells};

use crate::slots::{Call, Progress};
use match_lanes::{Match, Message};
use rt_base::{Peer, Span, Status};

/// Whether a request of this call is complete, once it got so far (MPI 4.0, 3.4 and 3.7.3).
pub fn is_complete(eager: u32, call: Call, progress: Progress) -> bool
    ensures { result ≡ complete_by eager call progress }
{
    match progress {
        Progress::Unposted => false,
        Progress::Waits => completes_at_once(eager, call),
        Progress::Matched(_) => true,
    }
}

/// The status of a request of this call, which found this match (MPI 4.0, 3.2.5, 3.7.3 and 3.11).
pub fn status(call: Call, found: Option<&Match>) -> Status
    ensures { result ≡ call_status call (option_copied found.entry) }
{
    if call.how.is_receive() {
        receive_status(call, found)
    } else {
        empty_status()
    }
}

/// What a request of this call stores, which found this match (MPI 4.0, 3.2.4).
pub fn cells(call: Call, found: Option<&Match>) -> &[i64]
    ensures { result.now ≡ call_cells call (option_copied found.entry) }
{
    match found {
        Some(found) => if call.how.is_receive() {
            stored_cells(call.span, &found.message)
        } else {
            &[]
        },
        None => &[],
    }
}

/// Complete as it is posted: to or from the null process, or a standard send of at most as many cells as the eager limit.
pub fn completes_at_once(eager: u32, call: Call) -> bool
    ensures { result ≡ completes_at_once eager call.how call.span call.peer }
{
    is_null(call.peer) || call.how.is_standard() && call.span.len() <= eager
}

// The status of a receive.
fn receive_status(call: Call, found: Option<&Match>) -> Status
    ensures { result ≡ receive_status call.span call.peer (option_copied found.entry) }
{
    match found {
        Some(found) => message_status(call.span, &found.message),
        None => if is_null(call.peer) {
            null_status()
        } else {
            empty_status()
        },
    }
}

// The status of a receive that took this message.
fn message_status(span: Span, message: &Message) -> Status
    ensures { result ≡ message_status span message.now }
{
    let room = span.len();
    let count = message.cells.len();
    let (count, error) = if (room as usize) < count {
        (room, 1)
    } else {
        (count as u32, 0)
    };
    Status {
        source: message.source as i32,
        tag: message.tag as i32,
        count,
        error,
    }
}

// What a receive into the span stores.
fn stored_cells(span: Span, message: &Message) -> &[i64]
    ensures { result.now ≡ stored_cells span message.now }
{
    let cells = message.cells.as_slice();
    let room = span.len() as usize;
    if room < cells.len() {
        &cells[..room]
    } else {
        cells
    }
}

// The status of a send.
fn empty_status() -> Status
    ensures { result ≡ empty_status }
{
    Status {
        source: -1,
        tag: -1,
        count: 0,
        error: 0,
    }
}

// The status of a receive from the null process.
fn null_status() -> Status
    ensures { result ≡ null_status }
{
    Status {
        source: -2,
        tag: -1,
        count: 0,
        error: 0,
    }
}

// To or from the null process.
fn is_null(peer: Peer) -> bool
    ensures { result ≡ is_null peer }
{
    match peer {
        Peer::Rank(_) => false,
        Peer::Any => false,
        Peer::Null => true,
    }
}

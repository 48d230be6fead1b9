//! The statuses (MPI 4.0, 3.2.5; the numbers -1 and -2, the errors 0 and 1 and the empty status of a send are this project's own), and which
//! sends are complete as they are posted.

use crate::completion::{is_complete, status};
use crate::slots::{Call, Progress};
use match_lanes::{Match, Message, Receive};
use rt_base::{Cells, How, Peer, ReqNo, Span, Status, TagSel, TaskNo};
use std::alloc::Global;
use std::test::Fail;

// The request of this number.
fn request(nth: u32) -> ReqNo {
    ReqNo {
        task: TaskNo(0),
        nth,
    }
}

// A message of no cell.
fn message(alloc: Global, nth: u32, comm: u16, source: u16, tag: u16) -> Message {
    let cells = Cells::empty(alloc);
    Message {
        request: request(nth),
        comm,
        source,
        tag,
        cells,
    }
}

// The posting of this kind, of cells 10 up to but not including 10 + count.
fn call(how: How, count: u8, peer: Peer) -> Call {
    Call {
        how,
        span: Span {
            array: 0,
            from: 10,
            to: 10 + count as u32,
        },
        peer,
        tag: TagSel::Tag(7),
        comm: 0,
        rank: 0,
    }
}

#[test]
fn statuses_tell_the_source_the_tag_and_what_was_stored(rt: HostRuntime) -> Result<(), Fail> {
    let alloc = rt.alloc();
    let mut sent = message(alloc, 0, 0, 3, 7);
    sent.cells = Cells::from_vec([1, 2, 3].to_vec(alloc)?);
    let receive = Receive {
        request: request(1),
        comm: 0,
        source: Peer::Any,
        tag: TagSel::Any,
    };
    let made = Match {
        message: sent,
        receive,
    };
    let told = |source, tag, count, error| Status {
        source,
        tag,
        count,
        error,
    };
    let rows = [
        (How::Recv, 2, Peer::Any, Some(&made), told(3, 7, 2, 1)),
        (How::Irecv, 3, Peer::Rank(3), Some(&made), told(3, 7, 3, 0)),
        (How::Recv, 9, Peer::Any, Some(&made), told(3, 7, 3, 0)),
        (How::Recv, 2, Peer::Null, None, told(-2, -1, 0, 0)),
        (
            How::Ssend,
            3,
            Peer::Rank(1),
            Some(&made),
            told(-1, -1, 0, 0),
        ),
        (How::Send, 3, Peer::Null, None, told(-1, -1, 0, 0)),
    ];
    for (how, count, peer, found, want) in rows {
        assert_eq!(rt; status(call(how, count, peer), found), want);
    }
    Ok(())
}

#[test]
fn a_standard_send_within_the_eager_limit_is_complete_as_it_is_posted(rt: HostRuntime) {
    let rows = [
        (How::Send, 0, 0, true),
        (How::Isend, 1, 0, false),
        (How::Isend, 4, 4, true),
        (How::Send, 5, 4, false),
        (How::Ssend, 0, 0, false),
        (How::Issend, 1, 4, false),
        (How::Recv, 0, 4, false),
    ];
    for (how, count, eager, want) in rows {
        assert_eq!(rt;
            is_complete(eager, call(how, count, Peer::Rank(1)), Progress::Waits),
            want
        );
        assert_eq!(rt;
            is_complete(eager, call(how, count, Peer::Null), Progress::Waits),
            true
        );
    }
}

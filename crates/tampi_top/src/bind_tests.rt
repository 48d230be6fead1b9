//! What bound requests do to the release of their task, through the top call.
use crate::tests::{ends, outcome_of};
use rt_base::{Entry, MemSink, MemSource, ReqNo, Status, TaskNo};
use std::test::Fail;

// The two messages are sent behind the wait that binds their receives, the second receive's first.
const OWN_LATER_SENDS: &[u8] =
    b"array a, 4\nshow a\ntask\ninout a[0..4]\ndo\nramp a[0..2], 3, 4\nirecv p, a[2..3], 0, 1\nirecv q, a[3..4], 0, 2\niwaitall p, q\n\
      send a[1..2], 0, 2\nsend a[0..1], 0, 1\nend\n";

const WAITS_FOR_OWN_LATER_SENDS: &[u8] =
    b"array a, 4\nshow a\ntask\ninout a[0..4]\ndo\nramp a[0..2], 3, 4\nirecv p, a[2..3], 0, 1\nirecv q, a[3..4], 0, 2\nwaitall p, q\n\
      send a[1..2], 0, 2\nsend a[0..1], 0, 1\nend\n";

// The second task doubles what the first one receives; the third one sends.
const SUCCESSOR_READS_THE_MESSAGE: &[u8] =
    b"array a, 1\narray b, 1\narray c, 1\nshow b\ntask\nout a[0..1]\ndo\nirecv r, a[0..1], 1 - rank, 4\niwait r\nend\ntask\nin a[0..1]\n\
      out b[0..1]\ndo\nadd b[0..1], a[0..1], a[0..1]\nend\ntask\nout c[0..1]\ndo\nfill c[0..1], 8 + rank\nsend c[0..1], 1 - rank, 4\nend\n";

const BINDS_ITS_SEND: &[u8] =
    b"array a, 1\narray b, 1\nshow b\ntask\nout a[0..1]\nout b[0..1]\ndo\nfill a[0..1], 5 + rank\nisend s, a[0..1], 1 - rank, 3\niwait s\n\
      recv b[0..1], 1 - rank, 3\nend\n";

const WAITS_FOR_ITS_SEND: &[u8] =
    b"array a, 1\narray b, 1\nshow b\ntask\nout a[0..1]\nout b[0..1]\ndo\nfill a[0..1], 5 + rank\nisend s, a[0..1], 1 - rank, 3\nwait s\n\
      recv b[0..1], 1 - rank, 3\nend\n";

// A handle that an iwait has named is null for a wait.
const WAITS_ON_A_BOUND_HANDLE: &[u8] =
    b"array a, 2\nshow a\ntask\ninout a[0..2]\ndo\nfill a[0..1], 4\nirecv r, a[1..2], 0, 1\niwait r\nwait r\nsend a[0..1], 0, 1\nend\n";

const ONE_HANDLE_FOR_TWO: &[u8] =
    b"array a, 4\nshow a\ntask\ninout a[0..4]\ndo\nramp a[0..2], 3, 4\nirecv r, a[2..3], 0, 1\niwait r\nirecv r, a[3..4], 0, 2\niwait r\n\
      send a[0..1], 0, 2\nsend a[1..2], 0, 1\nend\n";

const NO_MESSAGE: &[u8] =
    b"array a, 2\nshow a\ntask\ninout a[0..2]\ndo\nfill a[0..1], 6\nirecv q, a[1..2], 0, 1\niwait q\nend\n";

// Two receives are bound, and one of them gets a message.
const ONE_MESSAGE_OF_TWO: &[u8] =
    b"array a, 3\nshow a\ntask\ninout a[0..3]\ndo\nfill a[0..1], 6\nirecv p, a[1..2], 0, 1\nirecv q, a[2..3], 0, 2\niwaitall p, q\nsend a[0..1], 0, 1\nend\n";

// One receive is bound, and a wait names another one: both lack their messages.
const BOUND_AND_WAITING: &[u8] =
    b"array a, 2\ntask\ninout a[0..2]\ndo\nirecv p, a[0..1], 0, 1\niwait p\nirecv q, a[1..2], 0, 2\nwait q\nend\n";

const NO_RECEIVE: &[u8] =
    b"array a, 1\ntask\ninout a[0..1]\ndo\nissend s, a[0..1], 0, 1\niwait s\nend\n";

// A send of one cell is complete as it is posted, and one of two cells lacks its receive.
const ABOVE_THE_LIMIT: &[u8] =
    b"array a, 2\ntask\nin a[0..1]\ndo\nisend s, a[0..1], 0, 1\niwait s\nend\ntask\nin a[0..2]\ndo\nisend s, a[0..2], 0, 1\niwait s\nend\n";

// The last task shares no cell with the first one.
const BEHIND_A_TASKWAIT: &[u8] =
    b"array a, 1\ntask\nout a[0..1]\ndo\nirecv r, a[0..1], 0, 0\niwait r\nend\ntaskwait\ntask\ndo\nend\n";

const TOO_LONG: &[u8] =
    b"array a, 3\narray b, 2\narray s, 4\nshow b\nshow s\ntask\nout a[0..3]\nout b[0..2]\nout s[0..4]\ndo\nramp a[0..3], 1, 1\n\
      irecv q, b[0..2], any, 7\niwait q status s[0..4]\nsend a[0..3], 0, 7\nend\n";

// The rest of the span keeps its cell.
const TOO_SHORT: &[u8] =
    b"array a, 2\narray b, 3\narray s, 4\nshow b\nshow s\ntask\nout a[0..2]\nout b[0..3]\nout s[0..4]\ndo\nramp a[0..2], 1, 1\nfill b[0..3], 9\n\
      irecv q, b[0..3], 0, any\niwait q status s[0..4]\nsend a[0..2], 0, 7\nend\n";

// The receive is complete before the wait, which binds nothing and has a status all the same.
const CAME_BEFORE: &[u8] =
    b"array a, 1\narray b, 1\narray s, 4\nshow b\nshow s\ntask\nout a[0..1]\nout b[0..1]\nout s[0..4]\ndo\nfill a[0..1], 1\nsend a[0..1], 0, 7\n\
      irecv q, b[0..1], any, any\niwait q status s[0..4]\nend\n";

const NULL_HANDLE: &[u8] =
    b"array a, 1\narray s, 4\nshow s\ntask\nin a[0..1]\nout s[0..4]\ndo\nisend q, a[0..1], null, 0\niwait q\niwait q status s[0..4]\nend\n";

// The statuses of a handle that an iwait has named, a receive from null, a send and a receive, in the order of the handles.
const STATUSES_IN_ORDER: &[u8] =
    b"array a, 1\narray b, 3\narray s, 16\nshow b\nshow s\ntask\nout a[0..1]\nout b[0..3]\nout s[0..16]\ndo\nfill a[0..1], 8\n\
      irecv old, b[0..1], 0, 1\niwait old\nirecv none, b[1..2], null, 9\nissend sent, a[0..1], null, 9\nirecv r, b[2..3], any, 2\n\
      iwaitall old, none, sent, r status s[0..16]\nsend a[0..1], 0, 2\nsend a[0..1], 0, 1\nend\n";

// The second task copies the status that the release of the first one stored.
const SUCCESSOR_READS_THE_STATUS: &[u8] =
    b"array a, 1\narray s, 4\narray t, 4\nshow t\ntask\nout a[0..1]\nout s[0..4]\ndo\nirecv q, a[0..1], any, any\niwait q status s[0..4]\nend\n\
      task\nin s[0..4]\nout t[0..4]\ndo\ncopy t[0..4], s[0..4]\nend\ntask\ndo\nsend s[0..0], 0, 5\nend\n";

#[test]
fn bound_tasks_are_released_with_their_requests(rt: HostRuntime) -> Result<(), Fail> {
    let alloc = rt.alloc();
    let rows: [(&str, &[u8], &[u8]); 5] = [
        ("run", OWN_LATER_SENDS, b"finished\n0 a 3 7 3 7\n"),
        (
            "run --ranks 2",
            SUCCESSOR_READS_THE_MESSAGE,
            b"finished\n0 b 18\n1 b 16\n",
        ),
        (
            "run --ranks 2 --eager 0",
            BINDS_ITS_SEND,
            b"finished\n0 b 6\n1 b 5\n",
        ),
        ("run", WAITS_ON_A_BOUND_HANDLE, b"finished\n0 a 4 4\n"),
        ("run", ONE_HANDLE_FOR_TWO, b"finished\n0 a 3 7 7 3\n"),
    ];
    for (words, text, told) in rows {
        assert!(rt; ends(&rt, alloc, words, text, 0, told)?, "{told:?}");
    }
    Ok(())
}

#[test]
fn bound_tasks_that_lack_a_partner_have_returned(rt: HostRuntime) -> Result<(), Fail> {
    let alloc = rt.alloc();
    let rows: [(&str, &[u8], &[u8]); 5] = [
        (
            "run",
            NO_MESSAGE,
            b"stuck\n0 a 0 0\ntask 0 rank 0 line 3 returned\n",
        ),
        (
            "run",
            ONE_MESSAGE_OF_TWO,
            b"stuck\n0 a 0 0 0\ntask 0 rank 0 line 3 returned\n",
        ),
        ("run", NO_RECEIVE, b"stuck\ntask 0 rank 0 line 2 returned\n"),
        (
            "run --eager 1",
            ABOVE_THE_LIMIT,
            b"stuck\ntask 1 rank 0 line 8 returned\n",
        ),
        (
            "run",
            BEHIND_A_TASKWAIT,
            b"stuck\ntask 0 rank 0 line 2 returned\ntask 1 rank 0 line 9 waiting\n",
        ),
    ];
    for (words, text, told) in rows {
        assert!(rt; ends(&rt, alloc, words, text, 1, told)?, "{told:?}");
    }
    Ok(())
}

#[test]
fn a_wait_holds_its_task_where_an_iwait_goes_on(rt: HostRuntime) -> Result<(), Fail> {
    let alloc = rt.alloc();
    let rows: [(&str, &[u8], &[u8]); 3] = [
        (
            "run",
            WAITS_FOR_OWN_LATER_SENDS,
            b"stuck\n0 a 0 0 0 0\ntask 0 rank 0 line 3 in 3\n",
        ),
        (
            "run --ranks 2 --eager 0",
            WAITS_FOR_ITS_SEND,
            b"stuck\n0 b 0\n1 b 0\ntask 0 rank 0 line 4 in 2\ntask 1 rank 1 line 4 in 2\n",
        ),
        (
            "run",
            BOUND_AND_WAITING,
            b"stuck\ntask 0 rank 0 line 2 in 3\n",
        ),
    ];
    for (words, text, told) in rows {
        assert!(rt; ends(&rt, alloc, words, text, 1, told)?, "{told:?}");
    }
    Ok(())
}

#[test]
fn statuses_of_bound_requests_are_stored_at_the_release(rt: HostRuntime) -> Result<(), Fail> {
    let alloc = rt.alloc();
    let rows: [(&[u8], &[u8]); 6] = [
        (TOO_LONG, b"finished\n0 b 1 2\n0 s 0 7 2 1\n"),
        (TOO_SHORT, b"finished\n0 b 1 2 9\n0 s 0 7 2 0\n"),
        (CAME_BEFORE, b"finished\n0 b 1\n0 s 0 7 1 0\n"),
        (NULL_HANDLE, b"finished\n0 s -1 -1 0 0\n"),
        (
            STATUSES_IN_ORDER,
            b"finished\n0 b 8 0 8\n0 s -1 -1 0 0 -2 -1 0 0 -1 -1 0 0 0 2 1 0\n",
        ),
        (SUCCESSOR_READS_THE_STATUS, b"finished\n0 t 0 5 0 0\n"),
    ];
    for (text, told) in rows {
        assert!(rt; ends(&rt, alloc, "run", text, 0, told)?, "{told:?}");
    }
    Ok(())
}

// The request that is the nth posting of the only task.
fn posting(nth: u32) -> ReqNo {
    ReqNo {
        task: TaskNo(0),
        nth,
    }
}

// The call of an operation by the only task.
fn call(op: u32, pending: u32) -> Entry {
    Entry::Call {
        task: TaskNo(0),
        op,
        pending,
    }
}

// That the only task leaves a send.
fn left(op: u32) -> Entry {
    Entry::Leave {
        task: TaskNo(0),
        op,
        from: 0,
        count: 0,
    }
}

// The status of a message of one cell from the own rank.
fn of_one_cell(tag: i32) -> Status {
    Status {
        source: 0,
        tag,
        count: 1,
        error: 0,
    }
}

#[test]
fn a_release_tells_statuses_after_the_polls(rt: HostRuntime) -> Result<(), Fail> {
    let alloc = rt.alloc();
    let task = TaskNo(0);
    let mut input = MemSource::new(OWN_LATER_SENDS.to_vec(alloc)?);
    let mut out = MemSink::new(alloc, 100)?;
    let outcome = outcome_of(&rt, alloc, "run", &mut input, &mut out)?;
    let told = [
        Entry::Start { task },
        call(1, 1),
        call(2, 1),
        call(3, 2),
        call(4, 0),
        Entry::Poll {
            poller: 0,
            req: posting(1),
        },
        left(4),
        call(5, 0),
        Entry::Poll {
            poller: 0,
            req: posting(0),
        },
        left(5),
        Entry::Return { task },
        Entry::Release {
            task,
            from: 0,
            count: 2,
        },
    ];
    assert_eq!(rt; outcome.history.entries.as_slice(), told.as_slice());
    let statuses = [of_one_cell(1), of_one_cell(2)];
    assert_eq!(rt; outcome.history.statuses.as_slice(), statuses.as_slice());
    Ok(())
}

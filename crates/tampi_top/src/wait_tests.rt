//! What requests, waits and statuses do, through the top call.
use crate::tests::ends;
use std::test::Fail;

const SYNCHRONOUS_TO_ITSELF: &[u8] =
    b"array a, 2\nshow a\ntask\ninout a[0..2]\ndo\nfill a[0..1], 4\nssend a[0..1], 0, 3\nrecv a[1..2], 0, 3\nend\n";

const ANY_TAKES_THE_OLDEST: &[u8] =
    b"array a, 4\nshow a\ntask\ninout a[0..4]\ndo\nramp a[0..2], 1, 1\nsend a[0..1], 0, 5\nsend a[1..2], 0, 6\nrecv a[2..3], any, any\nrecv a[3..4], 0, 6\nend\n";

// A message of four cells for two: the cells that fit, and a status with an error.
const TOO_LONG: &[u8] =
    b"array a, 4\narray b, 2\narray s, 4\nshow b\nshow s\ntask\nout a[0..4]\nout b[0..2]\nout s[0..4]\ndo\nramp a[0..4], 1, 1\nirecv q, b[0..2], any, 7\nsend a[0..4], 0, 7\nwait q status s[0..4]\nend\n";

// A longer span keeps its end.
const TOO_SHORT: &[u8] =
    b"array a, 2\narray b, 3\narray s, 4\nshow b\nshow s\ntask\nout a[0..2]\nout b[0..3]\nout s[0..4]\ndo\nramp a[0..2], 1, 1\nfill b[0..3], 9\nirecv q, b[0..3], 0, any\nsend a[0..2], 0, 7\nwait q status s[0..4]\nend\n";

const FROM_NULL: &[u8] =
    b"array a, 1\narray s, 4\nshow a\nshow s\ntask\ninout a[0..1]\nout s[0..4]\ndo\nfill a[0..1], 6\nirecv q, a[0..1], null, any\nwait q status s[0..4]\nend\n";

// The statuses of a receive, a send and a handle that was waited for, in the order of the handles.
const STATUSES_IN_ORDER: &[u8] =
    b"array a, 1\narray b, 1\narray s, 12\nshow b\nshow s\ntask\ninout a[0..1]\nout b[0..1]\nout s[0..12]\ndo\nfill a[0..1], 8\nirecv old, b[0..1], 0, 1\nsend a[0..1], 0, 1\nwait old\nirecv r, b[0..1], any, 2\nissend q, a[0..1], 0, 2\nwaitall old, q, r status s[0..12]\nend\n";

const TWO_COMMUNICATORS: &[u8] =
    b"comm c\narray a, 2\narray b, 2\nshow b\ntask\ninout a[0..2]\nout b[0..2]\ndo\nramp a[0..2], 1, 1\nirecv q, b[1..2], 0, 0 on c\nirecv r, b[0..1], 0, 0\nsend a[0..1], 0, 0\nsend a[1..2], 0, 0 on c\nwaitall q, r\nend\n";

const A_NULL_HANDLE: &[u8] =
    b"array a, 1\narray s, 4\nshow s\ntask\ninout a[0..1]\nout s[0..4]\ndo\nisend q, a[0..1], null, 0\nwaitall q\nwait q status s[0..4]\nend\n";

const BINDS_IN_NO_BRANCH_TAKEN: &[u8] =
    b"array a, 1\ntask\ninout a[0..1]\ndo\nisend q, a[0..1], null, 0\nif rank\niwait q\nelse\nwait q\nend\nend\n";

const HEAD_TO_HEAD: &[u8] =
    b"array a, 1\narray b, 1\nshow b\ntask\ninout a[0..1]\nout b[0..1]\ndo\nfill a[0..1], 5 + rank\nisend s, a[0..1], 1 - rank, 3\nirecv r, b[0..1], 1 - rank, 3\nwaitall s, r\nend\n";

const BLOCKING_HEAD_TO_HEAD: &[u8] =
    b"array a, 1\narray b, 1\nshow b\ntask\ninout a[0..1]\nout b[0..1]\ndo\nfill a[0..1], 5 + rank\nsend a[0..1], 1 - rank, 3\nrecv b[0..1], 1 - rank, 3\nend\n";

// The receive of the wait has its message, and the send has no receive.
const ONE_REQUEST_OF_TWO: &[u8] =
    b"array a, 2\nshow a\ntask\ninout a[0..2]\ndo\nirecv r, a[1..2], 0, 1\nissend q, a[0..1], 0, 2\nsend a[0..1], 0, 1\nwaitall r, q\nend\n";

#[test]
fn waits_store_what_came_and_tell_statuses(rt: HostRuntime) -> Result<(), Fail> {
    let alloc = rt.alloc();
    let rows: [(&[u8], &[u8]); 8] = [
        (ANY_TAKES_THE_OLDEST, b"finished\n0 a 1 2 1 2\n"),
        (TOO_LONG, b"finished\n0 b 1 2\n0 s 0 7 2 1\n"),
        (TOO_SHORT, b"finished\n0 b 1 2 9\n0 s 0 7 2 0\n"),
        (FROM_NULL, b"finished\n0 a 6\n0 s -2 -1 0 0\n"),
        (
            STATUSES_IN_ORDER,
            b"finished\n0 b 8\n0 s -1 -1 0 0 -1 -1 0 0 0 2 1 0\n",
        ),
        (TWO_COMMUNICATORS, b"finished\n0 b 1 2\n"),
        (A_NULL_HANDLE, b"finished\n0 s -1 -1 0 0\n"),
        (BINDS_IN_NO_BRANCH_TAKEN, b"finished\n"),
    ];
    for (text, told) in rows {
        assert!(rt; ends(&rt, alloc, "run", text, 0, told)?, "{told:?}");
    }
    Ok(())
}

#[test]
fn waits_end_where_their_requests_do(rt: HostRuntime) -> Result<(), Fail> {
    let alloc = rt.alloc();
    let rows: [(&str, &[u8], u8, &[u8]); 4] = [
        (
            "run",
            SYNCHRONOUS_TO_ITSELF,
            1,
            b"stuck\n0 a 0 0\ntask 0 rank 0 line 3 in 1\n",
        ),
        (
            "run --ranks 2 --eager 0",
            HEAD_TO_HEAD,
            0,
            b"finished\n0 b 6\n1 b 5\n",
        ),
        (
            "run --ranks 2 --eager 0",
            BLOCKING_HEAD_TO_HEAD,
            1,
            b"stuck\n0 b 0\n1 b 0\ntask 0 rank 0 line 4 in 1\ntask 1 rank 1 line 4 in 1\n",
        ),
        (
            "run",
            ONE_REQUEST_OF_TWO,
            1,
            b"stuck\n0 a 0 0\ntask 0 rank 0 line 3 in 3\n",
        ),
    ];
    for (words, text, status, told) in rows {
        assert!(rt; ends(&rt, alloc, words, text, status, told)?, "{told:?}");
    }
    Ok(())
}

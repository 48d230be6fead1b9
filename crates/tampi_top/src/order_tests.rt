//! What tasks do in the order that their regions and taskwaits ask, through the top call.
use crate::tests::ends;
use std::test::Fail;

const SENT_FROM_A_TASK: &[u8] =
    b"array a, 3\narray b, 3\nshow b\nif rank == 0\ntask\nout a[0..3]\ndo\nramp a[0..3], 5, 2\nend\ntask\nin a[0..3]\ndo\nsend a[0..3], 1, 9\nend\nelse\ntask\nout b[0..3]\ndo\nrecv b[0..3], 0, 9\nend\nend\n";

const READERS_BETWEEN_WRITERS: &[u8] =
    b"array u, 1\narray w, 3\narray x, 1\nshow u\nshow w\nshow x\ntask\nout u[0..1]\ndo\nfill u[0..1], 1\nend\nfor i = 0 .. 3\ntask\nin u[0..1]\nout w[i..i+1]\ndo\ncopy w[i..i+1], u[0..1]\nend\nend\ntask\ninout u[0..1]\ndo\nfill u[0..1], 2\nend\ntaskwait\ntask\nout x[0..1]\ndo\nfill x[0..1], 3\nend\n";

const SUM_WRAPS: &[u8] =
    b"array a, 1\nshow a\ntask\ninout a[0..1]\ndo\nfill a[0..1], 9223372036854775807\nadd a[0..1], a[0..1], a[0..1]\nend\n";

const REGIONS_CROSS: &[u8] =
    b"array u, 4\nshow u\ntask\nout u[0..3]\ndo\nramp u[0..3], 1, 1\nend\ntask\ninout u[2..4]\ndo\nadd u[3..4], u[2..3], u[2..3]\nfill u[2..3], 9\nend\ntask\ninout u[0..4]\ndo\nadd u[0..1], u[2..3], u[3..4]\nend\n";

const EPOCHS_WITHOUT_TASKS: &[u8] =
    b"array u, 2\nshow u\ntaskwait\ntask\nout u[0..1]\ndo\nfill u[0..1], 3\nend\ntaskwait\ntaskwait\ntask\ninout u[0..2]\ndo\ncopy u[1..2], u[0..1]\nend\ntaskwait\n";

const MOST_TASKS: &[u8] = b"for i = 0 .. 65536\ntask\ndo\nend\nend\n";

#[test]
fn tasks_go_as_their_regions_ask(rt: HostRuntime) -> Result<(), Fail> {
    let alloc = rt.alloc();
    let rows: [(&str, &[u8], &[u8]); 5] = [
        (
            "run --ranks 2 --eager 0",
            SENT_FROM_A_TASK,
            b"finished\n0 b 0 0 0\n1 b 5 7 9\n",
        ),
        (
            "run",
            READERS_BETWEEN_WRITERS,
            b"finished\n0 u 2\n0 w 1 1 1\n0 x 3\n",
        ),
        ("run", SUM_WRAPS, b"finished\n0 a -2\n"),
        ("run", REGIONS_CROSS, b"finished\n0 u 15 2 9 6\n"),
        ("run", EPOCHS_WITHOUT_TASKS, b"finished\n0 u 3 3\n"),
    ];
    for (words, text, told) in rows {
        assert!(rt; ends(&rt, alloc, words, text, 0, told)?, "{told:?}");
    }
    Ok(())
}

// Where each start looked at all earlier tasks, this would not end in time.
#[test]
fn the_most_tasks_are_run(rt: HostRuntime) -> Result<(), Fail> {
    let alloc = rt.alloc();
    assert!(rt; ends(&rt, alloc, "run", MOST_TASKS, 0, b"finished\n")?);
    Ok(())
}

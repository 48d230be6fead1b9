//! The line of each refusal, and a write that fails.
use crate::{Refusal, write_refusal};
use rt_base::{FakeSink, FaultKind, LimitName, MemSink};
use std::test::Fail;

#[test]
fn a_refusal_has_its_line_and_its_status(rt: HostRuntime) -> Result<(), Fail> {
    let alloc = rt.alloc();
    let rows: [(Refusal, u8, &[u8]); 6] = [
        (Refusal::Words, 2, b"words refused\n"),
        (
            Refusal::Fault {
                line: 4_294_967_295,
                kind: FaultKind::BadSpan,
            },
            3,
            b"refused 4294967295 BadSpan\n",
        ),
        (
            Refusal::Fault {
                line: 2,
                kind: FaultKind::TraceHeader,
            },
            3,
            b"refused 2 TraceHeader\n",
        ),
        (Refusal::ReadFault, 4, b"read fault\n"),
        (Refusal::TooLong, 7, b"too long\n"),
        (
            Refusal::Limit {
                which: LimitName::MessageCells,
            },
            8,
            b"limit message_cells 67108864\n",
        ),
    ];
    for (refusal, status, line) in rows {
        let mut out = MemSink::new(alloc, 100)?;
        assert_eq!(rt; write_refusal(alloc, &mut out, refusal), status);
        assert_eq!(rt; out.bytes(), line);
    }
    Ok(())
}

#[test]
fn a_failed_write_leaves_a_front_of_the_line(rt: HostRuntime) -> Result<(), Fail> {
    let alloc = rt.alloc();
    let mut out = FakeSink::new(alloc, 100, 4, [0].to_vec(alloc)?)?;
    assert_eq!(rt; write_refusal(alloc, &mut out, Refusal::TooLong), 5);
    assert_eq!(rt; out.bytes(), b"too ".as_slice());
    Ok(())
}

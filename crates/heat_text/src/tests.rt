//! A whole text, and numbers at the ends of their types.
use crate::heat_text;
use std::test::Fail;

// One block of two cells, and one step.
const SMALL: &[u8] = b"array u, 4\narray v, 4\narray s, 3\nshow s\n\
    for b = 0 .. 1\ntask\nout u[1 + b * 2 .. 1 + b * 2 + 2]\ndo\nramp u[1 + b * 2 .. 1 + b * 2 + 2], 7 + 1000 * rank + 100 * b, 4\nend\nend\n\
    for t = 0 .. 3\n\
    if rank > 0\ntask\nin u[1 .. 2]\ndo\nisend q, u[1 .. 2], rank - 1, 0\niwait q\nend\n\
    task\nout u[0 .. 1]\ndo\nirecv q, u[0 .. 1], rank - 1, 1\niwait q\nend\nend\n\
    if rank < size - 1\ntask\nin u[2 .. 2 + 1]\ndo\nsend u[2 .. 2 + 1], rank + 1, 1\nend\n\
    task\nout u[2 + 1 .. 2 + 2]\ndo\nrecv u[2 + 1 .. 2 + 2], rank + 1, 0\nend\nend\n\
    for b = 0 .. 1\ntask\nin u[b * 2 .. b * 2 + 2 + 2]\nout v[1 + b * 2 .. 1 + b * 2 + 2]\ndo\n\
    jacobi2 v[1 + b * 2 .. 1 + b * 2 + 2], u[b * 2 .. b * 2 + 2 + 2]\nend\nend\n\
    for b = 0 .. 1\ntask\nin v[1 + b * 2 .. 1 + b * 2 + 2]\nout u[1 + b * 2 .. 1 + b * 2 + 2]\ndo\n\
    copy u[1 + b * 2 .. 1 + b * 2 + 2], v[1 + b * 2 .. 1 + b * 2 + 2]\nend\nend\nend\n\
    task\nin u[1 .. 2 + 1]\nout s[0 .. 3]\ndo\nsum s[0 .. 1], u[1 .. 2 + 1]\nleast s[1 .. 2], u[1 .. 2 + 1]\ngreatest s[2 .. 3], u[1 .. 2 + 1]\nend\n";

#[test]
fn numbers_stand_in_their_places(rt: HostRuntime) -> Result<(), Fail> {
    let text = heat_text(rt.alloc(), 1, 2, 3, 7)?;
    assert_eq!(rt; text.as_slice(), SMALL);
    Ok(())
}

// The greatest number of cells needs 64 bits.
#[test]
fn the_greatest_numbers_are_written_whole(rt: HostRuntime) -> Result<(), Fail> {
    let rows: [(u32, u32, &[u8]); 4] = [
        (1, 1, b"array u, 3\narray v, 3\n"),
        (1_024, 65_536, b"array u, 67108866\n"),
        (u32::MAX, 0, b"array u, 2\n"),
        (u32::MAX, u32::MAX, b"array u, 18446744065119617027\n"),
    ];
    for (blocks, cells, front) in rows {
        let text = heat_text(rt.alloc(), blocks, cells, u32::MAX, u32::MAX)?;
        assert!(rt; text.as_slice().starts_with(front), "{front:?}");
    }
    Ok(())
}

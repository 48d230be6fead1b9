//! What sources and sinks answer, call by call.
use crate::{
    ByteSink, ByteSource, FakeSink, FakeSource, Got, MemSink, MemSource, Put, StdinSource,
    StdoutSink,
};
use std::test::Fail;

#[test]
fn a_source_in_memory_gives_all_and_ends(rt: HostRuntime) -> Result<(), Fail> {
    let mut source = MemSource::new(b"abcdef".to_vec(rt.alloc())?);
    let rows: [(Got, &[u8], &[u8]); 3] = [
        (Got::Bytes(4), b"abcd", b"ef"),
        (Got::Bytes(2), b"efcd", b""),
        (Got::End, b"efcd", b""),
    ];
    let mut buf = [0; 4];
    for (answer, read, rest) in rows {
        assert_eq!(rt; source.read(&mut buf), answer);
        assert_eq!(rt; buf.as_slice(), read);
        assert_eq!(rt; source.rest(), rest);
    }
    Ok(())
}

#[test]
fn a_sink_in_memory_takes_what_fits(rt: HostRuntime) -> Result<(), Fail> {
    let mut sink = MemSink::new(rt.alloc(), 5)?;
    let rows: [(&[u8], Put, &[u8]); 5] = [
        (b"ab", Put::All, b"ab"),
        (b"", Put::All, b"ab"),
        (b"cdef", Put::Failed, b"abcde"),
        (b"", Put::All, b"abcde"),
        (b"g", Put::Failed, b"abcde"),
    ];
    for (piece, answer, written) in rows {
        assert_eq!(rt; sink.write(piece), answer);
        assert_eq!(rt; sink.bytes(), written);
    }
    Ok(())
}

#[test]
fn a_fake_source_gives_pieces_and_fails_at_its_calls(rt: HostRuntime) -> Result<(), Fail> {
    let alloc = rt.alloc();
    let mut source = FakeSource::new(b"abcdefg".to_vec(alloc)?, 3, [1, 4].to_vec(alloc)?);
    let rows: [(Got, &[u8]); 7] = [
        (Got::Bytes(3), b"defg"),
        (Got::Failed, b"defg"),
        (Got::Bytes(3), b"g"),
        (Got::Bytes(1), b""),
        (Got::Failed, b""),
        (Got::End, b""),
        (Got::End, b""),
    ];
    for (answer, rest) in rows {
        assert_eq!(rt; source.read(&mut [0; 4]), answer);
        assert_eq!(rt; source.rest(), rest);
    }
    Ok(())
}

#[test]
fn a_fake_sink_fails_at_its_calls_and_where_room_ends(rt: HostRuntime) -> Result<(), Fail> {
    let alloc = rt.alloc();
    let mut sink = FakeSink::new(alloc, 6, 2, [1, 3].to_vec(alloc)?)?;
    let rows: [(&[u8], Put, &[u8]); 6] = [
        (b"abc", Put::All, b"abc"),
        (b"def", Put::Failed, b"abcde"),
        (b"", Put::All, b"abcde"),
        (b"fgh", Put::Failed, b"abcdef"),
        (b"", Put::All, b"abcdef"),
        (b"i", Put::Failed, b"abcdef"),
    ];
    for (piece, answer, written) in rows {
        assert_eq!(rt; sink.write(piece), answer);
        assert_eq!(rt; sink.bytes(), written);
    }
    Ok(())
}

#[test]
fn the_input_is_read_to_its_end(rt: HostRuntime) {
    let bytes: &[u8] = b"array u, 2\n";
    let mut source = StdinSource::new(bytes);
    let rows: [(Got, &[u8]); 3] = [
        (Got::Bytes(8), b"array u,"),
        (Got::Bytes(3), b" 2\nay u,"),
        (Got::End, b" 2\nay u,"),
    ];
    let mut buf = [0; 8];
    for (answer, read) in rows {
        assert_eq!(rt; source.read(&mut buf), answer);
        assert_eq!(rt; buf.as_slice(), read);
    }
}

#[test]
fn the_output_takes_each_piece_whole(rt: HostRuntime) {
    let mut out = Vec::new(rt.alloc());
    let mut sink = StdoutSink::new(&mut out);
    let pieces: [&[u8]; 3] = [b"fini", b"", b"shed\n"];
    for piece in pieces {
        assert_eq!(rt; sink.write(piece), Put::All);
    }
    assert_eq!(rt; out.as_slice(), b"finished\n".as_slice());
}

#[test]
fn the_output_fails_where_nothing_is_taken(rt: HostRuntime) {
    let mut out = [0; 4];
    let mut sink = StdoutSink::new(&mut out[..]);
    assert_eq!(rt; sink.write(b"fini"), Put::All);
    assert_eq!(rt; sink.write(b"s"), Put::Failed);
    assert_eq!(rt; out.as_slice(), b"fini".as_slice());
}

//! Sources and sinks over what main takes from its runtime. They tell no bytes.
ghost use Rattle.std.specs.Prelude.{◌≡◌, ◌≢◌, ◌<◌, length, None};
ghost use Rattle.rt_base.specs.Outside.{Reads, HasReadCause, Writes, HasWriteCause, counted};
ghost use Rattle.rt_base.specs.Adapting.{PassesOn};

use crate::memory::after;
use crate::outside::{ByteSink, ByteSource, Got, Put};
use std::io::{Read, Write};
use std::marker::Model;

/// A source over a reader, as the standard input (this project's). Each `Err` of the reader is a fault, `Interrupted` too.
#[derive(Drop)]
pub struct StdinSource<R> {
    reader: R,
    faults: u64,
}

impl<R> Model for StdinSource<R> {
    ghost use Rattle.rt_base.specs.Adapting.{Adapter, adapter_code};

    ghost Value = { Adapter R };

    ghost coded = { adapter_code R.code };

    ghost view = { λ s. record { stream = s.reader; faults = s.faults } };
}

impl<R: Read> StdinSource<R> {
    /// The source over this reader.
    pub fn new(reader: R) -> StdinSource<R>
        ensures { result ≡ record { stream = reader; faults = 0 } }
    {
        StdinSource { reader, faults: 0 }
    }
}

impl<R: Read> ByteSource for StdinSource<R> {
    ghost rest = { λ _. None };

    ghost faults = { λ s. s.faults };

    fn read(&mut self, buf: &mut [u8]) -> Got
        requires { 0 < length buf.old }
        ensures bytes { Reads None None result buf.new }
        ensures cause { HasReadCause self.old.faults self.new.faults result }

        // Where the reader's bytes are known, these are the bytes.
        ensures passes_on { PassesOn (R.remaining self.old.stream) (R.remaining self.new.stream) result buf.new }

        // A fault is counted once, and nothing else is.
        ensures fault { result ≡ Got.Failed → self.new.faults ≡ counted self.old.faults }
        ensures no_fault { result ≢ Got.Failed → self.new.faults ≡ self.old.faults }
    {
        match self.reader.read(buf) {
            Ok(0) => Got::End,
            Ok(count) => Got::Bytes(count),
            Err(_) => {
                self.faults = self.faults.saturating_add(1);
                Got::Failed
            }
        }
    }
}

/// A sink over a writer, as the standard output (this project's). Each `Err` of the writer is a fault, `Interrupted` too, and so is a write
/// that takes nothing.
#[derive(Drop)]
pub struct StdoutSink<W> {
    writer: W,
    faults: u64,
}

impl<W> Model for StdoutSink<W> {
    ghost use Rattle.rt_base.specs.Adapting.{Adapter, adapter_code};

    ghost Value = { Adapter W };

    ghost coded = { adapter_code W.code };

    ghost view = { λ s. record { stream = s.writer; faults = s.faults } };
}

impl<W: Write> StdoutSink<W> {
    /// The sink over this writer.
    pub fn new(writer: W) -> StdoutSink<W>
        ensures { result ≡ record { stream = writer; faults = 0 } }
    {
        StdoutSink { writer, faults: 0 }
    }
}

impl<W: Write> ByteSink for StdoutSink<W> {
    ghost written = { λ _. None };

    ghost faults = { λ s. s.faults };

    // Writes until the buffer is out, and flushes it.
    fn write(&mut self, buf: &[u8]) -> Put
        ensures bytes { Writes None None result buf.now }
        ensures cause { HasWriteCause self.old.faults self.new.faults result }

        // Where the writer's bytes are known, these were appended to them.
        ensures passes_on { Writes (W.contents self.old.stream) (W.contents self.new.stream) result buf.now }

        // A fault is counted once, and nothing else is.
        ensures fault { result ≡ Put.Failed → self.new.faults ≡ counted self.old.faults }
        ensures no_fault { result ≡ Put.All → self.new.faults ≡ self.old.faults }
    {
        let put = write_whole(&mut self.writer, buf);
        if put == Put::Failed {
            self.faults = self.faults.saturating_add(1);
        }
        put
    }
}

// Writes until the buffer is out, and then flushes. It fails where a call answers an `Err`, or takes nothing of what is left.
fn write_whole<W: Write>(writer: &mut W, buf: &[u8]) -> Put
    ensures { Writes (W.contents writer.old) (W.contents writer.new) result buf.now }
{
    let mut left = buf;
    while !left.is_empty() {
        match writer.write(left) {
            Ok(0) => return Put::Failed,
            Ok(count) => left = after(left, count),
            Err(_) => return Put::Failed,
        }
    }
    match writer.flush() {
        Ok(()) => Put::All,
        Err(_) => Put::Failed,
    }
}

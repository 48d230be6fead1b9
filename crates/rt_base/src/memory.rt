//! Sources and sinks in memory, plain ones and fakes that fail where they are told to.
ghost use Rattle.std.specs.Prelude.{◌≡◌, ◌≢◌, ◌↔◌, ◌+◌, ◌-◌, ◌<◌, ◌≤◌, ℕ, List, [], length, take, drop, min, Some, IsTrue, IfOk, Contains, vec_len, vec_capacity};
ghost use Rattle.rt_base.specs.Outside.{Reads, HasReadCause, Writes, HasWriteCause, counted};
ghost use Rattle.rt_base.specs.InMemory.{got_of, filled_by, faulted, IsFailing, after_call};

use crate::outside::{ByteSink, ByteSource, Got, Put};
use std::alloc::{AllocError, Global};
use std::marker::Model;

/// A source over bytes in memory, seen as the bytes that are left (this project's). It never fails.
#[derive(Debug, Drop)]
pub struct MemSource {
    bytes: Vec<u8>,
    at: usize,
}

impl Model for MemSource {
    ghost use Rattle.std.specs.Prelude.{ℕ, ◌≤◌, List, drop, vec_len};

    ghost Value = { List ℕ };

    ghost view = { λ s. drop s.at s.bytes.items };

    ghost invariant = { λ s. s.at ≤ vec_len s.bytes };
}

impl MemSource {
    /// The source of these bytes.
    pub fn new(bytes: Vec<u8>) -> MemSource
        ensures { result ≡ bytes.items }
    {
        MemSource { bytes, at: 0 }
    }

    /// The bytes that are left.
    pub fn rest(&self) -> &[u8]
        ensures { result.now ≡ self.now }
    {
        after(self.bytes.as_slice(), self.at)
    }
}

// The bytes from this place on.
pub(crate) fn after(bytes: &[u8], at: usize) -> &[u8]
    requires { at ≤ length bytes.now }
    ensures { result.now ≡ drop at bytes.now }
{
    &bytes[at..]
}

// Copies as many bytes as both have, and tells how many.
fn copy_front(from: &[u8], to: &mut [u8]) -> usize
    ensures count { result ≡ min (length to.old) (length from.now) }
    ensures copied { take result to.new ≡ take result from.now }
{
    let count = to.len().min(from.len());
    to[..count].copy_from_slice(&from[..count]);
    count
}

// The answer to a read that gave so many bytes.
fn answer(count: usize) -> Got
    ensures { result ≡ got_of count }
{
    if count == 0 {
        Got::End
    } else {
        Got::Bytes(count)
    }
}

impl ByteSource for MemSource {
    ghost rest = { λ s. Some s };

    ghost faults = { λ _. 0 };

    #[tactic(auto, using(crate::proofs::ReadLemmas::reads_on))]
    fn read(&mut self, buf: &mut [u8]) -> Got
        requires { 0 < length buf.old }
        ensures bytes { Reads (Some self.old) (Some self.new) result buf.new }
        ensures cause { HasReadCause 0 0 result }

        // As many as the buffer takes and are left.
        ensures answer { result ≡ got_of (min (length buf.old) (length self.old)) }
    {
        let count = copy_front(after(self.bytes.as_slice(), self.at), buf);
        self.at += count;
        answer(count)
    }
}

/// A sink into memory of a stated room (this project's). A write that fits never fails.
#[derive(Debug, Drop)]
pub struct MemSink {
    bytes: Vec<u8>,
    room: usize,
    faults: u64,
}

impl Model for MemSink {
    ghost use Rattle.std.specs.Prelude.{◌+◌, ◌≤◌, vec_capacity, vec_len};
    ghost use Rattle.rt_base.specs.InMemory.{Filled};

    ghost Value = { Filled };

    ghost view = { λ s. record { written = s.bytes.items; room = s.room; faults = s.faults } };

    ghost invariant = { λ s. vec_len s.bytes + s.room ≤ vec_capacity s.bytes };
}

impl MemSink {
    /// The empty sink with room for so many bytes.
    pub fn new(alloc: Global, room: usize) -> Result<MemSink, AllocError>
        ensures { IfOk result (λ s. s ≡ record { written = []; room = room; faults = 0 }) }
    {
        let bytes = Vec::with_capacity(alloc, room)?;
        Ok(MemSink {
            bytes,
            room,
            faults: 0,
        })
    }

    /// The bytes that were written.
    pub fn bytes(&self) -> &[u8]
        ensures { result.now ≡ self.now.written }
    {
        self.bytes.as_slice()
    }

    // Appends the bytes that fit.
    fn fill(&mut self, buf: &[u8])
        ensures { self.new ≡ filled_by buf.now self.old }
    {
        let count = buf.len().min(self.room);
        match self.bytes.extend_from_slice(&buf[..count]) {
            Ok(()) => self.room -= count,
            Err(_) => unreachable!(),
        }
    }

    // Appends the bytes that fit, and fails.
    fn fill_and_fail(&mut self, buf: &[u8]) -> Put
        ensures answer { result ≡ Put.Failed }
        ensures after { self.new ≡ faulted (filled_by buf.now self.old) }
        ensures cause { HasWriteCause self.old.faults self.new.faults result }
    {
        self.fill(buf);
        self.faults = self.faults.saturating_add(1);
        Put::Failed
    }
}

impl ByteSink for MemSink {
    ghost written = { λ s. Some s.written };

    ghost faults = { λ s. s.faults };

    fn write(&mut self, buf: &[u8]) -> Put
        ensures bytes { Writes (Some self.old.written) (Some self.new.written) result buf.now }
        ensures cause { HasWriteCause self.old.faults self.new.faults result }

        // What fits is taken whole.
        ensures fits { length buf.now ≤ self.old.room → (result ≡ Put.All) × (self.new ≡ filled_by buf.now self.old) }

        // Of what doesn't fit, the front that does is taken.
        ensures full { self.old.room < length buf.now
            → (result ≡ Put.Failed) × (self.new ≡ faulted (filled_by buf.now self.old)) }
    {
        if buf.len() <= self.room {
            self.fill(buf);
            Put::All
        } else {
            self.fill_and_fail(buf)
        }
    }
}

// Which calls are to fail, by their numbers from 0, and the number of the next call.
#[derive(Debug, Drop)]
struct Script {
    fail: Vec<u32>,
    call: u64,
}

impl Model for Script {
    ghost use Rattle.rt_base.specs.InMemory.{Scripted};

    ghost Value = { Scripted };

    ghost view = { λ s. record { fail = s.fail.items; call = s.call } };
}

impl Script {
    // No call was made yet.
    fn new(fail: Vec<u32>) -> Script
        ensures { result ≡ record { fail = fail.items; call = 0 } }
    {
        Script { fail, call: 0 }
    }

    // Counts the next call, and tells whether it is to fail.
    fn next_fails(&mut self) -> bool
        ensures fails { IsTrue result ↔ IsFailing self.old }
        ensures after { self.new ≡ after_call self.old }
    {
        let fails = is_listed(self.fail.as_slice(), self.call);
        self.call = self.call.saturating_add(1);
        fails
    }
}

// The number is in the list.
fn is_listed(list: &[u32], number: u64) -> bool
    ensures { IsTrue result ↔ Contains list.now number }
{
    list.iter().any(|listed| u64::from(*listed) == number)
}

/// A source over bytes in memory whose reads give few bytes and fail where they are told to (this project's).
#[derive(Debug, Drop)]
pub struct FakeSource {
    source: MemSource,
    piece: usize,
    script: Script,
    faults: u64,
}

impl Model for FakeSource {
    ghost use Rattle.std.specs.Prelude.{◌<◌};
    ghost use Rattle.rt_base.specs.InMemory.{Feed};

    ghost Value = { Feed };

    ghost view = { λ s. record { rest = s.source; piece = s.piece; script = s.script; faults = s.faults } };

    ghost invariant = { λ s. 0 < s.piece };
}

impl FakeSource {
    /// The source of these bytes, which gives at most `piece` bytes a read. The reads whose numbers, from 0, are in `fail` fail.
    pub fn new(bytes: Vec<u8>, piece: usize, fail: Vec<u32>) -> FakeSource
        requires { 1 ≤ piece }
        ensures { result ≡ record {
          rest = bytes.items;
          piece = piece;
          script = record { fail = fail.items; call = 0 };
          faults = 0;
        } }
    {
        FakeSource {
            source: MemSource::new(bytes),
            piece,
            script: Script::new(fail),
            faults: 0,
        }
    }

    /// The bytes that are left.
    pub fn rest(&self) -> &[u8]
        ensures { result.now ≡ self.now.rest }
    {
        self.source.rest()
    }
}

impl ByteSource for FakeSource {
    ghost rest = { λ s. Some s.rest };

    ghost faults = { λ s. s.faults };

    #[tactic(auto, using(crate::proofs::ReadLemmas::reads_front))]
    fn read(&mut self, buf: &mut [u8]) -> Got
        requires { 0 < length buf.old }
        ensures bytes { Reads (Some self.old.rest) (Some self.new.rest) result buf.new }
        ensures cause { HasReadCause self.old.faults self.new.faults result }

        // The calls that are listed fail, and no others.
        ensures fails { (result ≡ Got.Failed) ↔ IsFailing self.old.script }
        ensures counts { IsFailing self.old.script → self.new.faults ≡ counted self.old.faults }

        // Another call gives the least of its piece, the buffer and the rest.
        ensures gives { result ≢ Got.Failed
            → result ≡ got_of (min self.old.piece (min (length buf.old) (length self.old.rest))) }
        ensures no_fault { result ≢ Got.Failed → self.new.faults ≡ self.old.faults }

        // Each call is counted, and the rest of the script stays.
        ensures piece { self.new.piece ≡ self.old.piece }
        ensures after { self.new.script ≡ after_call self.old.script }
    {
        if self.script.next_fails() {
            self.faults = self.faults.saturating_add(1);
            return Got::Failed;
        }
        let most = buf.len().min(self.piece);
        self.source.read(&mut buf[..most])
    }
}

/// A sink into memory whose writes fail where they are told to (this project's).
#[derive(Debug, Drop)]
pub struct FakeSink {
    sink: MemSink,
    piece: usize,
    script: Script,
}

impl Model for FakeSink {
    ghost use Rattle.rt_base.specs.InMemory.{Drain};

    ghost Value = { Drain };

    ghost view = { λ s. record { sink = s.sink; piece = s.piece; script = s.script } };
}

impl FakeSink {
    /// The empty sink with room for so many bytes. The writes whose numbers, from 0, are in `fail` fail, and take at most `piece` bytes.
    pub fn new(
        alloc: Global,
        room: usize,
        piece: usize,
        fail: Vec<u32>,
    ) -> Result<FakeSink, AllocError>
        ensures { IfOk result (λ s. s ≡ record {
          sink = record { written = []; room = room; faults = 0 };
          piece = piece;
          script = record { fail = fail.items; call = 0 };
        }) }
    {
        Ok(FakeSink {
            sink: MemSink::new(alloc, room)?,
            piece,
            script: Script::new(fail),
        })
    }

    /// The bytes that were written.
    pub fn bytes(&self) -> &[u8]
        ensures { result.now ≡ self.now.sink.written }
    {
        self.sink.bytes()
    }
}

impl ByteSink for FakeSink {
    ghost written = { λ s. Some s.sink.written };

    ghost faults = { λ s. s.sink.faults };

    fn write(&mut self, buf: &[u8]) -> Put
        ensures bytes { Writes (Some self.old.sink.written) (Some self.new.sink.written) result buf.now }
        ensures cause { HasWriteCause self.old.sink.faults self.new.sink.faults result }

        // A call that is listed fails, and takes the front of its piece that fits.
        ensures fails { IsFailing self.old.script
            → (result ≡ Put.Failed)
            × (self.new.sink ≡ faulted (filled_by (take self.old.piece buf.now) self.old.sink)) }

        // Another call does what the sink in memory does.
        ensures fits { (IsFailing self.old.script → ⊥) → length buf.now ≤ self.old.sink.room
            → (result ≡ Put.All) × (self.new.sink ≡ filled_by buf.now self.old.sink) }
        ensures full { (IsFailing self.old.script → ⊥) → self.old.sink.room < length buf.now
            → (result ≡ Put.Failed) × (self.new.sink ≡ faulted (filled_by buf.now self.old.sink)) }

        // Each call is counted, and the rest of the script stays.
        ensures piece { self.new.piece ≡ self.old.piece }
        ensures after { self.new.script ≡ after_call self.old.script }
    {
        if self.script.next_fails() {
            let most = buf.len().min(self.piece);
            self.sink.fill_and_fail(&buf[..most])
        } else {
            self.sink.write(buf)
        }
    }
}

//! What the program reads from, writes to, and passes by.
ghost use Rattle.std.specs.Prelude.{◌<◌, ℕ, List, length};
ghost use Rattle.std.specs.Prelude.{Option};
ghost use Rattle.rt_base.specs.Outside.{Reads, HasReadCause, Writes, HasWriteCause};

/// What a source answered (this project's).
#[derive(Clone, Copy, Debug, PartialEq, Eq)]
pub enum Got {
    /// So many bytes at the front of the buffer, at least one.
    Bytes(usize),
    /// Nothing is left.
    End,
    /// The read failed, and nothing was taken.
    Failed,
}

/// What a sink answered (this project's).
#[derive(Clone, Copy, Debug, PartialEq, Eq)]
pub enum Put {
    /// The whole buffer was appended.
    All,
    /// The write failed, and at most a prefix of the buffer was appended.
    Failed,
}

/// Where bytes are read from (this project's).
pub trait ByteSource {
    /// The bytes that are left, where the source tells them.
    ghost rest: { Self → Option (List ℕ) };

    /// How many reads failed so far. The count stops at the greatest number of 64 bits.
    ghost faults: { Self → ℕ };

    /// Reads from one byte up to the buffer's length, to the front of the buffer.
    fn read(&mut self, buf: &mut [u8]) -> Got
        requires { 0 < length buf.old }
        ensures bytes { Reads (rest self.old) (rest self.new) result buf.new }
        ensures cause { HasReadCause (faults self.old) (faults self.new) result };
}

/// Where bytes are written to (this project's).
pub trait ByteSink {
    /// The bytes that were written, where the sink tells them.
    ghost written: { Self → Option (List ℕ) };

    /// How many writes failed so far. The count stops at the greatest number of 64 bits.
    ghost faults: { Self → ℕ };

    /// Appends the whole buffer, or fails and appends a prefix of it.
    fn write(&mut self, buf: &[u8]) -> Put
        ensures bytes { Writes (written self.old) (written self.new) result buf.now }
        ensures cause { HasWriteCause (faults self.old) (faults self.new) result };
}

/// Where a worker stands as it passes a gate (this project's).
#[derive(Clone, Copy, Debug, PartialEq, Eq)]
pub enum Point {
    /// Before a section of the book.
    Book,
    /// Before a run of at least one local operation.
    Kernel,
    /// Before a pause.
    Park,
    /// Before a completion.
    Arrive,
}

/// A test's hook, by which it can hold a worker up (this project's). Nothing is said of what it does.
pub trait Gate {
    /// The worker of this number passes, and may be kept for a while.
    fn pass(&self, worker: u16, point: Point);
}

/// The gate that holds nobody up (this project's).
#[derive(Clone, Copy, Debug, PartialEq, Eq)]
pub struct OpenGate;

impl Gate for OpenGate {
    fn pass(&self, _worker: u16, _point: Point) {}
}

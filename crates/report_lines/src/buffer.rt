//! A fixed buffer before a sink.
ghost use Rattle.std.specs.Prelude.{◌≡◌, [], ◌∷◌, ◌++◌, false};
ghost use Rattle.std.specs.Fmt.{decimal};
ghost use Rattle.std.specs.List.{flat_map};
ghost use Rattle.report_lines.specs.Lines.{number_text, numbers_text};
ghost use Rattle.report_lines.specs.Writing.{Waiting, output, Puts, Ends};

use rt_base::{ByteSink, Put};
use std::marker::Model;

// How many bytes one write hands over, but for the last one of a text.
const PIECE: usize = 8_192;

/// The bytes of a text that were not handed over yet, fewer than a piece. After a write that failed it drops what it is given, and nothing more is
/// written.
#[derive(Debug, Drop)]
pub struct Buffer {
    bytes: [u8; PIECE],
    len: usize,
    failed: bool,
}

impl Model for Buffer {
    ghost use Rattle.std.specs.Prelude.{◌<◌, take};
    ghost use Rattle.report_lines.specs.Writing.{Waiting};

    ghost Value = { Waiting };

    ghost view = { λ b. record { pending = take b.len b.bytes; failed = b.failed } };

    ghost invariant = { λ b. b.len < 8192 };
}

impl Buffer {
    /// Nothing waits, and no write has failed.
    pub fn new() -> Buffer
        ensures { result ≡ record { pending = []; failed = false } }
    {
        Buffer {
            bytes: [0; PIECE],
            len: 0,
            failed: false,
        }
    }

    /// Puts a byte behind the text so far.
    pub fn put_byte<K: ByteSink>(&mut self, out: &mut K, byte: u8)
        ensures { Puts (output (K.written out.old) (K.faults out.old) self.old) (output (K.written out.new) (K.faults out.new) self.new) (byte ∷ []) }
    {
        if self.failed {
            return;
        }
        self.bytes[self.len] = byte;
        if self.len + 1 < PIECE {
            self.len += 1;
            return;
        }
        self.len = 0;
        match out.write(&self.bytes) {
            Put::All => {}
            Put::Failed => self.failed = true,
        }
    }

    /// Writes what waits. `Failed` where a write has failed, this one or one before it.
    pub fn finish<K: ByteSink>(self, out: &mut K) -> Put
        ensures { Ends (output (K.written out.old) (K.faults out.old) self) (K.written out.new) (K.faults out.new) result }
    {
        if self.failed {
            return Put::Failed;
        }
        if self.len == 0 {
            return Put::All;
        }
        out.write(&self.bytes[..self.len])
    }
}

/// Puts the bytes behind the text.
pub fn put_bytes<K: ByteSink>(out: &mut K, buffer: &mut Buffer, bytes: &[u8])
    ensures { Puts (output (K.written out.old) (K.faults out.old) buffer.old) (output (K.written out.new) (K.faults out.new) buffer.new) bytes.now }
{
    for byte in bytes {
        buffer.put_byte(out, *byte);
    }
}

/// Puts the words behind the text.
pub fn put<K: ByteSink>(out: &mut K, buffer: &mut Buffer, words: &str)
    ensures { Puts (output (K.written out.old) (K.faults out.old) buffer.old) (output (K.written out.new) (K.faults out.new) buffer.new) words.now }
{
    put_bytes(out, buffer, words.as_bytes());
}

/// Puts the number behind the text.
pub fn put_decimal<K: ByteSink>(out: &mut K, buffer: &mut Buffer, number: u32)
    ensures { Puts (output (K.written out.old) (K.faults out.old) buffer.old) (output (K.written out.new) (K.faults out.new) buffer.new) (decimal number) }
{
    let mut digits = itoa::Buffer::new();
    put(out, buffer, digits.format(number));
}

/// Puts a blank and the number behind the text.
pub fn put_number<K: ByteSink>(out: &mut K, buffer: &mut Buffer, value: i64)
    ensures { Puts (output (K.written out.old) (K.faults out.old) buffer.old) (output (K.written out.new) (K.faults out.new) buffer.new)
        (number_text value) }
{
    let mut digits = itoa::Buffer::new();
    put(out, buffer, " ");
    put(out, buffer, digits.format(value));
}

/// Puts each number behind a blank.
pub fn put_numbers<K: ByteSink>(out: &mut K, buffer: &mut Buffer, numbers: &[i64])
    ensures { Puts (output (K.written out.old) (K.faults out.old) buffer.old) (output (K.written out.new) (K.faults out.new) buffer.new)
        (numbers_text numbers.now) }
{
    for number in numbers {
        put_number(out, buffer, *number);
    }
}

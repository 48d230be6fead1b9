//! Reading the input to its end.
ghost use Rattle.std.specs.Prelude.{◌≡◌, ◌≤◌, ◌++◌, length, take, is_ok, if◌then◌else◌};
ghost use Rattle.tampi_top.specs.Input.{IsTaken};

use rt_base::{ByteSource, Got};
use std::alloc::Global;

/// The most bytes that a text may have.
const MOST: usize = 1_048_576;

// How many bytes one read asks for.
const BUFFER: usize = 4_096;

/// What reading came to.
#[derive(Debug, Drop)]
pub enum Taken {
    /// The input was read to its end, and this is all of it.
    Whole(Vec<u8>),
    /// One byte more was taken than a text may have.
    TooLong,
    /// A read failed.
    Fault,
    Memory,
}

/// Reads the input to its end, or up to one byte more than a text may have, and never past that.
pub fn read_text<S: ByteSource>(alloc: Global, input: &mut S) -> Taken
    ensures taken { IsTaken (S.rest input.old) (S.rest input.new) (S.faults input.old) (S.faults input.new) result }
    ensures later { S.faults input.old ≤ S.faults input.new }
{
    let mut text = Vec::new(alloc);
    let mut buffer = [0; BUFFER];
    while text.len() <= MOST {
        let want = BUFFER.min(MOST + 1 - text.len());
        match input.read(&mut buffer[..want]) {
            Got::Bytes(count) => {
                if text.extend_from_slice(&buffer[..count]).is_err() {
                    return Taken::Memory;
                }
            }
            Got::End => return Taken::Whole(text),
            Got::Failed => return Taken::Fault,
        }
    }
    Taken::TooLong
}

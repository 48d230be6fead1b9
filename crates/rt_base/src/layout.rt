//! Where the arrays lie in the list of all cells.

ghost use Rattle.std.specs.Prelude.{◌≡◌, ◌<◌, ◌^◌, length, sum, IfOk};
ghost use Rattle.rt_base.specs.Layout.{address, array_place, starts_from};

use crate::data::{Program, Starts};
use crate::listed::Listed;
use std::alloc::{AllocError, Global};

/// The table of where arrays of these lengths begin, one behind another. Its time grows with their number.
pub fn starts_of(alloc: Global, lens: &[u32]) -> Result<Starts, AllocError>
    requires few { sum lens.now < 2 ^ 32 }
    ensures items { IfOk result (λ starts. starts.items ≡ starts_from 0 lens.now) }
    ensures room { IfOk result (λ starts. starts.room ≡ 0) }
{
    let mut starts = Vec::with_capacity(alloc, lens.len())?;
    let mut cell = 0;
    for len in lens {
        starts.push(cell)?;
        cell += *len;
    }
    Ok(Listed::from_vec(starts))
}

impl Program {
    /// The cell at which an array of a rank begins, in the list of the cells of all arrays of all ranks. Takes constant time.
    pub fn start_of(&self, rank: u16, array: u16) -> u32
        requires table { self.now.starts.items ≡ starts_from 0 self.now.lens.items }
        requires place { array_place self.now rank array < length self.now.lens.items }
        ensures { result ≡ address self.now rank array 0 }
    {
        self.starts.as_slice()[rank as usize * self.names.len() + array as usize]
    }
}

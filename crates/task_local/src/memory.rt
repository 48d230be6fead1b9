//! The memory of all ranks, as regions are loaded from it and put back.

ghost use Rattle.std.specs.Prelude.{◌≡◌, ◌≤◌, length, All};
ghost use Rattle.rt_base.specs.Spans.{span_len};
ghost use Rattle.rt_base.specs.Layout.{address, memory_len};
ghost use Rattle.task_local.specs.Regions.{loaded_regions, saved_regions, put_back};
ghost use Rattle.task_local.specs.Kept.{cell_total, LiesIn, RegionLies};

use crate::index::Region;
use rt_base::{Access, Program};

// Copies the cells of the regions in from the memory of all ranks.
pub(crate) fn load_regions(
    prog: &Program,
    rank: u16,
    ordered: &[Region],
    memory: &[i64],
    copy: &mut [i64],
)
    requires inside { All (RegionLies prog.now rank) ordered.now }
    requires memory { length memory.now ≡ memory_len prog.now }
    requires copy { length copy.old ≡ cell_total ordered.now }
    ensures { copy.new ≡ loaded_regions prog.now rank ordered.now memory.now }
{
    let mut at = 0;
    for region in ordered {
        let from = address_of(prog, rank, &region.access);
        let count = region.access.span.len() as usize;
        copy[at..at + count].copy_from_slice(&memory[from..from + count]);
        at += count;
    }
}

// Puts the cells of the written regions back into the memory of all ranks.
pub(crate) fn save_regions(
    prog: &Program,
    rank: u16,
    ordered: &[Region],
    copy: &[i64],
    memory: &mut [i64],
)
    requires inside { All (RegionLies prog.now rank) ordered.now }
    requires memory { length memory.old ≡ memory_len prog.now }
    requires copy { length copy.now ≡ cell_total ordered.now }
    ensures { memory.new ≡ saved_regions prog.now rank ordered.now copy.now memory.old }
{
    let mut at = 0;
    for region in ordered {
        let count = region.access.span.len() as usize;
        put_back_region(prog, rank, &region.access, &copy[at..at + count], memory);
        at += count;
    }
}

// Puts the cells of a region back, where the region is written.
fn put_back_region(prog: &Program, rank: u16, access: &Access, cells: &[i64], memory: &mut [i64])
    requires lies { LiesIn prog.now rank access.now }
    requires memory { length memory.old ≡ memory_len prog.now }
    requires cells { length cells.now ≡ span_len access.now.span }
    ensures { memory.new ≡ put_back prog.now rank access.now cells.now memory.old }
{
    if access.mode.is_written() {
        let from = address_of(prog, rank, access);
        memory[from..from + cells.len()].copy_from_slice(cells);
    }
}

// Where the region's first cell lies in the memory of all ranks.
fn address_of(prog: &Program, rank: u16, access: &Access) -> usize
    requires lies { LiesIn prog.now rank access.now }
    ensures { result ≡ address prog.now rank access.now.span.array access.now.span.from }
{
    prog.start_of(rank, access.span.array) as usize + access.span.from as usize
}

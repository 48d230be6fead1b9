//! The text of the blocked heat solver.
ghost use Rattle.std.specs.Prelude.{◌≡◌, ◌≤◌, ◌+◌, ◌*◌, ◌++◌, length, IfOk, OnOk};
ghost use Rattle.std.specs.List.{flat_map};
ghost use Rattle.heat_text.specs.Heat.{rank_cells, all_cells, number_at, written, template, heat_text};

use std::alloc::{AllocError, Global};

// The numbers that a text is made from.
#[derive(Clone, Copy)]
struct Sizes {
    blocks: u32,
    cells: u32,
    steps: u32,
    seed: u32,
}

// The text with a capital letter in the place of each number that depends on the sizes.
const TEMPLATE: &[u8] = b"\
     array u, N\n\
     array v, N\n\
     array s, 3\n\
     show s\n\
     for b = 0 .. B\n\
     task\n\
     out u[1 + b * C .. 1 + b * C + C]\n\
     do\n\
     ramp u[1 + b * C .. 1 + b * C + C], S + 1000 * rank + 100 * b, 4\n\
     end\n\
     end\n\
     for t = 0 .. T\n\
     if rank > 0\n\
     task\n\
     in u[1 .. 2]\n\
     do\n\
     isend q, u[1 .. 2], rank - 1, 0\n\
     iwait q\n\
     end\n\
     task\n\
     out u[0 .. 1]\n\
     do\n\
     irecv q, u[0 .. 1], rank - 1, 1\n\
     iwait q\n\
     end\n\
     end\n\
     if rank < size - 1\n\
     task\n\
     in u[L .. L + 1]\n\
     do\n\
     send u[L .. L + 1], rank + 1, 1\n\
     end\n\
     task\n\
     out u[L + 1 .. L + 2]\n\
     do\n\
     recv u[L + 1 .. L + 2], rank + 1, 0\n\
     end\n\
     end\n\
     for b = 0 .. B\n\
     task\n\
     in u[b * C .. b * C + C + 2]\n\
     out v[1 + b * C .. 1 + b * C + C]\n\
     do\n\
     jacobi2 v[1 + b * C .. 1 + b * C + C], u[b * C .. b * C + C + 2]\n\
     end\n\
     end\n\
     for b = 0 .. B\n\
     task\n\
     in v[1 + b * C .. 1 + b * C + C]\n\
     out u[1 + b * C .. 1 + b * C + C]\n\
     do\n\
     copy u[1 + b * C .. 1 + b * C + C], v[1 + b * C .. 1 + b * C + C]\n\
     end\n\
     end\n\
     end\n\
     task\n\
     in u[1 .. L + 1]\n\
     out s[0 .. 3]\n\
     do\n\
     sum s[0 .. 1], u[1 .. L + 1]\n\
     least s[1 .. 2], u[1 .. L + 1]\n\
     greatest s[2 .. 3], u[1 .. L + 1]\n\
     end\n";

impl Sizes {
    // How many cells the blocks of a rank have together.
    fn rank_cells(self) -> u64
        ensures { result ≡ rank_cells self }
    {
        u64::from(self.blocks) * u64::from(self.cells)
    }

    // The same, with one cell more at each end.
    fn all_cells(self) -> u64
        ensures { result ≡ all_cells self }
    {
        self.rank_cells() + 2
    }

    // The number that a letter of the template stands for.
    fn number_at(self, letter: u8) -> Option<u64>
        ensures { result ≡ number_at self letter }
    {
        match letter {
            b'B' => Some(u64::from(self.blocks)),
            b'C' => Some(u64::from(self.cells)),
            b'L' => Some(self.rank_cells()),
            b'N' => Some(self.all_cells()),
            b'S' => Some(u64::from(self.seed)),
            b'T' => Some(u64::from(self.steps)),
            _ => None,
        }
    }
}

// Puts what a letter of the template is written as behind the text.
fn put_letter(text: &mut Vec<u8>, sizes: Sizes, letter: u8) -> Result<(), AllocError>
    ensures text { OnOk result (text.new.items ≡ text.old.items ++ written sizes letter) }
    ensures short { OnOk result (length text.new.items ≤ length text.old.items + 40) }
{
    let mut digits = itoa::Buffer::new();
    match sizes.number_at(letter) {
        Some(number) => text.extend_from_slice(digits.format(number).as_bytes()),
        None => Ok(text.push(letter)?),
    }
}

// Puts what the letters are written as behind the text.
fn put_letters(text: &mut Vec<u8>, sizes: Sizes, letters: &[u8]) -> Result<(), AllocError>
    ensures text { OnOk result (text.new.items ≡ text.old.items ++ flat_map (written sizes) letters.now) }
    ensures short { OnOk result (length text.new.items ≤ length text.old.items + 40 * length letters.now) }
{
    for letter in letters {
        put_letter(text, sizes, *letter)?;
    }
    Ok(())
}

// The template.
#[tactic(auto, unfolding(crate::specs::Heat::template))]
fn template() -> &'static [u8]
    ensures template { result.now ≡ template }
    ensures len { length result.now ≡ 950 }
{
    TEMPLATE
}

/// The text of the blocked heat solver, about 1,000 bytes: so many blocks of a rank, cells of a block and steps, and a seed. Each rank has a row of
/// cells, one more at each end, and each block begins as a ramp from the seed on. In each step the ranks hand their outer cells to their neighbours,
/// and each cell becomes the mean of both its neighbours and twice itself. At the end each rank shows the sum, the least and the greatest of its cells.
pub fn heat_text(
    alloc: Global,
    blocks: u32,
    cells: u32,
    steps: u32,
    seed: u32,
) -> Result<Vec<u8>, AllocError>
    ensures text { IfOk result (λ text. text.items ≡ heat_text blocks cells steps seed) }
    ensures short { IfOk result (λ text. length text.items ≤ 38000) }
{
    let sizes = Sizes {
        blocks,
        cells,
        steps,
        seed,
    };
    let mut text = Vec::new(alloc);
    put_letters(&mut text, sizes, template())?;
    Ok(text)
}

// The cells of the array: what the steps of a job write, each function with the whole memory in its contract.
#![tactic(auto)]

ghost use Rattle.std.specs.Prelude.{◌≡◌, ◌+◌, min, ◌-◌, get_or};
ghost use Rattle.cells.specs.Cells.{sweep, blanked, anded, later};

use std::ops::Range;

pub mod output;

// The byte at a place, or 0 past the end.
pub fn byte_at(s: &[u8], i: usize) -> u8
    ensures { result ≡ get_or s.now i 0 }
{
    s.get(i).copied().unwrap_or(0)
}

// Where those of the n cells from `from` stand that lie inside a memory of `len` cells.
fn inside(len: usize, from: usize, n: usize) -> Range<usize>
    ensures start { result.start ≡ min from len }
    ensures end { result.end ≡ min from len + min n (len - from) }
{
    let start = from.min(len);
    start..start + n.min(len - start)
}

// Erases the n cells from `from`: each becomes FFh.
#[tactic(auto, using(crate::proofs::Laws::part_more, crate::proofs::Laws::part_swept), unfolding(crate::specs::Cells::sweep))]
pub fn blank(mem: &mut [u8], from: usize, n: usize)
    ensures { mem.new ≡ sweep blanked mem.old from n }
{
    let part = inside(mem.len(), from, n);
    // A loop, which becomes one memset: `fill` of std stores the last cell by itself, after a memset of the others.
    for cell in mem[part].iter_mut() {
        *cell = 255;
    }
}

// Programs the n cells from `from`, the cells `at` and up of their page: each is ANDed with its load byte.
#[tactic(auto, using(crate::proofs::Laws::part_more, crate::proofs::Laws::part_swept), unfolding(crate::specs::Cells::sweep))]
pub fn program(mem: &mut [u8], load: &[u8; 256], from: usize, at: usize, n: usize)
    ensures { mem.new ≡ sweep (later (anded load.now) at) mem.old from n }
{
    let part = inside(mem.len(), from, n);
    for (i, cell) in mem[part].iter_mut().enumerate() {
        *cell &= load[(at % 256 + i) % 256];
    }
}

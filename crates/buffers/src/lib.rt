// The bytes of a register as a whole: kept as they stand, copied, and cleared. Each function takes any buffer.
#![tactic(auto)]

ghost use Rattle.std.specs.Prelude.{ℕ, ◌≡◌, ◌≤◌, List, [], ◌++◌, length, replicate, take, drop, min};
ghost use Rattle.buffers.specs.Copy.{copy_of};

use std::marker::Model;

// Copies cells to the start of a buffer, as far as there is room, and gives how many.
fn copy_start(copy: &mut [u8], cells: &[u8]) -> usize
    ensures few { result ≡ min (length cells.now) (length copy.old) }
    ensures start { copy.new ≡ take result cells.now ++ drop result copy.old }
{
    let end = cells.len().min(copy.len());
    copy[..end].copy_from_slice(&cells[..end]);
    end
}

// The bytes of a register as it stands, since a deletion has to look back at it. A register has 16,384 bytes at most, so no more are
// ever copied.
// Kept: its clause and `copied_once` promise the zeros behind the register, which a deletion does not need: it keeps the bytes in a
// `Kept`, by the same copy.
pub fn copied(cells: &[u8]) -> [u8; 16384]
    ensures { result ≡ copy_of cells.now }
{
    let mut copy = [0u8; 16384];
    copy_start(&mut copy, cells);
    copy
}

// A register as it stood: the copy of it that a deletion looks back at.
// Kept: an array with its length beside it, since there is no heap.
#[derive(Drop)]
pub struct Kept {
    bytes: [u8; 16384],
    length: usize,
}

impl Model for Kept {
    ghost Value = { List ℕ };

    ghost view = { λ kept. take kept.length kept.bytes };

    ghost invariant = { λ kept. kept.length ≤ 16384 };
}

impl Kept {
    // Nothing is kept yet.
    pub fn new() -> Kept
        ensures { result ≡ [] }
    {
        Kept {
            bytes: [0u8; 16384],
            length: 0,
        }
    }

    // Keeps the cells of a register, 16,384 at most. They are written where the array lies, since it is slow to move.
    #[tactic(auto, using(crate::proofs::Copy::part_kept))]
    pub fn keep(&mut self, cells: &[u8])
        ensures { self.new ≡ take 16384 cells.now }
    {
        self.length = copy_start(&mut self.bytes, cells);
    }

    // The cells that are kept.
    pub fn cells(&self) -> &[u8]
        ensures { result.now ≡ self.now }
    {
        &self.bytes[..self.length]
    }
}

// Zero in every byte.
pub fn clear(cells: &mut [u8])
    ensures { cells.new ≡ replicate (length cells.old) 0 }
{
    cells.fill(0);
}

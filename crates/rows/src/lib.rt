// Rows of a register, restricted each as a part of its own. Each function takes any header and any buffer: where the header is
// none or the buffer is not n·n cells, nothing changes, so that no caller has to prove anything first.
#![tactic(auto)]

ghost use Rattle.std.specs.Prelude.{ℕ, ◌≡◌, map, length, ◌<◌, ◌≤◌};
ghost use Rattle.rights.specs.Restriction.{restricted, row_to, rows_to};
ghost use Rattle.rows.specs.Whole.{Whole, if_whole};
ghost use Rattle.rows.specs.Row.{at_level, on_row, to_levels, one_level};

use rights::{Header, Office};

// The levels that the cells of a register go to, and how a row goes there.
pub trait Levels {
    // The level for the cell of a grantor and a subject.
    ghost level: { Self → ℕ → ℕ → ℕ };

    // The row of grantor i, wherever it lies.
    fn restrict(&self, row: &mut [u8], i: usize)
        ensures { row.new ≡ to_levels (level self.now i) row.old };
}

// A level for each grantor.
impl Levels for [u8; 128] {
    ghost level = { rows_to };

    #[tactic(auto, using(crate::proofs::Rows::to_one_level), unfolding(rights::specs::Restriction::rows_to, rights::specs::Level::level_in))]
    fn restrict(&self, row: &mut [u8], i: usize) {
        restrict_row(row, self.get(i).copied().unwrap_or(0));
    }
}

// One level for all cells.
impl Levels for u8 {
    ghost level = { one_level };

    #[tactic(auto, using(crate::proofs::Rows::to_one_level), unfolding(crate::specs::Row::one_level))]
    fn restrict(&self, row: &mut [u8], _i: usize) {
        restrict_row(row, *self);
    }
}

// A row is restricted cell by cell, wherever it lies.
pub fn restrict_row(row: &mut [u8], level: u8)
    ensures { row.new ≡ map (at_level level) row.old }
{
    for cell in row.iter_mut() {
        *cell = carrying::restrict(*cell, level);
    }
}

// The row of grantor i is lent as a part of its own: the n cells from i·n on.
// Kept: a condition, here and below: a struct with the `&mut` would have to promise each time that it is still the one it was given.
fn restrict_row_of<L: Levels>(cells: &mut [u8], header: Header, i: usize, levels: &L)
    requires { Whole header cells.old × (i < header.n) }
    ensures { cells.new ≡ restricted header cells.old (on_row i (L.level levels.now i)) }
{
    let n = header.n as usize;
    let start = i * n;
    let end = start + n;
    levels.restrict(&mut cells[start..end], i);
}

// All rows, one after the other.
#[tactic(auto, using(crate::proofs::Rows::rows_none, crate::proofs::Rows::rows_next, crate::proofs::Rows::rows_all))]
fn restrict_each_row<L: Levels>(cells: &mut [u8], header: Header, levels: &L)
    requires { Whole header cells.old }
    ensures { cells.new ≡ restricted header cells.old (L.level levels.now) }
{
    for i in 0..header.n as usize {
        restrict_row_of(cells, header, i, levels);
    }
}

// Each cell to the level that is given for it, row by row.
#[tactic(auto, using(crate::proofs::Guard::whole_read), unfolding(crate::specs::Whole::if_whole))]
pub fn restrict_to<L: Levels>(cells: &mut [u8], header: Header, levels: &L)
    ensures { cells.new ≡ if_whole header cells.old (restricted header cells.old (L.level levels.now)) }
{
    if registers::readable(cells, header) {
        restrict_each_row(cells, header, levels);
    }
}

// Row k to the level of k.
pub fn restrict_rows(cells: &mut [u8], header: Header, levels: [u8; 128])
    ensures { cells.new ≡ if_whole header cells.old (restricted header cells.old (rows_to levels)) }
{
    restrict_to(cells, header, &levels);
}

// One row to a level. An office that there is none of has no row.
#[tactic(auto, using(crate::proofs::Guard::whole_read), unfolding(crate::specs::Whole::if_whole, crate::specs::Row::on_row, crate::specs::Row::one_level, rights::specs::Restriction::row_to))]
pub fn restrict_one_row(cells: &mut [u8], header: Header, row: Office, level: u8)
    ensures { cells.new ≡ if_whole header cells.old (restricted header cells.old (row_to row.0 level)) }
{
    if registers::readable(cells, header) && row.0 < header.n {
        restrict_row_of(cells, header, row.0 as usize, &level);
    }
}

// Columns of a register: the cells of the columns that are marked, restricted row by row. Any header and any buffer is taken:
// where they make no register, nothing changes.
#![tactic(auto)]

ghost use Rattle.std.specs.Prelude.{◌≡◌};
ghost use Rattle.rights.specs.Restriction.{restricted, columns_to};
ghost use Rattle.rows.specs.Whole.{if_whole};
ghost use Rattle.columns.specs.Marked.{is_marked};

use rights::Header;
use rows::Levels;

// The cells of the marked columns go to the levels of their grantors, and the others are kept.
#[derive(Clone, Copy)]
struct Marked {
    columns: [u8; 128],
    levels: [u8; 128],
}

impl Levels for Marked {
    ghost level = { λ marked. columns_to (is_marked marked.columns) marked.levels };

    #[tactic(auto, using(crate::proofs::Turns::turned_start, crate::proofs::Turns::turned_set, crate::proofs::Turns::turned_over), unfolding(rights::specs::Restriction::columns_to, crate::specs::Marked::is_marked, rights::specs::Level::level_in, rights::specs::Cell::restrict))]
    fn restrict(&self, row: &mut [u8], i: usize) {
        let level = self.levels.get(i).copied().unwrap_or(0);
        for (y, cell) in row.iter_mut().enumerate() {
            if self.columns.get(y).copied().unwrap_or(0) != 0 {
                *cell = carrying::restrict(*cell, level);
            }
        }
    }
}

// Each cell of a marked column to the level of its grantor.
// Kept: a header and a buffer, since any two are taken.
pub fn restrict_columns(cells: &mut [u8], header: Header, columns: [u8; 128], levels: [u8; 128])
    ensures { cells.new ≡ if_whole header cells.old (restricted header cells.old (columns_to (is_marked columns) levels)) }
{
    rows::restrict_to(cells, header, &Marked { columns, levels });
}

// The local deletions, and the column step that strong deletions share. Each function takes any header, any buffer and any office:
// where the buffer is no register of the header, nothing changes.
#![tactic(auto)]

ghost use Rattle.std.specs.Prelude.{◌≡◌, true};
ghost use Rattle.rights.specs.Deletion.{wld as weak_local, sld as strong_local, column_step, row_settled};
ghost use Rattle.rights.specs.Sound.{readable};
ghost use Rattle.rights.specs.Level.{level_in};
ghost use Rattle.rows.specs.Whole.{if_whole};
ghost use Rattle.local.specs.Mark.{only_mark};

use buffers::Kept;
use rights::{Header, Office};

// The marks of one office alone.
// Kept: a set of bytes, since a mark of a column may be any byte but 0 (`restrict_columns`).
#[tactic(auto, unfolding(crate::specs::Mark::only_mark))]
fn single(office: Office) -> [u8; 128]
    ensures { result ≡ only_mark office.0 }
{
    let mut marks = [0u8; 128];
    if office.0 < 128 {
        marks[office.0 as usize] = 1;
    }
    marks
}

// The level of one office, 0 where there is none.
#[tactic(auto, unfolding(rights::specs::Level::level_in))]
fn level_at(levels: [u8; 128], office: Office) -> u8
    ensures { result ≡ level_in levels office.0 }
{
    levels.get(office.0 as usize).copied().unwrap_or(0)
}

// Each cell of column j to its grantor's level by chains that do not name i, so that the cell of i itself empties.
// Kept: a header and a buffer, here and below, since any two are taken and the buffer is written.
#[tactic(auto, using(crate::proofs::Made::column_step_made))]
pub fn column_step(cells: &mut [u8], header: Header, by: Office, to: Office)
    ensures { cells.new ≡ if_whole header cells.old (column_step header cells.old by.0 to.0) }
{
    let own = levels::independent_levels(cells, header, by);
    columns::restrict_columns(cells, header, single(to), own);
}

// Row j to the level that the column step has left j, and what it lost by that to i. `before` is the register as the command found
// it.
// Kept: the register before as bytes that can be read, since `hand_over` takes bytes.
#[tactic(auto, using(crate::proofs::Made::settle_made))]
fn settle_row(cells: &mut [u8], header: Header, by: Office, to: Office, before: &[u8])
    requires { (readable header cells.old ≡ true) × (readable header before.now ≡ true) }
    ensures { cells.new ≡ row_settled header before.now cells.old by.0 to.0 }
{
    let levels = levels::levels(cells, header);
    rows::restrict_one_row(cells, header, to, level_at(levels, to));
    cuts::hand_over(cells, header, by, to, before);
}

// Weak local deletion: who lived on the cell lives on by i instead.
// Kept: beside `sld`, which differs in its first step alone: what they share is `settle_row`.
#[tactic(auto, using(buffers::proofs::Copy::kept_whole, crate::proofs::Local::emptied_readable, crate::proofs::Local::wld_made), unfolding(rows::specs::Whole::if_whole))]
pub fn wld(cells: &mut [u8], header: Header, by: Office, to: Office)
    ensures { cells.new ≡ if_whole header cells.old (weak_local header cells.old by.0 to.0) }
{
    if registers::readable(cells, header) {
        let mut before = Kept::new();
        before.keep(cells);
        cuts::empty_cell(cells, header, by, to);
        settle_row(cells, header, by, to, before.cells());
    }
}

// Strong local deletion: j keeps only what does not hang on i, and who lived on the rest lives on by i.
#[tactic(auto, using(buffers::proofs::Copy::kept_whole, crate::proofs::Local::stepped_readable, crate::proofs::Local::sld_made), unfolding(rows::specs::Whole::if_whole))]
pub fn sld(cells: &mut [u8], header: Header, by: Office, to: Office)
    ensures { cells.new ≡ if_whole header cells.old (strong_local header cells.old by.0 to.0) }
{
    if registers::readable(cells, header) {
        let mut before = Kept::new();
        before.keep(cells);
        column_step(cells, header, by, to);
        settle_row(cells, header, by, to, before.cells());
    }
}

// Sweeping, and weak global deletion, which is a cell emptied and a sweep. Each function takes any header, any buffer and any office:
// where the buffer is no register of the header, nothing changes.
#![tactic(auto)]

ghost use Rattle.std.specs.Prelude.{◌≡◌};
ghost use Rattle.rights.specs.Restriction.{sweep as swept};
ghost use Rattle.rights.specs.Deletion.{wgd as weak_global};
ghost use Rattle.rows.specs.Whole.{if_whole};

use rights::{Header, Office};

// Every row to the level of its grantor. All levels are taken before any row is restricted.
// Kept: a header and a buffer, here and below, since any two are taken and the buffer is written.
#[tactic(auto, using(crate::proofs::Swept::sweep_made))]
pub fn sweep(cells: &mut [u8], header: Header)
    ensures { cells.new ≡ if_whole header cells.old (swept header cells.old) }
{
    let levels = levels::levels(cells, header);
    rows::restrict_rows(cells, header, levels);
}

// Weak global deletion: what the cell gave is gone, and with it whatever hung on it alone.
#[tactic(auto, using(crate::proofs::Swept::wgd_made))]
pub fn wgd(cells: &mut [u8], header: Header, by: Office, to: Office)
    ensures { cells.new ≡ if_whole header cells.old (weak_global header cells.old by.0 to.0) }
{
    cuts::empty_cell(cells, header, by, to);
    sweep(cells, header);
}

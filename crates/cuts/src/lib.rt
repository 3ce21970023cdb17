// Single cells of a register: emptied, granted and handed over. Each function takes any header, any buffer and any office: where
// the buffer is no register of the header, or there is no such cell, nothing changes.
#![tactic(auto)]

ghost use Rattle.std.specs.Prelude.{◌≡◌};
ghost use Rattle.rights.specs.Permission.{decoded};
ghost use Rattle.rights.specs.Restriction.{emptied};
ghost use Rattle.rights.specs.Deletion.{granted, handed_over};
ghost use Rattle.rows.specs.Whole.{Whole, if_whole};
ghost use Rattle.cuts.specs.Stored.{stored, handed_at, if_both_whole};

use rights::{Header, Office, Permission};

// One cell is stored, if both are offices: a subject that is none would reach into another grantor's row.
// Kept: a condition, here and below: a struct with the `&mut` would have to promise each time that it is still the one it was given.
fn store(cells: &mut [u8], header: Header, i: Office, j: Office, v: u8)
    requires { Whole header cells.old }
    ensures { cells.new ≡ stored header cells.old i.0 j.0 v }
{
    if i.0 < header.n && j.0 < header.n {
        let k = i.0 as usize * header.n as usize + j.0 as usize;
        cells[k] = v;
    }
}

// The cell of grantor i and subject j is emptied.
#[tactic(auto, using(rows::proofs::Guard::whole_read, crate::proofs::Cells::emptied_stored), unfolding(rows::specs::Whole::if_whole))]
pub fn empty_cell(cells: &mut [u8], header: Header, i: Office, j: Office)
    ensures { cells.new ≡ if_whole header cells.old (emptied header cells.old i.0 j.0) }
{
    if registers::readable(cells, header) {
        store(cells, header, i, j, 0);
    }
}

// The record is added to the cell of grantor i and subject j. A permission is read as the definitions read a code.
// Kept: a number for the permission, since it takes every byte.
#[tactic(auto, using(rows::proofs::Guard::whole_read, crate::proofs::Cells::granted_stored), unfolding(rows::specs::Whole::if_whole))]
pub fn add_record(cells: &mut [u8], header: Header, i: Office, j: Office, perm: u8)
    ensures { cells.new ≡ if_whole header cells.old (granted header cells.old i.0 j.0 (decoded perm)) }
{
    if registers::readable(cells, header) {
        let c = registers::cell(cells, header, i, j);
        let record = Permission::decoded(perm).code();
        store(cells, header, i, j, cells::union(c, record));
    }
}

// What row j lost at k is added to row i, unless k is i. All cells are read before the store, since i may be j.
#[tactic(auto, using(crate::proofs::Handed::handed_other, crate::proofs::Handed::handed_own))]
fn hand_cell(cells: &mut [u8], header: Header, i: Office, j: Office, k: Office, before: &[u8])
    requires { Whole header cells.old }
    ensures { cells.new ≡ handed_at header before.now cells.old i.0 j.0 k.0 }
{
    if k != i {
        let gone = cells::without(
            registers::cell(before, header, j, k),
            registers::cell(cells, header, j, k),
        );
        let c = registers::cell(cells, header, i, k);
        store(cells, header, i, k, cells::union(c, gone));
    }
}

// The whole row, cell by cell: row j is read while row i is written, so neither is lent as a part.
#[tactic(auto, using(crate::proofs::Handed::handed_start, crate::proofs::Handed::handed_next, crate::proofs::Handed::handed_end))]
fn hand_row(cells: &mut [u8], header: Header, i: Office, j: Office, before: &[u8])
    requires { Whole header cells.old }
    ensures { cells.new ≡ handed_over header before.now cells.old i.0 j.0 }
{
    for k in 0..header.n {
        hand_cell(cells, header, i, j, Office(k), before);
    }
}

// Each record of row j that stood before and is gone now is added to row i.
#[tactic(auto, using(rows::proofs::Guard::whole_read), unfolding(crate::specs::Stored::if_both_whole))]
pub fn hand_over(cells: &mut [u8], header: Header, i: Office, j: Office, before: &[u8])
    ensures { cells.new ≡ if_both_whole header before.now cells.old (handed_over header before.now cells.old i.0 j.0) }
{
    if registers::readable(before, header) && registers::readable(cells, header) {
        hand_row(cells, header, i, j, before);
    }
}

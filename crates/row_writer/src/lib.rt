// The writer of a row: the records of one grantor, as text. A room that is too small is left as it was.
#![tactic(auto)]

ghost use Rattle.std.specs.Prelude.{◌≡◌, ◌++◌, ◌≤◌, length};
ghost use Rattle.rights.specs.Refusal.{answer_of};
ghost use Rattle.wording.specs.Records.{row_text};
ghost use Rattle.wording.specs.Writer.{row_refusal, row_written};
ghost use Rattle.printing.specs.Page.{Fits, Adds};
ghost use Rattle.printing.specs.Told.{Told, written_of};
ghost use Rattle.row_writer.specs.Row.{pair_text, perm_text, member_text, cell_text};

use printing::{Page, Written};
use registers::Register;
use rights::{Header, Office, Permission, Refusal};

// The line of a record's permission.
fn perm_line(perm: Permission) -> [u8; 8]
    ensures { result ≡ perm_text perm }
{
    match perm {
        Permission::TT => *b"perm=TT\n",
        Permission::TF => *b"perm=TF\n",
        Permission::FT => *b"perm=FT\n",
        Permission::FF => *b"perm=FF\n",
    }
}

// How long the text of a cell is: its records differ in their permission alone, and each of these has two letters.
fn cell_size(by: Office, to: Office, c: u8) -> usize
    ensures value { result ≡ length (cell_text by.0 to.0 c) }
    ensures few { result ≤ 144 }
{
    let record = 16 + numbers::digits(by.0 as u32) + numbers::digits(to.0 as u32);
    cells::size(c) as usize * record
}

// How long the text of a row is.
// Kept: beside `put_row`, since a row is measured whole before its first byte is written.
fn row_size(register: &Register, row: Office) -> usize
    ensures { result ≡ length (row_text register.now.header register.now.cells.now row.0) }
{
    let mut size = 0;
    for to in 0..register.header.n {
        let to = Office(to);
        size += cell_size(row, to, register.cell(row, to));
    }
    size
}

// Writes the grantor's and the subject's line of a record.
// Kept: two lines for a writer, here and in `put_perm`: a helper that takes the writer has more clauses than these have lines.
fn put_pair(page: &mut Page, by: Office, to: Office)
    requires { Fits (pair_text by.0 to.0) page.old }
    ensures { Adds (pair_text by.0 to.0) page.old page.new }
{
    let room = &mut page.room[page.at..];
    page.at += printing::write_two(b"by=", by.0 as u32, b"to=", to.0 as u32, room).size;
}

// Writes the permission's line of a record.
fn put_perm(page: &mut Page, perm: Permission)
    requires { Fits (perm_text perm) page.old }
    ensures { Adds (perm_text perm) page.old page.new }
{
    let room = &mut page.room[page.at..];
    page.at += printing::write_bytes(&perm_line(perm), room).size;
}

// Writes a record of a cell, if it stands there.
fn put_member(page: &mut Page, by: Office, to: Office, c: u8, perm: Permission)
    requires { Fits (member_text by.0 to.0 c perm) page.old }
    ensures { Adds (member_text by.0 to.0 c perm) page.old page.new }
{
    if cells::stands(c, perm) {
        put_pair(page, by, to);
        put_perm(page, perm);
    }
}

// Writes the records of a cell, in the order TT, TF, FT, FF.
fn put_cell(page: &mut Page, by: Office, to: Office, c: u8)
    requires { Fits (cell_text by.0 to.0 c) page.old }
    ensures { Adds (cell_text by.0 to.0 c) page.old page.new }
{
    for perm in Permission::ALL {
        put_member(page, by, to, c, perm);
    }
}

// Writes the records of a row.
fn put_row(page: &mut Page, register: &Register, row: Office)
    requires { Fits (row_text register.now.header register.now.cells.now row.0) page.old }
    ensures { Adds (row_text register.now.header register.now.cells.now row.0) page.old page.new }
{
    for to in 0..register.header.n {
        let to = Office(to);
        put_cell(page, row, to, register.cell(row, to));
    }
}

// The refusals of the row writer before 14: those of the register, then 6.
fn row_refusal(cells: &[u8], header: Header, row: Office) -> Result<(), Refusal>
    ensures { answer_of result ≡ row_refusal header cells.now row.0 }
{
    sound::register_refusal(cells, header)?;
    if header.n <= row.0 {
        return Err(Refusal::NoOffice);
    }
    Ok(())
}

// Writes the records of one office at the start of a room.
fn try_row(cells: &[u8], header: Header, row: Office, room: &mut [u8]) -> Result<usize, Refusal>
    ensures { Told (row_written header cells.now row.0 room.old) (written_of result) room.new }
{
    row_refusal(cells, header, row)?;
    let register = Register { cells, header };
    if room.len() < row_size(&register, row) {
        return Err(Refusal::LittleRoom);
    }
    let mut page = Page { room, at: 0 };
    put_row(&mut page, &register, row);
    Ok(page.at)
}

// The records of one office, as grantor.
// Kept: a header and a buffer, here and above, since the contract is about any two.
pub fn write_row(cells: &[u8], header: Header, row: Office, room: &mut [u8]) -> Written
    ensures { Told (row_written header cells.now row.0 room.old) result room.new }
{
    Written::from(try_row(cells, header, row, room))
}

// The records of a register's text, one after the other up to the end line, each added to the cells as it is read.
#![tactic(auto)]

ghost use Rattle.std.specs.Prelude.{◌≡◌, ◌≤◌, length};
ghost use Rattle.wording.specs.Records.{first, by_may, to_may, perm_may};
ghost use Rattle.wording.specs.RegisterReader.{in_range};
ghost use Rattle.records.specs.Read.{text_record, record_at};
ghost use Rattle.records.specs.Stored.{place_of, stored_one, found_at, found_is, records_at, RecordsTold};

use lines::LineKind;
use rights::{Header, Office};

// One record, as it was read: nothing of it is known to be in range.
// Kept: a number as permission, since the one that stands in before the first record is above all four.
#[derive(Clone, Copy)]
pub struct Record {
    pub by: Office,
    pub to: Office,
    pub perm: u8,
}

// All records up to the end line: whether one names an office that there is not, whether one is forbidden, and where the text goes
// on behind the end line.
#[derive(Clone, Copy)]
pub struct RecordsEnd {
    pub outside: bool,
    pub forbidden: bool,
    pub next: usize,
}

// Whether a record with this `by=` may come after the last one.
#[tactic(auto, unfolding(wording::specs::Records::by_may, crate::specs::Read::text_record))]
fn by_may(last: Record, by: Office) -> bool
    ensures { result ≡ by_may (text_record last) by.0 }
{
    last.by <= by
}

// Whether one with this `to=` may.
#[tactic(auto, unfolding(wording::specs::Records::to_may, crate::specs::Read::text_record))]
fn to_may(last: Record, by: Office, to: Office) -> bool
    ensures { result ≡ to_may (text_record last) by.0 to.0 }
{
    last.by < by || last.to <= to
}

// Whether one with this `perm=` may: `none` may not, and none that was told before.
// Kept: a number for the permission, since a line has one and the record before the first has 16.
#[tactic(auto, unfolding(wording::specs::Records::perm_may, crate::specs::Read::text_record))]
fn perm_may(last: Record, by: Office, to: Office, perm: u16) -> bool
    ensures { result ≡ perm_may (text_record last) by.0 to.0 perm }
{
    1 <= perm && (last.by < by || last.to < to || perm < last.perm as u16)
}

// The record at the byte `at`, which comes after the last one, and where the next line starts; or where the bad line starts.
fn read_record(text: &[u8], at: usize, last: Record) -> Result<(Record, usize), usize>
    requires { at ≤ length text.now }
    ensures { result ≡ record_at text.now at last }
{
    let Some((by, to_at)) = lines::line(text, at, LineKind::By) else {
        return Err(at);
    };
    let by = Office(by);
    if !by_may(last, by) {
        return Err(at);
    }
    let Some((to, perm_at)) = lines::line(text, to_at, LineKind::To) else {
        return Err(to_at);
    };
    let to = Office(to);
    if !to_may(last, by, to) {
        return Err(to_at);
    }
    let Some((perm, next)) = lines::line(text, perm_at, LineKind::Perm) else {
        return Err(perm_at);
    };
    if !perm_may(last, by, to, perm) {
        return Err(perm_at);
    }
    let perm = perm as u8;
    Ok((Record { by, to, perm }, next))
}

// Whether the record names two offices that there are.
#[tactic(auto, unfolding(crate::specs::Read::text_record))]
fn in_range(header: Header, told: Record) -> bool
    ensures { result ≡ in_range header (text_record told) }
{
    told.by.0 < header.n && told.to.0 < header.n
}

// The byte of the record's cell.
// Kept: the formula of `cell` in `registers`, which gives the cell and not where it stands.
#[tactic(auto, unfolding(crate::specs::Read::text_record, crate::specs::Stored::place_of))]
fn place(header: Header, told: Record) -> usize
    ensures { result ≡ place_of header (text_record told) }
{
    told.by.0 as usize * header.n as usize + told.to.0 as usize
}

// The record added to the cells, where it has a cell and the buffer has room for that.
fn store(cells: &mut [u8], header: Header, told: Record)
    ensures { cells.new ≡ stored_one header cells.old (text_record told) }
{
    let at = place(header, told);
    if in_range(header, told) && at < cells.len() {
        cells[at] = cells::union(cells[at], told.perm);
    }
}

// What stands in for the record before the first one: every record comes after it.
// Kept: no default, since its permission is above all four.
#[tactic(auto, unfolding(wording::specs::Records::first, crate::specs::Read::text_record))]
fn before_all() -> Record
    ensures { text_record result ≡ first }
{
    Record {
        by: Office(0),
        to: Office(0),
        perm: 16,
    }
}

// The records up to the end line, each added to the cells.
fn scan(text: &[u8], start: usize, header: Header, cells: &mut [u8]) -> Result<RecordsEnd, usize>
    requires { start ≤ length text.now }
    ensures { found_is result cells.new ≡ found_at text.now start header cells.old }
{
    let mut at = start;
    let mut last = before_all();
    let mut outside = false;
    let mut forbidden = false;
    loop {
        if let Some(next) = lines::end_line(text, at) {
            return Ok(RecordsEnd {
                outside,
                forbidden,
                next,
            });
        }
        let (told, next) = read_record(text, at, last)?;
        store(cells, header, told);
        outside |= !in_range(header, told);
        forbidden |= registers::barred(header, told.by, told.to);
        last = told;
        at = next;
    }
}

// The records of the text from the byte `start` on, up to the end line, and the buffer with these records alone; or where the bad
// line starts, which leaves the buffer zero. A record that has no cell is left out: the reader of the register refuses it.
// Kept: a header and a buffer, since what is read need not make a register.
pub fn read_records(
    text: &[u8],
    start: usize,
    header: Header,
    cells: &mut [u8],
) -> Result<RecordsEnd, usize>
    ensures { RecordsTold (records_at text.now start header (length cells.old)) (length cells.old) result cells.new }
{
    buffers::clear(cells);
    if text.len() < start {
        return Err(text.len());
    }
    let read = scan(text, start, header, cells);
    if read.is_err() {
        buffers::clear(cells);
    }
    read
}

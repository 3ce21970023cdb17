// What the program `regrun` writes for an input: the register is read, the commands are run one at a time, and the register is
// written. A room that holds the longest output is asked for first, so nothing is ever cut.
#![tactic(auto)]

ghost use Rattle.std.specs.Prelude.{◌≡◌, ◌+◌, ◌*◌, ◌≤◌, ◌<◌, length, true};
ghost use Rattle.rights.specs.Sound.{headed, register_refusal};
ghost use Rattle.wording.specs.Word.{end_text};
ghost use Rattle.wording.specs.Lines.{header_text};
ghost use Rattle.wording.specs.Records.{joined, row_text, register_text};
ghost use Rattle.answers.specs.Answers.{answer_text, refused_text};
ghost use Rattle.printing.specs.Told.{Told};
ghost use Rattle.outputs.specs.Within.{HasRoom, AddsWithin};
ghost use Rattle.outputs.specs.Output.{commands_output, output, output_written};

use commands::Outcome;
use printing::{Page, Written};
use registers::Register;
use rights::{Header, Office, Refusal};

// Writes what a command answered.
// Kept: two lines in each writer here, since a helper that takes the writer as a closure has four clauses that each caller must meet.
fn put_answer(page: &mut Page, done: Outcome)
    requires { HasRoom 54 page.old }
    ensures { AddsWithin 54 (answer_text done.answer done.removed done.added) page.old page.new }
{
    let room = &mut page.room[page.at..];
    page.at += answers::write_answer(done.answer, done.removed, done.added, room).size;
}

// Writes that a text is refused, and where in the input its first bad line starts.
// Kept: a number for the refusal, here and where a reader's answer is tested: the readers are public and give what C reads.
fn put_refused(page: &mut Page, number: u8, at: usize)
    requires { HasRoom 33 page.old × (at ≤ 65536) }
    ensures { AddsWithin 33 (refused_text number at) page.old page.new }
{
    let room = &mut page.room[page.at..];
    page.at += answers::write_refused(number, at as u32, room).size;
}

// Writes the row of one office.
fn put_row(page: &mut Page, register: &Register, row: Office)
    requires { (register_refusal register.now.header register.now.cells.now ≡ 0) × (row.0 < register.now.header.n) × HasRoom 11264 page.old }
    ensures { AddsWithin 11264 (row_text register.now.header register.now.cells.now row.0) page.old page.new }
{
    let room = &mut page.room[page.at..];
    page.at += row_writer::write_row(register.cells, register.header, row, room).size;
}

// Writes the rows of all offices.
// Kept: that the register is not refused, here and where else it is asked: the writer of a row gives its text only then.
fn put_rows(page: &mut Page, register: &Register)
    requires { (register_refusal register.now.header register.now.cells.now ≡ 0) × HasRoom (11264 * register.now.header.n) page.old }
    ensures { AddsWithin (11264 * register.now.header.n) (joined register.now.header.n (row_text register.now.header register.now.cells.now)) page.old page.new }
{
    for row in 0..register.header.n {
        put_row(page, register, Office(row));
    }
}

// Writes the header of a register.
fn put_header(page: &mut Page, header: Header)
    requires { (headed header ≡ true) × HasRoom 26 page.old }
    ensures { AddsWithin 26 (header_text header) page.old page.new }
{
    let room = &mut page.room[page.at..];
    page.at += frames::write_header(header, room).size;
}

// Writes the line behind the last row.
fn put_end(page: &mut Page)
    requires { HasRoom 13 page.old }
    ensures { AddsWithin 13 end_text page.old page.new }
{
    let room = &mut page.room[page.at..];
    page.at += frames::write_end(room).size;
}

// Writes a register's text: header, rows, end.
fn put_register(page: &mut Page, register: &Register)
    requires { (register_refusal register.now.header register.now.cells.now ≡ 0) × HasRoom 1441831 page.old }
    ensures { AddsWithin 1441831 (register_text register.now.header register.now.cells.now) page.old page.new }
{
    put_header(page, register.header);
    put_rows(page, register);
    put_end(page);
}

// Runs the commands of a text one at a time and writes their answers, and behind them the register; a refused text ends it. The
// text is what the input has from the byte `at` on. A command has five keys and five LF, 26 bytes, so three for each byte hold every
// answer.
// Kept: a recursion over the rest of the text, as the definition's; a loop's invariant would say all that has been written so far.
// Kept: a header and a buffer, since the commands write the buffer.
fn put_commands(page: &mut Page, text: &[u8], at: usize, cells: &mut [u8], header: Header)
    requires { (register_refusal header cells.old ≡ 0) × (at + length text.now ≤ 65536) × HasRoom (3 * length text.now + 1441831) page.old }
    ensures { AddsWithin (3 * length text.now + 1441831) (commands_output header cells.old at text.now) page.old page.new }
{
    if text.is_empty() {
        return put_register(page, &Register { cells, header });
    }
    let read = command_reader::read_command(text);
    if read.answer != 0 {
        return put_refused(page, read.answer, at + read.at);
    }
    let done = commands::command(cells, header, read.command);
    put_answer(page, done);
    let rest = rests::command_rest(text, read);
    put_commands(page, rest, at + read.next, cells, header);
}

// Writes what an input comes to: that it is too long, or the commands behind its register.
// Kept: an array of which a part is used, since there is no heap.
fn put_output(page: &mut Page, input: &[u8])
    requires { HasRoom 1700000 page.old }
    ensures { AddsWithin 1700000 (output input.now) page.old page.new }
{
    if 65536 < input.len() {
        return put_refused(page, Refusal::LongInput.number(), 0);
    }
    let mut buffer = [0u8; 16384];
    let read = register_reader::read_register(input, &mut buffer);
    if read.answer != 0 {
        return put_refused(page, read.answer, read.at);
    }
    let size = read.header.n as usize * read.header.n as usize;
    let rest = rests::register_rest(input, read);
    put_commands(page, rest, read.next, &mut buffer[..size], read.header);
}

// The whole output for an input, at the start of the room.
pub fn write_output(input: &[u8], room: &mut [u8]) -> Written
    ensures told { Told (output_written input.now room.old) result room.new }
    ensures few { result.size ≤ 1700000 }
{
    if room.len() < 1700000 {
        return Written::from(Err(Refusal::LittleRoom));
    }
    let mut page = Page { room, at: 0 };
    put_output(&mut page, input);
    Written::from(Ok(page.at))
}

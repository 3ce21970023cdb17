// The register for programs in C: each public function of the project's library crates that such a program calls, under a plain name
// and with its own contract. A slice crosses as a pointer and a length, a struct by value.
#![tactic(auto)]

ghost use Rattle.std.specs.Prelude.{◌≡◌};
ghost use Rattle.rights.specs.Command.{outcome};
ghost use Rattle.rights.specs.Question.{answered};
ghost use Rattle.rights.specs.Run.{run_outcome};
ghost use Rattle.wording.specs.RegisterReader.{register_read};
ghost use Rattle.wording.specs.Writer.{header_written, row_written, end_written};
ghost use Rattle.commands.specs.Post.{Answers};
ghost use Rattle.printing.specs.Told.{Told};
ghost use Rattle.register_reader.specs.Told.{RegisterTold};
ghost use Rattle.command_reader.specs.CommandTold.{command_told};
ghost use Rattle.runs.specs.Post.{RanAs};

use command_reader::CommandRead;
use commands::Outcome;
use printing::Written;
use questions::Held;
use register_reader::RegisterRead;
use rights::{Command, Entry, Header, Office, Ran};

// One command: the answer, the tally, and the register as the command leaves it.
#[unsafe(no_mangle)]
pub extern "C" fn rights_command(cells: &mut [u8], header: Header, command: Command) -> Outcome
    ensures { Answers (outcome header cells.old command) result cells.new }
{
    commands::command(cells, header, command)
}

// A run of commands: the answer, the tally, the register as the run leaves it, and each entry with its answer.
#[unsafe(no_mangle)]
pub extern "C" fn rights_run(cells: &mut [u8], header: Header, entries: &mut [Entry]) -> Ran
    ensures { RanAs (run_outcome header cells.old entries.old) result cells.new entries.new }
{
    runs::run(cells, header, entries)
}

// The holding question: the answer and the chain.
#[unsafe(no_mangle)]
pub extern "C" fn rights_holding(
    cells: &[u8],
    header: Header,
    office: Office,
    perm: u8,
    chain: &mut [u8],
) -> Held
    ensures answer { result.answer ≡ (answered header cells.now office.0 perm chain.old).answer }
    ensures offices { result.offices ≡ (answered header cells.now office.0 perm chain.old).offices }
    ensures chain { chain.new ≡ (answered header cells.now office.0 perm chain.old).chain }
{
    questions::holding(cells, header, office, perm, chain)
}

// A register text: what was read, and where the rest starts.
#[unsafe(no_mangle)]
pub extern "C" fn rights_read_register(text: &[u8], cells: &mut [u8]) -> RegisterRead
    ensures { RegisterTold (register_read text.now cells.old) result cells.new }
{
    register_reader::read_register(text, cells)
}

// A command text: what was read, and where the rest starts.
#[unsafe(no_mangle)]
pub extern "C" fn rights_read_command(text: &[u8]) -> CommandRead
    ensures { result ≡ command_told text.now }
{
    command_reader::read_command(text)
}

// The header of a register's text.
#[unsafe(no_mangle)]
pub extern "C" fn rights_write_header(header: Header, room: &mut [u8]) -> Written
    ensures { Told (header_written header room.old) result room.new }
{
    frames::write_header(header, room)
}

// The records of one office, as grantor.
#[unsafe(no_mangle)]
pub extern "C" fn rights_write_row(
    cells: &[u8],
    header: Header,
    row: Office,
    room: &mut [u8],
) -> Written
    ensures { Told (row_written header cells.now row.0 room.old) result room.new }
{
    row_writer::write_row(cells, header, row, room)
}

// The line behind the last row.
#[unsafe(no_mangle)]
pub extern "C" fn rights_write_end(room: &mut [u8]) -> Written
    ensures { Told (end_written room.old) result room.new }
{
    frames::write_end(room)
}

// The rest of the caller's own text, behind a register or a command that was read.
#![tactic(auto)]

ghost use Rattle.wording.specs.RegisterReader.{register_read};
ghost use Rattle.wording.specs.CommandReader.{command_read};
ghost use Rattle.rests.specs.Rest.{RestTold, RegisterRest, CommandRest};

use command_reader::CommandRead;
use register_reader::RegisterRead;

// The caller's own text from the byte on at which a reader says that the rest starts; its empty end where the text is shorter, as it is
// where the reader refused.
pub fn rest_from(text: &[u8], next: usize) -> &[u8]
    ensures { RestTold text.entry.ref_ptr text.now next result.ref_ptr result.now }
{
    &text[next.min(text.len())..]
}

// The rest of the caller's text behind a register, and the empty part at its end where the reader refused.
// Kept: one for each reader's answer, here and below, since documents promise both.
pub fn register_rest<'a>(text: &'a [u8], read: RegisterRead) -> &'a [u8]
    ensures { RestTold text.entry.ref_ptr text.now read.next result.ref_ptr result.now }
{
    rest_from(text, read.next)
}

// The rest of the caller's text behind a command, and the empty part at its end where the reader refused.
pub fn command_rest<'a>(text: &'a [u8], read: CommandRead) -> &'a [u8]
    ensures { RestTold text.entry.ref_ptr text.now read.next result.ref_ptr result.now }
{
    rest_from(text, read.next)
}

// A register read into the buffer: the unread part of the caller's text, where the commands follow.
// Kept: one function for each reader, since this one fills a lent buffer and the other has none.
pub fn after_register<'a>(text: &'a [u8], cells: &mut [u8]) -> &'a [u8]
    ensures { RegisterRest text.entry.ref_ptr (register_read text.now cells.old) result.ref_ptr result.now cells.new }
{
    register_rest(text, register_reader::read_register(text, cells))
}

// A command: the unread part of the caller's text behind it, where the next command follows.
pub fn after_command(text: &[u8]) -> &[u8]
    ensures { CommandRest text.entry.ref_ptr (command_read text.now) result.ref_ptr result.now }
{
    command_rest(text, command_reader::read_command(text))
}

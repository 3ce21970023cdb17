// What stands around the rows in the text of a register: its header, and the line at its end. A room that is too small is left as it
// was.
#![tactic(auto)]

ghost use Rattle.wording.specs.Writer.{header_written, end_written};
ghost use Rattle.printing.specs.Told.{Told};

use printing::Written;
use rights::{Header, Refusal};

// The header of a register.
pub fn write_header(header: Header, room: &mut [u8]) -> Written
    ensures { Told (header_written header room.old) result room.new }
{
    if !registers::headed(header) {
        return Written::from(Err(Refusal::NoHeader));
    }
    let n = header.n as u32;
    let soa = header.soa.0 as u32;
    let layer = header.layer.0 as u32;
    printing::write_three(b"n=", n, b"soa=", soa, b"layer=", layer, room)
}

// The line behind the last row.
#[tactic(auto, unfolding(wording::specs::Writer::end_written, wording::specs::Word::end_text))]
pub fn write_end(room: &mut [u8]) -> Written
    ensures { Told (end_written room.old) result room.new }
{
    printing::write_bytes(b"end=register\n", room)
}

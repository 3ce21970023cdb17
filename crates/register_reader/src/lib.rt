// The reader of a register: the header by value, the cells in a lent buffer, and where in the text the rest starts.
#![tactic(auto)]

ghost use Rattle.std.specs.Prelude.{◌≡◌};
ghost use Rattle.rights.specs.declared.Refusal.TheVariants.{BadText};
ghost use Rattle.rights.specs.Refusal.{answer_of};
ghost use Rattle.wording.specs.RegisterReader.{register_read};
ghost use Rattle.register_reader.specs.Told.{header_in, buffer_refusal, RegisterTold, read_answer};

use lines::LineKind;
use records::RecordsEnd;
use rights::{Header, Layer, Office, Refusal};

// What the register reader gives: 0 or the refusal, where the bad line starts, the header, and where the rest starts.
// Kept: a number for the answer and a header beside it, since C reads this struct.
#[repr(C)]
#[derive(Clone, Copy)]
pub struct RegisterRead {
    pub answer: u8,
    pub at: usize,
    pub header: Header,
    pub next: usize,
}

// Why there is no register: the refusal, and where the bad line starts, 0 if none is bad.
#[derive(Clone, Copy)]
struct Refused {
    refusal: Refusal,
    at: usize,
}

impl From<Refusal> for Refused {
    ghost from_gives = { λ refusal refused. refused ≡ record { refusal = refusal; at = 0 } };

    // A refusal for which no line is bad.
    fn from(refusal: Refusal) -> Refused {
        Refused { refusal, at: 0 }
    }
}

// The refusal for a bad line.
fn bad_line(at: usize) -> Refused
    ensures { (result.refusal ≡ BadText) × (result.at ≡ at) }
{
    Refused {
        refusal: Refusal::BadText,
        at,
    }
}

// The three lines of a header, and where the records start; or where the bad line starts.
fn read_header(text: &[u8]) -> Result<(Header, usize), usize>
    ensures { result ≡ header_in text.now }
{
    let Some((n, soa_at)) = lines::line(text, 0, LineKind::N) else {
        return Err(0);
    };
    let Some((soa, layer_at)) = lines::line(text, soa_at, LineKind::Soa) else {
        return Err(soa_at);
    };
    let Some((layer, next)) = lines::line(text, layer_at, LineKind::Layer) else {
        return Err(layer_at);
    };
    let header = Header {
        n,
        soa: Office(soa),
        layer: Layer(layer),
    };
    Ok((header, next))
}

// Refusals 1, 2, 6, 7 and 3, in this order, of a buffer with the records added and what was found of them.
// Kept: a header and a buffer, until it is known that they make a register.
fn judge(cells: &[u8], header: Header, found: RecordsEnd) -> Result<(), Refusal>
    ensures { answer_of result ≡ buffer_refusal header cells.now found.outside found.forbidden }
{
    if !registers::headed(header) {
        return Err(Refusal::NoHeader);
    }
    let size = header.n as usize * header.n as usize;
    if cells.len() < size {
        return Err(Refusal::WrongLength);
    }
    if found.outside {
        return Err(Refusal::NoOffice);
    }
    if found.forbidden {
        return Err(Refusal::Barred);
    }
    sound::register_refusal(&cells[..size], header)
}

// The register, its bytes in the lent buffer, and where the rest starts; refused, the whole buffer zero. A bad record leaves it so, and
// it may be long, so it is not cleared once more for that.
fn read(text: &[u8], cells: &mut [u8]) -> Result<(Header, usize), Refused>
    ensures { RegisterTold (register_read text.now cells.old) (read_answer text.now result) cells.new }
{
    let (header, start) = match read_header(text) {
        Ok(read) => read,
        Err(line) => {
            buffers::clear(cells);
            return Err(bad_line(line));
        }
    };
    let found = records::read_records(text, start, header, cells).map_err(bad_line)?;
    if let Err(refusal) = judge(cells, header, found) {
        buffers::clear(cells);
        return Err(Refused::from(refusal));
    }
    Ok((header, found.next))
}

// The register, its bytes in the lent buffer and zero behind them; refused, the whole buffer zero.
pub fn read_register(text: &[u8], cells: &mut [u8]) -> RegisterRead
    ensures { RegisterTold (register_read text.now cells.old) result cells.new }
{
    match read(text, cells) {
        Ok((header, next)) => RegisterRead {
            answer: 0,
            at: 0,
            header,
            next,
        },
        Err(Refused { refusal, at }) => RegisterRead {
            answer: refusal.number(),
            at,
            header: Header::default(),
            next: text.len(),
        },
    }
}

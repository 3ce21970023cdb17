// The cells of a register in its bytes, and which header and buffer are a register at all. Each function takes any header, any buffer and
// any office.
#![tactic(auto)]

ghost use Rattle.std.specs.Prelude.{◌≡◌, true, is_some, IfSome};
ghost use Rattle.rights.specs.Register.{cell as cell_of};
ghost use Rattle.rights.specs.Sound.{headed as is_headed, whole as is_whole, readable as is_readable, barred as is_barred};

use rights::{Header, Office};

// A register that can be read: its header is one, and its bytes are as many as its cells.
// Kept: a grantor and a subject apart, here and everywhere: each contract and each document names the two.
#[derive(Clone, Copy)]
pub struct Register<'a> {
    pub cells: &'a [u8],
    pub header: Header,
    ghost is_readable: { is_readable header cells.now ≡ true },
}

impl<'a> Register<'a> {
    // The register of a header and a buffer, where these are one.
    pub fn of(cells: &'a [u8], header: Header) -> Option<Register<'a>>
        ensures there { is_some result ≡ is_readable header cells.now }
        ensures same { IfSome result (λ r. (r.header ≡ header) × (r.cells.now ≡ cells.now)) }
    {
        if readable(cells, header) {
            Some(Register { cells, header })
        } else {
            None
        }
    }

    // The cell of a grantor and a subject.
    pub fn cell(&self, by: Office, to: Office) -> u8
        ensures { result ≡ cell_of self.now.header self.now.cells.now by.0 to.0 }
    {
        cell(self.cells, self.header, by, to)
    }
}

// The cell of a grantor and a subject; empty where there are too few bytes, so that no caller has to know that there are not.
// Kept: a header and a buffer, here and below, since any two are taken.
#[tactic(auto, unfolding(rights::specs::Register::cell))]
pub fn cell(cells: &[u8], header: Header, by: Office, to: Office) -> u8
    ensures { result ≡ cell_of header cells.now by.0 to.0 }
{
    let at = by.0 as usize * header.n as usize + to.0 as usize;
    cells.get(at).copied().unwrap_or(0)
}

// Whether n is in 2..128 and SOA below n: refusal 1 does not apply.
#[tactic(auto, unfolding(rights::specs::Sound::headed))]
pub fn headed(header: Header) -> bool
    ensures { result ≡ is_headed header }
{
    2 <= header.n && header.n <= 128 && header.soa.0 < header.n
}

// Whether there are as many bytes as cells: refusal 2 does not apply.
pub fn whole(cells: &[u8], header: Header) -> bool
    ensures { result ≡ is_whole header cells.now }
{
    let n = header.n as usize;
    cells.len() == n * n
}

// Whether the header is one, and the buffer holds the cells of its register.
pub fn readable(cells: &[u8], header: Header) -> bool
    ensures { result ≡ is_readable header cells.now }
{
    headed(header) && whole(cells, header)
}

// Whether no grant may stand there: on the diagonal and in SOA's column.
#[tactic(auto, unfolding(rights::specs::Sound::barred))]
pub fn barred(header: Header, by: Office, to: Office) -> bool
    ensures { result ≡ is_barred header by.0 to.0 }
{
    by == to || to == header.soa
}

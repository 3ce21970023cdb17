// Whether a register is sound, cell by cell: each is small, empty where no grant may stand, and within its grantor's level.
#![tactic(auto)]

ghost use Rattle.std.specs.Prelude.{◌≡◌, ◌<◌};
ghost use Rattle.rights.specs.Below.{all_below};
ghost use Rattle.rights.specs.Refusal.{answer_of};
ghost use Rattle.rights.specs.Sound.{sound_cell, sound_by, register_refusal};

use registers::Register;
use rights::{Header, Office, Refusal};

// Whether the cell may stand as it is. An empty cell may stand anywhere.
#[tactic(auto, using(crate::proofs::Standing::empty_stands), unfolding(rights::specs::Sound::sound_cell, rights::specs::Level::level_in))]
fn sound_cell(register: &Register, levels: &[u8; 128], i: u16, j: u16) -> bool
    requires { i < 128 }
    ensures { result ≡ sound_cell register.now.header register.now.cells.now levels.now i j }
{
    let c = register.cell(Office(i), Office(j));
    if c == 0 {
        return true;
    }
    c <= 15
        && !registers::barred(register.header, Office(i), Office(j))
        && carrying::restrict(c, levels[i as usize]) == c
}

// Whether each cell of row i may stand.
fn sound_row(register: &Register, levels: &[u8; 128], i: u16) -> bool
    requires { i < 128 }
    ensures { result ≡ all_below register.now.header.n (sound_cell register.now.header register.now.cells.now levels.now i) }
{
    (0..register.header.n).all(|j| sound_cell(register, levels, i, j))
}

// Whether each row may stand.
fn sound_by(register: &Register, levels: &[u8; 128]) -> bool
    ensures { result ≡ sound_by register.now.header register.now.cells.now levels.now }
{
    (0..register.header.n).all(|i| sound_row(register, levels, i))
}

// The refusal of a register by itself: its header is none, its length another, or it is not sound.
// Kept: a header and a buffer, here and above, since the contract is about any two.
pub fn register_refusal(cells: &[u8], header: Header) -> Result<(), Refusal>
    ensures { answer_of result ≡ register_refusal header cells.now }
{
    if !registers::headed(header) {
        return Err(Refusal::NoHeader);
    }
    let Some(register) = Register::of(cells, header) else {
        return Err(Refusal::WrongLength);
    };
    if sound_by(&register, &levels::levels(cells, header)) {
        Ok(())
    } else {
        Err(Refusal::Unsound)
    }
}

// Which permissions an office holds, from levels that are known, and which offices hold fewer than before.
// Levels come as 128 bytes, one for each office there can be, as `levels` gives them.
#![tactic(auto)]

ghost use Rattle.std.specs.Prelude.{◌≡◌, is_some, IfSome, ◌<◌};
ghost use Rattle.levels.specs.Padded.{padded, padded_levels};
ghost use Rattle.rights.specs.Below.{table};
ghost use Rattle.rights.specs.Level.{holds_by, passes_on};
ghost use Rattle.rights.specs.Deletion.{loses_one, loses as loses_by};
ghost use Rattle.rights.specs.Sound.{readable as is_readable};
ghost use Rattle.holdings.specs.Loser.{mark_by, padded_losers};

use registers::Register;
use rights::{Header, Office, Permission};

// A register with the levels of its offices.
#[derive(Drop)]
struct Levelled<'a> {
    register: Register<'a>,
    levels: [u8; 128],
}

impl<'a> Levelled<'a> {
    // The register with its levels.
    fn of(register: Register<'a>) -> Levelled<'a>
        ensures same { (result.register.header ≡ register.entry.header) × (result.register.cells.now ≡ register.entry.cells.now) }
        ensures levels { result.levels ≡ padded_levels register.entry.header register.entry.cells.now }
    {
        Levelled {
            register,
            levels: levels::levels(register.cells, register.header),
        }
    }

    // Whether office x may pass the permission on to y and has a link there that carries it.
    #[tactic(auto, unfolding(rights::specs::Level::level_in))]
    fn passes_on(&self, perm: Permission, y: u16, x: u16) -> bool
        requires { x < 128 }
        ensures { result ≡ passes_on self.now.register.header self.now.register.cells.now self.now.levels perm y x }
    {
        carrying::suffices(self.levels[x as usize], perm)
            && carrying::carries_as(self.register.cell(Office(x), Office(y)), perm)
    }

    // Whether y holds the permission: SOA does, and whoever has a grantor that passes it on.
    #[tactic(auto, unfolding(rights::specs::Level::holds_by))]
    fn holds(&self, perm: Permission, y: u16) -> bool
        ensures { result ≡ holds_by self.now.register.header self.now.register.cells.now self.now.levels perm y }
    {
        y == self.register.header.soa.0
            || (0..self.register.header.n).any(|x| self.passes_on(perm, y, x))
    }
}

// A register before and after a deletion, which leaves its header as it was.
#[derive(Drop)]
struct Change<'a> {
    before: Levelled<'a>,
    after: Levelled<'a>,
    ghost one_header: { before.register.header ≡ after.register.header },
}

impl<'a> Change<'a> {
    // Whether y held the permission before and does not now.
    fn loses_one(&self, y: u16, perm: Permission) -> bool
        ensures { let b = self.now.before in let a = self.now.after in result ≡ loses_one b.register.header b.register.cells.now b.levels a.register.cells.now a.levels y perm }
    {
        self.before.holds(perm, y) && !self.after.holds(perm, y)
    }

    // Whether y holds fewer permissions than before: some one of the four is gone.
    fn loses(&self, y: u16) -> bool
        ensures { let b = self.now.before in let a = self.now.after in result ≡ loses_by b.register.header b.register.cells.now b.levels a.register.cells.now a.levels y }
    {
        Permission::ALL.iter().any(|perm| self.loses_one(y, *perm))
    }

    // 1 for each office that holds fewer permissions than before, and 0 for the others and after them.
    #[tactic(auto, using(registers::proofs::Bounds::readable_high, levels::proofs::Padded::filling, crate::proofs::Marks::byte_of), unfolding(crate::specs::Loser::mark_by))]
    fn losers(&self) -> [u8; 128]
        ensures { let b = self.now.before in let a = self.now.after in result ≡ padded 0 (table b.register.header.n (mark_by b.register.header b.register.cells.now b.levels a.register.cells.now a.levels)) }
    {
        let mut marks = [0; 128];
        for y in 0..self.before.register.header.n {
            marks[y as usize] = u8::from(self.loses(y));
        }
        marks
    }
}

// The offices that hold fewer permissions after than before, each marked 1; nobody where either register cannot be read. Levels are
// found once both can be read, since they cost more than all else here.
// Kept: a header and two buffers, since the contract is about any three.
#[tactic(auto, using(crate::proofs::Marks::losers_marked, crate::proofs::Marks::none_before, crate::proofs::Marks::none_after), unfolding(levels::specs::Padded::padded))]
pub fn losers(before: &[u8], after: &[u8], header: Header) -> [u8; 128]
    ensures { result ≡ padded_losers header before.now after.now }
{
    match (Register::of(before, header), Register::of(after, header)) {
        (Some(before), Some(after)) => Change {
            before: Levelled::of(before),
            after: Levelled::of(after),
        }
        .losers(),
        _ => [0; 128],
    }
}

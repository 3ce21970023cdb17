// The words of a rights register: permissions, acts, refusals, offices, layers, the header of a register, a command to it, and tallies.
// Offices and layers are types of their own, so that neither is ever taken for the other.
#![tactic(auto)]

ghost use Rattle.std.specs.Prelude.{◌≡◌, ◌+◌};
ghost use Rattle.rights.specs.Permission.{code, decoded};
ghost use Rattle.rights.specs.Refusal.{number};
ghost use Rattle.rights.specs.Act.{ActGiven};
ghost use Rattle.rights.specs.Tally.{capped};

// What a record gives: its first letter is the right to pass on, its second the right to issue negatives.
#[derive(Clone, Copy, PartialEq, Eq)]
pub enum Permission {
    TT = 8,
    TF = 4,
    FT = 2,
    FF = 1,
}

impl Permission {
    // The permissions in the order in which a register's text has the records of a cell.
    pub const ALL: [Permission; 4] = [
        Permission::TT,
        Permission::TF,
        Permission::FT,
        Permission::FF,
    ];

    // The number of the permission, which is its bit in a cell.
    #[tactic(auto, unfolding(crate::specs::Permission::code))]
    pub fn code(self) -> u8
        ensures { result ≡ code self }
    {
        self as u8
    }

    // The permission that a number stands for; FF where it stands for none.
    #[tactic(auto, unfolding(crate::specs::Permission::decoded))]
    pub fn decoded(perm: u8) -> Permission
        ensures { result ≡ decoded perm }
    {
        match perm {
            8 => Permission::TT,
            4 => Permission::TF,
            2 => Permission::FT,
            _ => Permission::FF,
        }
    }
}

// What a command does to a register.
#[derive(Clone, Copy, PartialEq, Eq)]
pub enum Act {
    Grant,
    WLD,
    WGD,
    SLD,
    SGD,
}

impl TryFrom<u8> for Act {
    type Error = Refusal;

    ghost try_from_gives = { ActGiven };

    fn try_from(act: u8) -> Result<Act, Refusal> {
        match act {
            0 => Ok(Act::Grant),
            1 => Ok(Act::WLD),
            2 => Ok(Act::WGD),
            3 => Ok(Act::SLD),
            4 => Ok(Act::SGD),
            _ => Err(Refusal::NoCommand),
        }
    }
}

// Why a register, a command, a question or a text is refused, by its number in document 01.
#[derive(Clone, Copy, PartialEq, Eq)]
pub enum Refusal {
    NoHeader = 1,
    WrongLength = 2,
    Unsound = 3,
    NoCommand = 4,
    OtherLayer = 5,
    NoOffice = 6,
    Barred = 7,
    NotEntitled = 8,
    Standing = 9,
    EmptyCell = 10,
    ShortChain = 11,
    NotHeld = 12,
    BadText = 13,
    LittleRoom = 14,
    LongInput = 15,
    LongRun = 16,
}

impl Refusal {
    // The number that an answer gives.
    pub fn number(self) -> u8
        ensures { result ≡ number self }
    {
        self as u8
    }
}

// The number of an office.
#[repr(C)]
#[derive(Clone, Copy, PartialEq, Eq, PartialOrd, Ord, Default)]
pub struct Office(pub u16);

// The number of a layer.
#[repr(C)]
#[derive(Clone, Copy, PartialEq, Eq, Default)]
pub struct Layer(pub u16);

// What a register's bytes do not say themselves: how many offices there are, which of them is the source of authority, and
// whose layer it is.
// Kept: a number of offices, with which an office is compared by its own number: a count is no office.
#[repr(C)]
#[derive(Clone, Copy, Default)]
pub struct Header {
    pub n: u16,
    pub soa: Office,
    pub layer: Layer,
}

// One command to a register, as it was given: nothing of it is known to be in range.
// Kept: numbers for the act and the permission, since C fills this struct in.
#[repr(C)]
#[derive(Clone, Copy, Default)]
pub struct Command {
    pub act: u8,
    pub layer: Layer,
    pub by: Office,
    pub to: Office,
    pub perm: u8,
}

// A command of a run, with the place for its answer.
// Kept: a number for the answer, since C reads this struct.
#[repr(C)]
#[derive(Clone, Copy)]
pub struct Entry {
    pub command: Command,
    pub answer: u8,
}

// How many records were removed and added, so far.
#[repr(C)]
#[derive(Clone, Copy, Default)]
pub struct Tally {
    pub removed: u64,
    pub added: u64,
}

impl Tally {
    // The tally once one more command is taken in. A count that would pass the largest number stays there.
    pub fn taking_in(self, removed: u32, added: u32) -> Tally
        ensures { (result.removed ≡ capped (self.removed + removed)) × (result.added ≡ capped (self.added + added)) }
    {
        Tally {
            removed: self.removed.saturating_add(removed as u64),
            added: self.added.saturating_add(added as u64),
        }
    }
}

// What taking in one command, or a whole run, hands back.
// Kept: a number for the answer, since C reads this struct.
#[repr(C)]
#[derive(Clone, Copy)]
pub struct Ran {
    pub answer: u8,
    pub tally: Tally,
}

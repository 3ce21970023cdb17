// The level of each office: how far it may pass rights on, by chains from SOA.
// A set of offices is an array of 128 marks, one for each office there can be, and a mark of no office is false.
#![tactic(auto)]

ghost use Rattle.std.specs.Prelude.{◌≡◌, false, cond, ◌≤◌, ◌<◌};
ghost use Rattle.rights.specs.Below.{table};
ghost use Rattle.rights.specs.Level.{linked_by, linked as linked_to, marked_first, marked_next, marking, reached as reached_by, other_than, independent_levels, level_by};
ghost use Rattle.levels.specs.Padded.{padded, padded_levels, padded_independent};

use registers::Register;
use rights::{Header, Office, Permission};

// Whether x is marked and its link to y carries the permission: a grantor that is not marked passes nothing on.
// Kept: beside `link_into` of `questions`, where the mark is at the other end of the link.
#[tactic(auto, unfolding(rights::specs::Level::is_in))]
fn links(register: &Register, perm: Permission, marks: &[bool; 128], x: u16, y: u16) -> bool
    requires { x < 128 }
    ensures { result ≡ linked_by register.now.header register.now.cells.now perm marks.now y x }
{
    marks[x as usize] && carrying::carries_as(register.cell(Office(x), Office(y)), perm)
}

// Whether some marked office has a link to y that carries the permission.
fn linked(register: &Register, perm: Permission, marks: &[bool; 128], y: u16) -> bool
    ensures { result ≡ linked_to register.now.header register.now.cells.now perm marks.now y }
{
    (0..register.header.n).any(|x| links(register, perm, marks, x, y))
}

// Whether y is marked after the round. What is marked already needs no search.
// Kept: an office below 128, asked here and in `links`: it is an index, and a type for it is longer than what it saves.
#[tactic(auto, unfolding(rights::specs::Level::is_in, rights::specs::Level::other_than))]
fn marked_next(register: &Register, out: u16, perm: Permission, marks: &[bool; 128], y: u16) -> bool
    requires { y < 128 }
    ensures { result ≡ marked_next register.now.header register.now.cells.now (other_than out) perm marks.now y }
{
    marks[y as usize] || y != out && linked(register, perm, marks, y)
}

// One round. It reads the marks as they were before it, so the new ones are an array of their own.
// Kept: a loop, here and where other arrays are filled: a helper with a closure has more lines of contract than this loop has of code.
#[tactic(auto, using(registers::proofs::Bounds::readable_high, crate::proofs::Padded::filling))]
fn round(register: &Register, out: u16, perm: Permission, marks: &[bool; 128]) -> [bool; 128]
    ensures { result ≡ padded false (marking register.now.header register.now.cells.now (other_than out) perm marks.now) }
{
    let mut next = [false; 128];
    for y in 0..register.header.n {
        next[y as usize] = marked_next(register, out, perm, marks, y);
    }
    next
}

// The marks before the first round: SOA alone, or nobody where SOA is left out.
// Kept: beside the sets of one office in `questions` and `local`: here it may be left out, there it is required or past the last.
#[tactic(auto, using(registers::proofs::Bounds::readable_high, registers::proofs::Bounds::readable_inside, crate::proofs::Rounds::first_marks))]
fn first(register: &Register, out: u16) -> [bool; 128]
    ensures { result ≡ padded false (table register.now.header.n (marked_first register.now.header (other_than out))) }
{
    let soa = register.header.soa.0;
    let mut marks = [false; 128];
    marks[soa as usize] = soa != out;
    marks
}

// The offices that chains reach with the permission read at each link, none of them over the office left out.
// A round that adds nothing is the last: no later one would add anything.
#[tactic(auto, using(crate::proofs::Rounds::marks_first, crate::proofs::Rounds::marks_next), unfolding(crate::proofs::Rounds::marks_after))]
fn reached(register: &Register, out: u16, perm: Permission) -> [bool; 128]
    ensures { result ≡ padded false (reached_by register.now.header register.now.cells.now (other_than out) perm register.now.header.n) }
{
    let mut marks = first(register, out);
    for _round in 0..register.header.n {
        let next = round(register, out, perm, &marks);
        if next == marks {
            return marks;
        }
        marks = next;
    }
    marks
}

// The level that holding TT, or else TF, gives.
fn level_of(whole: bool, part: bool) -> u8
    ensures { result ≡ cond whole 2 (cond part 1 0) }
{
    if whole {
        2
    } else if part {
        1
    } else {
        0
    }
}

// The levels of n offices, from the sets of those that hold TT and TF.
// Kept: two arrays, since each is found by a search of its own.
#[tactic(auto, using(crate::proofs::Padded::filling), unfolding(rights::specs::Level::is_in))]
fn levels_by(n: u16, whole: &[bool; 128], part: &[bool; 128]) -> [u8; 128]
    requires { n ≤ 128 }
    ensures { result ≡ padded 0 (table n (level_by whole.now part.now)) }
{
    let mut levels = [0; 128];
    for k in 0..n as usize {
        levels[k] = level_of(whole[k], part[k]);
    }
    levels
}

// The levels by chains that do not name one office. A number of no office leaves nobody out, so this serves both questions below.
// Kept: a number for who is left out, which may be that of no office: the definition `independent_levels` takes one.
#[tactic(auto, using(registers::proofs::Bounds::readable_high, crate::proofs::Given::levels_by_marks), unfolding(crate::proofs::Rounds::marks_after))]
fn levels_without(register: &Register, out: u16) -> [u8; 128]
    ensures { result ≡ padded 0 (independent_levels register.now.header register.now.cells.now out) }
{
    let whole = reached(register, out, Permission::TT);
    let part = reached(register, out, Permission::TF);
    levels_by(register.header.n, &whole, &part)
}

// The level of each office, and 0 after them; 0 for all where the header or the length is refused.
// Kept: a header and a buffer, here and above, since the contract is about any two.
#[tactic(auto, using(crate::proofs::Given::nobody_out), unfolding(crate::specs::Padded::padded_levels, crate::specs::Padded::padded))]
pub fn levels(cells: &[u8], header: Header) -> [u8; 128]
    ensures { result ≡ padded_levels header cells.now }
{
    match Register::of(cells, header) {
        Some(register) => levels_without(&register, header.n),
        None => [0; 128],
    }
}

// The level of each office by chains that do not name the given one, and 0 after them; 0 for all where the header or the length
// is refused.
// Kept: beside `levels`: both are public, and each is a match over `levels_without`.
#[tactic(auto, unfolding(crate::specs::Padded::padded_independent, crate::specs::Padded::padded))]
pub fn independent_levels(cells: &[u8], header: Header, office: Office) -> [u8; 128]
    ensures { result ≡ padded_independent header cells.now office.0 }
{
    match Register::of(cells, header) {
        Some(register) => levels_without(&register, office.0),
        None => [0; 128],
    }
}

// The holding question: does this office hold this permission, and by which chain.
// A set of offices is an array of 128 marks, one for each office there can be, and a mark of no office is false.
#![tactic(auto)]

ghost use Rattle.std.specs.Prelude.{◌≡◌, false, ◌+◌, ◌≤◌, ◌<◌, ◌++◌, length, drop, set as set_at, MatchOption};
ghost use Rattle.rights.specs.Below.{first_below};
ghost use Rattle.rights.specs.Permission.{decoded, passing};
ghost use Rattle.rights.specs.Refusal.{answer_of};
ghost use Rattle.rights.specs.Question.{single as set_of_one, nearer as nearer_soa, last_of, smallest, question_form_refusal, answered, link_into, fewest_into};
ghost use Rattle.levels.specs.Padded.{padded};
ghost use Rattle.questions.specs.Step.{searched, outcome_as};

use registers::Register;
use rights::{Header, Office, Permission, Refusal};

// What a question answers: 0 or the refusal, and of how many offices the chain is, 0 where it is refused.
// Kept: a number for the answer and a length beside the caller's buffer, since C reads this struct.
#[repr(C)]
#[derive(Clone, Copy)]
pub struct Held {
    pub answer: u8,
    pub offices: u8,
}

// What a link is read as for the next one to be read as this permission: TT where only TT passes it on, and otherwise TF.
#[tactic(auto, unfolding(rights::specs::Permission::passing))]
fn passing_on(perm: Permission) -> Permission
    ensures { result ≡ passing perm }
{
    match perm {
        Permission::TT | Permission::FT => Permission::TT,
        Permission::TF | Permission::FF => Permission::TF,
    }
}

// Whether y is in the set and x has a link to it that can be read as the permission.
#[tactic(auto, unfolding(rights::specs::Level::is_in))]
fn link_into(register: &Register, perm: Permission, set: &[bool; 128], x: u16, y: u16) -> bool
    requires { y < 128 }
    ensures { result ≡ link_into register.now.header register.now.cells.now perm set.now x y }
{
    set[y as usize] && carrying::carries_as(register.cell(Office(x), Office(y)), perm)
}

// The smallest office of the set to which x has such a link; n where there is none.
// Kept: n for none and no `Option`, as in the definition of the chain, so that `write` has no case that cannot happen.
// Neither this nor `nearer` below is made part of its callers: `write` calls itself for each link, and each call would have their locals.
#[inline(never)]
fn first_into(register: &Register, perm: Permission, set: &[bool; 128], x: u16) -> u16
    ensures { result ≡ first_below register.now.header.n (link_into register.now.header register.now.cells.now perm set.now x) }
{
    let n = register.header.n;
    (0..n)
        .find(|&y| link_into(register, perm, set, x, y))
        .unwrap_or(n)
}

// The offices with a link into the set: one link nearer SOA.
#[inline(never)]
#[tactic(auto, using(registers::proofs::Bounds::readable_high, levels::proofs::Padded::filling, crate::proofs::Sets::leads_first), unfolding(rights::specs::Question::nearer, crate::proofs::Sets::leads))]
fn nearer(register: &Register, perm: Permission, set: &[bool; 128]) -> [bool; 128]
    ensures { result ≡ padded false (nearer_soa register.now.header register.now.cells.now perm set.now) }
{
    let n = register.header.n;
    let mut near = [false; 128];
    for x in 0..n {
        near[x as usize] = first_into(register, perm, set, x) < n;
    }
    near
}

// The set of one office.
#[tactic(auto, using(registers::proofs::Bounds::readable_high, crate::proofs::One::single_marks))]
fn single(register: &Register, office: Office) -> [bool; 128]
    requires { office.0 < register.now.header.n }
    ensures { result ≡ padded false (set_of_one register.now.header office.0) }
{
    let mut set = [false; 128];
    set[office.0 as usize] = true;
    set
}

// The fewest links of a chain from SOA into the set, the last read as the permission, where there is one: a chain names no office
// twice, so it has fewer links than there are offices.
#[tactic(auto, using(registers::proofs::Bounds::readable_high, registers::proofs::Bounds::readable_inside))]
fn fewest(register: &Register, perm: Permission, set: &[bool; 128]) -> Option<u16>
    ensures { MatchOption result (register.now.header.n ≤ fewest_into register.now.header register.now.cells.now perm set.now) (λ links. (links < register.now.header.n) × (links ≡ fewest_into register.now.header register.now.cells.now perm set.now)) }
{
    let mut near = *set;
    let mut reading = perm;
    for links in 0..register.header.n {
        if near[register.header.soa.0 as usize] {
            return Some(links);
        }
        near = nearer(register, reading, &near);
        reading = passing_on(perm);
    }
    None
}

// Puts one office of the chain into the buffer, one byte.
fn put(chain: &mut [u8], at: u16, office: u16)
    requires { (at < length chain.old) × (office < 256) }
    ensures { chain.new ≡ set_at chain.old at office }
{
    chain[at as usize] = office as u8;
}

// Writes the smallest chain of so many links from SOA into the set, and returns its last office. The chain to the set one link
// nearer SOA, a call of its own, comes first, and its last office decides which office of this set is taken.
// Kept: a recursion, since the forms of document 01 have one here.
#[tactic(auto, using(registers::proofs::Bounds::readable_high, registers::proofs::Bounds::readable_inside))]
fn write(
    register: &Register,
    perm: Permission,
    links: u16,
    set: &[bool; 128],
    chain: &mut [u8],
) -> u16
    requires { (links < register.now.header.n) × (register.now.header.n ≤ length chain.old) }
    ensures last { result ≡ last_of (smallest register.now.header register.now.cells.now perm links set.now) }
    ensures whole { chain.new ≡ smallest register.now.header register.now.cells.now perm links set.now ++ drop (links + 1) chain.old }
{
    if links == 0 {
        let soa = register.header.soa.0;
        put(chain, links, soa);
        return soa;
    }
    let near = nearer(register, perm, set);
    let before = write(register, passing_on(perm), links - 1, &near, chain);
    let office = first_into(register, perm, set, before);
    put(chain, links, office);
    office
}

// Searches for the chain and writes it, where none of the refusals but 12 applies.
#[tactic(auto, using(registers::proofs::Bounds::readable_high, registers::proofs::Bounds::readable_inside, crate::proofs::Answered::searching))]
fn search(
    register: &Register,
    office: Office,
    perm: Permission,
    chain: &mut [u8],
) -> Result<u8, Refusal>
    requires { (office.0 < register.now.header.n) × (register.now.header.n ≤ length chain.old) }
    ensures { outcome_as result chain.new ≡ searched register.now.header register.now.cells.now perm office.0 chain.old }
{
    let set = single(register, office);
    let Some(links) = fewest(register, perm, &set) else {
        return Err(Refusal::NotHeld);
    };
    write(register, perm, links, &set, chain);
    Ok(links as u8 + 1)
}

// The first of refusals 4, 6 and 11 that applies.
// Kept: a number for the permission, here and below, since a question is put with any; and checks of its own, as document 01 has them.
#[tactic(auto, unfolding(rights::specs::Question::question_form_refusal, rights::specs::Sound::first_of, rights::specs::Sound::unless))]
fn form_refusal(header: Header, office: Office, perm: u8, room: usize) -> Result<(), Refusal>
    ensures { answer_of result ≡ question_form_refusal header office.0 perm room }
{
    if !cells::is_code(perm) {
        return Err(Refusal::NoCommand);
    }
    if header.n <= office.0 {
        return Err(Refusal::NoOffice);
    }
    if room < header.n as usize {
        return Err(Refusal::ShortChain);
    }
    Ok(())
}

// The holding question: of how many offices the chain is, or the first refusal that applies.
// Kept: a header and a buffer, here and above, since the contract is about any two.
#[tactic(auto, using(theory::proofs::Refusal::passed_readable, crate::proofs::Refusals::formed, crate::proofs::Answered::answering))]
fn asked(
    cells: &[u8],
    header: Header,
    office: Office,
    perm: u8,
    chain: &mut [u8],
) -> Result<u8, Refusal>
    ensures { outcome_as result chain.new ≡ answered header cells.now office.0 perm chain.old }
{
    sound::register_refusal(cells, header)?;
    form_refusal(header, office, perm, chain.len())?;
    let register = Register { cells, header };
    search(&register, office, Permission::decoded(perm), chain)
}

// The holding question. Refused, it leaves the buffer as it was; done, the chain stands at its start, and later bytes stay.
pub fn holding(cells: &[u8], header: Header, office: Office, perm: u8, chain: &mut [u8]) -> Held
    ensures answer { result.answer ≡ (answered header cells.now office.0 perm chain.old).answer }
    ensures offices { result.offices ≡ (answered header cells.now office.0 perm chain.old).offices }
    ensures chain { chain.new ≡ (answered header cells.now office.0 perm chain.old).chain }
{
    match asked(cells, header, office, perm, chain) {
        Ok(offices) => Held { answer: 0, offices },
        Err(refusal) => Held {
            answer: refusal.number(),
            offices: 0,
        },
    }
}

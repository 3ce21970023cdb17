// Which refusal of a command applies first, and the act of a command to which none applies. Any register buffer, any header and any
// command may be given.
#![tactic(auto)]

ghost use Rattle.std.specs.Prelude.{◌≡◌, ◌&&◌, ◌<◌, ltb, IfOk};
ghost use Rattle.rights.specs.Act.{act_number};
ghost use Rattle.rights.specs.Refusal.{answer_of};
ghost use Rattle.rights.specs.Sound.{unless};
ghost use Rattle.rights.specs.Command.{well_formed, grant_refusal, deletion_refusal, form_refusal, refusal as refusal_of};

use registers::Register;
use rights::{Act, Command, Header, Office, Permission, Refusal};

// Refusal 4: the act of a command is one, and the permission is allowed for it.
// Kept: a number for the permission, since a command has any, and 0 for none.
#[tactic(auto, unfolding(rights::specs::Command::well_formed, rights::specs::Command::is_grant, rights::specs::Sound::unless))]
fn well_formed(command: Command) -> Result<Act, Refusal>
    ensures answer { answer_of result ≡ unless (well_formed command) 4 }
    ensures act { IfOk result (λ act. act_number act ≡ command.act) }
{
    let act = Act::try_from(command.act)?;
    let allowed = match act {
        Act::Grant => cells::is_code(command.perm),
        _ => command.perm == 0,
    };
    if allowed {
        Ok(act)
    } else {
        Err(Refusal::NoCommand)
    }
}

// Whether both offices are in range.
// Kept: beside that of `records`: one expression, here of a command and there of a record.
fn in_range(header: Header, by: Office, to: Office) -> bool
    ensures { result ≡ ltb by.0 header.n && ltb to.0 header.n }
{
    by.0 < header.n && to.0 < header.n
}

// Refusals 4 to 7, which read the header and the command alone.
// Kept: beside that of `questions`, since document 01 has other checks there, in another order.
#[tactic(auto, unfolding(rights::specs::Command::form_refusal, rights::specs::Sound::first_of, rights::specs::Sound::unless))]
fn form_refusal(header: Header, command: Command) -> Result<Act, Refusal>
    ensures answer { answer_of result ≡ form_refusal header command }
    ensures act { IfOk result (λ act. act_number act ≡ command.act) }
{
    let act = well_formed(command)?;
    if command.layer != header.layer {
        return Err(Refusal::OtherLayer);
    }
    if !in_range(header, command.by, command.to) {
        return Err(Refusal::NoOffice);
    }
    if registers::barred(header, command.by, command.to) {
        return Err(Refusal::Barred);
    }
    Ok(act)
}

// Refusals 8 and 9, for grants: the grantor's level tells what it may grant.
#[tactic(auto, using(registers::proofs::Bounds::readable_high, crate::proofs::Refusals::granting), unfolding(rights::specs::Command::grant_refusal, rights::specs::Sound::first_of, rights::specs::Sound::unless))]
fn grant_refusal(register: &Register, command: Command) -> Result<(), Refusal>
    requires { command.by.0 < register.now.header.n }
    ensures { answer_of result ≡ grant_refusal register.now.header register.now.cells.now command }
{
    let perm = Permission::decoded(command.perm);
    let levels = levels::levels(register.cells, register.header);
    if !carrying::suffices(levels[command.by.0 as usize], perm) {
        return Err(Refusal::NotEntitled);
    }
    if cells::stands(register.cell(command.by, command.to), perm) {
        return Err(Refusal::Standing);
    }
    Ok(())
}

// Refusal 10, for deletions.
#[tactic(auto, unfolding(rights::specs::Command::deletion_refusal, rights::specs::Sound::unless))]
fn deletion_refusal(register: &Register, command: Command) -> Result<(), Refusal>
    ensures { answer_of result ≡ deletion_refusal register.now.header register.now.cells.now command }
{
    if register.cell(command.by, command.to) == 0 {
        return Err(Refusal::EmptyCell);
    }
    Ok(())
}

// The first refusal that applies, and the act that is to be carried out where none does.
// Kept: a header and a buffer, here and above, since the contract is about any two.
#[tactic(auto, using(theory::proofs::Refusal::passed_readable, theory::proofs::Refusal::refused_first, theory::proofs::Refusal::passed_first, crate::proofs::Refusals::form_by, crate::proofs::Refusals::grant_decides), unfolding(rights::specs::Command::refusal))]
pub fn refusal(cells: &[u8], header: Header, command: Command) -> Result<Act, Refusal>
    ensures answer { answer_of result ≡ refusal_of header cells.now command }
    ensures act { IfOk result (λ act. act_number act ≡ command.act) }
{
    sound::register_refusal(cells, header)?;
    let act = form_refusal(header, command)?;
    let register = Register { cells, header };
    match act {
        Act::Grant => grant_refusal(&register, command)?,
        _ => deletion_refusal(&register, command)?,
    }
    Ok(act)
}

// One command to a register: refused by the first refusal that applies, or carried out and tallied. Any register buffer, any header
// and any command may be given.
#![tactic(auto)]

ghost use Rattle.std.specs.Prelude.{◌≡◌};
ghost use Rattle.rights.specs.Act.{act_number};
ghost use Rattle.rights.specs.Command.{refusal as refusal_of, carried_out, outcome};
ghost use Rattle.rows.specs.Whole.{if_whole};
ghost use Rattle.tally.specs.Missing.{missing_if_whole};
ghost use Rattle.commands.specs.Post.{Answers};

use buffers::Kept;
use rights::{Act, Command, Header};

// What a command answers: 0 or its refusal, and the records that it removed and added.
// Kept: a number for the answer, since C reads this struct.
#[repr(C)]
#[derive(Clone, Copy, Default)]
pub struct Outcome {
    pub answer: u8,
    pub removed: u32,
    pub added: u32,
}

// The act of the command is done.
// Kept: a match, since there are five acts and no others; and a header and a buffer, here and below, since the buffer is written.
#[tactic(auto, unfolding(rights::specs::Command::carried_out, rights::specs::Command::is_grant))]
fn carry_out(cells: &mut [u8], header: Header, act: Act, command: Command)
    requires { act_number act ≡ command.act }
    ensures { cells.new ≡ if_whole header cells.old (carried_out header cells.old command) }
{
    let by = command.by;
    let to = command.to;
    match act {
        Act::Grant => cuts::add_record(cells, header, by, to, command.perm),
        Act::WLD => local::wld(cells, header, by, to),
        Act::WGD => sweeping::wgd(cells, header, by, to),
        Act::SLD => local::sld(cells, header, by, to),
        Act::SGD => strong::sgd(cells, header, by, to),
    }
}

// The tally of what was done, from the register before and after.
fn tallied(before: &[u8], after: &[u8], header: Header) -> Outcome
    ensures { (result.answer ≡ 0) × (result.removed ≡ missing_if_whole header before.now after.now) × (result.added ≡ missing_if_whole header after.now before.now) }
{
    Outcome {
        answer: 0,
        removed: tally::missing(before, after, header),
        added: tally::missing(after, before, header),
    }
}

// A command that nothing refuses: its deed, tallied against the register as the command found it.
fn accepted(cells: &mut [u8], header: Header, act: Act, command: Command) -> Outcome
    requires passed { refusal_of header cells.old command ≡ 0 }
    requires act { act_number act ≡ command.act }
    ensures { Answers (outcome header cells.old command) result cells.new }
{
    let mut before = Kept::new();
    before.keep(cells);
    carry_out(cells, header, act, command);
    tallied(before.cells(), cells, header)
}

// One command: the answer, the tally, and the register as the command leaves it.
// Kept: a header and a buffer, here and above, since the contract is about any two.
#[tactic(auto, using(crate::proofs::Done::outcome_refused), unfolding(rights::specs::Command::refused))]
pub fn command(cells: &mut [u8], header: Header, command: Command) -> Outcome
    ensures { Answers (outcome header cells.old command) result cells.new }
{
    match refusals::refusal(cells, header, command) {
        Ok(act) => accepted(cells, header, act, command),
        Err(refusal) => Outcome {
            answer: refusal.number(),
            ..Outcome::default()
        },
    }
}

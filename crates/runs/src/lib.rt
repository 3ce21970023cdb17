// A run of commands: a lent list of entries, each with a place for its answer.
#![tactic(auto)]

ghost use Rattle.std.specs.Prelude.{◌≡◌};
ghost use Rattle.rights.specs.Run.{run_outcome};
ghost use Rattle.runs.specs.Post.{TakenIn, RanAs};

use rights::{Command, Entry, Header, Ran, Refusal, Tally};

// One command is carried out, and its counts are taken into the tally.
fn take_in(cells: &mut [u8], header: Header, command: Command, tally: Tally) -> Ran
    ensures { TakenIn header cells.old command tally result cells.new }
{
    let done = commands::command(cells, header, command);
    Ran {
        answer: done.answer,
        tally: tally.taking_in(done.removed, done.added),
    }
}

// The run itself: more than 256 are refused before anything is done, and else each command is carried out in turn and its
// answer is set.
// Kept: a header and a buffer, here and above, since the contract is about any two.
pub fn run(cells: &mut [u8], header: Header, entries: &mut [Entry]) -> Ran
    ensures { RanAs (run_outcome header cells.old entries.old) result cells.new entries.new }
{
    let mut tally = Tally::default();
    if 256 < entries.len() {
        return Ran {
            answer: Refusal::LongRun.number(),
            tally,
        };
    }
    for e in entries.iter_mut() {
        let taken = take_in(cells, header, e.command, tally);
        e.answer = taken.answer;
        tally = taken.tally;
    }
    Ran { answer: 0, tally }
}

// The lines that the program writes besides a register: what a command answered, and the refusal of an input.
#![tactic(auto)]

ghost use Rattle.printing.specs.Told.{Told};
ghost use Rattle.answers.specs.Answers.{answer_written, refused_written};

use printing::{Line, Written};

// What a command answered, and how many records it removed and added.
// Kept: a number for the answer, here and below, since it takes every number.
#[tactic(auto, unfolding(crate::specs::Answers::answer_written, crate::specs::Answers::answer_text))]
pub fn write_answer(answer: u8, removed: u32, added: u32, room: &mut [u8]) -> Written
    ensures { Told (answer_written answer removed added room.old) result room.new }
{
    let lines = [
        Line(b"answer=", answer as u32),
        Line(b"removed=", removed),
        Line(b"added=", added),
    ];
    printing::write_lines(&lines, room)
}

// The refusal of an input, and where in it the first bad line starts.
#[tactic(auto, unfolding(crate::specs::Answers::refused_written, crate::specs::Answers::refused_text))]
pub fn write_refused(number: u8, at: u32, room: &mut [u8]) -> Written
    ensures { Told (refused_written number at room.old) result room.new }
{
    let lines = [Line(b"refused=", number as u32), Line(b"at=", at)];
    printing::write_lines(&lines, room)
}

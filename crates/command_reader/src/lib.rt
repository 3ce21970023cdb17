// The reader of a command: what was read by value, and where in the text the rest starts.
#![tactic(auto)]

ghost use Rattle.std.specs.Prelude.{◌≡◌};
ghost use Rattle.command_reader.specs.CommandTold.{command_in, command_told};

use lines::LineKind;
use rights::{Command, Layer, Office, Refusal};

// What the command reader gives: 0 or 13, where the bad line starts, the command, and where the rest starts.
// Kept: a number for the answer and a command beside it, since C reads this struct.
#[repr(C)]
#[derive(Clone, Copy)]
pub struct CommandRead {
    pub answer: u8,
    pub at: usize,
    pub command: Command,
    pub next: usize,
}

// The five lines of a command, and where the rest starts; or where the bad line starts.
fn five_lines(text: &[u8]) -> Result<(Command, usize), usize>
    ensures { result ≡ command_in text.now }
{
    let Some((act, layer_at)) = lines::line(text, 0, LineKind::Act) else {
        return Err(0);
    };
    let Some((layer, by_at)) = lines::line(text, layer_at, LineKind::Layer) else {
        return Err(layer_at);
    };
    let Some((by, to_at)) = lines::line(text, by_at, LineKind::By) else {
        return Err(by_at);
    };
    let Some((to, perm_at)) = lines::line(text, to_at, LineKind::To) else {
        return Err(to_at);
    };
    let Some((perm, next)) = lines::line(text, perm_at, LineKind::Perm) else {
        return Err(perm_at);
    };
    let command = Command {
        act: act as u8,
        layer: Layer(layer),
        by: Office(by),
        to: Office(to),
        perm: perm as u8,
    };
    Ok((command, next))
}

// The command at the start of the text. Where a line is bad, the command is one of zeros, and the rest starts at the text's end.
pub fn read_command(text: &[u8]) -> CommandRead
    ensures { result ≡ command_told text.now }
{
    match five_lines(text) {
        Ok((command, next)) => CommandRead {
            answer: 0,
            at: 0,
            command,
            next,
        },
        Err(at) => CommandRead {
            answer: Refusal::BadText.number(),
            at,
            command: Command::default(),
            next: text.len(),
        },
    }
}

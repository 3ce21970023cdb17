// Reads the text of map A of document 01 with one byte of it removed, doubled, raised by one or lowered by one, each byte in turn,
// and writes what the reader answers and the whole buffer it was lent. The whole text comes first.
#![tactic(auto)]

ghost use Rattle.std.specs.Prelude.{◌≤◌, ◌+◌, length};

use register_reader::RegisterRead;
use std::{fmt, io};

// n=5, SOA 0, layer 7; 0→1 TT, 0→3 TF, 1→2 TT, 2→4 TT, 3→2 TF: map A of document 01.
const A: [u8; 121] = *b"n=5\nsoa=0\nlayer=7\n\
by=0\nto=1\nperm=TT\n\
by=0\nto=3\nperm=TF\n\
by=1\nto=2\nperm=TT\n\
by=2\nto=4\nperm=TT\n\
by=3\nto=2\nperm=TF\n\
end=register\n";

// What becomes of one byte.
#[derive(Clone, Copy)]
enum Damage {
    Removed,
    Doubled,
    Raised,
    Lowered,
}

impl Damage {
    const ALL: [Damage; 4] = [
        Damage::Removed,
        Damage::Doubled,
        Damage::Raised,
        Damage::Lowered,
    ];

    // How long the text of map A is with one byte of it so damaged.
    fn length(self) -> usize
        ensures { result ≤ length A + 1 }
    {
        match self {
            Damage::Removed => A.len() - 1,
            Damage::Doubled => A.len() + 1,
            Damage::Raised | Damage::Lowered => A.len(),
        }
    }

    // The byte at `at` of that text, where the byte at `place` is damaged. Past the end it is 0.
    fn byte(self, place: usize, at: usize) -> u8
        requires { at ≤ length A }
    {
        let from = match self {
            Damage::Removed if place <= at => at + 1,
            Damage::Doubled if place < at => at - 1,
            _ => at,
        };
        let byte = A.get(from).copied().unwrap_or(0);
        match self {
            Damage::Raised if at == place => byte.wrapping_add(1),
            Damage::Lowered if at == place => byte.wrapping_sub(1),
            _ => byte,
        }
    }
}

impl fmt::Display for Damage {
    fn fmt<W: fmt::Write>(&self, f: &mut fmt::Formatter<W>) -> fmt::Result {
        f.write_str(match self {
            Damage::Removed => "removed",
            Damage::Doubled => "doubled",
            Damage::Raised => "raised",
            Damage::Lowered => "lowered",
        })
    }
}

// The buffer is lent without zeros in it, so that a refusal is seen to leave it zero.
fn show(rt: &impl Print, text: &[u8]) -> io::Result<()> {
    let mut cells = [9u8; 25];
    let RegisterRead {
        answer,
        at,
        header,
        next,
    } = register_reader::read_register(text, &mut cells);
    print!(rt; ": answer={answer} at={at} rest={next}")?;
    print!(rt;
        " n={} soa={} layer={}",
        header.n, header.soa.0, header.layer.0
    )?;
    print!(rt; " cells={}", cells[0])?;
    for cell in &cells[1..] {
        print!(rt; ",{cell}")?;
    }
    println!(rt)
}

// The longest of the damaged texts decides the room, and the others leave the end of it alone.
// Kept: an array of which a part is used, since there is no heap.
fn show_damaged(rt: &impl Print, damage: Damage, place: usize) -> io::Result<()> {
    let mut room = [0u8; A.len() + 1];
    let text = &mut room[..damage.length()];
    for (at, byte) in text.iter_mut().enumerate() {
        *byte = damage.byte(place, at);
    }
    print!(rt; "{damage} {place}")?;
    show(rt, text)
}

fn main(rt: HostRuntime) -> io::Result<()> {
    print!(rt; "whole")?;
    show(&rt, &A)?;
    for damage in Damage::ALL {
        for place in 0..A.len() {
            show_damaged(&rt, damage, place)?;
        }
    }
    Ok(())
}

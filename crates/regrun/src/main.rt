// The program `regrun`: it reads the whole input and writes the whole output. What the output is, `outputs` says and proves.
#![tactic(auto)]

ghost use Rattle.std.specs.Prelude.{◌≡◌, ◌≤◌, length, take};
ghost use Rattle.std.specs.Io.KnownBytes.{Consumes};

use std::io;
use std::io::{Read, Write};

// Room for the longest output.
// Kept: a function of its own, since in `main` the check would count 1,700,000 zeros one by one and runs out of stack.
fn room() -> [u8; 1700000]
    ensures { 1700000 ≡ length result }
{
    [0; 1700000]
}

// Fills the buffer from its start, until the input ends, and returns how much of it is filled: that is what the input gave, and
// no byte of it is lost. A read that fails ends the input.
// Kept: a loop, since `read_to_end` fills a Vec, which is heap, and `read_exact` does not tell how much it filled.
fn read_full<R: Read>(input: &mut R, buffer: &mut [u8]) -> usize
    ensures within { result ≤ length buffer.new }
    ensures bytes { Consumes (R.remaining input.old) (R.remaining input.new) (take result buffer.new) }
{
    let mut filled = 0;
    while filled < buffer.len() {
        match input.read(&mut buffer[filled..]) {
            Ok(0) | Err(_) => break,
            Ok(count) => filled += count,
        }
    }
    filled
}

// One byte more is read than an input may have, so that one that is too long is seen to be.
// Kept: arrays with lengths beside them, since there is no heap.
fn main(rt: HostRuntime) -> io::Result<()> {
    let mut input = [0u8; 65537];
    let mut room = room();
    let length = read_full(&mut rt.stdin(), &mut input);
    let written = outputs::write_output(&input[..length], &mut room);
    rt.stdout().write_all(&room[..written.size])
}

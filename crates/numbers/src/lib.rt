// A number in the text: read digit by digit up to LF, and how many digits it is written with.
#![tactic(auto)]

ghost use Rattle.std.specs.Prelude.{◌≡◌, true, ◌-◌, ◌≤◌, length, drop};
ghost use Rattle.std.specs.Bool.{then_some};
ghost use Rattle.wording.specs.Line.{goes_on, extended, number as number_in, numeral};
ghost use Rattle.numbers.specs.Line.{line_read};

// The number with one more digit, where it may go on with this byte: no digit follows a leading 0, and none leads above 65535.
fn extended(v: u16, b: u8) -> Option<u16>
    ensures { result ≡ then_some (goes_on v b) (extended v b) }
{
    if v == 0 || !b.is_ascii_digit() {
        return None;
    }
    v.checked_mul(10)?.checked_add((b - b'0') as u16)
}

// A number and LF, at the byte `at`: its value and where the next line starts.
// Kept: a text and a place in it, in all readers of lines: what is told of a bad line is where it starts.
pub fn number(text: &[u8], at: usize) -> Option<(u16, usize)>
    ensures { result ≡ line_read text.now (number_in (drop at text.now)) }
{
    let first = *text.get(at)?;
    if !first.is_ascii_digit() {
        return None;
    }
    let mut v = (first - b'0') as u16;
    for i in at + 1..text.len() {
        let b = text[i];
        if b == b'\n' {
            return Some((v, i + 1));
        }
        v = extended(v, b)?;
    }
    None
}

// How many digits a number has in decimal; 0 has one.
pub fn digits(v: u32) -> usize
    ensures value { result ≡ length (numeral v) }
    ensures few { result ≤ 10 }
{
    v.max(1).ilog10() as usize + 1
}

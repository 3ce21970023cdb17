// Numbers and lines written into a room that is lent. What is written by a public function is measured first, so that a room that
// is too small is left as it was; the methods of a page ask for the room.
#![tactic(auto)]

ghost use Rattle.std.specs.Prelude.{◌≡◌, [], ◌∷◌, ◌++◌, ◌+◌, ◌<◌, length, MatchOption};
ghost use Rattle.std.specs.List.{flat_map};
ghost use Rattle.wording.specs.Line.{numeral};
ghost use Rattle.wording.specs.Writer.{written_behind};
ghost use Rattle.printing.specs.Told.{Told, IsWritten, written_of};
ghost use Rattle.printing.specs.Page.{Fits, Adds};
ghost use Rattle.printing.specs.NumberLine.{number_line, line_bytes};

use rights::Refusal;

// What a writer answers: 0 or the refusal, and the length of what it wrote.
// Kept: a number for the answer and a length beside the caller's buffer, since C reads this struct.
#[repr(C)]
#[derive(Clone, Copy)]
pub struct Written {
    pub answer: u8,
    pub size: usize,
}

impl From<Result<usize, Refusal>> for Written {
    ghost from_gives = { IsWritten };

    fn from(outcome: Result<usize, Refusal>) -> Written {
        match outcome {
            Ok(size) => Written { answer: 0, size },
            Err(refusal) => Written {
                answer: refusal.number(),
                size: 0,
            },
        }
    }
}

// A line: its key, its number in decimal, LF.
#[derive(Clone, Copy)]
pub struct Line<'a>(pub &'a [u8], pub u32);

impl Line<'_> {
    // How long the line is.
    fn size(&self) -> usize
        ensures { result ≡ length (line_bytes self.now) }
    {
        self.0.len() + numbers::digits(self.1) + 1
    }
}

// A room that is written from its start on, and the place behind what stands in it.
#[derive(Drop)]
pub struct Page<'a> {
    pub room: &'a mut [u8],
    pub at: usize,
}

impl Page<'_> {
    // Writes a byte.
    fn put_byte(&mut self, b: u8)
        requires { Fits (b ∷ []) self.old }
        ensures { Adds (b ∷ []) self.old self.new }
    {
        self.room[self.at] = b;
        self.at += 1;
    }

    // Writes bytes behind what stands on the page.
    fn put_bytes(&mut self, text: &[u8])
        requires { Fits text.now self.old }
        ensures { Adds text.now self.old self.new }
    {
        let end = self.at + text.len();
        self.room[self.at..end].copy_from_slice(text);
        self.at = end;
    }

    // Writes a number in decimal: its last digit stands behind the others.
    // Kept: a recursion, since a loop gives the digits last first, and `numeral` of the definitions is by the same steps.
    fn put_number(&mut self, v: u32)
        requires { Fits (numeral v) self.old }
        ensures { Adds (numeral v) self.old self.new }
    {
        if 10 <= v {
            self.put_number(v / 10);
        }
        self.put_byte(b'0' + (v % 10) as u8);
    }

    // Writes a line behind what stands on the page.
    fn put_line(&mut self, line: &Line)
        requires { Fits (line_bytes line.now) self.old }
        ensures { Adds (line_bytes line.now) self.old self.new }
    {
        self.put_bytes(line.0);
        self.put_number(line.1);
        self.put_byte(b'\n');
    }
}

// Writes bytes, if there is room for them.
pub fn write_bytes(text: &[u8], room: &mut [u8]) -> Written
    ensures { Told (written_behind 0 room.old text.now) result room.new }
{
    if room.len() < text.len() {
        return Written::from(Err(Refusal::LittleRoom));
    }
    let mut page = Page { room, at: 0 };
    page.put_bytes(text);
    Written::from(Ok(page.at))
}

// How much of a room lines leave; nothing where they are longer. Each is held against what the one before it leaves, since the sum
// of their lengths may not fit.
fn left_behind(lines: &[Line], room: usize) -> Option<usize>
    ensures { MatchOption result (room < length (flat_map line_bytes lines.now)) (λ left. left + length (flat_map line_bytes lines.now) ≡ room) }
{
    let mut left = room;
    for line in lines {
        left = left.checked_sub(line.size())?;
    }
    Some(left)
}

// Writes lines at the start of a room, if there is room for them.
fn try_lines(lines: &[Line], room: &mut [u8]) -> Result<usize, Refusal>
    ensures { Told (written_behind 0 room.old (flat_map line_bytes lines.now)) (written_of result) room.new }
{
    left_behind(lines, room.len()).ok_or(Refusal::LittleRoom)?;
    let mut page = Page { room, at: 0 };
    for line in lines {
        page.put_line(line);
    }
    Ok(page.at)
}

// Writes lines, if there is room for them.
pub fn write_lines(lines: &[Line], room: &mut [u8]) -> Written
    ensures { Told (written_behind 0 room.old (flat_map line_bytes lines.now)) result room.new }
{
    Written::from(try_lines(lines, room))
}

// Writes two lines, if there is room for them.
// Kept: two lines and three, here and below, since documents promise both.
pub fn write_two(a: &[u8], x: u32, b: &[u8], y: u32, room: &mut [u8]) -> Written
    ensures { Told (written_behind 0 room.old (number_line a.now x ++ number_line b.now y)) result room.new }
{
    write_lines(&[Line(a, x), Line(b, y)], room)
}

// Writes three lines, if there is room for them.
pub fn write_three(a: &[u8], x: u32, b: &[u8], y: u32, c: &[u8], z: u32, room: &mut [u8]) -> Written
    ensures { Told (written_behind 0 room.old (number_line a.now x ++ (number_line b.now y ++ number_line c.now z))) result room.new }
{
    write_lines(&[Line(a, x), Line(b, y), Line(c, z)], room)
}

// One line of the text: its value and where in the text the next line starts, or nothing where it is bad.
// A line reader says no more of a bad line, since its caller knows where the line starts.
#![tactic(auto)]

ghost use Rattle.std.specs.Prelude.{◌≡◌, ◌<◌, All, length, drop};
ghost use Rattle.wording.specs.Word.{key as key_of, acts, perms, form};
ghost use Rattle.wording.specs.Line.{after_word, chosen, value_of};
ghost use Rattle.numbers.specs.Line.{line_read};
ghost use Rattle.lines.specs.Read.{kind_of, word_read, chosen_in, line_at, end_at};

// The kinds of line that have a value.
#[derive(Clone, Copy)]
pub enum LineKind {
    N,
    Soa,
    Layer,
    Act,
    By,
    To,
    Perm,
}

// Where the text goes on behind the word, if that stands at the byte `at`.
// Part of its callers, here and below, so that each line compares with the bytes of its own words, which are known then.
#[inline(always)]
fn word(text: &[u8], at: usize, bytes: &[u8]) -> Option<usize>
    requires { 0 < length bytes.now }
    ensures { result ≡ word_read text.now (after_word bytes.now (drop at text.now)) }
{
    let rest = text.get(at..)?.strip_prefix(bytes)?;
    Some(text.len() - rest.len())
}

// The number of the first of the words, each with its LF, that stands there, and where the next line starts.
// Kept: numbers as values, since a line of any kind has one.
#[inline(always)]
fn choice(text: &[u8], at: usize, words: &[(&[u8], u16)]) -> Option<(u16, usize)>
    requires { All (λ w. 0 < length w.0.now) words.now }
    ensures { result ≡ line_read text.now (chosen_in words.now (drop at text.now)) }
{
    for (bytes, v) in words {
        if let Some(next) = word(text, at, bytes) {
            return Some((*v, next));
        }
    }
    None
}

// One of the words for an act, and LF.
#[inline(always)]
#[tactic(auto, unfolding(wording::specs::Word::acts, wording::specs::Line::chosen, crate::specs::Read::chosen_in))]
fn act(text: &[u8], at: usize) -> Option<(u16, usize)>
    ensures { result ≡ line_read text.now (chosen acts (drop at text.now)) }
{
    choice(
        text,
        at,
        &[
            (b"grant\n", 0),
            (b"wld\n", 1),
            (b"wgd\n", 2),
            (b"sld\n", 3),
            (b"sgd\n", 4),
        ],
    )
}

// One of the words for a permission, or `none`, and LF.
#[inline(always)]
#[tactic(auto, unfolding(wording::specs::Word::perms, wording::specs::Line::chosen, crate::specs::Read::chosen_in))]
fn perm(text: &[u8], at: usize) -> Option<(u16, usize)>
    ensures { result ≡ line_read text.now (chosen perms (drop at text.now)) }
{
    choice(
        text,
        at,
        &[
            (b"TT\n", 8),
            (b"TF\n", 4),
            (b"FT\n", 2),
            (b"FF\n", 1),
            (b"none\n", 0),
        ],
    )
}

// The key of the kind.
// Kept: a match, here and in `value`, since there are seven kinds and no others.
#[inline(always)]
#[tactic(auto, unfolding(crate::specs::Read::kind_of, wording::specs::Word::key))]
fn key(kind: LineKind) -> &'static [u8]
    ensures { result.now ≡ key_of (kind_of kind) }
{
    match kind {
        LineKind::N => b"n=",
        LineKind::Soa => b"soa=",
        LineKind::Layer => b"layer=",
        LineKind::Act => b"act=",
        LineKind::By => b"by=",
        LineKind::To => b"to=",
        LineKind::Perm => b"perm=",
    }
}

// What stands behind the key: a number or one of the words, and LF.
#[inline(always)]
#[tactic(auto, unfolding(wording::specs::Word::form, wording::specs::Line::value_of, crate::specs::Read::kind_of))]
fn value(text: &[u8], at: usize, kind: LineKind) -> Option<(u16, usize)>
    ensures { result ≡ line_read text.now (value_of (form (kind_of kind)) (drop at text.now)) }
{
    match kind {
        LineKind::Act => act(text, at),
        LineKind::Perm => perm(text, at),
        _ => numbers::number(text, at),
    }
}

// What stands at the byte `at` as a line of the kind: its value, and where the next line starts.
#[inline(always)]
pub fn line(text: &[u8], at: usize, kind: LineKind) -> Option<(u16, usize)>
    ensures { result ≡ line_at text.now at (kind_of kind) }
{
    let start = word(text, at, key(kind))?;
    value(text, start, kind)
}

// Where the text goes on behind the end line, if that stands at the byte `at`.
#[tactic(auto, unfolding(wording::specs::Word::end_text, crate::specs::Read::end_at))]
pub fn end_line(text: &[u8], at: usize) -> Option<usize>
    ensures { result ≡ end_at text.now at }
{
    word(text, at, b"end=register\n")
}

// The tally of a command: the records that one register has and another lacks. Any header and any buffers are taken: where they
// make no two registers, nothing is missing.
#![tactic(auto)]

ghost use Rattle.std.specs.Prelude.{◌≡◌, ◌≤◌, length, sum_by};
ghost use Rattle.std.specs.List.{zip};
ghost use Rattle.rights.specs.Cell.{size, without};
ghost use Rattle.tally.specs.Missing.{missing_if_whole};

use rights::Header;

// The records of the first buffer that the second lacks, byte by byte: no byte has to know its grantor.
fn count_missing(before: &[u8], after: &[u8]) -> u32
    requires { length before.now ≤ 16384 }
    ensures { result ≡ sum_by (λ both. size (without both.0 both.1)) (zip before.now after.now) }
{
    before
        .iter()
        .zip(after)
        .map(|(b, a)| u32::from(cells::size(cells::without(*b, *a))))
        .sum()
}

// How many records stood before and do not stand after.
// Kept: a header and two buffers, since the contract is about any three.
#[tactic(auto, using(theory::proofs::Ready::few_cells, crate::proofs::Sum::missing_pairs), unfolding(crate::specs::Missing::missing_if_whole))]
pub fn missing(before: &[u8], after: &[u8], header: Header) -> u32
    ensures { result ≡ missing_if_whole header before.now after.now }
{
    if registers::readable(before, header) && registers::readable(after, header) {
        count_missing(before, after)
    } else {
        0
    }
}

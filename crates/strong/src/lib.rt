// Strong global deletion: a column is restricted, and then, round by round, the column of whoever has lost by it.
#![tactic(auto)]

ghost use Rattle.std.specs.Prelude.{◌≡◌, true};
ghost use Rattle.rights.specs.Deletion.{same as same_cells, strong_round, until_rest, sgd as strong_global};
ghost use Rattle.rights.specs.Sound.{readable};
ghost use Rattle.rows.specs.Whole.{if_whole};

use buffers::Kept;
use rights::{Header, Office};

// One round: the columns of those who have lost, and a sweep. It tells whether it altered nothing.
// Kept: a header and a buffer, here and below, since the buffer is written.
#[tactic(auto, using(buffers::proofs::Copy::kept_whole, crate::proofs::Alike::bytes_alike, crate::proofs::Made::round_made))]
fn strong_round(cells: &mut [u8], header: Header, own: [u8; 128], before: &[u8]) -> bool
    requires { (readable header cells.old ≡ true) × (readable header before.now ≡ true) }
    ensures after { cells.new ≡ strong_round header before.now own cells.old }
    ensures rests { result ≡ same_cells header cells.new cells.old }
{
    let mut kept = Kept::new();
    kept.keep(cells);
    let lost = holdings::losers(before, cells, header);
    columns::restrict_columns(cells, header, lost, own);
    sweeping::sweep(cells, header);
    *cells == *kept.cells()
}

// Rounds until one alters nothing, n of them at most.
// Kept: the register before as bytes that can be read, here and above, since `losers` takes bytes.
#[tactic(auto, using(crate::proofs::Rest::none_left, crate::proofs::Rest::last_round, crate::proofs::Rest::next_round, crate::proofs::Rest::round_readable))]
fn rounds(cells: &mut [u8], header: Header, own: [u8; 128], before: &[u8])
    requires { (readable header cells.old ≡ true) × (readable header before.now ≡ true) }
    ensures { cells.new ≡ until_rest header before.now own header.n cells.old }
{
    for _round in 0..header.n {
        if strong_round(cells, header, own, before) {
            return;
        }
    }
}

// Strong global deletion: each cell of column j that i's chains alone bore goes, and so does whatever hung on it, and in the rounds
// the cells of whoever has lost by that.
#[tactic(auto, using(buffers::proofs::Copy::kept_whole, crate::proofs::Made::start_readable, crate::proofs::Made::sgd_made), unfolding(rows::specs::Whole::if_whole))]
pub fn sgd(cells: &mut [u8], header: Header, by: Office, to: Office)
    ensures { cells.new ≡ if_whole header cells.old (strong_global header cells.old by.0 to.0) }
{
    if registers::readable(cells, header) {
        let mut before = Kept::new();
        before.keep(cells);
        let own = levels::independent_levels(cells, header, by);
        local::column_step(cells, header, by, to);
        sweeping::sweep(cells, header);
        rounds(cells, header, own, before.cells());
    }
}

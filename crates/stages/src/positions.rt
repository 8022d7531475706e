// 02, card 5: "each post's position in metres as four bytes after the siding byte".
#![tactic(auto, unfolding(common::specs::Check::refusal, common::specs::Check::unless_refused))]

ghost use Rattle.std.specs.Prelude.{◌≡◌, ◌≤◌, length};
ghost use Rattle.common.specs.Tabulate.{padded};
ghost use Rattle.line.specs.Positions.{positions_in_order};
ghost use Rattle.line.specs.Book.{position_at, position_in};
ghost use Rattle.stages.specs.Stages.{positions_stage};

use crate::reading::COUNTS_AT;
use crate::stage::Stage;
use line::Refusal;
use line::word::long_word;

// The position of the first post, and how far from it a post can be.
const FIRST_METRES: u32 = 0;

const MOST_METRES: u32 = 8_388_607;

// The positions of the first `given` of so many posts; 0 at the other places. Neither this nor the check
// is built into the reader of a book, which then has the positions on its stack once.
#[inline(never)]
pub fn read_positions(book: &[u8], posts: u8, given: u8) -> [u32; 8]
    requires { (given ≤ 8) × (position_at posts given ≤ length book.now) }
    ensures { result ≡ padded 8 given (position_in book.now posts) 0 }
{
    let mut positions = [0; 8];
    for p in 0..given as usize {
        let at = COUNTS_AT + posts as usize + 1 + 4 * p;
        positions[p] = long_word(book[at], book[at + 1], book[at + 2], book[at + 3]);
    }
    positions
}

// Checks 27, for the first `given` posts.
#[inline(never)]
pub fn check_positions(positions: &[u32; 8], given: u8) -> Stage
    requires { given ≤ 8 }
    ensures { result ≡ positions_stage given positions.now }
{
    if !in_order(positions, given) {
        return Stage::Stopped(Refusal::Positions as u8);
    }
    Stage::Passed(given)
}

#[tactic(auto, unfolding(line::specs::Positions::positions_in_order))]
fn in_order(positions: &[u32; 8], given: u8) -> bool
    requires { given ≤ 8 }
    ensures { result ≡ positions_in_order given positions.now }
{
    positions[0] == FIRST_METRES
        && (1..given as usize).all(|p| positions[p - 1] < positions[p]
            && positions[p] <= MOST_METRES)
}

// The stages of the reading that look at the book's own bytes: its form as far as the number of posts,
// the siding byte, and the number of trains.
#![tactic(auto, unfolding(common::specs::Check::refusal, common::specs::Check::unless_refused))]

ghost use Rattle.std.specs.Prelude.{◌≡◌, ◌≤◌, ◌<◌, length};
ghost use Rattle.line.specs.Book.{positioned, added, sidings_at, trains_at, posts_of, sidings_of, trains_in};
ghost use Rattle.stages.specs.Stages.{posts_stage, sidings_stage, trains_stage};

use crate::stage::Stage;
use line::word::word;
use line::{Refusal, names_posts};

// The versions of a book. The first has no sidings, and only the last has positions.
pub const FIRST_EDITION: u8 = 1;

pub const LAST_EDITION: u8 = 3;

// Where the version and the track counts stand.
pub const VERSION_AT: usize = 2;

pub const COUNTS_AT: usize = 4;

// Checks 14, 4, 15 and 14, and reads the number of posts, in the editions from `least` on.
pub fn read_posts(book: &[u8], least: u8) -> Stage
    ensures { result ≡ posts_stage least book.now }
{
    let [high, low, edition, posts, ..] = *book else {
        return Stage::Stopped(Refusal::TornBook as u8);
    };
    if word(high, low) as usize + 2 != book.len() {
        return Stage::Stopped(Refusal::TornBook as u8);
    }
    if !(least..=LAST_EDITION).contains(&edition) {
        return Stage::Stopped(Refusal::OtherEdition as u8);
    }
    if !(2..=8).contains(&posts) {
        return Stage::Stopped(Refusal::Posts as u8);
    }
    if book.len() <= trains_at(posts, edition) {
        return Stage::Stopped(Refusal::TornBook as u8);
    }
    Stage::Passed(posts)
}

// Where the number of trains stands.
#[tactic(auto, using(line::proofs::Bytes::added_few))]
pub fn trains_at(posts: u8, edition: u8) -> usize
    ensures { result ≡ trains_at posts (added edition posts) }
{
    COUNTS_AT + posts as usize + added_by(edition, posts)
}

// How many bytes an edition adds after the track counts of so many posts: the siding byte, and four
// for each position.
#[tactic(auto, unfolding(line::specs::Book::added))]
fn added_by(edition: u8, posts: u8) -> usize
    ensures { result ≡ added edition posts }
{
    if edition == FIRST_EDITION {
        0
    } else {
        1 + 4 * positioned(edition, posts) as usize
    }
}

// How many of so many posts an edition gives a position.
#[tactic(auto, unfolding(line::specs::Book::positioned))]
pub fn positioned(edition: u8, posts: u8) -> u8
    ensures { result ≡ positioned edition posts }
{
    if edition == LAST_EDITION { posts } else { 0 }
}

// Checks 23, and reads the siding byte.
pub fn read_sidings(book: &[u8], posts: u8) -> Stage
    requires { (posts ≡ posts_of book.now) × (posts ≤ 8) × (sidings_at posts < length book.now) }
    ensures { result ≡ sidings_stage book.now }
{
    let sidings = siding_byte(book, posts);
    if !names_posts(posts, sidings) {
        return Stage::Stopped(Refusal::Sidings as u8);
    }
    Stage::Passed(sidings)
}

// The siding byte; 0 of the first edition, which has none.
fn siding_byte(book: &[u8], posts: u8) -> u8
    requires { (posts ≡ posts_of book.now) × (sidings_at posts < length book.now) }
    ensures { result ≡ sidings_of book.now }
{
    if book[VERSION_AT] == FIRST_EDITION {
        0
    } else {
        book[COUNTS_AT + posts as usize]
    }
}

// Checks 17 and 14, and reads the number of trains, which stands at `at`.
pub fn read_trains(book: &[u8], at: usize) -> Stage
    requires { (at ≡ trains_in book.now) × (at < length book.now) }
    ensures { result ≡ trains_stage book.now }
{
    let trains = book[at];
    if !(1..=6).contains(&trains) {
        return Stage::Stopped(Refusal::Trains as u8);
    }
    if book.len() != at + 1 + 2 * trains as usize {
        return Stage::Stopped(Refusal::TornBook as u8);
    }
    Stage::Passed(trains)
}

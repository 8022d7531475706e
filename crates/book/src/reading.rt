// Reading a line book. 01: "Book: a two-byte big-endian length (the bytes after it), version byte 1,
// P, P track counts, T, then start and end of each train, one byte each." 02, card 1: "Book edition 2
// has one more byte after the track counts: the bit of value 2^i says that post i has a siding.
// Edition 1 books have no sidings." Card 5: "Book edition 3 adds each post's position in metres as
// four bytes after the siding byte".
ghost use Rattle.std.specs.Prelude.{◌≡◌, ◌≤◌, length};
ghost use Rattle.common.specs.Tabulate.{padded};
ghost use Rattle.line.specs.Line.{no_route};
ghost use Rattle.line.specs.Book.{count_at, sidings_at, total, byte_at, route_in, refused_by, read_from};
ghost use Rattle.line.specs.Book.{read_book, read_positioned, outcome_number};
ghost use Rattle.stages.specs.Stages.{number_of, tracks_stage, routes_stage, PostsRead, read_trains};

use form::{routes_on_line, tracks_in_range};
use line::{Line, NO_ROUTE, PostNo, Reading, Refusal, Route};
use stages::{
    COUNTS_AT, FIRST_EDITION, LAST_EDITION, Stage, VERSION_AT, check_positions, positioned,
    read_positions, read_posts, read_sidings, read_trains, trains_at,
};

// The line of a book that is refused, and what the line of any other is read into.
const EMPTY_LINE: Line = Line {
    posts: 0,
    tracks: [0; 8],
    sidings: 0,
    trains: 0,
    routes: [NO_ROUTE; 6],
};

// The number that a book is refused by; 0 of one that is read.
pub fn number_of(outcome: Result<(), u8>) -> u8
    ensures { result ≡ outcome_number outcome }
{
    match outcome {
        Ok(()) => 0,
        Err(n) => n,
    }
}

// Reads a book of any edition.
pub fn read(book: &[u8]) -> Reading
    ensures { result ≡ read_book book.now }
{
    read_from(book, FIRST_EDITION)
}

// Reads a book that has positions: one of another edition is refused.
pub fn read_positioned(book: &[u8]) -> Reading
    ensures { result ≡ read_positioned book.now }
{
    read_from(book, LAST_EDITION)
}

// Reads a book of the editions from `least` on, its posts first. "A book that is not read in full is
// refused before any train is placed."
fn read_from(book: &[u8], least: u8) -> Reading
    ensures { result ≡ read_from least book.now }
{
    let header = read_posts(book, least);
    let Stage::Passed(posts) = header else {
        return refused(header);
    };
    let tracks = read_tracks(book, posts);
    let mut line = Line {
        posts,
        tracks,
        ..EMPTY_LINE
    };
    let counts = check_tracks(&line);
    let Stage::Passed(_) = counts else {
        return refused(counts);
    };
    let named = read_sidings(book, posts);
    let Stage::Passed(sidings) = named else {
        return refused(named);
    };
    let given = positioned(book[VERSION_AT], posts);
    let positions = read_positions(book, posts, given);
    let order = check_positions(&positions, given);
    let Stage::Passed(_) = order else {
        return refused(order);
    };
    line.sidings = sidings;
    with_trains(book, &line, &positions)
}

// The rest of a book, its trains, where its posts have been read into the line.
fn with_trains(book: &[u8], begun: &Line, positions: &[u32; 8]) -> Reading
    requires { PostsRead book.now begun.now positions.now }
    ensures { result ≡ read_trains book.now }
{
    let at = trains_at(begun.posts, book[VERSION_AT]);
    let number = read_trains(book, at);
    let Stage::Passed(trains) = number else {
        return refused(number);
    };
    let routes = read_routes(book, at, trains);
    let line = Line {
        trains,
        routes,
        ..*begun
    };
    let ends = check_routes(&line);
    let Stage::Passed(_) = ends else {
        return refused(ends);
    };
    Reading {
        outcome: Ok(()),
        line,
        positions: *positions,
    }
}

fn refused(stage: Stage) -> Reading
    ensures { result ≡ refused_by (number_of stage) }
{
    Reading {
        outcome: Err(stopped_at(stage)),
        line: EMPTY_LINE,
        positions: [0; 8],
    }
}

// The number of the check that a stage stopped at; 0 of one that passed.
fn stopped_at(stage: Stage) -> u8
    ensures { result ≡ number_of stage }
{
    match stage {
        Stage::Passed(_) => 0,
        Stage::Stopped(n) => n,
    }
}

// The track counts of the posts; 0 at the other places.
fn read_tracks(book: &[u8], posts: u8) -> [u8; 8]
    requires { (posts ≤ 8) × (sidings_at posts ≤ length book.now) }
    ensures { result ≡ padded 8 posts (λ p. byte_at book.now (count_at p)) 0 }
{
    let mut tracks = [0; 8];
    let end = COUNTS_AT + posts as usize;
    tracks[..posts as usize].copy_from_slice(&book[COUNTS_AT..end]);
    tracks
}

// Checks 16.
#[tactic(auto, unfolding(common::specs::Check::refusal, common::specs::Check::unless_refused))]
fn check_tracks(line: &Line) -> Stage
    requires { line.now.posts ≤ 8 }
    ensures { result ≡ tracks_stage line.now }
{
    if !tracks_in_range(line) {
        return Stage::Stopped(Refusal::Tracks as u8);
    }
    Stage::Passed(line.posts)
}

// The routes of the trains, whose number stands at `at`; 0 at the other places.
fn read_routes(book: &[u8], at: usize, trains: u8) -> [Route; 6]
    requires { (trains ≤ 6) × (total at trains ≤ length book.now) }
    ensures { result ≡ padded 6 trains (route_in book.now at) no_route }
{
    let mut routes = [NO_ROUTE; 6];
    for t in 0..trains as usize {
        let start = at + 1 + 2 * t;
        routes[t] = Route {
            start: PostNo(book[start]),
            end: PostNo(book[start + 1]),
        };
    }
    routes
}

// Checks 18.
#[tactic(auto, unfolding(common::specs::Check::refusal, common::specs::Check::unless_refused))]
fn check_routes(line: &Line) -> Stage
    requires { line.now.trains ≤ 6 }
    ensures { result ≡ routes_stage line.now }
{
    if !routes_on_line(line) {
        return Stage::Stopped(Refusal::OffTheLine as u8);
    }
    Stage::Passed(line.trains)
}

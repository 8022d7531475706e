// The opening of a book: the table is filled, and every train stands at its start, on its track.
ghost use Rattle.std.specs.Prelude.{◌≡◌, true};
ghost use Rattle.line.specs.Line.{well_formed};
ghost use Rattle.rules.specs.State.{no_train};
ghost use Rattle.rules.specs.Opening.{fresh, opened_state, empty_state, opening_of, opening_with, opening};
ghost use Rattle.opening.specs.Outcome.{opening_by};

use journal::{JOURNAL_LENGTH, Log, Record};
use line::{Line, NO_ROUTE, Refusal, Route, TrackNo};
use rules::{Opened, State, Status, Train};
use starting::start_tracks;
use table::TABLE_LENGTH;

// No section is in a gang's hands.
const NO_GANGS: [bool; 7] = [false; 7];

// Opens a book. Of the journal only its length is looked at.
pub fn open(book: &[u8], table: &mut [u8], journal: &[Record]) -> Opened
    ensures { opening_of result table.new
        ≡ opening book.now table.old journal.now }
{
    open_with(book, table, journal.len())
}

// The same with a journal by value.
pub fn open_log(book: &[u8], table: &mut [u8], log: Log) -> Opened
    ensures { opening_of result table.new
        ≡ opening book.now table.old log.records }
{
    open(book, table, &log.records)
}

// The opening, with a journal of so many records. With a refusal's number the empty state comes back.
pub fn open_with(book: &[u8], table: &mut [u8], records: usize) -> Opened
    ensures { opening_of result table.new
        ≡ opening_with book.now table.old records }
{
    match opened(book, table, records) {
        Ok(state) => Opened { state, refusal: 0 },
        Err(refusal) => Opened {
            state: empty_state(),
            refusal,
        },
    }
}

// Checks 2, those of the book, 19 and 20, in that order. 20 needs the table, so that it alone leaves it
// filled.
fn opened(book: &[u8], table: &mut [u8], records: usize) -> Result<State, u8>
    ensures { opening_by result table.new
        ≡ opening_with book.now table.old records }
{
    if table.len() < TABLE_LENGTH || records < JOURNAL_LENGTH {
        return Err(Refusal::ShortStore as u8);
    }
    let reading = book::read(book);
    reading.outcome?;
    let line = reading.line;
    if !table::feasible_start(line) {
        return Err(Refusal::Overfull as u8);
    }
    filling::fill(line, table);
    let start = table::code([0; 6], line.trains);
    if !table::bit(table, start) {
        return Err(Refusal::NoWayThrough as u8);
    }
    Ok(opened_state(line))
}

// 01: "an empty state that is not sound (all 0 and Free".
pub fn empty_state() -> State
    ensures { result ≡ empty_state }
{
    State {
        posts: 0,
        tracks: [0; 8],
        sidings: 0,
        trains: 0,
        fleet: [no_train(); 6],
        possessions: NO_GANGS,
        given: 0,
        logged: 0,
    }
}

// 01: "every train Free at its start, count 0", on the track that it takes there.
fn opened_state(line: Line) -> State
    requires { well_formed line ≡ true }
    ensures { result ≡ opened_state line }
{
    let starts = start_tracks(line);
    let mut fleet = [no_train(); 6];
    for t in 0..6 {
        fleet[t] = fresh(line.routes[t], TrackNo(starts[t]));
    }
    State {
        posts: line.posts,
        tracks: line.tracks,
        sidings: line.sidings,
        trains: line.trains,
        fleet,
        possessions: NO_GANGS,
        given: 0,
        logged: 0,
    }
}

// A train at its start, on that track, with no move finished.
fn fresh(route: Route, track: TrackNo) -> Train
    ensures { result ≡ fresh route track.0 }
{
    Train {
        route,
        at: route.start,
        track,
        status: Status::Free,
        last: None,
    }
}

// What stands at the places past the trains.
fn no_train() -> Train
    ensures { result ≡ no_train }
{
    fresh(NO_ROUTE, TrackNo(0))
}

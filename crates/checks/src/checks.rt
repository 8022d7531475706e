// Whether a frame is refused, and by which number. 01: "Checks in order: 1, 2, 3, 4, 5, 6, 7, 8 (at
// its end), 9, then .. 12 for AM, then 13." 02, card 4, for LA and LB, after 6: 7, 9, "then for LA 24,
// section taken, and 26, twenty already given; for LB 25, no local run there; then 13." Card 6: an AM
// of the last finished move passes after 7. Card 7 removes 13.
ghost use Rattle.std.specs.Prelude.{◌≡◌, true, ◌&&◌, ◌≤◌, leb};
ghost use Rattle.common.specs.Check.{refusal};
ghost use Rattle.journal.specs.Journal.{journal_length};
ghost use Rattle.completion.specs.Table.{table_length};
ghost use Rattle.rules.specs.Valid.{valid};
ghost use Rattle.rules.specs.Answer.{out_length, move_checks, section_checks, content_checks, frame_checks};
ghost use Rattle.checks.specs.Types.{Fa, Am, La, Lb};
ghost use Rattle.line.specs.Refusal.{checked};
ghost use Rattle.line.specs.Book.{outcome_number};
ghost use Rattle.checks.specs.Messages.{message_checks, named_train, NamesRefusal};

use fleet::{at_end, is_last, is_running, next_post, possessed, train_of};
use frame::{FRAME_LENGTH, Message, Move};
use holding::{holders_of, section_free};
use journal::{JOURNAL_LENGTH, MOST_SENT};
use line::{Refusal, TrainNo};
use rules::{State, Train};
use table::TABLE_LENGTH;
use validity::{MOST_GIVEN, valid};

// 01: "At most 6 frames go out, 42 bytes".
pub const OUT_LENGTH: usize = MOST_SENT * FRAME_LENGTH;

// 02, card 4: frames of LA, LE and LB "have train byte 255".
const GANG_BYTE: u8 = 255;

// Whether a frame passes, or the number by which it is refused. Of the table, the journal and the out
// buffer only the lengths are looked at.
pub fn check_frame(
    state: State,
    table: usize,
    records: usize,
    frame: &[u8],
    room: usize,
) -> Result<(), u8>
    ensures number { outcome_number result ≡ refusal (frame_checks state table records frame.now room) }
    ensures named { NamesRefusal result }
{
    if !valid(state) {
        return Err(Refusal::StrangeState as u8);
    }
    if !long_enough(table, records, room) {
        return Err(Refusal::ShortStore as u8);
    }
    match framing::read(frame) {
        Message::Refused(number) => Err(number),
        message => Ok(check_message(state, message)?),
    }
}

fn long_enough(table: usize, records: usize, room: usize) -> bool
    ensures { result ≡ leb table_length table && (leb journal_length records && leb out_length room) }
{
    TABLE_LENGTH <= table && JOURNAL_LENGTH <= records && OUT_LENGTH <= room
}

// 6 for what is not for the dispatcher; card 4: "LE at the dispatcher is 6." What reading refuses is
// no message.
#[tactic(auto, using(crate::proofs::Refusals::for_dispatcher, crate::proofs::Refusals::for_others))]
fn check_message(state: State, message: Message) -> Result<(), Refusal>
    requires { valid state ≡ true }
    ensures { checked result ≡ refusal (message_checks state message) }
{
    match message {
        Message::Fa(m) => check_request(state, m),
        Message::Am(m) => check_arrival(state, m),
        Message::La(m) => check_lending(state, m),
        Message::Lb(m) => check_return(state, m),
        Message::Fe(_) | Message::Afe(_) | Message::Le(_) | Message::Refused(_) => {
            Err(Refusal::WrongEnd)
        }
    }
}

// Whether what an FA says passes.
fn check_request(state: State, m: Move) -> Result<(), Refusal>
    requires { state.trains ≤ 6 }
    ensures { checked result ≡ refusal (content_checks state (Fa m)) }
{
    let train = named_train(state, m.train)?;
    check_move(train, m)
}

// Whether what an AM says passes.
fn check_arrival(state: State, m: Move) -> Result<(), Refusal>
    requires { state.trains ≤ 6 }
    ensures { checked result ≡ refusal (content_checks state (Am m)) }
{
    let train = named_train(state, m.train)?;
    if is_last(train.last, m.from, m.to) {
        return Ok(());
    }
    check_move(train, m)?;
    if !is_running(train.status) {
        return Err(Refusal::NoAuthority);
    }
    Ok(())
}

// Whether what an LA says passes.
fn check_lending(state: State, m: Move) -> Result<(), Refusal>
    requires { valid state ≡ true }
    ensures { checked result ≡ refusal (content_checks state (La m)) }
{
    check_section(state, m)?;
    let holders = holders_of(state);
    if !section_free(state, holders, line::section(m.from, m.to)) {
        return Err(Refusal::SectionTaken);
    }
    if MOST_GIVEN <= state.given {
        return Err(Refusal::TwentyGiven);
    }
    Ok(())
}

// Whether what an LB says passes.
fn check_return(state: State, m: Move) -> Result<(), Refusal>
    requires { state.posts ≤ 8 }
    ensures { checked result ≡ refusal (content_checks state (Lb m)) }
{
    check_section(state, m)?;
    if !possessed(state, line::section(m.from, m.to)) {
        return Err(Refusal::NoLocalRun);
    }
    Ok(())
}

// Whether two neighbouring posts are named for a gang, the lower one first: "a train byte not 255 is
// 7 and posts not so named are 9".
fn check_section(state: State, m: Move) -> Result<(), Refusal>
    ensures { checked result ≡ refusal (section_checks state m) }
{
    if m.train.0 != GANG_BYTE {
        return Err(Refusal::UnknownTrain);
    }
    if m.to.0 as usize != m.from.0 as usize + 1 {
        return Err(Refusal::WrongPost);
    }
    if state.posts <= m.to.0 {
        return Err(Refusal::WrongPost);
    }
    Ok(())
}

// The record of a train, where the line has one of its number.
fn named_train(state: State, t: TrainNo) -> Result<Train, Refusal>
    requires { state.trains ≤ 6 }
    ensures { result ≡ named_train state t }
{
    if state.trains <= t.0 {
        return Err(Refusal::UnknownTrain);
    }
    Ok(train_of(state, t))
}

// Whether the move is the train's next one.
fn check_move(train: Train, m: Move) -> Result<(), Refusal>
    ensures { checked result ≡ refusal (move_checks train m) }
{
    if at_end(train) {
        return Err(Refusal::AtItsEnd);
    }
    if m.from != train.at {
        return Err(Refusal::WrongPost);
    }
    if m.to != next_post(train) {
        return Err(Refusal::WrongPost);
    }
    Ok(())
}

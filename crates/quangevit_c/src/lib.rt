// The calls of quangevit for C: libquangevit_c.a, which is delivered as libquangevit.a, beside the header
// quangevit.h. Each export calls the function of `quangevit` that has its name, and states its clause
// again; the gate compares the two. To C a slice is a pointer and then a length.
#![tactic(auto)]

ghost use Rattle.std.specs.Prelude.{◌≡◌};
ghost use Rattle.calls.specs.BoxCalls.{book_call, read_book_call, open_call_of, open_call};
ghost use Rattle.calls.specs.BoxCalls.{answer_call_of, answer_call};
ghost use Rattle.calls.specs.PlaceCalls.{place_call, locate_call};
ghost use Rattle.calls.specs.PlanningCalls.{time_call, running_time_call};
ghost use Rattle.calls.specs.UnitCalls.{unit_call, make_unit_call, hear_call, pressed, press_call};
ghost use Rattle.quangevit.specs.Version.{version};

// Answers 100 times the edition, plus the revision: 800 is version 8.00.
#[unsafe(no_mangle)]
pub extern "C" fn quangevit_version() -> u32
    ensures { result ≡ version }
{
    quangevit::quangevit_version()
}

// Reads a book and writes the line that it describes.
#[unsafe(no_mangle)]
pub extern "C" fn quangevit_read_book(book: &[u8], line: &mut [u8]) -> u32
    ensures { book_call result line.new ≡ read_book_call book.now line.old }
{
    quangevit::quangevit_read_book(book, line)
}

// Opens a book: fills the table and writes the state. Of the journal only the length is looked at.
#[unsafe(no_mangle)]
pub extern "C" fn quangevit_open(
    book: &[u8],
    state: &mut [u8],
    table: &mut [u8],
    journal: &[u8],
) -> u32
    ensures { open_call_of result state.new table.new
        ≡ open_call book.now state.old table.old journal.now }
{
    quangevit::quangevit_open(book, state, table, journal)
}

// Answers a frame. The answers' frames are at the beginning of `out`.
#[unsafe(no_mangle)]
pub extern "C" fn quangevit_answer(
    state: &mut [u8],
    table: &[u8],
    journal: &mut [u8],
    frame: &[u8],
    out: &mut [u8],
) -> u32
    ensures { answer_call_of result state.new journal.new out.new
        ≡ answer_call state.old table.now journal.old
        frame.now out.old }
{
    quangevit::quangevit_answer(state, table, journal, frame, out)
}

// The running time from one post of a book to another, at a speed in km/h. A question that is refused
// leaves `time` alone.
#[unsafe(no_mangle)]
pub extern "C" fn quangevit_running_time(
    book: &[u8],
    from: u8,
    to: u8,
    speed: u32,
    time: &mut [u8],
) -> u32
    ensures { time_call result time.new
        ≡ running_time_call book.now from to speed time.old }
{
    quangevit::quangevit_running_time(book, from, to, speed, time)
}

// The place of a report: missing, a post or metres, by its kind. A report that is refused leaves
// `place` alone.
#[unsafe(no_mangle)]
pub extern "C" fn quangevit_locate(
    book: &[u8],
    kind: u8,
    post: u8,
    metres: f32,
    place: &mut [u8],
) -> u32
    ensures { place_call result place.new
        ≡ locate_call book.now kind post metres place.old }
{
    quangevit::quangevit_locate(book, kind, post, metres, place)
}

// Makes a unit for a train and its route.
#[unsafe(no_mangle)]
pub extern "C" fn quangevit_make_unit(train: u8, start: u8, end: u8, unit: &mut [u8]) -> u32
    ensures { unit_call result unit.new ≡ make_unit_call train start end unit.old }
{
    quangevit::quangevit_make_unit(train, start, end, unit)
}

// Presses a button. The frame that a press gives is at the beginning of `frame`.
#[unsafe(no_mangle)]
pub extern "C" fn quangevit_press(unit: &mut [u8], button: u8, frame: &mut [u8]) -> u32
    ensures { pressed result unit.new frame.new
        ≡ press_call unit.old button frame.old }
{
    quangevit::quangevit_press(unit, button, frame)
}

// Hears a frame.
#[unsafe(no_mangle)]
pub extern "C" fn quangevit_hear(unit: &mut [u8], frame: &[u8]) -> u32
    ensures { unit_call result unit.new ≡ hear_call unit.old frame.now }
{
    quangevit::quangevit_hear(unit, frame)
}

// The calls of the open desk, each with what is printed of its answer.
use crate::line::Line;
use refusals::Refusal;
use std::io;
use std::io::Write;

#[derive(Clone, Copy)]
pub enum Call {
    Open,
    Opening,
    Start,
    Pace,
    Plans,
    Order,
}

impl Call {
    // A call by the last letter of its name.
    pub fn of_letter(letter: u8) -> Option<Call> {
        match letter {
            b'n' => Some(Call::Open),
            b'g' => Some(Call::Opening),
            b't' => Some(Call::Start),
            b'e' => Some(Call::Pace),
            b's' => Some(Call::Plans),
            b'r' => Some(Call::Order),
            _ => None,
        }
    }

    // The call with the numbers before it.
    pub fn run(self, out: &mut impl Write, line: &Line, desk: &mut [u32]) -> io::Result<()> {
        let first = line.numbers[0];
        match self {
            Call::Open => open(out, 0, line.given(), desk),
            Call::Opening => open_with(out, line.given(), desk),
            Call::Start => start(out, desk, first, line.numbers[1]),
            Call::Pace => pace(out, desk, first),
            Call::Plans => list(out, desk),
            Call::Order => order(out, desk, first),
        }
    }
}

// A refusal: its number at its place.
fn refused(out: &mut impl Write, refusal: Refusal) -> io::Result<()> {
    write!(out, " {}@{}", refusal.number, refusal.place)
}

fn open(out: &mut impl Write, opening: u32, book: &[u32], desk: &mut [u32]) -> io::Result<()> {
    match open_desk::open(opening, book, desk) {
        Ok(opened) => write!(out, " {} {}", opened.rows, opened.minute),
        Err(refusal) => refused(out, refusal),
    }
}

// The opening minutes stand before the words of the book.
fn open_with(out: &mut impl Write, numbers: &[u32], desk: &mut [u32]) -> io::Result<()> {
    match numbers {
        [] => Ok(()),
        [opening, book @ ..] => open(out, *opening, book, desk),
    }
}

fn start(out: &mut impl Write, desk: &mut [u32], row: u32, minute: u32) -> io::Result<()> {
    match open_desk::start(desk, row, minute) {
        Ok(stand) => write!(out, " {} {}", stand.minute, stand.late),
        Err(refusal) => refused(out, refusal),
    }
}

// A change that is accepted says nothing more: 0 in the place of a refusal.
fn pace(out: &mut impl Write, desk: &mut [u32], pace: u32) -> io::Result<()> {
    match open_desk::change_pace(desk, pace) {
        Ok(()) => write!(out, " 0"),
        Err(refusal) => refused(out, refusal),
    }
}

fn list(out: &mut impl Write, desk: &[u32]) -> io::Result<()> {
    let mut words = HELD;
    match open_desk::list(desk, &mut words) {
        Ok(count) => write!(out, " {count}")?,
        Err(refusal) => refused(out, refusal)?,
    }
    values(out, &words)
}

fn order(out: &mut impl Write, desk: &[u32], plan: u32) -> io::Result<()> {
    let mut words = HELD;
    match open_desk::order_of_plan(desk, plan, &mut words) {
        Ok(attained) => write!(out, " {} {}", attained.end, attained.late)?,
        Err(refusal) => refused(out, refusal)?,
    }
    values(out, &words)
}

// What a result buffer holds before a call.
const HELD: [u32; 9] = [7; 9];

// Words one after another, in two's complement.
fn values(out: &mut impl Write, words: &[u32]) -> io::Result<()> {
    for word in words {
        let value = word.cast_signed();
        write!(out, " {value}")?;
    }
    Ok(())
}

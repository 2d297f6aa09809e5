// Makes the input of a month of days written as plain text. Reads the days from standard input and writes the month's input, of which
// docs/MONTH.md has the layout, to standard output. If a line is wrong, standard output stays empty, and standard error has the first
// wrong line and what is wrong there.
//
// A day is what `text_days` takes, and a last line with the order numbers in the order in which the rows were read:
//
//     posted NUMBER NUMBER ..
//
// The next day begins with free. A text of no day is a month of no day.
#![tactic(auto)]

ghost use Rattle.std.specs.Prelude.{◌≡◌, ◌+◌, ◌*◌, ◌≤◌, ◌<◌, length, take, IfOk, IfErr, IfSome};

use month_words::MOST;
use std::io;
use std::io::Write;
use text_days::{Book, Day, Place};
use text_words::{Line, Words};
use wrong_lines::{Wrong, WrongLine};

// A text's bytes are fewer.
const TEXT: usize = 1_048_576;

// The bytes of the longest input.
const BYTES: usize = 159_588;

// The most days of a month.
const DAYS: usize = 31;

// The month as far as it is read: where the next day begins, and the bytes of the days.
#[derive(Clone, Copy)]
struct Month {
    place: Place,
    size: usize,
}

// Room for the numbers of a posted line.
fn no_numbers() -> [u32; MOST]
    ensures { 257 ≡ length result }
{
    [0; MOST]
}

// Reads the numbers of a posted line, and puts the day to the sheet: the bytes that the sheet then has.
fn put_day(
    words: Words<'_>,
    day: &Day,
    book: &Book,
    sheet: &mut [u8],
    size: usize,
) -> Result<usize, Wrong>
    requires { size + 5144 ≤ length sheet.old }
    ensures { IfOk result (λ end. end ≤ size + 5144) }
{
    let mut numbers = no_numbers();
    let count = text_words::read_numbers(words, &mut numbers)?;
    let posting = &mut numbers[..count];
    if let Err(k) = month_words::find_rows(book, day.rows, posting) {
        return Err(Wrong::NoRow(posting[k]));
    }
    Ok(month_words::put_day(&book[..day.book_words()], posting, sheet, size))
}

// The line at which a day, after so many days, is wrong, and what is wrong there.
fn stopped(day: &Day, wrong: Option<text_days::Wrong>, days: usize) -> WrongLine<Wrong>
    ensures { result.line ≡ day.now.place.line }
{
    wrong_lines::in_month(day.place.line, day.stage, day.rows, wrong, days)
}

// Puts a day that ends at a posted line, and comes after so many days: the bytes that the sheet then has.
fn end_day(
    posted: Words<'_>,
    day: &Day,
    book: &mut Book,
    days: usize,
    sheet: &mut [u8],
    size: usize,
) -> Result<usize, WrongLine<Wrong>>
    requires { size + 5144 ≤ length sheet.old }
    ensures end { IfOk result (λ end. end ≤ size + 5144) }
    ensures line { IfErr result (λ wrong. wrong.line ≡ day.now.place.line) }
{
    day.finish(book)
        .map_err(|wrong| stopped(day, Some(wrong), days))?;
    let line = day.place.line;
    put_day(posted, day, book, sheet, size).map_err(|wrong| WrongLine { line, wrong })
}

// The posted line, if it is that one that is wrong in a day.
fn posted_line(text: &[u8], at: usize, wrong: text_days::Wrong) -> Option<Line<'_>>
    requires { at ≤ length text.now }
    ensures { IfSome result (λ line. (at < line.next) × (line.next ≤ length text.now + 1)) }
{
    match wrong {
        text_days::Wrong::Unknown => text_words::begins(text, at, b"posted"),
        _ => None,
    }
}

// Reads a day that comes after so many days, and puts it to the sheet.
fn read_day(
    text: &[u8],
    from: Place,
    days: usize,
    sheet: &mut [u8],
    size: usize,
) -> Result<Month, WrongLine<Wrong>>
    requires { (from.at ≤ length text.now + 1) × (from.line ≤ from.at + 1) × (size + 5144 ≤ length sheet.old) }
    ensures month { IfOk result (λ month. (month.place.at ≤ length text.now + 1) × (month.place.line ≤ month.place.at + 1)
        × (month.size ≤ size + 5144)) }
    ensures line { IfErr result (λ wrong. wrong.line ≤ length text.now + 2) }
{
    let mut book = [0; Day::WORDS];
    let mut day = Day::new(from);
    let Err(wrong) = day.read_lines(text, &mut book) else {
        let missing = day.finish(&mut book).err();
        return Err(stopped(&day, missing, days));
    };
    let Some(posted) = posted_line(text, day.place.at, wrong) else {
        return Err(stopped(&day, Some(wrong), days));
    };
    let place = Place {
        at: posted.next,
        line: day.place.line + 1,
    };
    let size = end_day(posted.words, &day, &mut book, days, sheet, size)?;
    Ok(Month { place, size })
}

// Reads the days up to the first wrong line, and puts them to the sheet: the bytes that it then has.
fn read_days(text: &[u8], sheet: &mut [u8]) -> Result<usize, WrongLine<Wrong>>
    requires { length sheet.old ≡ 159588 }
    ensures { IfOk result (λ size. (size ≤ 159588) × (size ≡ length (take size sheet.new))) }
{
    let mut month = Month {
        place: Place::START,
        size: 0,
    };
    for days in 0..DAYS {
        let Some(next) = text_days::next_line(text, month.place) else {
            return Ok(month.size);
        };
        month = read_day(text, next, days, sheet, month.size)?;
    }
    match text_days::next_line(text, month.place) {
        None => Ok(month.size),
        Some(next) => Err(WrongLine {
            line: next.line,
            wrong: Wrong::Full,
        }),
    }
}

// Room for a text.
fn no_text() -> [u8; TEXT]
    ensures { 1048576 ≡ length result }
{
    [0; TEXT]
}

// Room for an input.
fn no_bytes() -> [u8; BYTES]
    ensures { 159588 ≡ length result }
{
    [0; BYTES]
}

fn main(rt: HostRuntime) -> io::Result<()> {
    let mut text = no_text();
    let bytes = streams::read_full(&mut rt.stdin(), &mut text)?;
    if bytes == TEXT {
        return rt.eprintln("the text is too long: 1048575 bytes is the most");
    }
    let mut sheet = no_bytes();
    match read_days(&text[..bytes], &mut sheet) {
        Ok(size) => rt.stdout().write_all(&sheet[..size]),
        Err(wrong) => rt.eprintln(wrong),
    }
}

// Tests 1 to 7: a lent book of 32-bit words becomes the table of its rows, or is refused with a number and a place.
#![tactic(auto)]

ghost use Rattle.std.specs.Prelude.{◌≡◌, ◌≤◌, ◌<◌, [], length, drop};
ghost use Rattle.schedule.specs.Limits.{most_rows, least_pace, most_pace};
ghost use Rattle.words.specs.WordTests.{last_start};
ghost use Rattle.book.specs.Rows.{end_stands, end_tests, tried_rows, read_rows};
ghost use Rattle.book.specs.Book.{head_tests, read_words};
ghost use Rattle.book.specs.Tables.{reading_of};

use refusals::Refusal;
use schedule::{Desk, Row};

// What stands in a place that holds no row.
const NO_ROW: Row = Row {
    number: 0,
    release: 0,
    length: 0,
    due: 0,
    class: None,
    pages: 0,
};

// The rows that a book gives, with the free minute of the desk. Places from `count` on hold no row.
#[derive(Drop)]
pub struct Table {
    pub free: u32,
    pub count: usize,
    pub rows: [Row; Desk::ROWS],
}

// The end word stands at the start of the rest. It may stand only after a whole row.
fn end_stands(count: usize, rest: &[u32]) -> bool
    ensures { result ≡ end_stands count rest.now }
{
    0 < count && 0 < rest.len() && words::kind_of(rest[0]) == 7
}

// Count and tail at the end word.
fn end_tests(count: usize, place: usize, rest: &[u32]) -> Result<(), Refusal>
    requires { (place ≤ last_start) × (count ≤ most_rows) }
    ensures { result ≡ end_tests count place rest.now }
{
    let told = words::value_of(words::word_at(rest, 0)) as usize;
    refusals::refuse_if(told != count, Refusal::COUNT, place)?;
    refusals::refuse_if(1 < rest.len(), Refusal::TAIL, place + 1)
}

// The rows and the end, from word 2 on. After each row the rest of the book is read on as a part of its own.
// The order numbers stand in a column beside the rows, which the row reader is lent instead of the rows. The table is made at the end: a
// copy less.
fn read_rows(free: u32, pace: u32, book: &[u32]) -> Result<Table, Refusal>
    requires { (2 ≤ length book.now) × (least_pace ≤ pace) × (pace ≤ most_pace) }
    ensures { result ≡ reading_of (read_rows tried_rows free pace [] 2 (drop 2 book.now)) }
{
    let mut rows = [NO_ROW; Desk::ROWS];
    let mut numbers = [0; Desk::ROWS];
    let mut count = 0;
    let mut at = 2;
    loop {
        let rest = &book[at..];
        if end_stands(count, rest) {
            end_tests(count, at, rest)?;
            return Ok(Table { free, count, rows });
        }
        let row = row_reader::read_row(&numbers, count, pace, at, rest)?;
        numbers[count] = row.number;
        rows[count] = row;
        count += 1;
        at += 4;
    }
}

// The tests of the free minute and the pace.
fn head_tests(book: &[u32]) -> Result<(), Refusal>
    ensures { result ≡ head_tests book.now }
{
    words::word_tests(1, 0, Desk::MINUTES, 0, book, 0)?;
    words::word_tests(2, Desk::LEAST_PACE, Desk::MOST_PACE, 0, book, 1)
}

// The table of a book that passes tests 1 to 7, or the refusal.
pub fn read_words(book: &[u32]) -> Result<Table, Refusal>
    ensures { result ≡ reading_of (read_words book.now) }
{
    head_tests(book)?;
    let free = words::value_of(words::word_at(book, 0));
    let pace = words::value_of(words::word_at(book, 1));
    read_rows(free, pace, book)
}

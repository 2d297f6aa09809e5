// A day written as plain text, line by line, and the words of its book.
//
//     # a comment goes to the end of its line
//     free MINUTE
//     pace PAGES
//     row NUMBER RELEASE PAGES DUE
//     row NUMBER RELEASE PAGES class CLASS
//
// First free, then pace, then 1 to 256 rows, each with its due or with its turnaround class. What values the words have is for the book's
// reader to judge: here a number has only to fit the 29 bits of a word's value.
#![tactic(auto)]

ghost use Rattle.std.specs.Prelude.{◌≡◌, ◌+◌, ◌*◌, ◌%◌, ◌≤◌, ◌<◌, cond, length, IfSome, OnOk, OnErr, slice_index};
ghost use Rattle.text_days.specs.declared.Stage.TheVariants.{Free, Row};

use std::fmt;
use text_words::Words;

// What is wrong with a line of a day: its numbers, its first word, or where it stands; or with the end of a day.
#[derive(Clone, Copy, Debug, PartialEq, Eq)]
pub enum Wrong {
    Numbers(text_words::Wrong),
    Unknown,
    FreeAgain,
    PaceAgain,
    PaceFirst,
    RowFirst,
    Full,
    NoFree,
    NoPace,
    NoRows,
}

impl From<text_words::Wrong> for Wrong {
    fn from(wrong: text_words::Wrong) -> Wrong {
        Wrong::Numbers(wrong)
    }
}

impl fmt::Display for Wrong {
    fn fmt<W: fmt::Write>(&self, f: &mut fmt::Formatter<W>) -> fmt::Result {
        f.write_str(match self {
            Wrong::Numbers(text_words::Wrong::Missing) => {
                "a number is missing: free and pace have one, a row has four, or three and class with one"
            }
            Wrong::Numbers(text_words::Wrong::Strange) =>
                "not a number: only the digits 0 to 9 may stand here",
            Wrong::Numbers(text_words::Wrong::Large) =>
                "number too large for a book: 536870911 is the most",
            Wrong::Numbers(text_words::Wrong::More) => {
                "too much on this line: free and pace have one number, a row has four, or three and class with one"
            }
            Wrong::Unknown => "unknown word: a line begins with free, pace or row",
            Wrong::FreeAgain => "free is there already",
            Wrong::PaceAgain => "pace is there already",
            Wrong::PaceFirst => "pace comes before free",
            Wrong::RowFirst => "row comes before free and pace",
            Wrong::Full => "too many rows: 256 is the most",
            Wrong::NoFree => "the day ends without free",
            Wrong::NoPace => "the day ends without pace",
            Wrong::NoRows => "the day ends without rows",
        })
    }
}

// A line of a text: where it begins, and its number.
#[derive(Clone, Copy)]
pub struct Place {
    pub at: usize,
    pub line: usize,
}

impl Place {
    // Where a text begins.
    pub const START: Place = Place { at: 0, line: 1 };
}

// A line by its first word, and what may come next in a day: free, then pace, then rows.
#[derive(Clone, Copy, PartialEq, Eq)]
pub enum Stage {
    Free,
    Pace,
    Row,
}

// The day as far as it is read: the next line, what may come there, and the rows. If a line is wrong, it is that one.
#[derive(Clone, Copy)]
pub struct Day {
    pub place: Place,
    pub stage: Stage,
    pub rows: usize,
    ghost few: { rows ≤ 256 },
}

// The words of a book of a day.
pub type Book = [u32; Day::WORDS];

// The word of a kind with a value, which has 29 bits.
pub fn word_of(kind: u32, value: u32) -> u32
    requires { kind < 8 }
    ensures { result ≡ kind * 536870912 + value % 536870912 }
{
    kind * 536_870_912 + value % 536_870_912
}

// The last word of a row: its class, kind 0, or its due, kind 6.
fn last_word(classed: bool, value: u32) -> u32
    ensures { result ≡ cond classed 0 6 * 536870912 + value % 536870912 }
{
    if classed {
        word_of(0, value)
    } else {
        word_of(6, value)
    }
}

// The last word of a row, of what stands after its pages: the word class and a class, or a due.
fn read_last(words: &mut Words<'_>) -> Result<u32, text_words::Wrong> {
    let word = words.next().ok_or(text_words::Wrong::Missing)?;
    let classed = word == b"class".as_slice();
    let value = if classed {
        words.number()?
    } else {
        text_words::number_of(word)?
    };
    Ok(last_word(classed, value))
}

// The one number of a line of free or pace.
fn read_one(mut words: Words<'_>) -> Result<u32, text_words::Wrong> {
    let value = words.number()?;
    words.end()?;
    Ok(value)
}

// The four words of a row.
fn read_row(mut words: Words<'_>) -> Result<[u32; 4], text_words::Wrong> {
    let number = word_of(3, words.number()?);
    let release = word_of(4, words.number()?);
    let pages = word_of(5, words.number()?);
    let last = read_last(&mut words)?;
    words.end()?;
    Ok([number, release, pages, last])
}

// The stage of a line with this first word.
fn stage_of(word: &[u8]) -> Result<Stage, Wrong> {
    match word {
        b"free" => Ok(Stage::Free),
        b"pace" => Ok(Stage::Pace),
        b"row" => Ok(Stage::Row),
        _ => Err(Wrong::Unknown),
    }
}

impl Day {
    // Words of the longest book.
    pub const WORDS: usize = 1_027;

    const ROWS: usize = 256;

    // A day of which nothing is read, that begins at a place.
    pub fn new(place: Place) -> Day
        ensures { (result.place ≡ place) × (result.stage ≡ Free) × (result.rows ≡ 0) }
    {
        Day {
            place,
            stage: Stage::Free,
            rows: 0,
        }
    }

    // Reads what stands after free. The line counts, whatever is wrong with its number.
    fn free_line(&mut self, words: Words<'_>, book: &mut Book) -> Result<(), Wrong>
        ensures { self.new.place ≡ self.old.place }
    {
        if self.stage != Stage::Free {
            return Err(Wrong::FreeAgain);
        }
        self.stage = Stage::Pace;
        book[0] = word_of(1, read_one(words)?);
        Ok(())
    }

    // Reads what stands after pace.
    fn pace_line(&mut self, words: Words<'_>, book: &mut Book) -> Result<(), Wrong>
        ensures { self.new.place ≡ self.old.place }
    {
        match self.stage {
            Stage::Free => return Err(Wrong::PaceFirst),
            Stage::Row => return Err(Wrong::PaceAgain),
            Stage::Pace => self.stage = Stage::Row,
        }
        book[1] = word_of(2, read_one(words)?);
        Ok(())
    }

    // Reads what stands after row.
    fn row_line(&mut self, words: Words<'_>, book: &mut Book) -> Result<(), Wrong>
        ensures { self.new.place ≡ self.old.place }
    {
        if self.stage != Stage::Row {
            return Err(Wrong::RowFirst);
        }
        let rows = self.rows;
        if rows == Day::ROWS {
            return Err(Wrong::Full);
        }
        let at = 4 * rows + 2;
        self.rows = rows + 1;
        book[at..at + 4].copy_from_slice(&read_row(words)?);
        Ok(())
    }

    // Reads a line: its first word says what it is.
    fn read_line(&mut self, mut words: Words<'_>, book: &mut Book) -> Result<(), Wrong>
        ensures { self.new.place ≡ self.old.place }
    {
        let Some(first) = words.next() else {
            return Ok(());
        };
        match stage_of(first)? {
            Stage::Free => self.free_line(words, book),
            Stage::Pace => self.pace_line(words, book),
            Stage::Row => self.row_line(words, book),
        }
    }

    // Reads the lines of a text that are left, up to the first that is wrong.
    pub fn read_lines(&mut self, text: &[u8], book: &mut Book) -> Result<(), Wrong>
        requires { (self.old.place.at ≤ length text.now + 1) × (self.old.place.line ≤ self.old.place.at + 1) }
        ensures in_text { (self.new.place.at ≤ length text.now + 1) × (self.new.place.line ≤ self.new.place.at + 1) }
        ensures at_in_bounds { OnErr result (self.new.place.at < length text.now) }
    {
        while self.place.at < text.len() {
            let line = text_words::line_at(text, self.place.at);
            self.read_line(line.words, book)?;
            self.place.at = line.next;
            self.place.line += 1;
        }
        Ok(())
    }

    // The words of its book.
    pub fn book_words(&self) -> usize
        ensures { result ≡ 4 * self.now.rows + 3 }
    {
        4 * self.rows + 3
    }

    // Puts the end word to the book of a day that ends here.
    pub fn finish(&self, book: &mut Book) -> Result<(), Wrong>
        ensures rows { OnOk result ((self.now.stage ≡ Row) × (0 < self.now.rows)) }
        ensures end { OnOk result (slice_index book.new (4 * self.now.rows + 2) ≡ 7 * 536870912 + self.now.rows) }
    {
        match self.stage {
            Stage::Free => return Err(Wrong::NoFree),
            Stage::Pace => return Err(Wrong::NoPace),
            Stage::Row if self.rows == 0 => return Err(Wrong::NoRows),
            Stage::Row => {}
        }
        book[self.book_words() - 1] = word_of(7, self.rows as u32);
        Ok(())
    }
}

// The next line that has a word, from a place on.
pub fn next_line(text: &[u8], from: Place) -> Option<Place>
    requires { (from.at ≤ length text.now + 1) × (from.line ≤ from.at + 1) }
    ensures { IfSome result (λ place. (place.at < length text.now) × (place.line ≤ place.at + 1)) }
{
    let mut place = from;
    while place.at < text.len() {
        let mut line = text_words::line_at(text, place.at);
        if line.words.next().is_some() {
            return Some(place);
        }
        place.at = line.next;
        place.line += 1;
    }
    None
}

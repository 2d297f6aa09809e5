// The row reader: the four words of a row become a row of the table, or are refused. As in `words`, `rest` is the book from `place` on.
#![tactic(auto)]

ghost use Rattle.std.specs.Prelude.{◌≡◌, ◌≤◌, ◌<◌, length, take};
ghost use Rattle.schedule.specs.Limits.{latest_minute, longest_length, most_rows, most_pages, least_pace, most_pace};
ghost use Rattle.words.specs.Words.{value, word};
ghost use Rattle.words.specs.WordTests.{last_start};
ghost use Rattle.row_reader.specs.Due.{class_of, due_tests, due_by};
ghost use Rattle.row_reader.specs.Cited.{Margined};
ghost use Rattle.row_reader.specs.Margins.{margin};
ghost use Rattle.schedule.specs.Rows.{stands};
ghost use Rattle.row_reader.specs.RowWords.{number_tests, row_tests, row_of};
ghost use Rattle.row_reader.specs.Cited.{row_read_of};
ghost use Rattle.row_reader.specs.NearestMinute.{length_of};

use refusals::Refusal;
use schedule::{Desk, Row};

// The margins in minutes of the turnaround classes, from class 0 on.
const MARGINS: [u32; 8] = [60, 120, 480, 1_440, 4_320, 10_080, 20_160, 43_200];

// The last turnaround class.
pub const LAST_CLASS: u32 = 7;

// The number stands among the first `count` numbers. The loop goes on where it is found: so it has no branch, and several places are
// compared at a time.
fn number_stands(numbers: &[u32; Desk::ROWS], count: usize, number: u32) -> bool
    requires { (count ≤ most_rows) × (length numbers.now ≡ most_rows) }
    ensures { result ≡ stands number (take count numbers.now) }
{
    let mut found = false;
    for n in &numbers[..count] {
        found = found | (number == *n);
    }
    found
}

// Cut, kind, full and twice at a number word.
fn number_tests(
    numbers: &[u32; Desk::ROWS],
    count: usize,
    place: usize,
    rest: &[u32],
) -> Result<(), Refusal>
    requires { (place ≤ last_start) × (count ≤ most_rows) × (length numbers.now ≡ most_rows) }
    ensures { result ≡ number_tests (take count numbers.now) place rest.now }
{
    words::kind_tests(3, place, rest, 0)?;
    refusals::refuse_if(Desk::ROWS <= count, Refusal::FULL, place)?;
    let number = words::value_of(words::word_at(rest, 0));
    let stands = number_stands(numbers, count, number);
    refusals::refuse_if(stands, Refusal::TWICE, place)
}

// The class of a row, or that it has none: a word of kind 0 in the place of the due word is a class.
fn class_of(rest: &[u32]) -> Option<u32>
    ensures { result ≡ class_of rest.now }
{
    let w = words::word_at(rest, 3);
    if words::kind_of(w) == 0 {
        Some(words::value_of(w))
    } else {
        None
    }
}

// The tests of the due word, or of the class word in its place.
fn due_tests(place: usize, rest: &[u32]) -> Result<(), Refusal>
    requires { place ≤ last_start }
    ensures { result ≡ due_tests place rest.now }
{
    match class_of(rest) {
        None => words::word_tests(6, 0, Desk::DUES, place, rest, 3),
        Some(_) => words::word_tests(0, 0, LAST_CLASS, place, rest, 3),
    }
}

// The tests of a row's four words.
fn row_tests(
    numbers: &[u32; Desk::ROWS],
    count: usize,
    place: usize,
    rest: &[u32],
) -> Result<(), Refusal>
    requires { (place ≤ last_start) × (count ≤ most_rows) × (length numbers.now ≡ most_rows) }
    ensures { result ≡ row_tests (take count numbers.now) place rest.now }
{
    number_tests(numbers, count, place, rest)?;
    words::word_tests(4, 0, Desk::MINUTES, place, rest, 1)?;
    words::word_tests(5, 1, Desk::PAGES, place, rest, 2)?;
    due_tests(place, rest)
}

// Length: pages × 60 divided by pace, to the nearest minute, an exact half going up.
pub fn length_of(pages: u32, pace: u32) -> u32
    requires { (pages ≤ most_pages) × (least_pace ≤ pace) × (pace ≤ most_pace) }
    ensures { result ≡ length_of pages pace }
{
    (2 * (pages * 60) + pace) / (2 * pace)
}

// The margin of a class.
fn margin_of(class: u32) -> u32
    requires { class < 8 }
    ensures { result ≡ margin class }
{
    MARGINS[class as usize]
}

// Due: what the due word told; of a class, release plus length plus margin.
fn due_of(class: Option<u32>, release: u32, minutes: u32, told: u32) -> u32
    requires { Margined class × (release ≤ latest_minute) × (minutes ≤ longest_length) }
    ensures { result ≡ due_by class release minutes told }
{
    match class {
        None => told,
        Some(c) => release + minutes + margin_of(c),
    }
}

// The row that the first four words of the rest make.
fn row_of(pace: u32, rest: &[u32]) -> Row
    requires { Margined
        (class_of rest.now) × (value (word rest.now 1) ≤ latest_minute) × (value (word rest.now 2) ≤ most_pages)
        × (least_pace ≤ pace) × (pace ≤ most_pace) }
    ensures { result ≡ row_of pace rest.now }
{
    let number = words::value_of(words::word_at(rest, 0));
    let release = words::value_of(words::word_at(rest, 1));
    let pages = words::value_of(words::word_at(rest, 2));
    let length = length_of(pages, pace);
    let class = class_of(rest);
    let told = words::value_of(words::word_at(rest, 3));
    let due = due_of(class, release, length, told);
    Row {
        number,
        release,
        length,
        due,
        class,
        pages,
    }
}

// The row reader: the row that stands at the start of the rest, after `count` rows with these numbers, or the refusal.
pub fn read_row(
    numbers: &[u32; Desk::ROWS],
    count: usize,
    pace: u32,
    place: usize,
    rest: &[u32],
) -> Result<Row, Refusal>
    requires { (place ≤ last_start) × (count ≤ most_rows) × (length numbers.now ≡ most_rows)
        × (least_pace ≤ pace) × (pace ≤ most_pace) }
    ensures { result ≡ row_read_of (row_tests (take count numbers.now) place rest.now)
        (row_of pace rest.now) }
{
    row_tests(numbers, count, place, rest)?;
    Ok(row_of(pace, rest))
}

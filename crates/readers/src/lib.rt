// The readers of both profiles: a book by the terms of a call, as its rows in columns or the refusal.
#![tactic(auto)]

ghost use Rattle.std.specs.Prelude.{◌≡◌, ℕ, ◌≤◌, length};
ghost use Rattle.schedule.specs.Limits.{most_rows, row_places, latest_minute, longest_length, longest_time, latest_due, most_opening};
ghost use Rattle.schedule.specs.Columns.{at, columns};
ghost use Rattle.rows.specs.InColumns.{Within};
ghost use Rattle.readers.specs.Rules.{number_by};
ghost use Rattle.readers.specs.Seconds.{second_by, JobsTested};
ghost use Rattle.readers.specs.Times.{Timed};
ghost use Rattle.readers.specs.Reads.{read_by, Gives};

use refusals::Refusal;
use rows::Columns;
use schedule::{Desk, Profile};

// The most that the release of a row and its time at the desk come to.
const MOST_READY: u32 = 10_030_030;

// What a call is told beside the book: the profile, and the minutes that each transcript takes to open.
#[derive(Clone, Copy)]
pub struct Terms {
    pub profile: Profile,
    pub opening: u32,
}

// What an accepted book gives by the terms: the free minute, the count of rows, and in columns what planning sees of the rows, and their
// pages.
#[derive(Drop)]
pub struct Given {
    pub free: u32,
    pub count: usize,
    pub columns: Columns,
}

// The number of the refusal by the profile's rule.
fn number_of(profile: Profile) -> u32
    ensures { result ≡ number_by profile }
{
    match profile {
        Profile::Ordering => Refusal::DISORDER,
        Profile::FirstCome => Refusal::CROSSED,
    }
}

// The second number that the profile compares rows by: the spare, raised so that it is never below 0; or how long before the latest minute
// the release is.
fn second_of(profile: Profile, release: u32, minutes: u32, due: u32) -> u32
    requires { (release ≤ latest_minute) × (minutes ≤ longest_time) × (due ≤ latest_due) }
    ensures { result ≡ second_by profile (record { release = release; length = minutes; due = due }) }
{
    match profile {
        Profile::Ordering => due + MOST_READY - (release + minutes),
        Profile::FirstCome => Desk::MINUTES - release,
    }
}

// The rule of the profile, of the rows in columns: the pair test of the dues and the second numbers.
pub fn rule_tests<'a>(
    profile: Profile,
    release: &'a [u32; Desk::PLACES],
    minutes: &'a [u32; Desk::PLACES],
    due: &'a [u32; Desk::PLACES],
    count: usize,
) -> Result<(), Refusal>
    requires { (count ≤ most_rows)
        × (length release.now ≡ row_places) × (length minutes.now ≡ row_places) × (length due.now ≡ row_places)
        × ((i : ℕ) → Within latest_minute longest_time latest_due (columns release.now minutes.now due.now i)) }
    ensures { JobsTested profile (columns release.now minutes.now due.now) count result }
{
    let mut seconds = [0; Desk::PLACES];
    for i in 1..=count {
        seconds[i] = second_of(profile, release[i], minutes[i], due[i]);
    }
    pairs::pair_tests(due, &seconds, count, number_of(profile))
}

// The times that the first n rows take at the desk, in the place of their lengths: the opening is added to each.
fn add_opening(opening: u32, minutes: &mut [u32; Desk::PLACES], n: usize)
    requires { (opening ≤ most_opening) × (n ≤ most_rows) × (length minutes.old ≡ row_places)
        × ((i : ℕ) → at minutes.old i ≤ longest_length) }
    ensures { Timed opening n minutes.old minutes.new }
{
    for time in &mut minutes[1..=n] {
        *time += opening;
    }
}

// What a book gives by terms whose opening is in its range: tests 1 to 7, then the rule of the profile, which counts no opening.
fn read_told(terms: Terms, book: &[u32]) -> Result<Given, Refusal>
    requires { terms.opening ≤ most_opening }
    ensures { Gives terms.opening (read_by terms book.now) result }
{
    let table = book::read_words(book)?;
    let free = table.free;
    let count = table.count;
    let mut columns = rows::columns_in(table);
    rule_tests(
        terms.profile,
        &columns.release,
        &columns.length,
        &columns.due,
        count,
    )?;
    add_opening(terms.opening, &mut columns.length, count);
    Ok(Given {
        free,
        count,
        columns,
    })
}

// What a book gives by the terms: the opening is tested before the book is looked at.
pub fn read(terms: Terms, book: &[u32]) -> Result<Given, Refusal>
    ensures { Gives terms.opening (read_by terms book.now) result }
{
    refusals::refuse_if(Desk::OPENING < terms.opening, Refusal::RANGE, 0)?;
    read_told(terms, book)
}

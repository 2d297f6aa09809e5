// A new pace on an open desk, as another reader sits down: the rows left get new lengths, from their pages.
#![tactic(auto)]

ghost use Rattle.std.specs.Prelude.{◌≡◌, true, cond, ℕ, ◌+◌, ◌*◌, ◌/◌, ◌≤◌, ◌<◌, length, replicate};
ghost use Rattle.schedule.specs.Limits.{most_rows, row_places, most_pages, least_pace, most_pace, most_opening};
ghost use Rattle.schedule.specs.declared.Profile.TheVariants.{Ordering};
ghost use Rattle.schedule.specs.Columns.{at};
ghost use Rattle.schedule.specs.Filled.{Filled, from};
ghost use Rattle.pairs.specs.Pairs.{number_word};
ghost use Rattle.readers.specs.Rules.{rule_tests};
ghost use Rattle.outcomes.specs.Planning.{gives};
ghost use Rattle.running.specs.Words.{desk_words, count_in, opening_in, pages, running, keeps_pages};
ghost use Rattle.desk_pace.specs.Gathered.{length_left};
ghost use Rattle.desk_pace.specs.Paces.{left_by_pace, placed_back, time_by_pace, repaced_words, pace_call};

use refusals::Refusal;
use running::Layout;
use schedule::{Desk, Profile};

// The lengths by a pace of the rows of these numbers, from place 1 on.
fn lengths_left(
    desk: &[u32],
    pace: u32,
    rows: &[u32; Desk::PLACES],
    n: usize,
    column: &mut [u32; Desk::PLACES],
)
    requires { (n ≤ most_rows) × (least_pace ≤ pace) × (pace ≤ most_pace) × (desk_words ≤ length desk.now)
        × ((k : ℕ) → at rows.now k ≤ most_rows) × ((k : ℕ) → k < n → at desk.now (pages + at rows.now (k + 1)) ≤ most_pages)
        × (column.old ≡ replicate row_places 0) }
    ensures { Filled row_places (from 1) (length_left desk.now pace rows.now) n column.new }
{
    for k in 1..=n {
        column[k] = row_reader::length_of(desk[Layout::PAGES + rows[k] as usize], pace);
    }
}

// The own number word of a row that stands among others: theirs tells its place there.
fn own_place(rows: &[u32; Desk::PLACES], place: usize) -> usize
    requires { (place + 2 < 4 * row_places) × (1 ≤ at rows.now ((place + 2) / 4)) × (at rows.now ((place + 2) / 4) ≤ most_rows) }
    ensures { result ≡ number_word (at rows.now ((place + 2) / 4)) }
{
    let k = (place + 2) / 4;
    let row = rows[k] as usize;
    4 * (row - 1) + 2
}

// The test of the rows left, by their new lengths: the reader's, with each refusal told at the row's own number word.
fn left_tests(desk: &[u32], pace: u32) -> Result<(), Refusal>
    requires { (keeps_pages desk.now ≡ true) × (least_pace ≤ pace) × (pace ≤ most_pace) }
    ensures { result ≡ placed_back (running desk.now).left
        (rule_tests Ordering (left_by_pace (running desk.now) pace)) }
{
    let mut rows: [u32; Desk::PLACES] = [0; Desk::PLACES];
    let mut release: [u32; Desk::PLACES] = [0; Desk::PLACES];
    let mut minutes: [u32; Desk::PLACES] = [0; Desk::PLACES];
    let mut due: [u32; Desk::PLACES] = [0; Desk::PLACES];
    let count = rows_left::numbers_left(desk, &mut rows);
    rows_left::column_left(desk, Layout::RELEASES, &rows, count, &mut release);
    lengths_left(desk, pace, &rows, count, &mut minutes);
    rows_left::column_left(desk, Layout::DUES, &rows, count, &mut due);
    let rule = readers::rule_tests(Profile::Ordering, &release, &minutes, &due, count);
    match rule {
        Ok(()) => Ok(()),
        Err(refusal) => Err(Refusal {
            place: own_place(&rows, refusal.place),
            ..refusal
        }),
    }
}

// The times of all rows after the change, from place 1 on.
fn new_times(desk: &[u32], pace: u32, column: &mut [u32; Desk::PLACES])
    requires { (least_pace ≤ pace) × (pace ≤ most_pace) × (desk_words ≤ length desk.now) × (count_in desk.now ≤ most_rows)
        × (opening_in desk.now ≤ most_opening) × ((i : ℕ) → 1 ≤ i → i ≤ count_in desk.now → at desk.now (pages + i) ≤ most_pages)
        × (column.old ≡ replicate row_places 0) }
    ensures { Filled row_places (from 1) (λ k. time_by_pace desk.now pace (k + 1)) (count_in desk.now)
        column.new }
{
    let n = desk[Layout::COUNT] as usize;
    let opening = desk[Layout::OPENING];
    for i in 1..=n {
        let new = opening + row_reader::length_of(desk[Layout::PAGES + i], pace);
        column[i] = if desk[Layout::MARKS + i] == 0 {
            new
        } else {
            desk[Layout::TIMES + i]
        };
    }
}

// The words after the change.
fn store(desk: &mut [u32], pace: u32)
    requires { (keeps_pages desk.old ≡ true) × (least_pace ≤ pace) × (pace ≤ most_pace) }
    ensures { desk.new ≡ repaced_words desk.old pace }
{
    let mut times: [u32; Desk::PLACES] = [0; Desk::PLACES];
    new_times(desk, pace, &mut times);
    let n = desk[Layout::COUNT] as usize;
    running::put_column(desk, Layout::TIMES, &times, n);
}

// Changes the pace of a desk.
pub fn change(desk: &mut [u32], pace: u32) -> Result<(), Refusal>
    ensures { gives result desk.new ≡ pace_call desk.old pace }
{
    if !running::keeps_pages(desk) {
        return Err(Refusal {
            number: Refusal::RANGE,
            place: 0,
        });
    }
    if !(Desk::LEAST_PACE..=Desk::MOST_PACE).contains(&pace) {
        return Err(Refusal {
            number: Refusal::RANGE,
            place: 0,
        });
    }
    left_tests(desk, pace)?;
    store(desk, pace);
    Ok(())
}

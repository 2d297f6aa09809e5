// The rows left on a lent desk, gathered into columns: row numbers stand beside them.
#![tactic(auto)]

ghost use Rattle.std.specs.Prelude.{◌≡◌, true, cond, ℕ, ◌+◌, ◌≤◌, ◌<◌, length, set, replicate};
ghost use Rattle.schedule.specs.Limits.{most_rows, row_places, latest_minute, longest_time, latest_due, latest_stand};
ghost use Rattle.schedule.specs.Columns.{at, columns};
ghost use Rattle.schedule.specs.Filled.{Filled, from};
ghost use Rattle.rows.specs.InColumns.{Within};
ghost use Rattle.running.specs.Words.{desk_words, count_in, left_to};
ghost use Rattle.rows_left.specs.Gathered.{left_at, word_left, FitTested, Looked};

use running::Layout;
use schedule::{Desk, Profile};

// The longest time that a row takes, and the minute by which the rows left end.
const LONGEST_TIME: u32 = 30_030;

const LATEST_END: u32 = 27_687_680;

// The rows left of a desk: how many they are, their numbers from place 1 on, and their jobs in columns.
#[derive(Drop)]
pub struct Left {
    pub count: usize,
    pub rows: [u32; Desk::PLACES],
    pub release: [u32; Desk::PLACES],
    pub minutes: [u32; Desk::PLACES],
    pub due: [u32; Desk::PLACES],
}

// The numbers of the rows left, from place 1 on; how many they are.
pub fn numbers_left(desk: &[u32], rows: &mut [u32; Desk::PLACES]) -> usize
    requires { (desk_words ≤ length desk.now) × (count_in desk.now ≤ most_rows) × (rows.old ≡ replicate row_places 0) }
    ensures { (result ≡ length (left_to desk.now (count_in desk.now)))
        × Filled row_places (from 1) (left_at desk.now) result rows.new }
{
    let n = desk[Layout::COUNT] as usize;
    let mut m: usize = 0;
    for i in 1..=n {
        if desk[Layout::MARKS + i] == 0 {
            m += 1;
            rows[m] = i as u32;
        }
    }
    m
}

// What the rows of these numbers have in a column of the desk, from place 1 on.
pub fn column_left(
    desk: &[u32],
    before: usize,
    rows: &[u32; Desk::PLACES],
    n: usize,
    column: &mut [u32; Desk::PLACES],
)
    requires { (n ≤ most_rows) × (before + most_rows < desk_words) × (desk_words ≤ length desk.now)
        × ((k : ℕ) → at rows.now k ≤ most_rows) × (column.old ≡ replicate row_places 0) }
    ensures { Filled row_places (from 1) (word_left desk.now before rows.now) n column.new }
{
    for k in 1..=n {
        column[k] = desk[before + rows[k] as usize];
    }
}

// The rows in columns can be planned from a minute on: they end in time, and no two disagree.
fn can_plan<'a>(
    minute: u32,
    release: &'a [u32; Desk::PLACES],
    minutes: &'a [u32; Desk::PLACES],
    due: &'a [u32; Desk::PLACES],
    count: usize,
) -> bool
    requires { (minute ≤ latest_stand) × (count ≤ most_rows)
        × (length release.now ≡ row_places) × (length minutes.now ≡ row_places) × (length due.now ≡ row_places)
        × ((i : ℕ) → Within latest_minute longest_time latest_due (columns release.now minutes.now due.now i)) }
    ensures { FitTested minute (columns release.now minutes.now due.now) count result }
{
    let rule = readers::rule_tests(Profile::Ordering, release, minutes, due, count);
    rule.is_ok() && minute + LONGEST_TIME * (count as u32) <= LATEST_END
}

// A look at lent words: the rows left, where the words hold a desk whose rows left can be planned.
pub fn look(desk: &[u32]) -> Option<Left>
    ensures { Looked desk.now result }
{
    if !running::is_desk(desk) {
        return None;
    }
    let mut rows: [u32; Desk::PLACES] = [0; Desk::PLACES];
    let mut release: [u32; Desk::PLACES] = [0; Desk::PLACES];
    let mut minutes: [u32; Desk::PLACES] = [0; Desk::PLACES];
    let mut due: [u32; Desk::PLACES] = [0; Desk::PLACES];
    let count = numbers_left(desk, &mut rows);
    column_left(desk, Layout::RELEASES, &rows, count, &mut release);
    column_left(desk, Layout::TIMES, &rows, count, &mut minutes);
    column_left(desk, Layout::DUES, &rows, count, &mut due);
    if !can_plan(desk[Layout::MINUTE], &release, &minutes, &due, count) {
        return None;
    }
    Some(Left {
        count,
        rows,
        release,
        minutes,
        due,
    })
}

// A day of a month: what a book and the order that was posted for it come to. `day_result` is the one function offered: it has no
// `requires`, and its contract gives its result outright.
#![tactic(auto)]

ghost use Rattle.std.specs.Prelude.{◌≡◌, ℕ, ◌+◌, ◌≤◌, length, get_or};
ghost use Rattle.schedule.specs.Limits.{most_rows, longest_time};
ghost use Rattle.schedule.specs.declared.Profile.TheVariants.{Ordering};
ghost use Rattle.schedule.specs.Rows.{count_from};
ghost use Rattle.schedule.specs.Desk.{idle_of, lengths_of};
ghost use Rattle.schedule.specs.Columns.{columns};
ghost use Rattle.outcomes.specs.Outcomes.{verdict_outcome};
ghost use Rattle.outcomes.specs.Planning.{planning_in};
ghost use Rattle.outcomes.specs.Plannable.{Plannable};
ghost use Rattle.day_result.specs.DayResults.{result_of, day_result};
ghost use Rattle.day_result.specs.Lasting.{lasting};

use outcomes::Verdict;
use readers::Terms;
use schedule::{Desk, Profile};

// What a day comes to: refused, by its book or its posting; or the posting's idle minutes and worst lateness, and whether a listed plan
// beats it.
#[derive(Clone, Copy)]
pub enum DayResult {
    Refused,
    Unbeaten(u32, i32),
    Beaten(u32, i32),
}

// The times of rows 1 to n, added up.
fn times_of(minutes: &[u32; Desk::PLACES], n: usize) -> u32
    requires { (n ≤ most_rows) × ((i : ℕ) → get_or minutes.now i 0 ≤ longest_time) }
    ensures { result ≡ lengths_of (lasting minutes.now) (count_from 1 n) }
{
    minutes[1..=n].iter().sum()
}

// The idle minutes of a posting of rows 1 to n that ends at a minute: idle and all times make up what lies between the free minute and
// the end.
fn idle_by(minutes: &[u32; Desk::PLACES], n: usize, free: u32, end: u32) -> u32
    requires { (n ≤ most_rows) × ((i : ℕ) → get_or minutes.now i 0 ≤ longest_time) ×
        (free + lengths_of (lasting minutes.now) (count_from 1 n) ≤ end) }
    ensures { free + (result + lengths_of (lasting minutes.now) (count_from 1 n)) ≡ end }
{
    end - free - times_of(minutes, n)
}

// What a posting comes to, of rows in columns that can be planned.
fn result_in<'a>(
    release: &'a [u32; Desk::PLACES],
    minutes: &'a [u32; Desk::PLACES],
    due: &'a [u32; Desk::PLACES],
    n: usize,
    free: u32,
    posting: &[u32],
) -> DayResult
    requires { Plannable Ordering (columns release.now minutes.now due.now) free n }
    ensures { result ≡
        result_of (idle_of (columns release.now minutes.now due.now) free posting.now)
        (verdict_outcome (planning_in Ordering (columns release.now minutes.now due.now) free n)
        posting.now) }
{
    let Ok(verdict) = outcomes::verdict_in(
        Profile::Ordering,
        release,
        minutes,
        due,
        n,
        free,
        posting,
    ) else {
        return DayResult::Refused;
    };
    match verdict {
        Verdict::Unbeaten(end, late) => DayResult::Unbeaten(idle_by(minutes, n, free, end), late),
        Verdict::Beaten(end, late, _) => DayResult::Beaten(idle_by(minutes, n, free, end), late),
    }
}

// What a book and a posting come to: by the ordering rule, with no opening.
pub fn day_result(book: &[u32], posting: &[u32]) -> DayResult
    ensures { result ≡ day_result book.now posting.now }
{
    let terms = Terms {
        profile: Profile::Ordering,
        opening: 0,
    };
    let Ok(given) = readers::read(terms, book) else {
        return DayResult::Refused;
    };
    result_in(
        &given.columns.release,
        &given.columns.length,
        &given.columns.due,
        given.count,
        given.free,
        posting,
    )
}

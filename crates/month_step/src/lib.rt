// One turn of `month`: the day at the front of a window on the input is cut off, judged, and added to the totals.
#![tactic(auto)]

ghost use Rattle.std.specs.Prelude.{◌*◌, ◌≤◌, ◌<◌, length};
ghost use Rattle.month_input.specs.Layout.{cut_day};
ghost use Rattle.totals.specs.Held.{days, SumsFit};
ghost use Rattle.month_step.specs.Turns.{next_of, next_day};
ghost use Rattle.month_step.specs.Steps.{Stepped, StepWithin};

use month_input::{Extent, WORDS};
use totals::Totals;

// What a turn comes to: the totals with a day more, and the bytes that the day takes; the end of the input after a whole day; or something
// that is no day of the layout.
#[derive(Clone, Copy)]
pub enum Step {
    Taken(Totals, usize),
    End,
    Broken,
}

// The day at the start of the words of a window.
fn day_of(totals: Totals, words: &[u32]) -> Step
    requires { SumsFit totals × (days totals < 31) }
    ensures { Stepped totals (next_of (cut_day words.now)) result × StepWithin (4 * length words.now) result }
{
    let cut = month_input::cut_day(words);
    match cut {
        None => Step::Broken,
        Some(Extent { book, posting }) => {
            let book_end = book + 1;
            let start = book + 2;
            let end = start + posting;
            let result = day_result::day_result(&words[1..book_end], &words[start..end]);
            Step::Taken(totals.with_day(result), 4 * end)
        }
    }
}

// The next day of a month, from a window on the bytes that are left: all of them, or more than the longest day has.
pub fn take_day(totals: Totals, window: &[u8]) -> Step
    requires { SumsFit totals × (days totals ≤ 31) }
    ensures { Stepped totals (next_day (days totals) window.now) result × StepWithin (length window.now) result }
{
    if window.len() == 0 {
        return Step::End;
    }
    if totals.accepted + totals.refused == Totals::DAYS {
        return Step::Broken;
    }
    let mut words = [0u32; WORDS];
    let count = input::words_within(window, &mut words);
    day_of(totals, &words[..count])
}

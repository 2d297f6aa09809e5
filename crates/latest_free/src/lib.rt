// How late the desk can open: the call offered to a bureau, by the ordering rule. It is lent a book, has no `requires`, and its contract
// gives its whole outcome: the answer, and every word of the result buffer at exit.
#![tactic(auto)]

ghost use Rattle.std.specs.Prelude.{◌≡◌};
ghost use Rattle.schedule.specs.Limits.{latest_minute};
ghost use Rattle.schedule.specs.declared.Profile.TheVariants.{Ordering};
ghost use Rattle.schedule.specs.Rows.{count_from};
ghost use Rattle.schedule.specs.Offset.{lowered};
ghost use Rattle.schedule.specs.Columns.{columns};
ghost use Rattle.outcomes.specs.Planning.{gives};
ghost use Rattle.outcomes.specs.Plannable.{Plannable};
ghost use Rattle.latest_free.specs.Calls.{latest_outcome, latest_call};

use readers::Terms;
use refusals::Refusal;
use schedule::{Desk, Profile};

// What is answered: the latest free minute, and the end and worst lateness of the order from it.
#[derive(Clone, Copy)]
pub struct LatestStart {
    pub minute: u32,
    pub end: u32,
    pub late: i32,
}

// The latest free minute of rows in columns at which some order keeps a wanted end and lateness, both raised by 2^31; refused where the
// buffer is too short, or not even minute 0 allows both.
fn latest_in<'a>(
    release: &'a [u32; Desk::PLACES],
    minutes: &'a [u32; Desk::PLACES],
    due: &'a [u32; Desk::PLACES],
    n: usize,
    end: u32,
    bound: u32,
    res: &mut [u32],
) -> Result<LatestStart, Refusal>
    requires { Plannable Ordering (columns release.now minutes.now due.now) latest_minute n }
    ensures { gives result res.new ≡
        latest_outcome (columns release.now minutes.now due.now) (count_from 1 n) (lowered end)
        (lowered bound) res.old }
{
    if res.len() < n {
        return Err(Refusal {
            number: Refusal::NARROW,
            place: 0,
        });
    }
    let found = latest_search::latest_for(release, minutes, due, n, end, bound, res);
    let latest = found.ok_or(Refusal {
        number: Refusal::UNREACHABLE,
        place: 0,
    })?;
    Ok(LatestStart {
        minute: latest.minute,
        end: latest.end,
        late: schedule::lower(latest.late),
    })
}

// The latest free minute, from 0 to 10,000,000, at which some order of the rows keeps the wanted end and the wanted lateness; with the
// order for that lateness from it, and its own pair. The book's own free word is read and tested, and not used.
pub fn latest_free(
    opening: u32,
    book: &[u32],
    end: i32,
    late: i32,
    res: &mut [u32],
) -> Result<LatestStart, Refusal>
    ensures { gives result res.new ≡
        latest_call opening book.now end late res.old }
{
    let terms = Terms {
        profile: Profile::Ordering,
        opening,
    };
    let given = readers::read(terms, book)?;
    latest_in(
        &given.columns.release,
        &given.columns.length,
        &given.columns.due,
        given.count,
        schedule::raise(end),
        schedule::raise(late),
        res,
    )
}

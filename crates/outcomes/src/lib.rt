// What the calls give once it is known what is planned, of rows in plain columns by a profile, wherever the rows come from. Each contract
// gives the whole outcome: the answer, and every word of the result buffer at exit.
#![tactic(auto)]

ghost use Rattle.std.specs.Prelude.{◌≡◌, ◌≤◌, length, take};
ghost use Rattle.schedule.specs.Limits.{most_rows};
ghost use Rattle.schedule.specs.Plans.{first_beating};
ghost use Rattle.schedule.specs.Offset.{lowered};
ghost use Rattle.schedule.specs.Columns.{columns};
ghost use Rattle.listing.specs.Fronts.{pair_at, pairs_of};
ghost use Rattle.outcomes.specs.Outcomes.{judged_of, list_outcome, order_outcome, plan_outcome, verdict_outcome};
ghost use Rattle.outcomes.specs.Planning.{gives, planning_in};
ghost use Rattle.outcomes.specs.Plannable.{Plannable};

use refusals::Refusal;
use schedule::{Desk, Profile};

// What an order attains: its own end and worst lateness.
#[derive(Clone, Copy)]
pub struct Attained {
    pub end: u32,
    pub late: i32,
}

// The verdict on a posting: its own end and worst lateness, and the first listed plan that beats it.
#[derive(Clone, Copy)]
pub enum Verdict {
    Unbeaten(u32, i32),
    Beaten(u32, i32, usize),
}

// The list: for each plan two words, end and worst lateness in two's complement, by rising end; refused where the buffer is too short.
pub fn list_in<'a>(
    profile: Profile,
    release: &'a [u32; Desk::PLACES],
    minutes: &'a [u32; Desk::PLACES],
    due: &'a [u32; Desk::PLACES],
    n: usize,
    free: u32,
    res: &mut [u32],
) -> Result<usize, Refusal>
    requires { Plannable profile (columns release.now minutes.now due.now) free n }
    ensures { gives result res.new ≡
        list_outcome (planning_in profile (columns release.now minutes.now due.now) free n)
        res.old }
{
    if res.len() < 2 * n {
        return Err(Refusal {
            number: Refusal::NARROW,
            place: 0,
        });
    }
    let front = plans::list(profile, release, minutes, due, n, free);
    results::write_plans(&front.ends, &front.lates, front.count, res);
    Ok(front.count)
}

// The order for a raised bound of the rows in columns, with its own pair; refused where the buffer is too short or no order keeps the
// bound.
pub fn order_in<'a>(
    profile: Profile,
    release: &'a [u32; Desk::PLACES],
    minutes: &'a [u32; Desk::PLACES],
    due: &'a [u32; Desk::PLACES],
    n: usize,
    free: u32,
    bound: u32,
    res: &mut [u32],
) -> Result<Attained, Refusal>
    requires { Plannable profile (columns release.now minutes.now due.now) free n }
    ensures { gives result res.new ≡
        order_outcome (planning_in profile (columns release.now minutes.now due.now) free n)
        (lowered bound) res.old }
{
    if res.len() < n {
        return Err(Refusal {
            number: Refusal::NARROW,
            place: 0,
        });
    }
    let Some(desk) = plans::order_for(profile, release, minutes, due, n, free, bound, res) else {
        return Err(Refusal {
            number: Refusal::UNKEPT,
            place: 0,
        });
    };
    Ok(Attained {
        end: desk.minute,
        late: schedule::lower(desk.worst),
    })
}

// The order of a listed plan by its number from 1: the order for the bound equal to its lateness.
pub fn plan_in<'a>(
    profile: Profile,
    release: &'a [u32; Desk::PLACES],
    minutes: &'a [u32; Desk::PLACES],
    due: &'a [u32; Desk::PLACES],
    n: usize,
    free: u32,
    plan: u32,
    res: &mut [u32],
) -> Result<Attained, Refusal>
    requires { Plannable profile (columns release.now minutes.now due.now) free n }
    ensures { gives result res.new ≡
        plan_outcome (planning_in profile (columns release.now minutes.now due.now) free n)
        plan res.old }
{
    let front = plans::list(profile, release, minutes, due, n, free);
    let k = plan as usize;
    let count = front.count;
    if k == 0 {
        return Err(Refusal {
            number: Refusal::UNLISTED,
            place: count,
        });
    }
    if count < k {
        return Err(Refusal {
            number: Refusal::UNLISTED,
            place: count,
        });
    }
    let late = front.lates[k - 1];
    order_in(profile, release, minutes, due, n, free, late, res)
}

// The verdict on a posted order of row numbers: its own pair, and the first listed plan that beats it.
pub fn verdict_in<'a>(
    profile: Profile,
    release: &'a [u32; Desk::PLACES],
    minutes: &'a [u32; Desk::PLACES],
    due: &'a [u32; Desk::PLACES],
    n: usize,
    free: u32,
    posting: &[u32],
) -> Result<Verdict, Refusal>
    requires { Plannable profile (columns release.now minutes.now due.now) free n }
    ensures { result ≡
        verdict_outcome (planning_in profile (columns release.now minutes.now due.now) free n)
        posting.now }
{
    postings::posting_tests(n, posting)?;
    let front = plans::list(profile, release, minutes, due, n, free);
    let desk = plans::follow(release, minutes, due, free, posting);
    Ok(judge(&front.ends, &front.lates, front.count, desk))
}

// A desk after a posting, against the plans of two columns.
fn judge<'a>(
    ends: &'a [u32; Desk::ROWS],
    lates: &'a [u32; Desk::ROWS],
    count: usize,
    desk: Desk,
) -> Verdict
    requires { (count ≤ most_rows) × (length ends.now ≡ most_rows) × (length lates.now ≡ most_rows) }
    ensures { result ≡ judged_of (pair_at desk.minute desk.worst)
        (first_beating 1 (pairs_of (take count ends.now) (take count lates.now))
        (pair_at desk.minute desk.worst)) }
{
    let end = desk.minute;
    let late = schedule::lower(desk.worst);
    let plan = results::first_beating(ends, lates, count, end, desk.worst);
    if plan == 0 {
        return Verdict::Unbeaten(end, late);
    }
    Verdict::Beaten(end, late, plan)
}

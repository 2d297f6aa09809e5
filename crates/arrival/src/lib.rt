// The desk after rows in turn; and first come, first due: the one plan of rows in plain columns, by release, then due, then row.
// Rows are numbered from 1, so columns have 257 places; 0 stands for no row. Latenesses and bounds are raised by 2^31.
#![tactic(auto)]

ghost use Rattle.std.specs.Prelude.{ℕ, ◌≤◌, length, get_or};
ghost use Rattle.schedule.specs.Limits.{EndsInTime, most_rows};
ghost use Rattle.schedule.specs.Rows.{count_from};
ghost use Rattle.schedule.specs.Arrival.{arrival_for};
ghost use Rattle.schedule.specs.Profiles.{plans_by};
ghost use Rattle.schedule.specs.Offset.{lowered};
ghost use Rattle.schedule.specs.Columns.{at, columns, Limits};
ghost use Rattle.listing.specs.Fronts.{HoldsPlans};
ghost use Rattle.arrival.specs.Given.{OrderGiven, Followed, Arrived};

use listing::Front;
use schedule::{Desk, Profile};

// The one plan by arrival: its rows in the first places of `order`, and the desk after them.
#[derive(Drop)]
struct Plan {
    order: [u32; Desk::PLACES],
    desk: Desk,
}

// The desk after the rows of a posting in turn.
pub fn follow<'a>(
    release: &'a [u32; Desk::PLACES],
    minutes: &'a [u32; Desk::PLACES],
    due: &'a [u32; Desk::PLACES],
    free: u32,
    posting: &[u32],
) -> Desk
    requires limits { Limits (columns release.now minutes.now due.now) }
    requires ends_in_time { EndsInTime free (length posting.now) × (length posting.now ≤ most_rows) ×
        ((k : ℕ) → get_or posting.now k 0 ≤ most_rows) }
    ensures { Followed (columns release.now minutes.now due.now) free posting.now result }
{
    let mut desk = Desk::at(free);
    for row in posting {
        let i = *row as usize;
        desk = desk.take(release[i], minutes[i], due[i]);
    }
    desk
}

// The one plan by arrival.
fn arrive<'a>(
    release: &'a [u32; Desk::PLACES],
    minutes: &'a [u32; Desk::PLACES],
    due: &'a [u32; Desk::PLACES],
    n: usize,
    free: u32,
) -> Plan
    requires limits { Limits (columns release.now minutes.now due.now) }
    requires n_le_most_rows { (n ≤ most_rows) × EndsInTime free n }
    ensures { Arrived (columns release.now minutes.now due.now) free n result }
{
    let mut keys: [u64; Desk::ROWS] = [0; Desk::ROWS];
    let mut order: [u32; Desk::PLACES] = [0; Desk::PLACES];
    ranks::rows_by_arrival(release, due, n, &mut keys, &mut order);
    let desk = follow(release, minutes, due, free, &order[..n]);
    Plan { order, desk }
}

// The list by arrival: the one plan's pair.
pub fn list_by_arrival<'a>(
    release: &'a [u32; Desk::PLACES],
    minutes: &'a [u32; Desk::PLACES],
    due: &'a [u32; Desk::PLACES],
    n: usize,
    free: u32,
) -> Front
    requires limits { Limits (columns release.now minutes.now due.now) }
    requires le_n { (1 ≤ n) × (n ≤ most_rows) × EndsInTime free n }
    ensures { HoldsPlans (plans_by Profile.FirstCome
        (columns release.now minutes.now due.now) free (count_from 1 n)) n result }
{
    let plan = arrive(release, minutes, due, n, free);
    let mut ends: [u32; Desk::ROWS] = [0; Desk::ROWS];
    let mut lates: [u32; Desk::ROWS] = [0; Desk::ROWS];
    ends[0] = plan.desk.minute;
    lates[0] = plan.desk.worst;
    Front {
        count: 1,
        ends,
        lates,
    }
}

// The order for a bound by arrival: the one plan's, if its worst lateness is at most the bound. The answer is the desk after it.
pub fn order_by_arrival<'a>(
    release: &'a [u32; Desk::PLACES],
    minutes: &'a [u32; Desk::PLACES],
    due: &'a [u32; Desk::PLACES],
    n: usize,
    free: u32,
    bound: u32,
    out: &mut [u32],
) -> Option<Desk>
    requires limits { Limits (columns release.now minutes.now due.now) }
    requires le_n { (1 ≤ n) × (n ≤ most_rows) × EndsInTime free n × (n ≤ length out.old) }
    ensures { OrderGiven (columns release.now minutes.now due.now) free
        (arrival_for (columns release.now minutes.now due.now) free (count_from 1 n) (lowered bound))
        bound out.old result out.new }
{
    let plan = arrive(release, minutes, due, n, free);
    let desk = plan.desk;
    if bound < desk.worst {
        return None;
    }
    out[..n].copy_from_slice(&plan.order[..n]);
    Some(desk)
}

// Planning by a profile, of rows in plain columns: the list, the order for a bound, and the desk after a posting.
// Rows are numbered from 1, so columns have 257 places; 0 stands for no row. Latenesses and bounds are raised by 2^31.
// By the ordering rule the search goes over columns in the order of rank, which are made once a call; by arrival there is one plan.
#![tactic(auto)]

ghost use Rattle.std.specs.Prelude.{◌≡◌, ◌++◌, map, ℕ, ◌≤◌, ◌<◌, length, get_or, take, drop};
ghost use Rattle.schedule.specs.Limits.{EndsInTime, most_rows};
ghost use Rattle.schedule.specs.Rows.{count_from};
ghost use Rattle.schedule.specs.Plans.{plans};
ghost use Rattle.schedule.specs.Picks.{order_for};
ghost use Rattle.schedule.specs.Cover.{Agreeing};
ghost use Rattle.schedule.specs.Profiles.{Obeys, plans_by, order_by};
ghost use Rattle.schedule.specs.Offset.{lowered};
ghost use Rattle.schedule.specs.Columns.{at, columns, Limits};
ghost use Rattle.listing.specs.Fronts.{HoldsPlans};
ghost use Rattle.arrival.specs.Given.{OrderGiven, Followed};

use listing::Front;
use schedule::{Desk, Profile};

// The list of the rows 1 to n by the profile.
pub fn list<'a>(
    profile: Profile,
    release: &'a [u32; Desk::PLACES],
    minutes: &'a [u32; Desk::PLACES],
    due: &'a [u32; Desk::PLACES],
    n: usize,
    free: u32,
) -> Front
    requires limits { Limits (columns release.now minutes.now due.now) }
    requires le_n { (1 ≤ n) × (n ≤ most_rows) × EndsInTime free n ×
        Obeys profile (columns release.now minutes.now due.now) (count_from 1 n) }
    ensures { HoldsPlans (plans_by profile (columns release.now minutes.now due.now) free
        (count_from 1 n)) n result }
{
    match profile {
        Profile::FirstCome => arrival::list_by_arrival(release, minutes, due, n, free),
        Profile::Ordering => list_by_rank(release, minutes, due, n, free),
    }
}

// The order for a bound by the profile, written to the front of a lent buffer; a bound that is not kept leaves the buffer as it was.
pub fn order_for<'a>(
    profile: Profile,
    release: &'a [u32; Desk::PLACES],
    minutes: &'a [u32; Desk::PLACES],
    due: &'a [u32; Desk::PLACES],
    n: usize,
    free: u32,
    bound: u32,
    out: &mut [u32],
) -> Option<Desk>
    requires limits { Limits (columns release.now minutes.now due.now) }
    requires le_n { (1 ≤ n) × (n ≤ most_rows) × EndsInTime free n × (n ≤ length out.old) }
    ensures { OrderGiven (columns release.now minutes.now due.now) free
        (order_by profile (columns release.now minutes.now due.now) free (count_from 1 n) (lowered bound))
        bound out.old result out.new }
{
    match profile {
        Profile::FirstCome => arrival::order_by_arrival(release, minutes, due, n, free, bound, out),
        Profile::Ordering => order_by_rank(release, minutes, due, n, free, bound, out),
    }
}

// The desk after the rows of a posting in turn.
pub fn follow<'a>(
    release: &'a [u32; Desk::PLACES],
    minutes: &'a [u32; Desk::PLACES],
    due: &'a [u32; Desk::PLACES],
    free: u32,
    posting: &[u32],
) -> Desk
    requires limits { Limits (columns release.now minutes.now due.now) }
    requires ends_in_time { EndsInTime free (length posting.now) × (length posting.now ≤ most_rows) ×
        ((k : ℕ) → get_or posting.now k 0 ≤ most_rows) }
    ensures { Followed (columns release.now minutes.now due.now) free posting.now result }
{
    arrival::follow(release, minutes, due, free, posting)
}

// The list by the ordering rule: every plan.
fn list_by_rank<'a>(
    release: &'a [u32; Desk::PLACES],
    minutes: &'a [u32; Desk::PLACES],
    due: &'a [u32; Desk::PLACES],
    n: usize,
    free: u32,
) -> Front
    requires limits { Limits (columns release.now minutes.now due.now) }
    requires le_n { (1 ≤ n) × (n ≤ most_rows) × EndsInTime free n × Agreeing (columns release.now minutes.now due.now) (count_from 1 n) }
    ensures { HoldsPlans (plans (columns release.now minutes.now due.now) free (count_from 1 n)) n
        result }
{
    let mut rows: [u32; Desk::PLACES] = [0; Desk::PLACES];
    let mut releases: [u32; Desk::PLACES] = [0; Desk::PLACES];
    let mut lengths: [u32; Desk::PLACES] = [0; Desk::PLACES];
    let mut dues: [u32; Desk::PLACES] = [0; Desk::PLACES];
    let mut by: [u32; Desk::PLACES] = [0; Desk::PLACES];
    ranks::tables(
        release,
        minutes,
        due,
        n,
        &mut rows,
        &mut releases,
        &mut lengths,
        &mut dues,
        &mut by,
    );
    listing::list_ranked(&releases, &lengths, &dues, &by, n, free)
}

// The order for a bound by the ordering rule.
fn order_by_rank<'a>(
    release: &'a [u32; Desk::PLACES],
    minutes: &'a [u32; Desk::PLACES],
    due: &'a [u32; Desk::PLACES],
    n: usize,
    free: u32,
    bound: u32,
    out: &mut [u32],
) -> Option<Desk>
    requires limits { Limits (columns release.now minutes.now due.now) }
    requires le_n { (1 ≤ n) × (n ≤ most_rows) × EndsInTime free n × (n ≤ length out.old) }
    ensures { OrderGiven (columns release.now minutes.now due.now) free
        (order_for (columns release.now minutes.now due.now) free (count_from 1 n) (lowered bound))
        bound out.old result out.new }
{
    let mut rows: [u32; Desk::PLACES] = [0; Desk::PLACES];
    let mut releases: [u32; Desk::PLACES] = [0; Desk::PLACES];
    let mut lengths: [u32; Desk::PLACES] = [0; Desk::PLACES];
    let mut dues: [u32; Desk::PLACES] = [0; Desk::PLACES];
    let mut by: [u32; Desk::PLACES] = [0; Desk::PLACES];
    ranks::tables(
        release,
        minutes,
        due,
        n,
        &mut rows,
        &mut releases,
        &mut lengths,
        &mut dues,
        &mut by,
    );
    let mut order: [u32; Desk::ROWS] = [0; Desk::ROWS];
    let s = search::plan_for(&releases, &lengths, &dues, &by, n, free, bound, &mut order);
    if bound < s.desk.worst {
        return None;
    }
    write_order(&order, &rows, n, out);
    Some(s.desk)
}

// The rows of the first k ranks of an order, into a lent buffer.
pub fn write_order(order: &[u32; Desk::ROWS], rows: &[u32; Desk::PLACES], k: usize, out: &mut [u32])
    requires { (k ≤ most_rows) × (k ≤ length out.old) × (length order.now ≡ most_rows) ×
        ((i : ℕ) → i < k → at order.now i ≤ most_rows) }
    ensures { out.new ≡ map (at rows.now) (take k order.now) ++ drop k out.old }
{
    for i in 0..k {
        out[i] = rows[order[i] as usize];
    }
}

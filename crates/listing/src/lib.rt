// The list of plans of rows that stand by rank, where a row's number is its rank: found with ever smaller bounds, along a trail of blocks.
// Rows are numbered from 1, so columns have 257 places; 0 stands for no row. Latenesses and bounds are raised by 2^31.
#![tactic(auto)]

ghost use Rattle.std.specs.Prelude.{◌≡◌, length, ◌≤◌, ◌<◌};
ghost use Rattle.schedule.specs.Limits.{EndsInTime, most_rows};
ghost use Rattle.schedule.specs.Rows.{count_from};
ghost use Rattle.schedule.specs.Plans.{plans};
ghost use Rattle.schedule.specs.Cover.{Agreeing};
ghost use Rattle.schedule.specs.Columns.{at, columns, Limits};
ghost use Rattle.picks.specs.Standing.{Tables};
ghost use Rattle.listing.specs.PlanFor.{answer_of};
ghost use Rattle.listing.specs.Fronts.{pair_place, put_pair, HoldsPlans};

use schedule::Desk;

// The list of plans: the end of each, and its lateness, raised.
#[derive(Drop)]
pub struct Front {
    pub count: usize,
    pub ends: [u32; Desk::ROWS],
    pub lates: [u32; Desk::ROWS],
}

// The largest bound: the largest signed 32-bit number, raised by 2^31.
const LARGEST_BOUND: u32 = 4_294_967_295;

// The rows up to which a day is small, and up to which it is of middle size.
const SMALL_DAY: usize = 24;

const MIDDLE_DAY: usize = 64;

// The place of the next pair on the list: that of the last pair where both have one end, otherwise the place after it.
fn pair_place(ends: &[u32; Desk::ROWS], count: usize, end: u32) -> usize
    requires { count ≤ most_rows }
    ensures { result ≡ pair_place ends.now count end }
{
    if count > 0 && ends[count - 1] == end {
        count - 1
    } else {
        count
    }
}

// The list with one pair more, which takes the place of the last pair where both have one end; and the pairs there are then.
fn put_pair(
    ends: &mut [u32; Desk::ROWS],
    lates: &mut [u32; Desk::ROWS],
    count: usize,
    end: u32,
    late: u32,
) -> usize
    requires { (count ≤ most_rows) × (pair_place ends.old count end < most_rows) }
    ensures { record { count = result; ends = ends.new; lates = lates.new } ≡ put_pair
        (record { count = count; ends = ends.old; lates = lates.old }) end late }
{
    let k = pair_place(ends, count, end);
    ends[k] = end;
    lates[k] = late;
    k + 1
}

// What a desk without rows left over answers for a bound: itself, where its worst lateness is within the bound.
fn answer(desk: Desk, bound: u32) -> Option<Desk>
    ensures { result ≡ answer_of desk bound }
{
    if desk.worst <= bound {
        Some(desk)
    } else {
        None
    }
}

// The list of rows that stand by rank, with a trail of as many places as rows at least.
fn list_along(
    release: &[u32; Desk::PLACES],
    minutes: &[u32; Desk::PLACES],
    due: &[u32; Desk::PLACES],
    by: &[u32; Desk::PLACES],
    n: usize,
    free: u32,
    trail: &mut [[u64; 10]],
) -> Front
    requires limits { Limits (columns release.now minutes.now due.now) }
    requires tables { Tables n (columns release.now minutes.now due.now) (at by.now) }
    requires le_n { (1 ≤ n) × EndsInTime free n × (n ≤ length trail.old) ×
        Agreeing (columns release.now minutes.now due.now) (count_from 1 n) }
    ensures { HoldsPlans (plans (columns release.now minutes.now due.now) free (count_from 1 n)) n
        result }
{
    let mut order: [u32; Desk::ROWS] = [0; Desk::ROWS];
    let mut ends: [u32; Desk::ROWS] = [0; Desk::ROWS];
    let mut lates: [u32; Desk::ROWS] = [0; Desk::ROWS];
    let mut count: usize = 0;
    let mut bound: u32 = LARGEST_BOUND;
    let mut reached = trail::set_out(release, minutes, due, by, n, free, bound, &mut order, trail);
    loop {
        let Some(desk) = answer(reached.at.desk, bound) else {
            return Front { count, ends, lates };
        };
        count = put_pair(&mut ends, &mut lates, count, desk.minute, desk.worst);
        bound = desk.worst - 1;
        reached = trail::resume(
            release, minutes, due, by, n, reached, bound, &mut order, trail,
        );
    }
}

// The list of rows that stand by rank. A small day gets a small trail, which is sooner laid out.
pub fn list_ranked(
    release: &[u32; Desk::PLACES],
    minutes: &[u32; Desk::PLACES],
    due: &[u32; Desk::PLACES],
    by: &[u32; Desk::PLACES],
    n: usize,
    free: u32,
) -> Front
    requires limits { Limits (columns release.now minutes.now due.now) }
    requires tables { Tables n (columns release.now minutes.now due.now) (at by.now) }
    requires le_n { (1 ≤ n) × EndsInTime free n × Agreeing (columns release.now minutes.now due.now) (count_from 1 n) }
    ensures { HoldsPlans (plans (columns release.now minutes.now due.now) free (count_from 1 n)) n
        result }
{
    if n <= SMALL_DAY {
        let mut trail: [[u64; 10]; SMALL_DAY] = [[0; 10]; SMALL_DAY];
        return list_along(release, minutes, due, by, n, free, &mut trail);
    }
    if n <= MIDDLE_DAY {
        let mut trail: [[u64; 10]; MIDDLE_DAY] = [[0; 10]; MIDDLE_DAY];
        return list_along(release, minutes, due, by, n, free, &mut trail);
    }
    let mut trail: [[u64; 10]; Desk::ROWS] = [[0; 10]; Desk::ROWS];
    list_along(release, minutes, due, by, n, free, &mut trail)
}

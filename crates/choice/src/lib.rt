// The plans that several desks take within one overtime limit, of their lists in columns: ends and latenesses, the latter raised by 2^31.
#![tactic(auto)]

ghost use Rattle.std.specs.Prelude.{◌≡◌, ◌≤◌, length, take};
ghost use Rattle.schedule.specs.Limits.{most_rows, most_desks};
ghost use Rattle.schedule.specs.Offset.{lowered};
ghost use Rattle.overtime.specs.Choices.{overtime, first_plans};
ghost use Rattle.choice.specs.Lists.{place_within, taken_of, best_of, lists_in, Listed, Behind};

use schedule::Desk;

// The limits of several desks, and the columns that hold what is read of them.
#[derive(Clone, Copy)]
pub struct Desks {}

impl Desks {
    pub const MOST: usize = 8;

    // The latest closing minute, and the largest overtime limit.
    pub const CLOSING: u32 = 20_000_000;

    pub const LIMIT: u32 = 200_000_000;

    // The columns of their lists: desk d, counted from 0, has its ends in column 2 * d and its latenesses in the next.
    pub const FRONTS: usize = 16;

    // The columns of their rows: desk d has its releases in column 3 * d, the times at the desk and the dues in the next two.
    pub const COLUMNS: usize = 24;
}

// What a plan for each desk comes to: their greatest lateness, raised by 2^31, and their overtimes added up.
#[derive(Clone, Copy)]
pub struct Taken {
    pub late: u32,
    pub overtime: u64,
}

// The largest bound: the largest signed 32-bit number, raised by 2^31.
const LARGEST_BOUND: u32 = 4_294_967_295;

// The first place, from `from` on, of a lateness within the bound; or the count. No place before `from` has one.
pub fn place_within(lates: &[u32; Desk::ROWS], from: usize, count: usize, bound: u32) -> usize
    requires { (count ≤ most_rows) × (length lates.now ≡ most_rows) × (from ≤ place_within bound (take count lates.now)) }
    ensures { result ≡ place_within bound (take count lates.now) }
{
    for k in from..count {
        if lates[k] <= bound {
            return k;
        }
    }
    count
}

// How far an end passes closing, or 0.
fn over(end: u32, closing: u32) -> u32
    ensures { result ≡ overtime end closing }
{
    end.saturating_sub(closing)
}

// Each desk's first listed plan within the bound, or none where one has none. The cursor of each desk goes forward to it, never past it.
fn first_plans(
    plans: &[usize; Desks::MOST],
    fronts: &[[u32; Desk::ROWS]; Desks::FRONTS],
    closings: &[u32],
    bound: u32,
    cursors: &mut [usize; Desks::MOST],
) -> Option<Taken>
    requires { (1 ≤ length closings.now) × (length closings.now ≤ most_desks) ×
        Listed plans.now fronts.now (length closings.now) ×
        Behind plans.now fronts.now (length closings.now) bound cursors.old }
    ensures { (result ≡ taken_of closings.now
        (first_plans (lowered bound) (lists_in plans.now fronts.now (length closings.now)))) ×
        Behind plans.now fronts.now (length closings.now) bound cursors.new }
{
    let mut late: u32 = 0;
    let mut overtime: u64 = 0;
    for (d, closing) in closings.iter().enumerate() {
        let count = plans[d];
        let k = place_within(&fronts[2 * d + 1], cursors[d], count, bound);
        if k == count {
            return None;
        }
        cursors[d] = k;
        late = late.max(fronts[2 * d + 1][k]);
        overtime += u64::from(over(fronts[2 * d][k], *closing));
    }
    Some(Taken { late, overtime })
}

// The plans at the least lateness at which the first plans keep the limit, found with ever smaller bounds.
pub fn choose(
    plans: &[usize; Desks::MOST],
    fronts: &[[u32; Desk::ROWS]; Desks::FRONTS],
    closings: &[u32],
    limit: u32,
) -> Option<Taken>
    requires { (1 ≤ length closings.now) × (length closings.now ≤ most_desks) ×
        Listed plans.now fronts.now (length closings.now) }
    ensures { result ≡ best_of limit closings.now
        (lists_in plans.now fronts.now (length closings.now)) }
{
    let mut cursors = [0; Desks::MOST];
    let mut best = None;
    let mut bound = LARGEST_BOUND;
    while let Some(taken) = first_plans(plans, fronts, closings, bound, &mut cursors) {
        if u64::from(limit) < taken.overtime {
            return best;
        }
        best = Some(taken);
        bound = taken.late - 1;
    }
    best
}

// The orders of several desks, written desk after desk.
#![tactic(auto)]

ghost use Rattle.std.specs.Prelude.{◌≡◌, ◌≤◌, length};
ghost use mathlib.Core.List.{flatten};
ghost use Rattle.schedule.specs.Limits.{most_desks};
ghost use Rattle.results.specs.Results.{written};
ghost use Rattle.several_orders.specs.Orders.{rows_to, orders_to, CanOrder};

use choice::Desks;
use schedule::{Desk, Profile};

// The orders of all desks, desk after desk: that of each desk's first listed plan within the bound.
pub fn write_orders(
    free: &[u32; Desks::MOST],
    rows: &[usize; Desks::MOST],
    plans: &[usize; Desks::MOST],
    columns: &[[u32; Desk::PLACES]; Desks::COLUMNS],
    fronts: &[[u32; Desk::ROWS]; Desks::FRONTS],
    desks: usize,
    bound: u32,
    res: &mut [u32],
)
    requires { (desks ≤ most_desks) × CanOrder free.now rows.now plans.now columns.now fronts.now bound desks ×
        (rows_to rows.now desks ≤ length res.old) }
    ensures { res.new ≡
        written (flatten (orders_to free.now rows.now plans.now columns.now fronts.now
        bound desks)) res.old }
{
    let mut at: usize = 0;
    for d in 0..desks {
        let k = choice::place_within(&fronts[2 * d + 1], 0, plans[d], bound);
        let late = fronts[2 * d + 1][k];
        plans::order_for(
            Profile::Ordering,
            &columns[3 * d],
            &columns[3 * d + 1],
            &columns[3 * d + 2],
            rows[d],
            free[d],
            late,
            &mut res[at..],
        );
        at += rows[d];
    }
}

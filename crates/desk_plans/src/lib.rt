// The plans of an open desk: the list of the rows left, and the order of a listed plan.
#![tactic(auto)]

ghost use Rattle.std.specs.Prelude.{◌≡◌, ◌++◌, map, ℕ, ◌≤◌, ◌<◌, length, take, drop};
ghost use Rattle.schedule.specs.Limits.{most_rows};
ghost use Rattle.schedule.specs.Columns.{at};
ghost use Rattle.outcomes.specs.Planning.{gives};
ghost use Rattle.desk_plans.specs.Plans.{desk_list_call, desk_plan_call};

use outcomes::Attained;
use refusals::Refusal;
use running::Layout;
use schedule::{Desk, Profile};

// The first n words are places: their rows in their stead.
fn put_rows(rows: &[u32; Desk::PLACES], n: usize, res: &mut [u32])
    requires { (n ≤ length res.old) × ((i : ℕ) → i < n → at res.old i ≤ most_rows) }
    ensures { res.new ≡
        map (at rows.now) (take n res.old) ++ drop n res.old }
{
    for place in &mut res[..n] {
        *place = rows[*place as usize];
    }
}

// The list of the rows left from the desk's minute on: for each plan two words, end and worst lateness in two's complement, by rising end.
pub fn list(desk: &[u32], res: &mut [u32]) -> Result<usize, Refusal>
    ensures { gives result res.new ≡ desk_list_call desk.now res.old }
{
    let Some(left) = rows_left::look(desk) else {
        return Err(Refusal {
            number: Refusal::RANGE,
            place: 0,
        });
    };
    if left.count == 0 {
        return Ok(0);
    }
    outcomes::list_in(
        Profile::Ordering,
        &left.release,
        &left.minutes,
        &left.due,
        left.count,
        desk[Layout::MINUTE],
        res,
    )
}

// The order of a listed plan by its number from 1, as row numbers, with its own end and worst lateness.
pub fn order_of_plan(desk: &[u32], plan: u32, res: &mut [u32]) -> Result<Attained, Refusal>
    ensures { gives result res.new ≡ desk_plan_call desk.now plan res.old }
{
    let Some(left) = rows_left::look(desk) else {
        return Err(Refusal {
            number: Refusal::RANGE,
            place: 0,
        });
    };
    let n = left.count;
    if n == 0 {
        return Err(Refusal {
            number: Refusal::UNLISTED,
            place: 0,
        });
    }
    let minute = desk[Layout::MINUTE];
    let attained = outcomes::plan_in(
        Profile::Ordering,
        &left.release,
        &left.minutes,
        &left.due,
        n,
        minute,
        plan,
        res,
    )?;
    put_rows(&left.rows, n, res);
    Ok(attained)
}

// Several desks, one overtime limit: the call offered to a bureau that plans its desks together. It has no `requires`, and its contract
// gives its whole outcome: the answer, and every word of the result buffer at exit.
#![tactic(auto)]

ghost use Rattle.std.specs.Prelude.{◌≡◌, List, ℕ, ◌≤◌, length};
ghost use Rattle.schedule.specs.Limits.{most_desks};
ghost use Rattle.schedule.specs.Rows.{Day};
ghost use Rattle.outcomes.specs.Planning.{gives};
ghost use Rattle.several_books.specs.Held.{refusal_of};
ghost use Rattle.several.specs.Ready.{DaysReady};
ghost use Rattle.several.specs.Calls.{days_outcome, several_call};

use choice::Desks;
use refusals::Refusal;
use schedule::Desk;
use several_books::DeskRefusal;

// What the orders that are chosen come to: the least greatest lateness, and the overtimes added up.
#[derive(Clone, Copy)]
pub struct Chosen {
    pub late: i32,
    pub overtime: u32,
}

// The refusal with this number where no single word and no single desk is to blame.
fn refused(number: u32) -> DeskRefusal
    ensures { result ≡ refusal_of number 0 0 }
{
    let refusal = Refusal { number, place: 0 };
    DeskRefusal { refusal, desk: 0 }
}

// The answer for desks whose books are all read: the buffer is tested, then the plans are chosen, and their orders written.
fn days_answer(
    free: &[u32; Desks::MOST],
    rows: &[usize; Desks::MOST],
    plans: &[usize; Desks::MOST],
    columns: &[[u32; Desk::PLACES]; Desks::COLUMNS],
    fronts: &[[u32; Desk::ROWS]; Desks::FRONTS],
    total: usize,
    closings: &[u32],
    limit: u32,
    res: &mut [u32],
) -> Result<Chosen, DeskRefusal>
    requires { (1 ≤ length closings.now) × (length closings.now ≤ most_desks) × ((opening : ℕ) × (ds : List Day) ×
        DaysReady opening ds free.now rows.now plans.now columns.now fronts.now (length closings.now) total) }
    ensures { (opening : ℕ) (ds : List Day) → DaysReady opening ds free.now rows.now plans.now
        columns.now fronts.now (length closings.now) total →
        gives result res.new ≡ days_outcome opening closings.now limit res.old ds }
{
    if res.len() < total {
        return Err(refused(Refusal::NARROW));
    }
    let Some(taken) = choice::choose(plans, fronts, closings, limit) else {
        return Err(refused(Refusal::OVERTIME));
    };
    several_orders::write_orders(
        free,
        rows,
        plans,
        columns,
        fronts,
        closings.len(),
        taken.late,
        res,
    );
    Ok(Chosen {
        late: schedule::lower(taken.late),
        overtime: taken.overtime as u32,
    })
}

// Of 1 to 8 desks, the orders that make the greatest lateness over all desks least, with overtimes that add up to at most the limit.
pub fn several(
    opening: u32,
    books: &[u32],
    lengths: &[u32],
    closings: &[u32],
    limit: u32,
    res: &mut [u32],
) -> Result<Chosen, DeskRefusal>
    ensures { gives result res.new ≡
        several_call opening books.now lengths.now closings.now limit res.old }
{
    if several_lent::lent_amiss(opening, books.len(), lengths, closings, limit) {
        return Err(refused(Refusal::RANGE));
    }
    let mut free: [u32; Desks::MOST] = [0; Desks::MOST];
    let mut rows: [usize; Desks::MOST] = [0; Desks::MOST];
    let mut plans: [usize; Desks::MOST] = [0; Desks::MOST];
    let mut columns: [[u32; Desk::PLACES]; Desks::COLUMNS] = [[0; Desk::PLACES]; Desks::COLUMNS];
    let mut fronts: [[u32; Desk::ROWS]; Desks::FRONTS] = [[0; Desk::ROWS]; Desks::FRONTS];
    let total = several_books::read_desks(
        opening,
        books,
        lengths,
        &mut free,
        &mut rows,
        &mut plans,
        &mut columns,
        &mut fronts,
    )?;
    days_answer(
        &free, &rows, &plans, &columns, &fronts, total, closings, limit, res,
    )
}

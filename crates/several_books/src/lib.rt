// The books of several desks, lent end to end in one run: the rows and the list of each desk, read desk by desk.
#![tactic(auto)]

ghost use Rattle.std.specs.Prelude.{◌≡◌, ◌≤◌, ◌<◌, length};
ghost use Rattle.schedule.specs.Limits.{most_desks};
ghost use Rattle.readers.specs.Reads.{ordering_rule};
ghost use Rattle.several_lent.specs.Lent.{books_of, total};
ghost use Rattle.several_books.specs.Held.{RoomForDesks, ReadInto, ReadAll};

use choice::Desks;
use readers::Terms;
use refusals::Refusal;
use schedule::{Desk, Profile};

// Why a call for several desks is turned down: a refusal, and the desk that it concerns, counted from 1, 0 for none.
#[derive(Clone, Copy)]
pub struct DeskRefusal {
    pub refusal: Refusal,
    pub desk: u32,
}

// The book of desk d, counted from 0: its rows and its list into their columns, or the refusal.
fn read_into(
    opening: u32,
    book: &[u32],
    d: usize,
    free: &mut [u32; Desks::MOST],
    rows: &mut [usize; Desks::MOST],
    plans: &mut [usize; Desks::MOST],
    columns: &mut [[u32; Desk::PLACES]; Desks::COLUMNS],
    fronts: &mut [[u32; Desk::ROWS]; Desks::FRONTS],
) -> Result<(), Refusal>
    requires { (d < most_desks) × RoomForDesks free.old rows.old plans.old columns.old fronts.old }
    ensures { ReadInto (ordering_rule opening) book.now d
        free.old rows.old plans.old columns.old fronts.old
        free.new rows.new plans.new columns.new fronts.new result }
{
    let terms = Terms {
        profile: Profile::Ordering,
        opening,
    };
    let given = readers::read(terms, book)?;
    let release = given.columns.release;
    let minutes = given.columns.length;
    let due = given.columns.due;
    let front = plans::list(
        Profile::Ordering,
        &release,
        &minutes,
        &due,
        given.count,
        given.free,
    );
    let ends = front.ends;
    let lates = front.lates;
    free[d] = given.free;
    rows[d] = given.count;
    plans[d] = front.count;
    columns[3 * d] = release;
    columns[3 * d + 1] = minutes;
    columns[3 * d + 2] = due;
    fronts[2 * d] = ends;
    fronts[2 * d + 1] = lates;
    Ok(())
}

// The books of all desks, each a part of the run: their rows and lists into columns, and the count of all rows; or the first refusal.
pub fn read_desks(
    opening: u32,
    books: &[u32],
    lengths: &[u32],
    free: &mut [u32; Desks::MOST],
    rows: &mut [usize; Desks::MOST],
    plans: &mut [usize; Desks::MOST],
    columns: &mut [[u32; Desk::PLACES]; Desks::COLUMNS],
    fronts: &mut [[u32; Desk::ROWS]; Desks::FRONTS],
) -> Result<usize, DeskRefusal>
    requires { (length lengths.now ≤ most_desks) × (total lengths.now ≡ length books.now) ×
        RoomForDesks free.old rows.old plans.old columns.old fronts.old }
    ensures { ReadAll (ordering_rule opening) (books_of lengths.now books.now)
        free.new rows.new plans.new columns.new fronts.new result }
{
    let mut total: usize = 0;
    let mut at: usize = 0;
    for (d, length) in lengths.iter().enumerate() {
        let next = at + (*length as usize);
        let desk = (d + 1) as u32;
        let outcome = read_into(
            opening,
            &books[at..next],
            d,
            free,
            rows,
            plans,
            columns,
            fronts,
        );
        outcome.map_err(|refusal| DeskRefusal { refusal, desk })?;
        total += rows[d];
        at = next;
    }
    Ok(total)
}

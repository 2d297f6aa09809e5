// Opening a desk: the rows of an accepted book into a lent run of words.
#![tactic(auto)]

ghost use Rattle.std.specs.Prelude.{◌≡◌, ℕ, ◌≤◌, List, [], ◌∷◌, length, replicate};
ghost use Rattle.schedule.specs.Limits.{most_rows, row_places};
ghost use Rattle.schedule.specs.declared.Row.{Row};
ghost use Rattle.schedule.specs.Rows.{row, job, with_opening};
ghost use Rattle.schedule.specs.Columns.{at, columns};
ghost use Rattle.results.specs.Results.{written};
ghost use Rattle.running.specs.Words.{desk_words, put};
ghost use Rattle.outcomes.specs.Planning.{gives};
ghost use Rattle.desk_open.specs.Opens.{opened_words, open_call};

use readers::Terms;
use refusals::Refusal;
use running::Layout;
use schedule::{Desk, Profile};

// A desk that was opened: the count of its rows, and its minute.
#[derive(Clone, Copy)]
pub struct Opened {
    pub rows: usize,
    pub minute: u32,
}

// The head of a desk that is opened, and no number yet in any other word.
fn put_head(desk: &mut [u32], count: u32, minute: u32, opening: u32)
    requires { desk_words ≤ length desk.old }
    ensures { desk.new ≡ written (put 0 (count ∷ minute ∷ 0 ∷ opening ∷ []) (replicate desk_words 0)) desk.old }
{
    desk[..Layout::WORDS].fill(0);
    desk[Layout::COUNT] = count;
    desk[Layout::MINUTE] = minute;
    desk[Layout::OPENING] = opening;
}

// The words of a desk that a day opens: the head, then one column after another. The day has any rows of which planning sees these jobs,
// and which have these pages.
fn put_day<'a>(
    desk: &mut [u32],
    opening: u32,
    free: u32,
    release: &'a [u32; Desk::PLACES],
    minutes: &'a [u32; Desk::PLACES],
    due: &'a [u32; Desk::PLACES],
    pages: &'a [u32; Desk::PLACES],
    n: usize,
)
    requires { (n ≤ most_rows) × (desk_words ≤ length desk.old) ×
        (length release.now ≡ row_places) × (length minutes.now ≡ row_places) × (length due.now ≡ row_places) ×
        (length pages.now ≡ row_places) }
    ensures { (rows : List Row) → length rows ≡ n →
        ((i : ℕ) → 1 ≤ i → i ≤ n →
        columns release.now minutes.now due.now i ≡ with_opening opening (job rows i)) →
        ((i : ℕ) → 1 ≤ i → i ≤ n → at pages.now i ≡ (row rows i).pages) →
        desk.new ≡ written (opened_words opening (record { free = free; rows = rows })) desk.old }
{
    put_head(desk, n as u32, free, opening);
    running::put_column(desk, Layout::PAGES, pages, n);
    running::put_column(desk, Layout::DUES, due, n);
    running::put_column(desk, Layout::TIMES, minutes, n);
    running::put_column(desk, Layout::RELEASES, release, n);
}

// Opens a desk with a book.
pub fn open(opening: u32, book: &[u32], desk: &mut [u32]) -> Result<Opened, Refusal>
    ensures { gives result desk.new ≡ open_call opening book.now desk.old }
{
    let terms = Terms {
        profile: Profile::Ordering,
        opening,
    };
    let given = readers::read(terms, book)?;
    if desk.len() < Layout::WORDS {
        return Err(Refusal {
            number: Refusal::NARROW,
            place: 0,
        });
    }
    let count = given.count;
    put_day(
        desk,
        opening,
        given.free,
        &given.columns.release,
        &given.columns.length,
        &given.columns.due,
        &given.columns.pages,
        count,
    );
    Ok(Opened {
        rows: count,
        minute: given.free,
    })
}

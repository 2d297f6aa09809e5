// The latest free minute from which some order keeps a wanted end and a wanted lateness, of rows in plain columns by the ordering rule.
// Rows are numbered from 1, so columns have 257 places; 0 stands for no row. Latenesses, bounds and the wanted end are raised by 2^31.
// The working tables are made once a call. The minute is found by halving, with one search for the order for the bound at each minute
// that is tried: at most 25.
#![tactic(auto)]

ghost use Rattle.std.specs.Prelude.{◌≡◌, ◌&&◌, ◌+◌, ◌≤◌, leb, length};
ghost use Rattle.schedule.specs.Limits.{most_rows};
ghost use Rattle.schedule.specs.Rows.{count_from};
ghost use Rattle.schedule.specs.Cover.{Agreeing};
ghost use Rattle.schedule.specs.Offset.{lowered};
ghost use Rattle.schedule.specs.Columns.{at, columns, Limits};
ghost use Rattle.picks.specs.Standing.{Tables};
ghost use Rattle.how_late.specs.Latest.{latest_order};
ghost use Rattle.latest_search.specs.Found.{Halved, LatestGiven};

use schedule::Desk;

// The latest free minute, with the end and the raised worst lateness of its order.
#[derive(Clone, Copy)]
pub struct Latest {
    pub minute: u32,
    pub end: u32,
    pub late: u32,
}

// What halving the minutes comes to: the latest minute, the desk after its order, and the order.
#[derive(Drop)]
pub struct Halving {
    pub minute: u32,
    pub desk: Desk,
    pub order: [u32; Desk::ROWS],
}

// A desk after an order keeps both: its worst lateness the bound, and its minute the wanted end.
fn keeps_both(desk: Desk, end: u32, bound: u32) -> bool
    ensures { result ≡ (leb desk.worst bound && leb (desk.minute + 2147483648) end) }
{
    desk.worst <= bound && u64::from(desk.minute) + 2_147_483_648 <= u64::from(end)
}

// The latest minute at which the order for the bound keeps both, of rows by rank: `low` does, and no minute past `high`. There is none
// where not even minute 0 does.
fn halve(
    release: &[u32; Desk::PLACES],
    minutes: &[u32; Desk::PLACES],
    due: &[u32; Desk::PLACES],
    by: &[u32; Desk::PLACES],
    n: usize,
    end: u32,
    bound: u32,
) -> Option<Halving>
    requires limits { Limits (columns release.now minutes.now due.now) }
    requires tables { Tables n (columns release.now minutes.now due.now) (at by.now) }
    requires le_n { 1 ≤ n }
    ensures { Halved (columns release.now minutes.now due.now) n end bound result }
{
    let mut order: [u32; Desk::ROWS] = [0; Desk::ROWS];
    let first = search::plan_for(release, minutes, due, by, n, 0, bound, &mut order);
    if !keeps_both(first.desk, end, bound) {
        return None;
    }
    let mut best = order;
    let mut desk = first.desk;
    let mut low: u32 = 0;
    let mut high: u32 = Desk::MINUTES;
    while low < high {
        let middle = high - (high - low) / 2;
        let s = search::plan_for(release, minutes, due, by, n, middle, bound, &mut order);
        if keeps_both(s.desk, end, bound) {
            low = middle;
            desk = s.desk;
            best = order;
        } else {
            high = middle - 1;
        }
    }
    Some(Halving {
        minute: low,
        desk,
        order: best,
    })
}

// The latest free minute at which some order of the rows 1 to n keeps both, with the order for the bound from it, which is written to the
// front of a lent buffer; where there is none the buffer is left as it was.
pub fn latest_for<'a>(
    release: &'a [u32; Desk::PLACES],
    minutes: &'a [u32; Desk::PLACES],
    due: &'a [u32; Desk::PLACES],
    n: usize,
    end: u32,
    bound: u32,
    out: &mut [u32],
) -> Option<Latest>
    requires limits { Limits (columns release.now minutes.now due.now) }
    requires le_n { (1 ≤ n) × (n ≤ most_rows) × Agreeing (columns release.now minutes.now due.now) (count_from 1 n) ×
        (n ≤ length out.old) }
    ensures { LatestGiven (columns release.now minutes.now due.now)
        (latest_order (columns release.now minutes.now due.now) (count_from 1 n) (lowered end)
        (lowered bound)) out.old result out.new }
{
    let mut rows: [u32; Desk::PLACES] = [0; Desk::PLACES];
    let mut releases: [u32; Desk::PLACES] = [0; Desk::PLACES];
    let mut lengths: [u32; Desk::PLACES] = [0; Desk::PLACES];
    let mut dues: [u32; Desk::PLACES] = [0; Desk::PLACES];
    let mut by: [u32; Desk::PLACES] = [0; Desk::PLACES];
    ranks::tables(
        release,
        minutes,
        due,
        n,
        &mut rows,
        &mut releases,
        &mut lengths,
        &mut dues,
        &mut by,
    );
    let found = halve(&releases, &lengths, &dues, &by, n, end, bound)?;
    plans::write_order(&found.order, &rows, n, out);
    Some(Latest {
        minute: found.minute,
        end: found.desk.minute,
        late: found.desk.worst,
    })
}

// The test of row pairs, over two columns: the earliest row that clashes with any row above it. Tests 8 and 13 are such tests.
#![tactic(auto)]

ghost use Rattle.std.specs.Prelude.{◌≡◌, ◌-◌, ◌≤◌, length};
ghost use Rattle.schedule.specs.Limits.{most_rows, row_places};
ghost use Rattle.pairs.specs.Columns.{pair_clashes, any_clashes, some_clash, ColumnsTested};

use refusals::Refusal;
use schedule::Desk;

// Two rows clash: one has the smaller due and also the smaller second number. Every side is worked out: a branch that goes either way from
// pair to pair costs more.
fn pair_clashes(due: u32, second: u32, d: u32, s: u32) -> bool
    ensures { result ≡ pair_clashes due second d s }
{
    (due < d) & (second < s) | (d < due) & (s < second)
}

// A row against the rows above it. The loop goes on where one clashes: so it has no branch, and several places are compared at a time.
fn clashes_above(dues: &[u32; Desk::PLACES], seconds: &[u32; Desk::PLACES], row: usize) -> bool
    requires { (1 ≤ row) × (row ≤ most_rows) × (length dues.now ≡ row_places) × (length seconds.now ≡ row_places) }
    ensures { result ≡ any_clashes dues.now seconds.now row (row - 1) }
{
    let due = dues[row];
    let second = seconds[row];
    let mut found = false;
    for j in 1..row {
        found = found | pair_clashes(due, second, dues[j], seconds[j]);
    }
    found
}

// Some row clashes with a row above it.
fn any_clash(dues: &[u32; Desk::PLACES], seconds: &[u32; Desk::PLACES], count: usize) -> bool
    requires { (count ≤ most_rows) × (length dues.now ≡ row_places) × (length seconds.now ≡ row_places) }
    ensures { result ≡ some_clash dues.now seconds.now count }
{
    let mut found = false;
    for i in 1..=count {
        found = found | clashes_above(dues, seconds, i);
    }
    found
}

// The earliest row that clashes with any row above it: pair by pair, left by the label at the first that clashes. `number` is what
// the refusal tells.
fn earliest_clash(
    dues: &[u32; Desk::PLACES],
    seconds: &[u32; Desk::PLACES],
    count: usize,
    number: u32,
) -> Result<(), Refusal>
    requires { (count ≤ most_rows) × (length dues.now ≡ row_places) × (length seconds.now ≡ row_places) }
    ensures { ColumnsTested dues.now seconds.now count number result }
{
    'rows: {
        for i in 1..=count {
            for j in 1..i {
                if pair_clashes(dues[i], seconds[i], dues[j], seconds[j]) {
                    let place = 4 * (i - 1) + 2;
                    break 'rows Err(Refusal { number, place });
                }
            }
        }
        Ok(())
    }
}

// The test of row pairs, over the columns of the rows. Most books have no clash: so it is asked first whether there is one, without a
// branch, and the pairs are gone through one by one only where there is.
pub fn pair_tests(
    dues: &[u32; Desk::PLACES],
    seconds: &[u32; Desk::PLACES],
    count: usize,
    number: u32,
) -> Result<(), Refusal>
    requires { (count ≤ most_rows) × (length dues.now ≡ row_places) × (length seconds.now ≡ row_places) }
    ensures { ColumnsTested dues.now seconds.now count number result }
{
    if !any_clash(dues, seconds, count) {
        return Ok(());
    }
    earliest_clash(dues, seconds, count, number)
}

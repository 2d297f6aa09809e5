// What a list of plans becomes: the words of a result buffer, and the first plan that beats a pair.
#![tactic(auto)]

ghost use Rattle.std.specs.Prelude.{◌≡◌, ◌*◌, ◌≤◌, length, take};
ghost use Rattle.schedule.specs.Limits.{most_rows};
ghost use Rattle.schedule.specs.Offset.{lowered};
ghost use Rattle.schedule.specs.Plans.{beats, first_beating};
ghost use Rattle.listing.specs.Fronts.{pair_at, pairs_of};
ghost use Rattle.results.specs.Results.{written, complement, plan_words, or_zero};

use schedule::Desk;

// A raised lateness in two's complement of 32 bits.
fn word_of(late: u32) -> u32
    ensures { result ≡ complement (lowered late) }
{
    schedule::lower(late).cast_unsigned()
}

// The words of the first plans of two columns, ends and raised latenesses, to the front of a lent buffer.
pub fn write_plans<'a>(
    ends: &'a [u32; Desk::ROWS],
    lates: &'a [u32; Desk::ROWS],
    count: usize,
    res: &mut [u32],
)
    requires { (count ≤ most_rows) × (length ends.now ≡ most_rows) × (length lates.now ≡ most_rows) ×
        (2 * count ≤ length res.old) }
    ensures { res.new ≡
        written (plan_words (pairs_of (take count ends.now) (take count lates.now))) res.old }
{
    for k in 0..count {
        res[2 * k] = ends[k];
        res[2 * k + 1] = word_of(lates[k]);
    }
}

// The first pair beats the second: both numbers no greater, with one smaller.
fn beats_pair(end: u32, late: u32, mark: u32, limit: u32) -> bool
    ensures { result ≡ beats (pair_at end late) (pair_at mark limit) }
{
    (end <= mark) & (late <= limit) & ((end < mark) | (late < limit))
}

// The number of the first plan of two columns that beats a pair, from 1, or 0.
pub fn first_beating<'a>(
    ends: &'a [u32; Desk::ROWS],
    lates: &'a [u32; Desk::ROWS],
    count: usize,
    end: u32,
    late: u32,
) -> usize
    requires { (count ≤ most_rows) × (length ends.now ≡ most_rows) × (length lates.now ≡ most_rows) }
    ensures { result ≡
        or_zero (first_beating 1 (pairs_of (take count ends.now) (take count lates.now)) (pair_at end late)) }
{
    for i in 0..count {
        if beats_pair(ends[i], lates[i], end, late) {
            return i + 1;
        }
    }
    0
}

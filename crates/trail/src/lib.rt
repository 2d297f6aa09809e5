// The search along a trail of blocks, over rows that stand by rank: set out with a bound, and taken up again with a smaller one.
// Rows are numbered from 1, so columns have 257 places; 0 stands for no row. Latenesses and bounds are raised by 2^31.
#![tactic(auto)]

ghost use Rattle.std.specs.Prelude.{◌≡◌, Bool, length, ℕ, ◌+◌, ◌≤◌, ◌<◌, MatchOption};
ghost use Rattle.schedule.specs.Limits.{EndsInTime, most_rows};
ghost use Rattle.schedule.specs.Columns.{at, columns, Limits};
ghost use Rattle.picks.specs.declared.Standing.{Standing};
ghost use Rattle.picks.specs.Standing.{Tables};
ghost use Rattle.trail.specs.Trails.{words_of, Fits, Back, Came, Ended, Lowered};

use schedule::Desk;

// The words of the trail that are looked up by themselves: the worst lateness before a block, and whether it is block two.
const WORST: usize = 1;

const SECOND: usize = 4;

// Where the search for a plan came to: the blocks on the way, and the desk after them.
#[derive(Clone, Copy)]
pub struct Reached {
    pub depth: usize,
    pub at: picks::Standing,
}

// A desk on the way and whether block two was taken there, as words of the trail.
fn words_of(s: picks::Standing, second: bool) -> [u64; 10]
    ensures { length s.ready ≡ 5 → result ≡ words_of s second }
{
    let w = s.ready;
    [
        u64::from(s.desk.minute),
        u64::from(s.desk.worst),
        s.count as u64,
        s.next as u64,
        u64::from(second),
        w[0],
        w[1],
        w[2],
        w[3],
        w[4],
    ]
}

// The desk that the words hold.
fn desk_of(w: [u64; 10]) -> picks::Standing
    requires { (s : Standing) × (second : Bool) × Fits s × (w ≡ words_of s second) }
    ensures { (s : Standing) (second : Bool) → Fits s → w ≡ words_of s second → result ≡ s }
{
    picks::Standing {
        desk: Desk {
            minute: w[0] as u32,
            worst: w[1] as u32,
        },
        count: w[2] as usize,
        next: w[3] as usize,
        ready: [w[5], w[6], w[7], w[8], w[9]],
    }
}

// Blocks from a desk on, each kept on the trail from the place `from` on, until no row is left or a lateness is above the bound.
fn onward(
    release: &[u32; Desk::PLACES],
    minutes: &[u32; Desk::PLACES],
    due: &[u32; Desk::PLACES],
    by: &[u32; Desk::PLACES],
    n: usize,
    first: picks::Standing,
    from: usize,
    bound: u32,
    order: &mut [u32; Desk::ROWS],
    trail: &mut [[u64; 10]],
) -> Reached
    requires limits { Limits (columns release.now minutes.now due.now) }
    requires tables { Tables n (columns release.now minutes.now due.now) (at by.now) }
    requires order_len { (length order.old ≡ most_rows) × (n ≤ length trail.old) ×
        ((free : ℕ) × Came n (columns release.now minutes.now due.now) (at by.now) free bound trail.old from first) }
    ensures { (length order.new ≡ most_rows) × (n ≤ length trail.new) ×
        ((free : ℕ) → Came n (columns release.now minutes.now due.now) (at by.now) free bound
        trail.old from first →
        Ended n (columns release.now minutes.now due.now) (at by.now) free bound
        trail.new result) }
{
    let mut s = first;
    let mut d = from;
    while s.desk.worst <= bound && s.count != n {
        let b = search::next_block(release, minutes, due, by, n, s, bound, order);
        trail[d] = words_of(s, b.second);
        s = b.after;
        d += 1;
    }
    Reached { depth: d, at: s }
}

// The search set out with a bound: the first run, then blocks.
pub fn set_out(
    release: &[u32; Desk::PLACES],
    minutes: &[u32; Desk::PLACES],
    due: &[u32; Desk::PLACES],
    by: &[u32; Desk::PLACES],
    n: usize,
    free: u32,
    bound: u32,
    order: &mut [u32; Desk::ROWS],
    trail: &mut [[u64; 10]],
) -> Reached
    requires limits { Limits (columns release.now minutes.now due.now) }
    requires tables { Tables n (columns release.now minutes.now due.now) (at by.now) }
    requires ends_in_time { EndsInTime free n × (length order.old ≡ most_rows) × (n ≤ length trail.old) }
    ensures { (length order.new ≡ most_rows) × (n ≤ length trail.new) ×
        Ended n (columns release.now minutes.now due.now) (at by.now) free bound
        trail.new result }
{
    let begin = picks::start(release, by, n, free);
    let first = search::run_on(release, minutes, due, by, n, begin, bound, order);
    onward(release, minutes, due, by, n, first, 0, bound, order, trail)
}

// The last of the first blocks on the trail, as many as `depth`, that was begun within the bound.
fn back_to(trail: &[[u64; 10]], depth: usize, bound: u32) -> Option<usize>
    requires { depth ≤ length trail.now }
    ensures { MatchOption result (Back trail.now bound depth 0) (λ k. Back trail.now bound depth (k + 1)) }
{
    for k in (0..depth).rev() {
        if trail[k][WORST] <= u64::from(bound) {
            return Some(k);
        }
    }
    None
}

// The search taken up again with a smaller bound: at the first block that holds the worst lateness, with block two in its place.
// Where that was block two already, or the first run, no order keeps the bound: the search stays where it came to, above the bound.
pub fn resume(
    release: &[u32; Desk::PLACES],
    minutes: &[u32; Desk::PLACES],
    due: &[u32; Desk::PLACES],
    by: &[u32; Desk::PLACES],
    n: usize,
    reached: Reached,
    bound: u32,
    order: &mut [u32; Desk::ROWS],
    trail: &mut [[u64; 10]],
) -> Reached
    requires limits { Limits (columns release.now minutes.now due.now) }
    requires tables { Tables n (columns release.now minutes.now due.now) (at by.now) }
    requires order_len { (length order.old ≡ most_rows) × (n ≤ length trail.old) ×
        ((free : ℕ) × (before : ℕ) × Lowered n (columns release.now minutes.now due.now) (at by.now) free before bound
        trail.old reached) }
    ensures { (length order.new ≡ most_rows) × (n ≤ length trail.new) ×
        ((free before : ℕ) → Lowered n (columns release.now minutes.now due.now)
        (at by.now) free before bound trail.old reached →
        Ended n (columns release.now minutes.now due.now) (at by.now) free bound
        trail.new result) }
{
    let Some(k) = back_to(trail, reached.depth, bound) else {
        return reached;
    };
    let w = trail[k];
    if w[SECOND] != 0 {
        return reached;
    }
    let s = desk_of(w);
    let two = search::block_two(release, minutes, due, by, n, s, bound, order);
    trail[k] = words_of(s, true);
    onward(
        release,
        minutes,
        due,
        by,
        n,
        two,
        k + 1,
        bound,
        order,
        trail,
    )
}

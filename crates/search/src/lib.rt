// The search over rows that stand by rank, where a row's number is its rank: runs, blocks, and the order for a bound.
// Rows are numbered from 1, so columns have 257 places; 0 stands for no row. Latenesses and bounds are raised by 2^31.
#![tactic(auto)]

ghost use Rattle.std.specs.Prelude.{◌≡◌, true, false, ◌||◌, ℕ, ◌+◌, ◌-◌, ◌≤◌, ◌<◌, leb, eqb, length, get_or, take};
ghost use mathlib.Core.List.{List, Memᴰ};
ghost use Rattle.schedule.specs.Limits.{EndsInTime, most_rows, row_places};
ghost use Rattle.schedule.specs.Picks.{decided, run, block, block_two};
ghost use Rattle.schedule.specs.Columns.{at, columns, Limits};
ghost use Rattle.picks.specs.declared.Standing.{Standing};
ghost use Rattle.picks.specs.Standing.{Tables, Sits};
ghost use Rattle.search.specs.Taking.{Ran, Stepped};
ghost use Rattle.search.specs.Searched.{Searched};

use schedule::Desk;

// The block that is taken next: whether it is block two, and the desk after it; the bound is kept exactly if the desk's worst lateness
// is within it.
#[derive(Clone, Copy)]
pub struct Block {
    pub second: bool,
    pub after: picks::Standing,
}

// The desk is decided: there is no second pick, or the first pick's due is at most the second pick's.
fn decided_by(due: &[u32; Desk::PLACES], i: usize, j: usize) -> bool
    requires { (i < row_places) × (j < row_places) }
    ensures { result ≡ (eqb j 0 || leb (get_or due.now i 0) (get_or due.now j 0)) }
{
    j == 0 || due[i] <= due[j]
}

// First picks as long as the desk is decided and the bound is kept. The rows taken stand in the order from place `count` on.
pub fn run_on(
    release: &[u32; Desk::PLACES],
    minutes: &[u32; Desk::PLACES],
    due: &[u32; Desk::PLACES],
    by: &[u32; Desk::PLACES],
    n: usize,
    begin: picks::Standing,
    bound: u32,
    order: &mut [u32; Desk::ROWS],
) -> picks::Standing
    requires limits { Limits (columns release.now minutes.now due.now) }
    requires tables { Tables n (columns release.now minutes.now due.now) (at by.now) }
    requires by_index { ((rest : List ℕ) × Sits n (columns release.now minutes.now due.now) (at by.now) rest begin) ×
        (length order.old ≡ most_rows) }
    ensures { (rest : List ℕ) → Sits n (columns release.now minutes.now due.now)
        (at by.now) rest begin →
        Ran n (columns release.now minutes.now due.now) (at by.now) bound rest begin
        (run (columns release.now minutes.now due.now) begin.desk.minute rest)
        order.old result order.new }
{
    let picks::Standing {
        mut desk,
        mut count,
        mut next,
        mut ready,
    } = begin;
    while desk.worst <= bound {
        let p = picks::picks(by, n, &ready, next);
        let i = p.first;
        if i == 0 || !decided_by(due, i, p.second) {
            break;
        }
        order[count] = i as u32;
        let m = picks::take(release, minutes, due, by, n, desk, next, &mut ready, i);
        desk = m.desk;
        next = m.next;
        count += 1;
    }
    picks::Standing {
        desk,
        count,
        next,
        ready,
    }
}

// Row i, then the run from there, as long as the bound is kept.
fn block_on(
    release: &[u32; Desk::PLACES],
    minutes: &[u32; Desk::PLACES],
    due: &[u32; Desk::PLACES],
    by: &[u32; Desk::PLACES],
    n: usize,
    s: picks::Standing,
    i: usize,
    bound: u32,
    order: &mut [u32; Desk::ROWS],
) -> picks::Standing
    requires limits { Limits (columns release.now minutes.now due.now) }
    requires tables { Tables n (columns release.now minutes.now due.now) (at by.now) }
    requires by_index { ((rest : List ℕ) × Sits n (columns release.now minutes.now due.now) (at by.now) rest s × Memᴰ i rest) ×
        (length order.old ≡ most_rows) }
    ensures { (rest : List ℕ) → Sits n (columns release.now minutes.now due.now)
        (at by.now) rest s → Memᴰ i rest →
        (s.count < result.count) × Ran n (columns release.now minutes.now due.now)
        (at by.now) bound rest s
        (block (columns release.now minutes.now due.now) i s.desk.minute rest)
        order.old result order.new }
{
    let k = s.count;
    order[k] = i as u32;
    let mut ready = s.ready;
    let m = picks::take(release, minutes, due, by, n, s.desk, s.next, &mut ready, i);
    let first = picks::Standing {
        desk: m.desk,
        count: k + 1,
        next: m.next,
        ready,
    };
    run_on(release, minutes, due, by, n, first, bound, order)
}

// Block one if the bound is kept with it, otherwise block two.
pub fn next_block(
    release: &[u32; Desk::PLACES],
    minutes: &[u32; Desk::PLACES],
    due: &[u32; Desk::PLACES],
    by: &[u32; Desk::PLACES],
    n: usize,
    s: picks::Standing,
    bound: u32,
    order: &mut [u32; Desk::ROWS],
) -> Block
    requires limits { Limits (columns release.now minutes.now due.now) }
    requires tables { Tables n (columns release.now minutes.now due.now) (at by.now) }
    requires by_index { ((rest : List ℕ) × Sits n (columns release.now minutes.now due.now) (at by.now) rest s ×
        (decided (columns release.now minutes.now due.now) s.desk.minute rest ≡ false)) ×
        (length order.old ≡ most_rows) }
    ensures { (rest : List ℕ) → Sits n (columns release.now minutes.now due.now)
        (at by.now) rest s → decided (columns release.now minutes.now due.now)
        s.desk.minute rest ≡ false →
        Stepped n (columns release.now minutes.now due.now) (at by.now) bound rest s
        order.old result order.new }
{
    let p = picks::picks(by, n, &s.ready, s.next);
    let one = block_on(release, minutes, due, by, n, s, p.first, bound, order);
    if one.desk.worst <= bound {
        return Block {
            second: false,
            after: one,
        };
    }
    let two = block_on(release, minutes, due, by, n, s, p.second, bound, order);
    Block {
        second: true,
        after: two,
    }
}

// Block two.
pub fn block_two(
    release: &[u32; Desk::PLACES],
    minutes: &[u32; Desk::PLACES],
    due: &[u32; Desk::PLACES],
    by: &[u32; Desk::PLACES],
    n: usize,
    s: picks::Standing,
    bound: u32,
    order: &mut [u32; Desk::ROWS],
) -> picks::Standing
    requires limits { Limits (columns release.now minutes.now due.now) }
    requires tables { Tables n (columns release.now minutes.now due.now) (at by.now) }
    requires by_index { ((rest : List ℕ) × Sits n (columns release.now minutes.now due.now) (at by.now) rest s ×
        (decided (columns release.now minutes.now due.now) s.desk.minute rest ≡ false)) ×
        (length order.old ≡ most_rows) }
    ensures { (rest : List ℕ) → Sits n (columns release.now minutes.now due.now)
        (at by.now) rest s → decided (columns release.now minutes.now due.now)
        s.desk.minute rest ≡ false →
        (s.count < result.count) × Ran n (columns release.now minutes.now due.now)
        (at by.now) bound rest s
        (block_two (columns release.now minutes.now due.now) s.desk.minute rest)
        order.old result order.new }
{
    let p = picks::picks(by, n, &s.ready, s.next);
    block_on(release, minutes, due, by, n, s, p.second, bound, order)
}

// The search for the order for a bound: the run, then blocks, until no row is left or a lateness is above the bound.
pub fn plan_for(
    release: &[u32; Desk::PLACES],
    minutes: &[u32; Desk::PLACES],
    due: &[u32; Desk::PLACES],
    by: &[u32; Desk::PLACES],
    n: usize,
    free: u32,
    bound: u32,
    order: &mut [u32; Desk::ROWS],
) -> picks::Standing
    requires limits { Limits (columns release.now minutes.now due.now) }
    requires tables { Tables n (columns release.now minutes.now due.now) (at by.now) }
    requires le_n { (1 ≤ n) × EndsInTime free n × (length order.old ≡ most_rows) }
    ensures { Searched (columns release.now minutes.now due.now) n free bound result
        order.new }
{
    let begin = picks::start(release, by, n, free);
    let mut s = run_on(release, minutes, due, by, n, begin, bound, order);
    while s.desk.worst <= bound && s.count != n {
        let b = next_block(release, minutes, due, by, n, s, bound, order);
        s = b.after;
    }
    s
}

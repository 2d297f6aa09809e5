// The desk in planning: its picks, and what taking a row makes of it. Rows are numbered by rank, from 1; 0 stands for no row. The
// released rows left over are bits of five words, and a cursor stands in the rows by release. `take` changes the words in place: giving
// rows back is keeping a copy of the desk as it was.
#![tactic(auto)]

ghost use Rattle.std.specs.Prelude.{◌≡◌, Bool, true, false, ℕ, ◌+◌, ◌*◌, ◌≤◌, ◌<◌, get_or};
ghost use mathlib.Core.List.{List, Memᴰ};
ghost use Rattle.theory.specs.Jobs.{Job};
ghost use Rattle.schedule.specs.Limits.{most_rows, EndsInTime};
ghost use Rattle.schedule.specs.Rows.{count_from};
ghost use Rattle.schedule.specs.Picks.{first_pick, second_pick};
ghost use Rattle.schedule.specs.Offset.{desk_at};
ghost use Rattle.schedule.specs.Columns.{at, columns, Limits};
ghost use Rattle.picks.specs.Bits.{Words, Least, mark, word};
ghost use Rattle.picks.specs.Standing.{Tables, Stands, Late, Sits, Taken};

use schedule::Desk;

// A desk in planning: its minute and worst lateness, the rows taken, the place in the rows by release, and the released rows left over.
#[derive(Clone, Copy)]
pub struct Standing {
    pub desk: Desk,
    pub count: usize,
    pub next: usize,
    pub ready: [u64; 5],
}

// The first and the second pick; 0 where there is none.
#[derive(Clone, Copy)]
pub struct Picked {
    pub first: usize,
    pub second: usize,
}

// The desk after a row, and the place in the rows by release.
#[derive(Clone, Copy)]
pub struct Moved {
    pub desk: Desk,
    pub next: usize,
}

// The least number of the set, or 0; the words before the word `from` hold nothing of it.
fn lowest(ready: &[u64; 5], from: usize) -> usize
    ensures { (p : ℕ → Bool) → ((q : ℕ) → from ≤ q → q < 5 → get_or ready.now q 0 ≡ word p (64 * q) 64) →
        ((j : ℕ) → j < 64 * from → p j ≡ false) → p 0 ≡ false → Least p result }
{
    for q in from..5 {
        let w = ready[q];
        if w != 0 {
            return q * 64 + (w.trailing_zeros() as usize);
        }
    }
    0
}

// The least number of the set after i, its least number; or 0.
fn next_after(ready: &[u64; 5], i: usize) -> usize
    requires { (i < 320) × ((p : ℕ → Bool) × Words p ready.now × (p i ≡ true)) }
    ensures { (p : ℕ → Bool) → Words p ready.now → p 0 ≡ false → p i ≡ true → ((j : ℕ) → j < i → p j ≡ false) →
        Least (mark i false p) result }
{
    let q = i / 64;
    let w = ready[q] - (1 << (i % 64));
    if w != 0 {
        return q * 64 + (w.trailing_zeros() as usize);
    }
    lowest(ready, q + 1)
}

// The set with i, in place.
fn put(ready: &mut [u64; 5], i: usize)
    requires { (i < 320) × ((p : ℕ → Bool) × Words p ready.old × (p i ≡ false)) }
    ensures { (p : ℕ → Bool) → Words p ready.old → p i ≡ false → Words (mark i true p) ready.new }
{
    let q = i / 64;
    ready[q] = ready[q] + (1 << (i % 64));
}

// The set without i, in place.
fn away(ready: &mut [u64; 5], i: usize)
    requires { (i < 320) × ((p : ℕ → Bool) × Words p ready.old × (p i ≡ true)) }
    ensures { (p : ℕ → Bool) → Words p ready.old → p i ≡ true → Words (mark i false p) ready.new }
{
    let q = i / 64;
    ready[q] = ready[q] - (1 << (i % 64));
}

// The first pick, from the least row j of the set, 0 for none: it, or the next row ahead, or 0.
fn front(by: &[u32; Desk::PLACES], n: usize, j: usize, next: usize) -> usize
    requires { n ≤ most_rows }
    ensures { (job : ℕ → Job) (t : ℕ) (rest ready : List ℕ) → Tables n job (at by.now) →
        (s : Stands n job (at by.now) t rest next ready) → Least s.set j → Late n job (at by.now) t next →
        result ≡ first_pick job t rest }
{
    if j != 0 {
        return j;
    }
    if next < n {
        return by[next] as usize;
    }
    0
}

// Both picks.
pub fn picks(by: &[u32; Desk::PLACES], n: usize, ready: &[u64; 5], next: usize) -> Picked
    requires { (n ≤ most_rows) × ((job : ℕ → Job) × (t : ℕ) × (rest : List ℕ) × Tables n job (at by.now) ×
        Stands n job (at by.now) t rest next ready.now) }
    ensures { (job : ℕ → Job) (t : ℕ) (rest : List ℕ) → Tables n job (at by.now) →
        Stands n job (at by.now) t rest next ready.now → Late n job (at by.now) t next →
        (result.first ≡ first_pick job t rest) × (result.second ≡ second_pick job t rest) }
{
    let i = lowest(ready, 0);
    if i != 0 {
        let j = next_after(ready, i);
        return Picked {
            first: i,
            second: front(by, n, j, next),
        };
    }
    if next < n {
        let k = by[next] as usize;
        return Picked {
            first: k,
            second: front(by, n, 0, next + 1),
        };
    }
    Picked {
        first: 0,
        second: 0,
    }
}

// The rows ahead that are released by the minute t are put into the set; the place from which on rows are ahead then.
fn advance(
    release: &[u32; Desk::PLACES],
    by: &[u32; Desk::PLACES],
    n: usize,
    ready: &mut [u64; 5],
    from: usize,
    t: u32,
) -> usize
    requires { (minutes due : List ℕ) × (rest : List ℕ) × Tables n (columns release.now minutes due) (at by.now) ×
        Stands n (columns release.now minutes due) (at by.now) t rest from ready.old }
    ensures { (minutes due rest : List ℕ) → Tables n (columns release.now minutes due) (at by.now) →
        Stands n (columns release.now minutes due) (at by.now) t rest from ready.old →
        Stands n (columns release.now minutes due) (at by.now) t rest result ready.new ×
        Late n (columns release.now minutes due) (at by.now) t result }
{
    for next in from..n {
        let i = by[next] as usize;
        if t < release[i] {
            return next;
        }
        put(ready, i);
    }
    n
}

// Row i is taken: the desk moves to its end, the rows released by then are put into the set, and i is taken out of it.
pub fn take(
    release: &[u32; Desk::PLACES],
    minutes: &[u32; Desk::PLACES],
    due: &[u32; Desk::PLACES],
    by: &[u32; Desk::PLACES],
    n: usize,
    desk: Desk,
    next: usize,
    ready: &mut [u64; 5],
    i: usize,
) -> Moved
    requires limits { Limits (columns release.now minutes.now due.now) }
    requires tables { Tables n (columns release.now minutes.now due.now) (at by.now) × ((rest : List ℕ) × (count : ℕ) ×
        Sits n (columns release.now minutes.now due.now) (at by.now) rest
        (record { desk = desk; count = count; next = next; ready = ready.old }) × Memᴰ i rest) }
    ensures { (rest : List ℕ) (count : ℕ) →
        Sits n (columns release.now minutes.now due.now) (at by.now) rest
        (record { desk = desk; count = count; next = next; ready = ready.old }) →
        Memᴰ i rest →
        Taken n (columns release.now minutes.now due.now) (at by.now) rest
        (record { desk = desk; count = count; next = next; ready = ready.old }) i
        (record { desk = result.desk; count = count + 1; next = result.next; ready = ready.new }) }
{
    let after = desk.take(release[i], minutes[i], due[i]);
    let ahead = advance(release, by, n, ready, next, after.minute);
    away(ready, i);
    Moved {
        desk: after,
        next: ahead,
    }
}

// A desk with nothing done yet.
pub fn start(
    release: &[u32; Desk::PLACES],
    by: &[u32; Desk::PLACES],
    n: usize,
    free: u32,
) -> Standing
    requires { ((minutes due : List ℕ) × Tables n (columns release.now minutes due) (at by.now)) × EndsInTime free n }
    ensures { ((minutes due : List ℕ) → Tables n (columns release.now minutes due) (at by.now) →
        Sits n (columns release.now minutes due) (at by.now) (count_from 1 n) result) ×
        (result.desk ≡ desk_at free) × (result.count ≡ 0) }
{
    let mut ready: [u64; 5] = [0; 5];
    let next = advance(release, by, n, &mut ready, 0, free);
    Standing {
        desk: Desk::at(free),
        count: 0,
        next,
        ready,
    }
}

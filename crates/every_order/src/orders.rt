// Every order of a day's rows, its end and its worst lateness, and the pairs that no order beats.
use crate::day::{Day, ROWS, Row};

// A lateness is raised by this, so that it is not negative.
pub const RAISE: u32 = 2_147_483_648;

// Ends are below this.
const ENDS: usize = 4_096;

// The most pairs that no order beats.
pub const PAIRS: usize = 16;

// An end and a worst lateness, raised.
#[derive(Clone, Copy, PartialEq, Eq)]
pub struct Pair {
    pub end: u32,
    pub late: u32,
}

impl Pair {
    pub fn new(end: u32, late: i32) -> Pair {
        Pair {
            end,
            late: schedule::raise(late),
        }
    }

    // The pair with a row more: the row starts when it is released and the desk is free.
    fn after_row(self, row: Row) -> Pair {
        let end = self.end.max(row.release).wrapping_add(row.time);
        let late = end.wrapping_add(RAISE).wrapping_sub(row.due);
        Pair {
            end,
            late: self.late.max(late),
        }
    }

    // Both numbers are no greater.
    fn is_within(self, other: Pair) -> bool {
        self.end <= other.end && self.late <= other.late
    }
}

// How many orders n rows have.
pub fn how_many(n: usize) -> u32 {
    match n {
        0 => 1,
        1 => 1,
        2 => 2,
        3 => 6,
        4 => 24,
        5 => 120,
        6 => 720,
        7 => 5_040,
        _ => 40_320,
    }
}

// Order number `code` of n rows: each place takes one of the rows that are left. Rows are counted from 1.
pub fn order_at(n: usize, code: u32) -> [u32; ROWS] {
    let mut order = [1u32, 2, 3, 4, 5, 6, 7, 8];
    let mut rest = code as usize;
    let count = n.min(ROWS);
    for i in 0..count {
        let left = count - i;
        let next = (rest % left) % ROWS;
        order.swap(i, (i + next) % ROWS);
        rest /= left;
    }
    order
}

// The end and the worst lateness of an order of rows, counted from 1, by the desk's own rules.
pub fn pair_of(day: &Day, order: &[u32; ROWS]) -> Pair {
    let mut pair = Pair {
        end: day.free,
        late: 0,
    };
    for row in &order[..day.count.min(ROWS)] {
        let i = row.wrapping_sub(1) % 8;
        pair = pair.after_row(day.rows[i as usize]);
    }
    pair
}

// The rows are an order of all rows.
pub fn has_all(day: &Day, order: &[u32; ROWS]) -> bool {
    let mut taken = 0u32;
    for row in &order[..day.count.min(ROWS)] {
        taken |= 1 << (*row % 32);
    }
    taken == (2u32 << (day.count % (ROWS + 1))).wrapping_sub(2)
}

// For each end the least worst lateness of the orders with that end.
fn least(day: &Day, best: &mut [u32; ENDS]) {
    for code in 0..how_many(day.count) {
        let pair = pair_of(day, &order_at(day.count, code));
        if let Some(late) = best.get_mut(pair.end as usize) {
            *late = pair.late.min(*late);
        }
    }
}

// The pairs that no order beats, by rising end.
#[derive(Clone, Copy)]
pub struct Front {
    pairs: [Pair; PAIRS],
    pub count: usize,
}

impl Front {
    // By rising end, those with a worst lateness below all before.
    fn unbeaten(best: &[u32; ENDS]) -> Front {
        let mut front = Front {
            pairs: [Pair { end: 0, late: 0 }; PAIRS],
            count: 0,
        };
        let mut limit = u32::MAX;
        for (end, late) in best.iter().enumerate() {
            if *late < limit {
                limit = *late;
                front.push(end as u32, limit);
            }
        }
        front
    }

    // The pairs that no order of a day beats.
    pub fn of(day: &Day) -> Front {
        let mut best = [u32::MAX; ENDS];
        least(day, &mut best);
        Front::unbeaten(&best)
    }

    fn push(&mut self, end: u32, late: u32) {
        if self.count < PAIRS {
            self.pairs[self.count] = Pair { end, late };
            self.count += 1;
        }
    }

    pub fn as_slice(&self) -> &[Pair] {
        &self.pairs[..self.count.min(PAIRS)]
    }

    // The pair at a place, counted round from the first to after the last.
    pub fn at(&self, place: usize) -> Pair {
        self.pairs[place % PAIRS]
    }

    // The place of the first pair with both numbers no greater.
    pub fn first_within(&self, pair: Pair) -> Option<usize> {
        self.as_slice()
            .iter()
            .position(|first| first.is_within(pair))
    }

    // The number of the first pair that beats another. The first one with both numbers no greater does, unless it is the same.
    pub fn first_beating(&self, pair: Pair) -> Option<usize> {
        let k = self.first_within(pair).unwrap_or(self.count) % PAIRS;
        if self.pairs[k] == pair {
            None
        } else {
            Some(k + 1)
        }
    }
}

// What is counted, in the order in which it is printed: first the books, and those with 1 to 8 plans.
#[derive(Clone, Copy)]
pub enum Count {
    Books = 0,
    OneClass = 9,
    Halves,
    Dropped,
    Unsorted,
    Ties,
    Idle,
    Early,
    Orders,
    Listed,
    Bounds,
    Unkept,
    Verdicts,
    Unbeaten,
    Differences,
}

#[derive(Clone, Copy)]
pub struct Tally {
    counts: [u32; 24],
}

impl Tally {
    // With nothing counted yet.
    pub fn new() -> Tally {
        Tally { counts: [0; 24] }
    }

    // The count at a place, or 0 where there is none.
    pub fn at(&self, place: usize) -> u32 {
        self.counts.get(place).copied().unwrap_or(0)
    }

    fn add_at(&mut self, place: usize, some: u32) {
        if let Some(count) = self.counts.get_mut(place) {
            *count = count.wrapping_add(some);
        }
    }

    // A count raised by some.
    pub fn add(&mut self, count: Count, some: u32) {
        self.add_at(count as usize, some);
    }

    // A count raised by 1, where a test holds.
    pub fn add_if(&mut self, count: Count, test: bool) {
        self.add(count, u32::from(test));
    }

    // A book more with so many plans.
    pub fn add_plans(&mut self, plans: usize) {
        self.add_at(plans, 1);
    }

    pub fn books(&self) -> u32 {
        self.at(Count::Books as usize)
    }
}

// The desk of one reader: rows, and the desk's minute and worst lateness while rows are taken one after another.
#![tactic(auto)]

ghost use Rattle.std.specs.Prelude.{◌≡◌, ◌≤◌};
ghost use Rattle.schedule.specs.Offset.{raised, lowered, desk_at, desk_after};

// A profile: by which rule the rows of a book are tested and planned. A bureau chooses it by the calls that it makes.
#[derive(Clone, Copy)]
pub enum Profile {
    Ordering,
    FirstCome,
}

// A row of the table: one transcript. The class is the turnaround class that it was sold by, if it was sold by one.
#[derive(Clone, Copy)]
pub struct Row {
    pub number: u32,
    pub release: u32,
    pub length: u32,
    pub due: u32,
    pub pages: u32,
    pub class: Option<u32>,
}

// A desk in planning: the minute it stands at, and the worst lateness so far, raised by 2^31; 0 where no row is done.
#[derive(Clone, Copy)]
pub struct Desk {
    pub minute: u32,
    pub worst: u32,
}

impl Desk {
    // The most rows of a book.
    pub const ROWS: usize = 256;

    // The places of a column that row numbers read: place 0 is for no row.
    pub const PLACES: usize = 257;

    // The latest free minute and release, and the latest due.
    pub const MINUTES: u32 = 10_000_000;

    pub const DUES: u32 = 20_000_000;

    // The most pages of a row; the least and the most pace, in pages an hour.
    pub const PAGES: u32 = 2_000;

    pub const LEAST_PACE: u32 = 4;

    pub const MOST_PACE: u32 = 120;

    // The most opening minutes that a call is told.
    pub const OPENING: u32 = 30;

    // A desk with nothing done yet stands at its free minute.
    pub fn at(free: u32) -> Desk
        ensures { result ≡ desk_at free }
    {
        Desk {
            minute: free,
            worst: 0,
        }
    }

    // The desk after a row: it starts at the later of the minute and its release, ends its length later, and is late by end minus due.
    pub fn take(self, release: u32, minutes: u32, due: u32) -> Desk
        requires { (self.minute ≤ 1000000000) × (release ≤ 1000000000) × (minutes ≤ 1000000000) × (due ≤ 2147483647) }
        ensures { result ≡ desk_after self (record { release = release; length = minutes; due = due }) }
    {
        let end = self.minute.max(release) + minutes;
        let late = end + 2_147_483_648 - due;
        Desk {
            minute: end,
            worst: self.worst.max(late),
        }
    }
}

// A signed number raised by 2^31: signed numbers compare as what they are raised to.
pub fn raise(y: i32) -> u32
    ensures { result ≡ raised y }
{
    ((y as i64) + 2_147_483_648) as u32
}

// The signed number that is raised so.
pub fn lower(late: u32) -> i32
    ensures { result ≡ lowered late }
{
    ((late as i64) - 2_147_483_648) as i32
}

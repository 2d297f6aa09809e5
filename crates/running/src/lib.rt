// The words of a lent desk: where each number stands, and whether a run of words holds a desk.
#![tactic(auto)]

ghost use Rattle.std.specs.Prelude.{◌≡◌, ◌+◌, ◌≤◌, ◌<◌, length, take, drop};
ghost use Rattle.schedule.specs.Limits.{most_rows, row_places, most_opening};
ghost use Rattle.running.specs.Running.{between};
ghost use Rattle.running.specs.Words.{desk_words, opening_in, column_fits, head_fits, rows_fit, is_desk, keeps_pages, put};

use schedule::Desk;

// Where the numbers of a desk stand in its words. Row i has word i of each column, counted from 1: a column is named by the place before
// its first word.
#[derive(Clone, Copy)]
pub struct Layout {}

impl Layout {
    // The words of a desk.
    pub const WORDS: usize = 1_288;

    pub const COUNT: usize = 0;

    pub const MINUTE: usize = 1;

    pub const WORST: usize = 2;

    pub const OPENING: usize = 3;

    pub const RELEASES: usize = 7;

    // The time of the row at the desk: opening plus length.
    pub const TIMES: usize = 263;

    pub const DUES: usize = 519;

    // 1 where the row is done.
    pub const MARKS: usize = 775;

    pub const PAGES: usize = 1_031;

    // The latest minute of a start, and the latest at which a desk stands.
    pub const LATEST_START: u32 = 20_000_000;

    pub const LATEST_STAND: u32 = 20_030_030;

    // The least and the most lateness of a row that is done, raised by 2^31.
    const LEAST_RAISED: u32 = 2_127_483_649;

    const MOST_RAISED: u32 = 2_167_513_678;

    // The most rows of a desk.
    const MOST_ROWS: u32 = 256;

    // The longest length of a row.
    const LONGEST: u32 = 30_000;
}

// A number lies between two others. Both sides are worked out: columns are tested without a branch.
fn is_between(least: u32, most: u32, x: u32) -> bool
    ensures { result ≡ between least most x }
{
    (least <= x) & (x <= most)
}

// The first n words of a column are between two numbers.
fn column_fits(desk: &[u32], before: usize, least: u32, most: u32, n: usize) -> bool
    requires { (n ≤ most_rows) × (before + most_rows < desk_words) × (desk_words ≤ length desk.now) }
    ensures { result ≡ column_fits before least most desk.now n }
{
    let mut fit = true;
    for word in &desk[before + 1..before + 1 + n] {
        fit = fit & is_between(least, most, *word);
    }
    fit
}

// The numbers of the first n rows are in their ranges.
fn rows_fit(desk: &[u32], n: usize) -> bool
    requires { (n ≤ most_rows) × (opening_in desk.now ≤ most_opening) × (desk_words ≤ length desk.now) }
    ensures { result ≡ rows_fit desk.now n }
{
    let release = column_fits(desk, Layout::RELEASES, 0, Desk::MINUTES, n);
    let opening = desk[Layout::OPENING];
    let time = column_fits(
        desk,
        Layout::TIMES,
        opening + 1,
        opening + Layout::LONGEST,
        n,
    );
    let due = column_fits(desk, Layout::DUES, 0, Desk::DUES, n);
    let mark = column_fits(desk, Layout::MARKS, 0, 1, n);
    release & time & due & mark
}

// The count of rows, the minute, the opening and the worst lateness so far are in theirs.
fn head_fits(desk: &[u32]) -> bool
    requires { desk_words ≤ length desk.now }
    ensures { result ≡ head_fits desk.now }
{
    let worst = desk[Layout::WORST];
    is_between(1, Layout::MOST_ROWS, desk[Layout::COUNT])
        & (desk[Layout::MINUTE] <= Layout::LATEST_STAND)
        & (desk[Layout::OPENING] <= Desk::OPENING)
        & ((worst == 0) | is_between(Layout::LEAST_RAISED, Layout::MOST_RAISED, worst))
}

// The words hold a desk.
pub fn is_desk(desk: &[u32]) -> bool
    ensures { result ≡ is_desk desk.now }
{
    desk.len() >= Layout::WORDS && head_fits(desk) && rows_fit(desk, desk[Layout::COUNT] as usize)
}

// The words hold a desk, and the pages of each of its rows.
pub fn keeps_pages(desk: &[u32]) -> bool
    ensures { result ≡ keeps_pages desk.now }
{
    is_desk(desk)
        && column_fits(
            desk,
            Layout::PAGES,
            1,
            Desk::PAGES,
            desk[Layout::COUNT] as usize,
        )
}

// The first n rows of a column, into the column of the desk that begins after a place.
pub fn put_column(desk: &mut [u32], before: usize, column: &[u32; Desk::PLACES], n: usize)
    requires { (n ≤ most_rows) × (before + most_rows < desk_words) × (desk_words ≤ length desk.old) ×
        (length column.now ≡ row_places) }
    ensures { desk.new ≡ put (before + 1) (take n (drop 1 column.now)) desk.old }
{
    desk[before + 1..before + 1 + n].copy_from_slice(&column[1..n + 1]);
}

// The offered calls. All that is asked of the planner and of the book's reader is asked here.
use outcomes::{Attained, Verdict};
use refusals::Refusal;
use schedule::Desk;
use std::fmt;

// A refusal as it is printed: its number at its place.
#[derive(Clone, Copy)]
pub struct Told(pub Refusal);

impl fmt::Display for Told {
    fn fmt<W: fmt::Write>(&self, f: &mut fmt::Formatter<W>) -> fmt::Result {
        write!(f, "{}@{}", self.0.number, self.0.place)
    }
}

// An end and a worst lateness.
#[derive(Clone, Copy)]
pub struct Pair {
    pub end: u32,
    pub late: i32,
}

impl fmt::Display for Pair {
    fn fmt<W: fmt::Write>(&self, f: &mut fmt::Formatter<W>) -> fmt::Result {
        write!(f, "({} {})", self.end, self.late)
    }
}

// The pair of a posting, and the number of the plan that beats it.
#[derive(Clone, Copy)]
pub struct Judged {
    pub pair: Pair,
    pub beaten_by: Option<usize>,
}

// A call that fills a result buffer.
#[derive(Clone, Copy)]
pub enum Call {
    List,
    OrderOfPlan(u32),
    OrderForBound(i32),
}

// What such a call gives: how many plans are listed, or the pair of the order.
#[derive(Clone, Copy)]
pub enum Given {
    Plans(usize),
    Order(Pair),
}

impl fmt::Display for Given {
    fn fmt<W: fmt::Write>(&self, f: &mut fmt::Formatter<W>) -> fmt::Result {
        match self {
            Given::Plans(count) => write!(f, "{count}"),
            Given::Order(pair) => write!(f, "{pair}"),
        }
    }
}

fn ordered(attained: Attained) -> Given {
    Given::Order(Pair {
        end: attained.end,
        late: attained.late,
    })
}

pub fn ask(call: Call, opening: u32, book: &[u32], words: &mut [u32]) -> Result<Given, Refusal> {
    match call {
        Call::List => Ok(Given::Plans(planner::list(opening, book, words)?)),
        Call::OrderOfPlan(plan) => Ok(ordered(planner::order_of_plan(opening, book, plan, words)?)),
        Call::OrderForBound(bound) => Ok(ordered(planner::order_for_bound(
            opening, book, bound, words,
        )?)),
    }
}

pub fn verdict(opening: u32, book: &[u32], posting: &[u32]) -> Result<Judged, Refusal> {
    match planner::verdict(opening, book, posting)? {
        Verdict::Unbeaten(end, late) => Ok(Judged {
            pair: Pair { end, late },
            beaten_by: None,
        }),
        Verdict::Beaten(end, late, plan) => Ok(Judged {
            pair: Pair { end, late },
            beaten_by: Some(plan),
        }),
    }
}

pub fn row_place(book: &[u32], row: u32) -> Result<usize, Refusal> {
    planner::row_place(book, row)
}

pub fn row_words<'a>(book: &'a [u32], row: u32) -> &'a [u32] {
    planner::row_words(book, row)
}

// The calls differ in what they say of a book.
#[derive(Clone, Copy)]
pub struct Different;

// The refusal of a book by the verdict on an empty posting, which is none of any book.
fn refusal_of_no_entries(opening: u32, book: &[u32]) -> Result<Option<Refusal>, Different> {
    match verdict(opening, book, &[]) {
        Ok(_) => Err(Different),
        Err(refusal) if refusal.number == Refusal::NOT_POSTING => Ok(None),
        Err(refusal) => Ok(Some(refusal)),
    }
}

// How many plans a book has, or its refusal, by the calls that are told an opening, in which they have to agree.
fn plans_by_opening(opening: u32, book: &[u32]) -> Result<Result<usize, Refusal>, Different> {
    let mut words = [0u32; 512];
    let listed = planner::list(opening, book, &mut words);
    let refusal = listed.err();
    let of_plan = ask(Call::OrderOfPlan(1), opening, book, &mut words).err();
    let for_bound = ask(Call::OrderForBound(i32::MAX), opening, book, &mut words).err();
    let of_no_entries = refusal_of_no_entries(opening, book)?;
    if of_plan == refusal && for_bound == refusal && of_no_entries == refusal {
        Ok(listed)
    } else {
        Err(Different)
    }
}

// How many plans a book has, or its refusal, in which all calls have to agree; of an opening that is refused only those that are told it.
// A refused book has no row.
pub fn plans(opening: u32, book: &[u32]) -> Result<Result<usize, Refusal>, Different> {
    let listed = plans_by_opening(opening, book)?;
    if Desk::OPENING < opening {
        return Ok(listed);
    }
    let has_row = !row_words(book, 1).is_empty();
    if row_place(book, 1).err() != listed.err() || (listed.is_err() && has_row) {
        return Err(Different);
    }
    Ok(listed)
}

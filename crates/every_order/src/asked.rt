// The offered calls. All that is asked of the planner is asked here.
use crate::orders::Pair;
use outcomes::{Attained, Verdict};
use refusals::Refusal;

// The pair of a posting, and the number of the plan that beats it.
#[derive(Clone, Copy, PartialEq, Eq)]
pub struct Judged {
    pub pair: Pair,
    pub beaten_by: Option<usize>,
}

fn pair_of(attained: Attained) -> Pair {
    Pair::new(attained.end, attained.late)
}

pub fn list(opening: u32, book: &[u32], words: &mut [u32]) -> Result<usize, Refusal> {
    planner::list(opening, book, words)
}

pub fn plan(opening: u32, book: &[u32], k: u32, words: &mut [u32]) -> Result<Pair, Refusal> {
    Ok(pair_of(planner::order_of_plan(opening, book, k, words)?))
}

// The bound is raised by 2^31.
pub fn bound(opening: u32, book: &[u32], y: u32, words: &mut [u32]) -> Result<Pair, Refusal> {
    Ok(pair_of(planner::order_for_bound(opening, book, schedule::lower(y), words)?))
}

pub fn verdict(opening: u32, book: &[u32], posting: &[u32]) -> Result<Judged, Refusal> {
    match planner::verdict(opening, book, posting)? {
        Verdict::Unbeaten(end, late) => Ok(Judged {
            pair: Pair::new(end, late),
            beaten_by: None,
        }),
        Verdict::Beaten(end, late, plan) => Ok(Judged {
            pair: Pair::new(end, late),
            beaten_by: Some(plan),
        }),
    }
}

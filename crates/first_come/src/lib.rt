// First come, first due: the calls offered to a bureau in whose books no two rows cross. Each is lent a book, has no `requires`, and its
// contract gives its whole outcome: the answer, and every word of the result buffer at exit.
#![tactic(auto)]

ghost use Rattle.std.specs.Prelude.{◌≡◌};
ghost use Rattle.schedule.specs.declared.Profile.TheVariants.{FirstCome};
ghost use Rattle.row_calls.specs.Places.{place_call, words_call};
ghost use Rattle.outcomes.specs.Planning.{gives};
ghost use Rattle.calls.specs.Calls.{list_call, bound_call, plan_call, verdict_call};
ghost use Rattle.readers.specs.Reads.{first_come};

use outcomes::{Attained, Verdict};
use readers::Terms;
use refusals::Refusal;
use schedule::Profile;

// The list: the one plan, its end and its worst lateness in two's complement.
pub fn list(opening: u32, book: &[u32], res: &mut [u32]) -> Result<usize, Refusal>
    ensures { gives result res.new ≡ list_call (first_come opening) book.now res.old }
{
    let terms = Terms {
        profile: Profile::FirstCome,
        opening,
    };
    calls::list(terms, book, res)
}

// The order for a bound on lateness: the one plan's, if its worst lateness is at most the bound.
pub fn order_for_bound(
    opening: u32,
    book: &[u32],
    bound: i32,
    res: &mut [u32],
) -> Result<Attained, Refusal>
    ensures { gives result res.new ≡ bound_call (first_come opening) book.now bound res.old }
{
    let terms = Terms {
        profile: Profile::FirstCome,
        opening,
    };
    calls::order_for_bound(terms, book, bound, res)
}

// The order of a listed plan by its number: 1 is the one plan's.
pub fn order_of_plan(
    opening: u32,
    book: &[u32],
    plan: u32,
    res: &mut [u32],
) -> Result<Attained, Refusal>
    ensures { gives result res.new ≡ plan_call (first_come opening) book.now plan res.old }
{
    let terms = Terms {
        profile: Profile::FirstCome,
        opening,
    };
    calls::order_of_plan(terms, book, plan, res)
}

// The verdict on a posted order of row numbers: its own pair, and the one plan where it beats the posting.
pub fn verdict(opening: u32, book: &[u32], posting: &[u32]) -> Result<Verdict, Refusal>
    ensures { result ≡ verdict_call (first_come opening) book.now posting.now }
{
    let terms = Terms {
        profile: Profile::FirstCome,
        opening,
    };
    calls::verdict(terms, book, posting)
}

// The place of a row's number word, rows counted from 1, or the refusal.
pub fn row_place(book: &[u32], row: u32) -> Result<usize, Refusal>
    ensures { result ≡ place_call FirstCome book.now row }
{
    row_calls::row_place(Profile::FirstCome, book, row)
}

// The four words of a row, as the part of the caller's book that holds them; empty where the call is refused.
pub fn row_words<'a>(book: &'a [u32], row: u32) -> &'a [u32]
    ensures { result.now ≡ words_call FirstCome book.now row }
{
    row_calls::row_words(Profile::FirstCome, book, row)
}

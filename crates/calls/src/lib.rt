// The calls offered to a bureau, by what they are told: one body each for both profiles. Each is lent a book, has no `requires`, and its
// contract gives its whole outcome: the answer, and every word of the result buffer at exit.
#![tactic(auto)]

ghost use Rattle.std.specs.Prelude.{◌≡◌};
ghost use Rattle.outcomes.specs.Planning.{gives};
ghost use Rattle.calls.specs.Calls.{list_call, bound_call, plan_call, verdict_call};

use outcomes::{Attained, Verdict};
use readers::Terms;
use refusals::Refusal;

// The list: for each plan two words, end and worst lateness in two's complement, by rising end.
pub fn list(terms: Terms, book: &[u32], res: &mut [u32]) -> Result<usize, Refusal>
    ensures { gives result res.new ≡ list_call terms book.now res.old }
{
    let profile = terms.profile;
    let day = readers::read(terms, book)?;
    outcomes::list_in(
        profile,
        &day.columns.release,
        &day.columns.length,
        &day.columns.due,
        day.count,
        day.free,
        res,
    )
}

// The order for a bound on lateness: its row numbers, and its own pair.
pub fn order_for_bound(
    terms: Terms,
    book: &[u32],
    bound: i32,
    res: &mut [u32],
) -> Result<Attained, Refusal>
    ensures { gives result res.new ≡ bound_call terms book.now bound res.old }
{
    let profile = terms.profile;
    let given = readers::read(terms, book)?;
    outcomes::order_in(
        profile,
        &given.columns.release,
        &given.columns.length,
        &given.columns.due,
        given.count,
        given.free,
        schedule::raise(bound),
        res,
    )
}

// The order of a listed plan by its number from 1: the order for the bound equal to its lateness.
pub fn order_of_plan(
    terms: Terms,
    book: &[u32],
    plan: u32,
    res: &mut [u32],
) -> Result<Attained, Refusal>
    ensures { gives result res.new ≡ plan_call terms book.now plan res.old }
{
    let profile = terms.profile;
    let given = readers::read(terms, book)?;
    outcomes::plan_in(
        profile,
        &given.columns.release,
        &given.columns.length,
        &given.columns.due,
        given.count,
        given.free,
        plan,
        res,
    )
}

// The verdict on a posted order of row numbers: its own pair, and the first listed plan that beats it.
pub fn verdict(terms: Terms, book: &[u32], posting: &[u32]) -> Result<Verdict, Refusal>
    ensures { result ≡ verdict_call terms book.now posting.now }
{
    let profile = terms.profile;
    let given = readers::read(terms, book)?;
    outcomes::verdict_in(
        profile,
        &given.columns.release,
        &given.columns.length,
        &given.columns.due,
        given.count,
        given.free,
        posting,
    )
}

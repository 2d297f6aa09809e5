// The C boundary: each call offered to a bureau on pointers and lengths, with one C struct for every answer. Its header is
// include/jelvaksna.h. A slice crosses as a pointer and a length in words. No call has a `requires`, and its contract gives its whole
// outcome.
#![tactic(auto)]

ghost use Rattle.std.specs.Prelude.{◌≡◌};
ghost use Rattle.schedule.specs.declared.Profile.TheVariants.{Ordering, FirstCome};
ghost use Rattle.calls.specs.Answers.{said_list, said_order, said_verdict, said_place};
ghost use Rattle.calls.specs.Calls.{list_call, bound_call, plan_call, verdict_call};
ghost use Rattle.row_calls.specs.Places.{place_call};
ghost use Rattle.desk_open.specs.Opens.{open_call};
ghost use Rattle.desk_start.specs.Starts.{start_call};
ghost use Rattle.desk_pace.specs.Paces.{pace_call};
ghost use Rattle.desk_plans.specs.Plans.{desk_list_call, desk_plan_call};
ghost use Rattle.open_desk.specs.Answers.{said_open, said_start, said_pace};
ghost use Rattle.readers.specs.Reads.{ordering_rule, first_come};
ghost use Rattle.latest_free.specs.Answers.{said_latest};
ghost use Rattle.latest_free.specs.Calls.{latest_call};
ghost use Rattle.several.specs.Answers.{said_several};
ghost use Rattle.several.specs.Calls.{several_call};
ghost use Rattle.answers.specs.Boundary.{answer_of, answer_of_desks};

use answers::Answer;

// The list: two words for each plan, end and worst lateness in two's complement, by rising end.
#[unsafe(no_mangle)]
pub extern "C" fn jelvaksna_list(opening: u32, book: &[u32], res: &mut [u32]) -> Answer
    ensures value { result ≡ answer_of (said_list (list_call (ordering_rule opening) book.now res.old).answer) }
    ensures res_after { res.new ≡ (list_call (ordering_rule opening) book.now res.old).buffer }
{
    answers::of_list(planner::list(opening, book, res))
}

// The order for a bound on lateness: its row numbers, and its own pair.
#[unsafe(no_mangle)]
pub extern "C" fn jelvaksna_order_for_bound(
    opening: u32,
    book: &[u32],
    bound: i32,
    res: &mut [u32],
) -> Answer
    ensures value { result ≡ answer_of (said_order (bound_call (ordering_rule opening) book.now bound res.old).answer) }
    ensures res_after { res.new ≡ (bound_call (ordering_rule opening) book.now bound res.old).buffer }
{
    answers::of_order(planner::order_for_bound(opening, book, bound, res))
}

// The order of a listed plan by its number from 1.
#[unsafe(no_mangle)]
pub extern "C" fn jelvaksna_order_of_plan(
    opening: u32,
    book: &[u32],
    plan: u32,
    res: &mut [u32],
) -> Answer
    ensures value { result ≡ answer_of (said_order (plan_call (ordering_rule opening) book.now plan res.old).answer) }
    ensures res_after { res.new ≡ (plan_call (ordering_rule opening) book.now plan res.old).buffer }
{
    answers::of_order(planner::order_of_plan(opening, book, plan, res))
}

// The verdict on a posted order of row numbers.
#[unsafe(no_mangle)]
pub extern "C" fn jelvaksna_verdict(opening: u32, book: &[u32], posting: &[u32]) -> Answer
    ensures { result ≡ answer_of (said_verdict (verdict_call (ordering_rule opening) book.now posting.now)) }
{
    answers::of_verdict(planner::verdict(opening, book, posting))
}

// The place of a row's number word; the row's four words stand from there on.
#[unsafe(no_mangle)]
pub extern "C" fn jelvaksna_row_place(book: &[u32], row: u32) -> Answer
    ensures { result ≡ answer_of (said_place (place_call Ordering book.now row)) }
{
    answers::of_place(planner::row_place(book, row))
}

// First come, first due: the same calls by the profile for books of which no two rows cross.

// The list: the one plan.
#[unsafe(no_mangle)]
pub extern "C" fn jelvaksna_first_come_list(opening: u32, book: &[u32], res: &mut [u32]) -> Answer
    ensures value { result ≡ answer_of (said_list (list_call (first_come opening) book.now res.old).answer) }
    ensures res_after { res.new ≡ (list_call (first_come opening) book.now res.old).buffer }
{
    answers::of_list(first_come::list(opening, book, res))
}

// The one plan's order, if its worst lateness is at most the bound.
#[unsafe(no_mangle)]
pub extern "C" fn jelvaksna_first_come_order_for_bound(
    opening: u32,
    book: &[u32],
    bound: i32,
    res: &mut [u32],
) -> Answer
    ensures value { result ≡ answer_of (said_order (bound_call (first_come opening) book.now bound res.old).answer) }
    ensures res_after { res.new ≡ (bound_call (first_come opening) book.now bound res.old).buffer }
{
    answers::of_order(first_come::order_for_bound(opening, book, bound, res))
}

// The order of plan 1, the one plan.
#[unsafe(no_mangle)]
pub extern "C" fn jelvaksna_first_come_order_of_plan(
    opening: u32,
    book: &[u32],
    plan: u32,
    res: &mut [u32],
) -> Answer
    ensures value { result ≡ answer_of (said_order (plan_call (first_come opening) book.now plan res.old).answer) }
    ensures res_after { res.new ≡ (plan_call (first_come opening) book.now plan res.old).buffer }
{
    answers::of_order(first_come::order_of_plan(opening, book, plan, res))
}

// The verdict on a posted order of row numbers.
#[unsafe(no_mangle)]
pub extern "C" fn jelvaksna_first_come_verdict(
    opening: u32,
    book: &[u32],
    posting: &[u32],
) -> Answer
    ensures { result ≡ answer_of (said_verdict (verdict_call (first_come opening) book.now posting.now)) }
{
    answers::of_verdict(first_come::verdict(opening, book, posting))
}

// The place of a row's number word.
#[unsafe(no_mangle)]
pub extern "C" fn jelvaksna_first_come_row_place(book: &[u32], row: u32) -> Answer
    ensures { result ≡ answer_of (said_place (place_call FirstCome book.now row)) }
{
    answers::of_place(first_come::row_place(book, row))
}

// Opens a desk with a book: the count of rows and the desk's minute, and the words of the desk.
#[unsafe(no_mangle)]
pub extern "C" fn jelvaksna_desk_open(opening: u32, book: &[u32], desk: &mut [u32]) -> Answer
    ensures value { result ≡ answer_of (said_open (open_call opening book.now desk.old).answer) }
    ensures desk_after { desk.new ≡ (open_call opening book.now desk.old).buffer }
{
    answers::of_open(open_desk::open(opening, book, desk))
}

// Starts a row of an open desk at a minute: the desk's new minute and the worst lateness so far.
#[unsafe(no_mangle)]
pub extern "C" fn jelvaksna_desk_start(desk: &mut [u32], row: u32, minute: u32) -> Answer
    ensures value { result ≡ answer_of (said_start (start_call desk.old row minute).answer) }
    ensures desk_after { desk.new ≡ (start_call desk.old row minute).buffer }
{
    answers::of_start(open_desk::start(desk, row, minute))
}

// Changes the pace of an open desk: the rows left get lengths by it. Nothing is answered but that it is accepted.
#[unsafe(no_mangle)]
pub extern "C" fn jelvaksna_desk_pace(desk: &mut [u32], pace: u32) -> Answer
    ensures value { result ≡ answer_of (said_pace (pace_call desk.old pace).answer) }
    ensures desk_after { desk.new ≡ (pace_call desk.old pace).buffer }
{
    answers::of_pace(open_desk::change_pace(desk, pace))
}

// The list of the rows left on an open desk, from its minute on.
#[unsafe(no_mangle)]
pub extern "C" fn jelvaksna_desk_list(desk: &[u32], res: &mut [u32]) -> Answer
    ensures value { result ≡ answer_of (said_list (desk_list_call desk.now res.old).answer) }
    ensures res_after { res.new ≡ (desk_list_call desk.now res.old).buffer }
{
    answers::of_list(open_desk::list(desk, res))
}

// The order of a listed plan of an open desk, by its number from 1.
#[unsafe(no_mangle)]
pub extern "C" fn jelvaksna_desk_order_of_plan(desk: &[u32], plan: u32, res: &mut [u32]) -> Answer
    ensures value { result ≡ answer_of (said_order (desk_plan_call desk.now plan res.old).answer) }
    ensures res_after { res.new ≡ (desk_plan_call desk.now plan res.old).buffer }
{
    answers::of_order(open_desk::order_of_plan(desk, plan, res))
}

// Several desks, one overtime limit: the least greatest lateness, the sum of the overtimes, and the orders desk after desk.
#[unsafe(no_mangle)]
pub extern "C" fn jelvaksna_several(
    opening: u32,
    books: &[u32],
    lengths: &[u32],
    closings: &[u32],
    limit: u32,
    res: &mut [u32],
) -> Answer
    ensures value { result ≡ answer_of_desks (said_several (several_call opening books.now lengths.now closings.now
        limit res.old).answer) }
    ensures res_after { res.new ≡
        (several_call opening books.now lengths.now closings.now limit res.old).buffer }
{
    answers::of_several(several::several(opening, books, lengths, closings, limit, res))
}

// How late the desk can open: the latest free minute at which some order keeps the wanted end and lateness, with the order and its pair.
#[unsafe(no_mangle)]
pub extern "C" fn jelvaksna_latest_free(
    opening: u32,
    book: &[u32],
    end: i32,
    late: i32,
    res: &mut [u32],
) -> Answer
    ensures value { result ≡ answer_of (said_latest (latest_call opening book.now end late res.old).answer) }
    ensures res_after { res.new ≡ (latest_call opening book.now end late res.old).buffer }
{
    answers::of_latest(latest_free::latest_free(opening, book, end, late, res))
}

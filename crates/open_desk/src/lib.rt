// The calls of an open desk: opening it with a book, starting a row, a change of pace, the list of the rows left, and the order of a listed
// plan. Each has no `requires`, and its contract gives its whole outcome for every content of the lent words.
#![tactic(auto)]

ghost use Rattle.std.specs.Prelude.{◌≡◌};
ghost use Rattle.outcomes.specs.Planning.{gives};
ghost use Rattle.desk_open.specs.Opens.{open_call};
ghost use Rattle.desk_start.specs.Starts.{start_call};
ghost use Rattle.desk_pace.specs.Paces.{pace_call};
ghost use Rattle.desk_plans.specs.Plans.{desk_list_call, desk_plan_call};

use desk_open::Opened;
use desk_start::Stand;
use outcomes::Attained;
use refusals::Refusal;
use running::Layout;

// The words of a desk.
pub const WORDS: usize = Layout::WORDS;

// Opens a desk with a book: from then on the lent words carry its rows and the opening minutes.
pub fn open(opening: u32, book: &[u32], desk: &mut [u32]) -> Result<Opened, Refusal>
    ensures { gives result desk.new ≡ open_call opening book.now desk.old }
{
    desk_open::open(opening, book, desk)
}

// Starts a row at a minute: the desk moves to its end.
pub fn start(desk: &mut [u32], row: u32, minute: u32) -> Result<Stand, Refusal>
    ensures { gives result desk.new ≡ start_call desk.old row minute }
{
    desk_start::start(desk, row, minute)
}

// Changes the pace: the rows left get lengths by it, from their pages.
pub fn change_pace(desk: &mut [u32], pace: u32) -> Result<(), Refusal>
    ensures { gives result desk.new ≡ pace_call desk.old pace }
{
    desk_pace::change(desk, pace)
}

// The list of the rows left from the desk's minute on: for each plan two words, end and worst lateness in two's complement, by rising end.
pub fn list(desk: &[u32], res: &mut [u32]) -> Result<usize, Refusal>
    ensures { gives result res.new ≡ desk_list_call desk.now res.old }
{
    desk_plans::list(desk, res)
}

// The order of a listed plan by its number from 1: row numbers of the rows left.
pub fn order_of_plan(desk: &[u32], plan: u32, res: &mut [u32]) -> Result<Attained, Refusal>
    ensures { gives result res.new ≡ desk_plan_call desk.now plan res.old }
{
    desk_plans::order_of_plan(desk, plan, res)
}

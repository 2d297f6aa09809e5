// What is lent for several desks: whether all of it that concerns no single book is right.
#![tactic(auto)]

ghost use Rattle.std.specs.Prelude.{◌≡◌, ◌≤◌, length};
ghost use Rattle.schedule.specs.Limits.{most_desks};
ghost use Rattle.several_lent.specs.Lent.{total, all_open, lent_amiss};

use choice::Desks;
use schedule::Desk;

// The lengths added up.
fn sum_of(lengths: &[u32]) -> u64
    requires { length lengths.now ≤ most_desks }
    ensures { result ≡ total lengths.now }
{
    lengths.iter().map(|length| u64::from(*length)).sum()
}

// Every closing minute is in its range.
fn all_open(closings: &[u32]) -> bool
    ensures { result ≡ all_open closings.now }
{
    closings.iter().all(|closing| *closing <= Desks::CLOSING)
}

// Something that concerns no single book is wrong: the opening, the desks' count, the limit, a closing minute, or the lengths, which do
// not add up to the run.
#[tactic(auto, unfolding(crate::specs::Lent::lent_amiss))]
pub fn lent_amiss(opening: u32, run: usize, lengths: &[u32], closings: &[u32], limit: u32) -> bool
    ensures { result ≡ lent_amiss opening run lengths.now closings.now limit }
{
    Desk::OPENING < opening
        || Desks::LIMIT < limit
        || lengths.is_empty()
        || Desks::MOST < lengths.len()
        || closings.len() != lengths.len()
        || !all_open(closings)
        || sum_of(lengths) != run as u64
}

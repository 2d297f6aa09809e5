// Starts on an open desk: a row leaves the rows left, and the desk moves to its end.
#![tactic(auto)]

ghost use Rattle.std.specs.Prelude.{◌≡◌, true, ◌≤◌, length};
ghost use Rattle.schedule.specs.Limits.{most_rows};
ghost use Rattle.running.specs.Running.{start_tests};
ghost use Rattle.running.specs.Words.{desk_words, running, is_desk, moved_words};
ghost use Rattle.outcomes.specs.Planning.{gives};
ghost use Rattle.desk_start.specs.Starts.{start_call};

use refusals::Refusal;
use running::Layout;
use schedule::Desk;

// Where the desk stands after a start: its new minute and the worst lateness so far.
#[derive(Clone, Copy)]
pub struct Stand {
    pub minute: u32,
    pub late: i32,
}

// Whether a start is turned down: 11, 14, 15.
fn start_tests(desk: &[u32], row: u32, minute: u32) -> Result<(), Refusal>
    requires { is_desk desk.now ≡ true }
    ensures { result ≡ start_tests (running desk.now) row minute }
{
    let n = desk[Layout::COUNT];
    if !(1..=n).contains(&row) {
        return Err(Refusal {
            number: Refusal::UNLISTED,
            place: n as usize,
        });
    }
    let i = row as usize;
    let done = desk[Layout::MARKS + i] != 0;
    let early = (minute < desk[Layout::MINUTE])
        | (minute < desk[Layout::RELEASES + i])
        | (Layout::LATEST_START < minute);
    refusals::refuse_if(done, Refusal::DONE, i)?;
    refusals::refuse_if(early, Refusal::EARLY, 0)
}

// The words of a start that is not turned down.
fn store(desk: &mut [u32], i: usize, end: u32, worst: u32)
    requires { (i ≤ most_rows) × (desk_words ≤ length desk.old) }
    ensures { desk.new ≡ moved_words desk.old i end worst }
{
    desk[Layout::MINUTE] = end;
    desk[Layout::WORST] = worst;
    desk[Layout::MARKS + i] = 1;
}

// Starts a row at a minute.
pub fn start(desk: &mut [u32], row: u32, minute: u32) -> Result<Stand, Refusal>
    ensures { gives result desk.new ≡ start_call desk.old row minute }
{
    if !running::is_desk(desk) {
        return Err(Refusal {
            number: Refusal::RANGE,
            place: 0,
        });
    }
    start_tests(desk, row, minute)?;
    let i = row as usize;
    let free = Desk {
        minute,
        worst: desk[Layout::WORST],
    };
    let done = free.take(
        desk[Layout::RELEASES + i],
        desk[Layout::TIMES + i],
        desk[Layout::DUES + i],
    );
    store(desk, i, done.minute, done.worst);
    Ok(Stand {
        minute: done.minute,
        late: schedule::lower(done.worst),
    })
}

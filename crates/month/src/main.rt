// Prints the report of the days on standard input, one after another: docs/MONTH.md has the layout and the lines. A day is judged as soon
// as it is in, so a window of one day is all of the input that is held. `month_step::take_day` says what each turn comes to,
// `report_lines` gives every byte that is printed, so only the reading and the writing are taken on trust: that a window shows the bytes
// that are left.
#![tactic(auto)]

ghost use Rattle.std.specs.Prelude.{◌≡◌, ◌≤◌, length, take, IfOk};

use month_input::WINDOW;
use month_step::Step;
use report_lines::SHEET;
use std::io;
use std::io::{Read, Write};
use totals::Totals;

// Moves a window on past the bytes used, and fills it up from the input: how many bytes it then has.
fn move_on(input: &mut impl Read, window: &mut [u8], used: usize, have: usize) -> io::Result<usize>
    requires { (used ≤ have) × (have ≤ length window.old) }
    ensures room { IfOk result (λ n. n ≤ length window.new) }
    ensures same_length { length window.new ≡ length window.old }
{
    let kept = month_input::slide(window, used, have);
    let more = streams::read_full(input, &mut window[kept..])?;
    Ok(kept + more)
}

// Takes the days of the input one after another, and makes the lines: how many bytes they are. (The 32nd turn is the last: it finds no
// 32nd day.)
fn take_days(input: &mut impl Read, window: &mut [u8], sheet: &mut [u8]) -> io::Result<usize>
    requires { 256 ≤ length sheet.old }
    ensures { IfOk result (λ n. (n ≤ 256) × (n ≡ length (take n sheet.new))) }
{
    let mut totals = Totals::begin();
    let mut have = streams::read_full(input, window)?;
    for _ in 0..=Totals::DAYS {
        match month_step::take_day(totals, &window[..have]) {
            Step::End => return Ok(report_lines::report(sheet, totals)),
            Step::Broken => return Ok(report_lines::refusal(sheet)),
            Step::Taken(next, used) => {
                totals = next;
                have = move_on(input, window, used, have)?;
            }
        }
    }
    Ok(report_lines::refusal(sheet))
}

fn main(rt: HostRuntime) -> io::Result<()> {
    let mut window = [0u8; WINDOW];
    let mut sheet = [0u8; SHEET];
    let count = take_days(&mut rt.stdin(), &mut window, &mut sheet)?;
    rt.stdout().write_all(&sheet[..count])
}

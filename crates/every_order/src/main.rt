// Holds the planner against trying every order: of each small book on standard input the pairs of all orders are worked out here, with no
// part of the planner, and every offered call is compared with them. A difference prints which book it is and what was asked.
//
//     FREE PACE CLASS  RELEASE PAGES DUE ..     a line is a book of 1 to 8 rows, all of one class, or of none where that is 8
//     "TEXT"                                    prints the text and a count, one after another as `tally` has them
//     OPENING                                   a line of one number: the opening minutes of the books after it, and the counts begin
//                                               again; at first they are 0
//     # ..                                      a comment, to the end of its line
#![tactic(auto)]

mod asked;
mod compare;
mod day;
mod input;
mod orders;
mod tally;

use input::Input;
use std::io;
use std::io::Write;

// The most bytes of the input.
const BYTES: usize = 150_000;

fn run(out: &mut impl Write, bytes: &[u8]) -> io::Result<()> {
    let mut input = Input::new(0);
    for byte in bytes {
        input.read(out, *byte)?;
    }
    Ok(())
}

fn main(rt: HostRuntime) -> io::Result<()> {
    let mut bytes = [0u8; BYTES];
    let size = streams::read_full(&mut rt.stdin(), &mut bytes)?;
    run(&mut rt.stdout(), &bytes[..size])
}

// Runs mornings on an open desk through its calls, for the stored output to be held against. The mornings stand on standard input, as a
// text that is printed while it is read; after each `=` comes what the call before it answers:
//
//     W, .. open=          opens the desk with the book of these words: the count of rows and the desk's minute
//     O, W, .. opening=    opens it with O opening minutes; the other opens it with none
//     R, M, start=         starts row R at the minute M: the desk's new minute and the worst lateness so far
//     P, pace=             changes the pace to P: 0
//     plans=               lists the plans of the rows left: how many they are
//     K, order=            the order of plan K: its end and worst lateness
//
// A word of a book is written KIND:VALUE. A comma ends a number, and a call takes the numbers of its own line. Of its name only the last
// letter counts. A refusal is printed as number@place. After a list or an order come the nine words of the buffer, which are 7 before it.
#![tactic(auto)]

mod desk_calls;
mod line;

use line::Line;
use std::io;
use std::io::Write;

// The most bytes of the input.
const BYTES: usize = 65_536;

fn run(out: &mut impl Write, bytes: &[u8]) -> io::Result<()> {
    let mut line = Line::new();
    let mut desk = [0u32; open_desk::WORDS];
    for byte in bytes {
        line.read(out, *byte, &mut desk)?;
    }
    Ok(())
}

fn main(rt: HostRuntime) -> io::Result<()> {
    let mut bytes = [0u8; BYTES];
    let size = streams::read_full(&mut rt.stdin(), &mut bytes)?;
    run(&mut rt.stdout(), &bytes[..size])
}

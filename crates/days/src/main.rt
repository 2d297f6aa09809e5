// Runs days through the offered calls and prints what comes out, for the stored output to be held against: worked days, every refusal at
// every place where it can come, buffers of every length, ties, early work, rows as they arrive, reading times between whole minutes, and
// books with many plans. The days and what is asked of them stand on standard input:
//
//     "TEXT"                a text, printed
//     .                     the end of a printed line
//     # ..                  a comment, to the end of its line
//     12  -12  KIND:VALUE   a number, or a word of a book: for the command before it
//
// A command is a word of which only the first letter counts. What it asks is asked of the book as it then stands:
//
//     book W ..             the book: these words           cut N ..       is it refused, cut to N words?
//     plus W ..             words after it                  words W ..     is it, with this word at the place?
//     next N                N rows after it, each going     kinds K ..     .. with this kind?
//                           on as the two above it do       values V ..    .. with this value?
//     gaps N                for next: releases and dues     moved N ..     .. with the value so much larger?
//                           rise by N more each time        hits N ..      at how many places can it be refused N?
//     at P                  the place                       list           the list
//     set W                 this word at the place          order K ..     the order of plan K
//     into N                calls fill a buffer of N        digest         the list and the orders of plans 1 to 4
//                           words; 600 is any               for Y ..       the order for the bound Y
//     using N               calls are told N opening        judge          the verdict on the posting
//                           minutes, at first 0             row K ..       the place and the words of row K
//     entries E ..          the posting                     test           is the book refused?
//
// A refusal is printed as number@place, a pair as (end lateness). Of a call into a buffer of N words only the pair or the count of plans is
// printed, and then how many words of the buffer hold what they held.
#![tactic(auto)]

mod asked;
mod commands;
mod input;
mod say;
mod word;

use input::Input;
use std::io;
use std::io::Write;

// The most bytes of the input.
const BYTES: usize = 65_536;

fn run(out: &mut impl Write, bytes: &[u8]) -> io::Result<()> {
    let mut input = Input::new();
    for byte in bytes {
        input.read(out, *byte)?;
    }
    Ok(())
}

fn main(rt: HostRuntime) -> io::Result<()> {
    let mut bytes = [0u8; BYTES];
    let size = streams::read_full(&mut rt.stdin(), &mut bytes)?;
    run(&mut rt.stdout(), &bytes[..size])
}

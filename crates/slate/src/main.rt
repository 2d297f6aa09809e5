// Prints the plans of the book on standard input: its rows and plans counted, then a line for each plan; or the refusal. `sheet::fill`
// gives every byte of it, and `run` says that these are the bytes written, whatever is read from and written to; so only standard input
// and standard output themselves are taken on trust.
#![tactic(auto)]

ghost use Rattle.std.specs.Prelude.{IfSome, OnOk};
ghost use Rattle.std.specs.Io.KnownBytes.{Appends};
ghost use Rattle.sheet.specs.Shown.{shown};

use sheet::SHEET;
use std::io;
use std::io::{Read, Write};

// The bytes of an input that are looked at.
const BYTES: usize = 4_112;

// Writes what is shown of an input.
fn run<R: Read, W: Write>(input: &mut R, out: &mut W) -> io::Result<()>
    ensures { OnOk result (IfSome (R.remaining input.old)
        (λ bytes. Appends (W.contents out.old) (W.contents out.new) (shown bytes))) }
{
    let mut bytes = [0u8; BYTES];
    let size = streams::read_full(input, &mut bytes)?;
    let mut sheet = [0u8; SHEET];
    let count = sheet::fill(&bytes[..size], &mut sheet);
    out.write_all(&sheet[..count])
}

fn main(rt: HostRuntime) -> io::Result<()> {
    run(&mut rt.stdin(), &mut rt.stdout())
}

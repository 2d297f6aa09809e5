// Makes a book of a day written as plain text. Reads the day, which is what `text_days` takes, from standard input, and writes the book's
// words, little-endian, to standard output. A day that is no day leaves standard output empty, and standard error has the first wrong line
// and what is wrong there.
#![tactic(auto)]

ghost use Rattle.std.specs.Prelude.{◌≤◌, length, IfOk};

use std::io;
use std::io::Write;
use text_days::{Book, Day, Place, Wrong};
use wrong_lines::WrongLine;

// A day's bytes are fewer.
const TEXT: usize = 65_536;

// The bytes of the longest book.
const BYTES: usize = 4 * Day::WORDS;

// Reads a day, and makes its book: how many words.
fn read_day(text: &[u8], book: &mut Book) -> Result<usize, WrongLine<Wrong>>
    ensures { IfOk result (λ words. words ≤ 1027) }
{
    let mut day = Day::new(Place::START);
    let read = day.read_lines(text, book).and_then(|()| day.finish(book));
    let line = day.place.line;
    read.map_err(|wrong| WrongLine { line, wrong })?;
    Ok(day.book_words())
}

fn write_book(out: &mut impl Write, book: &[u32]) -> io::Result<()>
    requires { length book.now ≤ 1027 }
{
    let mut bytes = [0; BYTES];
    let size = word_bytes::put_words(book, &mut bytes, 0);
    out.write_all(&bytes[..size])
}

fn main(rt: HostRuntime) -> io::Result<()> {
    let mut text = [0; TEXT];
    let size = streams::read_full(&mut rt.stdin(), &mut text)?;
    if size == TEXT {
        return rt.eprintln("the day is too long: 65535 bytes is the most");
    }
    let mut book = [0; Day::WORDS];
    match read_day(&text[..size], &mut book) {
        Ok(words) => write_book(&mut rt.stdout(), &book[..words]),
        Err(wrong) => rt.eprintln(wrong),
    }
}

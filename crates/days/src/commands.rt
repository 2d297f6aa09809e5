// The commands.
use crate::asked::{Call, Different, Given, Told};
use crate::word::Words;
use crate::{asked, say, word};
use refusals::Refusal;
use std::io;
use std::io::Write;

// The most words of a book.
const BOOK: usize = 1_100;

// The most words of a result buffer: one that is as long takes any answer.
const WHOLE: usize = 600;

// What a result buffer holds before a call.
const HELD: u32 = 777_777_777;

#[derive(Clone, Copy)]
pub enum Command {
    At,
    Book,
    Cut,
    Digest,
    Entries,
    For,
    Gaps,
    Hits,
    Into,
    Judge,
    Kinds,
    List,
    Moved,
    Next,
    Order,
    Plus,
    Row,
    Set,
    Test,
    Using,
    Values,
    Words,
}

impl Command {
    // A command by the first letter of its word.
    pub fn of_letter(letter: u8) -> Option<Command> {
        match letter {
            b'a' => Some(Command::At),
            b'b' => Some(Command::Book),
            b'c' => Some(Command::Cut),
            b'd' => Some(Command::Digest),
            b'e' => Some(Command::Entries),
            b'f' => Some(Command::For),
            b'g' => Some(Command::Gaps),
            b'h' => Some(Command::Hits),
            b'i' => Some(Command::Into),
            b'j' => Some(Command::Judge),
            b'k' => Some(Command::Kinds),
            b'l' => Some(Command::List),
            b'm' => Some(Command::Moved),
            b'n' => Some(Command::Next),
            b'o' => Some(Command::Order),
            b'p' => Some(Command::Plus),
            b'r' => Some(Command::Row),
            b's' => Some(Command::Set),
            b't' => Some(Command::Test),
            b'u' => Some(Command::Using),
            b'v' => Some(Command::Values),
            b'w' => Some(Command::Words),
            _ => None,
        }
    }
}

// The book and the posting; the opening minutes, a place, the words of the result buffer, and by how much more each release and due rises
// than the one above.
#[derive(Clone, Copy)]
pub struct State {
    book: Words<BOOK>,
    posting: Words<8>,
    opening: u32,
    place: usize,
    size: usize,
    rise: u32,
}

impl State {
    pub fn new() -> State {
        State {
            book: Words::new(),
            posting: Words::new(),
            opening: 0,
            place: 0,
            size: WHOLE,
            rise: 0,
        }
    }

    // A command.
    pub fn command(&mut self, out: &mut impl Write, command: Command) -> io::Result<()> {
        match command {
            Command::Book => self.book.clear(),
            Command::Digest => self.digest(out)?,
            Command::Entries => self.posting.clear(),
            Command::Judge => self.judge(out)?,
            Command::List => self.ask(out, Call::List)?,
            Command::Test => self.test(out, self.book.as_slice())?,
            _ => {}
        }
        Ok(())
    }

    // A number after a command.
    pub fn number(&mut self, out: &mut impl Write, command: Command, n: u32) -> io::Result<()> {
        match command {
            Command::At => self.place = n as usize,
            Command::Book | Command::Plus => self.book.push(n),
            Command::Cut => self.test(out, self.book.first(n as usize))?,
            Command::Entries => self.posting.push(n),
            Command::For => self.ask(out, Call::OrderForBound(n.cast_signed()))?,
            Command::Gaps => self.rise = n,
            Command::Hits => self.hits(out, n)?,
            Command::Into => self.size = n as usize,
            Command::Kinds => self.test_with(out, word::of(n, self.word()))?,
            Command::Moved => self.test_with(out, word::moved(self.word(), n))?,
            Command::Next => self.book.push_rows(n, self.rise),
            Command::Order => self.ask(out, Call::OrderOfPlan(n))?,
            Command::Row => self.row(out, n)?,
            Command::Set => self.book.set(self.place, n),
            Command::Using => self.opening = n,
            Command::Values => self.test_with(out, word::with_value(self.word(), n))?,
            Command::Words => self.test_with(out, n)?,
            Command::Digest | Command::Judge | Command::List | Command::Test => {}
        }
        Ok(())
    }

    // The word at the place.
    fn word(&self) -> u32 {
        self.book.at(self.place)
    }

    // A call that fills a buffer.
    fn ask(&self, out: &mut impl Write, call: Call) -> io::Result<()> {
        let mut words = [HELD; WHOLE];
        if self.size < WHOLE {
            self.ask_into(out, call, &mut words[..self.size])
        } else {
            self.ask_whole(out, call, &mut words)
        }
    }

    // The answer in brief, and how many words of the buffer hold what they held.
    fn ask_into(&self, out: &mut impl Write, call: Call, words: &mut [u32]) -> io::Result<()> {
        match asked::ask(call, self.opening, self.book.as_slice(), words) {
            Ok(given) => write!(out, " {given}")?,
            Err(refusal) => write!(out, " {}", Told(refusal))?,
        }
        let held = words.iter().filter(|word| **word == HELD).count();
        write!(out, "+{held}")
    }

    // The whole answer, where its buffer is long enough for any.
    fn ask_whole(&self, out: &mut impl Write, call: Call, words: &mut [u32]) -> io::Result<()> {
        let book = self.book.as_slice();
        match asked::ask(call, self.opening, book, words) {
            Ok(Given::Plans(count)) => {
                write!(out, " plans {count}")?;
                say::pairs(out, words, count)
            }
            Ok(Given::Order(pair)) => {
                write!(out, " {pair}")?;
                let rows = words.len().min(book.len() / 4);
                say::values(out, &words[..rows])
            }
            Err(refusal) => write!(out, " {}", Told(refusal)),
        }
    }

    // The list, and the orders of its plans up to the fourth.
    fn digest(&self, out: &mut impl Write) -> io::Result<()> {
        self.ask(out, Call::List)?;
        for plan in 1..5 {
            write!(out, ";")?;
            self.ask(out, Call::OrderOfPlan(plan))?;
        }
        Ok(())
    }

    // The verdict on the posting.
    fn judge(&self, out: &mut impl Write) -> io::Result<()> {
        let book = self.book.as_slice();
        let verdict = match asked::verdict(self.opening, book, self.posting.as_slice()) {
            Ok(verdict) => verdict,
            Err(refusal) => return write!(out, " {}", Told(refusal)),
        };
        let pair = verdict.pair;
        match verdict.beaten_by {
            None => write!(out, " {pair} unbeaten"),
            Some(plan) => write!(out, " {pair} beaten by {plan}"),
        }
    }

    // The place of a row and its words, by their values.
    fn row(&self, out: &mut impl Write, row: u32) -> io::Result<()> {
        let book = self.book.as_slice();
        match asked::row_place(book, row) {
            Ok(place) => write!(out, " at {place}")?,
            Err(refusal) => write!(out, " {}", Told(refusal))?,
        }
        say::values(out, asked::row_words(book, row))
    }

    // The refusal of a book, or that it is taken.
    fn test(&self, out: &mut impl Write, book: &[u32]) -> io::Result<()> {
        match asked::plans(self.opening, book) {
            Ok(Ok(_)) => write!(out, " taken"),
            Ok(Err(refusal)) => write!(out, " {}", Told(refusal)),
            Err(Different) => write!(out, " THE CALLS DIFFER"),
        }
    }

    // The same of the book with another word at the place.
    fn test_with(&self, out: &mut impl Write, word: u32) -> io::Result<()> {
        let changed = self.book.with(self.place, word);
        self.test(out, changed.as_slice())
    }

    // At how many places the book can be refused with a number there.
    fn hits(&self, out: &mut impl Write, number: u32) -> io::Result<()> {
        let count = (0..self.book.len())
            .filter(|place| self.is_hit(number, *place))
            .count();
        write!(out, " {count}")
    }

    // Whether the book is refused so, when it is made for it. Where the number is 0: whether it is taken, with as many plans.
    fn is_hit(&self, number: u32, place: usize) -> bool {
        let broken = broken(&self.book, number, place);
        match asked::plans(self.opening, broken.as_slice()) {
            Ok(Ok(count)) => number == 0 && count == place,
            Ok(Err(refusal)) => {
                let back = if number == Refusal::DISORDER { 3 } else { 0 };
                refusal.number == number && place.checked_sub(back) == Some(refusal.place)
            }
            Err(Different) => false,
        }
    }
}

// The book made so that it is to be refused with a number at a place, or three words before it.
fn broken(book: &Words<BOOK>, number: u32, place: usize) -> Words<BOOK> {
    let w = book.at(place);
    match number {
        Refusal::CUT => book.cut(place),
        Refusal::KIND => book.with(place, word::with_next_kind(w)),
        Refusal::RANGE => book.with(place, word::with_value(w, 20_000_001)),
        Refusal::TWICE => book.with(place, word::of(3, 1)),
        _ => book.with(place, word::of(6, 6)),
    }
}

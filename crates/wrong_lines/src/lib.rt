// Which line of a text is wrong, and what is wrong there.
#![tactic(auto)]

ghost use Rattle.std.specs.Prelude.{◌≡◌, None};
ghost use Rattle.wrong_lines.specs.declared.Wrong.TheVariants.{NoPosted};

use std::fmt;
use text_days::Stage;

// What is wrong with a line of a month: what may be wrong in a day, or what its posted lines bring, one of them the order number that no
// row of the day has.
#[derive(Clone, Copy, Debug, PartialEq, Eq)]
pub enum Wrong {
    Day(text_days::Wrong),
    NoPosted,
    AfterPosted,
    TooMany,
    NoRow(u32),
    Full,
}

impl From<text_days::Wrong> for Wrong {
    fn from(wrong: text_days::Wrong) -> Wrong {
        Wrong::Day(wrong)
    }
}

// The numbers of a posted line: more than it may have are too many.
impl From<text_words::Wrong> for Wrong {
    fn from(wrong: text_words::Wrong) -> Wrong {
        match wrong {
            text_words::Wrong::More => Wrong::TooMany,
            _ => Wrong::Day(text_days::Wrong::Numbers(wrong)),
        }
    }
}

impl fmt::Display for Wrong {
    fn fmt<W: fmt::Write>(&self, f: &mut fmt::Formatter<W>) -> fmt::Result {
        match self {
            Wrong::Day(text_days::Wrong::Unknown) => {
                write!(f, "{}, or with posted", text_days::Wrong::Unknown)
            }
            Wrong::Day(wrong) => write!(f, "{wrong}"),
            Wrong::NoPosted => f.write_str("the day ends without posted"),
            Wrong::AfterPosted => f.write_str(
                "the day has ended with its posted line: the next begins with free",
            ),
            Wrong::TooMany => f.write_str("too many numbers: a posted line has 257 at most"),
            Wrong::NoRow(number) => write!(f, "no row of the day has number {number}"),
            Wrong::Full => f.write_str("too many days: 31 is the most"),
        }
    }
}

// A line that is wrong: its number, and what is wrong there.
#[derive(Clone, Copy, Debug, PartialEq, Eq)]
pub struct WrongLine<W> {
    pub line: usize,
    pub wrong: W,
}

impl<W: fmt::Display> fmt::Display for WrongLine<W> {
    fn fmt<F: fmt::Write>(&self, f: &mut fmt::Formatter<F>) -> fmt::Result {
        let line = self.line;
        let wrong = &self.wrong;
        write!(f, "line {line}: {wrong}")
    }
}

// The line of a day that is wrong, in a month and after so many days, by the line, what may come there, and the rows of the day so far:
// what is wrong in the day, or if nothing is, that it ends without its posted line.
pub fn in_month(
    line: usize,
    stage: Stage,
    rows: usize,
    wrong: Option<text_days::Wrong>,
    days: usize,
) -> WrongLine<Wrong>
    ensures line { result.line ≡ line }
    ensures unposted { wrong ≡ None → result.wrong ≡ NoPosted }
{
    let new = stage == Stage::Free && days > 0;
    let wrong = match wrong {
        None => Wrong::NoPosted,
        Some(text_days::Wrong::FreeAgain) if rows > 0 => Wrong::NoPosted,
        Some(wrong) if new && wrong != text_days::Wrong::Unknown => Wrong::AfterPosted,
        Some(wrong) => Wrong::Day(wrong),
    };
    WrongLine { line, wrong }
}
